// The draft of an image: its columns are put from the right to the left, since that is how digits come.
ghost use Rattle.std.specs.Prelude.{◌≡◌, ◌+◌, ◌<◌, ◌≤◌, [], ◌∷◌, ◌++◌, true, length, replicate, unsigned_abs};
ghost use Rattle.std.specs.Option.{option_to_list};
ghost use Rattle.characters.specs.Printable.{printable};
ghost use Rattle.numbers.specs.Signs.{negative};
ghost use Rattle.images.specs.Limits.{image_columns};
ghost use Rattle.images.specs.Images.{digits as digits_of, mark, text, blanked, sign_bytes, overpunch, unedited, edited};
ghost use Rattle.images.specs.Lines.{image_bytes};
ghost use Rattle.images.specs.Drafts.{full, fronted, followed, fills_blanked};

use crate::edits::{EditStyle, SignStyle};
use crate::image::{IMAGE_COLUMNS, Image};
use crate::width::{edited_width, text_width};
use numbers::Amount;
use std::marker::Model;

// The columns from `at` up to `end` are written, and those before `at` are free. An array with its places beside it,
// since an image takes no memory.
#[derive(Drop)]
pub(crate) struct Draft {
    bytes: [u8; IMAGE_COLUMNS],
    at: usize,
    end: usize,
}

impl Model for Draft {
    ghost use Rattle.std.specs.Prelude.{◌≤◌, slice_range};
    ghost use Rattle.images.specs.Limits.{image_columns};
    ghost use Rattle.images.specs.Drafts.{Drafted};

    ghost Value = { Drafted };

    ghost view = { λ d. record { room = d.at; written = slice_range d.bytes d.at d.end } };

    ghost invariant = { λ d. (d.at ≤ d.end) × (d.end ≤ image_columns) };
}

// What is put between digits.
#[derive(Clone, Copy)]
struct Marks {
    commas: bool,
    decimals: u8,
}

impl Draft {
    // All digits, the last of them overpunched if the amount is negative.
    pub(crate) fn unedited(amount: Amount) -> Draft
        ensures { result ≡ full (unedited amount.picture.digits amount.count) }
    {
        let size = amount.size();
        let marks = Marks {
            commas: false,
            decimals: 0,
        };
        let mut draft = Draft::new(amount.picture.digits);
        draft.put(last_byte(amount.is_negative(), (size % 10) as u8));
        draft.put_digits(marks, amount.picture.digits - 1, size / 10);
        draft
    }

    // What an edit style asks for: blanks for a zero, or the digits with their marks.
    pub(crate) fn edited(amount: Amount, style: EditStyle) -> Draft
        ensures { result ≡ full (edited style amount.picture.digits amount.picture.decimals amount.count) }
    {
        if style.blank_zero && amount.size() == 0 {
            Draft::blank(edited_width(amount.picture, style))
        } else {
            Draft::shown(amount, style)
        }
    }

    // The digits with their marks and a blanked front, and the sign behind them.
    fn shown(amount: Amount, style: EditStyle) -> Draft
        ensures { result ≡ full (blanked (text style.commas amount.picture.decimals (digits_of amount.picture.digits (unsigned_abs amount.count))) ++ sign_bytes style.sign (negative amount.count)) }
    {
        let marks = Marks {
            commas: style.commas,
            decimals: amount.picture.decimals,
        };
        let mut draft = Draft::new(text_width(amount.picture, style.commas));
        draft.put_digits(marks, amount.picture.digits, amount.size());
        draft.blank_front();
        draft.push_sign(style.sign, amount.is_negative());
        draft
    }

    // Blanks, and no free column.
    fn blank(width: u8) -> Draft
        requires { width ≤ image_columns }
        ensures { result ≡ full (replicate width 32) }
    {
        Draft {
            bytes: [b' '; IMAGE_COLUMNS],
            at: 0,
            end: width as usize,
        }
    }

    // A draft of so many free columns.
    fn new(room: u8) -> Draft
        requires { room ≤ image_columns }
        ensures { result ≡ record { room = room; written = [] } }
    {
        Draft {
            bytes: [b' '; IMAGE_COLUMNS],
            at: room as usize,
            end: room as usize,
        }
    }

    // Puts one byte before what is written.
    fn put(&mut self, byte: u8)
        requires { 1 ≤ self.old.room }
        ensures { self.new ≡ fronted (byte ∷ []) self.old }
    {
        self.at -= 1;
        self.bytes[self.at] = byte;
    }

    // Puts digits with their marks.
    fn put_digits(&mut self, marks: Marks, digits: u8, size: u64)
        requires { length (text marks.commas marks.decimals (digits_of digits size)) ≤ self.old.room }
        ensures { self.new ≡ fronted (text marks.commas marks.decimals (digits_of digits size)) self.old }
    {
        let mut rest = size;
        for k in 0..digits {
            self.put_mark(marks, k);
            self.put(b'0' + (rest % 10) as u8);
            rest /= 10;
        }
        let front = Marks {
            commas: false,
            ..marks
        };
        self.put_mark(front, digits);
    }

    // Puts the mark, if any, behind a digit which `k` others follow.
    fn put_mark(&mut self, marks: Marks, k: u8)
        requires { length (mark marks.commas marks.decimals k) ≤ self.old.room }
        ensures { self.new ≡ fronted (mark marks.commas marks.decimals k) self.old }
    {
        if let Some(byte) = marks.mark(k) {
            self.put(byte);
        }
    }

    // Blanks zeros and commas at the front; the last column stays.
    fn blank_front(&mut self)
        ensures { self.new ≡ record self.old { written = blanked self.old.written } }
    {
        blank_front(&mut self.bytes[self.at..self.end]);
    }

    // Puts what stands behind the digits.
    fn push_sign(&mut self, sign: SignStyle, minus: bool)
        requires { self.old.room + length self.old.written < image_columns }
        ensures { self.new ≡ followed (sign_bytes sign minus) self.old }
    {
        match sign {
            SignStyle::Omitted => {}
            SignStyle::Minus => self.push(if minus { b'-' } else { b' ' }),
        }
    }

    // Puts one byte behind what is written.
    fn push(&mut self, byte: u8)
        requires { self.old.room + length self.old.written < image_columns }
        ensures { self.new ≡ followed (byte ∷ []) self.old }
    {
        self.bytes[self.end] = byte;
        self.end += 1;
    }

    // The image, once no column is free.
    pub(crate) fn image(self) -> Image
        requires full { self.room ≡ 0 }
        requires printed { printable self.written ≡ true }
        ensures bytes { image_bytes result ≡ self.written }
        ensures width { result.width ≡ length self.written }
    {
        let bytes = self.bytes;
        Image {
            bytes,
            width: self.end as u8,
        }
    }
}

impl Marks {
    // The mark that stands behind a digit which `k` others follow: a point before any decimals, and commas between
    // thousands.
    fn mark(self, k: u8) -> Option<u8>
        ensures { option_to_list result ≡ mark self.commas self.decimals k }
    {
        let decimals = self.decimals;
        if k == decimals {
            (decimals > 0).then_some(b'.')
        } else {
            (self.commas && k > decimals && (k - decimals) % 3 == 0).then_some(b',')
        }
    }
}

// Blanks zeros and commas at the front; the last column stays.
fn blank_front(columns: &mut [u8])
    ensures { columns.new ≡ blanked columns.old }
{
    if let Some((_last, front)) = columns.split_last_mut() {
        blank_fills(front);
    }
}

// Blanks zeros and commas up to the first other column. Not by `take_while(..).count()` and `fill`: that was tried, and
// images took 5 to 75 percent longer, by a call for a few columns.
fn blank_fills(columns: &mut [u8])
    ensures { columns.new ≡ fills_blanked columns.old }
{
    for b in columns.iter_mut() {
        if *b != b'0' && *b != b',' {
            return;
        }
        *b = b' ';
    }
}

// The last column of an unedited number.
fn last_byte(minus: bool, digit: u8) -> u8
    requires { digit < 10 }
    ensures { result ≡ overpunch minus digit }
{
    if !minus {
        b'0' + digit
    } else if digit == 0 {
        b'}'
    } else {
        b'I' + digit
    }
}
