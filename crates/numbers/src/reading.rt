// Reading an amount from the columns of a numeric field.
ghost use Rattle.std.specs.Prelude.{◌≡◌, ◌+◌, ◌^◌, ◌<◌, ◌≤◌, true, false, length, IfSome, IfOk, Some, unsigned_abs};
ghost use Rattle.numbers.specs.Limits.{widest};
ghost use Rattle.numbers.specs.Signs.{signed};
ghost use Rattle.numbers.specs.Reading.{count_of, last_of, punch, read_on, read_field, read_amount, read_number};
ghost use Rattle.numbers.specs.Outcomes.{counted, Pictured};

use crate::amount::Amount;
use crate::kinds::{Punch, ReadError};
use crate::picture::Picture;

impl Amount {
    // The amount that a field's columns hold. The first of them is column `first` of its card, and a wrong
    // column is told by its place on that card.
    pub fn read(columns: &[u8], first: u8, picture: Picture) -> Result<Amount, ReadError>
        ensures count { counted result ≡ read_amount picture.digits first columns.now }
        ensures picture { Pictured result picture }
    {
        if columns.len() != usize::from(picture.digits) {
            return Err(ReadError::Width);
        }
        let count = read_field(columns, first)?;
        Ok(Amount { count, picture })
    }
}

impl ReadError {
    // The number that the refusal is told under, where there is one. It never changes.
    pub fn number(&self) -> Option<u8>
        ensures { result ≡ read_number self.now }
    {
        match self {
            ReadError::Width => None,
            ReadError::Column { .. } => Some(22),
        }
    }
}

// The count of a field's columns, or the first wrong one. The columns and the number of the first are two arguments, as
// they come: the columns that are left change, and the number stays.
fn read_field(columns: &[u8], first: u8) -> Result<i64, ReadError>
    requires some { 1 ≤ length columns.now }
    requires few { length columns.now ≤ widest }
    ensures value { result ≡ read_field first columns.now }
    ensures small { IfOk result (λ v. unsigned_abs v < 10 ^ length columns.now) }
{
    let (last, front) = columns.split_last().ok_or(ReadError::Width)?;
    let value = read_digits(front, first)?;
    let last = last_digit(*last).ok_or(wrong(first, front.len()))?;
    Ok(with_sign(last.negative, value * 10 + u64::from(last.digit)))
}

// The count of columns before the last, or the first wrong one.
fn read_digits(columns: &[u8], first: u8) -> Result<u64, ReadError>
    requires few { length columns.now ≤ widest }
    ensures value { result ≡ read_on 0 first columns.now }
    ensures small { IfOk result (λ v. v < 10 ^ length columns.now) }
{
    let mut value: u64 = 0;
    for (i, b) in columns.iter().enumerate() {
        let d = digit(*b).ok_or(wrong(first, i))?;
        value = value * 10 + u64::from(d);
    }
    Ok(value)
}

// The refusal of the column that is i behind the first.
fn wrong(first: u8, i: usize) -> ReadError
    requires { i ≤ widest }
    ensures { result ≡ ReadError.Column (first + i) }
{
    ReadError::Column {
        column: u16::from(first) + i as u16,
    }
}

// What a column counts: a digit itself, a blank 0.
fn digit(b: u8) -> Option<u8>
    ensures value { result ≡ count_of b }
    ensures small { IfSome result (λ d. d ≤ 9) }
{
    match b {
        b' ' => Some(0),
        b'0'..=b'9' => Some(b - b'0'),
        _ => None,
    }
}

// What the last column counts: as any other, or an overpunch that also has a sign.
fn last_digit(b: u8) -> Option<Punch>
    ensures value { result ≡ last_of b }
    ensures small { IfSome result (λ p. p.digit ≤ 9) }
{
    match b {
        b'{' => Some(punch(false, 0)),
        b'A'..=b'I' => Some(punch(false, b - b'@')),
        b'}' => Some(punch(true, 0)),
        b'J'..=b'R' => Some(punch(true, b - b'I')),
        _ => digit(b).map(|d| punch(false, d)),
    }
}

fn punch(negative: bool, digit: u8) -> Punch
    ensures { Some result ≡ punch negative digit }
{
    Punch { negative, digit }
}

// The number of a size and a sign; zero has no sign. `entries` has its own, since it rests on `columns` alone.
pub(crate) fn with_sign(negative: bool, size: u64) -> i64
    requires { size < 2 ^ 63 }
    ensures value { result ≡ signed negative size }
    ensures size { unsigned_abs result ≡ size }
{
    if negative {
        -(size as i64)
    } else {
        size as i64
    }
}
