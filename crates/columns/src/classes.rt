ghost use Rattle.std.specs.Prelude.{◌≡◌, ℕ, ◌-◌, ◌≤◌, length, take, drop, slice_index};
ghost use Rattle.columns.specs.Classes.{is_of, run, past, all_of, is_blank, columns};

use crate::kinds::Class;
use characters::is_printable;
use devices::Card;

// The byte at a place counted from 0, and 0 past the end.
pub fn at(s: &[u8], i: usize) -> u8
    ensures { result ≡ slice_index s.now i }
{
    s.get(i).copied().unwrap_or(0)
}

// What follows the first n bytes, or other items.
pub fn after<T>(s: &[T], n: usize) -> &[T]
    ensures { result.now ≡ drop n s.now }
{
    s.get(n..).unwrap_or(&[])
}

// The first n bytes, or other items.
pub fn front<T>(s: &[T], n: usize) -> &[T]
    ensures value { result.now ≡ take n s.now }
    ensures len { length result.now ≤ n }
{
    s.get(..n).unwrap_or(s)
}

// The columns of an entry, counted from 1 as on the card.
pub fn entry(card: &Card, from: u8, to: u8) -> &[u8]
    ensures value { result.now ≡ columns card.now.columns from to }
    ensures len { length result.now ≤ to - (from - 1) }
{
    let all = &card.columns[..];
    let before = from.saturating_sub(1);
    front(
        after(all, before as usize),
        to.saturating_sub(before) as usize,
    )
}

impl Class {
    pub fn has(self, b: u8) -> bool
        ensures { result ≡ is_of self b }
    {
        match self {
            Class::Blank => b == b' ',
            Class::Digit => b.is_ascii_digit(),
            Class::Letter => b.is_ascii_uppercase(),
            Class::LetterOrDigit => b.is_ascii_uppercase() || b.is_ascii_digit(),
            Class::Quotable => is_printable(b) && b != b'\'',
            Class::Printable => is_printable(b),
        }
    }

    // How many bytes of the class stand first.
    pub fn run(self, s: &[u8]) -> usize
        ensures value { result ≡ run self s.now }
        ensures within { result ≤ length s.now }
    {
        s.iter().position(|b| !self.has(*b)).unwrap_or(s.len())
    }

    // What follows them.
    pub fn past(self, s: &[u8]) -> &[u8]
        ensures { result.now ≡ past self s.now }
    {
        after(s, self.run(s))
    }

    // Whether every byte is of the class.
    pub fn is_all(self, s: &[u8]) -> bool
        ensures { result ≡ all_of self s.now }
    {
        self.run(s) == s.len()
    }
}

pub fn is_blank(s: &[u8]) -> bool
    ensures { result ≡ is_blank s.now }
{
    Class::Blank.is_all(s)
}
