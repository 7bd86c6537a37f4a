ghost use Rattle.std.specs.Prelude.{◌≡◌, ℕ, ◌+◌, ◌-◌, ◌*◌, ◌^◌, ◌<◌, ◌≤◌, length};
ghost use Rattle.entries.specs.Entries.{is_name, is_number, digit_of, count_from, value_of};

use columns::classes::{at, front, is_blank};
use columns::kinds::Class;

// A name: a letter, then letters and digits, six at most, then blanks.
pub fn is_name(s: &[u8]) -> bool
    ensures { result ≡ is_name s.now }
{
    Class::Letter.has(at(s, 0))
        && Class::LetterOrDigit.run(s) <= 6
        && is_blank(Class::LetterOrDigit.past(s))
}

// A number: blanks, then digits.
pub fn is_number(s: &[u8]) -> bool
    ensures { result ≡ is_number s.now }
{
    !is_blank(s) && Class::Digit.is_all(Class::Blank.past(s))
}

// What one column counts.
fn digit(b: u8) -> u8
    ensures value { result ≡ digit_of b }
    ensures small { result ≤ 9 }
{
    match b {
        b'0'..=b'9' => b - b'0',
        _ => 0,
    }
}

// What up to nine columns count, going on from v.
pub(crate) fn count(v: u64, s: &[u8]) -> u64
    requires start { v < 10 ^ 9 }
    requires few { length s.now ≤ 9 }
    ensures value { result ≡ count_from v s.now }
    ensures small { result < (v + 1) * 10 ^ length s.now }
{
    // Tried as a fold: that each sum fits did not close there.
    let mut sum = v;
    for b in s {
        sum = sum * 10 + u64::from(digit(*b));
    }
    sum
}

// The number in an entry, of which up to four columns count.
pub fn value(s: &[u8]) -> u16
    ensures value { result ≡ value_of s.now }
    ensures small { result ≤ 9999 }
{
    count(0, front(s, 4)) as u16
}
