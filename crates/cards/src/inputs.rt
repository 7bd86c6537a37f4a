// The entries of input cards.
ghost use Rattle.std.specs.Prelude.{◌≡◌, ◌≤◌, ◌&&◌};
ghost use Rattle.columns.specs.Classes.{within};
ghost use Rattle.entries.specs.Entries.{is_number, value_of};
ghost use Rattle.cards.specs.Punches.{is_position, is_filled_code, is_code, width_of, widest, is_to, is_field_decimals, is_sign_indicator};

use columns::classes::{at, front, is_blank};
use columns::kinds::Class;
use entries::{is_blank_or, is_number, value};

// A number from one to another.
pub(crate) fn is_between(low: u16, high: u16, s: &[u8]) -> bool
    ensures { result ≡ (is_number s.now && within low high (value_of s.now)) }
{
    is_number(s) && (low..=high).contains(&value(s))
}

// A position on a data card, 1 to 80.
pub(crate) fn is_position(s: &[u8]) -> bool
    ensures { result ≡ is_position s.now }
{
    is_between(1, 80, s)
}

// A code: a position, N or a blank, C, and a character.
fn is_filled_code(s: &[u8]) -> bool
    ensures { result ≡ is_filled_code s.now }
{
    is_position(front(s, 4))
        && matches!(at(s, 4), b' ' | b'N')
        && at(s, 5) == b'C'
        && Class::Printable.has(at(s, 6))
}

// A code, or nothing.
pub(crate) fn is_code(s: &[u8]) -> bool
    ensures { result ≡ is_code s.now }
{
    is_blank(s) || is_filled_code(s)
}

// How many columns of a data card a field has, from the columns of its first and last position.
pub fn width(from: &[u8], to: &[u8]) -> u16
    ensures { result ≡ width_of from.now to.now }
{
    (value(to) + 1).saturating_sub(value(from))
}

// The most columns that a field may have: 32 for text, 9 for a number.
pub(crate) fn widest_of(decimals: &[u8]) -> u16
    ensures { result ≡ widest decimals.now }
{
    if is_blank(decimals) { 32 } else { 9 }
}

// A field's last position. From and to are two arguments: the columns of a rule are the one, and the other is read off
// the card.
pub(crate) fn is_to(from: &[u8], to: &[u8], decimals: &[u8]) -> bool
    ensures { result ≡ is_to from.now to.now decimals.now }
{
    is_position(to) && value(from) <= value(to) && width(from, to) <= widest_of(decimals)
}

// A field's decimals.
pub(crate) fn is_field_decimals(from: &[u8], to: &[u8], decimals: &[u8]) -> bool
    ensures { result ≡ is_field_decimals from.now to.now decimals.now }
{
    is_blank(decimals) || (Class::Digit.is_all(decimals) && value(decimals) <= width(from, to))
}

// An indicator that tells plus or minus of a number.
pub(crate) fn is_sign_indicator(decimals: &[u8], s: &[u8]) -> bool
    ensures { result ≡ is_sign_indicator decimals.now s.now }
{
    is_blank_or(1, 99, s) && (is_blank(s) || !is_blank(decimals))
}
