ghost use Rattle.std.specs.Prelude.{◌≡◌, ℕ, ◌+◌, ◌-◌, ◌^◌, ◌<◌, ◌≤◌, true, length};
ghost use Rattle.std.specs.Option.{option_map};
ghost use Rattle.entries.specs.Literals.{quoted_in, text_of, is_text, is_minus, unsigned, fraction, is_numeric, literal_of, numeric_of, signed};

use crate::plain::count;
use columns::classes::{after, at, front, is_blank};
use columns::kinds::{Class, Literal};

// The bytes between a first and a last apostrophe.
fn quoted(s: &[u8]) -> Option<&[u8]>
    ensures { option_map (λ x. x.now) result ≡ quoted_in s.now }
{
    match s {
        [b'\'', inside @ .., b'\''] => Some(inside),
        _ => None,
    }
}

// The text of an alphameric literal that begins in the first column: what stands between its apostrophes.
pub fn text(s: &[u8]) -> Option<&[u8]>
    ensures { option_map (λ x. x.now) result ≡ text_of s.now }
{
    let end = Class::Quotable.run(after(s, 1)).saturating_add(2);
    if is_blank(after(s, end)) {
        quoted(front(s, end))
    } else {
        None
    }
}

// Whether the columns hold an alphameric literal of at least one byte.
pub fn is_text(s: &[u8]) -> bool
    ensures { result ≡ is_text s.now }
{
    text(s).is_some_and(|inside| !inside.is_empty())
}

fn is_minus(s: &[u8]) -> bool
    ensures { result ≡ is_minus s.now }
{
    at(s, 0) == b'-'
}

// The columns behind an optional minus.
fn unsigned_part(s: &[u8]) -> &[u8]
    ensures { result.now ≡ unsigned s.now }
{
    s.strip_prefix(b"-").unwrap_or(s)
}

// The columns behind the first digits and an optional point.
fn fraction_part(s: &[u8]) -> &[u8]
    ensures { result.now ≡ fraction s.now }
{
    let rest = Class::Digit.past(s);
    rest.strip_prefix(b".").unwrap_or(rest)
}

// Whether the columns hold a numeric literal.
pub fn is_numeric(s: &[u8]) -> bool
    ensures { result ≡ is_numeric s.now }
{
    let whole = unsigned_part(s);
    let part = fraction_part(whole);
    let digits = Class::Digit
        .run(whole)
        .saturating_add(Class::Digit.run(part));
    (1..=9).contains(&digits) && is_blank(Class::Digit.past(part))
}

// `numbers` has the like for amounts; this crate rests on `columns` alone.
fn with_sign(minus: bool, size: u64) -> i64
    requires { size < 10 ^ 18 }
    ensures { result ≡ signed minus size }
{
    let size = size as i64;
    if minus { -size } else { size }
}

// The number of a literal that is one.
fn literal(s: &[u8]) -> Literal
    requires { is_numeric s.now ≡ true }
    ensures { result ≡ literal_of s.now }
{
    let whole = unsigned_part(s);
    let part = fraction_part(whole);
    let wide = Class::Digit.run(whole);
    let decimals = Class::Digit.run(part);
    let size = count(count(0, front(whole, wide)), front(part, decimals));
    Literal {
        count: with_sign(is_minus(s), size),
        digits: (wide + decimals) as u16,
        decimals: decimals as u16,
    }
}

// The number of a numeric literal that begins in the first column.
pub fn numeric(s: &[u8]) -> Option<Literal>
    ensures { result ≡ numeric_of s.now }
{
    is_numeric(s).then(|| literal(s))
}
