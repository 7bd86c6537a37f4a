ghost use Rattle.std.specs.Prelude.{◌≡◌};
ghost use Rattle.entries.specs.Indicators.{indicator_of, among, is_blank_or, is_condition, condition_of};

use columns::classes::{after, at, is_blank};
use columns::kinds::{Condition, Indicator};

// The indicator that two columns name, if they name one.
pub fn indicator(s: &[u8]) -> Option<Indicator>
    ensures { result ≡ indicator_of s.now }
{
    match (at(s, 0), at(s, 1)) {
        (b'L', b'R') => Some(110),
        (b'1', b'P') => Some(111),
        (b'L', b @ b'0'..=b'9') => Some(100 + (b - b'0')),
        (a @ b'0'..=b'9', b @ b'0'..=b'9') => {
            let n = 10 * (a - b'0') + (b - b'0');
            (n >= 1).then_some(n)
        }
        _ => None,
    }
}

// Tested where present: an indicator whose number lies between two others.
pub fn is_among(low: Indicator, high: Indicator, i: Option<Indicator>) -> bool
    ensures { result ≡ among low high i }
{
    i.is_some_and(|n| (low..=high).contains(&n))
}

// Blank, or an indicator between two others.
pub fn is_blank_or(low: Indicator, high: Indicator, s: &[u8]) -> bool
    ensures { result ≡ is_blank_or low high s.now }
{
    is_blank(s) || is_among(low, high, indicator(s))
}

// Blank, or N or a blank and then an indicator.
pub fn is_condition(s: &[u8]) -> bool
    ensures { result ≡ is_condition s.now }
{
    is_blank(s) || (matches!(at(s, 0), b' ' | b'N') && indicator(after(s, 1)).is_some())
}

// The condition that three columns name, if they name one.
pub fn condition(s: &[u8]) -> Option<Condition>
    ensures { result ≡ condition_of s.now }
{
    indicator(after(s, 1)).map(|indicator| Condition {
        negated: at(s, 0) == b'N',
        indicator,
    })
}
