// Exact arithmetic on amounts, and their order.
ghost use Rattle.std.specs.Prelude.{◌≡◌, ◌+◌, ◌*◌, ◌^◌, ◌<◌, ◌≤◌, pos, ◌*ℤ◌, neg_ℤ, unsigned_abs};
ghost use Rattle.numbers.specs.Limits.{widest};
ghost use Rattle.numbers.specs.Signs.{negative, signed, turned};
ghost use Rattle.numbers.specs.Exact.{exact, plus, minus, times, taken, stored, settled, divided, compared, arithmetic_number};
ghost use Rattle.numbers.specs.Outcomes.{counted, Pictured};

use crate::amount::Amount;
use crate::kinds::{ArithmeticError, Rounding, Target};
use crate::picture::{Picture, WIDEST};
use crate::powers::ten;
use crate::reading::with_sign;
use std::cmp::Ordering;

// That a result has its target's picture is a clause of each: it ties an answer to an argument, and no type holds
// both.
impl Amount {
    // The exact sum, cut or rounded into the picture of the result.
    pub fn add(self, other: Amount, into: Target) -> Result<Amount, ArithmeticError>
        ensures count { counted result ≡ settled into.rounding into.picture.digits into.picture.decimals (plus (exact self.count self.picture.decimals) (exact other.count other.picture.decimals)) }
        ensures picture { Pictured result into.picture }
    {
        let decimals = self.picture.decimals.max(other.picture.decimals);
        let left = finer(self, decimals - self.picture.decimals);
        let right = finer(other, decimals - other.picture.decimals);
        rescaled(left + right, decimals, into)
    }

    // The exact difference, cut or rounded into the picture of the result.
    pub fn subtract(self, other: Amount, into: Target) -> Result<Amount, ArithmeticError>
        ensures count { counted result ≡ settled into.rounding into.picture.digits into.picture.decimals (minus (exact self.count self.picture.decimals) (exact other.count other.picture.decimals)) }
        ensures picture { Pictured result into.picture }
    {
        self.add(opposite(other), into)
    }

    // The exact product, cut or rounded into the picture of the result.
    pub fn multiply(self, other: Amount, into: Target) -> Result<Amount, ArithmeticError>
        ensures count { counted result ≡ settled into.rounding into.picture.digits into.picture.decimals (times (exact self.count self.picture.decimals) (exact other.count other.picture.decimals)) }
        ensures picture { Pictured result into.picture }
    {
        rescaled(
            product(self.count, other.count),
            self.picture.decimals + other.picture.decimals,
            into,
        )
    }

    // The exact quotient, cut or rounded into the picture of the result.
    pub fn divide(self, by: Amount, into: Target) -> Result<Amount, ArithmeticError>
        ensures count { counted result ≡ divided into.rounding into.picture.digits into.picture.decimals self.count self.picture.decimals by.count by.picture.decimals }
        ensures picture { Pictured result into.picture }
    {
        if into.picture.decimals + by.picture.decimals > self.picture.decimals + WIDEST {
            return Err(ArithmeticError::Scale);
        }
        if by.count == 0 {
            return Err(ArithmeticError::ZeroDivisor);
        }
        let dividend = signed_by(self, by);
        store(
            dividend.is_negative(),
            quotient_size(dividend, by, into),
            into.picture,
        )
    }

    // The order of the exact values, whatever their decimals. No `Ord`: by `==` only amounts of one picture are equal.
    pub fn compare(self, other: Amount) -> Ordering
        ensures { result ≡ compared (exact self.count self.picture.decimals) (exact other.count other.picture.decimals) }
    {
        let left = finer(self, other.picture.decimals);
        let right = finer(other, self.picture.decimals);
        left.cmp(&right)
    }
}

impl ArithmeticError {
    // The number that the refusal is told under, where there is one. It never changes.
    pub fn number(&self) -> Option<u8>
        ensures { result ≡ arithmetic_number self.now }
    {
        match self {
            ArithmeticError::TooWide => Some(24),
            ArithmeticError::ZeroDivisor => Some(25),
            ArithmeticError::Scale => None,
        }
    }
}

// The count of an amount in a place that is k decimals finer.
fn finer(amount: Amount, k: u8) -> i64
    requires { k ≤ widest }
    ensures value { result ≡ amount.count *ℤ pos (10 ^ k) }
    ensures small { unsigned_abs result < 10 ^ (widest + widest) }
{
    product(amount.count, ten(k) as i64)
}

// A function of its own, since its bound serves a count made finer and a product of two counts.
fn product(a: i64, b: i64) -> i64
    requires a { unsigned_abs a < 10 ^ widest }
    requires b { unsigned_abs b ≤ 10 ^ widest }
    ensures value { result ≡ a *ℤ b }
    ensures small { unsigned_abs result < 10 ^ (widest + widest) }
{
    a * b
}

// The amount with the other sign.
fn opposite(amount: Amount) -> Amount
    ensures count { result.count ≡ neg_ℤ amount.count }
    ensures picture { result.picture ≡ amount.picture }
{
    Amount {
        count: -amount.count,
        picture: amount.picture,
    }
}

// The dividend, with the sign that its quotient by a divisor has.
fn signed_by(dividend: Amount, divisor: Amount) -> Amount
    ensures count { result.count ≡ turned (negative divisor.count) dividend.count }
    ensures picture { result.picture ≡ dividend.picture }
{
    if divisor.is_negative() {
        opposite(dividend)
    } else {
        dividend
    }
}

// A size over a unit as a whole number, cut or rounded.
fn quotient(size: u64, unit: u64, rounding: Rounding) -> u64
    requires some { 1 ≤ unit }
    requires size { size < 2 * 10 ^ (widest + widest) }
    requires unit { unit ≤ 10 ^ (widest + widest) }
    ensures value { result ≡ taken rounding size unit }
    ensures small { result ≤ size }
{
    match rounding {
        Rounding::Cut => size / unit,
        Rounding::HalfAdjust => (2 * size + unit) / (2 * unit),
    }
}

// The amount of a size and a sign, unless it is too wide.
fn store(negative: bool, size: u64, picture: Picture) -> Result<Amount, ArithmeticError>
    requires { size < 2 ^ 63 }
    ensures count { counted result ≡ stored picture.digits (signed negative size) }
    ensures picture { Pictured result picture }
{
    Amount::new(with_sign(negative, size), picture).ok_or(ArithmeticError::TooWide)
}

// A count of the given decimals, cut or rounded into the picture of the result. What has fewer decimals than
// the result is tested before it is made larger.
fn rescaled(count: i64, decimals: u8, into: Target) -> Result<Amount, ArithmeticError>
    requires size { unsigned_abs count < 2 * 10 ^ (widest + widest) }
    requires decimals { decimals ≤ widest + widest }
    ensures count { counted result ≡ settled into.rounding into.picture.digits into.picture.decimals (exact count decimals) }
    ensures picture { Pictured result into.picture }
{
    let picture = into.picture;
    let size = count.unsigned_abs();
    let negative = count.is_negative();
    if decimals > picture.decimals {
        let unit = ten(decimals - picture.decimals);
        return store(negative, quotient(size, unit, into.rounding), picture);
    }
    let up = picture.decimals - decimals;
    if size < ten(picture.digits - up) {
        store(negative, size * ten(up), picture)
    } else {
        Err(ArithmeticError::TooWide)
    }
}

// The size of a quotient of two amounts as a count of the result's decimals.
fn quotient_size(dividend: Amount, divisor: Amount, into: Target) -> u64
    requires scale { into.picture.decimals + divisor.picture.decimals ≤ dividend.picture.decimals + widest }
    requires divisor { 1 ≤ unsigned_abs divisor.count }
    ensures size { result ≡ taken into.rounding (unsigned_abs dividend.count * 10 ^ divisor.picture.decimals * 10 ^ into.picture.decimals) (10 ^ dividend.picture.decimals * unsigned_abs divisor.count) }
    ensures small { result < 10 ^ (widest + widest) }
{
    let above = dividend.size();
    let below = divisor.size();
    let up = into.picture.decimals + divisor.picture.decimals;
    let down = dividend.picture.decimals;
    if up >= down {
        quotient(above * ten(up - down), below, into.rounding)
    } else {
        quotient(above, below * ten(down - up), into.rounding)
    }
}
