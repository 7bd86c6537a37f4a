// The plain types of the crate: how to round, what a result goes into, what a call can refuse, and what a last column
// counts.
use crate::picture::Picture;

// How an exact value becomes a count of the result's last decimal place.
#[derive(Clone, Copy, PartialEq, Eq, Debug)]
pub enum Rounding {
    // What lies below the last place is dropped: toward zero.
    Cut,
    // To the nearest count, halves away from zero.
    HalfAdjust,
}

// What a result is stored into: its picture, and how the exact value is brought to it.
#[derive(Clone, Copy, PartialEq, Eq, Debug)]
pub struct Target {
    pub picture: Picture,
    pub rounding: Rounding,
}

// Why columns do not read as an amount.
#[derive(Clone, Copy, PartialEq, Eq, Debug)]
pub enum ReadError {
    // There are not as many columns as the picture has digits.
    Width,
    // The first column that counts nothing.
    Column { column: u16 },
}

// Why there is no result.
#[derive(Clone, Copy, PartialEq, Eq, Debug)]
pub enum ArithmeticError {
    // The result has more digits than its picture.
    TooWide,
    ZeroDivisor,
    // A division whose result decimals, plus the divisor's, less the dividend's, are over nine.
    Scale,
}

// What the last column of a field counts, and whether it makes the field negative.
#[derive(Clone, Copy, PartialEq, Eq, Debug)]
pub(crate) struct Punch {
    pub negative: bool,
    pub digit: u8,
}
