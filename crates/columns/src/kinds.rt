// What a column may hold.
#[derive(Clone, Copy, PartialEq, Eq, Debug)]
pub enum Class {
    Blank,
    Digit,
    Letter,
    LetterOrDigit,
    Quotable,
    Printable,
}

// The name of a field: six columns, filled with blanks at the right.
pub type Name = [u8; 6];

// An indicator by its number: 01 to 99 are 1 to 99, L0 to L9 are 100 to 109, LR is 110 and 1P is 111.
// A number and no enum, by a rule of the project (docs/DECISIONS.md): one search finds names and numbers alike.
pub type Indicator = u8;

// A condition: an indicator that has to be on or, negated, off.
#[derive(Clone, Copy, PartialEq, Eq, Debug)]
pub struct Condition {
    pub negated: bool,
    pub indicator: Indicator,
}

// A numeric literal: a whole count of its last decimal place.
#[derive(Clone, Copy, PartialEq, Eq, Debug)]
pub struct Literal {
    pub count: i64,
    pub digits: u16,
    pub decimals: u16,
}
