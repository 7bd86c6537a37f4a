// Amounts: the numbers of a card report.
//
// A numeric field has a picture: 1 to 9 digits, some of them decimals. What it holds is an amount, a whole count of
// its last decimal place that has no more digits than the picture. This crate reads amounts from the columns of a
// card and calculates with them exactly.
//
// It promises, for all inputs:
// - columns read as one amount, or the first wrong column is told;
// - a sum, difference, product or quotient is the exact value cut toward zero or half-adjusted to the decimals of the
//   result, or is refused as too wide;
// - the order of two amounts is that of their exact values.
//
// Nothing here allocates, and no call asks anything of its caller: what it cannot do is an answer of its own. The
// crate knows nothing of how an amount is printed, nor of decks, fields, runs or printers.
#![tactic(auto)]

pub mod amount;
mod arithmetic;
pub mod kinds;
pub mod laws;
pub mod picture;
mod powers;
mod reading;

pub use amount::Amount;
pub use kinds::{ArithmeticError, ReadError, Rounding, Target};
pub use picture::{Picture, WIDEST};
