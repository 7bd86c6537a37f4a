// The devices of a card machine: what a hopper that feeds cards is, and what a printer that holds lines is.
//
// A `Hopper` means a list of cards to come and an ending, which is the end or a fault of the hopper's own kind.
// A `Printer` means the lines that it holds, oldest first, and whether it has room for one more. Who knows the two
// traits knows all that is needed: every call answers for every input, says what became of the cards or the lines, and
// leaves what it refuses as it was.
//
// This crate knows characters, cards and lines. It may not know what the columns of a card mean, nor what makes a line.
#![tactic(auto)]

mod card;
mod hopper;
mod line;
mod line_making;
mod printer;
mod refusal;

pub use card::Card;
pub use hopper::Hopper;
pub use line::Line;
pub use line_making::LineFault;
pub use printer::Printer;
pub use refusal::Refusal;
