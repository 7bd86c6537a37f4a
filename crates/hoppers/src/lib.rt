// Two hoppers: the `Tray` reads cards that stand end to end, and the `LineHopper` makes a card of each line of a text.
//
// Each is proved against the contract of a `Hopper`: it has just the cards of its bytes to come, and just their ending,
// which is a fault of its own kind where the bytes make no whole card. It reads lent bytes and takes no memory; a call
// takes time for the one card that it feeds. Where the first line of a text ends stands here too, `line_length`, for
// whoever else reads lines.
//
// This crate knows bytes and cards, and fills columns with blanks. It may not know what the columns of a card mean.
#![tactic(auto)]

mod laws;
mod line_hopper;
mod texts;
mod tray;

pub use laws::line_end;
pub use line_hopper::{LineHopper, LongLine};
pub use texts::line_length;
pub use tray::{Leftover, Tray};
