// Rules in the order in which they are told, and the first one that is broken.
//
// A rule of a deck is kept, or it is told as a pair of refusal and column, to which the card's number is added above.
// Finding an entry in a list is one text for every kind of entry that has an equality, or a key that has one. The crate
// knows the numbers of the refusals of a deck, and neither a card kind nor a field table.
#![tactic(auto)]

mod finding;
mod refusal;
mod telling;

pub use finding::{Keyed, first_equal};
pub use refusal::{Breach, Refusal};
pub use telling::{each, first_of, punch, rule};
