// The deck: what its cards say together, with every name looked up once.
//
// Reading a deck answers its first breach, by refusal, card and column, or fills the table that a run works from.
// The crate promises that the answer is the first of all breaches in the order in which they are told, that a deck
// is accepted exactly if there is none, and that the table then says what the columns say. It knows no data card
// and no run.
#![tactic(auto)]

mod acting;
pub mod actions;
pub mod deck;
mod defining;
pub mod definitions;
mod doubles;
pub mod kinds;
mod parts;
mod reading;
mod seen;
