// Deck cards: the layout of each card kind, and what its columns may hold.
//
// A card is judged by its layout, a table with one rule for each entry, so that every rule stands once and in the
// order of its columns: `layouts::layout` is that table, and no column of a card that is read is left out of it.
// `tells::punches` answers the first rule that a card breaks, with the column that it is told at, or nothing where
// the card keeps them all. The types of what cards mean stand here too, in `kinds`.
//
// The crate looks at one card at a time, and knows of the cards before it only the highest rank in their order.
// What several cards say together, and whether a name is known, is for the deck to say.
#![tactic(auto)]

mod calculations;
pub mod inputs;
pub mod kinds;
pub mod layouts;
mod outputs;
pub mod tells;
