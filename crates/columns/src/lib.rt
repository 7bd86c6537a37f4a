// Columns of a card, and the classes of bytes that may stand in them.
//
// Every reading is total: it asks nothing of the columns, and a place past their end holds byte 0. The crate knows
// neither what an entry is nor what a card says.
#![tactic(auto)]

pub mod classes;
pub mod filling;
pub mod kinds;
