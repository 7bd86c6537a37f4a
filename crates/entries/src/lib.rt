// Entries of a card: names, numbers, indicators, conditions and literals.
//
// For each kind of entry this crate says whether columns hold one, and what they then mean. Every reading is total: it
// asks nothing of the columns. The crate knows no card kind, no deck and no field table.
#![tactic(auto)]

mod indicators;
mod literals;
mod plain;

pub use indicators::{condition, indicator, is_among, is_blank_or, is_condition};
pub use literals::{is_numeric, is_text, numeric, text};
pub use plain::{is_name, is_number, value};
