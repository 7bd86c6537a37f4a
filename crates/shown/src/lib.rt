// What the programs print: rows of cells, and the texts of indicators, names, bytes and other things as a person reads
// them.
#![tactic(auto)]

mod parts;
mod row;
mod texts;

pub use parts::{CodeText, LiteralText, PrintedText, SizeText};
pub use row::{Cell, Row};
pub use texts::{BytesText, ConditionText, IndicatorText, NameText, OrDash};
