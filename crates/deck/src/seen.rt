use columns::kinds::{Indicator, Name};

// What the rules ask of the cards before a card: the highest rank, the record indicators, and the names and levels of
// the record type that is open.
#[derive(Drop)]
pub(crate) struct Seen {
    pub(crate) highest: u8,
    pub(crate) indicators: Vec<Indicator>,
    pub(crate) names: Vec<Name>,
    pub(crate) levels: Vec<Indicator>,
}
