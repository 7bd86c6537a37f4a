use crate::actions::Actions;
use crate::definitions::Definitions;

// The table of a deck: its text, what its cards define, and what they ask for. A table into which no deck was read,
// or from which the last one was refused, is empty.
#[derive(Drop)]
pub struct Deck {
    pub text: Vec<u8>,
    pub definitions: Definitions,
    pub actions: Actions,
}
