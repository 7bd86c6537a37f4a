// Cards taken from a hopper: those of a deck, up to the card that ends it, and those behind it, listed as they are.
//
// Both are proved over any hopper and, where they print, any printer. The crate knows the mark that ends a deck, and
// nothing of what a deck says.
#![tactic(auto)]

pub mod deck_cards;
pub mod listing;
