// The cards of a deck, which stand in front of the data and end with a card `/*`.
ghost use Rattle.std.specs.Prelude.{◌≡◌, ◌++◌};
ghost use Rattle.listing.specs.DeckCards.{is_mark, TakesDeck};
ghost use Rattle.listing.specs.declared.deck_cards.TakeError.TheVariants.{NoMemory};

use columns::classes::{entry, is_blank};
use devices::{Card, Hopper};
use std::alloc::AllocError;

// What ended a deck.
#[derive(Drop)]
pub enum DeckEnd {
    // The mark: data follow.
    Mark,
    // There is no card left, and so there are no data.
    End,
}

// Why the cards of a deck were not all taken.
#[derive(Drop)]
pub enum TakeError<F> {
    // There is no card left that could be fed.
    Fault(F),
    NoMemory,
}

impl<F> From<AllocError> for TakeError<F> {
    ghost from_gives = { λ _ e. e ≡ NoMemory };

    fn from(_: AllocError) -> TakeError<F> {
        TakeError::NoMemory
    }
}

// The card that ends a deck.
fn is_mark(card: &Card) -> bool
    ensures { result ≡ is_mark card.now }
{
    card.columns.starts_with(b"/*") && is_blank(entry(card, 3, 80))
}

// Takes the cards of a deck from a hopper, and puts their bytes behind others.
pub fn take_deck<H: Hopper>(
    hopper: &mut H,
    text: &mut Vec<u8>,
) -> Result<DeckEnd, TakeError<H::Fault>>
    ensures { TakesDeck result (H.Hopper.cards hopper.old) (H.Hopper.ending hopper.old) text.old.items (H.Hopper.cards hopper.new) text.new.items }
{
    'cards: while let Some(card) = hopper.feed().map_err(TakeError::Fault)? {
        if is_mark(&card) {
            return Ok(DeckEnd::Mark);
        }
        text.extend_from_slice(&card.columns)?;
    }
    Ok(DeckEnd::End)
}
