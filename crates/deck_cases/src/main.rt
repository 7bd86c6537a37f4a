// Reads many decks from standard input and prints the answer to each, for comparison with a reader that was written
// independently of this one.
//
// A deck is one text line a card, filled with blanks. A line `/*` ends it; behind `/*` may stand how many of the
// deck's last bytes are cut off. Of each deck its number is printed, and then `deck,NUMBER,CARD,COLUMN` where it is
// refused, or `ok` and what its table holds, line by line.
#![tactic(auto)]

use deck::deck::Deck;
use deck::kinds::Numbers;
use devices::{Card, Hopper};
use hoppers::LineHopper;
use std::io;
use std::io::Read;
use tables::show_deck;

mod tables;

fn main(rt: HostRuntime) -> anyhow::Result<()> {
    let mut text = Vec::new(rt.alloc());
    rt.stdin().read_to_end(&mut text)?;
    let mut deck = Deck::new(rt.alloc());
    let mut cards = Vec::new(rt.alloc());
    answer_all(&rt, text.as_slice(), &mut deck, &mut cards)
}

// Answers every deck of a text. All are read into the same table, one after the other; `cards` takes their cards.
fn answer_all(
    rt: &HostRuntime,
    text: &[u8],
    deck: &mut Deck,
    cards: &mut Vec<u8>,
) -> anyhow::Result<()> {
    let mut hopper = LineHopper::new(text);
    let mut number = 0u64;
    'cards: while let Ok(Some(card)) = hopper.feed() {
        if is_mark(&card) {
            number = number.saturating_add(1);
            println!(rt; "#{number}")?;
            answer(rt, deck, cards.as_slice(), cut(&card))?;
            cards.clear();
        } else {
            cards.extend_from_slice(&card.columns)?;
        }
    }
    Ok(())
}

fn is_mark(card: &Card) -> bool {
    card.columns.starts_with(b"/*")
}

// How many bytes are cut off, from what stands behind the mark.
fn cut(card: &Card) -> usize {
    card.columns[2..6]
        .iter()
        .filter(|b| b.is_ascii_digit())
        .fold(0usize, |n, b| {
            n.saturating_mul(10)
                .saturating_add(usize::from(b.saturating_sub(b'0')))
        })
}

// Reads a deck without its last bytes, as many as are cut off, and prints the answer.
fn answer(rt: &HostRuntime, deck: &mut Deck, cards: &[u8], cut: usize) -> io::Result<()> {
    let left = cards.len().saturating_sub(cut);
    match deck.read(rt.alloc(), &cards[0..left]) {
        Ok(()) => show_deck(rt, deck),
        Err(error) => refuse(rt, error.numbers()),
    }
}

fn refuse(rt: &HostRuntime, told: Option<Numbers>) -> io::Result<()> {
    match told {
        Some(told) => println!(rt; "deck,{told}"),
        None => rt.println("no memory"),
    }
}
