// Reads a deck and the data behind it from standard input, answers the deck, and lists the data.
//
// The input is text lines, a card each: the deck, a line `/*`, and the data. A deck that is refused is answered by
// `deck,NUMBER,CARD,COLUMN`; of one that is accepted a short record is printed, and then the data, eighty columns to a
// line, in the form `number,spacing,text`. Behind them stands `end,N`, N being the number of data cards, or why the
// listing stopped: `stop,22,CARD,COLUMN` at a byte that is no character, and `stop,23,CARDS,0` at a text line that is
// longer than a card, CARDS being the number of data cards before it. A refusal or a stop is explained on standard
// error, and ends the program with status 1.
#![tactic(auto)]

ghost use Rattle.std.specs.Prelude.{◌≡◌, []};
ghost use Rattle.strip.specs.StripMeaning.{strip_lines};

use anyhow::anyhow;
use deck::deck::Deck;
use deck::kinds::{Breach, Numbers, ReadError};
use devices::Printer;
use hoppers::{LineHopper, LongLine};
use listing::deck_cards::{DeckEnd, TakeError, take_deck};
use listing::listing::{ListError, Listed, Stop, list_next, stop_of, tear_off_all};
use rules::Refusal;
use std::io;
use std::io::{Read, Write};
use strip::Strip;

mod record;
mod telling;

// Bytes to a strip: a write of this size takes hardly longer than one of a line, and the strip stays in the
// processor's nearest memory.
const STRIP: usize = 32768;

fn main(rt: HostRuntime) -> anyhow::Result<()> {
    let mut text = Vec::new(rt.alloc());
    rt.stdin().read_to_end(&mut text)?;
    let mut strip = Strip::new(rt.alloc(), STRIP).map_err(|_| anyhow!(
        "there is no memory for a strip"
    ))?;
    answer(&rt, text.as_slice(), &mut strip)
}

// Answers the deck in front of a text, and lists the data behind it.
fn answer(rt: &HostRuntime, text: &[u8], strip: &mut Strip) -> anyhow::Result<()> {
    let mut hopper = LineHopper::new(text);
    let mut cards = Vec::new(rt.alloc());
    let end = take_deck(&mut hopper, &mut cards);
    answer_deck(rt, cards.as_slice(), end)?;
    list(rt, &mut hopper, strip)
}

// Answers a deck by its cards and what ended them.
fn answer_deck(
    rt: &HostRuntime,
    cards: &[u8],
    end: Result<DeckEnd, TakeError<LongLine>>,
) -> anyhow::Result<()> {
    match end {
        Ok(DeckEnd::Mark | DeckEnd::End) => read_deck(rt, cards, &mut Deck::new(rt.alloc())),
        Err(TakeError::Fault(long)) => {
            refuse_line(rt, long)?;
            Err(anyhow!("the deck is refused"))
        }
        Err(TakeError::NoMemory) => Err(anyhow!("there is no memory for the deck")),
    }
}

// Reads a deck, and prints a record of it or why it is refused.
fn read_deck(rt: &HostRuntime, cards: &[u8], deck: &mut Deck) -> anyhow::Result<()> {
    if let Err(error) = deck.read(rt.alloc(), cards) {
        refuse(rt, cards, error)?;
        return Err(anyhow!("the deck is refused"));
    }
    record::show(rt, deck)?;
    Ok(())
}

fn refuse(rt: &HostRuntime, cards: &[u8], error: ReadError) -> io::Result<()> {
    match error {
        ReadError::Refused(breach) => {
            print_refusal(rt, error.numbers())?;
            telling::tell(rt, cards, &breach)
        }
        ReadError::NoMemory => rt.eprintln("report: there is no memory for the deck"),
    }
}

fn print_refusal(rt: &HostRuntime, told: Option<Numbers>) -> io::Result<()> {
    match told {
        Some(told) => println!(rt; "deck,{told}"),
        None => Ok(()),
    }
}

// A line that is longer than a card makes no deck of whole cards.
fn refuse_line(rt: &HostRuntime, long: LongLine) -> io::Result<()> {
    let cut = ReadError::Refused(Breach {
        refusal: Refusal::CutDeck,
        card: 0,
        column: 0,
    });
    print_refusal(rt, cut.numbers())?;
    telling::tell_line(rt, " of the deck", long)
}

// Lists the cards that are to come.
fn list(rt: &HostRuntime, hopper: &mut LineHopper<'_>, strip: &mut Strip) -> anyhow::Result<()> {
    let mut cards = 0u64;
    'cards: loop {
        match list_next(hopper, strip) {
            Ok(Listed::Line) => cards = cards.saturating_add(1),
            Ok(Listed::NoRoom) => {
                if strip.bytes().is_empty() {
                    return Err(anyhow!("the strip has no room for a line"));
                }
                write_out(rt, strip)?;
            }
            last => return finish(rt, strip, cards, last),
        }
    }
}

// Writes the lines that the strip holds, and tears them off.
fn write_out(rt: &HostRuntime, strip: &mut Strip) -> io::Result<()>
    ensures { strip_lines strip.new ≡ [] }
{
    let written = rt.stdout().write_all(strip.bytes());
    tear_off_all(strip);
    written
}

// Writes out the lines that are left, and how the listing ended.
fn finish(
    rt: &HostRuntime,
    strip: &mut Strip,
    cards: u64,
    last: Result<Listed, ListError<LongLine>>,
) -> anyhow::Result<()> {
    write_out(rt, strip)?;
    let Some(stop) = stop_of(&last, cards) else {
        println!(rt; "end,{cards}")?;
        return Ok(());
    };
    tell_stop(rt, stop, last)?;
    Err(anyhow!("the listing stopped"))
}

// Prints a stop, and says in words why the listing stopped. The answer is matched whole, as the stop is of the whole.
fn tell_stop(
    rt: &HostRuntime,
    stop: Stop,
    last: Result<Listed, ListError<LongLine>>,
) -> io::Result<()> {
    println!(rt; "stop,{stop}")?;
    match last {
        Err(ListError::Column(bad)) => telling::tell_byte(rt, stop.cards as usize, bad),
        Err(ListError::Fault(long)) => telling::tell_line(rt, "", long),
        Ok(_) => Ok(()),
    }
}
