// Cards listed as they are: each becomes a line of its eighty columns.
ghost use Rattle.std.specs.Prelude.{◌≡◌, [], ◌∷◌, ◌++◌, Some, decimal};
ghost use Rattle.devices.specs.Meant.{meant_by};
ghost use Rattle.listing.specs.Listings.{listing_line, bad_in, stop_of, ListsNext};
ghost use Rattle.listing.specs.declared.listing.ListError.TheVariants.{Column};

use columns::classes::at;
use columns::filling::blank_filled;
use devices::{Card, Hopper, Line, LineFault, Printer};
use std::fmt;

// A column, counted from 1, that holds no character, and the byte in it.
#[derive(Clone, Copy, PartialEq, Eq, Debug)]
pub struct BadColumn {
    pub column: u8,
    pub byte: u8,
}

// What became of the next card.
#[derive(PartialEq, Eq, Debug, Drop)]
pub enum Listed {
    // A card was fed, and stands on the last line.
    Line,
    // The printer has no room, and nothing was fed.
    NoRoom,
    // There is no card left.
    End,
}

// Why the next card was not listed.
#[derive(PartialEq, Eq, Debug, Drop)]
pub enum ListError<F> {
    // A card was fed that cannot be printed.
    Column(BadColumn),
    // There is no card left that could be fed.
    Fault(F),
}

impl<F> From<BadColumn> for ListError<F> {
    ghost from_gives = { λ bad e. e ≡ Column bad };

    fn from(bad: BadColumn) -> ListError<F> {
        ListError::Column(bad)
    }
}

// Why a listing stopped, as it is told: a fixed number, how many cards were fed, and the column, or 0 where none is meant.
// It is not the numbers of a deck's refusal: cards are counted here, and numbered there.
#[derive(Clone, Copy, PartialEq, Eq, Debug)]
pub struct Stop {
    pub number: u8,
    pub cards: u64,
    pub column: u8,
}

// As programs print it: NUMBER,CARDS,COLUMN.
impl fmt::Display for Stop {
    ghost output = { λ s. Some (decimal s.number ++ 44 ∷ decimal s.cards ++ 44 ∷ decimal s.column) };

    fn fmt<W: fmt::Write>(&self, f: &mut fmt::Formatter<W>) -> fmt::Result {
        let number = self.number;
        let cards = self.cards;
        let column = self.column;
        write!(f, "{number},{cards},{column}")
    }
}

// The stop that an answer is, if it is one, where `cards` were listed before. Their count stays at the largest number.
// It is asked of the whole answer, as its definition is.
pub fn stop_of<F>(answer: &Result<Listed, ListError<F>>, cards: u64) -> Option<Stop>
    ensures { result ≡ stop_of answer.now cards }
{
    match answer {
        Ok(_) => None,
        Err(ListError::Column(bad)) => Some(Stop {
            number: 22,
            cards: cards.saturating_add(1),
            column: bad.column,
        }),
        Err(ListError::Fault(_)) => Some(Stop {
            number: 23,
            cards,
            column: 0,
        }),
    }
}

// Feeds a card and prints it, where there is room.
pub fn list_next<H: Hopper, P: Printer>(
    hopper: &mut H,
    printer: &mut P,
) -> Result<Listed, ListError<H::Fault>>
    ensures { ListsNext result (P.Printer.room printer.old) (H.Hopper.cards hopper.old) (H.Hopper.ending hopper.old) (P.Printer.lines printer.old) (H.Hopper.cards hopper.new) (H.Hopper.ending hopper.new) (P.Printer.lines printer.new) }
{
    if !printer.has_room() {
        return Ok(Listed::NoRoom);
    }
    let Some(card) = hopper.feed().map_err(ListError::Fault)? else {
        return Ok(Listed::End);
    };
    let line = line_of(&card)?;
    // There is room, so the line is taken.
    let _ = printer.print(&line);
    Ok(Listed::Line)
}

// Tears off every line that a printer holds.
pub fn tear_off_all<P: Printer>(printer: &mut P)
    ensures { P.Printer.lines printer.new ≡ [] }
{
    while printer.tear_off().is_ok() {}
}

// The line that lists a card.
fn line_of(card: &Card) -> Result<Line, BadColumn>
    ensures { meant_by result ≡ listing_line card.now }
{
    let text = blank_filled(&card.columns);
    Line::new(1, 1, &text).map_err(|fault| bad_column(fault, &text))
}

// The column that a line's fault tells; column 0 where it tells none, which number 1 and spacing 1 never come to.
fn bad_column(fault: LineFault, text: &[u8; 132]) -> BadColumn
    ensures { result ≡ bad_in fault text.now }
{
    match fault {
        LineFault::Text { column } => BadColumn {
            column,
            byte: at(text, column.saturating_sub(1) as usize),
        },
        LineFault::Number | LineFault::Spacing => BadColumn { column: 0, byte: 0 },
    }
}
