ghost use Rattle.std.specs.Prelude.{◌≡◌, ◌≤◌, length};
ghost use Rattle.hoppers.specs.LineHoppers.{line_hopper_cards, line_hopper_ending, LineHopperMade};
ghost use Rattle.hoppers.specs.TextLines.{filled};

use super::{LineHopper, LongLine};
use crate::texts::first_line;
use columns::filling::blank_filled;
use devices::{Card, Hopper};

impl<'a> LineHopper<'a> {
    pub fn new(text: &'a [u8]) -> LineHopper<'a>
        ensures { LineHopperMade text.now result }
    {
        LineHopper {
            rest: text,
            line: 0,
        }
    }
}

impl Hopper for LineHopper<'_> {
    type Fault = LongLine;

    ghost cards = { line_hopper_cards };

    ghost ending = { line_hopper_ending };

    fn feed(&mut self) -> Result<Option<Card>, LongLine> {
        let Some(first) = first_line(self.rest) else {
            return Ok(None);
        };
        if first.line.len() > 80 {
            return Err(LongLine {
                line: self.line + 1,
                length: first.line.len(),
            });
        }
        self.rest = first.rest;
        self.line += 1;
        Ok(Some(card_of(first.line)))
    }
}

// The card of a line that fits on one.
fn card_of(line: &[u8]) -> Card
    requires { length line.now ≤ 80 }
    ensures { result.columns ≡ filled line.now }
{
    Card {
        columns: blank_filled(line),
    }
}
