ghost use Rattle.std.specs.Prelude.{◌≡◌};
ghost use Rattle.devices.specs.Making.{line_from};
ghost use Rattle.devices.specs.Meant.{meant_by};

use crate::line::Line;
use characters::first_unprintable;

// What keeps a line from being made, in the order in which it is asked.
#[derive(Clone, Copy, PartialEq, Eq, Debug)]
pub enum LineFault {
    // The number is not one of 1 to 256.
    Number,
    // The spacing is not one of 1 to 3.
    Spacing,
    // The first column, counted from 1, that holds no character.
    Text { column: u8 },
}

impl Line {
    #[tactic(auto, using(crate::proofs::Columns::found_within))]
    pub fn new(number: u16, spacing: u8, text: &[u8; 132]) -> Result<Line, LineFault>
        ensures { meant_by result ≡ line_from number spacing text.now }
    {
        if !(1..=256).contains(&number) {
            return Err(LineFault::Number);
        }
        if !(1..=3).contains(&spacing) {
            return Err(LineFault::Spacing);
        }
        match first_unprintable(&text[..]) {
            Some(place) => Err(LineFault::Text {
                column: place as u8 + 1,
            }),
            None => Ok(Line {
                number,
                spacing,
                text: *text,
            }),
        }
    }
}
