ghost use Rattle.std.specs.Prelude.{◌≡◌};
ghost use Rattle.hoppers.specs.Trays.{tray_cards, tray_ending, TrayMade};

use devices::{Card, Hopper};

// The bytes behind the last whole card are fewer than a card has.
#[derive(Clone, Copy, PartialEq, Eq, Debug)]
pub struct Leftover {
    pub length: u8,
}

// A hopper over cards that stand end to end.
#[derive(Drop)]
pub struct Tray<'a> {
    rest: &'a [u8],
}

impl<'a> Tray<'a> {
    pub fn new(bytes: &'a [u8]) -> Tray<'a>
        ensures { TrayMade bytes.now result }
    {
        Tray { rest: bytes }
    }
}

impl Hopper for Tray<'_> {
    type Fault = Leftover;

    ghost cards = { tray_cards };

    ghost ending = { tray_ending };

    fn feed(&mut self) -> Result<Option<Card>, Leftover> {
        match self.rest.split_first_chunk::<80>() {
            Some((columns, rest)) => {
                self.rest = rest;
                Ok(Some(Card { columns: *columns }))
            }
            None if self.rest.is_empty() => Ok(None),
            None => Err(Leftover {
                length: self.rest.len() as u8,
            }),
        }
    }
}
