ghost use Rattle.std.specs.Prelude.{◌+◌, ◌^◌, ◌<◌, length};

mod feeding;

// A text line that is longer than a card: its number, counted from 1, and its length.
#[derive(Clone, Copy, PartialEq, Eq, Debug)]
pub struct LongLine {
    pub line: usize,
    pub length: usize,
}

// A hopper over text, whose lines are the cards. `rest` stands behind `line` lines that were fed.
#[derive(Drop)]
pub struct LineHopper<'a> {
    rest: &'a [u8],
    line: usize,
    ghost few: { line + length rest.now < 2 ^ 64 },
}
