// What stands between two blanks of a row: other cells than those of decks, and an enum for the reason given there.
use shown::BytesText;
use std::fmt;
use std::fmt::Display;

#[derive(Clone, Copy)]
pub enum Cell<'a> {
    Word(&'static str),
    Number(i64),
    // The place of a case in its table.
    Place(usize),
    // The number of a stop, as `stop20`.
    Stop(u8),
    // A column that was refused, as `column 5`.
    Column(u16),
    Text(&'a [u8]),
}

impl fmt::Display for Cell<'_> {
    fn fmt<W: fmt::Write>(&self, f: &mut fmt::Formatter<W>) -> fmt::Result {
        match *self {
            Cell::Word(word) => f.write_str(word),
            Cell::Number(n) => n.fmt(f),
            Cell::Place(i) => i.fmt(f),
            Cell::Stop(number) => write!(f, "stop{number}"),
            Cell::Column(column) => write!(f, "column {column}"),
            Cell::Text(bytes) => BytesText(bytes).fmt(f),
        }
    }
}
