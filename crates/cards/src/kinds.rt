ghost use Rattle.std.specs.Prelude.{◌≡◌, Some};
ghost use Rattle.cards.specs.Kinds.{letter_of, line_kind_by};

use columns::kinds::{Condition, Indicator, Literal, Name};
use images::EditCode;
use operations::Operation;
use std::fmt;

// What a deck card is, by its form letter and by the columns that part record cards from field cards.
#[derive(Clone, Copy, PartialEq, Eq, Debug)]
pub enum Kind {
    Comment,
    Record,
    Field,
    Calculation,
    OutputRecord,
    OutputField,
    Unknown,
}

// What may stand in an entry.
#[derive(Clone, Copy, PartialEq, Eq, Debug)]
pub enum What {
    Free,
    Blank,
    Form,
    RecordIndicator,
    Code,
    From,
    To,
    FieldDecimals,
    Name,
    ControlLevel,
    SignIndicator,
    Settable,
    TotalLevel,
    Condition,
    Factor1,
    Operation,
    Factor2,
    Result,
    Length,
    ResultDecimals,
    HalfAdjust,
    Told,
    Sets,
    LineKind,
    Spacing,
    OptionalName,
    Edit,
    BlankAfter,
    End,
    Constant,
}

// One rule of a card's layout: the columns of an entry, and what may stand there.
#[derive(Clone, Copy, PartialEq, Eq, Debug)]
pub struct Rule {
    pub from: u8,
    pub to: u8,
    pub what: What,
}

// The size of a field: digits with decimals, or bytes of text.
#[derive(Clone, Copy, PartialEq, Eq, Debug)]
pub enum Shape {
    Number { digits: u16, decimals: u16 },
    Text { length: u16 },
}

// What identifies a data card: a character at a position, or anything else there.
#[derive(Clone, Copy, PartialEq, Eq, Debug)]
pub struct Code {
    pub position: u16,
    pub negated: bool,
    pub character: u8,
}

// What up to three entries of one form say.
#[derive(Clone, Copy, PartialEq, Eq, Debug)]
pub struct Three<T> {
    pub first: Option<T>,
    pub second: Option<T>,
    pub third: Option<T>,
}

// The three codes of a record card; an absent one asks nothing.
pub type Codes = Three<Code>;

// Three conditions; an absent one holds.
pub type Conditions = Three<Condition>;

// The indicators that tell of a field or a result: plus, minus, zero. A comparison tells high, low, equal by them.
// Its fields have names of their own, which `Three` would not say.
#[derive(Clone, Copy, PartialEq, Eq, Debug)]
pub struct Told {
    pub plus: Option<Indicator>,
    pub minus: Option<Indicator>,
    pub zero: Option<Indicator>,
}

// An input record card: a record type.
#[derive(Clone, Copy, PartialEq, Eq, Debug)]
pub struct RecordCard {
    pub indicator: Indicator,
    pub codes: Codes,
}

// An input field card: a field of the record type before it.
#[derive(Clone, Copy, PartialEq, Eq, Debug)]
pub struct FieldCard {
    pub name: Name,
    pub from: u16,
    pub shape: Shape,
    pub level: Option<Indicator>,
    pub told: Told,
}

// The second factor of a calculation. Of an alphameric literal the card keeps the length: its bytes stay in the deck.
#[derive(Clone, Copy, PartialEq, Eq, Debug)]
pub enum Factor {
    Field(Name),
    Number(Literal),
    Text { length: usize },
}

// A calculation card; one with a level is a total calculation.
#[derive(Clone, Copy, PartialEq, Eq, Debug)]
pub struct CalculationCard {
    pub level: Option<Indicator>,
    pub conditions: Conditions,
    pub factor1: Option<Name>,
    pub operation: Option<Operation>,
    pub factor2: Option<Factor>,
    pub result: Option<Name>,
    pub shape: Option<Shape>,
    pub half_adjust: bool,
    pub told: Told,
}

// Whether a line is a heading, a detail or a total line.
#[derive(Clone, Copy, PartialEq, Eq, Debug)]
pub enum LineKind {
    Heading,
    Detail,
    Total,
}

impl LineKind {
    // The kind of line that a letter stands for. It stays an Option, as an edit code's: the error of a TryFrom would
    // say nothing.
    pub fn from_byte(byte: u8) -> Option<LineKind>
        ensures { result ≡ line_kind_by byte }
    {
        match byte {
            b'H' => Some(LineKind::Heading),
            b'D' => Some(LineKind::Detail),
            b'T' => Some(LineKind::Total),
            _ => None,
        }
    }
}

impl fmt::Display for LineKind {
    ghost output = { λ kind. Some (letter_of kind) };

    fn fmt<W: fmt::Write>(&self, f: &mut fmt::Formatter<W>) -> fmt::Result {
        f.write_str(match self {
            LineKind::Heading => "H",
            LineKind::Detail => "D",
            LineKind::Total => "T",
        })
    }
}

// An output record card: a line to be printed.
#[derive(Clone, Copy, PartialEq, Eq, Debug)]
pub struct OutputRecordCard {
    pub kind: LineKind,
    pub spacing: u16,
    pub conditions: Conditions,
}

// What an output field card prints. Of a constant the card keeps the length: its bytes stay in the deck.
#[derive(Clone, Copy, PartialEq, Eq, Debug)]
pub enum Printed {
    Field {
        name: Name,
        edit: Option<EditCode>,
        blank_after: bool,
    },
    Constant {
        edit: Option<EditCode>,
        length: usize,
    },
}

// An output field card: a part of the line of the record card before it.
#[derive(Clone, Copy, PartialEq, Eq, Debug)]
pub struct OutputFieldCard {
    pub conditions: Conditions,
    pub printed: Printed,
    pub end: u16,
}

// A deck card, read off its columns. Names are not looked up yet.
#[derive(Clone, Copy, PartialEq, Eq, Debug)]
pub enum DeckCard {
    Comment,
    Record(RecordCard),
    Field(FieldCard),
    Calculation(CalculationCard),
    OutputRecord(OutputRecordCard),
    OutputField(OutputFieldCard),
}
