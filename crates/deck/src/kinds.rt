ghost use Rattle.std.specs.Prelude.{◌≡◌, ◌∷◌, ◌++◌, Some, decimal};
ghost use Rattle.deck.specs.declared.kinds.ReadError.TheVariants.{NoMemory};

use cards::kinds::{Codes, Conditions, LineKind, Told};
use columns::kinds::{Indicator, Literal};
use images::EditCode;
use operations::Operation;
use rules::Refusal;
use std::alloc::AllocError;
use std::fmt;

// A field's name with its shape, as one card defines it.
pub use fields::Definition;

// A record type: the indicator that tells it, the codes that identify its cards, and the place of its first field
// among the inputs. Its fields go up to the first of the next type.
#[derive(Clone, Copy)]
pub struct RecordType {
    pub indicator: Indicator,
    pub codes: Codes,
    pub first: usize,
}

// A field that is moved from a data card: its place in the field table, its first column, and its level and
// indicators, where it has them.
#[derive(Clone, Copy)]
pub struct Input {
    pub field: usize,
    pub from: u16,
    pub level: Option<Indicator>,
    pub told: Told,
}

// A part of the deck's text.
#[derive(Clone, Copy)]
pub struct Part {
    pub at: usize,
    pub length: usize,
}

// The second factor of a calculation: a field by its place, a number, or a part of the deck's text. It, `Source`,
// `Calculation` and `Output` are no instances of one type with what the cards say: there names stand, and here places,
// parts of the text and card numbers, and a type over both would only name what it holds by parameters.
#[derive(Clone, Copy)]
pub enum Operand {
    Field(usize),
    Number(Literal),
    Text(Part),
}

// A calculation. Its card number is told where it stops a run.
#[derive(Clone, Copy)]
pub struct Calculation {
    pub card: usize,
    pub level: Option<Indicator>,
    pub conditions: Conditions,
    pub operation: Option<Operation>,
    pub factor1: Option<usize>,
    pub factor2: Option<Operand>,
    pub result: Option<usize>,
    pub half_adjust: bool,
    pub told: Told,
}

// A line to be printed, by the number of its card, and the place of its first part among the outputs. Its parts go
// up to the first of the next line.
#[derive(Clone, Copy)]
pub struct OutputRecord {
    pub card: usize,
    pub kind: LineKind,
    pub spacing: u16,
    pub conditions: Conditions,
    pub first: usize,
}

// What a part of a line shows: a field by its place, or a part of the deck's text.
#[derive(Clone, Copy)]
pub enum Source {
    Field {
        field: usize,
        edit: Option<EditCode>,
        blank_after: bool,
    },
    Constant(Part),
}

// A part of a line: what it shows, and the column in which that ends.
#[derive(Clone, Copy)]
pub struct Output {
    pub conditions: Conditions,
    pub source: Source,
    pub end: u16,
}

// The first breach of a deck: the refusal, the card, and the column; 0 stands for a whole deck or card, as it is told. A
// card's rules tell a pair (`rules`), to which the card's number is added.
#[derive(Clone, Copy, PartialEq, Eq, Debug)]
pub struct Breach {
    pub refusal: Refusal,
    pub card: usize,
    pub column: u8,
}

// Why no deck is in the table.
#[derive(Clone, Copy, PartialEq, Eq, Debug)]
pub enum ReadError {
    Refused(Breach),
    NoMemory,
}

impl From<AllocError> for ReadError {
    ghost from_gives = { λ _ e. e ≡ NoMemory };

    fn from(_e: AllocError) -> ReadError {
        ReadError::NoMemory
    }
}

// A refusal in numbers: its own, the card and the column.
#[derive(Clone, Copy, PartialEq, Eq, Debug)]
pub struct Numbers {
    pub number: u8,
    pub card: usize,
    pub column: u8,
}

// As programs print it: NUMBER,CARD,COLUMN.
impl fmt::Display for Numbers {
    ghost output = { λ n. Some (decimal n.number ++ 44 ∷ decimal n.card ++ 44 ∷ decimal n.column) };

    fn fmt<W: fmt::Write>(&self, f: &mut fmt::Formatter<W>) -> fmt::Result {
        let number = self.number;
        let card = self.card;
        let column = self.column;
        write!(f, "{number},{card},{column}")
    }
}
