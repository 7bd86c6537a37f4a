// Rows: cells and what parts them.
use crate::parts::{CodeText, LiteralText, PrintedText, SizeText};
use crate::texts::{BytesText, ConditionText, IndicatorText, NameText, OrDash};
use cards::kinds::{Code, LineKind, Shape};
use columns::kinds::{Condition, Indicator, Literal, Name};
use images::EditCode;
use operations::Operation;
use std::fmt;
use std::fmt::Display;

// What stands between two commas. A dash stands for what is absent. An enum and no `dyn Display`: tried, and
// what is `dyn` can't be printed.
#[derive(Clone, Copy)]
pub enum Cell<'a> {
    Word(&'static str),
    Count(usize),
    // A word that stands where something is so.
    Mark(Option<&'static str>),
    Place(Option<usize>),
    Indicator(Option<Indicator>),
    Condition(Option<Condition>),
    Name(Name),
    // Bytes between apostrophes.
    Quoted(&'a [u8]),
    Size(Shape),
    Literal(Literal),
    Code(Option<Code>),
    Operation(Option<Operation>),
    Line(LineKind),
    Printed(PrintedText<EditCode>),
    // A printed field whose edit code is given by a word.
    PrintedBy(PrintedText<&'static str>),
}

impl fmt::Display for Cell<'_> {
    fn fmt<W: fmt::Write>(&self, f: &mut fmt::Formatter<W>) -> fmt::Result {
        match *self {
            Cell::Word(word) => f.write_str(word),
            Cell::Count(n) => n.fmt(f),
            Cell::Mark(word) => OrDash(word).fmt(f),
            Cell::Place(place) => OrDash(place).fmt(f),
            Cell::Indicator(indicator) => OrDash(indicator.map(IndicatorText)).fmt(f),
            Cell::Condition(condition) => OrDash(condition.map(ConditionText)).fmt(f),
            Cell::Name(name) => NameText(name).fmt(f),
            Cell::Quoted(bytes) => {
                let text = BytesText(bytes);
                write!(f, "'{text}'")
            }
            Cell::Size(shape) => SizeText(shape).fmt(f),
            Cell::Literal(literal) => LiteralText(literal).fmt(f),
            Cell::Code(code) => OrDash(code.map(CodeText)).fmt(f),
            Cell::Operation(operation) => OrDash(operation).fmt(f),
            Cell::Line(kind) => kind.fmt(f),
            Cell::Printed(printed) => printed.fmt(f),
            Cell::PrintedBy(printed) => printed.fmt(f),
        }
    }
}

// Cells that are parted by one character, which is given by its byte.
#[derive(Clone, Copy)]
pub struct Row<'r, C, const BETWEEN: u8>(pub &'r [C]);

impl<C: Display, const BETWEEN: u8> fmt::Display for Row<'_, C, BETWEEN> {
    fn fmt<W: fmt::Write>(&self, f: &mut fmt::Formatter<W>) -> fmt::Result {
        for (i, cell) in self.0.iter().enumerate() {
            if i > 0 {
                f.write_char(char::from(BETWEEN))?;
            }
            cell.fmt(f)?;
        }
        Ok(())
    }
}
