// Cells that are made of several parts.
use crate::texts::OrDash;
use cards::kinds::{Code, Shape};
use columns::kinds::Literal;
use std::fmt;
use std::fmt::Display;

// The size of a field: a number's digits and decimals, as `n5.2`, or the length of a text, as `a12`.
#[derive(Clone, Copy)]
pub struct SizeText(pub Shape);

impl fmt::Display for SizeText {
    fn fmt<W: fmt::Write>(&self, f: &mut fmt::Formatter<W>) -> fmt::Result {
        match self.0 {
            Shape::Number { digits, decimals } => write!(f, "n{digits}.{decimals}"),
            Shape::Text { length } => write!(f, "a{length}"),
        }
    }
}

// A literal by its count, digits and decimals, as `=150/3/2`.
#[derive(Clone, Copy)]
pub struct LiteralText(pub Literal);

impl fmt::Display for LiteralText {
    fn fmt<W: fmt::Write>(&self, f: &mut fmt::Formatter<W>) -> fmt::Result {
        let count = self.0.count;
        let digits = self.0.digits;
        let decimals = self.0.decimals;
        write!(f, "={count}/{digits}/{decimals}")
    }
}

// A character at a position, as `12CS`, or any other character there, as `12NCS`.
#[derive(Clone, Copy)]
pub struct CodeText(pub Code);

impl fmt::Display for CodeText {
    fn fmt<W: fmt::Write>(&self, f: &mut fmt::Formatter<W>) -> fmt::Result {
        let position = self.0.position;
        let n = if self.0.negated { "N" } else { "" };
        let c = char::from(self.0.character);
        write!(f, "{position}{n}C{c}")
    }
}

// A field that is printed: its place, its edit code, and a word where it is cleared, as `3/J/B`. Whatever can be printed
// stands for the code. This crate rests on no deck, whose parts of lines have the same in them.
#[derive(Clone, Copy)]
pub struct PrintedText<E> {
    pub field: usize,
    pub edit: Option<E>,
    pub clears: Option<&'static str>,
}

impl<E: Copy + Display> fmt::Display for PrintedText<E> {
    fn fmt<W: fmt::Write>(&self, f: &mut fmt::Formatter<W>) -> fmt::Result {
        let field = self.field;
        let edit = OrDash(self.edit);
        let clears = OrDash(self.clears);
        write!(f, "{field}/{edit}/{clears}")
    }
}
