// Indicators, conditions, names and bytes as a person reads them.
use columns::kinds::{Condition, Indicator, Name};
use std::fmt;
use std::fmt::Display;

// What may be absent, and a dash where it is.
#[derive(Clone, Copy)]
pub struct OrDash<T>(pub Option<T>);

impl<T: Display> fmt::Display for OrDash<T> {
    fn fmt<W: fmt::Write>(&self, f: &mut fmt::Formatter<W>) -> fmt::Result {
        match &self.0 {
            Some(present) => present.fmt(f),
            None => f.write_str("-"),
        }
    }
}

// An indicator by its two characters.
#[derive(Clone, Copy)]
pub struct IndicatorText(pub Indicator);

impl fmt::Display for IndicatorText {
    fn fmt<W: fmt::Write>(&self, f: &mut fmt::Formatter<W>) -> fmt::Result {
        match self.0 {
            110 => f.write_str("LR"),
            111 => f.write_str("1P"),
            n => {
                if n >= 100 {
                    let level = n - 100;
                    write!(f, "L{level}")
                } else {
                    write!(f, "{n:02}")
                }
            }
        }
    }
}

// A condition by its indicator, with an `N` before it where that has to be off.
#[derive(Clone, Copy)]
pub struct ConditionText(pub Condition);

impl fmt::Display for ConditionText {
    fn fmt<W: fmt::Write>(&self, f: &mut fmt::Formatter<W>) -> fmt::Result {
        if self.0.negated {
            f.write_str("N")?;
        }
        IndicatorText(self.0.indicator).fmt(f)
    }
}

// A name without the blanks that fill it.
#[derive(Clone, Copy)]
pub struct NameText(pub Name);

impl fmt::Display for NameText {
    fn fmt<W: fmt::Write>(&self, f: &mut fmt::Formatter<W>) -> fmt::Result {
        for b in self.0.iter().filter(|b| **b != b' ') {
            f.write_char(char::from(*b))?;
        }
        Ok(())
    }
}

// Bytes as characters, and a question mark for a byte that is none.
#[derive(Clone, Copy)]
pub struct BytesText<'a>(pub &'a [u8]);

impl fmt::Display for BytesText<'_> {
    fn fmt<W: fmt::Write>(&self, f: &mut fmt::Formatter<W>) -> fmt::Result {
        for b in self.0 {
            f.write_char(shown_as(*b))?;
        }
        Ok(())
    }
}

fn shown_as(byte: u8) -> char {
    if characters::is_printable(byte) {
        char::from(byte)
    } else {
        '?'
    }
}
