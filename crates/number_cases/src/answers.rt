// What the calls answer, as cells.
use crate::row::Cell;
use numbers::{Amount, ArithmeticError, ReadError};

// Why there is no amount, as a cell.
pub trait Refusal {
    fn cell(self) -> Cell<'static>;
}

impl Refusal for ReadError {
    fn cell(self) -> Cell<'static> {
        match self {
            ReadError::Width => Cell::Word("width"),
            ReadError::Column { column } => Cell::Column(column),
        }
    }
}

impl Refusal for ArithmeticError {
    fn cell(self) -> Cell<'static> {
        // Not by `map_or`: a function whose result has a lifetime gets no proof there.
        match self.number() {
            Some(number) => Cell::Stop(number),
            None => Cell::Word("scale"),
        }
    }
}

// The count of an amount, or why there is none.
pub fn answer<E: Refusal>(res: Result<Amount, E>) -> Cell<'static> {
    match res {
        Ok(amount) => Cell::Number(amount.count),
        Err(error) => error.cell(),
    }
}
