use crate::kinds::{Calculation, Output, OutputRecord};

// What is done at detail time, and what at total time.
#[derive(Drop)]
pub struct ByTime<T> {
    pub detail: Vec<T>,
    pub total: Vec<T>,
}

// What the calculation and output cards of a deck ask for: calculations by their time, lines in deck order, the places
// of those lines by the time at which they are printed, and the parts of all lines.
#[derive(Drop)]
pub struct Actions {
    pub calculations: ByTime<Calculation>,
    pub records: Vec<OutputRecord>,
    pub lines: ByTime<usize>,
    pub outputs: Vec<Output>,
}
