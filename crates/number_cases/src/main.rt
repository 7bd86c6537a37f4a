// Runs the calls of `numbers` and `images` on some thousands of cases, a line for each. What it must write is
// worked out by a program of its own, outside/number_cases.py.
#![tactic(auto)]

mod answers;
mod calculates;
mod cases;
mod edits;
mod reads;
mod row;

use images::laws::{columns_stand, images_read_back, widths_stand, worked_cases_stand};
use numbers::laws::roundings_stand;
use std::io;

fn main(rt: HostRuntime) -> io::Result<()> {
    images_read_back();
    widths_stand();
    columns_stand();
    roundings_stand();
    worked_cases_stand();
    reads::pictures(&rt)?;
    reads::all_bytes(&rt)?;
    reads::fields(&rt)?;
    calculates::pairs(&rt)?;
    edits::codes(&rt)?;
    edits::images(&rt)?;
    edits::lines(&rt)
}
