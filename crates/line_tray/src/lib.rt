// The line tray: a printer that keeps its lines in memory.
//
// It keeps every promise of a `Printer`, and more: it has room as long as fewer lines are held than it has places, and
// a place that a torn off line leaves is used again. The places are taken from memory when it is made, and never later.
//
// This crate knows printers and lines. It may not know what makes a line, nor who tears it off.
#![tactic(auto)]

use devices::Line;
use std::collections::VecDeque;

mod printing;

// A printer that holds lines in a fixed number of places, all taken from memory when it is made: the queue's capacity.
#[derive(Drop)]
pub struct LineTray {
    held: VecDeque<Line>,
}
