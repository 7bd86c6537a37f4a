// The strip: a printer that writes its lines as text, which a program can print as it stands.
//
// A line takes one text line: the number of the card that made it, a comma, its spacing, a comma, and its characters
// without the trailing blanks. The lines held stand one after another, oldest first, and are read back when they are
// torn off, with their blanks. So a strip needs no other memory than its bytes, which are taken when it is made.
//
// It keeps every promise of a `Printer`, and more: its bytes are exactly its lines as they are written, it has room as
// long as the longest line fits behind the last, and once no line is left it starts at its front again. A call takes
// time for the one line that it moves, not for all that are held.
//
// This crate knows printers, lines and characters, and fills columns with blanks. It may not know what makes a line, nor
// where the text goes.
#![tactic(auto)]

ghost use Rattle.std.specs.Prelude.{◌≡◌, ◌≤◌, true, length, drop, vec_capacity};
ghost use Rattle.strip.specs.GoodLines.{all_good};
ghost use Rattle.strip.specs.StripReading.{lines_in, anew_at};
ghost use Rattle.strip.specs.Strips.{strips};

mod laws;
mod printing;
mod reading;
mod writing;

pub use laws::longest_line;

// The most bytes that a line takes: three digits, a comma, a digit, a comma, 132 characters and a line end.
const LONGEST: usize = 139;

// A printer that writes its lines one after another as text. The lines not torn off stand from `first` on: a queue
// would not give them as one slice, which a program writes at once. The size stands beside them: of adding a slice the
// library says only that the capacity does not shrink.
#[derive(Drop)]
pub struct Strip {
    held: Vec<u8>,
    first: usize,
    size: usize,
    ghost large: { 139 ≤ size },
    ghost reserved: { size ≤ vec_capacity held },
    ghost front: { first ≤ length held.items },
    ghost anew: { anew_at first (length held.items) ≡ true },
    ghost good: { all_good (lines_in (drop first held.items)) ≡ true },
    ghost written: { strips (lines_in (drop first held.items)) ≡ drop first held.items },
}
