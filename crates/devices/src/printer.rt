ghost use Rattle.std.specs.Prelude.{◌≡◌, Bool, false, List, []};
ghost use Rattle.devices.specs.Feeding.{rest_of};
ghost use Rattle.devices.specs.Meant.{meant, meant_by};
ghost use Rattle.devices.specs.Printed.{Printed};
ghost use Rattle.devices.specs.Printing.{taken_with, given_to, oldest_of};

use crate::line::Line;
use crate::refusal::Refusal;

// A printer means the lines held, oldest first, and whether it has room. A refusal leaves both as they were;
// after any other call the room is the printer's own matter.
pub trait Printer {
    ghost lines: { Self → List Printed };

    ghost room: { Self → Bool };

    fn has_room(&self) -> bool
        ensures { result ≡ room self.now };

    // With room the line becomes the last held. Without, the answer is "no room", and nothing changes.
    fn print(&mut self, line: &Line) -> Result<(), Refusal>
        ensures answer { result ≡ taken_with (room self.old) }
        ensures after { lines self.new ≡ given_to (room self.old) (lines self.old) (meant line.now) }
        ensures same { room self.old ≡ false → room self.new ≡ false };

    // Hands over the oldest line and removes it. With none held the answer is "no line", and nothing changes.
    fn tear_off(&mut self) -> Result<Line, Refusal>
        ensures answer { meant_by result ≡ oldest_of (lines self.old) }
        ensures after { lines self.new ≡ rest_of (lines self.old) }
        ensures same { lines self.old ≡ [] → room self.new ≡ room self.old };
}
