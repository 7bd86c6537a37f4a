ghost use Rattle.std.specs.Prelude.{◌≡◌, false, []};
ghost use Rattle.devices.specs.Feeding.{rest_of};
ghost use Rattle.line_tray.specs.LineTrays.{tray_lines, tray_places, tray_room, LineTrayMade};
ghost use Rattle.devices.specs.Meant.{meant, meant_by};
ghost use Rattle.devices.specs.Printing.{taken_with, given_to, oldest_of};

use super::LineTray;
use devices::{Line, Printer, Refusal};
use std::alloc::Global;
use std::collections::VecDeque;

impl LineTray {
    // An empty tray; one of no places is refused.
    pub fn new(heap: Global, places: usize) -> Result<LineTray, Refusal>
        ensures { LineTrayMade places result }
    {
        if places == 0 {
            return Err(Refusal::Small);
        }
        let held = VecDeque::with_capacity(heap, places)?;
        Ok(LineTray { held })
    }
}

impl Printer for LineTray {
    ghost lines = { tray_lines };

    ghost room = { tray_room };

    fn has_room(&self) -> bool {
        self.held.len() < self.held.capacity()
    }

    fn print(&mut self, line: &Line) -> Result<(), Refusal>
        ensures answer { result ≡ taken_with (tray_room self.old) }
        ensures after { tray_lines self.new ≡ given_to (tray_room self.old) (tray_lines self.old) (meant line.now) }
        ensures same { tray_room self.old ≡ false → tray_room self.new ≡ false }
        ensures places { tray_places self.new ≡ tray_places self.old }
    {
        if !self.has_room() {
            return Err(Refusal::NoRoom);
        }
        self.held.push_back_reserved(*line);
        Ok(())
    }

    // Taking out the first element of a `VecDeque` moves no other.
    fn tear_off(&mut self) -> Result<Line, Refusal>
        ensures answer { meant_by result ≡ oldest_of (tray_lines self.old) }
        ensures after { tray_lines self.new ≡ rest_of (tray_lines self.old) }
        ensures same { tray_lines self.old ≡ [] → tray_room self.new ≡ tray_room self.old }
        ensures places { tray_places self.new ≡ tray_places self.old }
    {
        self.held.pop_front().ok_or(Refusal::NoLine)
    }
}
