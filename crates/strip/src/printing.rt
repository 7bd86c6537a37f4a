ghost use Rattle.std.specs.Prelude.{◌≡◌, false, []};
ghost use Rattle.devices.specs.Feeding.{rest_of};
ghost use Rattle.devices.specs.Meant.{meant, meant_by};
ghost use Rattle.devices.specs.Printing.{taken_with, given_to, oldest_of};
ghost use Rattle.strip.specs.StripMeaning.{strip_rest, strip_lines, strip_size, strip_used, strip_room, used_with, used_after, StripMade};
ghost use Rattle.strip.specs.StripSteps.{NextOn, Passes, Passed};
ghost use Rattle.strip.specs.Strips.{strips};

use super::reading::{Oldest, oldest_line};
use super::writing::add_line;
use super::{LONGEST, Strip};
use devices::{Line, Printer, Refusal};
use std::alloc::Global;

impl Strip {
    // An empty strip of `size` bytes; one that could not hold the longest line is refused.
    pub fn new(heap: Global, size: usize) -> Result<Strip, Refusal>
        ensures { StripMade size result }
    {
        if size < LONGEST {
            return Err(Refusal::Small);
        }
        let held = Vec::with_capacity(heap, size)?;
        Ok(Strip {
            held,
            first: 0,
            size,
        })
    }

    // The lines held, as they are written.
    pub fn bytes(&self) -> &[u8]
        ensures { result.now ≡ strips (strip_lines self.now) }
    {
        &self.held.as_slice()[self.first..]
    }

    fn oldest(&self) -> Option<Oldest>
        ensures { NextOn self.now result }
    {
        oldest_line(self.bytes())
    }

    // Passes n bytes, which are torn off. Once none are left, the strip starts at its front again.
    fn pass(&mut self, n: usize)
        requires { Passes (strip_rest self.old) n }
        ensures { Passed self.old n self.new }
    {
        let place = self.first + n;
        if place == self.held.len() {
            self.held.clear();
            self.first = 0;
        } else {
            self.first = place;
        }
    }
}

impl Printer for Strip {
    ghost lines = { strip_lines };

    ghost room = { strip_room };

    fn has_room(&self) -> bool {
        self.size.saturating_sub(self.held.len()) >= LONGEST
    }

    fn print(&mut self, line: &Line) -> Result<(), Refusal>
        ensures answer { result ≡ taken_with (strip_room self.old) }
        ensures after { strip_lines self.new ≡ given_to (strip_room self.old) (strip_lines self.old) (meant line.now) }
        ensures same { strip_room self.old ≡ false → strip_room self.new ≡ false }
        ensures size { strip_size self.new ≡ strip_size self.old }
        ensures used { strip_used self.new ≡ used_with (strip_room self.old) (strip_used self.old) (meant line.now) }
    {
        if !self.has_room() {
            return Err(Refusal::NoRoom);
        }
        add_line(&mut self.held, line);
        Ok(())
    }

    fn tear_off(&mut self) -> Result<Line, Refusal>
        ensures answer { meant_by result ≡ oldest_of (strip_lines self.old) }
        ensures after { strip_lines self.new ≡ rest_of (strip_lines self.old) }
        ensures same { strip_lines self.old ≡ [] → strip_room self.new ≡ strip_room self.old }
        ensures size { strip_size self.new ≡ strip_size self.old }
        ensures used { strip_used self.new ≡ used_after (strip_lines self.new) (strip_used self.old) }
    {
        let oldest = self.oldest().ok_or(Refusal::NoLine)?;
        self.pass(oldest.length);
        Ok(oldest.line)
    }
}
