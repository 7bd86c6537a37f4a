ghost use Rattle.std.specs.Prelude.{◌≡◌, ℕ, ◌+◌, List, Option};
ghost use Rattle.deck.specs.Acted.{acted_of};
ghost use Rattle.deck.specs.Defined.{defined_of};
ghost use Rattle.deck.specs.Parts.{parts_of, inputs_of, outputs_of, part_of};

use crate::actions::Actions;
use crate::definitions::Definitions;
use crate::kinds::{Input, Output, Part};
use columns::classes::{after, front};

// The parts of an element, by the place of its first part and that of the next element's. Parts stand in one list for
// all elements, and not in each: an element of one list in another could not be copied, and a field card without a
// record card before it, which the definitions count, would have no place.
fn parts_of<T>(parts: &[T], first: Option<usize>, next: Option<usize>) -> &[T]
    ensures { result.now ≡ parts_of parts.now first next }
{
    let Some(first) = first else {
        return &[];
    };
    after(front(parts, next.unwrap_or(parts.len())), first)
}

impl Part {
    // The bytes of the part, as far as the text has them.
    pub fn of(self, text: &[u8]) -> &[u8]
        ensures { result.now ≡ part_of self text.now }
    {
        front(after(text, self.at), self.length)
    }
}

impl Definitions {
    // The inputs of the record type at a place.
    pub fn inputs_of(&self, i: usize) -> &[Input]
        ensures { result.now ≡ inputs_of (defined_of self.now) i }
    {
        let first = self.types.get(i).map(|t| t.first);
        let next = self.types.get(i.saturating_add(1)).map(|t| t.first);
        parts_of(self.inputs.as_slice(), first, next)
    }
}

impl Actions {
    // The parts of the line at a place.
    pub fn outputs_of(&self, i: usize) -> &[Output]
        ensures { result.now ≡ outputs_of (acted_of self.now) i }
    {
        let first = self.records.get(i).map(|r| r.first);
        let next = self.records.get(i.saturating_add(1)).map(|r| r.first);
        parts_of(self.outputs.as_slice(), first, next)
    }
}
