// The field table of a deck: each name once, with its shape.
//
// Fields are looked up by name here and nowhere else, so that a run never searches: cards of a deck are resolved to
// places in this table. Finding a name that is not there is an answer, and no call asks anything of its caller.
//
// The crate knows names and shapes. It may not know which cards define a field, nor which use it.
#![tactic(auto)]

use cards::kinds::Shape;
use columns::kinds::Name;

mod naming;

// A field's name with its shape.
#[derive(Clone, Copy)]
pub struct Definition {
    pub name: Name,
    pub shape: Shape,
}

// Each name once, with its shape, in the order of first definition.
#[derive(Drop)]
pub struct FieldTable {
    pub definitions: Vec<Definition>,
}
