ghost use Rattle.std.specs.Prelude.{◌≡◌, vec_items, OnOk};
ghost use Rattle.rules.specs.Finding.{place_of_name};
ghost use Rattle.fields.specs.Fields.{fields_of, no_fields, is_known, place_of, shape_of, has_place_for, entered};

use crate::{Definition, FieldTable};
use cards::kinds::Shape;
use columns::kinds::Name;
use rules::{Keyed, first_equal};
use std::alloc::{AllocError, Global};

// The most fields that a deck may have.
const MOST_FIELDS: usize = 64;

// A field is found by its name.
impl Keyed<Name> for Definition {
    ghost key_of = { λ field. field.name };

    fn key(&self) -> &Name {
        &self.name
    }
}

impl FieldTable {
    // An empty table.
    pub fn new(heap: Global) -> FieldTable
        ensures { fields_of result ≡ no_fields }
    {
        FieldTable {
            definitions: Vec::new(heap),
        }
    }

    // The place of a name in the table.
    pub fn find(&self, name: &Name) -> Option<usize>
        ensures { result ≡ place_of_name (fields_of self.now).names name.now }
    {
        first_equal(self.definitions.as_slice(), name)
    }

    fn is_known(&self, name: &Name) -> bool
        ensures { result ≡ is_known (fields_of self.now) name.now }
    {
        self.find(name).is_some()
    }

    // The place of a name, and 0 for one that is not known: public, it may not come to fail.
    pub fn place(&self, name: &Name) -> usize
        ensures { result ≡ place_of (fields_of self.now) name.now }
    {
        self.find(name).unwrap_or(0)
    }

    // The shape of a name, and text of no bytes for one that is not known: total as `place` is.
    pub fn shape(&self, name: &Name) -> Shape
        ensures { result ≡ shape_of (fields_of self.now) name.now }
    {
        self.find(name)
            .and_then(|i| self.definitions.get(i))
            .map_or(Shape::Text { length: 0 }, |field| field.shape)
    }

    // Whether a name finds a place: it is known, or fewer than 64 names are.
    pub fn has_place(&self, name: &Name) -> bool
        ensures { result ≡ has_place_for (fields_of self.now) name.now }
    {
        self.is_known(name) || self.definitions.len() < MOST_FIELDS
    }

    // A name that is new comes last; one that is known stays as it is.
    pub fn enter(&mut self, name: &Name, shape: Shape) -> Result<(), AllocError>
        ensures { OnOk result (fields_of self.new ≡ entered (fields_of self.old) name.now shape) }
    {
        if self.is_known(name) {
            return Ok(());
        }
        self.definitions.push(Definition { name: *name, shape })?;
        Ok(())
    }

    // Empties the table.
    pub fn clear(&mut self)
        ensures { fields_of self.new ≡ no_fields }
    {
        self.definitions.clear();
    }
}
