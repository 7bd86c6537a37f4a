ghost use Rattle.std.specs.Prelude.{◌≡◌, ℕ, not, ◌&&◌, List, is_some, Some};
ghost use Rattle.deck.specs.Defined.{defined_of, before_of};
ghost use Rattle.fields.specs.Fields.{fields_of};
ghost use Rattle.deck.specs.Rules.{are_alike, go_together, has_place, full, is_like, is_new_level, fits_shape, fits_level, doubles};
ghost use Rattle.rules.specs.Finding.{place_of_name};

use crate::defining::{defined_by, definition};
use crate::definitions::Definitions;
use crate::seen::Seen;
use cards::kinds::{DeckCard, FieldCard, Shape};
use columns::kinds::Indicator;
use fields::{Definition, FieldTable};
use rules::{Breach, Refusal, first_equal, first_of, rule};

// The most record types that a deck may have.
const MOST_TYPES: usize = 16;

// A field that is not known yet finds a place.
fn has_place(fields: &FieldTable, definition: Option<Definition>) -> bool
    ensures { result ≡ has_place (fields_of fields.now) definition }
{
    definition.is_none_or(|d| fields.has_place(&d.name))
}

// Of one kind and one length.
fn go_together(a: Shape, b: Shape) -> bool
    ensures { result ≡ go_together a b }
{
    match (a, b) {
        (Shape::Number { digits: m, .. }, Shape::Number { digits: n, .. }) => m == n,
        (Shape::Text { length: m }, Shape::Text { length: n }) => m == n,
        _ => false,
    }
}

// A field is defined as it was before.
fn is_like(fields: &FieldTable, definition: Option<Definition>) -> bool
    ensures { result ≡ is_like (fields_of fields.now) definition }
{
    definition.as_ref().is_none_or(|d| fields.find(&d.name).is_none()
        || fields.shape(&d.name) == d.shape)
}

// No other input of the record type has the level.
fn is_new_level(levels: &[Indicator], level: Option<Indicator>) -> bool
    ensures { result ≡ is_new_level levels.now level }
{
    level.is_none_or(|l| first_equal(levels, &l).is_none())
}

impl Definitions {
    // A control field goes together with the first one of its level.
    fn fits_level(&self, level: Option<Indicator>, shape: Shape) -> bool
        ensures { result ≡ fits_level self.now.levels level shape }
    {
        level
            .and_then(|l| self.level_shape(l))
            .is_none_or(|first| go_together(first, shape))
    }

    // A field or a record type that finds no place.
    pub(crate) fn tell_full(&self, seen: &Seen, card: &DeckCard) -> Option<Breach>
        ensures { result ≡ full (defined_of self.now) (before_of seen.now) card.now }
    {
        match *card {
            DeckCard::Record(_) => rule(Refusal::TableFull, 0, seen.indicators.len() < MOST_TYPES),
            DeckCard::Field(_) | DeckCard::Calculation(_) => rule(
                Refusal::TableFull,
                0,
                has_place(&self.fields, definition(card)),
            ),
            _ => None,
        }
    }

    fn is_single_name(&self, seen: &Seen, f: &FieldCard) -> bool
        ensures { result ≡ (is_like (fields_of self.now.fields) (Some (record { name = f.now.name; shape = f.now.shape })) && not (is_some (place_of_name seen.now.names.items f.now.name))) }
    {
        is_like(&self.fields, Some(defined_by(f)))
            && first_equal(seen.names.as_slice(), &f.name).is_none()
    }

    fn is_single_level(&self, seen: &Seen, f: &FieldCard) -> bool
        ensures { result ≡ (is_new_level seen.now.levels.items f.now.level && fits_level self.now.levels f.now.level f.now.shape) }
    {
        is_new_level(seen.levels.as_slice(), f.level) && self.fits_level(f.level, f.shape)
    }

    // What is repeated, or defined unlike.
    pub(crate) fn tell_doubles(&self, seen: &Seen, card: &DeckCard) -> Option<Breach>
        ensures { result ≡ doubles (defined_of self.now) (before_of seen.now) card.now }
    {
        match *card {
            DeckCard::Record(r) => rule(
                Refusal::Double,
                19,
                first_equal(seen.indicators.as_slice(), &r.indicator).is_none(),
            ),
            DeckCard::Field(f) => first_of(&[
                rule(Refusal::Double, 53, self.is_single_name(seen, &f)),
                rule(Refusal::Double, 59, self.is_single_level(seen, &f)),
            ]),
            DeckCard::Calculation(_) => rule(
                Refusal::Double,
                43,
                is_like(&self.fields, definition(card)),
            ),
            _ => None,
        }
    }
}
