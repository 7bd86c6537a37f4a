ghost use Rattle.std.specs.Prelude.{◌≡◌, ℕ, ◌-◌, max, List, [], ◌∷◌, ◌++◌, OnOk};
ghost use Rattle.std.specs.Option.{option_to_list};
ghost use Rattle.deck.specs.Defined.{defined_of, nothing, define, definition_of, result_definition, with_definition, level_shape, with_level, type_of, input_of, before_of, none_before, see};
ghost use Rattle.fields.specs.Fields.{fields_of};
ghost use Rattle.cards.specs.declared.kinds.DeckCard.TheVariants.{Record, Field};

use crate::definitions::Definitions;
use crate::kinds::{Input, RecordType};
use crate::seen::Seen;
use cards::kinds::{CalculationCard, DeckCard, FieldCard, RecordCard, Shape};
use columns::kinds::{Indicator, Name};
use fields::{Definition, FieldTable};
use std::alloc::{AllocError, Global};

fn result_definition(name: Option<Name>, shape: Option<Shape>) -> Option<Definition>
    ensures { result ≡ result_definition name shape }
{
    name.zip(shape)
        .map(|(name, shape)| Definition { name, shape })
}

// The field that an input card defines.
pub(crate) fn defined_by(f: &FieldCard) -> Definition
    ensures { result ≡ record { name = f.now.name; shape = f.now.shape } }
{
    let name = f.name;
    Definition {
        name,
        shape: f.shape,
    }
}

// The field that a card defines, if it defines one.
pub(crate) fn definition(card: &DeckCard) -> Option<Definition>
    ensures { result ≡ definition_of card.now }
{
    match *card {
        DeckCard::Field(f) => Some(defined_by(&f)),
        DeckCard::Calculation(c) => result_definition(c.result, c.shape),
        _ => None,
    }
}

// The place of a control level among ten: L1 to L9 have places 1 to 9.
fn place_of_level(level: Indicator) -> usize
    ensures { result ≡ level - 100 }
{
    level.saturating_sub(100) as usize
}

// The field that a card defines is entered.
fn enter(fields: &mut FieldTable, definition: Option<Definition>) -> Result<(), AllocError>
    ensures { OnOk result (fields_of fields.new ≡ with_definition (fields_of fields.old) definition) }
{
    // Tried: map_or, but of what its closure writes to the table nothing is known.
    match definition {
        Some(d) => fields.enter(&d.name, d.shape),
        None => Ok(()),
    }
}

impl Definitions {
    // No definitions.
    pub(crate) fn new(heap: Global) -> Definitions
        ensures { defined_of result ≡ nothing }
    {
        Definitions {
            fields: FieldTable::new(heap),
            levels: [None; 10],
            types: Vec::new(heap),
            inputs: Vec::new(heap),
        }
    }

    pub(crate) fn clear(&mut self)
        ensures { defined_of self.new ≡ nothing }
    {
        self.fields.clear();
        self.levels = [None; 10];
        self.types.clear();
        self.inputs.clear();
    }

    // The shape of a control level, if a field has it.
    pub(crate) fn level_shape(&self, level: Indicator) -> Option<Shape>
        ensures { result ≡ level_shape self.now.levels level }
    {
        self.levels.get(place_of_level(level)).copied().flatten()
    }

    fn define_level(&mut self, level: Option<Indicator>, shape: Shape)
        ensures levels { self.new.levels ≡ with_level self.old.levels level shape }
        ensures fields { self.new.fields ≡ self.old.fields }
        ensures types { self.new.types ≡ self.old.types }
        ensures inputs { self.new.inputs ≡ self.old.inputs }
    {
        if let Some(l) = level {
            let i = place_of_level(l);
            // Not by `get_mut`: what is written through it is not known behind it.
            if let Some(None) = self.levels.get(i) {
                self.levels[i] = Some(shape);
            }
        }
    }

    fn define_type(&mut self, r: &RecordCard) -> Result<(), AllocError>
        ensures { OnOk result (defined_of self.new ≡ define (defined_of self.old) (Record r.now)) }
    {
        let first = self.inputs.len();
        self.types.push(RecordType {
            indicator: r.indicator,
            codes: r.codes,
            first,
        })?;
        Ok(())
    }

    fn define_input(&mut self, f: &FieldCard) -> Result<(), AllocError>
        ensures { OnOk result (defined_of self.new ≡ define (defined_of self.old) (Field f.now)) }
    {
        self.fields.enter(&f.name, f.shape)?;
        let field = self.fields.place(&f.name);
        self.inputs.push(Input {
            field,
            from: f.from,
            level: f.level,
            told: f.told,
        })?;
        self.define_level(f.level, f.shape);
        Ok(())
    }

    // What a card adds to the definitions before it.
    pub(crate) fn define(&mut self, card: &DeckCard) -> Result<(), AllocError>
        ensures { OnOk result (defined_of self.new ≡ define (defined_of self.old) card.now) }
    {
        match *card {
            DeckCard::Record(r) => self.define_type(&r),
            DeckCard::Field(f) => self.define_input(&f),
            DeckCard::Calculation(c) => enter(
                &mut self.fields,
                result_definition(c.result, c.shape),
            ),
            _ => Ok(()),
        }
    }
}

impl Seen {
    pub(crate) fn new(heap: Global) -> Seen
        ensures { before_of result ≡ none_before }
    {
        Seen {
            highest: 0,
            indicators: Vec::new(heap),
            names: Vec::new(heap),
            levels: Vec::new(heap),
        }
    }

    fn see_type(&mut self, indicator: Indicator) -> Result<(), AllocError>
        ensures { OnOk result (before_of self.new ≡ record { highest = self.old.highest; indicators = self.old.indicators.items ++ indicator ∷ []; names = []; levels = [] }) }
    {
        self.indicators.push(indicator)?;
        self.names.clear();
        self.levels.clear();
        Ok(())
    }

    fn see_input(&mut self, name: Name, level: Option<Indicator>) -> Result<(), AllocError>
        ensures { OnOk result (before_of self.new ≡ record { highest = self.old.highest; indicators = self.old.indicators.items; names = self.old.names.items ++ name ∷ []; levels = self.old.levels.items ++ option_to_list level }) }
    {
        self.names.push(name)?;
        // Not `extend(level)`: one item or none, and its want of memory, are told more plainly so.
        if let Some(l) = level {
            self.levels.push(l)?;
        }
        Ok(())
    }

    // A card of a rank has been taken in.
    pub(crate) fn see(&mut self, rank: u8, card: &DeckCard) -> Result<(), AllocError>
        ensures { OnOk result (before_of self.new ≡ see (before_of self.old) rank card.now) }
    {
        self.highest = self.highest.max(rank);
        match *card {
            DeckCard::Record(r) => self.see_type(r.indicator),
            DeckCard::Field(f) => self.see_input(f.name, f.level),
            _ => Ok(()),
        }
    }
}
