ghost use Rattle.std.specs.Prelude.{◌≡◌, ℕ, ◌+◌, ◌*◌, not, List, [], ◌∷◌, ◌++◌, length, OnOk};
ghost use Rattle.std.specs.Option.{option_map};
ghost use Rattle.deck.specs.Acted.{acted_of, no_actions, part_behind, operand_of, source_of, calculation_of, record_of, output_of, is_total, with_item, add_line, add_calculation, add_output, act};
ghost use Rattle.fields.specs.Fields.{fields_of, place_of};

use crate::actions::{Actions, ByTime};
use crate::kinds::{Calculation, Operand, Output, OutputRecord, Part, Source};
use cards::kinds::{
    CalculationCard, DeckCard, Factor, LineKind, OutputFieldCard, OutputRecordCard, Printed,
};
use columns::kinds::Name;
use fields::FieldTable;
use std::alloc::{AllocError, Global};

impl Part {
    // The part that begins behind a column of the card at a place.
    fn behind(place: u8, column: u8, length: usize) -> Part
        ensures { result ≡ part_behind place column length }
    {
        Part {
            at: 80 * place as usize + column as usize,
            length,
        }
    }
}

// The field table in which the names of a card are looked up, and the card's place in the deck.
#[derive(Clone, Copy)]
pub(crate) struct Lookup<'a> {
    pub(crate) fields: &'a FieldTable,
    pub(crate) place: u8,
}

impl<'a> Lookup<'a> {
    fn field(&self, name: Option<Name>) -> Option<usize>
        ensures { result ≡ option_map (place_of (fields_of self.now.fields.now)) name }
    {
        name.as_ref().map(|name| self.fields.place(name))
    }

    // A second factor, where there is one; a text literal is a part of the deck's text.
    fn operand(&self, factor: Option<Factor>) -> Option<Operand>
        ensures { result ≡ option_map (operand_of (fields_of self.now.fields.now) self.now.place) factor }
    {
        match factor? {
            Factor::Field(name) => Some(Operand::Field(self.fields.place(&name))),
            Factor::Number(literal) => Some(Operand::Number(literal)),
            Factor::Text { length } => Some(Operand::Text(Part::behind(self.place, 33, length))),
        }
    }

    fn source(&self, printed: Printed) -> Source
        ensures { result ≡ source_of (fields_of self.now.fields.now) self.now.place printed }
    {
        match printed {
            Printed::Field {
                name,
                edit,
                blank_after,
            } => Source::Field {
                field: self.fields.place(&name),
                edit,
                blank_after,
            },
            Printed::Constant { length, .. } => {
                Source::Constant(Part::behind(self.place, 45, length))
            }
        }
    }

    fn calculation(&self, c: &CalculationCard) -> Calculation
        ensures { result ≡ calculation_of (fields_of self.now.fields.now) self.now.place c.now }
    {
        Calculation {
            card: self.place as usize + 1,
            level: c.level,
            conditions: c.conditions,
            operation: c.operation,
            factor1: self.field(c.factor1),
            factor2: self.operand(c.factor2),
            result: self.field(c.result),
            half_adjust: c.half_adjust,
            told: c.told,
        }
    }

    fn output(&self, o: &OutputFieldCard) -> Output
        ensures { result ≡ output_of (fields_of self.now.fields.now) self.now.place o.now }
    {
        Output {
            conditions: o.conditions,
            source: self.source(o.printed),
            end: o.end,
        }
    }
}

impl<T: Drop> ByTime<T> {
    // Nothing to do.
    fn new(heap: Global) -> ByTime<T>
        ensures detail { result.detail.items ≡ [] }
        ensures total { result.total.items ≡ [] }
    {
        ByTime {
            detail: Vec::new(heap),
            total: Vec::new(heap),
        }
    }

    fn clear(&mut self)
        ensures detail { self.new.detail.items ≡ [] }
        ensures total { self.new.total.items ≡ [] }
    {
        self.detail.clear();
        self.total.clear();
    }

    // By a Bool, as the definitions say it: an enum would be turned into one at once.
    fn add(&mut self, is_total: bool, item: T) -> Result<(), AllocError>
        ensures detail { OnOk result (self.new.detail.items ≡ with_item self.old.detail.items (not is_total) item) }
        ensures total { OnOk result (self.new.total.items ≡ with_item self.old.total.items is_total item) }
    {
        if is_total {
            self.total.push(item)?;
        } else {
            self.detail.push(item)?;
        }
        Ok(())
    }
}

impl Actions {
    // No actions.
    pub(crate) fn new(heap: Global) -> Actions
        ensures { acted_of result ≡ no_actions }
    {
        Actions {
            calculations: ByTime::new(heap),
            records: Vec::new(heap),
            lines: ByTime::new(heap),
            outputs: Vec::new(heap),
        }
    }

    pub(crate) fn clear(&mut self)
        ensures { acted_of self.new ≡ no_actions }
    {
        self.calculations.clear();
        self.records.clear();
        self.lines.clear();
        self.outputs.clear();
    }

    fn add_calculation(&mut self, is_total: bool, c: Calculation) -> Result<(), AllocError>
        ensures { OnOk result (acted_of self.new ≡ add_calculation (acted_of self.old) is_total c) }
    {
        self.calculations.add(is_total, c)
    }

    fn add_line(&mut self, is_total: bool, record: OutputRecord) -> Result<(), AllocError>
        ensures { OnOk result (acted_of self.new ≡ add_line (acted_of self.old) is_total «record») }
    {
        let place = self.records.len();
        self.records.push(record)?;
        self.lines.add(is_total, place)
    }

    fn add_record(&mut self, place: u8, o: &OutputRecordCard) -> Result<(), AllocError>
        ensures { OnOk result (acted_of self.new ≡ add_line (acted_of self.old) (is_total o.now.kind) (record_of place (length (acted_of self.old).outputs) o.now)) }
    {
        let first = self.outputs.len();
        let line = OutputRecord {
            card: place as usize + 1,
            kind: o.kind,
            spacing: o.spacing,
            conditions: o.conditions,
            first,
        };
        self.add_line(o.kind == LineKind::Total, line)
    }

    fn add_output(&mut self, output: Output) -> Result<(), AllocError>
        ensures { OnOk result (acted_of self.new ≡ add_output (acted_of self.old) output) }
    {
        self.outputs.push(output)?;
        Ok(())
    }

    // What a card adds to the actions before it.
    pub(crate) fn act(&mut self, lookup: &Lookup, card: &DeckCard) -> Result<(), AllocError>
        ensures { OnOk result (acted_of self.new ≡ act (fields_of lookup.now.fields.now) lookup.now.place (acted_of self.old) card.now) }
    {
        match *card {
            DeckCard::Calculation(c) => {
                self.add_calculation(c.level.is_some(), lookup.calculation(&c))
            }
            DeckCard::OutputRecord(o) => self.add_record(lookup.place, &o),
            DeckCard::OutputField(o) => self.add_output(lookup.output(&o)),
            _ => Ok(()),
        }
    }
}
