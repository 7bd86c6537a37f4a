// What a card is, and the first rule of its layout that it breaks.
ghost use Rattle.std.specs.Prelude.{◌≡◌};
ghost use Rattle.cards.specs.Layouts.{layout_of};
ghost use Rattle.cards.specs.Punches.{kind_of, rank_of, follows, operation_in, tells, first_of};

use crate::calculations::*;
use crate::inputs::*;
use crate::kinds::{Kind, Rule, What};
use crate::layouts::layout;
use crate::outputs::*;
use columns::classes::{at, entry, is_blank};
use columns::kinds::Class;
use devices::Card;
use entries::{indicator, is_among, is_blank_or, is_condition, is_name};
use operations::{Operation, read_operation};
use rules::{Breach, Refusal, each, punch};

// The kind of a card: a comment by its asterisk, and any other by its form letter and the entry that only a
// record card fills.
pub fn kind_of(card: &Card) -> Kind
    ensures { result ≡ kind_of card.now.columns }
{
    if card.columns[6] == b'*' {
        return Kind::Comment;
    }
    match card.columns[5] {
        b'I' => if is_blank(entry(card, 19, 20)) {
            Kind::Field
        } else {
            Kind::Record
        },
        b'C' => Kind::Calculation,
        b'O' => if is_blank(entry(card, 15, 15)) {
            Kind::OutputField
        } else {
            Kind::OutputRecord
        },
        _ => Kind::Unknown,
    }
}

// Where a card stands in the order of cards: input 1, detail calculations 2, total calculations 3, output 4.
// Numbers and no enum: `punches` takes any number for `highest`, and an enum would ask more of its callers.
pub fn rank(kind: Kind, card: &Card) -> u8
    ensures { result ≡ rank_of kind card.now.columns }
{
    match kind {
        Kind::Comment | Kind::Unknown => 0,
        Kind::Record | Kind::Field => 1,
        Kind::Calculation => if is_blank(entry(card, 7, 8)) { 2 } else { 3 },
        Kind::OutputRecord | Kind::OutputField => 4,
    }
}

// A card, and the highest rank of the cards before it.
#[derive(Clone, Copy)]
struct Looked<'a> {
    highest: u8,
    card: &'a Card,
}

impl Looked<'_> {
    // Whether a card of this kind may follow the cards before it.
    fn is_next(&self, kind: Kind) -> bool
        ensures { result ≡ follows kind self.now.highest self.now.card.now.columns }
    {
        match kind {
            Kind::Comment => true,
            Kind::Record => self.highest <= 1,
            Kind::Field => self.highest == 1,
            Kind::Calculation => self.highest <= rank(Kind::Calculation, self.card),
            Kind::OutputRecord => self.highest <= 4,
            Kind::OutputField => self.highest == 4,
            Kind::Unknown => false,
        }
    }

    // The operation of a calculation card.
    fn operation(&self) -> Option<Operation>
        ensures { result ≡ operation_in self.now.card.now.columns }
    {
        read_operation(entry(self.card, 28, 32))
    }

    // An entry of a calculation card.
    fn calculation_entry<'s>(&self, s: &'s [u8]) -> Entry<'s>
        ensures operation { result.operation ≡ operation_in self.now.card.now.columns }
        ensures columns { result.columns.now ≡ s.now }
    {
        Entry {
            operation: self.operation(),
            columns: s,
        }
    }

    // What one rule tells of a card. One match over all that may stand in an entry: each arm is a line of the table
    // that the contract names.
    fn tell(&self, rule: Rule) -> Option<Breach>
        ensures { result ≡ tells self.now.highest self.now.card.now.columns rule.what rule.from rule.to }
    {
        let Rule { from, to, what } = rule;
        let card = self.card;
        let s = entry(card, from, to);
        match what {
            What::Free => each(card, Class::Printable, from, to),
            What::Blank => each(card, Class::Blank, from, to),
            What::Form => rules::rule(Refusal::Order, from, self.is_next(kind_of(card))),
            What::RecordIndicator => punch(from, is_among(1, 99, indicator(s))),
            What::Code => punch(from, is_code(s)),
            What::From => punch(from, is_position(s)),
            What::To => punch(from, is_to(entry(card, 44, 47), s, entry(card, 52, 52))),
            What::FieldDecimals => punch(
                from,
                is_field_decimals(entry(card, 44, 47), entry(card, 48, 51), s),
            ),
            What::Name => punch(from, is_name(s)),
            What::ControlLevel => punch(from, is_blank_or(101, 109, s)),
            What::SignIndicator => punch(from, is_sign_indicator(entry(card, 52, 52), s)),
            What::Settable => punch(from, is_blank_or(1, 99, s)),
            What::TotalLevel => punch(from, is_blank_or(100, 110, s)),
            What::Condition => punch(from, is_condition(s)),
            What::Factor1 => punch(from, self.calculation_entry(s).is_factor1()),
            What::Operation => punch(from, self.operation().is_some()),
            What::Factor2 => punch(from, self.calculation_entry(s).is_factor2()),
            What::Result => punch(from, self.calculation_entry(s).is_result()),
            What::Length => punch(
                from,
                self.calculation_entry(s).is_length(entry(card, 52, 52)),
            ),
            What::ResultDecimals => punch(from, is_result_decimals(entry(card, 49, 51), s)),
            What::HalfAdjust => punch(from, self.calculation_entry(s).is_half_adjust()),
            What::Told => punch(from, self.calculation_entry(s).is_told()),
            What::Sets => punch(from, self.calculation_entry(s).names_one()),
            What::LineKind => punch(from, is_line_kind(s)),
            What::Spacing => punch(from, is_spacing(s)),
            What::OptionalName => punch(from, is_optional_name(s)),
            What::Edit => punch(from, is_edit(s)),
            What::BlankAfter => punch(from, is_blank_after(entry(card, 32, 37), s)),
            What::End => punch(from, is_end(s)),
            What::Constant => punch(from, is_constant(entry(card, 32, 37), s)),
        }
    }

    // The first breach that the rules of a layout tell.
    fn walk(&self, rules: &[Rule]) -> Option<Breach>
        ensures { result ≡ first_of self.now.highest self.now.card.now.columns rules.now }
    {
        rules.iter().find_map(|rule| self.tell(*rule))
    }
}

// The first breach of a card, where `highest` is the highest rank of the cards before it.
pub fn punches(highest: u8, card: &Card) -> Option<Breach>
    ensures { result ≡ first_of highest card.now.columns (layout_of (kind_of card.now.columns)) }
{
    Looked { highest, card }.walk(layout(kind_of(card)))
}
