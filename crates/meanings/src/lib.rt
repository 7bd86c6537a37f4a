// What a deck card means.
//
// `card_of` is a total reading of a card's columns, which asks nothing of them: it is used of cards that keep their
// rules. It promises that each part of what it answers is what the columns of that entry say.
//
// The crate looks at one card at a time. Names stay as they are punched: looking them up is for the deck.
#![tactic(auto)]

ghost use Rattle.std.specs.Prelude.{◌≡◌, ◌+◌, ◌-◌, ◌*◌, ◌≤◌};
ghost use Rattle.std.specs.Fn.{FnReturnsAt};
ghost use Rattle.columns.specs.Classes.{columns};
ghost use Rattle.entries.specs.Literals.{text_of, text_length};
ghost use Rattle.meanings.specs.Meanings.{name_of, name_in, shape_of, code_in, conditions_in, told_in, codes_in, record_of, field_of, literal_factor, factor_of, result_shape, calculation_of, line_kind_of, spacing_of, output_record_of, printed_of, output_field_of, meant_by, card_of};

use cards::inputs::width;
use cards::kinds::{
    CalculationCard, Code, Codes, Conditions, DeckCard, Factor, FieldCard, Kind, LineKind,
    OutputFieldCard, OutputRecordCard, Printed, RecordCard, Shape, Three, Told,
};
use cards::tells::kind_of;
use columns::classes::{at, entry, is_blank};
use columns::kinds::Name;
use devices::Card;
use entries::{condition, indicator, is_name, numeric, text, value};
use images::EditCode;
use operations::read_operation;
use std::array;

// The six columns of a name.
fn name_of(s: &[u8]) -> Name
    ensures { result ≡ name_of s.now }
{
    array::from_fn(|i| at(s, i))
}

// A name, unless the entry is blank.
fn name_in(s: &[u8]) -> Option<Name>
    ensures { result ≡ name_in s.now }
{
    (!is_blank(s)).then_some(name_of(s))
}

// A number with decimals, or text where they are blank.
fn shape(width: u16, decimals: &[u8]) -> Shape
    ensures { result ≡ shape_of width decimals.now }
{
    if is_blank(decimals) {
        Shape::Text { length: width }
    } else {
        Shape::Number {
            digits: width,
            decimals: value(decimals),
        }
    }
}

fn code(s: &[u8]) -> Option<Code>
    ensures { result ≡ code_in s.now }
{
    (!is_blank(s)).then(|| Code {
        position: value(s),
        negated: at(s, 4) == b'N',
        character: at(s, 6),
    })
}

// What three entries of one width say, which stand one after another from a column on. The column is no part of the
// card: three readings begin each in its own.
fn three<T, F: Fn(&[u8]) -> Option<T>>(card: &Card, from: u8, width: u8, read: F) -> Three<T>
    requires callable { F.IsAlwaysCallable read }
    requires filled { 1 ≤ width }
    requires fits { from + 3 * width ≤ 81 }
    ensures first { FnReturnsAt F.Fn read (columns card.now.columns from (from + (width - 1))) result.first }
    ensures second { FnReturnsAt F.Fn read (columns card.now.columns (from + width) (from + (2 * width - 1))) result.second }
    ensures third { FnReturnsAt F.Fn read (columns card.now.columns (from + 2 * width) (from + (3 * width - 1))) result.third }
{
    Three {
        first: read(entry(card, from, from + (width - 1))),
        second: read(entry(card, from + width, from + (2 * width - 1))),
        third: read(entry(card, from + 2 * width, from + (3 * width - 1))),
    }
}

fn codes(card: &Card) -> Codes
    ensures { result ≡ codes_in card.now.columns }
{
    three(card, 21, 7, code)
}

// Three conditions in the nine columns from one on.
fn conditions(card: &Card, from: u8) -> Conditions
    requires { from ≤ 72 }
    ensures { result ≡ conditions_in card.now.columns from }
{
    // A closure: tried by its name, a function of another crate's private module got no proof.
    three(card, from, 3, |s| condition(s))
}

// Three indicators in the six columns from one on.
fn told(card: &Card, from: u8) -> Told
    requires { from ≤ 75 }
    ensures { result ≡ told_in card.now.columns from }
{
    let indicators = three(card, from, 2, |s| indicator(s));
    Told {
        plus: indicators.first,
        minus: indicators.second,
        zero: indicators.third,
    }
}

fn record(card: &Card) -> RecordCard
    ensures { result ≡ record_of card.now.columns }
{
    RecordCard {
        // A total reading: 0 where no indicator is named, as in the definition.
        indicator: indicator(entry(card, 19, 20)).unwrap_or(0),
        codes: codes(card),
    }
}

fn field(card: &Card) -> FieldCard
    ensures { result ≡ field_of card.now.columns }
{
    let from = entry(card, 44, 47);
    FieldCard {
        name: name_of(entry(card, 53, 58)),
        from: value(from),
        shape: shape(width(from, entry(card, 48, 51)), entry(card, 52, 52)),
        level: indicator(entry(card, 59, 60)),
        told: told(card, 65),
    }
}

// The length of a text between apostrophes.
fn text_length(s: &[u8]) -> usize
    ensures { result ≡ text_length (text_of s.now) }
{
    text(s).map_or(0, |inside| inside.len())
}

// A number where the literal reads as one, and otherwise a text.
fn literal_factor(s: &[u8]) -> Factor
    ensures { result ≡ literal_factor s.now }
{
    match numeric(s) {
        Some(number) => Factor::Number(number),
        None => Factor::Text {
            length: text_length(s),
        },
    }
}

// A name, or else a literal, unless the entry is blank.
fn factor(s: &[u8]) -> Option<Factor>
    ensures { result ≡ factor_of s.now }
{
    if is_blank(s) {
        None
    } else if is_name(s) {
        Some(Factor::Field(name_of(s)))
    } else {
        Some(literal_factor(s))
    }
}

// The shape of a result, where the card defines it.
fn result_shape(length: &[u8], decimals: &[u8]) -> Option<Shape>
    ensures { result ≡ result_shape length.now decimals.now }
{
    (!is_blank(length)).then(|| shape(value(length), decimals))
}

fn calculation(card: &Card) -> CalculationCard
    ensures { result ≡ calculation_of card.now.columns }
{
    CalculationCard {
        level: indicator(entry(card, 7, 8)),
        conditions: conditions(card, 9),
        factor1: name_in(entry(card, 18, 27)),
        operation: read_operation(entry(card, 28, 32)),
        factor2: factor(entry(card, 33, 42)),
        result: name_in(entry(card, 43, 48)),
        shape: result_shape(entry(card, 49, 51), entry(card, 52, 52)),
        half_adjust: !is_blank(entry(card, 53, 53)),
        told: told(card, 54),
    }
}

fn line_kind(s: &[u8]) -> LineKind
    ensures { result ≡ line_kind_of s.now }
{
    // A total reading: a letter that stands for no kind counts as a heading.
    LineKind::from_byte(at(s, 0)).unwrap_or(LineKind::Heading)
}

// Lines are spaced by one where nothing is said.
fn spacing(s: &[u8]) -> u16
    ensures { result ≡ spacing_of s.now }
{
    if is_blank(s) { 1 } else { value(s) }
}

fn output_record(card: &Card) -> OutputRecordCard
    ensures { result ≡ output_record_of card.now.columns }
{
    OutputRecordCard {
        kind: line_kind(entry(card, 15, 15)),
        spacing: spacing(entry(card, 18, 18)),
        conditions: conditions(card, 23),
    }
}

// A field by its name or, where that is blank, a constant.
fn printed(card: &Card) -> Printed
    ensures { result ≡ printed_of card.now.columns }
{
    let edit = EditCode::from_byte(card.columns[37]);
    match name_in(entry(card, 32, 37)) {
        Some(name) => Printed::Field {
            name,
            edit,
            blank_after: !is_blank(entry(card, 39, 39)),
        },
        None => Printed::Constant {
            edit,
            length: text_length(entry(card, 45, 70)),
        },
    }
}

fn output_field(card: &Card) -> OutputFieldCard
    ensures { result ≡ output_field_of card.now.columns }
{
    OutputFieldCard {
        conditions: conditions(card, 23),
        printed: printed(card),
        end: value(entry(card, 40, 43)),
    }
}

fn meant(kind: Kind, card: &Card) -> DeckCard
    ensures { result ≡ meant_by kind card.now.columns }
{
    match kind {
        Kind::Comment | Kind::Unknown => DeckCard::Comment,
        Kind::Record => DeckCard::Record(record(card)),
        Kind::Field => DeckCard::Field(field(card)),
        Kind::Calculation => DeckCard::Calculation(calculation(card)),
        Kind::OutputRecord => DeckCard::OutputRecord(output_record(card)),
        Kind::OutputField => DeckCard::OutputField(output_field(card)),
    }
}

// What a card means; a card of an unknown kind counts as a comment.
pub fn card_of(card: &Card) -> DeckCard
    ensures { result ≡ card_of card.now.columns }
{
    meant(kind_of(card), card)
}
