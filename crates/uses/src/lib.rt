// What the cards of a deck use: names that a card defines, and entries of the right kind.
//
// Whether a card uses its names well can be judged only once the whole field table is known, since a name may be used
// above its definition. `tell` answers the first breach of a card in that light, by refusal and column: unknown names
// by column, then kinds by column.
//
// The crate knows the field table and one card at a time. It may not know the cards around it, nor what a run does.
#![tactic(auto)]

ghost use Rattle.std.specs.Prelude.{◌≡◌, ℕ, ◌+◌, List, [], ◌∷◌, is_some, IfSome};
ghost use Rattle.std.specs.Option.{option_map};
ghost use Rattle.numbers.specs.Limits.{is_picture};
ghost use Rattle.cards.specs.declared.kinds.DeckCard.TheVariants.{Calculation};
ghost use Rattle.rules.specs.Rules.{first};
ghost use Rattle.fields.specs.Fields.{fields_of, shape_of};
ghost use Rattle.uses.specs.Uses.{knows, factor_name, printed_name, unknowns, factor_shape, is_numeric, numeric_in, text_in, same_kind, decimals_of, divides, arithmetic_with, kinds_for, has_columns, prints_shape, prints, kinds, uses_told};

use cards::kinds::{CalculationCard, DeckCard, Factor, Printed, Shape};
use columns::kinds::Name;
use fields::FieldTable;
use images::{EditCode, image_width};
use numbers::Picture;
use operations::Operation;
use rules::{Breach, Refusal, first_of, rule};

// The name in a second factor, if it is one.
fn factor_name(factor: Option<Factor>) -> Option<Name>
    ensures { result ≡ factor_name factor }
{
    match factor {
        Some(Factor::Field(name)) => Some(name),
        _ => None,
    }
}

// The name of what is printed, if it is a field.
fn printed_name(printed: Printed) -> Option<Name>
    ensures { result ≡ printed_name printed }
{
    match printed {
        Printed::Field { name, .. } => Some(name),
        Printed::Constant { .. } => None,
    }
}

// Whether a shape is that of a number.
fn is_numeric(shape: Shape) -> bool
    ensures { result ≡ is_numeric shape }
{
    matches!(shape, Shape::Number { .. })
}

// Whether an entry is blank or a number, and blank or text.
fn is_number(entry: Option<Shape>) -> bool
    ensures { result ≡ numeric_in entry }
{
    entry.is_none_or(is_numeric)
}

fn is_text(entry: Option<Shape>) -> bool
    ensures { result ≡ text_in entry }
{
    entry.is_none_or(|shape| !is_numeric(shape))
}

fn decimals(entry: Option<Shape>) -> u16
    ensures { result ≡ decimals_of entry }
{
    match entry {
        Some(Shape::Number { decimals, .. }) => decimals,
        _ => 0,
    }
}

// The shapes of the entries of a calculation, where they are filled.
#[derive(Clone, Copy)]
struct Shapes {
    factor1: Option<Shape>,
    factor2: Option<Shape>,
    result: Option<Shape>,
}

impl Shapes {
    fn is_same_kind(self) -> bool
        ensures { result ≡ same_kind self.factor1 self.factor2 }
    {
        (is_number(self.factor1) && is_number(self.factor2))
            || (is_text(self.factor1) && is_text(self.factor2))
    }

    // Of three numbers, the decimals of the result and the divisor are at most nine more than those of the dividend.
    fn divides(self) -> bool
        ensures { result ≡ divides self.factor1 self.factor2 self.result }
    {
        let most = decimals(self.factor1) as u32 + 9;
        let wanted = decimals(self.result) as u32 + decimals(self.factor2) as u32;
        !(is_number(self.factor1) && is_number(self.factor2) && is_number(self.result))
            || wanted <= most
    }

    // Arithmetic takes numbers; behind the rule on factor 1 stands one on column 28, which only a division may break.
    fn tell_arithmetic(self, kept: bool) -> Option<Breach>
        ensures { result ≡ arithmetic_with kept self.factor1 self.factor2 self.result }
    {
        first_of(&[
            rule(Refusal::Kind, 18, is_number(self.factor1)),
            rule(Refusal::Kind, 28, kept),
            rule(Refusal::Kind, 33, is_number(self.factor2)),
            rule(Refusal::Kind, 43, is_number(self.result)),
        ])
    }

    // The kinds that an operation asks of factor 1, factor 2 and the result.
    fn tell(self, operation: Option<Operation>) -> Option<Breach>
        ensures { result ≡ kinds_for operation self.factor1 self.factor2 self.result }
    {
        match operation {
            Some(
                Operation::Add
                | Operation::Sub
                | Operation::Mult
                | Operation::ZAdd
                | Operation::ZSub,
            ) => self.tell_arithmetic(true),
            Some(Operation::Div) => self.tell_arithmetic(self.divides()),
            Some(Operation::Comp) => rule(Refusal::Kind, 33, self.is_same_kind()),
            Some(Operation::Move) => first_of(&[
                rule(Refusal::Kind, 33, is_text(self.factor2)),
                rule(Refusal::Kind, 43, is_text(self.result)),
            ]),
            Some(Operation::SetOn | Operation::SetOf) | None => None,
        }
    }
}

// The picture of a number, if it has one.
fn picture(digits: u16, decimals: u16) -> Option<Picture>
    ensures made { is_some result ≡ is_picture digits decimals }
    ensures parts { IfSome result (λ p. (p.digits ≡ digits) × (p.decimals ≡ decimals)) }
{
    Picture::new(u8::try_from(digits).ok()?, u8::try_from(decimals).ok()?)
}

// The columns of a field that end in a column do not begin left of column 1.
fn has_columns(shape: Shape, edit: Option<EditCode>, end: u16) -> bool
    ensures { result ≡ has_columns shape edit end }
{
    match shape {
        Shape::Number { digits, decimals } => {
            picture(digits, decimals).is_some_and(|p| image_width(p, edit) as u16 <= end)
        }
        Shape::Text { length } => length <= end,
    }
}

// Only a number is edited, and no image begins left of column 1.
fn tell_shape(shape: Shape, edit: Option<EditCode>, end: u16) -> Option<Breach>
    ensures { result ≡ prints_shape shape edit end }
{
    first_of(&[
        rule(Refusal::Kind, 38, edit.is_none() || is_numeric(shape)),
        rule(Refusal::Kind, 40, has_columns(shape, edit, end)),
    ])
}

// A name that is used is known.
fn knows(fields: &FieldTable, name: Option<Name>) -> bool
    ensures { result ≡ knows (fields_of fields.now) name }
{
    name.as_ref().is_none_or(|name| fields.find(name).is_some())
}

fn shape_in(fields: &FieldTable, name: Option<Name>) -> Option<Shape>
    ensures { result ≡ option_map (shape_of (fields_of fields.now)) name }
{
    name.as_ref().map(|name| fields.shape(name))
}

// The shape of a second factor, if there is one.
fn factor_shape(fields: &FieldTable, factor: Option<Factor>) -> Option<Shape>
    ensures { result ≡ factor_shape (fields_of fields.now) factor }
{
    match factor? {
        Factor::Field(name) => Some(fields.shape(&name)),
        Factor::Number(l) => Some(Shape::Number {
            digits: l.digits,
            decimals: l.decimals,
        }),
        Factor::Text { .. } => Some(Shape::Text { length: 0 }),
    }
}

fn tell_unknown_entries(fields: &FieldTable, c: &CalculationCard) -> Option<Breach>
    ensures { result ≡ unknowns (fields_of fields.now) (Calculation c.now) }
{
    first_of(&[
        rule(Refusal::Unknown, 18, knows(fields, c.factor1)),
        rule(Refusal::Unknown, 33, knows(fields, factor_name(c.factor2))),
        rule(Refusal::Unknown, 43, knows(fields, c.result)),
    ])
}

// A name that no card defines. Table and card are no one struct: they are lent apart, and most functions here read the
// table and no card.
fn tell_unknowns(fields: &FieldTable, card: &DeckCard) -> Option<Breach>
    ensures { result ≡ unknowns (fields_of fields.now) card.now }
{
    match card {
        DeckCard::Calculation(c) => tell_unknown_entries(fields, c),
        DeckCard::OutputField(o) => rule(
            Refusal::Unknown,
            32,
            knows(fields, printed_name(o.printed)),
        ),
        _ => None,
    }
}

// What is printed of a field or a constant.
fn tell_printed(fields: &FieldTable, printed: Printed, end: u16) -> Option<Breach>
    ensures { result ≡ prints (fields_of fields.now) printed end }
{
    match printed {
        Printed::Field { name, edit, .. } => tell_shape(fields.shape(&name), edit, end),
        Printed::Constant { edit, length } => first_of(&[
            rule(Refusal::Kind, 38, edit.is_none()),
            rule(Refusal::Kind, 40, length <= end as usize),
        ]),
    }
}

fn tell_calculation(fields: &FieldTable, c: &CalculationCard) -> Option<Breach>
    ensures { result ≡ kinds (fields_of fields.now) (Calculation c.now) }
{
    let shapes = Shapes {
        factor1: shape_in(fields, c.factor1),
        factor2: factor_shape(fields, c.factor2),
        result: shape_in(fields, c.result),
    };
    shapes.tell(c.operation)
}

// An entry of a wrong kind.
fn tell_kinds(fields: &FieldTable, card: &DeckCard) -> Option<Breach>
    ensures { result ≡ kinds (fields_of fields.now) card.now }
{
    match card {
        DeckCard::Calculation(c) => tell_calculation(fields, c),
        DeckCard::OutputField(o) => tell_printed(fields, o.printed, o.end),
        _ => None,
    }
}

// The first breach of a card, by the whole field table: unknown names, then entries of a wrong kind.
pub fn tell(fields: &FieldTable, card: &DeckCard) -> Option<Breach>
    ensures { result ≡ uses_told (fields_of fields.now) card.now }
{
    first_of(&[tell_unknowns(fields, card), tell_kinds(fields, card)])
}
