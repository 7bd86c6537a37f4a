ghost use Rattle.std.specs.Prelude.{◌≡◌};
ghost use Rattle.cards.specs.Layouts.{layout_of, Covers};

use crate::kinds::{Kind, Rule, What};

// One rule of a layout: the first and the last column of an entry, and what may stand there.
macro_rules! rule {
    ($from:expr, $to:expr, $what:ident) => {
        Rule {
            from: $from,
            to: $to,
            what: What::$what,
        }
    };
}

static RECORD: [Rule; 10] = [
    rule!(1, 5, Free),
    rule!(6, 6, Form),
    rule!(7, 16, Free),
    rule!(17, 18, Blank),
    rule!(19, 20, RecordIndicator),
    rule!(21, 27, Code),
    rule!(28, 34, Code),
    rule!(35, 41, Code),
    rule!(42, 74, Blank),
    rule!(75, 80, Free),
];

static FIELD: [Rule; 14] = [
    rule!(1, 5, Free),
    rule!(6, 6, Form),
    rule!(7, 43, Blank),
    rule!(44, 47, From),
    rule!(48, 51, To),
    rule!(52, 52, FieldDecimals),
    rule!(53, 58, Name),
    rule!(59, 60, ControlLevel),
    rule!(61, 64, Blank),
    rule!(65, 66, SignIndicator),
    rule!(67, 68, SignIndicator),
    rule!(69, 70, Settable),
    rule!(71, 74, Blank),
    rule!(75, 80, Free),
];

static CALCULATION: [Rule; 19] = [
    rule!(1, 5, Free),
    rule!(6, 6, Form),
    rule!(7, 8, TotalLevel),
    rule!(9, 11, Condition),
    rule!(12, 14, Condition),
    rule!(15, 17, Condition),
    rule!(18, 27, Factor1),
    rule!(28, 32, Operation),
    rule!(33, 42, Factor2),
    rule!(43, 48, Result),
    rule!(49, 51, Length),
    rule!(52, 52, ResultDecimals),
    rule!(53, 53, HalfAdjust),
    rule!(54, 55, Told),
    rule!(56, 57, Told),
    rule!(58, 59, Told),
    rule!(54, 59, Sets),
    rule!(60, 74, Blank),
    rule!(75, 80, Free),
];

static OUTPUT_RECORD: [Rule; 12] = [
    rule!(1, 5, Free),
    rule!(6, 6, Form),
    rule!(7, 14, Free),
    rule!(15, 15, LineKind),
    rule!(16, 17, Blank),
    rule!(18, 18, Spacing),
    rule!(19, 22, Blank),
    rule!(23, 25, Condition),
    rule!(26, 28, Condition),
    rule!(29, 31, Condition),
    rule!(32, 74, Blank),
    rule!(75, 80, Free),
];

static OUTPUT_FIELD: [Rule; 14] = [
    rule!(1, 5, Free),
    rule!(6, 6, Form),
    rule!(7, 22, Blank),
    rule!(23, 25, Condition),
    rule!(26, 28, Condition),
    rule!(29, 31, Condition),
    rule!(32, 37, OptionalName),
    rule!(38, 38, Edit),
    rule!(39, 39, BlankAfter),
    rule!(40, 43, End),
    rule!(44, 44, Blank),
    rule!(45, 70, Constant),
    rule!(71, 74, Blank),
    rule!(75, 80, Free),
];

static UNKNOWN: [Rule; 2] = [rule!(1, 5, Free), rule!(6, 6, Form)];

// The rules of a card kind, in the order of their columns.
pub fn layout(kind: Kind) -> &'static [Rule]
    ensures { result.now ≡ layout_of kind }
{
    match kind {
        Kind::Comment => &[],
        Kind::Record => &RECORD,
        Kind::Field => &FIELD,
        Kind::Calculation => &CALCULATION,
        Kind::OutputRecord => &OUTPUT_RECORD,
        Kind::OutputField => &OUTPUT_FIELD,
        Kind::Unknown => &UNKNOWN,
    }
}

// The last column of a card: up to it, every column of a card that is read belongs to an entry of its layout.
pub fn last_column() -> u8
    ensures value { result ≡ 80 }
    ensures covers { Covers result }
{
    80
}
