// The entries of calculation cards. Which of them have to be filled goes by the operation; where the operation
// is unknown, that alone is told.
ghost use Rattle.std.specs.Prelude.{◌≡◌, ◌≤◌, Bool, true, ◌||◌, MatchOption};
ghost use Rattle.columns.specs.Classes.{is_blank};
ghost use Rattle.operations.specs.Operations.{takes_of};
ghost use Rattle.cards.specs.Punches.{is_filled, is_optional_name, is_factor1, is_factor2, is_result, is_size, is_length, is_result_decimals, is_half_adjust, is_told, names_one};

use crate::inputs::{is_between, widest_of};
use columns::classes::{at, is_blank};
use columns::kinds::Class;
use entries::{is_blank_or, is_name, is_number, is_numeric, is_text, value};
use operations::{Operation, Takes};

// The columns of an entry of a calculation card, and the card's operation.
#[derive(Clone, Copy)]
pub(crate) struct Entry<'a> {
    pub(crate) operation: Option<Operation>,
    pub(crate) columns: &'a [u8],
}

impl Entry<'_> {
    // Filled or blank as the operation asks of an entry; an unknown operation asks nothing.
    fn is_asked<F: FnOnce(Takes) -> bool>(&self, entry: F) -> bool
        requires { F.IsAlwaysCallable entry }
        ensures { MatchOption self.now.operation (result ≡ true) (λ o. (taken : Bool) × F.post entry (takes_of o) taken × (result ≡ is_filled taken self.now.columns.now)) }
    {
        self.operation
            .is_none_or(|known| is_filled(entry(known.takes()), self.columns))
    }

    // Blank, unless the operation may have the entry; an unknown operation may have each.
    fn is_allowed<F: FnOnce(Takes) -> bool>(&self, may: F) -> bool
        requires { F.IsAlwaysCallable may }
        ensures { MatchOption self.now.operation (result ≡ true) (λ o. (has : Bool) × F.post may (takes_of o) has × (result ≡ (has || is_blank self.now.columns.now))) }
    {
        self.operation
            .is_none_or(|known| may(known.takes()) || is_blank(self.columns))
    }

    pub(crate) fn is_factor1(&self) -> bool
        ensures { result ≡ is_factor1 self.now.operation self.now.columns.now }
    {
        is_optional_name(self.columns) && self.is_asked(|takes| takes.factor1)
    }

    // A name or a literal.
    pub(crate) fn is_factor2(&self) -> bool
        ensures { result ≡ is_factor2 self.now.operation self.now.columns.now }
    {
        let s = self.columns;
        (is_blank(s) || is_name(s) || is_numeric(s) || is_text(s))
            && self.is_asked(|takes| takes.factor2)
    }

    // One line as for factor 1, which names its own entry.
    pub(crate) fn is_result(&self) -> bool
        ensures { result ≡ is_result self.now.operation self.now.columns.now }
    {
        is_optional_name(self.columns) && self.is_asked(|takes| takes.result)
    }

    // The length of a result that the card defines.
    pub(crate) fn is_length(&self, decimals: &[u8]) -> bool
        ensures { result ≡ is_length self.now.operation self.now.columns.now decimals.now }
    {
        is_blank(self.columns)
            || (is_size(self.columns, decimals) && self.is_allowed(|takes| takes.result))
    }

    // H, or nothing.
    pub(crate) fn is_half_adjust(&self) -> bool
        ensures { result ≡ is_half_adjust self.now.operation self.now.columns.now }
    {
        is_blank(self.columns)
            || (at(self.columns, 0) == b'H' && self.is_allowed(|takes| takes.half_adjust))
    }

    // An indicator that tells of the result.
    pub(crate) fn is_told(&self) -> bool
        ensures { result ≡ is_told self.now.operation self.now.columns.now }
    {
        is_blank_or(1, 99, self.columns) && self.is_allowed(|takes| takes.tells)
    }

    // An operation that sets indicators names one.
    pub(crate) fn names_one(&self) -> bool
        ensures { result ≡ names_one self.now.operation self.now.columns.now }
    {
        self.operation
            .is_none_or(|known| !known.takes().sets || !is_blank(self.columns))
    }
}

// Filled where the entry is taken, and blank where it is not.
fn is_filled(taken: bool, s: &[u8]) -> bool
    ensures { result ≡ is_filled taken s.now }
{
    taken != is_blank(s)
}

// A name, or nothing.
pub(crate) fn is_optional_name(s: &[u8]) -> bool
    ensures { result ≡ is_optional_name s.now }
{
    is_blank(s) || is_name(s)
}

// A length that a number or a text may have.
fn is_size(s: &[u8], decimals: &[u8]) -> bool
    ensures { result ≡ is_size s.now decimals.now }
{
    is_between(1, widest_of(decimals), s)
}

// Decimals of a result: beside a length, and no more than it.
pub(crate) fn is_result_decimals(s: &[u8], decimals: &[u8]) -> bool
    ensures { result ≡ is_result_decimals s.now decimals.now }
{
    is_blank(decimals)
        || (Class::Digit.is_all(decimals) && !is_blank(s) && value(decimals) <= value(s))
}
