ghost use Rattle.std.specs.Prelude.{◌≡◌};
ghost use Rattle.rules.specs.Rules.{rule, punch, each, first};

use crate::refusal::{Breach, Refusal};
use columns::classes::entry;
use columns::kinds::Class;
use devices::Card;

// A rule: kept, or told with its refusal and column.
pub fn rule(refusal: Refusal, column: u8, kept: bool) -> Option<Breach>
    ensures { result ≡ rule refusal column kept }
{
    (!kept).then_some((refusal, column))
}

// A rule on what may be punched into an entry, which is told at the entry's first column.
pub fn punch(column: u8, kept: bool) -> Option<Breach>
    ensures { result ≡ punch column kept }
{
    rule(Refusal::Punch, column, kept)
}

// Columns that each for itself hold a byte of a class: the first that does not is told.
pub fn each(card: &Card, class: Class, from: u8, to: u8) -> Option<Breach>
    ensures { result ≡ each class card.now.columns from to }
{
    let s = entry(card, from, to);
    let n = class.run(s);
    (n < s.len()).then(|| (Refusal::Punch, from + n as u8))
}

// The first breach of rules in telling order.
pub fn first_of(rules: &[Option<Breach>]) -> Option<Breach>
    ensures { result ≡ first rules.now }
{
    // Tried as `find_map`: that none before it tells anything stayed open.
    rules.iter().copied().find(|rule| rule.is_some()).flatten()
}
