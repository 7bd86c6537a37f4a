ghost use Rattle.std.specs.Prelude.{◌≡◌, ℕ, suc, ◌+◌, ◌-◌, ◌*◌, ◌/◌, ◌<◌, ◌≤◌, false, List, [], ◌∷◌, ◌++◌, map, length};
ghost use Rattle.rules.specs.Rules.{first};
ghost use Rattle.deck.specs.Acted.{acted_of, no_actions};
ghost use Rattle.deck.specs.Decks.{cards, count, numbered, is_cut, cut, first_telling, second_telling, first_at, second_at, second_sweep, defined_by, seen_by, acted_by, fields_in, rules, empty_table, table_of, deck_of, ReadAs, numbers_of};
ghost use Rattle.deck.specs.Defined.{defined_of, nothing, before_of, none_before};
ghost use Rattle.fields.specs.Fields.{fields_of};
ghost use Rattle.deck.specs.Laws.{ReadKeeps};
ghost use Rattle.deck.specs.Steps.{RefusedBy, Takes, AllTakenIn, LooksUp, AllLookedUp, Filled};

use crate::acting::Lookup;
use crate::actions::Actions;
use crate::deck::Deck;
use crate::definitions::Definitions;
use crate::kinds::{Breach, Numbers, ReadError};
use crate::seen::Seen;
use cards::tells::{kind_of, punches, rank};
use devices::Card;
use fields::FieldTable;
use meanings::card_of;
use rules::{Refusal, first_of};
use std::alloc::{AllocError, Global};

// The cards of a deck, each by its columns.
fn cards_of(text: &[u8]) -> &[[u8; 80]]
    ensures { result.now ≡ cards text.now }
{
    text.as_chunks().0
}

// The card's number is added to its breach.
fn number(place: u8, breach: Option<rules::Breach>) -> Option<Breach>
    ensures { result ≡ numbered place breach }
{
    breach.map(|(refusal, column)| Breach {
        refusal,
        card: place as usize + 1,
        column,
    })
}

// A deck of no card, of a rest that is no card, or of over 256 cards.
fn tell_size(text: &[u8]) -> Option<Breach>
    ensures { result ≡ cut text.now }
{
    let is_cut = text.is_empty() || text.len() % 80 != 0 || text.len() > 20480;
    is_cut.then_some(Breach {
        refusal: Refusal::CutDeck,
        card: 0,
        column: 0,
    })
}

// A deck that tells a breach is refused.
fn refuse(told: Option<Breach>) -> Result<(), ReadError>
    ensures { RefusedBy told result }
{
    match told {
        Some(breach) => Err(ReadError::Refused(breach)),
        None => Ok(()),
    }
}

impl Definitions {
    // The first telling of a card. Definitions and what was seen are no one struct: the first stay in the deck's table,
    // whose lists the next deck uses again, and the others go with the sweep.
    fn tell(&self, seen: &Seen, card: &Card) -> Option<rules::Breach>
        ensures { result ≡ first_telling (defined_of self.now) (before_of seen.now) card.now.columns }
    {
        let read = card_of(card);
        first_of(&[
            punches(seen.highest, card),
            self.tell_full(seen, &read),
            self.tell_doubles(seen, &read),
        ])
    }

    // A card at a place is taken in, unless it tells something.
    fn take_in(&mut self, seen: &mut Seen, place: u8, card: &Card) -> Result<(), ReadError>
        ensures { Takes (defined_of self.old) (before_of seen.old) place card.now.columns result (defined_of self.new) (before_of seen.new) }
    {
        refuse(number(place, self.tell(seen, card)))?;
        let read = card_of(card);
        self.define(&read)?;
        seen.see(rank(kind_of(card), card), &read)?;
        Ok(())
    }

    // The first sweep over the cards.
    fn take_in_all(&mut self, heap: Global, text: &[u8]) -> Result<(), ReadError>
        requires empty { defined_of self.old ≡ nothing }
        requires whole { is_cut text.now ≡ false }
        ensures { AllTakenIn text.now result (defined_of self.new) }
    {
        let mut seen = Seen::new(heap);
        let cards = cards_of(text);
        for (k, columns) in cards.iter().enumerate() {
            self.take_in(&mut seen, k as u8, &Card { columns: *columns })?;
        }
        Ok(())
    }
}

impl Actions {
    // The names of a card are looked up, unless it tells something.
    fn look_up(&mut self, lookup: &Lookup, card: &Card) -> Result<(), ReadError>
        ensures { LooksUp (fields_of lookup.now.fields.now) (acted_of self.old) lookup.now.place card.now.columns result (acted_of self.new) }
    {
        let read = card_of(card);
        refuse(number(lookup.place, uses::tell(lookup.fields, &read)))?;
        self.act(lookup, &read)?;
        Ok(())
    }

    // The second sweep over the cards. One loop for both would take a closure, of whose
    // writes its clause could say nothing.
    fn look_up_all(&mut self, fields: &FieldTable, text: &[u8]) -> Result<(), ReadError>
        requires fields { fields_of fields.now ≡ fields_in text.now }
        requires empty { acted_of self.old ≡ no_actions }
        requires whole { is_cut text.now ≡ false }
        ensures { AllLookedUp text.now result (acted_of self.new) }
    {
        let cards = cards_of(text);
        for (k, columns) in cards.iter().enumerate() {
            let lookup = Lookup {
                fields,
                place: k as u8,
            };
            self.look_up(&lookup, &Card { columns: *columns })?;
        }
        Ok(())
    }
}

impl ReadError {
    // The refusal in numbers; want of memory has none.
    pub fn numbers(&self) -> Option<Numbers>
        ensures { result ≡ numbers_of self.now }
    {
        match *self {
            ReadError::Refused(b) => Some(Numbers {
                number: b.refusal.number(),
                card: b.card,
                column: b.column,
            }),
            ReadError::NoMemory => None,
        }
    }
}

impl Deck {
    // An empty table.
    pub fn new(heap: Global) -> Deck
        ensures { table_of result ≡ empty_table }
    {
        Deck {
            text: Vec::new(heap),
            definitions: Definitions::new(heap),
            actions: Actions::new(heap),
        }
    }

    // Empties the table.
    fn clear(&mut self)
        ensures { table_of self.new ≡ empty_table }
    {
        self.text.clear();
        self.definitions.clear();
        self.actions.clear();
    }

    // Fills an empty table, unless the deck tells something.
    fn fill(&mut self, heap: Global, text: &[u8]) -> Result<(), ReadError>
        requires { table_of self.old ≡ empty_table }
        ensures answer { Filled text.now result (table_of self.new) }
        ensures keeps { ReadKeeps text.now result }
    {
        refuse(tell_size(text))?;
        self.definitions.take_in_all(heap, text)?;
        self.actions.look_up_all(&self.definitions.fields, text)?;
        self.text.extend_from_slice(text)?;
        Ok(())
    }

    // Reads a deck. The table then holds it or, where it is refused or memory is wanting, nothing.
    pub fn read(&mut self, heap: Global, text: &[u8]) -> Result<(), ReadError>
        ensures answer { ReadAs text.now result (table_of self.new) }
        ensures keeps { ReadKeeps text.now result }
    {
        self.clear();
        let answer = self.fill(heap, text);
        if answer.is_err() {
            self.clear();
        }
        answer
    }
}
