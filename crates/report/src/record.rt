// A short record of what an accepted deck holds.
use cards::kinds::Shape;
use deck::deck::Deck;
use deck::definitions::Definitions;
use fields::{Definition, FieldTable};
use shown::{Cell, Row};
use std::io;

// Prints the cards by kind, the record types and the fields of a deck.
pub(crate) fn show(rt: &HostRuntime, deck: &Deck) -> io::Result<()> {
    show_cards(rt, deck)?;
    show_types(rt, &deck.definitions)?;
    show_fields(rt, &deck.definitions.fields)
}

// All cards, and how many of them are input records, input fields, detail and total calculations, output records and
// output fields; the others are comments.
fn show_cards(rt: &HostRuntime, deck: &Deck) -> io::Result<()> {
    rt.println(Row::<_, b','>(&[
        Cell::Word("cards"),
        Cell::Count(deck.text.len() / 80),
        Cell::Count(deck.definitions.types.len()),
        Cell::Count(deck.definitions.inputs.len()),
        Cell::Count(deck.actions.calculations.detail.len()),
        Cell::Count(deck.actions.calculations.total.len()),
        Cell::Count(deck.actions.records.len()),
        Cell::Count(deck.actions.outputs.len()),
    ]))
}

// Each record type, by its indicator, with its number of fields.
fn show_types(rt: &HostRuntime, d: &Definitions) -> io::Result<()> {
    for (i, t) in d.types.iter().enumerate() {
        rt.println(Row::<_, b','>(&[
            Cell::Word("type"),
            Cell::Indicator(Some(t.indicator)),
            Cell::Count(d.inputs_of(i).len()),
        ]))?;
    }
    Ok(())
}

// Each field with its digits and decimals, or its length.
fn show_fields(rt: &HostRuntime, fields: &FieldTable) -> io::Result<()> {
    for field in &fields.definitions {
        show_field(rt, field)?;
    }
    Ok(())
}

fn show_field(rt: &HostRuntime, field: &Definition) -> io::Result<()> {
    let word = Cell::Word("field");
    let name = Cell::Name(field.name);
    match field.shape {
        Shape::Number { digits, decimals } => rt.println(Row::<_, b','>(&[
            word,
            name,
            Cell::Count(digits as usize),
            Cell::Count(decimals as usize),
        ])),
        Shape::Text { length } => rt.println(Row::<_, b','>(&[
            word,
            name,
            Cell::Count(length as usize),
        ])),
    }
}
