// What a table holds, line by line.
use deck::actions::Actions;
use deck::deck::Deck;
use deck::definitions::Definitions;
use deck::kinds::{Calculation, Input, Operand, Output, OutputRecord, Part, RecordType, Source};
use fields::FieldTable;
use shown::{Cell, PrintedText, Row};
use std::io;

// Prints what the table of a deck holds.
pub fn show_deck(rt: &HostRuntime, deck: &Deck) -> io::Result<()> {
    rt.println("ok")?;
    show_fields(rt, &deck.definitions.fields)?;
    show_types(rt, &deck.definitions)?;
    let text = deck.text.as_slice();
    show_calculations(rt, text, deck.actions.calculations.detail.as_slice())?;
    show_calculations(rt, text, deck.actions.calculations.total.as_slice())?;
    show_lines(rt, text, &deck.actions)
}

fn show_fields(rt: &HostRuntime, fields: &FieldTable) -> io::Result<()> {
    for field in &fields.definitions {
        rt.println(Row::<_, b','>(&[
            Cell::Word("field"),
            Cell::Name(field.name),
            Cell::Size(field.shape),
        ]))?;
    }
    Ok(())
}

// Each record type, and behind it its inputs.
fn show_types(rt: &HostRuntime, d: &Definitions) -> io::Result<()> {
    for (i, t) in d.types.iter().enumerate() {
        show_type(rt, t)?;
        show_inputs(rt, d.inputs_of(i))?;
    }
    Ok(())
}

fn show_type(rt: &HostRuntime, t: &RecordType) -> io::Result<()> {
    rt.println(Row::<_, b','>(&[
        Cell::Word("type"),
        Cell::Indicator(Some(t.indicator)),
        Cell::Code(t.codes.first),
        Cell::Code(t.codes.second),
        Cell::Code(t.codes.third),
    ]))
}

fn show_inputs(rt: &HostRuntime, inputs: &[Input]) -> io::Result<()> {
    for input in inputs {
        rt.println(Row::<_, b','>(&[
            Cell::Word("input"),
            Cell::Count(input.field),
            Cell::Count(input.from as usize),
            Cell::Indicator(input.level),
            Cell::Indicator(input.told.plus),
            Cell::Indicator(input.told.minus),
            Cell::Indicator(input.told.zero),
        ]))?;
    }
    Ok(())
}

fn show_calculations(
    rt: &HostRuntime,
    text: &[u8],
    calculations: &[Calculation],
) -> io::Result<()> {
    for c in calculations {
        rt.println(Row::<_, b','>(&[
            Cell::Word("calc"),
            Cell::Count(c.card),
            Cell::Indicator(c.level),
            Cell::Condition(c.conditions.first),
            Cell::Condition(c.conditions.second),
            Cell::Condition(c.conditions.third),
            Cell::Operation(c.operation),
            Cell::Place(c.factor1),
            factor(text, c.factor2),
            Cell::Place(c.result),
            Cell::Mark(c.half_adjust.then_some("H")),
            Cell::Indicator(c.told.plus),
            Cell::Indicator(c.told.minus),
            Cell::Indicator(c.told.zero),
        ]))?;
    }
    Ok(())
}

fn factor(text: &[u8], factor: Option<Operand>) -> Cell<'_> {
    match factor {
        None => Cell::Mark(None),
        Some(Operand::Field(i)) => Cell::Count(i),
        Some(Operand::Number(literal)) => Cell::Literal(literal),
        Some(Operand::Text(part)) => quoted(text, part),
    }
}

// A part of the deck's text.
fn quoted(text: &[u8], part: Part) -> Cell<'_> {
    Cell::Quoted(part.of(text))
}

// Each line, and behind it its parts.
fn show_lines(rt: &HostRuntime, text: &[u8], a: &Actions) -> io::Result<()> {
    for (i, r) in a.records.iter().enumerate() {
        show_line(rt, r)?;
        show_outputs(rt, text, a.outputs_of(i))?;
    }
    Ok(())
}

fn show_line(rt: &HostRuntime, r: &OutputRecord) -> io::Result<()> {
    rt.println(Row::<_, b','>(&[
        Cell::Word("line"),
        Cell::Count(r.card),
        Cell::Line(r.kind),
        Cell::Count(r.spacing as usize),
        Cell::Condition(r.conditions.first),
        Cell::Condition(r.conditions.second),
        Cell::Condition(r.conditions.third),
    ]))
}

fn show_outputs(rt: &HostRuntime, text: &[u8], outputs: &[Output]) -> io::Result<()> {
    for o in outputs {
        rt.println(Row::<_, b','>(&[
            Cell::Word("print"),
            Cell::Condition(o.conditions.first),
            Cell::Condition(o.conditions.second),
            Cell::Condition(o.conditions.third),
            source(text, o.source),
            Cell::Count(o.end as usize),
        ]))?;
    }
    Ok(())
}

fn source(text: &[u8], source: Source) -> Cell<'_> {
    match source {
        Source::Field {
            field,
            edit,
            blank_after,
        } => Cell::Printed(PrintedText {
            field,
            edit,
            clears: blank_after.then_some("B"),
        }),
        Source::Constant(part) => quoted(text, part),
    }
}
