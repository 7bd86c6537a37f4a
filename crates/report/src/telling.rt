// What is told to a person: of a refused deck the card, a mark under the column, and the rule that is broken; of a line
// that cannot be a card, or a byte that cannot be printed, where it stands.
use cards::kinds::{Kind, What};
use cards::layouts::layout;
use cards::tells::kind_of;
use columns::filling::blank_filled;
use deck::kinds::Breach;
use devices::Card;
use hoppers::LongLine;
use listing::listing::BadColumn;
use rules::Refusal;
use shown::BytesText;
use std::io;

// The bytes of a card, as far as they are there.
fn card_text(text: &[u8], number: usize) -> &[u8] {
    text.chunks(80).nth(number.saturating_sub(1)).unwrap_or(&[])
}

// Says on standard error what a person needs to mend a deck.
pub(crate) fn tell(rt: &HostRuntime, text: &[u8], breach: &Breach) -> io::Result<()> {
    let bytes = card_text(text, breach.card);
    let columns = blank_filled(bytes);
    let kind = kind_of(&Card { columns });
    let sentence = sentence(breach.refusal, kind, breach.column);
    if breach.card == 0 {
        return eprintln!(rt; "report: the deck is refused: {sentence}");
    }
    tell_card(rt, breach, sentence)?;
    rt.eprintln(BytesText(bytes))?;
    mark(rt, breach.column)
}

fn tell_card(rt: &HostRuntime, breach: &Breach, sentence: &str) -> io::Result<()> {
    let card = breach.card;
    let column = breach.column;
    eprintln!(rt; "report: deck card {card}, column {column}: {sentence}")
}

// A mark under a column; none under column 0, which stands for the whole card.
fn mark(rt: &HostRuntime, column: u8) -> io::Result<()> {
    if column == 0 {
        return Ok(());
    }
    let width = column as usize;
    eprintln!(rt; "{:>width$}", "^")
}

// Says that a text line, which `of` tells more of, is longer than a card.
pub(crate) fn tell_line(rt: &HostRuntime, of: &str, long: LongLine) -> io::Result<()> {
    let line = long.line;
    let length = long.length;
    eprintln!(rt; "report: line {line}{of} has {length} bytes, but a card holds 80")
}

// Says that a column of a data card holds no character.
pub(crate) fn tell_byte(rt: &HostRuntime, card: usize, bad: BadColumn) -> io::Result<()> {
    let column = bad.column;
    let byte = bad.byte;
    eprintln!(rt;
        "report: card {card}, column {column}: byte {byte} cannot be printed (32 to 126 can)"
    )
}

// A sentence goes by the refusal, the kind of card and the column: no one type could be its `Display`.
fn sentence(refusal: Refusal, kind: Kind, column: u8) -> &'static str {
    match refusal {
        Refusal::CutDeck => "a deck is 1 to 256 whole cards of 80 columns",
        Refusal::Order => {
            "input cards come first, then detail and total calculations, then output cards; a field card follows its record card"
        }
        Refusal::Punch => punch(kind, column),
        Refusal::Unknown => "no card of the deck defines this name",
        Refusal::Double => double(column),
        Refusal::Kind => wrong_kind(column),
        Refusal::TableFull => "a deck has at most 64 fields and 16 record types",
    }
}

fn double(column: u8) -> &'static str {
    match column {
        19 => "another record type has this record indicator",
        59 => "the level stands twice in its record type, or its fields differ in length or kind",
        _ => "the field is defined unlike before, or its name stands twice in its record type",
    }
}

fn wrong_kind(column: u8) -> &'static str {
    match column {
        18 => "factor 1 has to be a number",
        28 =>
            "the decimals of result and factor 2 together are at most 9 more than those of factor 1",
        33 =>
            "factor 2 is of the wrong kind: arithmetic takes numbers, MOVE text, COMP two of one kind",
        38 => "only a numeric field has an edit code",
        40 => "what is printed would begin left of column 1 of the line",
        _ => "the result is of the wrong kind: arithmetic takes a number, MOVE text",
    }
}

// The rule of the entry that a column belongs to.
fn punch(kind: Kind, column: u8) -> &'static str {
    layout(kind)
        .iter()
        .find(|rule| (rule.from..=rule.to).contains(&column))
        .map_or(
            "this column may not be punched so",
            |rule| may_hold(rule.what),
        )
}

// What may stand in an entry. No `Display`: the words are this program's, and `What` belongs to `cards`.
fn may_hold(what: What) -> &'static str {
    match what {
        What::Free => "a free column holds a character, byte 32 to 126",
        What::Blank => "this column has to be blank",
        What::Form => "the form letter is I, C or O",
        What::RecordIndicator => "a record indicator is 01 to 99",
        What::Code => "a code is blank, or a position 1 to 80, N or blank, C, and a character",
        What::From => "the first position of a field is a number 1 to 80",
        What::To =>
            "the last position is a number up to 80, not before the first; a number has at most 9 digits, text 32 bytes",
        What::FieldDecimals | What::ResultDecimals =>
            "decimals are blank, or a digit not above the number of digits",
        What::Name => "a name is a letter and up to five letters or digits, set left",
        What::ControlLevel => "a control level is blank or L1 to L9",
        What::SignIndicator => "plus and minus are told of numbers only, by 01 to 99",
        What::Settable => "an indicator that is set here is 01 to 99",
        What::TotalLevel => "columns 7 and 8 are blank, L0 to L9 or LR",
        What::Condition => "a condition is N or blank, then 01 to 99, L0 to L9, LR or 1P",
        What::Factor1 => "factor 1 is a name where the operation takes one, else blank",
        What::Operation =>
            "the operation is ADD, SUB, MULT, DIV, Z-ADD, Z-SUB, COMP, MOVE, SETON or SETOF",
        What::Factor2 =>
            "factor 2 is a name or a literal where the operation takes one, else blank",
        What::Result => "the result is a name where the operation takes one, else blank",
        What::Length =>
            "a length defines a result: 1 to 9 digits with decimals, 1 to 32 bytes without",
        What::HalfAdjust => "column 53 is blank, or H with arithmetic",
        What::Told => "a resulting indicator is blank or 01 to 99, and MOVE has none",
        What::Sets => "SETON and SETOF name at least one indicator",
        What::LineKind => "column 15 is H, D or T",
        What::Spacing => "spacing is blank or 1 to 3",
        What::OptionalName =>
            "a name is a letter and up to five letters or digits, set left, or blank for a constant",
        What::Edit => "an edit code is blank, 1 to 4 or J to M",
        What::BlankAfter => "column 39 is blank, or B beside a name",
        What::End => "an end position is a number 1 to 132",
        What::Constant =>
            "a constant of 1 to 24 bytes between apostrophes stands where no name does, and only there",
    }
}
