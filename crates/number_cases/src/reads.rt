// Making pictures and amounts, and reading amounts from columns.
use crate::answers::answer;
use crate::cases::FIELDS;
use crate::row::Cell;
use numbers::{Amount, Picture};
use shown::Row;
use std::io;

// Every picture, with those of three counts that it holds.
pub fn pictures(rt: &HostRuntime) -> io::Result<()> {
    for digits in 0u8..12 {
        for decimals in 0u8..12 {
            if let Some(picture) = Picture::new(digits, decimals) {
                counts(rt, picture)?;
            }
        }
    }
    Ok(())
}

// The widest count of a picture, and the two next to it that are too wide.
fn counts(rt: &HostRuntime, picture: Picture) -> io::Result<()> {
    rt.print(Row::<_, b' '>(&[
        Cell::Word("picture"),
        Cell::Number(i64::from(picture.digits)),
        Cell::Number(i64::from(picture.decimals)),
    ]))?;
    let limit = 10i64.pow(u32::from(picture.digits));
    for count in [limit - 1, limit, -limit] {
        if let Some(amount) = Amount::new(count, picture) {
            let kept = amount.count;
            print!(rt; " {kept}")?;
        }
    }
    rt.println("")
}

// Every byte in a last and in another column.
pub fn all_bytes(rt: &HostRuntime) -> io::Result<()> {
    let picture = Picture {
        digits: 3,
        decimals: 0,
    };
    for byte in 0u8..=255 {
        in_both(rt, byte, picture)?;
    }
    Ok(())
}

fn in_both(rt: &HostRuntime, byte: u8, picture: Picture) -> io::Result<()> {
    let n = Cell::Number(i64::from(byte));
    let last = answer(Amount::read(&[b'1', b'2', byte], 70, picture));
    rt.println(Row::<_, b' '>(&[Cell::Word("last"), n, last]))?;
    let front = answer(Amount::read(&[b'1', byte, b'3'], 255, picture));
    rt.println(Row::<_, b' '>(&[Cell::Word("front"), n, front]))
}

// Fields of several widths.
pub fn fields(rt: &HostRuntime) -> io::Result<()> {
    for (i, field) in FIELDS.iter().enumerate() {
        rt.println(Row::<_, b' '>(&[
            Cell::Word("read"),
            Cell::Place(i),
            answer(Amount::read(field.columns, 4, field.picture)),
        ]))?;
    }
    Ok(())
}
