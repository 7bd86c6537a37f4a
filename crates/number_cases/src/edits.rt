// Edit codes, the images of each, and laying one into a line.
use crate::row::Cell;
use images::{EditCode, EditStyle, Image, LINE_COLUMNS, LayError, SignStyle, image_width};
use numbers::{Amount, Picture};
use shown::{BytesText, Row};
use std::io;

const CODES: [EditCode; 8] = [
    EditCode::One,
    EditCode::Two,
    EditCode::Three,
    EditCode::Four,
    EditCode::J,
    EditCode::K,
    EditCode::L,
    EditCode::M,
];

// Every byte that is an edit code, with what the code asks for.
pub fn codes(rt: &HostRuntime) -> io::Result<()> {
    for byte in 0u8..=255 {
        if let Some(code) = EditCode::from_byte(byte) {
            asks(rt, byte, code.style())?;
        }
    }
    Ok(())
}

fn asks(rt: &HostRuntime, byte: u8, style: EditStyle) -> io::Result<()> {
    rt.println(Row::<_, b' '>(&[
        Cell::Word("code"),
        Cell::Number(i64::from(byte)),
        Cell::Number(i64::from(style.commas)),
        Cell::Number(i64::from(style.blank_zero)),
        Cell::Number(i64::from(style.sign == SignStyle::Minus)),
    ]))
}

// Images of every number of digits with none, some and all of them decimals.
pub fn images(rt: &HostRuntime) -> io::Result<()> {
    for digits in 1u8..10 {
        for decimals in [0, digits / 2, digits] {
            // By `new`, though each is a picture: a literal would ask for a proof of it.
            if let Some(picture) = Picture::new(digits, decimals) {
                widths(rt, picture)?;
                values(rt, picture)?;
            }
        }
    }
    Ok(())
}

fn widths(rt: &HostRuntime, picture: Picture) -> io::Result<()> {
    rt.print(Row::<_, b' '>(&[
        Cell::Word("width"),
        Cell::Number(i64::from(picture.digits)),
        Cell::Number(i64::from(picture.decimals)),
        Cell::Number(i64::from(image_width(picture, None))),
    ]))?;
    for code in CODES {
        let width = image_width(picture, Some(code));
        print!(rt; " {width}")?;
    }
    rt.println("")
}

// Zero, one, the widest count and a seventh of it, with both signs.
fn values(rt: &HostRuntime, picture: Picture) -> io::Result<()> {
    let widest = 10i64.pow(u32::from(picture.digits)) - 1;
    for count in [0, 1, -1, widest, -widest, widest / 7, -(widest / 7)] {
        // By `new`, for the same reason.
        if let Some(amount) = Amount::new(count, picture) {
            each(rt, amount)?;
        }
    }
    Ok(())
}

fn each(rt: &HostRuntime, amount: Amount) -> io::Result<()> {
    rt.print(Row::<_, b' '>(&[
        Cell::Word("image"),
        Cell::Number(i64::from(amount.picture.digits)),
        Cell::Number(i64::from(amount.picture.decimals)),
        Cell::Number(amount.count),
        Cell::Word("|"),
    ]))?;
    barred(rt, Image::unedited(amount))?;
    for code in CODES {
        barred(rt, Image::of(amount, Some(code)))?;
    }
    rt.println("")
}

// An image and a bar behind it.
fn barred(rt: &HostRuntime, image: Image) -> io::Result<()> {
    let text = BytesText(image.bytes());
    print!(rt; "{text}|")
}

// An image laid up to columns in and out of a line.
pub fn lines(rt: &HostRuntime) -> io::Result<()> {
    let amount = Amount {
        count: -123450,
        picture: Picture {
            digits: 7,
            decimals: 2,
        },
    };
    for end in [0, 1, 9, 10, 11, 131, 132, 133, 255] {
        line(rt, Image::edited(amount, EditCode::K), end)?;
    }
    Ok(())
}

fn line(rt: &HostRuntime, image: Image, end: u8) -> io::Result<()> {
    let mut line = [b'.'; LINE_COLUMNS];
    let laid = match image.lay(&mut line, end) {
        Ok(()) => "laid",
        Err(LayError::End) => "end",
        Err(LayError::Start) => "start",
    };
    rt.println(Row::<_, b' '>(&[
        Cell::Word("lay"),
        Cell::Number(i64::from(end)),
        Cell::Word(laid),
        Cell::Text(&line),
    ]))
}
