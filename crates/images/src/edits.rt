// Edit codes, and what each asks of an image.
ghost use Rattle.std.specs.Prelude.{◌≡◌, [], ◌∷◌, Some};
ghost use Rattle.images.specs.Edits.{byte_of, code_of, style_of};

use std::fmt;

#[derive(Clone, Copy, PartialEq, Eq, Debug)]
pub enum EditCode {
    One,
    Two,
    Three,
    Four,
    J,
    K,
    L,
    M,
}

// What stands behind the digits of an edited number.
#[derive(Clone, Copy, PartialEq, Eq, Debug)]
pub enum SignStyle {
    // Nothing: a minus is dropped.
    Omitted,
    // One more column, a minus or a blank.
    Minus,
}

// What an edit code asks for.
#[derive(Clone, Copy, PartialEq, Eq, Debug)]
pub struct EditStyle {
    // Commas between thousands.
    pub commas: bool,
    // Zero is printed as blanks.
    pub blank_zero: bool,
    pub sign: SignStyle,
}

impl EditCode {
    // The edit code that a character stands for. It stays an Option: any other byte is refused for one and the same
    // reason, so the error of a TryFrom would say nothing.
    pub fn from_byte(byte: u8) -> Option<EditCode>
        ensures { result ≡ code_of byte }
    {
        match byte {
            b'1' => Some(EditCode::One),
            b'2' => Some(EditCode::Two),
            b'3' => Some(EditCode::Three),
            b'4' => Some(EditCode::Four),
            b'J' => Some(EditCode::J),
            b'K' => Some(EditCode::K),
            b'L' => Some(EditCode::L),
            b'M' => Some(EditCode::M),
            _ => None,
        }
    }

    // J to M are 1 to 4 with a sign.
    pub fn style(self) -> EditStyle
        ensures { result ≡ style_of self }
    {
        let (commas, blank_zero, sign) = match self {
            EditCode::One => (true, false, SignStyle::Omitted),
            EditCode::Two => (true, true, SignStyle::Omitted),
            EditCode::Three => (false, false, SignStyle::Omitted),
            EditCode::Four => (false, true, SignStyle::Omitted),
            EditCode::J => (true, false, SignStyle::Minus),
            EditCode::K => (true, true, SignStyle::Minus),
            EditCode::L => (false, false, SignStyle::Minus),
            EditCode::M => (false, true, SignStyle::Minus),
        };
        EditStyle {
            commas,
            blank_zero,
            sign,
        }
    }
}

// The character that stands for the code.
impl fmt::Display for EditCode {
    ghost output = { λ c. Some (byte_of c ∷ []) };

    fn fmt<W: fmt::Write>(&self, f: &mut fmt::Formatter<W>) -> fmt::Result {
        f.pad(match self {
            EditCode::One => "1",
            EditCode::Two => "2",
            EditCode::Three => "3",
            EditCode::Four => "4",
            EditCode::J => "J",
            EditCode::K => "K",
            EditCode::L => "L",
            EditCode::M => "M",
        })
    }
}
