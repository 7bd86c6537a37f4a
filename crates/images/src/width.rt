// The widths of images.
ghost use Rattle.std.specs.Prelude.{◌≡◌, ◌≤◌, ◌<◌};
ghost use Rattle.images.specs.Limits.{image_columns};
ghost use Rattle.images.specs.Images.{edited_width, image_width, text_width};

use crate::edits::{EditCode, EditStyle, SignStyle};
use numbers::Picture;

// The width of the images of a picture by an edit code, or without one.
pub fn image_width(picture: Picture, code: Option<EditCode>) -> u8
    ensures { result ≡ image_width code picture.digits picture.decimals }
{
    code.map_or(picture.digits, |code| edited_width(picture, code.style()))
}

// The width of an edited image.
pub(crate) fn edited_width(picture: Picture, style: EditStyle) -> u8
    ensures value { result ≡ edited_width style picture.digits picture.decimals }
    ensures fits { result ≤ image_columns }
{
    let sign = match style.sign {
        SignStyle::Omitted => 0,
        SignStyle::Minus => 1,
    };
    text_width(picture, style.commas) + sign
}

// The width of the digits with their marks.
pub(crate) fn text_width(picture: Picture, commas: bool) -> u8
    ensures value { result ≡ text_width commas picture.digits picture.decimals }
    ensures fits { result < image_columns }
{
    let whole = picture.digits - picture.decimals;
    let point = u8::from(picture.decimals > 0);
    let commas = if commas {
        whole.saturating_sub(1) / 3
    } else {
        0
    };
    picture.digits + point + commas
}
