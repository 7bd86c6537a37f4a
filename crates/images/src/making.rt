// Making the image of an amount.
ghost use Rattle.std.specs.Prelude.{◌≡◌, Some, None};
ghost use Rattle.images.specs.Images.{image_of, image_width};
ghost use Rattle.images.specs.Lines.{image_bytes};

use crate::edits::EditCode;
use crate::image::Image;
use crate::writing::Draft;
use numbers::Amount;

impl Image {
    // The image of an amount by an edit code, or without one.
    pub fn of(amount: Amount, code: Option<EditCode>) -> Image
        ensures bytes { image_bytes result ≡ image_of code amount.picture.digits amount.picture.decimals amount.count }
        ensures width { result.width ≡ image_width code amount.picture.digits amount.picture.decimals }
    {
        match code {
            None => Image::unedited(amount),
            Some(code) => Image::edited(amount, code),
        }
    }

    // All digits, the last of them overpunched if the amount is negative.
    pub fn unedited(amount: Amount) -> Image
        ensures bytes { image_bytes result ≡ image_of None amount.picture.digits amount.picture.decimals amount.count }
        ensures width { result.width ≡ image_width None amount.picture.digits amount.picture.decimals }
    {
        Draft::unedited(amount).image()
    }

    // The image by an edit code.
    pub fn edited(amount: Amount, code: EditCode) -> Image
        ensures bytes { image_bytes result ≡ image_of (Some code) amount.picture.digits amount.picture.decimals amount.count }
        ensures width { result.width ≡ image_width (Some code) amount.picture.digits amount.picture.decimals }
    {
        Draft::edited(amount, code.style()).image()
    }
}
