// An image: the columns that an amount prints as.
ghost use Rattle.std.specs.Prelude.{◌≡◌, ◌≤◌, true, length, take};
ghost use Rattle.characters.specs.Printable.{printable};
ghost use Rattle.images.specs.Limits.{image_columns};

// The columns that are kept for an image.
pub const IMAGE_COLUMNS: usize = 16;

// The first `width` of the bytes are the image. It is an array with a count beside it, since an image is Copy and takes
// no memory.
#[derive(Clone, Copy, Debug)]
pub struct Image {
    pub(crate) bytes: [u8; IMAGE_COLUMNS],
    pub(crate) width: u8,
    ghost long: { length bytes ≡ image_columns },
    ghost fits: { width ≤ image_columns },
    ghost printed: { printable (take width bytes) ≡ true },
}
