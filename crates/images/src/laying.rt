// Laying an image into the columns of a line.
ghost use Rattle.std.specs.Prelude.{◌≡◌};
ghost use Rattle.images.specs.Lines.{image_bytes, lay_answer, laid};

use crate::image::Image;

// The columns of a line.
pub const LINE_COLUMNS: usize = 132;

// Why an image is not laid into a line.
#[derive(Clone, Copy, PartialEq, Eq, Debug)]
pub enum LayError {
    // The end is no column of a line.
    End,
    // The image would start left of column 1.
    Start,
}

impl Image {
    // How many columns the image takes.
    pub fn width(&self) -> u8
        ensures { result ≡ self.now.width }
    {
        self.width
    }

    // The columns of the image.
    pub fn bytes(&self) -> &[u8]
        ensures { result.now ≡ image_bytes self.now }
    {
        &self.bytes[..self.width as usize]
    }

    // Lays the image into the columns of a line up to column `end`. Every other column stays as it was, and a
    // line into which the image does not go stays as it was altogether.
    pub fn lay(&self, line: &mut [u8; LINE_COLUMNS], end: u8) -> Result<(), LayError>
        ensures answer { result ≡ lay_answer end self.now.width }
        ensures line { line.new ≡ laid line.old end (image_bytes self.now) }
    {
        let last = end as usize;
        if !(1..=LINE_COLUMNS).contains(&last) {
            return Err(LayError::End);
        }
        let width = self.width as usize;
        if last < width {
            return Err(LayError::Start);
        }
        line[last - width..last].copy_from_slice(self.bytes());
        Ok(())
    }
}
