// Images: the columns that amounts print as.
//
// An amount prints unedited, as its digits with a minus overpunched on the last of them, or by an edit code, which
// says whether commas part the thousands, whether a zero is blanked and whether a column is kept for a minus. This
// crate makes such images and lays them into the 132 columns of a line.
//
// It promises, for all inputs:
// - the image of an amount, unedited or by an edit code, is the one that the rules give, it has the width that its
//   picture and code say, and where it tells the sign it determines the amount;
// - an unedited image reads back as its amount;
// - an image is laid into the columns that end where it is told to end, and no other column of the line changes.
//
// Nothing here allocates, and no call asks anything of its caller: what it cannot do is an answer of its own. The
// crate knows nothing of decks, fields, runs or printers.
#![tactic(auto)]

pub mod edits;
pub mod image;
pub mod laws;
pub mod laying;
mod making;
mod width;
mod writing;

pub use edits::{EditCode, EditStyle, SignStyle};
pub use image::{IMAGE_COLUMNS, Image};
pub use laying::{LINE_COLUMNS, LayError};
pub use width::image_width;
