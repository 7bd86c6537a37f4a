// What all do with text that read it line by line.
ghost use Rattle.std.specs.Prelude.{◌≡◌, ◌+◌, ◌≤◌, ◌∷◌, length, take, drop};
ghost use Rattle.hoppers.specs.TextLines.{lines_of};
ghost use Rattle.hoppers.specs.TextSteps.{FirstLineIs};

use columns::classes::after;

// The length of the first line, without the byte that ends it.
pub fn line_length(text: &[u8]) -> usize
    ensures within { result ≤ length text.now }
    ensures lines { 1 ≤ length text.now → lines_of text.now ≡ take result text.now ∷ lines_of (drop (result + 1) text.now) }
{
    text.iter()
        .position(|byte| *byte == b'\n')
        .unwrap_or(text.len())
}

// The first line of a text, and what stands behind its end.
#[derive(Clone, Copy)]
pub(crate) struct FirstLine<'a> {
    pub(crate) line: &'a [u8],
    pub(crate) rest: &'a [u8],
}

// The first line of a text, if there is one.
pub(crate) fn first_line(text: &[u8]) -> Option<FirstLine<'_>>
    ensures { FirstLineIs text.now result }
{
    if text.is_empty() {
        return None;
    }
    let length = line_length(text);
    // The line's end may be missing.
    Some(FirstLine {
        line: &text[..length],
        rest: after(text, length + 1),
    })
}
