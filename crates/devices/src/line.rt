ghost use Rattle.std.specs.Prelude.{◌≡◌, ◌≤◌, true, length};
ghost use Rattle.characters.specs.Printable.{printable};

// A printed line: the number of the output record card that made it, the spacing that follows it, and its 132
// characters. The ghost fields keep every line within these bounds.
#[derive(Clone, Copy, PartialEq, Eq, Debug)]
pub struct Line {
    pub number: u16,
    pub spacing: u8,
    pub text: [u8; 132],
    ghost first: { 1 ≤ number },
    ghost last: { number ≤ 256 },
    ghost near: { 1 ≤ spacing },
    ghost far: { spacing ≤ 3 },
    ghost wide: { length text ≡ 132 },
    ghost shown: { printable text ≡ true },
}
