// The entries of output cards.
ghost use Rattle.std.specs.Prelude.{◌≡◌, ◌≤◌};
ghost use Rattle.cards.specs.Punches.{is_line_kind, is_spacing, is_edit, is_blank_after, is_end, is_constant};

use crate::inputs::is_between;
use crate::kinds::LineKind;
use columns::classes::{at, is_blank};
use entries::is_text;
use images::EditCode;

// H, D or T.
pub(crate) fn is_line_kind(s: &[u8]) -> bool
    ensures { result ≡ is_line_kind s.now }
{
    LineKind::from_byte(at(s, 0)).is_some()
}

// 1 to 3, or nothing.
pub(crate) fn is_spacing(s: &[u8]) -> bool
    ensures { result ≡ is_spacing s.now }
{
    is_blank(s) || matches!(at(s, 0), b'1'..=b'3')
}

// An edit code, or nothing.
pub(crate) fn is_edit(s: &[u8]) -> bool
    ensures { result ≡ is_edit s.now }
{
    is_blank(s) || EditCode::from_byte(at(s, 0)).is_some()
}

// B beside a name, or nothing.
pub(crate) fn is_blank_after(name: &[u8], s: &[u8]) -> bool
    ensures { result ≡ is_blank_after name.now s.now }
{
    is_blank(s) || (at(s, 0) == b'B' && !is_blank(name))
}

// An end position on a line, 1 to 132.
pub(crate) fn is_end(s: &[u8]) -> bool
    ensures { result ≡ is_end s.now }
{
    is_between(1, 132, s)
}

// A constant where no name stands.
pub(crate) fn is_constant(name: &[u8], s: &[u8]) -> bool
    ensures { result ≡ is_constant name.now s.now }
{
    if is_blank(name) {
        is_text(s)
    } else {
        is_blank(s)
    }
}
