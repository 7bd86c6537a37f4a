// The characters that a card or a line may hold: bytes 32 to 126.
//
// Every higher layer asks the same question of its columns, so it is answered once here. This crate knows
// nothing of cards, lines or fields.
#![tactic(auto)]

ghost use Rattle.std.specs.Prelude.{◌≡◌};
ghost use Rattle.characters.specs.Printable.{prints, first_unprintable};

// Whether a byte is one of the 95 characters.
pub fn is_printable(byte: u8) -> bool
    ensures { result ≡ prints byte }
{
    (32..=126).contains(&byte)
}

// The place, counted from 0, of the first byte that is no character.
pub fn first_unprintable(bytes: &[u8]) -> Option<usize>
    ensures { result ≡ first_unprintable bytes.now }
{
    bytes.iter().position(|b| !is_printable(*b))
}
