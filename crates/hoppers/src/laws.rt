// The byte that ends a text line, with what it is good for.
ghost use Rattle.std.specs.Prelude.{◌≡◌};
ghost use Rattle.hoppers.specs.TextLines.{LinesRead};

// The byte that ends a text line. Lines that are written with it, the last with or without, are read as they are.
pub fn line_end() -> u8
    ensures value { result ≡ 10 }
    ensures reads { LinesRead }
{
    b'\n'
}
