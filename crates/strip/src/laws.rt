// A number that the format fixes, with what it is good for.
ghost use Rattle.std.specs.Prelude.{◌≡◌};
ghost use Rattle.strip.specs.StripReading.{Longest, StripReads};

// The most bytes that a line takes on a strip. Lines that are written on one are read as they are.
pub fn longest_line() -> usize
    ensures value { result ≡ 139 }
    ensures longest { Longest result }
    ensures reads { StripReads }
{
    super::LONGEST
}
