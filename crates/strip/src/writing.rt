// Writing a line on a strip.
ghost use Rattle.std.specs.Prelude.{◌≡◌, ◌+◌, ◌<◌, ◌≤◌, length, vec_len, vec_capacity};
ghost use Rattle.devices.specs.Meant.{meant};
ghost use Rattle.strip.specs.Strips.{numeral, trimmed, rendered};
ghost use Rattle.strip.specs.StripSteps.{Adds};

use devices::Line;
use itoa::Buffer;

// Adds bytes for which there is room.
fn add(held: &mut Vec<u8>, bytes: &[u8])
    requires { vec_len held.old + length bytes.now ≤ vec_capacity held.old }
    ensures { Adds held.old bytes.now held.new }
{
    let _ = held.extend_from_slice(bytes);
}

// Adds a number, without zeros before it.
#[tactic(auto, using(crate::proofs::Numerals::decimal_is))]
fn add_number(held: &mut Vec<u8>, n: u16)
    requires small { n < 1000 }
    requires room { vec_len held.old + length (numeral n) ≤ vec_capacity held.old }
    ensures { Adds held.old (numeral n) held.new }
{
    let mut buffer = Buffer::new();
    add(held, buffer.format(n).as_bytes());
}

// Text without its trailing blanks.
fn trimmed(text: &[u8]) -> &[u8]
    ensures short { length result.now ≤ length text.now }
    ensures value { result.now ≡ trimmed text.now }
{
    let blanks = text.iter().rev().take_while(|b| **b == b' ').count();
    &text[..text.len() - blanks]
}

// Adds a line, where there is room for the longest.
pub(super) fn add_line(held: &mut Vec<u8>, line: &Line)
    requires { vec_len held.old + 139 ≤ vec_capacity held.old }
    ensures { Adds held.old (rendered (meant line.now)) held.new }
{
    add_number(held, line.number);
    add(held, b",");
    add_number(held, line.spacing as u16);
    add(held, b",");
    add(held, trimmed(&line.text));
    add(held, b"\n");
}
