// Reading the lines on a strip.
ghost use Rattle.std.specs.Prelude.{◌≡◌, ◌≤◌, true, length};
ghost use Rattle.devices.specs.Meant.{meant};
ghost use Rattle.strip.specs.GoodLines.{good, all_good};
ghost use Rattle.strip.specs.StripReading.{digit_count, digit_at, read_number, past_number, padded, read_line, lines_in};
ghost use Rattle.strip.specs.StripSteps.{Next};
ghost use Rattle.strip.specs.Strips.{strips};

use columns::classes::{after, at};
use columns::filling::blank_filled;
use devices::Line;
use hoppers::line_length;

// The oldest line on a strip, and how many bytes it takes with its end.
#[derive(Clone, Copy)]
pub(super) struct Oldest {
    pub(super) line: Line,
    pub(super) length: usize,
}

fn digit_at(bytes: &[u8], i: usize) -> u8
    ensures { result ≡ digit_at bytes.now i }
{
    at(bytes, i).saturating_sub(b'0')
}

// How many digits stand before the first comma.
fn digit_count(bytes: &[u8]) -> usize
    ensures { result ≡ digit_count bytes.now }
{
    if at(bytes, 1) == b',' {
        1
    } else if at(bytes, 2) == b',' {
        2
    } else {
        3
    }
}

// The number before the first comma. Any bytes are read, where the library's `parse` asks for text and for digits.
fn read_number(bytes: &[u8]) -> u16
    ensures { result ≡ read_number bytes.now }
{
    let a = digit_at(bytes, 0) as u16;
    let b = digit_at(bytes, 1) as u16;
    let c = digit_at(bytes, 2) as u16;
    match digit_count(bytes) {
        1 => a,
        2 => a * 10 + b,
        _ => a * 100 + b * 10 + c,
    }
}

// What stands behind the first number and its comma: nothing, where the bytes end before.
fn past_number(bytes: &[u8]) -> &[u8]
    ensures { result.now ≡ past_number bytes.now }
{
    after(bytes, digit_count(bytes) + 1)
}

// Text with its trailing blanks again.
fn padded_text(bytes: &[u8]) -> [u8; 132]
    requires { length bytes.now ≤ 132 }
    ensures { result ≡ padded bytes.now }
{
    blank_filled(bytes)
}

fn read_line(bytes: &[u8]) -> Line
    requires { good (read_line bytes.now) ≡ true }
    ensures { meant result ≡ read_line bytes.now }
{
    let number = read_number(bytes);
    let behind = past_number(bytes);
    let spacing = read_number(behind) as u8;
    let text = padded_text(past_number(behind));
    Line {
        number,
        spacing,
        text,
    }
}

// The oldest of the lines that a strip wrote on the bytes.
pub(super) fn oldest_line(bytes: &[u8]) -> Option<Oldest>
    requires good { all_good (lines_in bytes.now) ≡ true }
    requires written { strips (lines_in bytes.now) ≡ bytes.now }
    ensures { Next bytes.now result }
{
    if bytes.is_empty() {
        return None;
    }
    let length = line_length(bytes);
    Some(Oldest {
        line: read_line(&bytes[..length]),
        length: length + 1,
    })
}
