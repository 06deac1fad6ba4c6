// Listing: the text that the program panel prints.
#![tactic(auto)]

ghost use Rattle.std.specs.Prelude.{◌≡◌, []};
ghost use Rattle.listing.specs.Listing.{decimal, field, line_of};
ghost use Rattle.listing.specs.Buffer.{lined, pushed, written};
ghost use Rattle.records.specs.Records.{record_at};

use records::Record;
use std::fmt;

// How many bytes a line has room for: the longest has six numbers of 3, 3, 3, 3, 3 and 10 digits, and a byte behind each.
pub const ROOM: usize = 40;

// A line of text: its bytes, with zeros behind them, and how many they are. In fixed memory, so that to have it cannot fail.
#[derive(Clone, Copy)]
pub struct Line {
    pub bytes: [u8; ROOM],
    pub length: usize,
}

// It prints as its text. One that somebody else made, of bytes that are no text, does not print.
impl fmt::Display for Line {
    ghost use Rattle.std.specs.Prelude.{Some, take};

    ghost output = { λ l. Some (take l.length l.bytes) };

    fn fmt<W: fmt::Write>(&self, f: &mut fmt::Formatter<W>) -> fmt::Result {
        let Some(bytes) = self.bytes.get(..self.length) else {
            return Err(fmt::Error);
        };
        let Ok(text) = str::from_utf8(bytes) else {
            return Err(fmt::Error);
        };
        f.write_str(text)
    }
}

// A line with nothing in it yet.
#[tactic(auto, unfolding(crate::specs::Buffer::lined))]
fn empty() -> Line
    ensures { result ≡ lined [] }
{
    Line {
        bytes: [0; ROOM],
        length: 0,
    }
}

// The line with one byte more, or as it was where there is no room.
#[tactic(auto, unfolding(crate::specs::Buffer::pushed))]
fn push(mut l: Line, b: u8) -> Line
    ensures { result ≡ pushed l b }
{
    if l.length < ROOM {
        l.bytes[l.length] = b;
        l.length += 1;
    }
    l
}

// The line with a number in decimal more. (By hand: the library's `write!` into a buffer says nothing where it fails, so a line
// could not promise its text.)
fn push_decimal(l: Line, x: u32) -> Line
    ensures { result ≡ written l (decimal x) }
{
    if x < 10 {
        return push(l, b'0' + x as u8);
    }
    push(push_decimal(l, x / 10), b'0' + (x % 10) as u8)
}

// The line with a number in decimal more, and the byte behind it.
fn push_field(l: Line, x: u32, end: u8) -> Line
    ensures { result ≡ written l (field x end) }
{
    push(push_decimal(l, x), end)
}

// The line for a request with this call and this reply: call, code, running, N, L and M, decimal, one space between.
pub fn line_of(call: u8, reply: Record) -> Line
    ensures { result ≡ lined (line_of call reply) }
{
    let l = push_field(empty(), u32::from(call), b' ');
    let l = push_field(l, u32::from(reply.what), b' ');
    let l = push_field(l, u32::from(reply.who), b' ');
    let l = push_field(l, u32::from(reply.n), b' ');
    let l = push_field(l, u32::from(reply.l), b' ');
    push_field(l, reply.m, b'\n')
}

// The line for a request with this call and the reply that stands in these 72 bytes.
pub fn line_for(call: u8, reply: &[u8]) -> Line
    ensures { result ≡ lined (line_of call (record_at reply.now)) }
{
    line_of(call, records::read(reply))
}
