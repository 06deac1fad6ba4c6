// Plays request records from standard input on a fresh panel and prints a line for each: call, code, running, N, L, M of
// the reply. Bytes left over at the end give a last line `short` and their number. A read or write that fails ends the program
// with its error.
#![tactic(auto)]

ghost use Rattle.std.specs.Prelude.{◌≤◌, ◌≡◌, length};

use listing::Line;
use std::io;
use std::io::Read;

// The bytes of a record.
const RECORD: usize = records::LENGTH;

// A round reads at most so many bytes, 910 records, and then writes as many lines.
const ROUND: usize = 910 * RECORD;

// Room for their text, in fixed memory, which cannot run out.
const LINES: usize = 910 * listing::ROOM;

// Copies a line to where there is room for it, as far as there is; answers how many bytes that is.
fn append(room: &mut [u8], line: Line) -> usize
    ensures within { result ≤ length room.old }
    ensures kept { length room.new ≡ length room.old }
{
    let n = line.length.min(listing::ROOM).min(room.len());
    room[..n].copy_from_slice(&line.bytes[..n]);
    n
}

// Plays the whole records of the input. Their lines, one behind the other, begin the room, and are the answer.
fn play<'a>(state: &mut [u8], input: &[u8], room: &'a mut [u8]) -> &'a [u8] {
    let mut reply = [0u8; RECORD];
    let mut end = 0;
    let (requests, _) = input.as_chunks::<RECORD>();
    for request in requests {
        kernel::brombeertor_call(state, request, &mut reply);
        end += append(&mut room[end..], listing::line_for(request[0], &reply));
    }
    &room[..end]
}

// The last line, where bytes are left over.
fn left_over(rt: &impl Print, n: usize) -> io::Result<()> {
    if n == 0 {
        return Ok(());
    }
    println!(rt; "short {n}")
}

// A round that reads less than it may is the last one: the input has ended. (A loop over input goes by a count, since each loop is
// proved to end.)
fn main(rt: HostRuntime) -> io::Result<()> {
    let mut state = [0u8; layout::LENGTH];
    kernel::brombeertor_fresh(&mut state);
    let mut input = Vec::with_capacity(rt.alloc(), ROUND)?;
    let mut lines = [0u8; LINES];
    for _ in 0..u64::MAX {
        input.clear();
        let got = rt.stdin().take(ROUND as u64).read_to_end(&mut input)?;
        rt.write_all(play(&mut state, input.as_slice(), &mut lines))?;
        if got < ROUND {
            return left_over(&rt, got % RECORD);
        }
    }
    Ok(())
}
