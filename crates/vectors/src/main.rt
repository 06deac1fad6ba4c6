// Plays the request streams of data/ through the kernel and compares every reply, whole, and every line of text with the
// stored ones. A line for each stream: its name, how many requests it has, how many answers were wrong. A read or write that
// fails ends the program with its error.
#![tactic(auto)]

use records::LENGTH;
use std::alloc::Global;
use std::fs::File;
use std::io;
use std::io::{BufReader, Read};
use std::rt::Files;

// No stream has more requests.
const MOST: u32 = 100000;

// The next byte of a file, if it has one.
fn next_byte(file: &mut impl Read) -> io::Result<Option<u8>> {
    file.by_ref().bytes().next().transpose()
}

// Is this text what the file says next?
fn says(file: &mut impl Read, text: &[u8]) -> io::Result<bool> {
    for b in text {
        if next_byte(file)? != Some(*b) {
            return Ok(false);
        }
    }
    Ok(true)
}

// Is the rest of the lines what n bytes left over give: `short` and their number, or nothing?
fn says_short(alloc: Global, lines: &mut impl Read, n: usize) -> io::Result<bool> {
    if n == 0 {
        return Ok(true);
    }
    let text = format!(in alloc; "short {n}\n")?;
    says(lines, text.as_bytes())
}

// Has the file nothing more to say?
fn ended(file: &mut impl Read) -> io::Result<bool> {
    Ok(next_byte(file)?.is_none())
}

// One request: are its reply and its line the stored ones? An error is that of reading what is stored; the request was carried
// out all the same.
#[tactic(auto, using(listing::specs::Buffer::lined_within))]
fn right(
    state: &mut [u8],
    request: &[u8],
    replies: &mut impl Read,
    lines: &mut impl Read,
) -> io::Result<bool> {
    let mut reply = [0u8; LENGTH];
    kernel::brombeertor_call(state, request, &mut reply);
    let Some(call) = request.first() else {
        return Ok(false);
    };
    let line = listing::line_for(*call, &reply);
    Ok(says(replies, &reply)? && says(lines, &line.bytes[..line.length])?)
}

// A file of data/ that is read from its start, through a buffer.
fn opened<R: Files + AllocGlobal>(rt: &R, path: &str) -> io::Result<BufReader<R::File>> {
    BufReader::new(rt.alloc(), File::open(rt, path)?)
}

// A stream: its requests one after the other on a fresh panel. The three files are named whole: a name made of two parts would
// take memory, which can run out.
fn stream(
    rt: &(impl Files + AllocGlobal + Print),
    [name, requests, replies, lines]: [&str; 4],
) -> io::Result<()> {
    let mut requests = opened(rt, requests)?;
    let mut replies = opened(rt, replies)?;
    let mut lines = opened(rt, lines)?;
    let mut state = [0u8; layout::LENGTH];
    kernel::brombeertor_fresh(&mut state);
    let mut request = Vec::with_capacity(rt.alloc(), LENGTH)?;
    let mut count: u32 = 0;
    let mut wrong: u32 = 0;
    let mut over: usize = 0;
    for _ in 0..MOST {
        request.clear();
        let got = requests
            .by_ref()
            .take(LENGTH as u64)
            .read_to_end(&mut request)?;
        if got < LENGTH {
            over = got;
            break;
        }
        wrong += u32::from(!right(&mut state, request.as_slice(), &mut replies, &mut lines)?);
        count += 1;
    }
    wrong += u32::from(!says_short(rt.alloc(), &mut lines, over)?);
    wrong += u32::from(!ended(&mut replies)?);
    wrong += u32::from(!ended(&mut lines)?);
    println!(rt; "{name} {count} {wrong}")
}

fn main(rt: HostRuntime) -> io::Result<()> {
    let streams = [
        ["all", "all.requests", "all.replies", "all.lines"],
        ["edges", "edges.requests", "edges.replies", "edges.lines"],
        ["full", "full.requests", "full.replies", "full.lines"],
        ["rings", "rings.requests", "rings.replies", "rings.lines"],
        [
            "rubbish",
            "rubbish.requests",
            "rubbish.replies",
            "rubbish.lines",
        ],
        ["sems", "sems.requests", "sems.replies", "sems.lines"],
        ["time", "time.requests", "time.replies", "time.lines"],
    ];
    for files in streams {
        stream(&rt, files)?;
    }
    Ok(())
}
