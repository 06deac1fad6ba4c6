// Tried at the bench: the cases of document 01 that no theorem computes, and the ring and suspension examples once more, put
// to the kernel. A line for each request: call, code, running, N, L, M. A line of its own, `fresh`, begins a case.
// A write that fails ends the program with its error.
#![tactic(auto)]

use layout::LENGTH;
use records::{DATA, Record};
use std::io;

// The data of a request: the first l bytes are 1, 2, 3, .. where it brings any.
fn data_of(call: u8, l: u8) -> [u8; DATA] {
    let mut bytes = [0; DATA];
    if matches!(call, 18 | 19) {
        for i in 0..l.min(64) {
            bytes[usize::from(i)] = i + 1;
        }
    }
    bytes
}

// A board: the state that it keeps, and where its lines are printed.
#[derive(Drop)]
struct Board<'a, R> {
    rt: &'a R,
    state: [u8; LENGTH],
}

impl<'a, R: Print> Board<'a, R> {
    // A case begins, on a fresh state.
    fn fresh(rt: &'a R) -> io::Result<Self> {
        println!(rt; "fresh")?;
        let mut state = [0; LENGTH];
        kernel::brombeertor_fresh(&mut state);
        Ok(Board { rt, state })
    }

    // One request: its line is printed. Its numbers come one by one, so that a case reads as a table: named fields would take a
    // line each.
    fn ask(&mut self, call: u8, caller: u8, n: u8, l: u8, m: u32) -> io::Result<()> {
        let asked = Record {
            what: call,
            who: caller,
            n,
            l,
            m,
            bytes: data_of(call, l),
        };
        let mut request = [0; records::LENGTH];
        let mut reply = [0; records::LENGTH];
        records::write(&mut request, asked);
        kernel::brombeertor_call(&mut self.state, &request, &mut reply);
        print!(self.rt; "{}", listing::line_for(call, &reply))
    }
}

// Ring of 8: p1 gets 6 and waits; put 4, put 4: p1 served, 2 held.
fn getter_served(rt: &impl Print) -> io::Result<()> {
    let mut board = Board::fresh(rt)?;
    board.ask(2, 0, 0, 10, 0)?;
    board.ask(2, 0, 0, 5, 0)?;
    board.ask(10, 0, 0, 3, 8)?;
    board.ask(20, 1, 1, 6, 0)?;
    board.ask(18, 1, 1, 4, 0)?;
    board.ask(18, 1, 1, 4, 0)?;
    board.ask(12, 0, 1, 0, 0)?;
    board.ask(23, 1, 0, 0, 0)
}

// Ring of 8: p1 gets 6, p2 gets 1; p3 puts 5; p3's conditional get of 1; p3 puts 1.
fn small_get_waits(rt: &impl Print) -> io::Result<()> {
    let mut board = Board::fresh(rt)?;
    board.ask(2, 0, 0, 10, 0)?;
    board.ask(2, 0, 0, 9, 0)?;
    board.ask(2, 0, 0, 8, 0)?;
    board.ask(10, 0, 0, 3, 8)?;
    board.ask(20, 1, 1, 6, 0)?;
    board.ask(20, 1, 1, 1, 0)?;
    board.ask(18, 1, 1, 5, 0)?;
    board.ask(21, 1, 1, 1, 0)?;
    board.ask(18, 1, 1, 1, 0)?;
    board.ask(12, 0, 1, 0, 0)
}

// The standoff: size 8, held 4, a get of 6 and a put of 5; then reset.
fn standoff(rt: &impl Print) -> io::Result<()> {
    let mut board = Board::fresh(rt)?;
    board.ask(2, 0, 0, 10, 0)?;
    board.ask(2, 0, 0, 9, 0)?;
    board.ask(2, 0, 0, 8, 0)?;
    board.ask(10, 0, 0, 3, 8)?;
    board.ask(19, 0, 1, 4, 0)?;
    board.ask(20, 1, 1, 6, 0)?;
    board.ask(18, 1, 1, 5, 0)?;
    board.ask(22, 0, 1, 0, 0)?;
    board.ask(12, 0, 1, 0, 0)?;
    board.ask(8, 0, 1, 0, 0)
}

// A suspended waiter signalled: place 3, runner unchanged. Resumed it runs.
fn suspended_waiter(rt: &impl Print) -> io::Result<()> {
    let mut board = Board::fresh(rt)?;
    board.ask(2, 0, 0, 10, 0)?;
    board.ask(2, 0, 0, 5, 0)?;
    board.ask(10, 0, 0, 2, 0)?;
    board.ask(16, 1, 1, 0, 0)?;
    board.ask(4, 1, 1, 0, 0)?;
    board.ask(8, 0, 1, 0, 0)?;
    board.ask(13, 0, 1, 0, 0)?;
    board.ask(8, 0, 1, 0, 0)?;
    board.ask(5, 0, 1, 0, 0)
}

// Nobody runs, caller 1: 42. Length 0 on a dead structure: 43, not 44. A live one: 44, 45, 49 in turn.
fn lowest_number(rt: &impl Print) -> io::Result<()> {
    let mut board = Board::fresh(rt)?;
    board.ask(7, 1, 0, 0, 0)?;
    board.ask(2, 0, 0, 10, 0)?;
    board.ask(18, 1, 1, 0, 0)?;
    board.ask(18, 1, 1, 9, 0)?;
    board.ask(10, 0, 0, 1, 0)?;
    board.ask(18, 1, 1, 9, 0)?;
    board.ask(10, 0, 0, 3, 8)?;
    board.ask(18, 1, 2, 9, 0)
}

// Counting at 32,766: signal 0, signal 50; conditional signal 1.
fn counting_full(rt: &impl Print) -> io::Result<()> {
    let mut board = Board::fresh(rt)?;
    board.ask(10, 0, 0, 2, 32766)?;
    for _ in 0..2 {
        board.ask(13, 0, 1, 0, 0)?;
    }
    board.ask(14, 0, 1, 0, 0)
}

// Delete with a line: 51; without one: 0.
fn delete_with_a_line(rt: &impl Print) -> io::Result<()> {
    let mut board = Board::fresh(rt)?;
    board.ask(2, 0, 0, 10, 0)?;
    board.ask(10, 0, 0, 1, 0)?;
    board.ask(16, 1, 1, 0, 0)?;
    board.ask(11, 0, 1, 0, 0)?;
    board.ask(13, 0, 1, 0, 0)?;
    board.ask(11, 0, 1, 0, 0)
}

// 33rd process: 52.
fn processes_full(rt: &impl Print) -> io::Result<()> {
    let mut board = Board::fresh(rt)?;
    for _ in 0..33 {
        board.ask(2, 0, 0, 7, 0)?;
    }
    Ok(())
}

// Ninth ring: 53, and a semaphore still 0. 25th structure: 53.
fn structures_full(rt: &impl Print) -> io::Result<()> {
    let mut board = Board::fresh(rt)?;
    for _ in 0..9 {
        board.ask(10, 0, 0, 3, 256)?;
    }
    for _ in 0..17 {
        board.ask(10, 0, 0, 2, 0)?;
    }
    Ok(())
}

// Sleep 2,147,483,648: 43. Sleep 0: 0. Sleep 2,147,483,647: 2. Sleep 1, a tick: it runs again.
fn sleeps(rt: &impl Print) -> io::Result<()> {
    let mut board = Board::fresh(rt)?;
    board.ask(2, 0, 0, 10, 0)?;
    board.ask(9, 1, 0, 0, 2147483648)?;
    board.ask(9, 1, 0, 0, 0)?;
    board.ask(9, 1, 0, 0, 1)?;
    board.ask(1, 0, 0, 0, 0)?;
    board.ask(9, 1, 0, 0, 2147483647)
}

fn main(rt: HostRuntime) -> io::Result<()> {
    getter_served(&rt)?;
    small_get_waits(&rt)?;
    standoff(&rt)?;
    suspended_waiter(&rt)?;
    lowest_number(&rt)?;
    counting_full(&rt)?;
    delete_with_a_line(&rt)?;
    processes_full(&rt)?;
    structures_full(&rt)?;
    sleeps(&rt)
}
