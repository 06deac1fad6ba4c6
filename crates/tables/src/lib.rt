// What the panel holds: processes, structures, ring bays and parcels, and who stands in which line.
#![tactic(auto, unfolding(crate::specs::Access::fresh, crate::specs::Access::process_of, crate::specs::Access::structure_of, crate::specs::Access::ring_in, crate::specs::Access::parcel_for, crate::specs::Access::with_process, crate::specs::Access::with_structure, crate::specs::Access::with_ring, crate::specs::Access::with_parcel, crate::specs::Numbers::place_code, crate::specs::Lines::waits_at, crate::specs::Lines::urgency))]

ghost use Rattle.std.specs.List.{find, filter};
ghost use Rattle.std.specs.Prelude.{length, ◌≡◌, cond, false, ◌+◌, ◌%◌};
ghost use Rattle.arrivals.specs.Order.{first};
ghost use Rattle.tables.specs.Numbers.{
  code,
  spot,
  place_code,
  kind_number,
  is_live,
  is_semaphore,
  is_ring,
  somebody,
};
ghost use Rattle.tables.specs.Lines.{
  line_at,
  is_number,
  stands,
  standing,
  line,
  waits_at,
  waiting_at,
  in_lines_of,
  urgency,
  ready_line,
  padded,
};
ghost use Rattle.tables.specs.Access.{
  nobody,
  nothing,
  fresh,
  numbered,
  replaced,
  process_of,
  structure_of,
  ring_in,
  parcel_for,
  with_process,
  with_structure,
  with_ring,
  with_parcel,
};

use bay::{Parcel, Ring};

// Where a live process is; a number that is not live is nowhere. Nowhere is a place and no `None`: each of the 32 numbers has an
// entry, and its place code is 0 (`code`). So is a free structure of a kind (`kind_number`).
#[derive(Clone, Copy, PartialEq, Eq)]
pub enum Place {
    Nowhere,
    Running,
    Ready,
    // Ready but suspended.
    Parked,
    // In the line of this semaphore.
    Waiting(u8),
    // In the getters' line of this ring, for so many bytes.
    Getting(u8, u8),
    // In the putters' line of this ring, with so many bytes.
    Putting(u8, u8),
    // For so many milliseconds more.
    Asleep(u32),
}

#[derive(Clone, Copy)]
pub struct Process {
    pub priority: u8,
    // Apart from the place: whoever waits or sleeps may be suspended too, and `place_code` counts it so.
    pub suspended: bool,
    pub place: Place,
}

// What a structure is, with its value; of a ring, the number of its bay.
#[derive(Clone, Copy, PartialEq, Eq)]
pub enum Kind {
    Free,
    Binary(u8),
    Counting(u16),
    Ring(u8),
}

#[derive(Clone, Copy)]
pub struct Structure {
    pub kind: Kind,
}

// A line of processes: the ready line, the parked line, a semaphore's line, the getters and the putters of a ring, the
// sleepers.
#[derive(Clone, Copy, PartialEq, Eq)]
pub enum Line {
    Ready,
    Parked,
    Semaphore(u8),
    Getters(u8),
    Putters(u8),
    Sleepers,
}

// All that the panel holds. Nobody runs where `running` is 0, and no `None`: `Tables` is what all definitions speak of, and the
// state's bytes have that 0. The order has the live processes, each once, from the one that joined a line first to the
// one that did so last, behind as many zeros as numbers are free: 32 bytes of the state, in fixed memory.
#[derive(Clone, Copy)]
pub struct Tables {
    pub running: u8,
    pub order: [u8; 32],
    pub processes: [Process; 32],
    pub structures: [Structure; 24],
    pub rings: [Ring; 8],
    pub parcels: [Parcel; 32],
}

// A number that is not live.
pub fn nobody() -> Process
    ensures { result ≡ nobody }
{
    Process {
        priority: 0,
        suspended: false,
        place: Place::Nowhere,
    }
}

// A structure that is free.
pub fn nothing() -> Structure
    ensures { result ≡ nothing }
{
    Structure { kind: Kind::Free }
}

// A fresh state: nothing live, running 0, and zero everywhere.
pub fn fresh() -> Tables
    ensures { result ≡ fresh }
{
    Tables {
        running: 0,
        order: [0; 32],
        processes: [nobody(); 32],
        structures: [nothing(); 24],
        rings: [bay::empty_bay(); 8],
        parcels: [bay::empty_parcel(); 32],
    }
}

// The entry of a table that has the number n, counted from 1; the given one where there is none.
pub fn numbered<T: Copy>(table: &[T], n: u8, none: T) -> T
    ensures { result ≡ numbered table.now n none }
{
    let Some(i) = usize::from(n).checked_sub(1) else {
        return none;
    };
    if i < table.len() { table[i] } else { none }
}

// A table with x as the entry that has the number n; as it was where there is none.
pub fn replace<T: Copy>(table: &mut [T], n: u8, x: T)
    ensures { table.new ≡ replaced table.old n x }
{
    let Some(i) = usize::from(n).checked_sub(1) else {
        return;
    };
    if i < table.len() {
        table[i] = x;
    }
}

// The process with number p, or nobody.
pub fn process_at(t: &Tables, p: u8) -> Process
    ensures { result ≡ process_of t.now p }
{
    numbered(&t.processes, p, nobody())
}

// The structure with number n, or nothing.
pub fn structure_at(t: &Tables, n: u8) -> Structure
    ensures { result ≡ structure_of t.now n }
{
    numbered(&t.structures, n, nothing())
}

// The ring in bay b, or an empty bay.
pub fn ring_in(t: &Tables, b: u8) -> Ring
    ensures { result ≡ ring_in t.now b }
{
    numbered(&t.rings, b, bay::empty_bay())
}

// The parcel of process p, or an empty one.
pub fn parcel_for(t: &Tables, p: u8) -> Parcel
    ensures { result ≡ parcel_for t.now p }
{
    numbered(&t.parcels, p, bay::empty_parcel())
}

// The tables with process p anew; as they were where there is no such number.
pub fn with_process(mut t: Tables, p: u8, process: Process) -> Tables
    ensures { result ≡ with_process t p process }
{
    replace(&mut t.processes, p, process);
    t
}

// The tables with structure n anew; as they were where there is no such number.
pub fn with_structure(mut t: Tables, n: u8, structure: Structure) -> Tables
    ensures { result ≡ with_structure t n structure }
{
    replace(&mut t.structures, n, structure);
    t
}

// The tables with the ring in bay b anew; as they were where there is no such number.
pub fn with_ring(mut t: Tables, b: u8, ring: Ring) -> Tables
    ensures { result ≡ with_ring t b ring }
{
    replace(&mut t.rings, b, ring);
    t
}

// The tables with the parcel of process p anew; as they were where there is no such number.
pub fn with_parcel(mut t: Tables, p: u8, parcel: Parcel) -> Tables
    ensures { result ≡ with_parcel t p parcel }
{
    replace(&mut t.parcels, p, parcel);
    t
}

// Document 01's number of a place, 0 for nowhere. No `From`, which should lose nothing: the number leaves out what the place
// carries. So does that of a kind.
pub fn code_of(place: Place) -> u8
    ensures { result ≡ code place }
{
    match place {
        Place::Nowhere => 0,
        Place::Running => 1,
        Place::Ready => 2,
        Place::Parked => 3,
        Place::Waiting(_) => 4,
        Place::Getting(_, _) => 5,
        Place::Putting(_, _) => 6,
        Place::Asleep(_) => 7,
    }
}

// The structure at which a process in this place waits, or 0: the definition `spot` and the state's bytes have that 0.
pub fn spot_of(place: Place) -> u8
    ensures { result ≡ spot place }
{
    match place {
        Place::Waiting(n) | Place::Getting(n, _) | Place::Putting(n, _) => n,
        _ => 0,
    }
}

// The place code that process state answers: 16 is added to a number, as the definition has it, so the test is of the number.
pub fn place_code(process: Process) -> u8
    ensures { result ≡ place_code process }
{
    let code = code_of(process.place);
    if process.suspended && 4 <= code {
        return code + 16;
    }
    code
}

// Document 01's number of a kind, 0 for free.
pub fn kind_number(kind: Kind) -> u8
    ensures { result ≡ kind_number kind }
{
    match kind {
        Kind::Free => 0,
        Kind::Binary(_) => 1,
        Kind::Counting(_) => 2,
        Kind::Ring(_) => 3,
    }
}

// Is the structure live?
pub fn is_live(kind: Kind) -> bool
    ensures { result ≡ is_live kind }
{
    !matches!(kind, Kind::Free)
}

// Is it a semaphore?
pub fn is_semaphore(kind: Kind) -> bool
    ensures { result ≡ is_semaphore kind }
{
    matches!(kind, Kind::Binary(_) | Kind::Counting(_))
}

// Is it a ring?
pub fn is_ring(kind: Kind) -> bool
    ensures { result ≡ is_ring kind }
{
    matches!(kind, Kind::Ring(_))
}

// The line in which a process in this place stands, if it stands in one.
fn line_at(place: Place) -> Option<Line>
    ensures { result ≡ line_at place }
{
    match place {
        Place::Nowhere | Place::Running => None,
        Place::Ready => Some(Line::Ready),
        Place::Parked => Some(Line::Parked),
        Place::Waiting(n) => Some(Line::Semaphore(n)),
        Place::Getting(n, _) => Some(Line::Getters(n)),
        Place::Putting(n, _) => Some(Line::Putters(n)),
        Place::Asleep(_) => Some(Line::Sleepers),
    }
}

// Where process x has its entry; a number outside 1 to 32 has just some entry.
pub fn entry_of(x: u8) -> usize
    ensures { result ≡ (x + 31) % 32 }
{
    (x as usize + 31) % 32
}

// Is x the number of a process?
pub fn is_number(x: u8) -> bool
    ensures { result ≡ is_number x }
{
    (1..=32).contains(&x)
}

// Does x, whose entry has this place, stand in the line?
pub fn stands_in(x: u8, place: Place, which: Line) -> bool
    ensures { result ≡ cond (is_number x) (stands which place) false }
{
    is_number(x) && line_at(place) == Some(which)
}

// Does the process with number x stand in the line?
pub fn stands(processes: &[Process; 32], x: u8, which: Line) -> bool
    ensures { result ≡ standing which processes.now x }
{
    stands_in(x, processes[entry_of(x)].place, which)
}

// The first of the order who stands in the line, if anybody does. Here and below order and processes are taken apart: a chain over
// a field of tables was tried, and did not prove.
fn first_in(order: &[u8; 32], processes: &[Process; 32], which: Line) -> Option<u8>
    ensures { result ≡ find (standing which processes.now) order.now }
{
    order.iter().copied().find(|x| stands(processes, *x, which))
}

// The head of a line, if it has one.
pub fn head_of(t: &Tables, which: Line) -> Option<u8>
    ensures { result ≡ somebody (first (line which t.now)) }
{
    first_in(&t.order, &t.processes, which)
}

// A line in its order, zeros behind it: `padded` has 32 numbers, in fixed memory. Here k counts members, and no place.
pub fn line_of(t: &Tables, which: Line) -> [u8; 32]
    ensures { result ≡ padded (line which t.now) }
{
    let mut members = [0; 32];
    let mut k = 0;
    for x in t.order {
        if stands(&t.processes, x, which) {
            members[k] = x;
            k += 1;
        }
    }
    members
}

// Is this a place in a line of structure n?
fn waits_at(place: Place, n: u8) -> bool
    ensures { result ≡ waits_at n place }
{
    match place {
        Place::Waiting(k) | Place::Getting(k, _) | Place::Putting(k, _) => k == n,
        _ => false,
    }
}

// Does the process with number x stand in a line of structure n?
fn waits(processes: &[Process; 32], x: u8, n: u8) -> bool
    ensures { result ≡ waiting_at n processes.now x }
{
    waits_at(numbered(processes, x, nobody()).place, n)
}

// How many of the order stand in a line of structure n.
fn how_many(order: &[u8; 32], processes: &[Process; 32], n: u8) -> usize
    ensures { result ≡ length (filter (waiting_at n processes.now) order.now) }
{
    order.iter().filter(|x| waits(processes, **x, n)).count()
}

// How many stand in the lines of structure n.
pub fn in_lines_of(t: &Tables, n: u8) -> u8
    ensures { result ≡ in_lines_of n t.now }
{
    how_many(&t.order, &t.processes, n) as u8
}

// How urgent the process with number x is: nobody 0, a process 1 more than its priority.
pub fn urgency_of(processes: &[Process; 32], x: u8) -> u16
    ensures { result ≡ urgency processes.now x }
{
    if x == 0 {
        return 0;
    }
    u16::from(numbered(processes, x, nobody()).priority) + 1
}

// The head of the ready line, if it has one: of the most urgent the one that came first. (The library's maximum is the last of
// equals.)
pub fn ready_head(t: &Tables) -> Option<u8>
    ensures { result ≡ somebody (first (ready_line t.now)) }
{
    let mut head = None;
    let mut urgency = 0;
    for x in t.order {
        if stands(&t.processes, x, Line::Ready) {
            let its = urgency_of(&t.processes, x);
            if urgency < its {
                head = Some(x);
                urgency = its;
            }
        }
    }
    head
}
