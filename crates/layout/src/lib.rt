// The state's bytes: tables to bytes and back. docs/LAYOUT.md lists every field.
#![tactic(auto)]

ghost use Rattle.std.specs.Prelude.{◌≡◌, ◌+◌, ◌-◌, ◌*◌, ◌/◌, ◌<◌, ◌≤◌, ℕ, List, length};
ghost use Rattle.std.specs.List.{list_all};
ghost use Rattle.tables.specs.Numbers.{amount};
ghost use Rattle.layout.specs.Pieces.{flat, entries, part, copied_in};
ghost use Rattle.layout.specs.Layout.{
  processes_at,
  structures_at,
  holdings_at,
  state_length,
  place_of,
  process_bytes,
  process_from,
  value_of,
  kind_of,
  structure_bytes,
  structure_from,
  bay_bytes,
  bay_from,
  ring_bytes,
  holding_bytes,
  parcel_from,
  parcel_bytes,
  decode,
  control_to,
  bytes_to,
  process_kept,
  structure_kept,
  holding_kept,
  is_state,
};
ghost use Rattle.layout.specs.Kept.{most_spot, most_amount, most_value};

use bay::{Parcel, Ring};
use tables::{Kind, Place, Process, Structure, Tables};

// Where each part begins: the control part first, then the bays' bytes, then the parcels'.
const ORDER: usize = 1;

const PROCESSES: usize = ORDER + 32;

const STRUCTURES: usize = PROCESSES + 32 * 8;

const BAYS: usize = STRUCTURES + 24 * 3;

const HOLDINGS: usize = BAYS + 8 * 6;

const RING_BYTES: usize = HOLDINGS + 32 * 2;

const PARCEL_BYTES: usize = RING_BYTES + 8 * 256;

// How many bytes a state has.
pub const LENGTH: usize = PARCEL_BYTES + 32 * 64;

// The bytes that a process in this place wants or brings, or the milliseconds that it still sleeps.
fn amount_of(place: Place) -> u32
    ensures { result ≡ amount place }
{
    match place {
        Place::Getting(_, k) | Place::Putting(_, k) => u32::from(k),
        Place::Asleep(k) => k,
        Place::Nowhere | Place::Running | Place::Ready | Place::Parked | Place::Waiting(_) => 0,
    }
}

// The place with this number, structure and amount. The numbers are those of the state's layout, and any other reads as
// nowhere (`place_of`), so this is no `TryFrom`. An amount above a byte is cut as there. So with a kind.
#[tactic(auto, using(std::proofs::lemmas::Bool::Decides::nat_tests), unfolding(crate::specs::Layout::place_of))]
fn place_of(code: u8, n: u8, k: u32) -> Place
    ensures { result ≡ place_of code n k }
{
    match code {
        1 => Place::Running,
        2 => Place::Ready,
        3 => Place::Parked,
        4 => Place::Waiting(n),
        5 => Place::Getting(n, (k % 256) as u8),
        6 => Place::Putting(n, (k % 256) as u8),
        7 => Place::Asleep(k),
        _ => Place::Nowhere,
    }
}

// The process of these bytes.
#[tactic(auto, using(crate::proofs::Laws::amount_number), unfolding(crate::specs::Layout::process_from))]
fn process_from(bytes: &[u8; 8]) -> Process
    ensures { result ≡ process_from bytes.now }
{
    let [priority, suspended, code, n, a, b, c, d] = *bytes;
    Process {
        priority,
        suspended: suspended == 1,
        place: place_of(code, n, u32::from_le_bytes([a, b, c, d])),
    }
}

// A structure's value; of a ring, its bay (semaphores' `value` has 0 there).
fn value_of(kind: Kind) -> u16
    ensures { result ≡ value_of kind }
{
    match kind {
        Kind::Free => 0,
        Kind::Binary(v) | Kind::Ring(v) => u16::from(v),
        Kind::Counting(v) => v,
    }
}

// The kind with this number and value.
#[tactic(auto, using(std::proofs::lemmas::Bool::Decides::nat_tests), unfolding(crate::specs::Layout::kind_of))]
fn kind_of(k: u8, v: u16) -> Kind
    ensures { result ≡ kind_of k v }
{
    match k {
        1 => Kind::Binary((v % 256) as u8),
        2 => Kind::Counting(v),
        3 => Kind::Ring((v % 256) as u8),
        _ => Kind::Free,
    }
}

// The structure of these bytes.
#[tactic(auto, using(crate::proofs::Laws::value_number), unfolding(crate::specs::Layout::structure_from))]
fn structure_from(bytes: &[u8; 3]) -> Structure
    ensures { result ≡ structure_from bytes.now }
{
    let [kind, low, high] = *bytes;
    Structure {
        kind: kind_of(kind, u16::from_le_bytes([low, high])),
    }
}

// The ring of these numbers and bytes.
#[tactic(auto, using(crate::proofs::Laws::pair_number), unfolding(crate::specs::Layout::bay_from))]
fn bay_from(numbers: &[u8; 6], bytes: &[u8; 256]) -> Ring
    ensures { result ≡ bay_from numbers.now bytes.now }
{
    let [a, b, c, d, e, f] = *numbers;
    Ring {
        bytes: *bytes,
        start: u16::from_le_bytes([a, b]),
        size: u16::from_le_bytes([c, d]),
        held: u16::from_le_bytes([e, f]),
    }
}

// The parcel of these two bytes, which tell what it holds, and those that it holds.
#[tactic(auto, using(crate::proofs::Laws::some_if), unfolding(crate::specs::Layout::parcel_from, crate::specs::Layout::holding_of))]
fn parcel_from(holding: &[u8; 2], bytes: &[u8; 64]) -> Parcel
    ensures { result ≡ parcel_from holding.now bytes.now }
{
    let [flag, length] = *holding;
    Parcel {
        bytes: *bytes,
        holds: (flag == 1).then_some(length),
    }
}

// What stands in the state as N bytes for each entry of a table. A ring and a parcel stand there twice, in parts of two
// widths: the numbers, and the bytes that they hold.
trait Stored<const N: usize> {
    ghost stored: { Self → List ℕ };

    fn stored(&self) -> [u8; N]
        ensures { result ≡ stored self.now };
}

// Priority, suspended, place number, structure, and 4 bytes of length or remainder.
impl Stored<8> for Process {
    ghost stored = { process_bytes };

    #[tactic(auto, using(records::specs::Laws::low_first_4, crate::proofs::Laws::flag_is), unfolding(crate::specs::Layout::process_bytes))]
    fn stored(&self) -> [u8; 8] {
        let [a, b, c, d] = amount_of(self.place).to_le_bytes();
        [
            self.priority,
            u8::from(self.suspended),
            tables::code_of(self.place),
            tables::spot_of(self.place),
            a,
            b,
            c,
            d,
        ]
    }
}

// Kind number, and 2 bytes of value.
impl Stored<3> for Structure {
    ghost stored = { structure_bytes };

    #[tactic(auto, using(records::specs::Laws::low_first_2), unfolding(crate::specs::Layout::structure_bytes))]
    fn stored(&self) -> [u8; 3] {
        let [low, high] = value_of(self.kind).to_le_bytes();
        [tables::kind_number(self.kind), low, high]
    }
}

// Start, size and held count.
impl Stored<6> for Ring {
    ghost stored = { bay_bytes };

    #[tactic(auto, using(records::specs::Laws::low_first_2), unfolding(crate::specs::Layout::bay_bytes))]
    fn stored(&self) -> [u8; 6] {
        let [a, b] = self.start.to_le_bytes();
        let [c, d] = self.size.to_le_bytes();
        let [e, f] = self.held.to_le_bytes();
        [a, b, c, d, e, f]
    }
}

impl Stored<256> for Ring {
    ghost stored = { ring_bytes };

    fn stored(&self) -> [u8; 256] {
        self.bytes
    }
}

// 1 and the length of what the parcel holds, or 0 and 0 for nothing.
impl Stored<2> for Parcel {
    ghost stored = { holding_bytes };

    #[tactic(auto, unfolding(crate::specs::Layout::holding_bytes))]
    fn stored(&self) -> [u8; 2] {
        match self.holds {
            Some(length) => [1, length],
            None => [0, 0],
        }
    }
}

impl Stored<64> for Parcel {
    ghost stored = { parcel_bytes };

    fn stored(&self) -> [u8; 64] {
        self.bytes
    }
}

// The entries of a table into s, one behind the other, from its byte `at` on. (Through `chunks_exact_mut` a proof knows no byte
// that was written.)
#[tactic(auto, using(crate::proofs::Laws::written_room))]
fn write_entries<T: Stored<N>, const N: usize>(s: &mut [u8], at: usize, entries: &[T])
    requires { at + length entries.now * N ≤ length s.old }
    ensures { s.new ≡ copied_in s.old at (flat T.stored entries.now) }
{
    let mut next = at;
    for entry in entries {
        s[next..next + N].copy_from_slice(&entry.stored());
        next += N;
    }
}

// The control part, field by field since no other is read (`control_to`), into a buffer of a state's length: running, order, processes, structures. Any other buffer stays as it is.
#[tactic(auto, unfolding(crate::specs::Layout::control_to))]
pub fn write_control(
    s: &mut [u8],
    running: u8,
    order: [u8; 32],
    processes: [Process; 32],
    structures: [Structure; 24],
)
    ensures { s.new ≡ control_to s.old running order processes structures }
{
    if s.len() != LENGTH {
        return;
    }
    s[0] = running;
    s[ORDER..PROCESSES].copy_from_slice(&order);
    write_entries(s, PROCESSES, &processes);
    write_entries(s, STRUCTURES, &structures);
}

// What the bays and the parcels hold into such a buffer.
#[tactic(auto, unfolding(crate::specs::Layout::bytes_to))]
pub fn write_bytes(s: &mut [u8], rings: [Ring; 8], parcels: [Parcel; 32])
    ensures { s.new ≡ bytes_to s.old rings parcels }
{
    if s.len() != LENGTH {
        return;
    }
    write_entries::<Ring, 6>(s, BAYS, &rings);
    write_entries::<Parcel, 2>(s, HOLDINGS, &parcels);
    write_entries::<Ring, 256>(s, RING_BYTES, &rings);
    write_entries::<Parcel, 64>(s, PARCEL_BYTES, &parcels);
}

// The entries of N bytes from byte `from` to byte `to`.
fn entries<const N: usize>(s: &[u8; LENGTH], from: usize, to: usize) -> &[[u8; N]]
    requires wide { 0 < N }
    requires ordered { from ≤ to }
    requires within { to ≤ state_length }
    ensures count { length result.now ≡ (to - from) / N }
    ensures each { result.now ≡ entries ((to - from) / N) (λ i. part s.now (from + i * N) N) }
{
    s[from..to].as_chunks().0
}

// The tables that stand in s; fresh ones where it has another length than a state's. Each entry is set in its place, by
// its index: a whole table from a helper would be copied once more, and through `iter_mut().zip(..)` a proof knows no entry.
#[tactic(auto, using(crate::specs::Laws::decode_short), unfolding(crate::specs::Pieces::entries))]
pub fn read(s: &[u8]) -> Tables
    ensures { result ≡ decode s.now }
{
    let mut t = tables::fresh();
    let Some(s) = s.as_array::<LENGTH>() else {
        return t;
    };
    t.running = s[0];
    t.order.copy_from_slice(&s[ORDER..PROCESSES]);
    let processes = entries(s, PROCESSES, STRUCTURES);
    for i in 0..32 {
        t.processes[i] = process_from(&processes[i]);
    }
    let structures = entries(s, STRUCTURES, BAYS);
    for i in 0..24 {
        t.structures[i] = structure_from(&structures[i]);
    }
    let numbers = entries(s, BAYS, HOLDINGS);
    let ring_bytes = entries(s, RING_BYTES, PARCEL_BYTES);
    for i in 0..8 {
        t.rings[i] = bay_from(&numbers[i], &ring_bytes[i]);
    }
    let holdings = entries(s, HOLDINGS, RING_BYTES);
    let parcel_bytes = entries(s, PARCEL_BYTES, LENGTH);
    for i in 0..32 {
        t.parcels[i] = parcel_from(&holdings[i], &parcel_bytes[i]);
    }
    t
}

// The largest structure number beside a place's number: 0 where the place names no structure.
#[tactic(auto, using(std::proofs::lemmas::Bool::Decides::nat_tests), unfolding(crate::specs::Kept::most_spot))]
fn most_spot(code: u8) -> u8
    ensures { result ≡ most_spot code }
{
    match code {
        4..=6 => 255,
        _ => 0,
    }
}

// The largest amount beside a place's number: 0 where the place has none.
#[tactic(auto, using(std::proofs::lemmas::Bool::Decides::nat_tests), unfolding(crate::specs::Kept::most_amount))]
fn most_amount(code: u8) -> u32
    ensures { result ≡ most_amount code }
{
    match code {
        5 | 6 => 255,
        7 => u32::MAX,
        _ => 0,
    }
}

// Does reading lose nothing of the bytes of a process? Here and below `&` and `|` test without a branch: each call asks it of
// a whole state.
#[tactic(auto, using(crate::proofs::Laws::amount_number, crate::specs::Kept::process_fits_lem), unfolding(crate::specs::Kept::process_fits))]
fn process_kept(bytes: &[u8; 8]) -> bool
    ensures { result ≡ process_kept bytes.now }
{
    let [_, suspended, code, n, a, b, c, d] = *bytes;
    let amount = u32::from_le_bytes([a, b, c, d]);
    (suspended <= 1) & (code <= 7) & (n <= most_spot(code)) & (amount <= most_amount(code))
}

// The largest value, or bay, beside a kind's number: 0 of a free structure.
#[tactic(auto, using(std::proofs::lemmas::Bool::Decides::nat_tests), unfolding(crate::specs::Kept::most_value))]
fn most_value(kind: u8) -> u16
    ensures { result ≡ most_value kind }
{
    match kind {
        1 | 3 => 255,
        2 => u16::MAX,
        _ => 0,
    }
}

// Does reading lose nothing of the bytes of a structure?
#[tactic(auto, using(crate::proofs::Laws::value_number, crate::specs::Kept::structure_fits_lem), unfolding(crate::specs::Kept::structure_fits))]
fn structure_kept(bytes: &[u8; 3]) -> bool
    ensures { result ≡ structure_kept bytes.now }
{
    let [kind, low, high] = *bytes;
    (kind <= 3) & (u16::from_le_bytes([low, high]) <= most_value(kind))
}

// Does reading lose nothing of the bytes that tell what a parcel holds?
#[tactic(auto, using(crate::specs::Kept::holding_is))]
fn holding_kept(bytes: &[u8; 2]) -> bool
    ensures { result ≡ holding_kept bytes.now }
{
    let [flag, length] = *bytes;
    (flag == 1) | ((flag == 0) & (length == 0))
}

// Does it of the bytes of each process, of each structure, of what each parcel holds? One function with the test as a parameter was tried:
// its bound names the width, and gets no proof.
fn processes_kept(s: &[u8; LENGTH]) -> bool
    ensures { result ≡ list_all process_kept (entries 32 (λ i. part s.now (processes_at + i * 8) 8)) }
{
    entries(s, PROCESSES, STRUCTURES).iter().all(process_kept)
}

fn structures_kept(s: &[u8; LENGTH]) -> bool
    ensures { result ≡ list_all structure_kept (entries 24 (λ i. part s.now (structures_at + i * 3) 3)) }
{
    entries(s, STRUCTURES, BAYS).iter().all(structure_kept)
}

fn holdings_kept(s: &[u8; LENGTH]) -> bool
    ensures { result ≡ list_all holding_kept (entries 32 (λ i. part s.now (holdings_at + i * 2) 2)) }
{
    entries(s, HOLDINGS, RING_BYTES).iter().all(holding_kept)
}

// Are these the bytes of some tables? Only what reading could lose is compared: the rest reads one to one.
#[tactic(auto, using(crate::specs::Laws::is_state_short))]
pub fn is_state(s: &[u8]) -> bool
    ensures { result ≡ is_state s.now }
{
    let Some(s) = s.as_array::<LENGTH>() else {
        return false;
    };
    processes_kept(s) && structures_kept(s) && holdings_kept(s)
}
