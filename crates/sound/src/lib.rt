// Sound: the test of whole tables.
#![tactic(auto)]

ghost use Rattle.std.specs.Prelude.{◌+◌, ◌≡◌, ◌≤◌, ◌<◌, length, map};
ghost use Rattle.std.specs.List.{list_all};
ghost use Rattle.arrivals.specs.Order.{count};
ghost use Rattle.tables.specs.Access.{nobody, nothing, numbered};
ghost use Rattle.tables.specs.Lines.{urgency};
ghost use Rattle.sound.specs.Sound.{kind_at, ring_at, parcel_at, bay_of, users};
ghost use Rattle.sound.specs.Tested.{
  every,
  all_zero,
  order_tested,
  listings_of,
  heads_of,
  asks_tested,
  fits_tested,
  kept_tested,
  placed_tested,
  value_tested,
  empty_tested,
  clear_tested,
  good_tested,
  bay_tested,
  heads_wait,
  off_rings,
  rank_tested,
  stillness_tested,
  urgency_tested,
  settled_tested,
  sound_b,
};

use bay::{Parcel, Ring};
use tables::{Kind, Place, Process, Structure, Tables};

// Are these bytes all zero? It looks at each of them: `all`, which stops, looks at one byte at a time, and is too slow. Tried in C on
// 4,096 bytes: 2,190 ns with a stop, 147 ns with a fold.
fn is_zero(bytes: &[u8]) -> bool
    ensures { result ≡ all_zero bytes.now }
{
    bytes.iter().fold(true, |zero, b| zero & (*b == 0))
}

// Do the zeros of the order stand first, and is no number above 32 listed?
fn order_fits(order: &[u8; 32]) -> bool
    ensures { result ≡ order_tested order.now }
{
    order
        .iter()
        .skip_while(|x| **x == 0)
        .all(|x| tables::is_number(*x))
}

// How often each number comes.
fn counts_of(numbers: &[u8]) -> [u8; 256]
    requires { length numbers.now < 256 }
    ensures { result ≡ listings_of numbers.now }
{
    let mut counts = [0; 256];
    for x in numbers {
        counts[*x as usize] += 1;
    }
    counts
}

// What structure n is; free where there is no such number. (`tables::structure_at` in the definition's word.)
#[tactic(auto, unfolding(tables::specs::Access::structure_of))]
fn kind_at(t: &Tables, n: u8) -> Kind
    ensures { result ≡ kind_at t.now.structures n }
{
    tables::structure_at(t, n).kind
}

// The bay of a ring; 0 of any other structure, as the definition `bay_of` has it.
fn bay_of(kind: Kind) -> u8
    ensures { result ≡ bay_of kind }
{
    match kind {
        Kind::Ring(b) => b,
        _ => 0,
    }
}

// The bay of each structure.
fn bays_of(structures: &[Structure; 24]) -> [u8; 24]
    ensures { result ≡ map (λ s. bay_of s.kind) structures.now }
{
    structures.map(|s| bay_of(s.kind))
}

// Is structure n a ring of at least this length, and the length 1 to 64?
#[tactic(auto, unfolding(crate::specs::Tested::asks_tested, tables::specs::Access::ring_in, rings::specs::Rings::allowed))]
fn asks_fits(t: &Tables, n: u8, l: u8) -> bool
    ensures { result ≡ asks_tested (kind_at t.now.structures n) (ring_at t.now.rings (bay_of (kind_at t.now.structures n))).size l }
{
    match kind_at(t, n) {
        Kind::Ring(b) => rings::allowed(l, tables::ring_in(t, b).size),
        _ => false,
    }
}

// Does all that goes with a process's place fit it: its priority and suspension, the structure that it names, with the
// size of its ring, and what its parcel holds?
#[tactic(auto, unfolding(crate::specs::Tested::fits_tested, crate::specs::Tested::place_tested))]
fn place_fits(t: &Tables, process: Process, holds: Option<u8>) -> bool
    ensures { result ≡ fits_tested t.now.structures t.now.rings process holds }
{
    match process.place {
        Place::Nowhere => process.priority == 0 && !process.suspended && holds.is_none(),
        Place::Running | Place::Ready => !process.suspended,
        Place::Parked => process.suspended,
        Place::Waiting(n) => matches!(kind_at(t, n), Kind::Binary(0) | Kind::Counting(0)),
        Place::Getting(n, l) => asks_fits(t, n, l) && holds.is_none(),
        Place::Putting(n, l) => asks_fits(t, n, l) && holds == Some(l),
        Place::Asleep(k) => (1..=2147483647).contains(&k),
    }
}

// Does a parcel hold nothing, or 1 to 64 bytes, and is the rest zero?
#[tactic(auto, unfolding(crate::specs::Tested::kept_tested, crate::specs::Tested::kept_as))]
fn parcel_fits(parcel: &Parcel) -> bool
    ensures { result ≡ kept_tested parcel.now }
{
    match parcel.holds {
        None => is_zero(&parcel.bytes),
        Some(l) => (1..=64).contains(&l) && is_zero(&parcel.bytes[l as usize..]),
    }
}

// Is process p, which is listed so many times, listed as often as it is live, does it run exactly where its place is
// Running, and does all that goes with its place fit?
#[tactic(auto, unfolding(tables::specs::Access::process_of, crate::specs::Tested::placed_tested, crate::specs::Tested::listed_tested, crate::specs::Tested::runs_tested))]
fn process_fits(t: &Tables, p: u8, times: u8) -> bool
    ensures { result ≡ placed_tested times t.now p }
{
    let process = tables::process_at(t, p);
    let parcel = tables::numbered(&t.parcels, p, bay::empty_parcel());
    times == u8::from(process.place != Place::Nowhere)
        && (t.running == p) == (process.place == Place::Running)
        && place_fits(t, process, parcel.holds)
}

// Do all processes fit?
fn processes_fit(t: &Tables) -> bool
    ensures { result ≡ every 32 (λ p. placed_tested (count p t.now.order) t.now p) }
{
    let times = counts_of(&t.order);
    (1..=32).all(|p| process_fits(t, p, times[p as usize]))
}

// Do all parcels fit?
fn parcels_fit(t: &Tables) -> bool
    ensures { result ≡ every 32 (λ p. kept_tested (parcel_at t.now.parcels p)) }
{
    t.parcels.iter().all(parcel_fits)
}

// Is a structure's value, or its bay, in range?
#[tactic(auto, unfolding(crate::specs::Tested::value_tested))]
fn value_fits(kind: Kind) -> bool
    ensures { result ≡ value_tested kind }
{
    match kind {
        Kind::Free => true,
        Kind::Binary(v) => v <= 1,
        Kind::Counting(v) => v <= 32767,
        Kind::Ring(b) => (1..=8).contains(&b),
    }
}

// Are all structures in range?
fn values_fit(t: &Tables) -> bool
    ensures { result ≡ every 24 (λ n. value_tested (kind_at t.now.structures n)) }
{
    t.structures.iter().all(|s| value_fits(s.kind))
}

// Is a bay all zero?
#[tactic(auto, unfolding(crate::specs::Tested::empty_tested))]
fn bay_is_empty(ring: &Ring) -> bool
    ensures { result ≡ empty_tested ring.now }
{
    ring.start == 0 && ring.size == 0 && ring.held == 0 && is_zero(&ring.bytes)
}

// Is what a ring does not hold zero: before its start and behind its held bytes, round the end?
#[tactic(auto, using(std::proofs::lemmas::Slice::between_is), unfolding(crate::specs::Tested::clear_tested))]
fn rest_is_zero(ring: &Ring) -> bool
    requires fits { ring.now.size ≤ 256 }
    requires begins { ring.now.start < ring.now.size }
    requires holds { ring.now.held ≤ ring.now.size }
    ensures { result ≡ clear_tested ring.now.start ring.now.size ring.now.held ring.now.bytes }
{
    let start = ring.start as usize;
    let size = ring.size as usize;
    let end = start + ring.held as usize;
    if end <= size {
        is_zero(&ring.bytes[..start]) && is_zero(&ring.bytes[end..])
    } else {
        is_zero(&ring.bytes[end - size..start]) && is_zero(&ring.bytes[size..])
    }
}

// Is it a good ring?
#[tactic(auto, using(bay::specs::Laws::in_range_true), unfolding(crate::specs::Tested::good_tested))]
fn ring_is_good(ring: &Ring) -> bool
    ensures { result ≡ good_tested ring.now }
{
    bay::in_range(ring.start, ring.size, ring.held) && rest_is_zero(ring)
}

// Is a bay all zero and no ring's, or a good ring and one structure's?
#[tactic(auto, unfolding(crate::specs::Tested::bay_tested))]
fn bay_fits(users: u8, ring: &Ring) -> bool
    ensures { result ≡ bay_tested users ring.now }
{
    match users {
        0 => bay_is_empty(ring),
        1 => ring_is_good(ring),
        _ => false,
    }
}

// Do all bays fit?
fn bays_fit(t: &Tables) -> bool
    ensures { result ≡ every 8 (λ b. bay_tested (users b t.now.structures) (ring_at t.now.rings b)) }
{
    let users = counts_of(&bays_of(&t.structures));
    t.rings
        .iter()
        .zip(&users[1..])
        .all(|(ring, n)| bay_fits(*n, ring))
}

// Are the tables settled: all but who is to be served, and who is to run?
#[tactic(auto, using(crate::proofs::Laws::process_parts), unfolding(crate::specs::Tested::settled_tested))]
fn settled(t: &Tables) -> bool
    ensures { result ≡ settled_tested t.now }
{
    order_fits(&t.order)
        && t.running <= 32
        && processes_fit(t)
        && parcels_fit(t)
        && values_fit(t)
        && bays_fit(t)
}

// The head getter and the head putter of a ring's lines, or nobody: 0, as the definition `heads_of` has it.
#[derive(Clone, Copy)]
struct Heads {
    getter: u8,
    putter: u8,
}

// The heads of all rings' lines, each at the number of its ring: from the last back, so that the first one stays.
fn heads_of(t: &Tables) -> [Heads; 256]
    ensures getters { map (λ x. x.getter) result ≡ heads_of 5 t.now.processes t.now.order }
    ensures putters { map (λ x. x.putter) result ≡ heads_of 6 t.now.processes t.now.order }
{
    let mut heads = [Heads {
        getter: 0,
        putter: 0,
    }; 256];
    for x in t.order.iter().rev() {
        match tables::process_at(t, *x).place {
            Place::Getting(n, _) => heads[n as usize].getter = *x,
            Place::Putting(n, _) => heads[n as usize].putter = *x,
            _ => {}
        }
    }
    heads
}

// Could neither of these heads of ring n's lines be served? Of another structure there are none.
#[tactic(auto, unfolding(tables::specs::Access::process_of, tables::specs::Access::ring_in, crate::specs::Tested::heads_wait, crate::specs::Tested::neither_goes))]
fn heads_wait(t: &Tables, n: u8, heads: Heads) -> bool
    ensures { result ≡ heads_wait heads.getter heads.putter t.now (kind_at t.now.structures n) }
{
    match kind_at(t, n) {
        Kind::Ring(b) => {
            let ring = tables::ring_in(t, b);
            let wants = rings::asked_in(tables::process_at(t, heads.getter).place);
            let brings = rings::asked_in(tables::process_at(t, heads.putter).place);
            !rings::getter_goes(heads.getter, wants, ring.held)
                && !rings::putter_goes(heads.putter, brings, ring.held, ring.size)
        }
        _ => true,
    }
}

// Is this place in no line of a ring? (The definition `off_rings`; `at_ring` of rings is its contrary, for one of the order.)
#[tactic(auto, unfolding(crate::specs::Tested::off_rings))]
fn off_rings(place: Place) -> bool
    ensures { result ≡ off_rings place }
{
    !matches!(place, Place::Getting(..) | Place::Putting(..))
}

// Does nobody stand in a line of a ring?
fn nobody_at_rings(t: &Tables) -> bool
    ensures { result ≡ list_all (λ q. off_rings q.place) t.now.processes }
{
    t.processes.iter().all(|q| off_rings(q.place))
}

// Could no head of a ring's lines be served? Where nobody stands at a ring, as is usual, no heads are looked for.
fn still(t: &Tables) -> bool
    ensures { result ≡ stillness_tested t.now }
{
    if nobody_at_rings(t) {
        return true;
    }
    let heads = heads_of(t);
    (1..=24).all(|n| heads_wait(t, n, heads[n as usize]))
}

// Does a process, if it is ready, rank no higher than this?
#[tactic(auto, unfolding(crate::specs::Tested::rank_tested))]
fn rank_fits(top: u16, process: Process) -> bool
    ensures { result ≡ rank_tested top (process.priority + 1) process.place }
{
    process.place != Place::Ready || (process.priority as u16) < top
}

// Does nobody who is ready rank higher than the runner?
fn urgent(t: &Tables) -> bool
    ensures { result ≡ urgency_tested t.now.running t.now.processes }
{
    let top = tables::urgency_of(&t.processes, t.running);
    t.processes.iter().all(|q| rank_fits(top, *q))
}

// Are the tables sound: settled, still and urgent?
#[tactic(auto, unfolding(crate::specs::Tested::sound_b))]
pub fn sound(t: Tables) -> bool
    ensures { result ≡ sound_b t }
{
    settled(&t) && still(&t) && urgent(&t)
}
