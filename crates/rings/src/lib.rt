// Rings: put and get, their conditional forms, reset, collect, and the serving of the lines.
#![tactic(auto)]

ghost use Rattle.std.specs.Prelude.{◌≡◌, ℕ, [], Bool, cond, false, ◌+◌, eqb, leb, take};
ghost use Rattle.arrivals.specs.Order.{first};
ghost use Rattle.bay.specs.Bay.{parcel_of};
ghost use Rattle.bay.specs.declared.Ring.{Ring};
ghost use Rattle.tables.specs.Access.{with_ring};
ghost use Rattle.tables.specs.Lines.{is_number};
ghost use Rattle.answers.specs.declared.Outcome.TheVariants.{Done};
ghost use Rattle.answers.specs.Answers.{answer, step};
ghost use Rattle.rings.specs.Serving.{
  asked,
  lengths_of,
  getter_goes,
  to_come,
  GetterTurn,
  PutterTurn,
  IsRingOf,
  service,
  services,
  entered,
  at_ring,
  exchanged,
  served,
};
ghost use Rattle.rings.specs.Rings.{
  allowed,
  way_past,
  way_in,
  way_out,
  put_through,
  waits,
  put_waits,
  put_in,
  conditionally_put,
  got_through,
  get_waits,
  got,
  conditionally_got,
  reset_in,
  reset_ring,
  collected_bytes,
  collected,
};

use answers::{Answer, Outcome, Step};
use bay::{Moved, Parcel, Ring};
use tables::{Kind, Line, Place, Tables};

// Who of a ring's two lines is served, in turn: the ring's size, how many bytes are held by then, the lengths of all
// processes, and who is left of each line.
#[derive(Drop)]
struct Turns<'a> {
    size: u16,
    held: u16,
    lengths: &'a [u8],
    getters: &'a [u8],
    putters: &'a [u8],
}

// What becomes of a transfer: no request could be accepted; it goes through at once, in this bay; the line, or the room or
// the bytes, are in the way. As a `Result` it would be no plainer: who is blocked may wait, and `put_in` and `got` would
// have the same three arms.
#[derive(Clone, Copy)]
pub enum Way {
    Closed,
    AtOnce(u8),
    Blocked,
}

// The two forms of a transfer, which `put_in` and `got` take: a function for each form would keep a third out of line, with copies
// of the tables in each frame. The forms: where the way is blocked the caller waits, or it is answered that nothing was performed.
#[derive(Clone, Copy)]
pub enum Form {
    Waiting,
    Conditional,
}

// The bytes that a process in this place wants or brings.
pub fn asked_in(place: Place) -> u8
    ensures { result ≡ asked place }
{
    match place {
        Place::Getting(_, l) | Place::Putting(_, l) => l,
        _ => 0,
    }
}

// The lengths of all processes, as the definition `lengths_of` has them.
#[tactic(auto, unfolding(crate::specs::Serving::lengths_of))]
fn lengths_of(t: Tables) -> [u8; 32]
    ensures { result ≡ lengths_of t }
{
    t.processes.map(|process| asked_in(process.place))
}

// The head of a line, or nobody: 0, as the definition `first` has it.
fn head(line: &[u8]) -> u8
    ensures { result ≡ first line.now }
{
    line.first().copied().unwrap_or(0)
}

// Can p, the head getter, be served: does it want no more than is held? Nobody, 0, cannot (the clause says so of any p).
pub fn getter_goes(p: u8, l: u8, held: u16) -> bool
    ensures { result ≡ cond (eqb p 0) false (leb l held) }
{
    p != 0 && u16::from(l) <= held
}

// Is there room for l bytes more?
fn has_room(l: u8, held: u16, size: u16) -> bool
    ensures { result ≡ leb (held + l) size }
{
    usize::from(held) + usize::from(l) <= usize::from(size)
}

// Can p, the head putter, be served: is there room for what it brings?
pub fn putter_goes(p: u8, l: u8, held: u16, size: u16) -> bool
    ensures { result ≡ cond (eqb p 0) false (leb (held + l) size) }
{
    p != 0 && has_room(l, held, size)
}

impl<'a> Turns<'a> {
    // The head getter, if it wants no more than is held: it is out of its line then.
    #[tactic(auto, using(crate::proofs::Laws::getter_test, crate::proofs::Laws::behind), unfolding(crate::specs::Serving::length_for))]
    fn getter(&mut self) -> Option<u8>
        ensures { GetterTurn self.old result self.new }
    {
        let p = head(self.getters);
        let wants = tables::numbered(self.lengths, p, 0);
        if !getter_goes(p, wants, self.held) {
            return None;
        }
        self.getters = &self.getters[1..];
        self.held -= u16::from(wants);
        Some(p)
    }

    // The head putter, if there is room for what it brings: it is out of its line then. It differs from the getter in line, test
    // and sign: one function with these as parameters would be longer.
    #[tactic(auto, using(crate::proofs::Laws::putter_test, crate::proofs::Laws::behind), unfolding(crate::specs::Serving::length_for))]
    fn putter(&mut self) -> Option<u8>
        ensures { PutterTurn self.old result self.new }
    {
        let p = head(self.putters);
        let brings = tables::numbered(self.lengths, p, 0);
        if !putter_goes(p, brings, self.held, self.size) {
            return None;
        }
        self.putters = &self.putters[1..];
        self.held += u16::from(brings);
        Some(p)
    }
}

// So many bytes of the parcel enter the ring in bay b.
#[tactic(auto, unfolding(crate::specs::Serving::entered))]
fn entered(t: Tables, b: u8, parcel: Parcel, l: u8) -> Tables
    ensures { result ≡ entered b parcel l t }
{
    tables::with_ring(t, b, bay::put(tables::ring_in(&t, b), parcel, 0, l))
}

// Does p, whose entry has this place, stand in a line of a ring?
#[tactic(auto, unfolding(crate::specs::Serving::at_ring))]
fn at_ring(p: u8, place: Place) -> bool
    ensures { result ≡ cond (is_number p) (at_ring place) false }
{
    tables::is_number(p) && matches!(place, Place::Getting(..) | Place::Putting(..))
}

// What the service of one in this place leaves of the ring and of its parcel: a getter's bytes lie in its parcel, a putter's
// bytes enter the ring and its parcel is emptied.
#[tactic(auto, unfolding(crate::specs::Serving::exchanged))]
fn exchanged(ring: Ring, parcel: Parcel, place: Place) -> Moved
    ensures { result ≡ exchanged place ring parcel }
{
    match place {
        Place::Getting(_, l) => bay::get(ring, parcel, 0, l),
        Place::Putting(_, l) => Moved {
            ring: bay::put(ring, parcel, 0, l),
            parcel: bay::empty_parcel(),
        },
        _ => Moved { ring, parcel },
    }
}

// Process p is served: transferred and released. One who stands in no line of a ring is left as it is.
fn serve(t: &mut Tables, ring: &mut Ring, p: u8)
    ensures { (b : ℕ) → IsRingOf b ring.old t.old → IsRingOf b ring.new t.new × (with_ring t.new b ring.new ≡ service b p (with_ring t.old b ring.old)) }
{
    let k = tables::entry_of(p);
    let process = t.processes[k];
    if at_ring(p, process.place) {
        let moved = exchanged(*ring, t.parcels[k], process.place);
        *ring = moved.ring;
        t.parcels[k] = moved.parcel;
        t.processes[k] = ready::released_process(process);
        t.order = arrivals::moved_last(t.order, p);
    }
}

// If the head getter wants no more than is held, it is served, and then again; if not, it is the head putter's turn. (Document
// 01 names the form, serve-getter and serve-putter call each other: an iterator over the two lines was tried, and went.)
#[cycle(serving)]
fn serve_getter(t: &mut Tables, ring: &mut Ring, turns: &mut Turns)
    ensures all_served { (b : ℕ) → IsRingOf b ring.old t.old → with_ring t.new b ring.new ≡ services b (to_come turns.old) (with_ring t.old b ring.old) }
    ensures none_left { to_come turns.new ≡ [] }
{
    let Some(p) = turns.getter() else {
        return serve_putter(t, ring, turns);
    };
    serve(t, ring, p);
    serve_getter(t, ring, turns);
}

// The head putter goes in when there is room, and then it is the head getter's turn again; if not, neither can be served.
#[cycle(serving)]
fn serve_putter(t: &mut Tables, ring: &mut Ring, turns: &mut Turns)
    requires { getter_goes turns.old.lengths.now turns.old.held turns.old.getters.now ≡ false }
    ensures all_served { (b : ℕ) → IsRingOf b ring.old t.old → with_ring t.new b ring.new ≡ services b (to_come turns.old) (with_ring t.old b ring.old) }
    ensures none_left { to_come turns.new ≡ [] }
{
    if let Some(p) = turns.putter() {
        serve(t, ring, p);
        serve_getter(t, ring, turns);
    }
}

// The lines of ring n, which lies in bay b, are served: one after the other is transferred and released. The answer is the
// caller's: tables that went to it alone would be copied once more. Apart from `served`, whose calls mostly find nobody in
// the lines and then take neither this function's time nor its stack.
#[inline(never)]
fn served_in_turn(mut t: Tables, n: u8, b: u8, answer: Answer) -> Step
    ensures { result ≡ step (served n b t) answer }
{
    let mut ring = tables::ring_in(&t, b);
    let mut turns = Turns {
        size: ring.size,
        held: ring.held,
        lengths: &lengths_of(t),
        getters: &tables::line_of(&t, Line::Getters(n)),
        putters: &tables::line_of(&t, Line::Putters(n)),
    };
    serve_getter(&mut t, &mut ring, &mut turns);
    Step {
        tables: tables::with_ring(t, b, ring),
        answer,
    }
}

// The lines of ring n are served, if anybody stands in them.
#[tactic(auto, using(crate::proofs::Laws::none_waiting))]
fn served(t: Tables, n: u8, b: u8, answer: Answer) -> Step
    ensures { result ≡ step (served n b t) answer }
{
    if tables::in_lines_of(&t, n) == 0 {
        return Step { tables: t, answer };
    }
    served_in_turn(t, n, b, answer)
}

// The parcel of the first l of these bytes.
#[tactic(auto, unfolding(bay::specs::Bay::parcel_of, bay::specs::Bay::zeros))]
fn parcel_of(mut bytes: [u8; 64], l: u8) -> Parcel
    ensures { result ≡ parcel_of (take l bytes) }
{
    let l = l.min(64);
    bytes[usize::from(l)..].fill(0);
    Parcel {
        bytes,
        holds: Some(l),
    }
}

// Is this a length that a transfer at a ring of this size may have?
#[tactic(auto, unfolding(crate::specs::Rings::allowed))]
pub fn allowed(l: u8, size: u16) -> bool
    ensures { result ≡ allowed l size }
{
    (1..=64).contains(&l) && u16::from(l) <= size
}

// The way of l bytes at structure n: past those in this line, where the ring has what suffices.
#[tactic(auto, unfolding(crate::specs::Rings::way_past, crate::specs::Rings::way_to_kind, crate::specs::Rings::way_of, crate::specs::Rings::at_once))]
fn way_past<F: Fn(Ring) -> bool>(t: &Tables, n: u8, l: u8, line: Line, suffices: F) -> Way
    requires { F.IsAlwaysCallable suffices }
    ensures { (enough : Ring → Bool) → ((ring : Ring) (x : Bool) → F.post suffices ring x → x ≡ enough ring) → result ≡ way_past line enough n l t.now }
{
    let Kind::Ring(b) = tables::structure_at(t, n).kind else {
        return Way::Closed;
    };
    let ring = tables::ring_in(t, b);
    if !allowed(l, ring.size) {
        return Way::Closed;
    }
    if tables::head_of(t, line).is_none() && suffices(ring) {
        return Way::AtOnce(b);
    }
    Way::Blocked
}

// The way of l bytes into structure n: past the putters, where there is room.
fn way_in(t: &Tables, n: u8, l: u8) -> Way
    ensures { result ≡ way_in n l t.now }
{
    way_past(
        t,
        n,
        l,
        Line::Putters(n),
        |ring| has_room(l, ring.held, ring.size),
    )
}

// The way of l bytes out of structure n: past the getters, where so many are held.
fn way_out(t: &Tables, n: u8, l: u8) -> Way
    ensures { result ≡ way_out n l t.now }
{
    way_past(t, n, l, Line::Getters(n), |ring| u16::from(l) <= ring.held)
}

// The bytes enter the ring in bay b, and the lines are served. With nobody in them that is all.
#[tactic(auto, unfolding(crate::specs::Rings::put_through))]
fn put_through(t: Tables, n: u8, b: u8, l: u8, bytes: [u8; 64]) -> Step
    ensures { result ≡ put_through n b l bytes t }
{
    let next = entered(t, b, parcel_of(bytes, l), l);
    served(next, n, b, answers::with_numbers(Outcome::Done, 0, 0, 0))
}

// The caller joins the putters, its bytes in its parcel.
#[tactic(auto, using(crate::proofs::Laws::parcel_joins), unfolding(crate::specs::Rings::put_waits))]
fn put_waits(t: Tables, n: u8, l: u8, bytes: [u8; 64]) -> Step
    ensures { result ≡ put_waits n l bytes t }
{
    let next = ready::runner_joins(t, Place::Putting(n, l));
    answers::plainly(
        tables::with_parcel(next, t.running, parcel_of(bytes, l)),
        Outcome::Waits,
    )
}

// Call 18, put, or call 19, conditional put, which does not wait. The arms are those of `got`: one match for both would take
// what goes through and who waits as closures, which is longer than the three arms.
#[tactic(auto, unfolding(crate::specs::Rings::put_in, crate::specs::Rings::put_by, crate::specs::Rings::conditionally_put, crate::specs::Rings::conditionally_put_by))]
pub fn put_in(t: Tables, n: u8, l: u8, bytes: [u8; 64], form: Form) -> Step
    ensures { result ≡ cond (waits form) (put_in n l bytes t) (conditionally_put n l bytes t) }
{
    if matches!(form, Form::Waiting) && t.running == 0 {
        return answers::plainly(t, Outcome::No);
    }
    match (way_in(&t, n, l), form) {
        (Way::AtOnce(b), _) => put_through(t, n, b, l, bytes),
        (Way::Blocked, Form::Waiting) => put_waits(t, n, l, bytes),
        (Way::Blocked, Form::Conditional) | (Way::Closed, _) => answers::plainly(t, Outcome::No),
    }
}

// The answer that brings these l bytes.
fn bringing(l: u8, bytes: [u8; 64]) -> Answer
    ensures { result ≡ answer Done 0 l 0 bytes }
{
    Answer {
        l,
        bytes,
        ..answers::with_numbers(Outcome::Done, 0, 0, 0)
    }
}

// So many bytes leave the ring in bay b and are the answer's, and the lines are served. With nobody in them that is all.
#[tactic(auto, unfolding(crate::specs::Rings::got_through, crate::specs::Rings::got_from))]
fn got_through(t: Tables, n: u8, b: u8, l: u8) -> Step
    ensures { result ≡ got_through n b l t }
{
    let moved = bay::get(tables::ring_in(&t, b), bay::empty_parcel(), 0, l);
    let next = tables::with_ring(t, b, moved.ring);
    served(next, n, b, bringing(l, moved.parcel.bytes))
}

// The caller joins the getters.
#[tactic(auto, unfolding(crate::specs::Rings::get_waits))]
fn get_waits(t: Tables, n: u8, l: u8) -> Step
    ensures { result ≡ get_waits n l t }
{
    answers::plainly(ready::runner_joins(t, Place::Getting(n, l)), Outcome::Waits)
}

// Call 20, get, or call 21, conditional get, which does not wait.
#[tactic(auto, unfolding(crate::specs::Rings::got, crate::specs::Rings::got_by, crate::specs::Rings::conditionally_got, crate::specs::Rings::conditionally_got_by))]
pub fn got(t: Tables, n: u8, l: u8, form: Form) -> Step
    ensures { result ≡ cond (waits form) (got n l t) (conditionally_got n l t) }
{
    if t.running == 0 {
        return answers::plainly(t, Outcome::No);
    }
    match (way_out(&t, n, l), form) {
        (Way::AtOnce(b), _) => got_through(t, n, b, l),
        (Way::Blocked, Form::Waiting) => get_waits(t, n, l),
        (Way::Blocked, Form::Conditional) | (Way::Closed, _) => answers::plainly(t, Outcome::No),
    }
}

// The ring in bay b throws its held bytes away, then serves. With nobody in the lines that is all.
#[tactic(auto, unfolding(crate::specs::Rings::reset_in))]
fn reset_in(t: Tables, n: u8, b: u8) -> Step
    ensures { result ≡ reset_in n b t }
{
    let thrown = tables::with_ring(t, b, bay::reset(tables::ring_in(&t, b)));
    served(thrown, n, b, answers::with_numbers(Outcome::Done, 0, 0, 0))
}

// Call 22, reset ring.
#[tactic(auto, unfolding(crate::specs::Rings::reset_ring, crate::specs::Rings::reset_kind))]
pub fn reset_ring(t: Tables, n: u8) -> Step
    ensures { result ≡ reset_ring n t }
{
    match tables::structure_at(&t, n).kind {
        Kind::Ring(b) => reset_in(t, n, b),
        _ => answers::plainly(t, Outcome::No),
    }
}

// The caller's parcel, which holds l bytes, is emptied, and they are the answer's.
#[tactic(auto, unfolding(crate::specs::Rings::collected_bytes))]
fn collected_bytes(t: Tables, l: u8, bytes: [u8; 64]) -> Step
    ensures { result ≡ collected_bytes l bytes t }
{
    Step {
        tables: tables::with_parcel(t, t.running, bay::empty_parcel()),
        answer: bringing(l, bytes),
    }
}

// Call 23, collect.
#[tactic(auto, unfolding(crate::specs::Rings::collected, crate::specs::Rings::collected_from))]
pub fn collected(t: Tables) -> Step
    ensures { result ≡ collected t }
{
    let parcel = tables::parcel_for(&t, t.running);
    match parcel.holds {
        Some(l) => collected_bytes(t, l, parcel.bytes),
        None => answers::plainly(t, Outcome::No),
    }
}
