// The refusals: whether a request is accepted, and if not, why.
#![tactic(auto)]

ghost use Rattle.std.specs.Prelude.{◌≡◌, ◌==◌, not, cond, eqb, drop};
ghost use Rattle.std.specs.List.{list_all};
ghost use Rattle.tables.specs.Access.{process_of, structure_of, parcel_for};
ghost use Rattle.tables.specs.Numbers.{is_live};
ghost use Rattle.calls.specs.Calls.{call_number, unknown};
ghost use Rattle.refusals.specs.Codes.{code_of, refused_as};
ghost use Rattle.refusals.specs.Refusals.{
  both,
  wrong_caller,
  number_fits,
  small_fits,
  start_fits,
  amount_fits,
  data_fit,
  bad_field,
  of_named,
  wrong_for,
  dead_process,
  holds_bytes,
  above_size,
  is_full,
  applies_to,
  first_that,
  early,
  late,
  refusal,
  refused_transfer,
  refused_creation,
};

use calls::{Amount, Data, Deed, Number, Row, Small};
use records::Record;
use tables::{Kind, Place, Process, Tables};

// Why a request is refused, each with its code. Of those that apply the first of this list is given.
#[derive(Clone, Copy, PartialEq, Eq)]
pub enum Refusal {
    // Call 0 or above 23.
    UnknownCall = 41,
    // Caller byte above 1, caller not allowed this call, or a process while none runs.
    WrongCaller = 42,
    // A field out of range, or an unused one not zero.
    BadField = 43,
    // The structure named is not live.
    DeadStructure = 44,
    // A semaphore call on a ring, or a ring call on a semaphore.
    WrongKind = 45,
    // The process named is not live.
    DeadProcess = 46,
    // Suspend of one suspended already, or resume of one not suspended.
    WrongSuspension = 47,
    // Put or get by a process whose parcel holds uncollected bytes.
    Uncollected = 48,
    // A length above the ring's size.
    TooLong = 49,
    // Signal of a counting semaphore at 32,767.
    SignalsFull = 50,
    // Delete of a structure with a process in a line.
    DeletesInUse = 51,
    // All processes are live.
    ProcessesFull = 52,
    // All structures, or for a ring all rings, are live.
    StructuresFull = 53,
}

impl From<Refusal> for u8 {
    ghost from_gives = { λ refusal code. code ≡ code_of refusal };

    fn from(refusal: Refusal) -> u8 {
        refusal as u8
    }
}

// The refusal where its test says that it applies.
fn refuse_if(applies: bool, refusal: Refusal) -> Result<(), Refusal>
    ensures { refused_as result ≡ cond applies (code_of refusal) 0 }
{
    if applies { Err(refusal) } else { Ok(()) }
}

// Does the caller make a request that it may not make, or is it nobody? The caller is the request's byte, as in
// `calls::is_allowed`.
#[tactic(auto, unfolding(crate::specs::Refusals::wrong_caller))]
fn wrong_caller(row: Row, caller: u8, running: u8) -> bool
    ensures { result ≡ wrong_caller row caller running }
{
    caller > 1 || !calls::is_allowed(row.callers, caller) || caller == 1 && running == 0
}

// Is N zero where it is unused?
fn number_fits(number: Number, n: u8) -> bool
    ensures { result ≡ number_fits number n }
{
    number != Number::Unused || n == 0
}

// Is L in its range?
fn small_fits(small: Small, l: u8) -> bool
    ensures { result ≡ small_fits small l }
{
    match small {
        Small::Unused => l == 0,
        Small::Priority => true,
        Small::Kind => (1..=3).contains(&l),
        Small::Length => (1..=64).contains(&l),
    }
}

// Is M a start value or a size for this kind, by its number in the request? `structures::created` reads the same ranges to make
// the kind; the definitions `start_fits` and `created` each have them.
#[tactic(auto, unfolding(crate::specs::Refusals::start_fits))]
fn start_fits(kind: u8, m: u32) -> bool
    ensures { result ≡ start_fits kind m }
{
    matches!((kind, m), (1, 0..=1) | (2, 0..=32767) | (3, 1..=256))
}

// Is M in its range?
fn amount_fits(amount: Amount, l: u8, m: u32) -> bool
    ensures { result ≡ amount_fits amount l m }
{
    match amount {
        Amount::Unused => m == 0,
        Amount::Milliseconds => m <= 2147483647,
        Amount::StartOrSize => start_fits(l, m),
    }
}

// Are all data bytes from this one on zero? At most 64 of one request, so it may stop at the first; sound's `is_zero` looks at all
// that a state has.
fn zero_from(bytes: &[u8], from: u8) -> bool
    ensures { result ≡ list_all (λ b. b == 0) (drop from bytes.now) }
{
    bytes.iter().skip(from.into()).all(|b| *b == 0)
}

// Are the data zero where they are unused?
#[tactic(auto, using(crate::proofs::Laws::all_zero_lem))]
fn data_fit(part: Data, l: u8, bytes: &[u8]) -> bool
    ensures { result ≡ data_fit part l bytes.now }
{
    match part {
        Data::Unused => zero_from(bytes, 0),
        Data::UpToLength => zero_from(bytes, l),
    }
}

// Is a field out of range, or an unused one not zero?
#[tactic(auto, unfolding(crate::specs::Refusals::bad_field))]
fn bad_field(row: Row, r: &Record) -> bool
    ensures { result ≡ bad_field row r.now }
{
    !(number_fits(row.n, r.n)
        && small_fits(row.l, r.l)
        && amount_fits(row.m, r.l, r.m)
        && data_fit(row.bytes, r.l, &r.bytes))
}

// Does a request with this use of N name a structure that is not live?
fn dead_structure(number: Number, kind: Kind) -> bool
    ensures { result ≡ of_named number (not (is_live kind)) }
{
    matches!(number, Number::Structure | Number::Semaphore | Number::Ring) && !tables::is_live(kind)
}

// Is it a semaphore call on a ring, or a ring call on a semaphore?
fn wrong_kind(number: Number, kind: Kind) -> bool
    ensures { result ≡ wrong_for number kind }
{
    match number {
        Number::Unused | Number::Process | Number::Structure => false,
        Number::Semaphore => tables::is_ring(kind),
        Number::Ring => tables::is_semaphore(kind),
    }
}

// Does a request with this row name a process that is not live?
#[tactic(auto, unfolding(crate::specs::Refusals::dead_process))]
fn dead_process(row: Row, process: Process) -> bool
    ensures { result ≡ dead_process row process }
{
    row.n == Number::Process && process.place == Place::Nowhere
}

// The refusals that the request's row in the call table decides.
#[tactic(auto, using(crate::specs::Laws::dead_named, crate::specs::Laws::wrong_named), unfolding(crate::specs::Refusals::applies_to))]
fn early(t: &Tables, r: &Record, row: Row) -> Result<(), Refusal>
    ensures { refused_as result ≡ first_that (applies_to row r.now.what t.now r.now) early }
{
    let kind = tables::structure_at(t, r.n).kind;
    refuse_if(wrong_caller(row, r.who, t.running), Refusal::WrongCaller)?;
    refuse_if(bad_field(row, r), Refusal::BadField)?;
    refuse_if(dead_structure(row.n, kind), Refusal::DeadStructure)?;
    refuse_if(wrong_kind(row.n, kind), Refusal::WrongKind)?;
    refuse_if(
        dead_process(row, tables::process_at(t, r.n)),
        Refusal::DeadProcess,
    )
}

// Is the length above the ring's size?
fn above_size(t: &Tables, l: u8, kind: Kind) -> bool
    ensures { result ≡ above_size l kind t.now }
{
    match kind {
        Kind::Ring(b) => tables::ring_in(t, b).size < l.into(),
        Kind::Free | Kind::Binary(_) | Kind::Counting(_) => false,
    }
}

// Is it a counting semaphore at 32,767?
fn is_full(kind: Kind) -> bool
    ensures { result ≡ is_full kind }
{
    matches!(kind, Kind::Counting(32767))
}

// Is the caller, 1 for a process as in the request, one whose parcel holds uncollected bytes?
fn uncollected(t: &Tables, who: u8) -> bool
    ensures { result ≡ both (eqb who 1) (holds_bytes (parcel_for t.now t.now.running).holds) }
{
    who == 1 && tables::parcel_for(t, t.running).holds.is_some()
}

// Put and get, conditional or not.
#[tactic(auto, unfolding(crate::specs::Refusals::refused_transfer))]
fn refused_transfer(t: &Tables, r: &Record) -> Result<(), Refusal>
    ensures { refused_as result ≡ refused_transfer t.now r.now }
{
    refuse_if(uncollected(t, r.who), Refusal::Uncollected)?;
    refuse_if(
        above_size(t, r.l, tables::structure_at(t, r.n).kind),
        Refusal::TooLong,
    )
}

// Create structure.
#[tactic(auto, unfolding(crate::specs::Refusals::refused_creation))]
fn refused_creation(t: &Tables, r: &Record) -> Result<(), Refusal>
    ensures { refused_as result ≡ refused_creation t.now r.now }
{
    let full = structures::free_number(t.structures).is_none()
        || r.l == 3 && structures::free_bay(t.structures).is_none();
    refuse_if(full, Refusal::StructuresFull)
}

// The refusals that the request's deed decides.
#[tactic(auto, unfolding(crate::specs::Refusals::applies_to, crate::specs::Refusals::wrong_suspension, crate::specs::Refusals::uncollected, crate::specs::Refusals::too_long, crate::specs::Refusals::signals_full, crate::specs::Refusals::deletes_in_use, crate::specs::Refusals::processes_full, crate::specs::Refusals::structures_full, crate::specs::Refusals::refused_transfer, crate::specs::Refusals::refused_creation, processes::specs::Processes::free_process))]
fn late(t: &Tables, r: &Record, deed: Deed) -> Result<(), Refusal>
    ensures { refused_as result ≡ first_that (applies_to unknown (call_number deed) t.now r.now) late }
{
    match deed {
        Deed::CreateProcess => {
            refuse_if(
                processes::free_process(t.processes).is_none(),
                Refusal::ProcessesFull,
            )
        }
        Deed::Suspend => refuse_if(
            tables::process_at(t, r.n).suspended,
            Refusal::WrongSuspension,
        ),
        Deed::Resume => refuse_if(
            !tables::process_at(t, r.n).suspended,
            Refusal::WrongSuspension,
        ),
        Deed::CreateStructure => refused_creation(t, r),
        Deed::DeleteStructure => refuse_if(tables::in_lines_of(t, r.n) > 0, Refusal::DeletesInUse),
        Deed::Signal => refuse_if(
            is_full(tables::structure_at(t, r.n).kind),
            Refusal::SignalsFull,
        ),
        Deed::Put | Deed::ConditionalPut | Deed::Get | Deed::ConditionalGet => {
            refused_transfer(t, r)
        }
        _ => Ok(()),
    }
}

// Is the request accepted? Else why not.
#[tactic(auto, using(crate::proofs::Laws::refusal_found))]
pub fn check(t: Tables, r: Record) -> Result<(), Refusal>
    ensures { refused_as result ≡ refusal t r }
{
    let row = calls::row_of(r.what);
    refuse_if(calls::is_unknown(row), Refusal::UnknownCall)?;
    early(&t, &r, row)?;
    late(&t, &r, row.deed)
}
