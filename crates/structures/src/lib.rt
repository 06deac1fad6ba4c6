// Structures: creation, deletion and their values.
#![tactic(auto)]

ghost use Rattle.std.specs.Prelude.{◌≡◌, position};
ghost use Rattle.std.specs.List.{list_any};
ghost use Rattle.tables.specs.Numbers.{somebody};
ghost use Rattle.answers.specs.Answers.{plain, step};
ghost use Rattle.structures.specs.Structures.{
  is_free,
  is_in,
  free_number,
  free_bay,
  numbered_as,
  created_semaphore,
  created_ring,
  created,
  deleted,
  valued_as,
  valued,
};

use answers::{Outcome, Step};
use tables::{Kind, Structure, Tables};

// Is no structure live?
fn is_free(kind: Kind) -> bool
    ensures { result ≡ is_free kind }
{
    !tables::is_live(kind)
}

// Is it a ring in bay b?
fn is_in(b: u8, kind: Kind) -> bool
    ensures { result ≡ is_in b kind }
{
    matches!(kind, Kind::Ring(c) if c == b)
}

// Is a live structure a ring in bay b?
fn taken(structures: &[Structure; 24], b: u8) -> bool
    ensures { result ≡ list_any (λ s. is_in b s.kind) structures.now }
{
    structures.iter().any(|s| is_in(b, s.kind))
}

// Where the first free structure stands. (Processes have the same of theirs: one for both would take the test as a closure, and be
// longer than the line.)
fn first_free(structures: &[Structure; 24]) -> Option<usize>
    ensures { result ≡ position (λ s. is_free s.kind) structures.now }
{
    structures.iter().position(|s| is_free(s.kind))
}

// The lowest free number.
pub fn free_number(structures: [Structure; 24]) -> Option<u8>
    ensures { result ≡ somebody (free_number structures) }
{
    let i = first_free(&structures)?;
    Some(i as u8 + 1)
}

// The lowest free bay. (By a `for`: a `find` over the numbers was tried, and did not prove.)
pub fn free_bay(structures: [Structure; 24]) -> Option<u8>
    ensures { result ≡ somebody (free_bay structures) }
{
    for b in 1..=8 {
        if !taken(&structures, b) {
            return Some(b);
        }
    }
    None
}

// A structure of this kind has the number n from now on, and the answer says so.
#[tactic(auto, unfolding(crate::specs::Structures::numbered_as))]
fn numbered_as(t: Tables, n: u8, kind: Kind) -> Step
    ensures { result ≡ numbered_as n kind t }
{
    Step {
        tables: tables::with_structure(t, n, Structure { kind }),
        answer: answers::with_numbers(Outcome::Done, n, 0, 0),
    }
}

// A semaphore is created, if there is a free number.
#[tactic(auto, unfolding(crate::specs::Structures::created_semaphore))]
fn created_semaphore(t: Tables, kind: Kind) -> Step
    ensures { result ≡ created_semaphore (free_number t.structures) kind t }
{
    match free_number(t.structures) {
        Some(n) => numbered_as(t, n, kind),
        None => answers::plainly(t, Outcome::No),
    }
}

// A ring is created, if there is a free number and a free bay.
#[tactic(auto, unfolding(crate::specs::Structures::created_ring))]
fn created_ring(t: Tables, size: u16) -> Step
    ensures { result ≡ created_ring (free_number t.structures) (free_bay t.structures) size t }
{
    let Some(n) = free_number(t.structures) else {
        return answers::plainly(t, Outcome::No);
    };
    let Some(b) = free_bay(t.structures) else {
        return answers::plainly(t, Outcome::No);
    };
    let next = tables::with_ring(t, b, bay::ring_of_size(size));
    numbered_as(next, n, Kind::Ring(b))
}

// Create structure: kind 1 is binary with value 0 or 1, 2 counting with value 0 to 32,767, 3 a ring of size 1 to 256. The kind
// stays the request's byte: the contract speaks of every number, and the arms are where it is read.
#[tactic(auto, unfolding(crate::specs::Structures::created))]
pub fn created(t: Tables, kind: u8, amount: u32) -> Step
    ensures { result ≡ created kind amount t }
{
    match (kind, amount) {
        (1, 0..=1) => created_semaphore(t, Kind::Binary(amount as u8)),
        (2, 0..=32767) => created_semaphore(t, Kind::Counting(amount as u16)),
        (3, 1..=256) => created_ring(t, amount as u16),
        _ => answers::plainly(t, Outcome::No),
    }
}

// Delete structure: the number is free again, and a ring's bay all zero.
#[tactic(auto, unfolding(crate::specs::Structures::deleted, crate::specs::Structures::deleted_at))]
pub fn deleted(t: Tables, n: u8) -> Step
    ensures { result ≡ deleted n t }
{
    let next = tables::with_structure(t, n, tables::nothing());
    match tables::structure_at(&t, n).kind {
        Kind::Free => answers::plainly(t, Outcome::No),
        Kind::Binary(_) | Kind::Counting(_) => answers::plainly(next, Outcome::Done),
        Kind::Ring(b) => {
            answers::plainly(tables::with_ring(next, b, bay::empty_bay()), Outcome::Done)
        }
    }
}

// The answer for a structure of this kind: who stands in its lines, the kind, and its value or bytes held.
#[tactic(auto, unfolding(crate::specs::Structures::valued_as))]
fn valued_as(t: Tables, n: u8, kind: Kind, m: u32) -> Step
    ensures { result ≡ valued_as n t kind m }
{
    let count = tables::in_lines_of(&t, n);
    Step {
        tables: t,
        answer: answers::with_numbers(Outcome::Done, count, tables::kind_number(kind), m),
    }
}

// Structure value: of a semaphore its value, of a ring the bytes that it holds, with the rest of the answer.
#[tactic(auto, unfolding(crate::specs::Structures::valued, crate::specs::Structures::valued_at))]
pub fn valued(t: Tables, n: u8) -> Step
    ensures { result ≡ valued n t }
{
    let kind = tables::structure_at(&t, n).kind;
    match kind {
        Kind::Free => answers::plainly(t, Outcome::No),
        Kind::Binary(v) => valued_as(t, n, kind, u32::from(v)),
        Kind::Counting(v) => valued_as(t, n, kind, u32::from(v)),
        Kind::Ring(b) => valued_as(t, n, kind, u32::from(tables::ring_in(&t, b).held)),
    }
}
