// Semaphores: wait and signal, their conditional forms, and signal all.
#![tactic(auto)]

ghost use Rattle.std.specs.Prelude.{◌≡◌, length};
ghost use Rattle.arrivals.specs.Order.{keep};
ghost use Rattle.answers.specs.Answers.{plain, step};
ghost use Rattle.semaphores.specs.Semaphores.{
  kind_of,
  semaphore_of,
  with_kind,
  value,
  lowered,
  raised,
  somebody,
  waited_at,
  waited,
  conditionally_waited,
  signalled_at,
  signalled,
  conditionally_signalled,
  all_released,
  all_signalled,
};

use answers::{Outcome, Step};
use tables::{Kind, Line, Place, Structure, Tables};

// What structure n is.
#[tactic(auto, unfolding(crate::specs::Semaphores::kind_of))]
fn kind_of(t: &Tables, n: u8) -> Kind
    ensures { result ≡ kind_of n t.now }
{
    tables::structure_at(t, n).kind
}

// What structure n is, if it is a semaphore.
fn semaphore_at(t: &Tables, n: u8) -> Option<Kind>
    ensures { result ≡ semaphore_of (kind_of n t.now) }
{
    let kind = kind_of(t, n);
    tables::is_semaphore(kind).then_some(kind)
}

// The tables with structure n another.
#[tactic(auto, unfolding(crate::specs::Semaphores::with_kind))]
fn with_kind(t: Tables, n: u8, kind: Kind) -> Tables
    ensures { result ≡ with_kind n kind t }
{
    tables::with_structure(t, n, Structure { kind })
}

// A semaphore's value.
fn value_of(kind: Kind) -> u16
    ensures { result ≡ value kind }
{
    match kind {
        Kind::Binary(v) => u16::from(v),
        Kind::Counting(v) => v,
        Kind::Free | Kind::Ring(_) => 0,
    }
}

// The value falls by 1; at 0 it stays.
fn lowered(kind: Kind) -> Kind
    ensures { result ≡ lowered kind }
{
    match kind {
        Kind::Binary(v) => Kind::Binary(v.saturating_sub(1)),
        Kind::Counting(v) => Kind::Counting(v.saturating_sub(1)),
        Kind::Free | Kind::Ring(_) => kind,
    }
}

// Counting rises by 1, up to 32,767, and binary becomes 1.
fn raised(kind: Kind) -> Kind
    ensures { result ≡ raised kind }
{
    match kind {
        Kind::Binary(_) => Kind::Binary(1),
        Kind::Counting(v) if v < 32767 => Kind::Counting(v + 1),
        Kind::Free | Kind::Counting(_) | Kind::Ring(_) => kind,
    }
}

// How many of these are somebody.
fn count_of(members: [u8; 32]) -> u8
    ensures { result ≡ length (keep somebody members) }
{
    members.iter().filter(|p| **p != 0).count() as u8
}

// The value falls, or the caller joins the line.
#[tactic(auto, unfolding(crate::specs::Semaphores::waited_at))]
fn waited_at(t: Tables, n: u8, kind: Kind) -> Step
    ensures { result ≡ waited_at n t kind }
{
    if 0 < value_of(kind) {
        return answers::plainly(with_kind(t, n, lowered(kind)), Outcome::Done);
    }
    answers::plainly(ready::runner_joins(t, Place::Waiting(n)), Outcome::Waits)
}

// Wait.
#[tactic(auto, unfolding(crate::specs::Semaphores::waited))]
pub fn waited(t: Tables, n: u8) -> Step
    ensures { result ≡ waited n t }
{
    if t.running == 0 {
        return answers::plainly(t, Outcome::No);
    }
    match semaphore_at(&t, n) {
        Some(kind) => waited_at(t, n, kind),
        None => answers::plainly(t, Outcome::No),
    }
}

// Conditional wait: as wait if the value is above 0. (A call of `waited` was tried: it copies the tables once more.)
#[tactic(auto, unfolding(crate::specs::Semaphores::conditionally_waited, crate::specs::Semaphores::waited, crate::specs::Semaphores::waited_at))]
pub fn conditionally_waited(t: Tables, n: u8) -> Step
    ensures { result ≡ conditionally_waited n t }
{
    let kind = kind_of(&t, n);
    if t.running == 0 || value_of(kind) == 0 {
        return answers::plainly(t, Outcome::No);
    }
    answers::plainly(with_kind(t, n, lowered(kind)), Outcome::Done)
}

// With a line its head is released and the value stays; with none the value rises.
#[tactic(auto, unfolding(crate::specs::Semaphores::signalled_at, crate::specs::Semaphores::has_line, ready::specs::Ready::let_through))]
fn signalled_at(t: Tables, n: u8, kind: Kind) -> Tables
    ensures { result ≡ signalled_at n t kind }
{
    match tables::head_of(&t, Line::Semaphore(n)) {
        Some(p) => ready::released(t, p),
        None => with_kind(t, n, raised(kind)),
    }
}

// Signal.
#[tactic(auto, unfolding(crate::specs::Semaphores::signalled))]
pub fn signalled(t: Tables, n: u8) -> Step
    ensures { result ≡ signalled n t }
{
    match semaphore_at(&t, n) {
        Some(kind) => answers::plainly(signalled_at(t, n, kind), Outcome::Done),
        None => answers::plainly(t, Outcome::No),
    }
}

// Conditional signal: as signal if there is a line. (A call of `signalled` was tried: it looks for the head once more.)
#[tactic(auto, unfolding(crate::specs::Semaphores::conditionally_signalled, crate::specs::Semaphores::signalled, crate::specs::Semaphores::signalled_at, crate::specs::Semaphores::has_line, ready::specs::Ready::let_through))]
pub fn conditionally_signalled(t: Tables, n: u8) -> Step
    ensures { result ≡ conditionally_signalled n t }
{
    let Some(p) = tables::head_of(&t, Line::Semaphore(n)) else {
        return answers::plainly(t, Outcome::No);
    };
    if !tables::is_semaphore(kind_of(&t, n)) {
        return answers::plainly(t, Outcome::No);
    }
    answers::plainly(ready::released(t, p), Outcome::Done)
}

// Those of them who are somebody are released in order, and the answer says how many.
#[tactic(auto, using(crate::proofs::Laws::released_somebody), unfolding(crate::specs::Semaphores::all_released))]
fn all_released(t: Tables, members: [u8; 32]) -> Step
    ensures { result ≡ all_released (keep somebody members) t }
{
    Step {
        tables: ready::released_all(t, members),
        answer: answers::with_numbers(Outcome::Done, count_of(members), 0, 0),
    }
}

// Signal all: the whole line is released.
#[tactic(auto, using(crate::proofs::Laws::somebody_padded), unfolding(crate::specs::Semaphores::all_signalled))]
pub fn all_signalled(t: Tables, n: u8) -> Step
    ensures { result ≡ all_signalled n t }
{
    if !tables::is_semaphore(kind_of(&t, n)) {
        return answers::plainly(t, Outcome::No);
    }
    all_released(t, tables::line_of(&t, Line::Semaphore(n)))
}
