// The process calls: create, delete, suspend, resume, change priority, schedule, state, sleep, and the tick.
// Each says what a request does once it is accepted; where none could be, the tables stay as they are. That nobody runs is
// told by an early return in each step that asks for a runner: a helper with a closure would be no shorter.
#![tactic(auto)]

ghost use Rattle.std.specs.Prelude.{◌≡◌, ◌==◌, map, position, filter};
ghost use Rattle.std.specs.List.{list_any};
ghost use Rattle.answers.specs.Answers.{plain, step};
ghost use Rattle.tables.specs.declared.Place.TheVariants.{Ready};
ghost use Rattle.tables.specs.declared.Line.TheVariants as lines;
ghost use Rattle.tables.specs.Lines.{standing};
ghost use Rattle.tables.specs.Numbers.{somebody};
ghost use Rattle.tables.specs.Access.{nobody, numbered, with_process};
ghost use Rattle.answers.specs.declared.Outcome.TheVariants.{Done};
ghost use Rattle.ready.specs.Ready.{joins};
ghost use Rattle.processes.specs.Processes.{
  is_free,
  free_in,
  newcomer,
  created,
  gone,
  deleted_myself,
  suspended,
  resumed,
  prioritised,
  priority_of,
  ready_has,
  scheduled,
  stated,
  slept,
  fallen,
  later,
  all_later,
  is_due,
  due_of,
  or_nobody,
  due_released,
  ticked,
};

use answers::{Outcome, Step};
use tables::{Line, Place, Process, Tables};

// Is this number free?
#[tactic(auto, unfolding(crate::specs::Processes::is_free))]
fn is_free(process: Process) -> bool
    ensures { result ≡ is_free process }
{
    matches!(process.place, Place::Nowhere)
}

// The process with number p, or nobody.
fn numbered(processes: &[Process; 32], p: u8) -> Process
    ensures { result ≡ numbered processes.now p nobody }
{
    tables::numbered(processes, p, tables::nobody())
}

// Where the first free process stands.
fn first_free(processes: &[Process; 32]) -> Option<usize>
    ensures { result ≡ position is_free processes.now }
{
    processes.iter().position(|process| is_free(*process))
}

// The lowest free number.
pub fn free_process(processes: [Process; 32]) -> Option<u8>
    ensures { result ≡ somebody (free_in processes) }
{
    let i = first_free(&processes)?;
    Some(i as u8 + 1)
}

// A new process.
fn newcomer(priority: u8) -> Process
    ensures { result ≡ newcomer priority }
{
    Process {
        priority,
        suspended: false,
        place: Place::Ready,
    }
}

// Create process: it takes the lowest free number and joins the ready line.
#[tactic(auto, unfolding(crate::specs::Processes::created, crate::specs::Processes::created_as, crate::specs::Processes::free_process))]
pub fn created(t: Tables, priority: u8) -> Step
    ensures { result ≡ created priority t }
{
    let Some(p) = free_process(t.processes) else {
        return answers::plainly(t, Outcome::No);
    };
    let mut next = tables::with_process(t, p, newcomer(priority));
    next.order = arrivals::joined(t.order, p);
    Step {
        tables: next,
        answer: answers::with_numbers(Outcome::Done, p, 0, 0),
    }
}

// Process p is nobody again, its parcel is empty, and the order lists it no more.
#[tactic(auto, unfolding(crate::specs::Processes::gone))]
fn gone(t: Tables, p: u8) -> Tables
    ensures { result ≡ gone p t }
{
    let freed = tables::with_process(t, p, tables::nobody());
    let mut next = tables::with_parcel(freed, p, bay::empty_parcel());
    next.order = arrivals::deleted(t.order, p);
    next
}

// Delete myself: the runner is gone, and nobody runs.
#[tactic(auto, unfolding(crate::specs::Processes::deleted_myself))]
pub fn deleted_myself(t: Tables) -> Step
    ensures { result ≡ deleted_myself t }
{
    if t.running == 0 {
        return answers::plainly(t, Outcome::No);
    }
    let mut next = gone(t, t.running);
    next.running = 0;
    answers::plainly(next, Outcome::Done)
}

// Process p anew, in its position.
fn in_place(t: Tables, p: u8, process: Process) -> Step
    ensures { result ≡ step (with_process t p process) (plain Done) }
{
    answers::plainly(tables::with_process(t, p, process), Outcome::Done)
}

// Process p anew, and it joins the line of those in this place.
fn joins_anew(t: Tables, p: u8, process: Process, place: Place) -> Tables
    ensures { result ≡ joins p place (with_process t p process) }
{
    ready::joins(tables::with_process(t, p, process), p, place)
}

// Suspend process p: running or ready goes to the end of the parked line; waiting or asleep is marked and keeps its position.
#[tactic(auto, unfolding(crate::specs::Processes::suspended, crate::specs::Processes::suspended_of, crate::specs::Processes::suspended_from, crate::specs::Processes::parked))]
pub fn suspended(t: Tables, p: u8) -> Step
    ensures { result ≡ suspended p t }
{
    let process = tables::process_at(&t, p);
    if process.suspended {
        return answers::plainly(t, Outcome::No);
    }
    let marked = Process {
        suspended: true,
        ..process
    };
    match process.place {
        Place::Nowhere | Place::Parked => answers::plainly(t, Outcome::No),
        Place::Running => {
            let mut next = joins_anew(t, p, marked, Place::Parked);
            next.running = 0;
            answers::plainly(next, Outcome::Done)
        }
        Place::Ready => answers::plainly(joins_anew(t, p, marked, Place::Parked), Outcome::Done),
        Place::Waiting(_) | Place::Getting(_, _) | Place::Putting(_, _) | Place::Asleep(_) => {
            in_place(t, p, marked)
        }
    }
}

// Resume process p: a parked one joins the ready line; waiting or asleep keeps its position.
#[tactic(auto, unfolding(crate::specs::Processes::resumed, crate::specs::Processes::resumed_of, crate::specs::Processes::resumed_from))]
pub fn resumed(t: Tables, p: u8) -> Step
    ensures { result ≡ resumed p t }
{
    let process = tables::process_at(&t, p);
    if !process.suspended {
        return answers::plainly(t, Outcome::No);
    }
    let marked = Process {
        suspended: false,
        ..process
    };
    match process.place {
        Place::Nowhere | Place::Running | Place::Ready => answers::plainly(t, Outcome::No),
        Place::Parked => answers::plainly(joins_anew(t, p, marked, Place::Ready), Outcome::Done),
        Place::Waiting(_) | Place::Getting(_, _) | Place::Putting(_, _) | Place::Asleep(_) => {
            in_place(t, p, marked)
        }
    }
}

// Change the priority of process p: a ready process is moved behind its new equals; others only get the new number. To the
// present value changes nothing.
#[tactic(auto, unfolding(crate::specs::Processes::prioritised, crate::specs::Processes::prioritised_of, crate::specs::Processes::prioritised_from, crate::specs::Processes::is_free))]
pub fn prioritised(t: Tables, p: u8, priority: u8) -> Step
    ensures { result ≡ prioritised p priority t }
{
    let process = tables::process_at(&t, p);
    if is_free(process) {
        return answers::plainly(t, Outcome::No);
    }
    if process.priority == priority {
        return answers::plainly(t, Outcome::Done);
    }
    let anew = Process {
        priority,
        ..process
    };
    match process.place {
        Place::Ready => answers::plainly(joins_anew(t, p, anew, Place::Ready), Outcome::Done),
        _ => in_place(t, p, anew),
    }
}

// The priority of process p, 0 of nobody.
fn priority_of(processes: &[Process; 32], p: u8) -> u8
    ensures { result ≡ priority_of processes.now p }
{
    numbered(processes, p).priority
}

// Has one of the order who is ready this priority?
fn any_ready(order: &[u8; 32], processes: &[Process; 32], priority: u8) -> bool
    ensures { result ≡ list_any (λ x. priority_of processes.now x == priority) (filter (standing lines.Ready processes.now) order.now) }
{
    order
        .iter()
        .filter(|x| tables::stands(processes, **x, Line::Ready))
        .any(|x| priority_of(processes, *x) == priority)
}

// Has a ready process this priority?
fn ready_has(t: Tables, priority: u8) -> bool
    ensures { result ≡ ready_has priority t }
{
    any_ready(&t.order, &t.processes, priority)
}

// Schedule: if a ready process has the caller's priority, the caller goes behind its equals and the head runs.
#[tactic(auto, using(crate::proofs::Laws::head_runs_next), unfolding(crate::specs::Processes::scheduled))]
pub fn scheduled(t: Tables) -> Step
    ensures { result ≡ scheduled t }
{
    if t.running == 0 {
        return answers::plainly(t, Outcome::No);
    }
    let caller = tables::process_at(&t, t.running);
    if !ready_has(t, caller.priority) {
        return answers::plainly(t, Outcome::Done);
    }
    let behind = ready::runner_joins(t, Place::Ready);
    answers::plainly(ready::dispatched(behind), Outcome::Done)
}

// The state of process p: the structure waited at or 0, the priority, and the place code.
#[tactic(auto, unfolding(crate::specs::Processes::stated, crate::specs::Processes::stated_of))]
pub fn stated(t: Tables, p: u8) -> Step
    ensures { result ≡ stated p t }
{
    let process = tables::process_at(&t, p);
    if is_free(process) {
        return answers::plainly(t, Outcome::No);
    }
    let spot = tables::spot_of(process.place);
    let code = u32::from(tables::place_code(process));
    Step {
        tables: t,
        answer: answers::with_numbers(Outcome::Done, spot, process.priority, code),
    }
}

// Sleep: the caller joins the sleepers. Sleep 0 changes nothing.
#[tactic(auto, unfolding(crate::specs::Processes::slept))]
pub fn slept(t: Tables, milliseconds: u32) -> Step
    ensures { result ≡ slept milliseconds t }
{
    if t.running == 0 {
        return answers::plainly(t, Outcome::No);
    }
    if milliseconds == 0 {
        return answers::plainly(t, Outcome::Done);
    }
    answers::plainly(
        ready::runner_joins(t, Place::Asleep(milliseconds)),
        Outcome::Waits,
    )
}

// A place k milliseconds later: a sleeper's remainder falls by k, to no less than 0.
fn fallen(place: Place, k: u32) -> Place
    ensures { result ≡ fallen k place }
{
    match place {
        Place::Asleep(m) => Place::Asleep(m.saturating_sub(k)),
        _ => place,
    }
}

// A process k milliseconds later.
fn later(process: Process, k: u32) -> Process
    ensures { result ≡ later k process }
{
    ready::placed(process, fallen(process.place, k))
}

// Every sleeper's remainder falls by k.
#[tactic(auto, unfolding(crate::specs::Processes::all_later))]
fn all_later(mut t: Tables, k: u32) -> Tables
    ensures { result ≡ all_later k t }
{
    for process in &mut t.processes {
        *process = later(*process, k);
    }
    t
}

// Is this a sleeper whose remainder is 0?
#[tactic(auto, unfolding(crate::specs::Processes::is_due))]
fn is_due(place: Place) -> bool
    ensures { result ≡ is_due place }
{
    matches!(place, Place::Asleep(0))
}

// x if it is due, else nobody: 0, as `ready::released_all` takes its 32 numbers.
fn if_due(processes: &[Process; 32], x: u8) -> u8
    ensures { result ≡ or_nobody (due_of processes.now) x }
{
    if is_due(numbered(processes, x).place) {
        return x;
    }
    0
}

// Those who are due, in the order, with nobody in place of the others.
fn due_in(t: Tables) -> [u8; 32]
    ensures { result ≡ map (or_nobody (due_of t.processes)) t.order }
{
    let mut members = t.order;
    for x in &mut members {
        *x = if_due(&t.processes, *x);
    }
    members
}

// Those who are due are released, in the order they went to sleep.
fn due_released(t: Tables) -> Tables
    ensures { result ≡ due_released t }
{
    ready::released_all(t, due_in(t))
}

// k milliseconds pass: every sleeper's remainder falls, and those at 0 are released. A tick is k = 1.
#[tactic(auto, unfolding(crate::specs::Processes::ticked))]
pub fn ticked(t: Tables, k: u32) -> Step
    ensures { result ≡ ticked k t }
{
    let next = all_later(t, k);
    answers::plainly(due_released(next), Outcome::Done)
}
