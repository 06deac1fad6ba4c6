// The ready line: who joins it, who is released into it, and who of it runs.
#![tactic(auto)]

ghost use Rattle.std.specs.Prelude.{◌≡◌};
ghost use Rattle.arrivals.specs.Order.{first};
ghost use Rattle.tables.specs.Lines.{ready_line};
ghost use Rattle.ready.specs.Ready.{
  placed,
  with_place,
  joins,
  runner_joins,
  released_to,
  released,
  released_all,
  runs,
  ahead_of_runner,
  dispatched,
};

use tables::{Place, Process, Tables};

// The process in another place.
pub fn placed(process: Process, place: Place) -> Process
    ensures { result ≡ placed process place }
{
    Process { place, ..process }
}

// Process p goes to another place; its position in the order stays.
#[tactic(auto, unfolding(crate::specs::Ready::with_place, tables::specs::Access::with_process, tables::specs::Access::process_of))]
fn put(t: &mut Tables, p: u8, place: Place)
    ensures { t.new ≡ with_place t.old p place }
{
    let process = tables::process_at(t, p);
    tables::replace(&mut t.processes, p, placed(process, place));
}

// Process p joins a line: it takes the line's place and is the last to have arrived. Nobody joins no line.
#[tactic(auto, unfolding(crate::specs::Ready::joins, crate::specs::Ready::with_place, tables::specs::Access::with_process))]
fn join(t: &mut Tables, p: u8, place: Place)
    ensures { t.new ≡ joins p place t.old }
{
    if p != 0 {
        put(t, p, place);
        t.order = arrivals::moved_last(t.order, p);
    }
}

// Process p runs.
#[tactic(auto, unfolding(crate::specs::Ready::runs))]
fn run(t: &mut Tables, p: u8)
    ensures { t.new ≡ runs p t.old }
{
    put(t, p, Place::Running);
    t.running = p;
}

// The tables after process p joined a line. This and those below are by value, over the changes in place: their
// clauses, as `joins`, are equations of the result, and so are those of the steps.
pub fn joins(mut t: Tables, p: u8, place: Place) -> Tables
    ensures { result ≡ joins p place t }
{
    join(&mut t, p, place);
    t
}

// The runner joins a line, and nobody runs.
#[tactic(auto, unfolding(crate::specs::Ready::runner_joins))]
pub fn runner_joins(mut t: Tables, place: Place) -> Tables
    ensures { result ≡ runner_joins place t }
{
    let runner = t.running;
    join(&mut t, runner, place);
    t.running = 0;
    t
}

// Where a process goes that is released: to the ready line, or to the parked line if suspended.
fn released_to(suspended: bool) -> Place
    ensures { result ≡ released_to suspended }
{
    if suspended {
        Place::Parked
    } else {
        Place::Ready
    }
}

// The process, released.
pub fn released_process(process: Process) -> Process
    ensures { result ≡ placed process (released_to process.suspended) }
{
    placed(process, released_to(process.suspended))
}

// Process p is released.
#[tactic(auto, unfolding(crate::specs::Ready::released, tables::specs::Access::process_of))]
fn release(t: &mut Tables, p: u8)
    ensures { t.new ≡ released p t.old }
{
    let process = tables::process_at(t, p);
    join(t, p, released_to(process.suspended));
}

// The tables after process p was released.
pub fn released(mut t: Tables, p: u8) -> Tables
    ensures { result ≡ released p t }
{
    release(&mut t, p);
    t
}

// These processes are released, one after the other.
pub fn released_all(mut t: Tables, members: [u8; 32]) -> Tables
    ensures { result ≡ released_all members t }
{
    for p in members {
        release(&mut t, p);
    }
    t
}

// The tables after process p runs.
pub fn runs(mut t: Tables, p: u8) -> Tables
    ensures { result ≡ runs p t }
{
    run(&mut t, p);
    t
}

// The head of the ready line, if it goes before the runner: nobody runs, or the head is strictly more urgent.
#[tactic(auto, unfolding(crate::specs::Ready::goes, tables::specs::Access::process_of))]
fn newcomer(t: &Tables) -> Option<u8>
    ensures { result ≡ ahead_of_runner (first (ready_line t.now)) t.now }
{
    let head = tables::ready_head(t)?;
    if t.running == 0 {
        return Some(head);
    }
    let processes = &t.processes;
    let runner = tables::numbered(processes, t.running, tables::nobody());
    let newcomer = tables::numbered(processes, head, tables::nobody());
    if newcomer.priority <= runner.priority {
        return None;
    }
    Some(head)
}

// Once at the end of every accepted call: nobody runs and a head is there: it runs; the head is strictly more urgent than
// the runner: the runner goes to the ready line behind its equals and the head runs.
pub fn dispatched(mut t: Tables) -> Tables
    ensures { result ≡ dispatched t }
{
    if let Some(head) = newcomer(&t) {
        let runner = t.running;
        join(&mut t, runner, Place::Ready);
        run(&mut t, head);
    }
    t
}
