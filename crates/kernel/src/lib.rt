// What the board calls: three functions on buffers that it lends. The crate kernel_c has them once more, for C.
#![tactic(auto)]

ghost use Rattle.std.specs.Prelude.{◌≡◌};
ghost use Rattle.layout.specs.Layout.{state_length};
ghost use Rattle.records.specs.Records.{reply, written_to};
ghost use Rattle.answers.specs.Answers.{outcome_number};
ghost use Rattle.calls.specs.Calls.{moves_bytes};
ghost use Rattle.layout.specs.Typed.{Typed};
ghost use Rattle.steps.specs.Steps.{replied};
ghost use Rattle.kernel.specs.Called.{Called, fresh_code, fresh_state, refusal_reply};
ghost use Rattle.kernel.specs.Stored.{stored};

use answers::{Answer, Outcome, Step};
use calls::Deed;
use records::Record;
use rings::Form;

// How many bytes a state has.
pub fn brombeertor_state_length() -> usize
    ensures { result ≡ state_length }
{
    layout::LENGTH
}

// Makes a fresh state: 0, and all bytes zero; of the wrong length 40, and nothing changes.
#[tactic(auto, unfolding(crate::specs::Called::fresh_code, crate::specs::Called::fresh_state))]
pub fn brombeertor_fresh(state: &mut [u8]) -> u32
    ensures { (result ≡ fresh_code state.old) × (state.new ≡ fresh_state state.old) }
{
    if state.len() != layout::LENGTH {
        return 40;
    }
    state.fill(0);
    0
}

// A refusal's reply: the code, the running process, and zeros.
fn refusal_reply(code: u8, running: u8) -> Record
    ensures { result ≡ refusal_reply code running }
{
    Record {
        what: code,
        who: running,
        n: 0,
        l: 0,
        m: 0,
        bytes: [0; 64],
    }
}

// Nothing is done: the reply says so, and the code is returned.
fn refused(answer: &mut [u8], code: u8, running: u8) -> u32
    ensures code { result ≡ code }
    ensures answer { answer.new ≡ written_to answer.old (refusal_reply code running) }
{
    records::write(answer, refusal_reply(code, running));
    code.into()
}

// The state is not sound: nobody runs. 39 and 40 stay numbers, as `Called` and `fresh_code` name them: they are given by the
// functions that C calls alone, and asked for nowhere here.
fn not_sound(answer: &mut [u8]) -> u32
    ensures code { result ≡ 40 }
    ensures answer { answer.new ≡ written_to answer.old (refusal_reply 40 0) }
{
    refused(answer, 40, 0)
}

// An accepted call's reply: what the step answered, and who runs now.
fn reply_of(said: Answer, running: u8) -> Record
    ensures { result ≡ reply (outcome_number said.outcome) running said.n said.l said.m said.bytes }
{
    let Answer {
        outcome,
        n,
        l,
        m,
        bytes,
    } = said;
    Record {
        what: outcome.into(),
        who: running,
        n,
        l,
        m,
        bytes,
    }
}

// The end of an accepted call: whoever is due runs, and the reply and the state are written. What rings and parcels hold is
// written only where the deed moves bytes.
#[tactic(auto, unfolding(steps::specs::Steps::replied, steps::specs::Steps::replied_by, crate::specs::Stored::stored))]
fn finished(state: &mut [u8], answer: &mut [u8], step: Step, deed: Deed) -> u32
    ensures code { result ≡ (replied step).reply.what }
    ensures state { state.new ≡ stored (moves_bytes deed) state.old (replied step).tables }
    ensures answer { answer.new ≡ written_to answer.old (replied step).reply }
    ensures typed { Typed (replied step).tables }
{
    let next = ready::dispatched(step.tables);
    let reply = reply_of(step.answer, next.running);
    records::write(answer, reply);
    layout::write_control(
        state,
        next.running,
        next.order,
        next.processes,
        next.structures,
    );
    if calls::moves_bytes(deed) {
        layout::write_bytes(state, next.rings, next.parcels);
    }
    reply.what.into()
}

// Carries out a request on a state: the code is returned and stands in the reply. The match on the deed stands in the
// function that owns the tables: tried in one between, even inlined, it copied them once more (a fifth more time a call).
pub fn brombeertor_call(state: &mut [u8], request: &[u8], answer: &mut [u8]) -> u32
    ensures { Called state.old request.now answer.old result state.new answer.new }
{
    if request.len() != records::LENGTH || answer.len() != records::LENGTH {
        return 39;
    }
    if !layout::is_state(state) {
        return not_sound(answer);
    }
    let t = layout::read(state);
    if !sound::sound(t) {
        return not_sound(answer);
    }
    let r = records::read(request);
    let checked = refusals::check(t, r);
    if let Err(refusal) = checked {
        return refused(answer, refusal.into(), t.running);
    }
    let deed = calls::row_of(r.what).deed;
    let step = match deed {
        Deed::Unknown => answers::plainly(t, Outcome::No),
        Deed::Tick => processes::ticked(t, 1),
        Deed::CreateProcess => processes::created(t, r.l),
        Deed::DeleteMyself => processes::deleted_myself(t),
        Deed::Suspend => processes::suspended(t, r.n),
        Deed::Resume => processes::resumed(t, r.n),
        Deed::ChangePriority => processes::prioritised(t, r.n, r.l),
        Deed::Schedule => processes::scheduled(t),
        Deed::ProcessState => processes::stated(t, r.n),
        Deed::Sleep => processes::slept(t, r.m),
        Deed::CreateStructure => structures::created(t, r.l, r.m),
        Deed::DeleteStructure => structures::deleted(t, r.n),
        Deed::StructureValue => structures::valued(t, r.n),
        Deed::Signal => semaphores::signalled(t, r.n),
        Deed::ConditionalSignal => semaphores::conditionally_signalled(t, r.n),
        Deed::SignalAll => semaphores::all_signalled(t, r.n),
        Deed::Wait => semaphores::waited(t, r.n),
        Deed::ConditionalWait => semaphores::conditionally_waited(t, r.n),
        Deed::Put => rings::put_in(t, r.n, r.l, r.bytes, Form::Waiting),
        Deed::ConditionalPut => rings::put_in(t, r.n, r.l, r.bytes, Form::Conditional),
        Deed::Get => rings::got(t, r.n, r.l, Form::Waiting),
        Deed::ConditionalGet => rings::got(t, r.n, r.l, Form::Conditional),
        Deed::ResetRing => rings::reset_ring(t, r.n),
        Deed::Collect => rings::collected(t),
    };
    finished(state, answer, step, deed)
}
