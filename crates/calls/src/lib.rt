// The call table: what each request is, who may make it, and what each of its fields must be.
#![tactic(auto)]

ghost use Rattle.std.specs.Prelude.{◌≡◌};
ghost use Rattle.calls.specs.Calls.{
  uses_nothing,
  uses_n,
  uses_nl,
  uses_lm,
  uses_nl_and_data,
  row_of,
  is_unknown,
  allowed,
  moves_bytes,
};

// What a request asks for. Unknown stays among the deeds: `row_of` of Calls has a row for every number, and `done` of Steps,
// `call_known` and `done_steady` speak of that row's deed for every request.
#[derive(Clone, Copy)]
pub enum Deed {
    Unknown,
    Tick,
    CreateProcess,
    DeleteMyself,
    Suspend,
    Resume,
    ChangePriority,
    Schedule,
    ProcessState,
    Sleep,
    CreateStructure,
    DeleteStructure,
    StructureValue,
    Signal,
    ConditionalSignal,
    SignalAll,
    Wait,
    ConditionalWait,
    Put,
    ConditionalPut,
    Get,
    ConditionalGet,
    ResetRing,
    Collect,
}

// Who may make a request: P a process only, B the board only, E either. An unknown request nobody may make: Nobody stays
// among the callers, as `unknown` and `is_unknown` of Calls, which `unknown_numbers` is about, name it.
#[derive(Clone, Copy, PartialEq, Eq)]
pub enum Callers {
    Nobody,
    Process,
    Board,
    Either,
}

// What the number N is. Here and below a field that is not used is a case of its own, as the call table has it (`number_fits`,
// `small_fits`, `amount_fits` and `data_fit` of Refusals speak of it), and no `None`.
#[derive(Clone, Copy, PartialEq, Eq)]
pub enum Number {
    Unused,
    Process,
    Structure,
    Semaphore,
    Ring,
}

// What the small field L is.
#[derive(Clone, Copy)]
pub enum Small {
    Unused,
    Priority,
    Kind,
    Length,
}

// What the amount M is; a start value or size goes by the kind in L.
#[derive(Clone, Copy)]
pub enum Amount {
    Unused,
    Milliseconds,
    StartOrSize,
}

// What the data are: unused, or as many bytes as the length in L says.
#[derive(Clone, Copy)]
pub enum Data {
    Unused,
    UpToLength,
}

// A line of the call table.
#[derive(Clone, Copy)]
pub struct Row {
    pub deed: Deed,
    pub callers: Callers,
    pub n: Number,
    pub l: Small,
    pub m: Amount,
    pub bytes: Data,
}

// A request that uses no field.
fn uses_nothing(deed: Deed, callers: Callers) -> Row
    ensures { result ≡ uses_nothing deed callers }
{
    Row {
        deed,
        callers,
        n: Number::Unused,
        l: Small::Unused,
        m: Amount::Unused,
        bytes: Data::Unused,
    }
}

// A request that uses N alone.
fn uses_n(deed: Deed, callers: Callers, n: Number) -> Row
    ensures { result ≡ uses_n deed callers n }
{
    Row {
        n,
        ..uses_nothing(deed, callers)
    }
}

// A request that uses N and L.
fn uses_nl(deed: Deed, callers: Callers, n: Number, l: Small) -> Row
    ensures { result ≡ uses_nl deed callers n l }
{
    Row {
        l,
        ..uses_n(deed, callers, n)
    }
}

// A request that uses L and M.
fn uses_lm(deed: Deed, callers: Callers, l: Small, m: Amount) -> Row
    ensures { result ≡ uses_lm deed callers l m }
{
    Row {
        l,
        m,
        ..uses_nothing(deed, callers)
    }
}

// A request that uses N, L and data.
fn uses_nl_and_data(deed: Deed, callers: Callers, n: Number, l: Small) -> Row
    ensures { result ≡ uses_nl_and_data deed callers n l }
{
    Row {
        bytes: Data::UpToLength,
        ..uses_nl(deed, callers, n, l)
    }
}

// The call table: what the request with this number is.
#[tactic(auto, using(crate::specs::Laws::unknown_above), unfolding(crate::specs::Calls::table, crate::specs::Calls::row_in, crate::specs::Calls::row_of))]
pub fn row_of(call: u8) -> Row
    ensures { result ≡ row_of call }
{
    match call {
        1 => uses_nothing(Deed::Tick, Callers::Board),
        2 => uses_nl(
            Deed::CreateProcess,
            Callers::Either,
            Number::Unused,
            Small::Priority,
        ),
        3 => uses_nothing(Deed::DeleteMyself, Callers::Process),
        4 => uses_n(Deed::Suspend, Callers::Process, Number::Process),
        5 => uses_n(Deed::Resume, Callers::Either, Number::Process),
        6 => uses_nl(
            Deed::ChangePriority,
            Callers::Process,
            Number::Process,
            Small::Priority,
        ),
        7 => uses_nothing(Deed::Schedule, Callers::Process),
        8 => uses_n(Deed::ProcessState, Callers::Either, Number::Process),
        9 => uses_lm(
            Deed::Sleep,
            Callers::Process,
            Small::Unused,
            Amount::Milliseconds,
        ),
        10 => uses_lm(
            Deed::CreateStructure,
            Callers::Either,
            Small::Kind,
            Amount::StartOrSize,
        ),
        11 => uses_n(Deed::DeleteStructure, Callers::Either, Number::Structure),
        12 => uses_n(Deed::StructureValue, Callers::Either, Number::Structure),
        13 => uses_n(Deed::Signal, Callers::Either, Number::Semaphore),
        14 => uses_n(Deed::ConditionalSignal, Callers::Either, Number::Semaphore),
        15 => uses_n(Deed::SignalAll, Callers::Either, Number::Semaphore),
        16 => uses_n(Deed::Wait, Callers::Process, Number::Semaphore),
        17 => uses_n(Deed::ConditionalWait, Callers::Process, Number::Semaphore),
        18 => uses_nl_and_data(Deed::Put, Callers::Process, Number::Ring, Small::Length),
        19 => uses_nl_and_data(
            Deed::ConditionalPut,
            Callers::Either,
            Number::Ring,
            Small::Length,
        ),
        20 => uses_nl(Deed::Get, Callers::Process, Number::Ring, Small::Length),
        21 => uses_nl(
            Deed::ConditionalGet,
            Callers::Process,
            Number::Ring,
            Small::Length,
        ),
        22 => uses_n(Deed::ResetRing, Callers::Either, Number::Ring),
        23 => uses_nothing(Deed::Collect, Callers::Process),
        0 | 24..=255 => uses_nothing(Deed::Unknown, Callers::Nobody),
    }
}

// Is it the row of no request? Nobody may make such a one.
pub fn is_unknown(row: Row) -> bool
    ensures { result ≡ is_unknown row }
{
    row.callers == Callers::Nobody
}

// May this caller, 0 the board or 1 the running process, make the request? The caller stays the request's byte, of which
// `allowed` of Calls speaks: an enum made from it would be asked about once, here, and be no plainer.
pub fn is_allowed(callers: Callers, caller: u8) -> bool
    ensures { result ≡ allowed callers caller }
{
    matches!(
        (callers, caller),
        (Callers::Board, 0) | (Callers::Process, 1) | (Callers::Either, 0..=1)
    )
}

// Does a request's deed change what rings and parcels hold?
#[tactic(auto, unfolding(crate::specs::Calls::moves_bytes))]
pub fn moves_bytes(deed: Deed) -> bool
    ensures { result ≡ moves_bytes deed }
{
    matches!(
        deed,
        Deed::DeleteMyself
            | Deed::CreateStructure
            | Deed::DeleteStructure
            | Deed::Put
            | Deed::ConditionalPut
            | Deed::Get
            | Deed::ConditionalGet
            | Deed::ResetRing
            | Deed::Collect
    )
}
