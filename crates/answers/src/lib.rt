// What a step gives: the tables after it, and the answer.
#![tactic(auto)]

ghost use Rattle.std.specs.Prelude.{◌≡◌, replicate};
ghost use Rattle.answers.specs.Answers.{answer, plain, step, outcome_number};

use tables::Tables;

// Done, not performed, or the caller now waits or sleeps.
#[derive(Clone, Copy)]
pub enum Outcome {
    Done,
    No,
    Waits,
}

// An answer: the outcome, and the reply's number N, small field L, amount M and data.
#[derive(Clone, Copy)]
pub struct Answer {
    pub outcome: Outcome,
    pub n: u8,
    pub l: u8,
    pub m: u32,
    pub bytes: [u8; 64],
}

// The tables after a step, and its answer.
#[derive(Clone, Copy)]
pub struct Step {
    pub tables: Tables,
    pub answer: Answer,
}

// Document 01's number of an outcome.
impl From<Outcome> for u8 {
    ghost from_gives = { λ outcome r. r ≡ outcome_number outcome };

    fn from(outcome: Outcome) -> u8 {
        match outcome {
            Outcome::Done => 0,
            Outcome::No => 1,
            Outcome::Waits => 2,
        }
    }
}

// An answer with no data.
pub fn with_numbers(outcome: Outcome, n: u8, l: u8, m: u32) -> Answer
    ensures { result ≡ answer outcome n l m (replicate 64 0) }
{
    Answer {
        outcome,
        n,
        l,
        m,
        bytes: [0; 64],
    }
}

// These tables, and an answer that is the outcome alone.
pub fn plainly(t: Tables, outcome: Outcome) -> Step
    ensures { result ≡ step t (plain outcome) }
{
    Step {
        tables: t,
        answer: with_numbers(outcome, 0, 0, 0),
    }
}
