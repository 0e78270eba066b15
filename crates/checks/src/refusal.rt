// How a call is refused.
ghost use Rattle.std.specs.Prelude.{◌≡◌};
ghost use Rattle.checks.specs.Refusals.{refusal_answer, outcome_of};

use types::{Answer, Outcome};

// Why the tests on entry refuse a call. Not an answer, which is longer: every call would keep room for two of them on its stack.
#[derive(Clone, Copy)]
pub enum Refusal {
    Malformed,
    OutOfRange,
    WrongState(u8),
    CountersFull(u8),
    ReplayDiffers(u8),
    WrongCells,
    HasRecords,
    SameBoard,
}

impl From<Refusal> for Answer {
    ghost from_gives = { λ r a. a ≡ refusal_answer r };

    fn from(refusal: Refusal) -> Answer {
        match refusal {
            Refusal::Malformed => Answer::Malformed,
            Refusal::OutOfRange => Answer::OutOfRange,
            Refusal::WrongState(board) => Answer::WrongState(board),
            Refusal::CountersFull(board) => Answer::CountersFull(board),
            Refusal::ReplayDiffers(board) => Answer::ReplayDiffers(board),
            Refusal::WrongCells => Answer::WrongCells,
            Refusal::HasRecords => Answer::HasRecords,
            Refusal::SameBoard => Answer::SameBoard,
        }
    }
}

// A refusal makes no store, whatever it answers.
pub fn refuse(answer: Answer) -> Outcome
    ensures { result ≡ record { answer = answer; stores = 0 } }
{
    Outcome { answer, stores: 0 }
}

impl From<Refusal> for Outcome {
    ghost from_gives = { λ r o. o ≡ record { answer = refusal_answer r; stores = 0 } };

    fn from(refusal: Refusal) -> Outcome {
        refuse(Answer::from(refusal))
    }
}

// What a call answers, refused or not.
pub fn answered(called: Result<Outcome, Refusal>) -> Outcome
    ensures { result ≡ outcome_of called }
{
    match called {
        Ok(outcome) => outcome,
        Err(refusal) => Outcome::from(refusal),
    }
}
