// An answer as the documents' numbers, a row for each case.
ghost use Rattle.std.specs.Prelude.{◌≡◌};
ghost use Rattle.model.specs.Definitions.Answers.{numbers_of};

use types::{Answer, AnswerNumbers};

fn row(code: u8, value: u32, who: u8) -> AnswerNumbers
    ensures { result ≡ record { code = code; value = value; who = who } }
{
    AnswerNumbers { code, value, who }
}

// No `From`: both types are those of `types`, and the documents' numbers are defined above it.
pub fn numbers_of(answer: Answer) -> AnswerNumbers
    ensures { result ≡ numbers_of answer }
{
    match answer {
        Answer::Done(value) => row(0, value, 0),
        Answer::Malformed => row(1, 0, 0),
        Answer::OutOfRange => row(2, 0, 0),
        Answer::WrongState(board) => row(3, 0, board),
        Answer::CountersFull(board) => row(4, 0, board),
        Answer::ReplayDiffers(board) => row(5, 0, board),
        Answer::OwnerNotUp(board) => row(6, 0, board),
        Answer::LogFull(board) => row(7, 0, board),
        Answer::PowerLost(board) => row(8, 0, board),
        Answer::WrongCells => row(10, 0, 0),
        Answer::HasRecords => row(11, 0, 0),
        Answer::Compared(place, board) => row(0, place, board),
        Answer::SameBoard => row(12, 0, 0),
    }
}
