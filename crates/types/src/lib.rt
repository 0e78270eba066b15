// The structs and enums that go by value through the engine, and that the definitions of `model` speak of.
#![tactic(auto)]

ghost use Rattle.std.specs.Prelude.{◌≡◌};
ghost use Rattle.types.specs.Bytes.{right_byte, right_of, state_byte, state_of};

// "pages (1 to 16) of 16 bytes"
pub const PAGE_SIZE: usize = 16;

// What a board may do with a page: "a right (0 none, 1 copy, 2 own)".
#[derive(Clone, Copy, PartialEq, Eq)]
pub enum Right {
    None,
    Copy,
    Own,
}

impl From<u8> for Right {
    ghost from_gives = { λ b r. r ≡ right_of b };

    #[tactic(auto, unfolding(crate::specs::Bytes::right_of))]
    fn from(b: u8) -> Right {
        match b {
            0 => Right::None,
            1 => Right::Copy,
            _ => Right::Own,
        }
    }
}

impl From<Right> for u8 {
    ghost from_gives = { λ r b. b ≡ right_byte r };

    #[tactic(auto, unfolding(crate::specs::Bytes::right_byte))]
    fn from(right: Right) -> u8 {
        match right {
            Right::None => 0,
            Right::Copy => 1,
            Right::Own => 2,
        }
    }
}

// "A frame is a right and 16 page bytes."
#[derive(Clone, Copy)]
pub struct Frame {
    pub right: Right,
    pub bytes: [u8; PAGE_SIZE],
}

// "a got kind says copy or own"
#[derive(Clone, Copy, PartialEq, Eq)]
pub enum CopyOrOwn {
    GotCopy,
    GotOwn,
}

// The kind of a record, with its page number.
#[derive(Clone, Copy, PartialEq, Eq)]
pub enum Kind {
    Got(CopyOrOwn, u8),
    Shown(u8),
    Dropped(u8),
}

// "Each record is a count together with its kind"; beside the kind the other party, whom document 02's F-6 names, and the page bytes, zero unless it is a
// got.
#[derive(Clone, Copy)]
pub struct Record {
    pub count: u32,
    pub kind: Kind,
    pub peer: u8,
    pub bytes: [u8; PAGE_SIZE],
}

// A board's state: "0 up, 1 dark, 2 replaying". Document 01 says dark for down.
#[derive(Clone, Copy, PartialEq, Eq)]
pub enum State {
    Up,
    Down,
    Replaying,
}

impl From<u8> for State {
    ghost from_gives = { λ b s. s ≡ state_of b };

    #[tactic(auto, unfolding(crate::specs::Bytes::state_of))]
    fn from(b: u8) -> State {
        match b {
            0 => State::Up,
            1 => State::Down,
            _ => State::Replaying,
        }
    }
}

impl From<State> for u8 {
    ghost from_gives = { λ s b. b ≡ state_byte s };

    #[tactic(auto, unfolding(crate::specs::Bytes::state_byte))]
    fn from(state: State) -> u8 {
        match state {
            State::Up => 0,
            State::Down => 1,
            State::Replaying => 2,
        }
    }
}

// What a call answers, by documents 01 and 02. `Done` carries the value, `Compared` a place in two logs and the taker, 0 and 0 if there is
// none (F-7); the others carry who where the documents name a board.
#[derive(Clone, Copy)]
pub enum Answer {
    Done(u32),
    Malformed,
    OutOfRange,
    WrongState(u8),
    CountersFull(u8),
    ReplayDiffers(u8),
    OwnerNotUp(u8),
    LogFull(u8),
    PowerLost(u8),
    WrongCells,
    HasRecords,
    Compared(u32, u8),
    SameBoard,
}

// An answer, and beside it the stable stores made in the call.
#[derive(Clone, Copy)]
pub struct Outcome {
    pub answer: Answer,
    pub stores: u32,
}

// An answer as document 01's numbers.
#[derive(Clone, Copy)]
pub struct AnswerNumbers {
    pub code: u8,
    pub value: u32,
    pub who: u8,
}
