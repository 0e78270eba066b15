// Banks of the forms before today's: one of document 01's own is written anew, one of the earlier form is taken over as it is.
ghost use Rattle.std.specs.Prelude.{◌≤◌};
ghost use Rattle.model.specs.Definitions.Older.{convert as converting, adopt as adopting};
ghost use Rattle.model.specs.Clauses.{most_stores};
ghost use Rattle.engine.specs.Clauses.{Replied};

use checks::refusal::Refusal;
use conversion::bank::write_converted;
use fields::widths::{OLDER_SINCE_SIZE, SINCE_SIZE};
use format::layout::{BOARDS_AT, PAGES_AT, bank_size};
use types::{Answer, Outcome};
use validity::bank::formed_in;
use validity::counts::no_records;

// "a bank not well formed or a target of the wrong length gets code 1 and writes nothing" (document 02, F-2);
// one with records 11, "tested after 1" (F-6)
pub fn convert(old: &[u8], new: &mut [u8]) -> Outcome
    ensures reply { Replied (converting old.now new.old) result new.new }
    ensures few { result.stores ≤ most_stores }
{
    if !formed_in(old, OLDER_SINCE_SIZE, false) {
        return Outcome::from(Refusal::Malformed);
    }
    let boards = usize::from(old[BOARDS_AT]);
    let pages = usize::from(old[PAGES_AT]);
    if new.len() != bank_size(boards, pages) {
        return Outcome::from(Refusal::Malformed);
    }
    if !no_records(old, OLDER_SINCE_SIZE) {
        return Outcome::from(Refusal::HasRecords);
    }
    write_converted(old, new, boards, pages);
    Outcome {
        answer: Answer::Done(0),
        stores: 0,
    }
}

// "they pass over unchanged when every stored and volatile count is zero; any other gives code 11, tested after 1" (F-6)
pub fn adopt(bank: &[u8]) -> Outcome
    ensures reply { Replied (adopting bank.now) result bank.now }
    ensures few { result.stores ≤ most_stores }
{
    if !formed_in(bank, SINCE_SIZE, false) {
        return Outcome::from(Refusal::Malformed);
    }
    if !no_records(bank, SINCE_SIZE) {
        return Outcome::from(Refusal::HasRecords);
    }
    Outcome {
        answer: Answer::Done(0),
        stores: 0,
    }
}
