// The slots at or past the counts of a bank made zero: what today's rule asks for and that of the day before didn't.
ghost use Rattle.std.specs.Prelude.{◌≤◌};
ghost use Rattle.model.specs.Definitions.Older.{clean as cleaning};
ghost use Rattle.model.specs.Clauses.{most_stores};
ghost use Rattle.engine.specs.Clauses.{Replied};

use checks::refusal::Refusal;
use conversion::clean::clean_slots;
use fields::widths::SINCE_SIZE;
use format::layout::{BOARDS_AT, PAGES_AT};
use types::{Answer, Outcome};
use validity::bank::formed_in;

// "One call zeroes these slots in a bank well formed by the older rule." (document 02, F-8); any other gets code 1 and stays.
pub fn clean(bank: &mut [u8]) -> Outcome
    ensures reply { Replied (cleaning bank.old) result bank.new }
    ensures few { result.stores ≤ most_stores }
{
    if !formed_in(bank, SINCE_SIZE, true) {
        return Outcome::from(Refusal::Malformed);
    }
    let boards = usize::from(bank[BOARDS_AT]);
    let pages = usize::from(bank[PAGES_AT]);
    clean_slots(bank, boards, pages);
    Outcome {
        answer: Answer::Done(0),
        stores: 0,
    }
}
