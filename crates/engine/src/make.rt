// Making a bank: the tests of its sizes and of the length, then a fresh one.
ghost use Rattle.std.specs.Prelude.{◌≤◌};
ghost use Rattle.model.specs.Definitions.Calls.{make as making};
ghost use Rattle.model.specs.Clauses.{most_stores};
ghost use Rattle.engine.specs.Clauses.{Replied};

use checks::refusal::Refusal;
use format::layout::bank_size;
use fresh::bank::write_fresh;
use fresh::sizes::Sizes;
use types::{Answer, Outcome};

// "making a bank checks 2 before 1" (Two tests and nothing else: a function that ends by `?`, and its caller, would be longer.)
pub fn make(bank: &mut [u8], boards: u32, pages: u32) -> Outcome
    ensures reply { Replied (making boards pages bank.old) result bank.new }
    ensures few { result.stores ≤ most_stores }
{
    let Some(sizes) = Sizes::of(boards, pages) else {
        return Outcome::from(Refusal::OutOfRange);
    };
    if bank.len() != bank_size(sizes.boards, sizes.pages) {
        return Outcome::from(Refusal::Malformed);
    }
    write_fresh(bank, sizes);
    Outcome {
        answer: Answer::Done(0),
        stores: 0,
    }
}
