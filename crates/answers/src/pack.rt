// An outcome as one number: code, who, stores and value, each in its own digits.
ghost use Rattle.std.specs.Prelude.{◌≡◌, ◌≤◌};
ghost use Rattle.model.specs.Clauses.{most_stores};
ghost use Rattle.answers.specs.Packed.{packed, ReadBack};

use crate::numbers::numbers_of;
use types::{AnswerNumbers, Outcome};

// What who, stores and value count in.
const WHO_UNIT: u64 = 256;

const STORES_UNIT: u64 = WHO_UNIT * 256;

const VALUE_UNIT: u64 = STORES_UNIT * 65536;

pub fn pack(o: Outcome) -> u64
    requires { o.stores ≤ most_stores }
    ensures number { result ≡ packed o }
    ensures back { ReadBack result o }
{
    let AnswerNumbers { code, value, who } = numbers_of(o.answer);
    u64::from(code)
        + WHO_UNIT * u64::from(who)
        + STORES_UNIT * u64::from(o.stores)
        + VALUE_UNIT * u64::from(value)
}
