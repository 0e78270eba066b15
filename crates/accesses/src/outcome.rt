// What a call answers where all that it did were stores of its own board.
ghost use Rattle.std.specs.Prelude.{◌≡◌, ◌<◌};
ghost use Rattle.model.specs.Definitions.Layout.{most_boards};
ghost use Rattle.stores.specs.Clauses.{stores_made, is_lost};
ghost use Rattle.accesses.specs.Results.{ended_as};

use stores::spend::PowerLost;
use types::{Answer, Outcome};

// Its value, or that power was lost.
pub fn ended(value: u32, board: usize, stored: Result<u32, PowerLost>) -> Outcome
    requires { board < most_boards }
    ensures { (result.answer ≡ ended_as value board (is_lost stored)) × (result.stores ≡ stores_made stored) }
{
    match stored {
        Ok(stores) => Outcome {
            answer: Answer::Done(value),
            stores,
        },
        Err(PowerLost { stores }) => Outcome {
            answer: Answer::PowerLost(board as u8),
            stores,
        },
    }
}
