// What a board's state says of it: the model's three tests by their names, each the derived equality. Said at each caller it would cost each a lemma.
ghost use Rattle.std.specs.Prelude.{◌≡◌};
ghost use Rattle.model.specs.Definitions.WellFormed.{is_up, is_down, is_replaying};

use types::State;

// Runs live.
pub fn is_up(state: State) -> bool
    ensures { result ≡ is_up state }
{
    state == State::Up
}

// Has no power.
pub fn is_down(state: State) -> bool
    ensures { result ≡ is_down state }
{
    state == State::Down
}

// Repeats its log.
pub fn is_replaying(state: State) -> bool
    ensures { result ≡ is_replaying state }
{
    state == State::Replaying
}
