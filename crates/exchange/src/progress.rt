// A call in which a board lost its power, by value.
ghost use Rattle.std.specs.Prelude.{◌≡◌, ◌+◌, ◌^◌, ◌<◌};
ghost use Rattle.model.specs.Definitions.Layout.{most_boards};

use stores::spend::PowerLost;

// Which board lost its power, and the stores made until then.
#[derive(Clone, Copy)]
pub struct Loss {
    pub board: u8,
    pub stores: u32,
}

impl Loss {
    // The loss that a board's own run ended with.
    pub fn of(board: usize, lost: PowerLost) -> Self
        requires { board < most_boards }
        ensures { result ≡ record { board = board; stores = lost.stores } }
    {
        Loss {
            board: board as u8,
            stores: lost.stores,
        }
    }

    // The same loss, where so many stores were made before.
    pub fn after(self, stores: u32) -> Self
        requires { stores + self.stores < 2 ^ 32 }
        ensures { result ≡ record self { stores = stores + self.stores } }
    {
        Loss {
            stores: stores + self.stores,
            ..self
        }
    }
}
