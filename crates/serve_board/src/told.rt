// What a writer tells a reader.
ghost use Rattle.std.specs.Prelude.{◌≡◌};
ghost use Rattle.serve_board.specs.Passes.{telling_of};

use crate::front::Beginning;
use std::marker::Model;

/// All that is published on a board. It takes no memory.
#[derive(Drop)]
pub struct Told {
    front: Beginning,
}

impl Model for Told {
    ghost use Rattle.serve_board.specs.Passes.{Telling, telling_code, telling_of};

    ghost Value = { Telling };

    ghost coded = { telling_code };

    ghost view = { λ t. telling_of t.front };
}

impl Told {
    pub(crate) fn of(front: Beginning) -> Self
        ensures { result ≡ telling_of front }
    {
        Told { front }
    }

    pub(crate) fn into_front(self) -> Beginning
        ensures { self ≡ telling_of result }
    {
        let Told { front } = self;
        front
    }
}
