// The turn of a connection of a waiting room.
ghost use Rattle.std.specs.Prelude.{◌≡◌, false};
ghost use Rattle.serve_top.specs.Turns.{has_turn};

use serve_loops::Turn;
use serve_room::RoomTurn;
use std::sync::Wait;

/// The pass of a waiting room, where a connection has it.
pub struct TcpTurn<R> {
    pub(crate) rt: R,
    pub(crate) own: Option<RoomTurn>,
}

/// Gives a pass back, where there is one.
fn give_back<R: Wait>(rt: &R, own: Option<RoomTurn>) {
    match own {
        Some(own) => own.end(rt),
        None => {}
    }
}

impl<R: Wait + Drop> Turn for TcpTurn<R> {
    ghost held = { has_turn };

    fn over(&mut self) {
        give_back(&self.rt, self.own.take());
    }

    fn end(self) {
        let TcpTurn { rt, own } = self;
        give_back(&rt, own);
    }
}
