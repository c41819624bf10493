// A helper, which takes jobs from the cells until the stop.
ghost use Rattle.std.specs.Prelude.{◌≡◌, [], None, true};
ghost use Rattle.ways_crews.specs.Boards.{board_id};
ghost use Rattle.ways_crews.specs.Calls.{IsAt};

use crate::board::CellBoard;
use crate::cells::CellSeat;
use crate::gate::Gate;
use crate::waiting::help_at;
use std::alloc::Global;
use std::sync::Wait;

/// A helper of a crew. It has taken nothing.
#[derive(Drop)]
pub struct Helper {
    pub(crate) alloc: Global,
    pub(crate) board: CellBoard,
    pub(crate) seat: CellSeat,
    ghost at: { IsAt (board_id board) seat },
    ghost idle: { seat.me.0.taken ≡ None },
    ghost hands: { seat.me.1 ≡ [] },
}

/// The helpers of a crew.
pub type Helpers = Vec<Helper>;

/// Lets a helper help until it has seen the stop.
pub(crate) fn help_on<R: Wait, G: Gate>(rt: &R, helper: &mut Helper, gate: &G)
    ensures crew { board_id helper.new.board ≡ board_id helper.old.board }
    ensures stopped { helper.new.seat.me.0.stopped ≡ true }
{
    let count = helper.board.count;
    help_at(
        rt,
        helper.alloc,
        helper.board.cells(),
        &mut helper.seat,
        gate,
        count,
    );
}

/// Takes ready jobs, passes the gate, runs them and gives them back, until the stop was seen. It waits.
pub fn help<R: Wait, G: Gate>(rt: &R, helper: Helper, gate: &G) -> Helper
    ensures crew { board_id result.board ≡ board_id helper.board }
    ensures stopped { result.seat.me.0.stopped ≡ true }
{
    let mut helper = helper;
    help_on(rt, &mut helper, gate);
    helper
}
