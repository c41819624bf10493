// A session over a desk that is shared.
ghost use Rattle.std.specs.Prelude.{◌≡◌, ◌≤◌};
ghost use Rattle.road_time.specs.Fits.{IsLimits};
ghost use Rattle.serve_desk.specs.Seats.{Follows};
ghost use Rattle.serve_loops.specs.Wires.{wire_by};
ghost use Rattle.serve_top.specs.Attends.{Attends};

use day_plan::Plan;
use keep_office::Keeper;
use road_io::TwoWay;
use road_time::Limits;
use serve_board::BoardNaming;
use serve_desk::{ImportDesk, Kept, Naming, Routes, Seat, TwoLocks, Work, session_shared};
use serve_loops::Turn;
use std::alloc::Global;
use std::sync::{Mutex, Wait};
use std::thread::Threads;
use ways_crews::Crew;

/// Runs a session on a connection, by routes that are kept. A POST has the imports' lock until its day is imported,
/// and then its turn is over. For each call of the keeper a request of what is kept takes the keeper's lock. No other
/// takes a lock.
pub fn attend<
    L: TwoWay,
    J: Naming + BoardNaming,
    K: Keeper,
    C: Crew,
    R: Wait + Threads + Drop,
    T: Turn,
>(
    rt: R,
    alloc: Global,
    plan: Plan,
    limits: Limits,
    routes: &Routes,
    keeper: &Mutex<Kept<J, K>>,
    imports: &Mutex<ImportDesk<J, C, R>>,
    line: &mut L,
    turn: &mut T,
    seat: &mut Seat<J, K>,
)
    requires some { 1 ≤ plan.width }
    requires few { plan.width ≤ 64 }
    requires within { IsLimits limits }
    ensures attends { Attends K.told K.faults K.refuses C.exact limits seat.old seat.new
        (wire_by L.left L.plan L.written L.room L.faults line.old) (wire_by L.left L.plan L.written L.room L.faults line.new) }
    ensures follows { Follows seat.old seat.new }
{
    let mut clerk = TwoLocks {
        rt,
        work: Work { plan, limits },
        keeper,
        imports,
        turn,
    };
    session_shared(alloc, routes, line, seat, &mut clerk);
}
