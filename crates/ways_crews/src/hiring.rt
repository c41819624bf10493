// A crew is made with its helpers.
ghost use Rattle.std.specs.Prelude.{◌≡◌, ◌≤◌, [], length, IfOk};
ghost use Rattle.ways_crews.specs.Told.{TellsNone};
ghost use Rattle.ways_crews.specs.Boards.{board_id};
ghost use Rattle.ways_crews.specs.Calls.{IsAt, KeepsSeat};
ghost use Rattle.ways_crews.specs.Helpers.{AreHelpersOf};

use crate::board::CellBoard;
use crate::cells::CellSeat;
use crate::crew::Crew;
use crate::gate::Gate;
use crate::helper::{Helper, Helpers};
use crate::plays::Hires;
use crate::standing_crew::StandingCrew;
use road_time::NoMemory;
use std::alloc::Global;
use std::sync::Wait;

/// A crew with its helpers.
#[derive(Drop)]
pub struct Crewed<R, G> {
    pub crew: StandingCrew<R, G>,
    pub helpers: Helpers,
}

/// A helper at these cells.
fn hire(alloc: Global, board: &CellBoard, seat: &mut CellSeat) -> Result<Helper, NoMemory>
    requires { IsAt (board_id board.now) seat.old }
    ensures same { KeepsSeat seat.old seat.new }
    ensures crew { IfOk result (λ h. board_id h.board ≡ board_id board.now) }
{
    let shared = board.share()?;
    let theirs = board.cells().split_seat::<Hires>(seat);
    Ok(Helper {
        alloc,
        board: shared,
        seat: theirs,
    })
}

/// So many helpers at these cells.
fn hire_all(
    alloc: Global,
    board: &CellBoard,
    seat: &mut CellSeat,
    count: u8,
) -> Result<Helpers, NoMemory>
    requires { IsAt (board_id board.now) seat.old }
    ensures same { KeepsSeat seat.old seat.new }
    ensures crew { IfOk result (λ hs. AreHelpersOf (board.now, count) hs.items) }
{
    let mut hired = Vec::new(alloc);
    for _ in 0..count {
        let helper = hire(alloc, board, seat)?;
        hired.push(helper)?;
    }
    Ok(hired)
}

/// A crew of 1 to 64 cells with so many helpers, at most 16. No job is out. With `tell` it tells its jobs.
pub fn standing<R: Wait + Drop, G: Gate + Drop>(
    rt: R,
    alloc: Global,
    cells: u8,
    helpers: u8,
    tell: bool,
    gate: G,
) -> Result<Crewed<R, G>, NoMemory>
    requires cells { (1 ≤ cells) × (cells ≤ 64) }
    requires helpers { helpers ≤ 16 }
    ensures out { IfOk result (λ c. ⟦<StandingCrew<R, G> as Crew>⟧.out c.crew ≡ []) }
    ensures jobs { IfOk result (λ c. TellsNone tell (⟦<StandingCrew<R, G> as Crew>⟧.jobs c.crew)) }
    ensures count { IfOk result (λ c. length c.helpers.items ≡ helpers) }
    ensures helpers { IfOk result (λ c. AreHelpersOf (⟦<StandingCrew<R, G> as Crew>⟧.which c.crew) c.helpers.items) }
{
    let (board, mut seat) = CellBoard::new(alloc, usize::from(cells))?;
    let hired = hire_all(alloc, &board, &mut seat, helpers)?;
    Ok(Crewed {
        crew: StandingCrew::new(rt, alloc, tell, gate, board, usize::from(helpers), seat),
        helpers: hired,
    })
}
