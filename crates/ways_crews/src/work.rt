// A ready job is taken, run and given back.
ghost use Rattle.std.specs.Prelude.{◌≡◌, ◌<◌, None, IfSome};
ghost use Rattle.ways_expressway.specs.Results.{IsResultOf};
ghost use Rattle.ways_crews.specs.Calls.{IsAt, KeepsSeat};
ghost use Rattle.ways_crews.specs.Views.{CanBeRun};

use crate::cells::{CellSeat, CellTable};
use crate::gate::Gate;
use crate::moves::{GivenBack, give_back, take};
use std::alloc::Global;
use ways_expressway::{Done, Job, run};

/// Passes the gate and then runs the job. No job is run in another way.
pub(crate) fn run_past<G: Gate>(alloc: Global, gate: &G, job: Job) -> Done
    requires { CanBeRun job }
    ensures { IsResultOf job result }
{
    gate.pass(job.worker, job.number);
    run(alloc, job)
}

/// Takes the job of a cell if it is ready, passes the gate, runs it and gives it back.
pub(crate) fn run_at<G: Gate>(
    alloc: Global,
    cells: &CellTable,
    seat: &mut CellSeat,
    gate: &G,
    cell: usize,
) -> Option<GivenBack>
    requires seat { IsAt cells.now.table_id seat.old }
    requires cell { cell < cells.now.table_id.slots }
    requires idle { seat.old.me.0.taken ≡ None }
    ensures kept { KeepsSeat seat.old seat.new }
    ensures cell { IfSome result (λ given. given.cell ≡ cell) }
{
    match take(cells, seat, cell) {
        None => None,
        Some(job) => {
            let done = run_past(alloc, gate, job);
            Some(give_back(cells, seat, cell, done))
        }
    }
}
