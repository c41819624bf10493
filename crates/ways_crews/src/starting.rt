// A job is begun at the first free number.
ghost use Rattle.std.specs.Prelude.{◌≡◌, ◌<◌, false, not, length, None};
ghost use Rattle.ways_crews.specs.Places.{out_of};
ghost use Rattle.ways_crews.specs.Boards.{board_id};
ghost use Rattle.ways_crews.specs.Calls.{IsAt, IsSame};
ghost use Rattle.ways_crews.specs.Crews.{AreFree, IsBegun, IsStarted, is_unlisted};
ghost use Rattle.ways_crews.specs.Views.{CanBeRun, input_of};

use crate::board::CellBoard;
use crate::cells::CellSeat;
use crate::gate::Gate;
use crate::moves::announce;
use crate::place::TicketPlace;
use crate::places::{Ticket, first_free};
use crate::work::run_past;
use std::alloc::Global;
use ways_expressway::Job;

/// Announces a job in the cell of a number. Where that cell is not free, it passes the gate and runs it.
fn announce_at<G: Gate>(
    alloc: Global,
    board: &CellBoard,
    seat: &mut CellSeat,
    gate: &G,
    at: usize,
    job: Job,
) -> TicketPlace
    requires crew { IsAt (board_id board.now) seat.old × (seat.old.id ≡ 0) }
    requires cell { at < board.now.count }
    requires free { input_of seat.old.me.0 at ≡ None }
    requires ready { CanBeRun job }
    ensures same { IsSame seat.old seat.new }
    ensures begun { IsBegun board.now.count at job result seat.old.me seat.new.me }
    ensures listed { is_unlisted result ≡ false }
{
    match announce(board.cells(), seat, at, job) {
        Ok(()) => {
            board.call_one(seat);
            TicketPlace::Cell
        }
        Err(job) => TicketPlace::Ran(run_past(alloc, gate, job)),
    }
}

/// Begins a job at a number, if it is listed: in the cell of that number, or else it passes the gate and runs
/// it.
fn begin<G: Gate>(
    alloc: Global,
    board: &CellBoard,
    seat: &mut CellSeat,
    gate: &G,
    stopped: bool,
    listed: bool,
    at: usize,
    job: Job,
) -> TicketPlace
    requires crew { IsAt (board_id board.now) seat.old × (seat.old.id ≡ 0) }
    requires free { input_of seat.old.me.0 at ≡ None }
    requires ready { CanBeRun job }
    ensures same { IsSame seat.old seat.new }
    ensures begun { IsBegun board.now.count at job result seat.old.me seat.new.me }
    ensures listed { is_unlisted result ≡ not listed }
{
    if !listed {
        TicketPlace::Unlisted(job)
    } else if stopped || at >= board.count {
        TicketPlace::Ran(run_past(alloc, gate, job))
    } else {
        announce_at(alloc, board, seat, gate, at, job)
    }
}

/// Begins a job at the first free number, if it is listed.
pub(crate) fn start_at<G: Gate>(
    alloc: Global,
    board: &CellBoard,
    seat: &mut CellSeat,
    gate: &G,
    stopped: bool,
    places: &mut [Option<TicketPlace>],
    listed: bool,
    job: Job,
) -> Ticket
    requires crew { IsAt (board_id board.now) seat.old × (seat.old.id ≡ 0) }
    requires all { length places.old ≡ 64 }
    requires free { AreFree places.old seat.old.me.0 board.now.count }
    requires ready { CanBeRun job }
    requires room { length (out_of places.old) < 64 }
    ensures same { IsSame seat.old seat.new }
    ensures started { IsStarted board.now.count result.number job listed places.old places.new seat.old.me seat.new.me }
{
    match first_free(places) {
        None => unreachable!(),
        Some(at) => {
            let place = begin(alloc, board, seat, gate, stopped, listed, at, job);
            places[at] = Some(place);
            Ticket { number: at as u8 }
        }
    }
}
