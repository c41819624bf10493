// The job of a ticket is answered.
ghost use Rattle.std.specs.Prelude.{◌≡◌, ◌<◌, true, length, None, Contains, is_err};
ghost use Rattle.ways_expressway.specs.declared.job.Job.{Job as TheJob};
ghost use Rattle.ways_expressway.specs.Results.{IsResultOf};
ghost use Rattle.ways_crews.specs.Places.{out_of};
ghost use Rattle.ways_crews.specs.Boards.{board_id};
ghost use Rattle.ways_crews.specs.Calls.{IsAt, IsSame};
ghost use Rattle.ways_crews.specs.Crews.{AreFree, HoldsJob, IsJobAnswered, IsFinished, IsHeldIn, is_unlisted};
ghost use Rattle.ways_crews.specs.Views.{input_of};
ghost use Rattle.ways_crews.specs.declared.place.TicketPlace.TheVariants.{Cell};

use crate::board::CellBoard;
use crate::cells::CellSeat;
use crate::entry::refused;
use crate::gate::Gate;
use crate::place::TicketPlace;
use crate::places::{Ticket, take_out};
use crate::waiting::await_done;
use std::alloc::Global;
use std::sync::Wait;
use ways_expressway::{Done, Job};

/// What was done of the job of a number. It waits where the job lies in a cell.
fn answer<R: Wait, G: Gate>(
    rt: &R,
    alloc: Global,
    board: &CellBoard,
    seat: &mut CellSeat,
    gate: &G,
    place: TicketPlace,
    at: usize,
) -> Done
    requires crew { IsAt (board_id board.now) seat.old × (seat.old.id ≡ 0) }
    requires idle { seat.old.me.0.taken ≡ None }
    requires cell { place ≡ Cell → at < board.now.count }
    ensures same { IsSame seat.old seat.new }
    ensures answered { IsJobAnswered at place seat.old.me seat.new.me }
    ensures done { (job : TheJob) → IsHeldIn (input_of seat.old.me.0 at) place job → IsResultOf job result }
    ensures err { is_unlisted place ≡ true → is_err result.result ≡ true }
{
    match place {
        TicketPlace::Ran(done) => done,
        TicketPlace::Unlisted(job) => refused(alloc, job),
        TicketPlace::Cell => await_done(rt, alloc, board.cells(), seat, gate, board.count, at),
    }
}

/// Answers the job of a ticket, whose place is free then.
pub(crate) fn finish_at<R: Wait, G: Gate>(
    rt: &R,
    alloc: Global,
    board: &CellBoard,
    seat: &mut CellSeat,
    gate: &G,
    places: &mut [Option<TicketPlace>],
    ticket: Ticket,
) -> Done
    requires crew { IsAt (board_id board.now) seat.old × (seat.old.id ≡ 0) }
    requires idle { seat.old.me.0.taken ≡ None }
    requires all { length places.old ≡ 64 }
    requires free { AreFree places.old seat.old.me.0 board.now.count }
    requires out { Contains (out_of places.old) ticket.number }
    ensures same { IsSame seat.old seat.new }
    ensures finished { IsFinished ticket.number result places.old places.new seat.old.me seat.new.me }
    ensures run { (j : TheJob) → HoldsJob places.old seat.old.me.0 ticket.number j → IsResultOf j result }
{
    let place = take_out(places, ticket.number);
    answer(
        rt,
        alloc,
        board,
        seat,
        gate,
        place,
        usize::from(ticket.number),
    )
}
