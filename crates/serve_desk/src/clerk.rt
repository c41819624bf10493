// Whoever answers what is asked of what is kept.
ghost use Rattle.std.specs.Prelude.{◌≡◌, ◌≤◌};
ghost use Rattle.road_io.specs.Faults.{Rose};
ghost use Rattle.serve_requests.specs.ReadRequests.{IsAsked};
ghost use Rattle.serve_requests.specs.declared.session_end.SessionEnd.TheVariants.{LinkFault};
ghost use Rattle.serve_desk.specs.Answers.{wire_of};
ghost use Rattle.serve_desk.specs.Desk.{IsOfKept};
ghost use Rattle.serve_desk.specs.Seats.{Follows};

use crate::history::Naming;
use crate::seat::Seat;
use keep_office::Keeper;
use road_io::TwoWay;
use serve_board::BoardNaming;
use serve_requests::{Asked, SessionEnd};
use std::alloc::Global;

/// Whoever answers what is asked of what is kept, and may tell a reader of the board of this name what is published, and
/// go on to a place in the history of this name. `answers` is how it answers a request, by what was seen and by what its
/// link tells before and after.
pub trait Clerk<J: Naming + BoardNaming, K: Keeper> {
    ghost use Rattle.serve_desk.specs.Seats.{Seated};
    ghost use Rattle.serve_requests.specs.declared.asked.Asked.{Asked};
    ghost use Rattle.serve_requests.specs.declared.session_end.SessionEnd.{SessionEnd};
    ghost use Rattle.serve_desk.specs.Answers.{Wire};

    ghost answers: { Self → Asked → Seated K → Seated K → Wire → Wire → SessionEnd → Type 0 };

    /// Answers a request over its link. It may tell the reader what is published, and the seat what is kept.
    fn answer<L: TwoWay>(
        &mut self,
        alloc: Global,
        asked: Asked,
        link: &mut L,
        seat: &mut Seat<J, K>,
    ) -> SessionEnd
        requires asked { IsAsked asked }
        requires kept { IsOfKept asked }
        ensures answers { answers self.old asked seat.old seat.new
            (wire_of (L.left link.old) (L.plan link.old) (L.written link.old) (L.room link.old))
            (wire_of (L.left link.new) (L.plan link.new) (L.written link.new) (L.room link.new)) result }
        ensures follows { Follows seat.old seat.new }
        ensures cause { result ≡ LinkFault → Rose (L.faults link.old) (L.faults link.new) }
        ensures later { L.faults link.old ≤ L.faults link.new };
}
