// Sessions that pass on what is asked of what is kept.
ghost use Rattle.std.specs.Prelude.{◌≡◌, ◌≤◌, ℕ, List, Some};
ghost use Rattle.road_io.specs.Faults.{Rose};
ghost use Rattle.serve_requests.specs.declared.session_end.SessionEnd.TheVariants.{LinkFault};
ghost use Rattle.serve_desk.specs.Answers.{wire_of};
ghost use Rattle.serve_desk.specs.Clerks.{Shares};
ghost use Rattle.serve_desk.specs.Live.{asked_of, IsOfLive, AnswersLive};
ghost use Rattle.serve_desk.specs.Seats.{Follows};

use crate::clerk::Clerk;
use crate::history::Naming;
use crate::live::live_answer;
use crate::seat::Seat;
use crate::sessions::is_live;
use keep_office::Keeper;
use road_io::{Link, TwoWay};
use serve_board::BoardNaming;
use serve_requests::{Asked, Routes, SessionEnd, read_asked};
use std::alloc::Global;

/// Answers what is asked of the live board by the reader of a seat, whose place stays.
fn answer_live<L: Link, J: Naming + BoardNaming, K: Keeper>(
    alloc: Global,
    seat: &mut Seat<J, K>,
    asked: &Asked,
    link: &mut L,
) -> SessionEnd
    requires { IsOfLive asked.now }
    ensures answers { AnswersLive (asked_of asked.now) seat.old.reader seat.new.reader
        (wire_of (L.left link.old) (L.plan link.old) (L.written link.old) (L.room link.old))
        (wire_of (L.left link.new) (L.plan link.new) (L.written link.new) (L.room link.new)) result }
    ensures place { seat.new.log ≡ seat.old.log }
    ensures follows { Follows seat.old seat.new }
    ensures cause { result ≡ LinkFault → Rose (L.faults link.old) (L.faults link.new) }
    ensures later { L.faults link.old ≤ L.faults link.new }
{
    live_answer(alloc, &mut seat.reader, asked, link)
}

/// Reads one request and answers it, or passes it on, with the seat. It waits inside the clerk alone.
pub fn session_shared<L: TwoWay, J: Naming + BoardNaming, K: Keeper, H: Clerk<J, K>>(
    alloc: Global,
    routes: &Routes,
    link: &mut L,
    seat: &mut Seat<J, K>,
    clerk: &mut H,
) -> SessionEnd
    ensures shares { (bytes : List ℕ) → L.left link.old ≡ Some bytes
        → Shares (H.answers clerk.old) bytes seat.old seat.new
        (wire_of (L.left link.old) (L.plan link.old) (L.written link.old) (L.room link.old))
        (wire_of (L.left link.new) (L.plan link.new) (L.written link.new) (L.room link.new)) result }
    ensures follows { Follows seat.old seat.new }
    ensures cause { result ≡ LinkFault → Rose (L.faults link.old) (L.faults link.new) }
    ensures later { L.faults link.old ≤ L.faults link.new }
{
    match read_asked(alloc, routes, link) {
        Err(end) => end,
        Ok(asked) => {
            if is_live(&asked) {
                answer_live(alloc, seat, &asked, link)
            } else {
                clerk.answer(alloc, asked, link, seat)
            }
        }
    }
}
