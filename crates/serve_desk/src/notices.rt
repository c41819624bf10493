// Answers of the notices of a day that is sent.
ghost use Rattle.std.specs.Prelude.{◌≡◌, ◌≢◌, ◌≤◌, ◌<◌, ℕ, List, [], Some, length};
ghost use Rattle.std.specs.Io.KnownBytes.{prepend_known};
ghost use Rattle.road_io.specs.Faults.{Rose};
ghost use Rattle.road_io.specs.Rooms.{Endless};
ghost use Rattle.keep_office.specs.Office.{Office};
ghost use Rattle.serve_requests.specs.declared.session_end.SessionEnd.TheVariants.{Answered, LinkFault};
ghost use Rattle.serve_desk.specs.Answers.{TellsFault, wire_of};
ghost use Rattle.serve_desk.specs.Streams.{AnswersDay};

use crate::stream_ends::finish_stream;
use crate::streaming::stream_day;
use crate::work::DayWork;
use keep_office::Keeper;
use road_io::TwoWay;
use serve_requests::{SessionEnd, send_no_memory};
use std::alloc::Global;
use std::thread::Threads;
use ways_crews::Crew;

/// Streams the notices of a day from the body of a request as they are settled, and keeps nothing.
pub fn answer_notices<L: TwoWay, K: Keeper, C: Crew, R: Threads>(
    rt: &R,
    alloc: Global,
    work: DayWork,
    early: &[u8],
    count: u64,
    keeper: &mut K,
    crew: &mut C,
    link: &mut L,
) -> SessionEnd
    requires idle { C.out crew.old ≡ [] }
    requires few { length early.now ≤ count }
    ensures answers { (all : List ℕ) (o : Office) → prepend_known early.now (L.left link.old) ≡ Some all
        → K.told keeper.old ≡ Some o
        → AnswersDay K.refuses C.exact work.day work.limits count all o
        (wire_of (L.left link.old) (L.plan link.old) (L.written link.old) (L.room link.old))
        (wire_of (L.left link.new) (L.plan link.new) (L.written link.new) (L.room link.new)) result }
    ensures kept { K.told keeper.new ≡ K.told keeper.old }
    ensures idle { C.out crew.new ≡ [] }
    ensures crew { C.which crew.new ≡ C.which crew.old }
    ensures unavailable { result ≢ Answered 503 }
    ensures failed { K.faults keeper.old < K.faults keeper.new → TellsFault result }
    ensures sure { L.room link.old ≡ Endless → result ≢ LinkFault }
    ensures cause { result ≡ LinkFault → Rose (L.faults link.old) (L.faults link.new) }
    ensures later { L.faults link.old ≤ L.faults link.new }
    ensures keeper_later { K.faults keeper.old ≤ K.faults keeper.new }
{
    let Some(out) = link.outward() else {
        return send_no_memory(link);
    };
    let mut out = out;
    let settled = stream_day(rt, alloc, work, early, count, link, &mut out, keeper, crew);
    let end = finish_stream(alloc, work.day, settled, link, &mut out);
    link.put_back(out);
    end
}
