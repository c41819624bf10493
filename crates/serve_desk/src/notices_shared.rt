// Streaming the notices of a day that is sent, with the imports locked until they are settled.
ghost use Rattle.std.specs.Prelude.{◌≡◌, ◌≢◌, ◌≤◌, ◌<◌, ℕ, List, Some, true, false, length};
ghost use Rattle.std.specs.Io.KnownBytes.{prepend_known};
ghost use Rattle.road_io.specs.Blame.{FaultsByPlan};
ghost use Rattle.road_io.specs.Faults.{Rose};
ghost use Rattle.road_io.specs.Plans.{NeverFails};
ghost use Rattle.road_io.specs.Rooms.{Endless};
ghost use Rattle.keep_office.specs.Office.{Office};
ghost use Rattle.day_import.specs.declared.outcomes.Outcome.TheVariants.{WriteFault, KeeperFault};
ghost use Rattle.serve_requests.specs.AskedBodies.{filled};
ghost use Rattle.serve_requests.specs.declared.session_end.SessionEnd.TheVariants.{Answered, LinkFault};
ghost use Rattle.serve_desk.specs.Answers.{TellsFault, wire_of};
ghost use Rattle.serve_desk.specs.Reading.{FitsRead, IsReadTo, HasReadCause, Skips};
ghost use Rattle.serve_desk.specs.Shared.{AnswersNotices};
ghost use Rattle.serve_desk.specs.Streams.{Streams, Closes};

use crate::history::Naming;
use crate::import_desk::ImportDesk;
use crate::imported::Imported;
use crate::shared::SharedKeeper;
use crate::stream_ends::finish_stream;
use crate::streaming::stream_day;
use crate::work::DayWork;
use keep_office::Keeper;
use road_io::{Link, Sink, TwoWay};
use serve_board::BoardNaming;
use serve_loops::Turn;
use serve_requests::{SessionEnd, send_no_memory};
use std::alloc::Global;
use std::sync::{Mutex, Wait};
use std::thread::Threads;
use ways_crews::Crew;

impl<J: BoardNaming, C: Crew, R: Wait + Threads + Drop> ImportDesk<J, C, R> {
    /// Sends the head of the answer, and behind it the notices of a day of the body of a POST, as they are settled.
    /// Nothing is kept or published.
    pub(crate) fn stream<'b, L: Link, O: Sink, K: Keeper>(
        &mut self,
        alloc: Global,
        work: DayWork,
        early: &'b [u8],
        count: u64,
        keeper: &mut K,
        link: &mut L,
        out: &mut O,
    ) -> Imported<'b>
        requires few { length early.now ≤ count }
        ensures streams { (all : List ℕ) (o : Office) → prepend_known early.now (L.left link.old) ≡ Some all
            → K.told keeper.old ≡ Some o → C.exact ≡ true
            → Streams K.refuses work.day work.limits (filled count all) o (O.written out.old) (O.written out.new)
            result.outcome }
        ensures kept { K.told keeper.new ≡ K.told keeper.old }
        ensures reads { IsReadTo count (prepend_known early.now (L.left link.old)) result.early.now (L.left link.new)
            result.read }
        ensures link_cause { HasReadCause (L.plan link.old) (L.faults link.old) (L.faults link.new) result.read }
        ensures link_sure { NeverFails (L.plan link.old) → NeverFails (L.plan link.new) }
        ensures fits { FitsRead result.early.now result.read }
        ensures writer { self.new.writer ≡ self.old.writer }
        ensures crew { C.which self.new.crew ≡ C.which self.old.crew }
        ensures later { L.faults link.old ≤ L.faults link.new }
        ensures sink_later { O.faults out.old ≤ O.faults out.new }
        ensures sink_cause { result.outcome ≡ WriteFault → Rose (O.faults out.old) (O.faults out.new) }
        ensures sink_sure { O.room out.old ≡ Endless → result.outcome ≢ WriteFault }
        ensures sink_endless { O.room out.old ≡ Endless → O.room out.new ≡ Endless }
        ensures keeper { FaultsByPlan (K.faults keeper.old) (K.faults keeper.new) (K.plan keeper.old)
            (result.outcome ≡ KeeperFault) }
    {
        stream_day(
            &self.rt,
            alloc,
            work,
            early,
            count,
            link,
            out,
            keeper,
            &mut self.crew,
        )
    }
}

/// Writes the closing line of a day whose turn is over.
fn finish_after<L: Link, O: Sink, T: Turn>(
    alloc: Global,
    day: u32,
    settled: Imported<'_>,
    turn: &T,
    link: &mut L,
    out: &mut O,
) -> SessionEnd
    requires over { T.held turn.now ≡ false }
    requires fits { FitsRead settled.early.now settled.read }
    ensures closes { Closes day settled.entry.outcome (O.written out.old) (O.written out.new) result }
    ensures skips { Skips settled.entry.early.now
        (wire_of (L.left link.old) (L.plan link.old) (L.written link.old) (L.room link.old))
        (wire_of (L.left link.new) (L.plan link.new) (L.written link.new) (L.room link.new)) settled.entry.read }
    ensures unavailable { result ≢ Answered 503 }
    ensures told { settled.entry.outcome ≡ KeeperFault → TellsFault result }
    ensures later { L.faults link.old ≤ L.faults link.new }
    ensures out_later { O.faults out.old ≤ O.faults out.new }
    ensures cause { (before : ℕ) → before ≤ O.faults out.old
        → (settled.entry.outcome ≡ WriteFault → Rose before (O.faults out.old))
        → result ≡ LinkFault → Rose before (O.faults out.new) }
    ensures sure { O.room out.old ≡ Endless → settled.entry.outcome ≢ WriteFault → result ≢ LinkFault }
{
    finish_stream(alloc, day, settled, link, out)
}

/// Streams the notices of a day with the imports locked. Once they are not, and the turn is over, the rest of the body
/// is read, and the closing line is written.
pub(crate) fn answer_notices_shared<
    'a,
    L: TwoWay,
    J: Naming + BoardNaming,
    K: Keeper,
    C: Crew,
    R: Wait + Threads + Drop,
    T: Turn,
>(
    rt: &R,
    alloc: Global,
    work: DayWork,
    imports: &Mutex<ImportDesk<J, C, R>>,
    turn: &mut T,
    early: &[u8],
    count: u64,
    keeper: &mut SharedKeeper<'a, J, K, R>,
    link: &mut L,
) -> SessionEnd
    requires few { length early.now ≤ count }
    ensures answers { AnswersNotices K.told K.refuses C.exact work.limits work.day count early.now
        (wire_of (L.left link.old) (L.plan link.old) (L.written link.old) (L.room link.old))
        (wire_of (L.left link.new) (L.plan link.new) (L.written link.new) (L.room link.new)) result }
    ensures unavailable { result ≢ Answered 503 }
    ensures failed { keeper.old.faults < keeper.new.faults → TellsFault result }
    ensures sure { L.room link.old ≡ Endless → result ≢ LinkFault }
    ensures cause { result ≡ LinkFault → Rose (L.faults link.old) (L.faults link.new) }
    ensures later { L.faults link.old ≤ L.faults link.new }
{
    let Some(out) = link.outward() else {
        return send_no_memory(link);
    };
    let mut out = out;
    let mut desk = imports.lock(rt);
    let mut held = keeper.hold();
    let settled = desk.stream(alloc, work, early, count, &mut held, link, &mut out);
    drop(desk);
    keeper.counts(held);
    turn.over();
    let end = finish_after(alloc, work.day, settled, turn, link, &mut out);
    link.put_back(out);
    end
}
