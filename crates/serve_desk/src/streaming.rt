// Streaming the notices of a day that is sent, as they are settled. Nothing is kept.
ghost use Rattle.std.specs.Prelude.{◌≡◌, ◌≢◌, ◌≤◌, ℕ, List, [], Some, true, length};
ghost use Rattle.std.specs.Io.KnownBytes.{prepend_known};
ghost use Rattle.road_io.specs.Blame.{FaultsByPlan, FaultsByRoom};
ghost use Rattle.road_io.specs.Faults.{Rose};
ghost use Rattle.road_io.specs.Plans.{NeverFails};
ghost use Rattle.road_io.specs.Rooms.{Endless};
ghost use Rattle.road_time.specs.Fits.{IsLimits};
ghost use Rattle.road_time.specs.Reads.{reads};
ghost use Rattle.keep_office.specs.Office.{Office};
ghost use Rattle.day_import.specs.Imports.{answers_answer, Does};
ghost use Rattle.day_import.specs.declared.outcomes.Outcome.TheVariants.{WriteFault, KeeperFault};
ghost use Rattle.serve_requests.specs.AskedBodies.{filled, IsSure};
ghost use Rattle.serve_desk.specs.Reading.{FitsRead, IsReadTo, HasReadCause};
ghost use Rattle.serve_desk.specs.Streams.{Streams};

use crate::imported::{Imported, ReadTo};
use crate::importing::read_to;
use crate::work::DayWork;
use day_import::{DayTerms, Outcome, answers};
use keep_office::Keeper;
use road_io::{Link, Sink, put_all};
use road_time::Limits;
use serve_requests::{Body, Start, stream_head};
use std::alloc::Global;
use std::marker::{Brand, PhantomData};
use std::thread::Threads;
use ways_crews::Crew;

/// Answers a day from a body that begins here, and reads no more of it than that takes.
fn settle_from<'b, L: Link, O: Sink, K: Keeper, C: Crew, R: Threads, N: Start>(
    rt: &R,
    alloc: Global,
    work: DayWork,
    early: &'b [u8],
    count: u64,
    link: &mut L,
    out: &mut O,
    keeper: &mut K,
    crew: &mut C,
) -> Imported<'b>
    requires idle { C.out crew.old ≡ [] }
    requires few { length early.now ≤ count }
    requires total { count ≡ N.total }
    requires bytes { prepend_known early.now (L.left link.old) ≡ N.bytes }
    requires written { L.written link.old ≡ N.written }
    requires room { L.room link.old ≡ N.room }
    requires plan { L.plan link.old ≡ N.plan }
    requires faults { L.faults link.old ≡ N.faults }
    ensures does { (all : List ℕ) (o : Office) → N.bytes ≡ Some all → K.told keeper.old ≡ Some o → C.exact ≡ true
        → Does K.refuses (answers_answer work.day 0 work.limits (filled count all) o) o (O.written out.old)
        (O.written out.new) (K.told keeper.new) result.outcome }
    ensures kept { K.told keeper.new ≡ K.told keeper.old }
    ensures reads { IsReadTo count N.bytes result.early.now (L.left link.new) result.read }
    ensures idle { C.out crew.new ≡ [] }
    ensures crew { C.which crew.new ≡ C.which crew.old }
    ensures later { N.faults ≤ L.faults link.new }
    ensures link_cause { HasReadCause N.plan N.faults (L.faults link.new) result.read }
    ensures link_sure { IsSure N.plan → IsSure (L.plan link.new) }
    ensures sink { FaultsByRoom (O.faults out.old) (O.faults out.new) (O.room out.old) (O.room out.new)
        (result.outcome ≡ WriteFault) }
    ensures keeper { FaultsByPlan (K.faults keeper.old) (K.faults keeper.new) (K.plan keeper.old)
        (result.outcome ≡ KeeperFault) }
{
    let mut body: Body<'_, 'b, L, N> = Body {
        link,
        early,
        left: count,
        faults: 0,
        cut: false,
        of: PhantomData,
    };
    let outcome = answers(
        rt,
        alloc,
        DayTerms {
            day: work.day,
            plan: work.plan,
            late: 0,
            limits: work.limits,
        },
        &mut body,
        out,
        keeper,
        crew,
    );
    let read = read_to(&body);
    Imported {
        outcome,
        read,
        early: body.early,
    }
}

/// Answers a day from the body of a request, and reads no more of it than that takes.
fn settle<'b, L: Link, O: Sink, K: Keeper, C: Crew, R: Threads>(
    rt: &R,
    alloc: Global,
    work: DayWork,
    early: &'b [u8],
    count: u64,
    link: &mut L,
    out: &mut O,
    keeper: &mut K,
    crew: &mut C,
) -> Imported<'b>
    requires idle { C.out crew.old ≡ [] }
    requires few { length early.now ≤ count }
    ensures does { (all : List ℕ) (o : Office) → prepend_known early.now (L.left link.old) ≡ Some all
        → K.told keeper.old ≡ Some o → C.exact ≡ true
        → Does K.refuses (answers_answer work.day 0 work.limits (filled count all) o) o (O.written out.old)
        (O.written out.new) (K.told keeper.new) result.outcome }
    ensures kept { K.told keeper.new ≡ K.told keeper.old }
    ensures reads { IsReadTo count (prepend_known early.now (L.left link.old)) result.early.now (L.left link.new)
        result.read }
    ensures idle { C.out crew.new ≡ [] }
    ensures crew { C.which crew.new ≡ C.which crew.old }
    ensures later { L.faults link.old ≤ L.faults link.new }
    ensures link_cause { HasReadCause (L.plan link.old) (L.faults link.old) (L.faults link.new) result.read }
    ensures link_sure { NeverFails (L.plan link.old) → NeverFails (L.plan link.new) }
    ensures sink { FaultsByRoom (O.faults out.old) (O.faults out.new) (O.room out.old) (O.room out.new)
        (result.outcome ≡ WriteFault) }
    ensures keeper { FaultsByPlan (K.faults keeper.old) (K.faults keeper.new) (K.plan keeper.old)
        (result.outcome ≡ KeeperFault) }
{
    settle_from::<L, O, K, C, R, Brand>(rt, alloc, work, early, count, link, out, keeper, crew)
}

/// The most tuples that may lie between a report and its notice, where notices are streamed.
const BACKLOG: u32 = 1_024;

/// Limits with a backlog of at most that. What is read under them is the same.
fn streamed(limits: &Limits) -> Limits
    requires { IsLimits limits.now }
    ensures within { IsLimits result }
    ensures soon { result.backlog ≤ 1024 }
    ensures same { (bytes : List ℕ) (late : ℕ) → reads bytes result late ≡ reads bytes limits.now late }
{
    Limits {
        backlog: limits.backlog.min(BACKLOG),
        ..*limits
    }
}

/// Sends the head of the answer, and behind it the notices of a day from the body of a request, as they are settled.
pub fn stream_day<'b, L: Link, O: Sink, K: Keeper, C: Crew, R: Threads>(
    rt: &R,
    alloc: Global,
    work: DayWork,
    early: &'b [u8],
    count: u64,
    link: &mut L,
    out: &mut O,
    keeper: &mut K,
    crew: &mut C,
) -> Imported<'b>
    requires idle { C.out crew.old ≡ [] }
    requires few { length early.now ≤ count }
    ensures streams { (all : List ℕ) (o : Office) → prepend_known early.now (L.left link.old) ≡ Some all
        → K.told keeper.old ≡ Some o → C.exact ≡ true
        → Streams K.refuses work.day work.limits (filled count all) o (O.written out.old) (O.written out.new)
        result.outcome }
    ensures kept { K.told keeper.new ≡ K.told keeper.old }
    ensures reads { IsReadTo count (prepend_known early.now (L.left link.old)) result.early.now (L.left link.new)
        result.read }
    ensures link_cause { HasReadCause (L.plan link.old) (L.faults link.old) (L.faults link.new) result.read }
    ensures link_sure { NeverFails (L.plan link.old) → NeverFails (L.plan link.new) }
    ensures fits { FitsRead result.early.now result.read }
    ensures idle { C.out crew.new ≡ [] }
    ensures crew { C.which crew.new ≡ C.which crew.old }
    ensures later { L.faults link.old ≤ L.faults link.new }
    ensures sink_later { O.faults out.old ≤ O.faults out.new }
    ensures sink_cause { result.outcome ≡ WriteFault → Rose (O.faults out.old) (O.faults out.new) }
    ensures sink_sure { O.room out.old ≡ Endless → result.outcome ≢ WriteFault }
    ensures sink_endless { O.room out.old ≡ Endless → O.room out.new ≡ Endless }
    ensures keeper { FaultsByPlan (K.faults keeper.old) (K.faults keeper.new) (K.plan keeper.old)
        (result.outcome ≡ KeeperFault) }
{
    let soon = DayWork {
        day: work.day,
        plan: work.plan,
        limits: streamed(&work.limits),
    };
    match put_all(out, stream_head()) {
        Ok(()) => settle(rt, alloc, soon, early, count, link, out, keeper, crew),
        Err(_) => Imported {
            outcome: Outcome::WriteFault,
            read: ReadTo::Open(count),
            early,
        },
    }
}
