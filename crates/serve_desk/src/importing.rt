// Importing a day from the body of a request.
ghost use Rattle.std.specs.Prelude.{◌≡◌, ◌≢◌, ◌≤◌, ◌<◌, ◌+◌, ◌⊎◌, ℕ, false, List, [], Some, None, length};
ghost use Rattle.std.specs.Io.KnownBytes.{prepend_known};
ghost use Rattle.road_io.specs.Blame.{FaultsByPlan};
ghost use Rattle.road_io.specs.Plans.{NeverFails};
ghost use Rattle.day_floor.specs.Operations.{Posted};
ghost use Rattle.keep_office.specs.Office.{Office, record_of, last_day};
ghost use Rattle.keep_office.specs.declared.kept.DayRecord.{DayRecord};
ghost use Rattle.day_import.specs.Imports.{most_imported};
ghost use Rattle.day_import.specs.declared.outcomes.AnsweredDay.{AnsweredDay};
ghost use Rattle.day_import.specs.declared.outcomes.Outcome.TheVariants.{Stored, ReadFault, WriteFault, KeeperFault};
ghost use Rattle.day_import.specs.declared.outcomes.Outcome.TheVariants as outcomes;
ghost use Rattle.serve_requests.specs.AskedBodies.{filled, IsSure};
ghost use Rattle.serve_desk.specs.declared.imported.ReadTo.TheVariants.{Open};
ghost use Rattle.serve_desk.specs.Imports.{Imports};
ghost use Rattle.serve_desk.specs.Reading.{IsReadTo, HasReadCause, IsStopped, HasNoneLeft};

use crate::imported::{Imported, ReadTo};
use crate::work::DayWork;
use day_floor::Publisher;
use day_import::{DayTerms, import};
use keep_office::Keeper;
use road_io::{Link, VoidSink};
use serve_requests::{Body, Start};
use std::alloc::Global;
use std::marker::{Brand, PhantomData};
use std::thread::Threads;
use ways_crews::Crew;

/// How far a body was read.
pub fn read_to<L: Link, N: Start>(body: &Body<'_, '_, L, N>) -> ReadTo
    ensures read { IsReadTo N.total N.bytes body.now.early.now (L.left body.now.link.now) result }
    ensures cause { HasReadCause N.plan N.faults (L.faults body.now.link.now) result }
    ensures stopped { 0 < body.now.faults → IsStopped result }
    ensures over { body.now.left ≡ 0 → body.now.faults ≡ 0 → HasNoneLeft result }
    ensures rest { (left : ℕ) → result ≡ Open left → left ≡ body.now.left }
    ensures quiet { body.now.faults ≡ 0 → body.now.cut ≡ false → result ≡ Open body.now.left }
{
    if body.cut {
        return ReadTo::Cut;
    }
    if body.faults > 0 {
        return ReadTo::LinkFault;
    }
    ReadTo::Open(body.left)
}

/// Imports a day from a body that begins here, and reads no more of it than that takes.
fn import_from<'b, L: Link, K: Keeper, C: Crew, P: Publisher, R: Threads, N: Start>(
    rt: &R,
    alloc: Global,
    work: DayWork,
    early: &'b [u8],
    count: u64,
    link: &mut L,
    keeper: &mut K,
    crew: &mut C,
    publisher: &mut P,
) -> Imported<'b>
    requires idle { C.out crew.old ≡ [] }
    requires few { length early.now ≤ count }
    requires total { count ≡ N.total }
    requires bytes { prepend_known early.now (L.left link.old) ≡ N.bytes }
    requires written { L.written link.old ≡ N.written }
    requires room { L.room link.old ≡ N.room }
    requires plan { L.plan link.old ≡ N.plan }
    requires faults { L.faults link.old ≡ N.faults }
    ensures imports { (all : List ℕ) (o : Office) (was : Posted) → N.bytes ≡ Some all → K.told keeper.old ≡ Some o
        → P.posted publisher.old ≡ Some was → Imports K.refuses C.exact work.day work.limits (filled count all) o
        (K.told keeper.new) was (P.posted publisher.new) result.outcome }
    ensures reads { IsReadTo count N.bytes result.early.now (L.left link.new) result.read }
    ensures few { (all : List ℕ) (o : Office) (left : ℕ) → N.bytes ≡ Some all → K.told keeper.old ≡ Some o
        → result.read ≡ Open left → count ≤ left + most_imported (record_of o work.day) work.limits }
    ensures unread { (o : Office) → K.told keeper.old ≡ Some o → record_of o work.day ≡ None → work.day ≤ last_day o
        → (L.left link.new ≡ L.left link.old) × (result.read ≡ Open count) × (result.early.now ≡ early.now) }
    ensures read { result.outcome ≡ ReadFault → IsStopped result.read }
    ensures stored { (all : List ℕ) (kept : DayRecord) → N.bytes ≡ Some all → result.outcome ≡ Stored kept
        → HasNoneLeft result.read }
    ensures read_first { (all : List ℕ) → N.bytes ≡ Some all
        → (K.told keeper.new ≡ K.told keeper.old) ⊎ HasNoneLeft result.read }
    ensures idle { C.out crew.new ≡ [] }
    ensures crew { C.which crew.new ≡ C.which crew.old }
    ensures publisher { P.which publisher.new ≡ P.which publisher.old }
    ensures unwritten { L.written link.new ≡ N.written }
    ensures room_kept { L.room link.new ≡ N.room }
    ensures link_cause { HasReadCause N.plan N.faults (L.faults link.new) result.read }
    ensures link_later { N.faults ≤ L.faults link.new }
    ensures link_sure { IsSure N.plan → IsSure (L.plan link.new) }
    ensures unfailed { result.outcome ≢ WriteFault }
    ensures posted { (day : AnsweredDay) → result.outcome ≢ outcomes.Answered day }
    ensures keeper { FaultsByPlan (K.faults keeper.old) (K.faults keeper.new) (K.plan keeper.old)
        (result.outcome ≡ KeeperFault) }
{
    let mut body: Body<'_, 'b, L, N> = Body {
        link,
        early,
        left: count,
        faults: 0,
        cut: false,
        of: PhantomData,
    };
    let outcome = import(
        rt,
        alloc,
        DayTerms {
            day: work.day,
            plan: work.plan,
            late: 0,
            limits: work.limits,
        },
        &mut body,
        &mut VoidSink,
        keeper,
        crew,
        publisher,
    );
    let read = read_to(&body);
    Imported {
        outcome,
        read,
        early: body.early,
    }
}

/// Imports a day from the body of a request, and reads no more of it than that takes: nothing where a later day is
/// kept, and of a day that is kept one byte more than that had.
pub fn import_only<'b, L: Link, K: Keeper, C: Crew, P: Publisher, R: Threads>(
    rt: &R,
    alloc: Global,
    work: DayWork,
    early: &'b [u8],
    count: u64,
    link: &mut L,
    keeper: &mut K,
    crew: &mut C,
    publisher: &mut P,
) -> Imported<'b>
    requires idle { C.out crew.old ≡ [] }
    requires few { length early.now ≤ count }
    ensures imports { (all : List ℕ) (o : Office) (was : Posted) → prepend_known early.now (L.left link.old) ≡ Some all
        → K.told keeper.old ≡ Some o → P.posted publisher.old ≡ Some was
        → Imports K.refuses C.exact work.day work.limits (filled count all) o (K.told keeper.new) was
        (P.posted publisher.new) result.outcome }
    ensures reads { IsReadTo count (prepend_known early.now (L.left link.old)) result.early.now (L.left link.new)
        result.read }
    ensures few { (all : List ℕ) (o : Office) (left : ℕ) → prepend_known early.now (L.left link.old) ≡ Some all
        → K.told keeper.old ≡ Some o → result.read ≡ Open left
        → count ≤ left + most_imported (record_of o work.day) work.limits }
    ensures unread { (o : Office) → K.told keeper.old ≡ Some o → record_of o work.day ≡ None → work.day ≤ last_day o
        → (L.left link.new ≡ L.left link.old) × (result.read ≡ Open count) × (result.early.now ≡ early.now) }
    ensures read { result.outcome ≡ ReadFault → IsStopped result.read }
    ensures stored { (all : List ℕ) (kept : DayRecord) → prepend_known early.now (L.left link.old) ≡ Some all
        → result.outcome ≡ Stored kept → HasNoneLeft result.read }
    ensures read_first { (all : List ℕ) → prepend_known early.now (L.left link.old) ≡ Some all
        → (K.told keeper.new ≡ K.told keeper.old) ⊎ HasNoneLeft result.read }
    ensures idle { C.out crew.new ≡ [] }
    ensures crew { C.which crew.new ≡ C.which crew.old }
    ensures publisher { P.which publisher.new ≡ P.which publisher.old }
    ensures unwritten { L.written link.new ≡ L.written link.old }
    ensures room_kept { L.room link.new ≡ L.room link.old }
    ensures link_cause { HasReadCause (L.plan link.old) (L.faults link.old) (L.faults link.new) result.read }
    ensures link_later { L.faults link.old ≤ L.faults link.new }
    ensures link_sure { NeverFails (L.plan link.old) → NeverFails (L.plan link.new) }
    ensures unfailed { result.outcome ≢ WriteFault }
    ensures posted { (day : AnsweredDay) → result.outcome ≢ outcomes.Answered day }
    ensures keeper { FaultsByPlan (K.faults keeper.old) (K.faults keeper.new) (K.plan keeper.old)
        (result.outcome ≡ KeeperFault) }
{
    import_from::<L, K, C, P, R, Brand>(
        rt, alloc, work, early, count, link, keeper, crew, publisher,
    )
}
