// Importing at a place that is held.
ghost use Rattle.std.specs.Prelude.{◌≡◌, ◌≢◌, ◌≤◌, ◌+◌, ◌⊎◌, ℕ, List, Some, length};
ghost use Rattle.std.specs.Io.KnownBytes.{prepend_known};
ghost use Rattle.road_io.specs.Faults.{Rose};
ghost use Rattle.road_io.specs.Plans.{NeverFails};
ghost use Rattle.keep_office.specs.Office.{Office};
ghost use Rattle.keep_office.specs.declared.kept.DayRecord.{DayRecord};
ghost use Rattle.day_import.specs.declared.outcomes.AnsweredDay.{AnsweredDay};
ghost use Rattle.day_import.specs.declared.outcomes.Outcome.TheVariants as outcomes;
ghost use Rattle.day_import.specs.declared.outcomes.Outcome.TheVariants.{Stored, ReadFault, WriteFault, KeeperFault};
ghost use Rattle.serve_requests.specs.AskedBodies.{filled};
ghost use Rattle.serve_desk.specs.History.{told_at, GoesOn};
ghost use Rattle.serve_desk.specs.Imports.{Imports};
ghost use Rattle.serve_desk.specs.Reading.{IsReadTo, HasReadCause, IsStopped, HasNoneLeft};

use crate::begun::Begun;
use crate::history::Naming;
use crate::hold::Hold;
use crate::import_desk::ImportDesk;
use crate::imported::Imported;
use crate::place::Place;
use crate::shared::SharedKeeper;
use crate::work::DayWork;
use keep_office::Keeper;
use road_io::Link;
use serve_board::BoardNaming;
use std::alloc::Global;
use std::sync::Wait;
use std::thread::Threads;
use ways_crews::Crew;

/// Imports a day of the body of a POST over the office at the place that is held, and gives the place of what is kept
/// then. That is the same, where nothing was put, or the next.
pub(crate) fn import_held<
    'a,
    'b,
    L: Link,
    J: Naming + BoardNaming,
    K: Keeper,
    C: Crew,
    R: Wait + Threads + Drop,
    N: Begun,
>(
    alloc: Global,
    work: DayWork,
    desk: &mut ImportDesk<J, C, R>,
    early: &'b [u8],
    count: u64,
    keeper: &mut SharedKeeper<'a, J, K, R>,
    first: Hold<J, K>,
    link: &mut L,
) -> (Imported<'b>, Place<J, K>)
    requires few { length early.now ≤ count }
    requires begun { N.from ≡ Some first.place.count }
    requires once { first.from ≡ Some first.place.count }
    ensures went { GoesOn first.place.seen.log result.1.seen.log }
    ensures next { result.1.count ≤ first.place.count + 1 }
    ensures imports { (all : List ℕ) (o : Office) → prepend_known early.now (L.left link.old) ≡ Some all
        → told_at K.told first.place.seen.log first.place.count ≡ Some o → Imports K.refuses C.exact work.day work.limits
        (filled count all) o (told_at K.told result.1.seen.log result.1.count) desk.old.writer.posted
        (Some desk.new.writer.posted) result.0.outcome }
    ensures reads { IsReadTo count (prepend_known early.now (L.left link.old)) result.0.early.now (L.left link.new)
        result.0.read }
    ensures read { result.0.outcome ≡ ReadFault → IsStopped result.0.read }
    ensures stored { (all : List ℕ) (kept : DayRecord) → prepend_known early.now (L.left link.old) ≡ Some all
        → result.0.outcome ≡ Stored kept → HasNoneLeft result.0.read }
    ensures read_first { (all : List ℕ) → prepend_known early.now (L.left link.old) ≡ Some all
        → (told_at K.told result.1.seen.log result.1.count ≡ told_at K.told first.place.seen.log first.place.count)
        ⊎ HasNoneLeft result.0.read }
    ensures unwritten { L.written link.new ≡ L.written link.old }
    ensures room_kept { L.room link.new ≡ L.room link.old }
    ensures link_cause { HasReadCause (L.plan link.old) (L.faults link.old) (L.faults link.new) result.0.read }
    ensures link_later { L.faults link.old ≤ L.faults link.new }
    ensures link_sure { NeverFails (L.plan link.old) → NeverFails (L.plan link.new) }
    ensures unfailed { result.0.outcome ≢ WriteFault }
    ensures posted { (day : AnsweredDay) → result.0.outcome ≢ outcomes.Answered day }
    ensures cause { result.0.outcome ≡ KeeperFault → Rose keeper.old.faults keeper.new.faults }
    ensures still { result.0.outcome ≢ KeeperFault → keeper.new.faults ≡ keeper.old.faults }
{
    let begun = first.place.again();
    let mut held = keeper.at::<N>(first);
    let imported = desk.import(alloc, work, early, count, &mut held, link);
    let last = keeper.ends(held);
    begun.goes_to(&last);
    (imported, last)
}
