// The calls of a keeper that read, over trees.
ghost use Rattle.std.specs.Prelude.{◌≡◌, ◌≤◌, IfOk, IfSome};
ghost use Rattle.sqlite_pages.specs.Calls.{IsClean, Continues};
ghost use Rattle.sqlite_store.specs.Db.{IsDb, roots_of, trees_in};
ghost use Rattle.road_time.specs.History.{paid};
ghost use Rattle.keep_office.specs.Office.{Office, RowsRise, last_day as last_of, record_of, rows_between};
ghost use Rattle.keep_office.specs.Office.{vehicle_rows_between};
ghost use Rattle.keep_trees.specs.Pages.{our_trees, root_list, StandForOffice, PagesStopped};
ghost use Rattle.keep_trees.specs.Finds.{IsHeldAmount};
ghost use Rattle.keep_trees.specs.Tolls.{AreToldRows, AreToldOf};
ghost use Rattle.keep_trees.specs.Tells.{IsToldDay, IsToldPast, IsToldLast, AreTold};
ghost use Rattle.keep_trees.specs.Gives.{AnswersUnless, keep_fault_of};

use crate::amounts::amount;
use crate::day_rows::{greatest, record};
use crate::gathering::gathered;
use crate::hands::Hands;
use crate::history_row::history;
use crate::order::rise;
use crate::roots::Roots;
use crate::tariff_rows::own_tariffs;
use crate::vehicles::gathered_of;
use keep_office::{DayRecord, KeepFault, PastRecord};
use road_time::{SpentRow, Tariffs};
use sqlite_pages::{Error, Pages};
use std::alloc::Global;

/// What an error of the pages is to a keeper.
pub fn fault(error: Error) -> KeepFault
    ensures { result ≡ keep_fault_of error }
{
    match error {
        Error::OutOfMemory => KeepFault::NoMemory,
        Error::Corrupt | Error::Io | Error::Full => KeepFault::Failed,
    }
}

/// The amount of a vehicle on an expressway on a day, 0 for none.
pub fn spent<P: Pages>(
    pages: &mut P,
    hands: &mut Hands,
    roots: Roots,
    day: u32,
    vid: u32,
    xway: u8,
) -> Result<u64, KeepFault>
    ensures gives { IsClean P.Pages pages.new → (o : Office)
        → StandForOffice (P.Pages.size pages.old) (P.Pages.pages pages.old) roots o
        → AnswersUnless (PagesStopped P.Pages pages.old pages.new) (λ tolls. tolls ≡ paid o.rows day vid xway) result }
    ensures honest { IsClean P.Pages pages.new → IsDb (P.Pages.size pages.old) our_trees (P.Pages.pages pages.old)
        → roots_of (P.Pages.size pages.old) our_trees (P.Pages.pages pages.old) ≡ root_list roots
        → IfOk result (IsHeldAmount (trees_in (P.Pages.size pages.old) our_trees (P.Pages.pages pages.old) 1)
        (trees_in (P.Pages.size pages.old) our_trees (P.Pages.pages pages.old) 2) day vid xway) }
    ensures kept { Continues P.Pages pages.old pages.new }
    ensures pages { P.Pages.pages pages.new ≡ P.Pages.pages pages.old }
{
    match amount(pages, hands, roots, day, vid, xway) {
        Ok(tolls) => Ok(tolls),
        Err(error) => Err(fault(error)),
    }
}

/// The amounts of some days, whose keys rise.
pub fn rows<P: Pages>(
    pages: &mut P,
    hands: &mut Hands,
    roots: Roots,
    alloc: Global,
    from: u32,
    to: u32,
) -> Result<Vec<SpentRow>, KeepFault>
    ensures gives { IsClean P.Pages pages.new → (o : Office)
        → StandForOffice (P.Pages.size pages.old) (P.Pages.pages pages.old) roots o
        → AnswersUnless (PagesStopped P.Pages pages.old pages.new)
        (λ rows. rows.items ≡ rows_between o from to) result }
    ensures told { IsClean P.Pages pages.new → IsDb (P.Pages.size pages.old) our_trees (P.Pages.pages pages.old)
        → roots_of (P.Pages.size pages.old) our_trees (P.Pages.pages pages.old) ≡ root_list roots
        → IfOk result (λ rows. AreToldRows (trees_in (P.Pages.size pages.old) our_trees (P.Pages.pages pages.old) 1)
        (trees_in (P.Pages.size pages.old) our_trees (P.Pages.pages pages.old) 2) from to rows.items) }
    ensures rise { IfOk result (λ rows. RowsRise rows.items) }
    ensures kept { Continues P.Pages pages.old pages.new }
    ensures pages { P.Pages.pages pages.new ≡ P.Pages.pages pages.old }
{
    match gathered(pages, hands, roots, alloc, from, to) {
        Ok(rows) => {
            if rise(&rows) {
                Ok(rows)
            } else {
                Err(KeepFault::Failed)
            }
        }
        Err(error) => Err(fault(error)),
    }
}

/// The greatest kept day, else the day before the history's base, else 0.
pub fn last_day<P: Pages>(pages: &mut P, hands: &mut Hands, roots: Roots) -> Result<u32, KeepFault>
    ensures gives { IsClean P.Pages pages.new → (o : Office)
        → StandForOffice (P.Pages.size pages.old) (P.Pages.pages pages.old) roots o
        → AnswersUnless (PagesStopped P.Pages pages.old pages.new) (λ last. last ≡ last_of o) result }
    ensures told { IsClean P.Pages pages.new → IsDb (P.Pages.size pages.old) our_trees (P.Pages.pages pages.old)
        → roots_of (P.Pages.size pages.old) our_trees (P.Pages.pages pages.old) ≡ root_list roots
        → IfOk result (IsToldLast (trees_in (P.Pages.size pages.old) our_trees (P.Pages.pages pages.old) 0)
        (trees_in (P.Pages.size pages.old) our_trees (P.Pages.pages pages.old) 3)) }
    ensures kept { Continues P.Pages pages.old pages.new }
    ensures pages { P.Pages.pages pages.new ≡ P.Pages.pages pages.old }
{
    match greatest(pages, hands, roots) {
        Ok(found) => Ok(found),
        Err(error) => Err(fault(error)),
    }
}

/// The record of a day, none if it is not kept.
pub fn day<P: Pages>(
    pages: &mut P,
    hands: &mut Hands,
    roots: Roots,
    day: u32,
) -> Result<Option<DayRecord>, KeepFault>
    ensures gives { IsClean P.Pages pages.new → (o : Office)
        → StandForOffice (P.Pages.size pages.old) (P.Pages.pages pages.old) roots o
        → AnswersUnless (PagesStopped P.Pages pages.old pages.new) (λ found. found ≡ record_of o day) result }
    ensures told { IsClean P.Pages pages.new → IsDb (P.Pages.size pages.old) our_trees (P.Pages.pages pages.old)
        → roots_of (P.Pages.size pages.old) our_trees (P.Pages.pages pages.old) ≡ root_list roots
        → IfOk result (IsToldDay (trees_in (P.Pages.size pages.old) our_trees (P.Pages.pages pages.old) 0)
        (trees_in (P.Pages.size pages.old) our_trees (P.Pages.pages pages.old) 4) day) }
    ensures kept { Continues P.Pages pages.old pages.new }
    ensures pages { P.Pages.pages pages.new ≡ P.Pages.pages pages.old }
{
    match record(pages, hands, roots, day) {
        Ok(found) => Ok(found),
        Err(error) => Err(fault(error)),
    }
}

/// The record of the history, none if none is kept.
pub fn past<P: Pages>(
    pages: &mut P,
    hands: &mut Hands,
    roots: Roots,
) -> Result<Option<PastRecord>, KeepFault>
    ensures gives { IsClean P.Pages pages.new → (o : Office)
        → StandForOffice (P.Pages.size pages.old) (P.Pages.pages pages.old) roots o
        → AnswersUnless (PagesStopped P.Pages pages.old pages.new) (λ past. past ≡ o.past) result }
    ensures based { IfOk result (λ past. IfSome past (λ q. 70 ≤ q.base)) }
    ensures told { IsClean P.Pages pages.new → IsDb (P.Pages.size pages.old) our_trees (P.Pages.pages pages.old)
        → roots_of (P.Pages.size pages.old) our_trees (P.Pages.pages pages.old) ≡ root_list roots
        → IfOk result (IsToldPast (trees_in (P.Pages.size pages.old) our_trees (P.Pages.pages pages.old) 3)) }
    ensures kept { Continues P.Pages pages.old pages.new }
    ensures pages { P.Pages.pages pages.new ≡ P.Pages.pages pages.old }
{
    match history(pages, hands, roots) {
        Ok(found) => Ok(found),
        Err(error) => Err(fault(error)),
    }
}

/// The tariffs of the expressways that have their own.
pub fn tariffs<P: Pages>(
    pages: &mut P,
    hands: &mut Hands,
    roots: Roots,
    alloc: Global,
) -> Result<Tariffs, KeepFault>
    ensures gives { IsClean P.Pages pages.new → (o : Office)
        → StandForOffice (P.Pages.size pages.old) (P.Pages.pages pages.old) roots o
        → AnswersUnless (PagesStopped P.Pages pages.old pages.new) (λ tariffs. tariffs ≡ o.tariffs) result }
    ensures told { IsClean P.Pages pages.new → IsDb (P.Pages.size pages.old) our_trees (P.Pages.pages pages.old)
        → roots_of (P.Pages.size pages.old) our_trees (P.Pages.pages pages.old) ≡ root_list roots
        → IfOk result (AreTold (trees_in (P.Pages.size pages.old) our_trees (P.Pages.pages pages.old) 5)) }
    ensures kept { Continues P.Pages pages.old pages.new }
    ensures pages { P.Pages.pages pages.new ≡ P.Pages.pages pages.old }
{
    match own_tariffs(pages, hands, roots, alloc) {
        Ok(found) => Ok(found),
        Err(error) => Err(fault(error)),
    }
}

/// The amounts of a vehicle on some days, whose keys rise.
pub fn vehicle_rows<P: Pages>(
    pages: &mut P,
    hands: &mut Hands,
    roots: Roots,
    alloc: Global,
    vid: u32,
    from: u32,
    to: u32,
) -> Result<Vec<SpentRow>, KeepFault>
    ensures gives { IsClean P.Pages pages.new → (o : Office)
        → StandForOffice (P.Pages.size pages.old) (P.Pages.pages pages.old) roots o
        → AnswersUnless (PagesStopped P.Pages pages.old pages.new)
        (λ rows. rows.items ≡ vehicle_rows_between o vid from to) result }
    ensures told { IsClean P.Pages pages.new → IsDb (P.Pages.size pages.old) our_trees (P.Pages.pages pages.old)
        → roots_of (P.Pages.size pages.old) our_trees (P.Pages.pages pages.old) ≡ root_list roots
        → IfOk result (λ rows. AreToldOf (trees_in (P.Pages.size pages.old) our_trees (P.Pages.pages pages.old) 1)
        (trees_in (P.Pages.size pages.old) our_trees (P.Pages.pages pages.old) 2) vid from to rows.items) }
    ensures rise { IfOk result (λ rows. RowsRise rows.items) }
    ensures kept { Continues P.Pages pages.old pages.new }
    ensures pages { P.Pages.pages pages.new ≡ P.Pages.pages pages.old }
{
    match gathered_of(pages, hands, roots, alloc, vid, from, to) {
        Ok(rows) => {
            if rise(&rows) {
                Ok(rows)
            } else {
                Err(KeepFault::Failed)
            }
        }
        Err(error) => Err(fault(error)),
    }
}
