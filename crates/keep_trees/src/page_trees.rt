// Pages whose trees were found, with what a keeper asks of them.
ghost use Rattle.std.specs.Prelude.{◌≡◌, ◌≤◌, IfOk, IfSome, MatchResult};
ghost use Rattle.sqlite_pages.specs.Calls.{IsClean, Continues};
ghost use Rattle.sqlite_pool.specs.Opening.{AreUsable};
ghost use Rattle.sqlite_store.specs.Db.{IsDb, roots_of, trees_in};
ghost use Rattle.road_time.specs.History.{paid};
ghost use Rattle.keep_office.specs.Office.{Office, RowsRise, last_day as last_of, record_of, rows_between};
ghost use Rattle.keep_office.specs.Office.{vehicle_rows_between};
ghost use Rattle.keep_trees.specs.Pages.{our_trees, root_list, HoldOffice, ListsSecond};
ghost use Rattle.keep_trees.specs.Pages.{StandForOffice, PagesStopped};
ghost use Rattle.keep_trees.specs.Finds.{IsHeldAmount};
ghost use Rattle.keep_trees.specs.Tolls.{AreToldRows, AreToldOf};
ghost use Rattle.keep_trees.specs.Tells.{IsToldDay, IsToldPast, IsToldLast, AreTold};
ghost use Rattle.keep_trees.specs.Gives.{AnswersUnless};

use crate::calls;
use crate::hands::Hands;
use crate::opening::find_roots;
use crate::roots::Roots;
use keep_office::{DayRecord, KeepFault, PastRecord};
use road_time::{SpentRow, Tariffs};
use sqlite_disk::Disk;
use sqlite_pages::{Error, Pages};
use sqlite_pool::Pool;
use std::alloc::Global;

/// Pages that list our trees, and where those begin.
#[derive(Drop)]
pub struct PageTrees<P: Pages> {
    pages: P,
    hands: Hands,
    roots: Roots,
}

impl<P: Pages> PageTrees<P> {
    /// The trees of pages. Pages that do not list exactly ours, in version 2, or cannot be read, are given back.
    pub fn open(alloc: Global, mut pages: P) -> Result<PageTrees<P>, P>
        ensures found { IfOk result (λ trees. IsClean P.Pages trees.pages → (o : Office)
            → HoldOffice (P.Pages.size pages) (P.Pages.pages pages) o
            → StandForOffice (P.Pages.size trees.pages) (P.Pages.pages trees.pages) trees.roots o) }
        ensures begins { IfOk result (λ trees. IsClean P.Pages trees.pages
            → IsDb (P.Pages.size pages) our_trees (P.Pages.pages pages)
            → roots_of (P.Pages.size pages) our_trees (P.Pages.pages pages) ≡ root_list trees.roots) }
        ensures second { IfOk result (λ trees. IsClean P.Pages trees.pages
            → IsDb (P.Pages.size pages) our_trees (P.Pages.pages pages)
            → ListsSecond (trees_in (P.Pages.size pages) our_trees (P.Pages.pages pages) 6)) }
        ensures same { MatchResult result
            (λ trees. Continues P.Pages pages trees.pages × (P.Pages.pages trees.pages ≡ P.Pages.pages pages))
            (λ back. Continues P.Pages pages back × (P.Pages.pages back ≡ P.Pages.pages pages)) }
    {
        let mut hands = Hands::new(alloc);
        match find_roots(&mut pages, &mut hands) {
            Ok(Some(roots)) => Ok(PageTrees {
                pages,
                hands,
                roots,
            }),
            _ => Err(pages),
        }
    }

    /// The pages, as they were.
    pub fn give_up(self) -> P
        ensures { result ≡ self.pages }
    {
        let PageTrees {
            pages,
            hands: _,
            roots: _,
        } = self;
        pages
    }

    /// The greatest kept day, else the day before the history's base, else 0.
    pub fn last_day(&mut self) -> Result<u32, KeepFault>
        ensures gives { IsClean P.Pages self.new.pages → (o : Office)
            → StandForOffice (P.Pages.size self.old.pages) (P.Pages.pages self.old.pages) self.old.roots o
            → AnswersUnless (PagesStopped P.Pages self.old.pages self.new.pages)
            (λ last. last ≡ last_of o) result }
        ensures told { IsClean P.Pages self.new.pages
            → IsDb (P.Pages.size self.old.pages) our_trees (P.Pages.pages self.old.pages)
            → roots_of (P.Pages.size self.old.pages) our_trees (P.Pages.pages self.old.pages) ≡ root_list self.old.roots
            → IfOk result (IsToldLast (trees_in (P.Pages.size self.old.pages) our_trees
            (P.Pages.pages self.old.pages) 0)
            (trees_in (P.Pages.size self.old.pages) our_trees (P.Pages.pages self.old.pages) 3)) }
        ensures kept { Continues P.Pages self.old.pages self.new.pages }
        ensures same { (P.Pages.pages self.new.pages ≡ P.Pages.pages self.old.pages)
            × (self.new.roots ≡ self.old.roots) }
    {
        calls::last_day(&mut self.pages, &mut self.hands, self.roots)
    }

    /// The record of a day, none if it is not kept.
    pub fn day(&mut self, day: u32) -> Result<Option<DayRecord>, KeepFault>
        ensures gives { IsClean P.Pages self.new.pages → (o : Office)
            → StandForOffice (P.Pages.size self.old.pages) (P.Pages.pages self.old.pages) self.old.roots o
            → AnswersUnless (PagesStopped P.Pages self.old.pages self.new.pages)
            (λ found. found ≡ record_of o day) result }
        ensures told { IsClean P.Pages self.new.pages
            → IsDb (P.Pages.size self.old.pages) our_trees (P.Pages.pages self.old.pages)
            → roots_of (P.Pages.size self.old.pages) our_trees (P.Pages.pages self.old.pages) ≡ root_list self.old.roots
            → IfOk result (IsToldDay (trees_in (P.Pages.size self.old.pages) our_trees
            (P.Pages.pages self.old.pages) 0)
            (trees_in (P.Pages.size self.old.pages) our_trees (P.Pages.pages self.old.pages) 4) day) }
        ensures kept { Continues P.Pages self.old.pages self.new.pages }
        ensures same { (P.Pages.pages self.new.pages ≡ P.Pages.pages self.old.pages)
            × (self.new.roots ≡ self.old.roots) }
    {
        calls::day(&mut self.pages, &mut self.hands, self.roots, day)
    }

    /// The record of the history, none if none is kept.
    pub fn past(&mut self) -> Result<Option<PastRecord>, KeepFault>
        ensures gives { IsClean P.Pages self.new.pages → (o : Office)
            → StandForOffice (P.Pages.size self.old.pages) (P.Pages.pages self.old.pages) self.old.roots o
            → AnswersUnless (PagesStopped P.Pages self.old.pages self.new.pages)
            (λ past. past ≡ o.past) result }
        ensures based { IfOk result (λ past. IfSome past (λ q. 70 ≤ q.base)) }
        ensures told { IsClean P.Pages self.new.pages
            → IsDb (P.Pages.size self.old.pages) our_trees (P.Pages.pages self.old.pages)
            → roots_of (P.Pages.size self.old.pages) our_trees (P.Pages.pages self.old.pages) ≡ root_list self.old.roots
            → IfOk result (IsToldPast (trees_in (P.Pages.size self.old.pages) our_trees
            (P.Pages.pages self.old.pages) 3)) }
        ensures kept { Continues P.Pages self.old.pages self.new.pages }
        ensures same { (P.Pages.pages self.new.pages ≡ P.Pages.pages self.old.pages)
            × (self.new.roots ≡ self.old.roots) }
    {
        calls::past(&mut self.pages, &mut self.hands, self.roots)
    }

    /// The amount of a vehicle on an expressway on a day, 0 for none.
    pub fn spent(&mut self, day: u32, vid: u32, xway: u8) -> Result<u64, KeepFault>
        ensures gives { IsClean P.Pages self.new.pages → (o : Office)
            → StandForOffice (P.Pages.size self.old.pages) (P.Pages.pages self.old.pages) self.old.roots o
            → AnswersUnless (PagesStopped P.Pages self.old.pages self.new.pages)
            (λ tolls. tolls ≡ paid o.rows day vid xway) result }
        ensures honest { IsClean P.Pages self.new.pages
            → IsDb (P.Pages.size self.old.pages) our_trees (P.Pages.pages self.old.pages)
            → roots_of (P.Pages.size self.old.pages) our_trees (P.Pages.pages self.old.pages) ≡ root_list self.old.roots
            → IfOk result (IsHeldAmount (trees_in (P.Pages.size self.old.pages) our_trees
            (P.Pages.pages self.old.pages) 1)
            (trees_in (P.Pages.size self.old.pages) our_trees (P.Pages.pages self.old.pages) 2) day vid xway) }
        ensures kept { Continues P.Pages self.old.pages self.new.pages }
        ensures same { (P.Pages.pages self.new.pages ≡ P.Pages.pages self.old.pages)
            × (self.new.roots ≡ self.old.roots) }
    {
        calls::spent(&mut self.pages, &mut self.hands, self.roots, day, vid, xway)
    }

    /// The amounts of some days, whose keys rise.
    pub fn rows(&mut self, alloc: Global, from: u32, to: u32) -> Result<Vec<SpentRow>, KeepFault>
        ensures gives { IsClean P.Pages self.new.pages → (o : Office)
            → StandForOffice (P.Pages.size self.old.pages) (P.Pages.pages self.old.pages) self.old.roots o
            → AnswersUnless (PagesStopped P.Pages self.old.pages self.new.pages)
            (λ rows. rows.items ≡ rows_between o from to) result }
        ensures told { IsClean P.Pages self.new.pages
            → IsDb (P.Pages.size self.old.pages) our_trees (P.Pages.pages self.old.pages)
            → roots_of (P.Pages.size self.old.pages) our_trees (P.Pages.pages self.old.pages) ≡ root_list self.old.roots
            → IfOk result (λ rows. AreToldRows (trees_in (P.Pages.size self.old.pages) our_trees
            (P.Pages.pages self.old.pages) 1)
            (trees_in (P.Pages.size self.old.pages) our_trees (P.Pages.pages self.old.pages) 2) from to rows.items) }
        ensures rise { IfOk result (λ rows. RowsRise rows.items) }
        ensures kept { Continues P.Pages self.old.pages self.new.pages }
        ensures same { (P.Pages.pages self.new.pages ≡ P.Pages.pages self.old.pages)
            × (self.new.roots ≡ self.old.roots) }
    {
        calls::rows(
            &mut self.pages,
            &mut self.hands,
            self.roots,
            alloc,
            from,
            to,
        )
    }

    /// The amounts of a vehicle on some days, whose keys rise.
    pub fn vehicle_rows(
        &mut self,
        alloc: Global,
        vid: u32,
        from: u32,
        to: u32,
    ) -> Result<Vec<SpentRow>, KeepFault>
        ensures gives { IsClean P.Pages self.new.pages → (o : Office)
            → StandForOffice (P.Pages.size self.old.pages) (P.Pages.pages self.old.pages) self.old.roots o
            → AnswersUnless (PagesStopped P.Pages self.old.pages self.new.pages)
            (λ rows. rows.items ≡ vehicle_rows_between o vid from to) result }
        ensures told { IsClean P.Pages self.new.pages
            → IsDb (P.Pages.size self.old.pages) our_trees (P.Pages.pages self.old.pages)
            → roots_of (P.Pages.size self.old.pages) our_trees (P.Pages.pages self.old.pages) ≡ root_list self.old.roots
            → IfOk result (λ rows. AreToldOf (trees_in (P.Pages.size self.old.pages) our_trees
            (P.Pages.pages self.old.pages) 1)
            (trees_in (P.Pages.size self.old.pages) our_trees (P.Pages.pages self.old.pages) 2) vid from to
            rows.items) }
        ensures rise { IfOk result (λ rows. RowsRise rows.items) }
        ensures kept { Continues P.Pages self.old.pages self.new.pages }
        ensures same { (P.Pages.pages self.new.pages ≡ P.Pages.pages self.old.pages)
            × (self.new.roots ≡ self.old.roots) }
    {
        calls::vehicle_rows(
            &mut self.pages,
            &mut self.hands,
            self.roots,
            alloc,
            vid,
            from,
            to,
        )
    }

    /// The tariffs of the expressways that have their own.
    pub fn tariffs(&mut self, alloc: Global) -> Result<Tariffs, KeepFault>
        ensures gives { IsClean P.Pages self.new.pages → (o : Office)
            → StandForOffice (P.Pages.size self.old.pages) (P.Pages.pages self.old.pages) self.old.roots o
            → AnswersUnless (PagesStopped P.Pages self.old.pages self.new.pages)
            (λ tariffs. tariffs ≡ o.tariffs) result }
        ensures told { IsClean P.Pages self.new.pages
            → IsDb (P.Pages.size self.old.pages) our_trees (P.Pages.pages self.old.pages)
            → roots_of (P.Pages.size self.old.pages) our_trees (P.Pages.pages self.old.pages) ≡ root_list self.old.roots
            → IfOk result (AreTold (trees_in (P.Pages.size self.old.pages) our_trees
            (P.Pages.pages self.old.pages) 5)) }
        ensures kept { Continues P.Pages self.old.pages self.new.pages }
        ensures same { (P.Pages.pages self.new.pages ≡ P.Pages.pages self.old.pages)
            × (self.new.roots ≡ self.old.roots) }
    {
        calls::tariffs(&mut self.pages, &mut self.hands, self.roots, alloc)
    }
}

/// Recovers the log and the free list of a pool, and no more of its pages.
pub fn recovered<D: Disk>(mut pool: Pool<D>) -> Result<Pool<D>, (Error, Pool<D>)>
    requires { AreUsable pool }
{
    match pool.recover(false) {
        Ok(()) => Ok(pool),
        Err(error) => Err((error, pool)),
    }
}
