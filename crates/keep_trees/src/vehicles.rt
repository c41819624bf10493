// The amounts of a vehicle on some days, by a walk that steps over the other vehicles of a day.
ghost use Rattle.std.specs.Prelude.{◌≡◌, ◌^◌, IfOk, OnOk, MatchResult};
ghost use Rattle.sqlite_pages.specs.Calls.{IsClean, Continues, FailsFor};
ghost use Rattle.sqlite_value.specs.Keys.{plain};
ghost use Rattle.sqlite_trees.specs.declared.store.Shape.TheVariants.{Index};
ghost use Rattle.sqlite_store.specs.Db.{IsDb, Names as IsAt, roots_of, trees_in};
ghost use Rattle.keep_office.specs.Office.{Office, vehicle_rows_between};
ghost use Rattle.keep_trees.specs.Pages.{our_trees, root_list, StandForOffice};
ghost use Rattle.keep_trees.specs.Finds.{pair_key};
ghost use Rattle.keep_trees.specs.Walks.{StartsAt};
ghost use Rattle.keep_trees.specs.Tolls.{AreToldOf, TellingOf, IsTellingOf};
ghost use Rattle.keep_trees.specs.Rows.{is_of_vehicle, Walking, IsWalkedTo};

use crate::gathering::take_amount;
use crate::hands::Hands;
use crate::roots::Roots;
use crate::values::number_32;
use crate::walks::first_entry;
use road_time::SpentRow;
use sqlite_pages::{Error, Pages};
use sqlite_value::row::Row;
use sqlite_value::value::ValueRef;
use std::alloc::{AllocError, Global};

/// Writes the key of a day and a vehicle over `key`.
fn set_pair(key: &mut Row, day: u32, vid: u32) -> Result<(), AllocError>
    ensures { OnOk result (key.new ≡ pair_key day vid) }
{
    key.clear();
    key.push(ValueRef::Int(i64::from(day)))?;
    key.push(ValueRef::Int(i64::from(vid)))
}

/// Goes to the first entry of a vehicle on a day, or of what comes after it.
fn seek_pair<P: Pages>(
    pages: &mut P,
    hands: &mut Hands,
    roots: Roots,
    day: u32,
    vid: u32,
) -> Result<bool, Error>
    ensures done { IsClean P.Pages pages.new
        → (db : IsDb (P.Pages.size pages.old) our_trees (P.Pages.pages pages.old))
        → IsAt (P.Pages.size pages.old) our_trees (P.Pages.pages pages.old) 2 (Index plain) roots.spent_key
        → MatchResult result
        (StartsAt (db.layouts 3) (P.Pages.size pages.old) (P.Pages.pages pages.old)
        (trees_in (P.Pages.size pages.old) our_trees (P.Pages.pages pages.old) 2) (pair_key day vid)
        hands.new.batch hands.new.entry)
        (FailsFor P.Pages pages.old pages.new ⊥) }
    ensures kept { Continues P.Pages pages.old pages.new }
    ensures pages { P.Pages.pages pages.new ≡ P.Pages.pages pages.old }
{
    set_pair(&mut hands.key, day, vid)?;
    first_entry(
        pages,
        &mut hands.scratch,
        roots.spent_key,
        &hands.key,
        &mut hands.batch,
        &mut hands.entry,
    )
}

/// Writes the key that comes after all vehicles of a day over `key`.
fn set_end(key: &mut Row, day: u32) -> Result<(), AllocError>
    ensures { OnOk result (key.new ≡ pair_key day (2 ^ 32)) }
{
    key.clear();
    key.push(ValueRef::Int(i64::from(day)))?;
    key.push(ValueRef::Int(4_294_967_296))
}

/// Goes behind all vehicles of a day, to the first entry of what comes after it: a day that is no whole number is met.
fn leave_day<P: Pages>(
    pages: &mut P,
    hands: &mut Hands,
    roots: Roots,
    day: u32,
) -> Result<bool, Error>
    ensures done { IsClean P.Pages pages.new
        → (db : IsDb (P.Pages.size pages.old) our_trees (P.Pages.pages pages.old))
        → IsAt (P.Pages.size pages.old) our_trees (P.Pages.pages pages.old) 2 (Index plain) roots.spent_key
        → MatchResult result
        (StartsAt (db.layouts 3) (P.Pages.size pages.old) (P.Pages.pages pages.old)
        (trees_in (P.Pages.size pages.old) our_trees (P.Pages.pages pages.old) 2) (pair_key day (2 ^ 32))
        hands.new.batch hands.new.entry)
        (FailsFor P.Pages pages.old pages.new ⊥) }
    ensures kept { Continues P.Pages pages.old pages.new }
    ensures pages { P.Pages.pages pages.new ≡ P.Pages.pages pages.old }
{
    set_end(&mut hands.key, day)?;
    first_entry(
        pages,
        &mut hands.scratch,
        roots.spent_key,
        &hands.key,
        &mut hands.batch,
        &mut hands.entry,
    )
}

/// One step of the walk: an amount of the vehicle is taken, and what is of others is stepped over.
fn step<P: Pages>(
    pages: &mut P,
    hands: &mut Hands,
    roots: Roots,
    vid: u32,
    from: u32,
    to: u32,
    rows: &mut Vec<SpentRow>,
) -> Result<bool, Error>
    ensures done { IsClean P.Pages pages.new → (o : Office)
        → StandForOffice (P.Pages.size pages.old) (P.Pages.pages pages.old) roots o
        → Walking (P.Pages.size pages.old) (P.Pages.pages pages.old) o (is_of_vehicle vid from to)
        hands.old.batch hands.old.entry rows.old.items
        → MatchResult result
        (IsWalkedTo (P.Pages.size pages.old) (P.Pages.pages pages.old) o (is_of_vehicle vid from to)
        hands.new.batch hands.new.entry rows.new.items)
        (FailsFor P.Pages pages.old pages.new ⊥) }
    ensures told { IsClean P.Pages pages.new
        → roots_of (P.Pages.size pages.old) our_trees (P.Pages.pages pages.old) ≡ root_list roots
        → TellingOf (P.Pages.size pages.old) (P.Pages.pages pages.old) vid from to hands.old.batch hands.old.entry
        rows.old.items
        → IfOk result (IsTellingOf (P.Pages.size pages.old) (P.Pages.pages pages.old) vid from to
        hands.new.batch hands.new.entry rows.new.items) }
    ensures kept { Continues P.Pages pages.old pages.new }
    ensures pages { P.Pages.pages pages.new ≡ P.Pages.pages pages.old }
{
    let day = number_32(&hands.entry, 0)?;
    let other = number_32(&hands.entry, 1)?;
    if day > to {
        return Ok(false);
    }
    if other == vid {
        return take_amount(pages, hands, roots, from, rows);
    }
    if other < vid {
        return seek_pair(pages, hands, roots, day, vid);
    }
    if day == to {
        return Ok(false);
    }
    leave_day(pages, hands, roots, day)
}

/// The amounts of a vehicle on some days, as the walk gives them.
pub fn gathered_of<P: Pages>(
    pages: &mut P,
    hands: &mut Hands,
    roots: Roots,
    alloc: Global,
    vid: u32,
    from: u32,
    to: u32,
) -> Result<Vec<SpentRow>, Error>
    ensures done { IsClean P.Pages pages.new → (o : Office)
        → StandForOffice (P.Pages.size pages.old) (P.Pages.pages pages.old) roots o
        → MatchResult result (λ rows. rows.items ≡ vehicle_rows_between o vid from to)
        (FailsFor P.Pages pages.old pages.new ⊥) }
    ensures told { IsClean P.Pages pages.new → IsDb (P.Pages.size pages.old) our_trees (P.Pages.pages pages.old)
        → roots_of (P.Pages.size pages.old) our_trees (P.Pages.pages pages.old) ≡ root_list roots
        → IfOk result (λ rows. AreToldOf (trees_in (P.Pages.size pages.old) our_trees (P.Pages.pages pages.old) 1)
        (trees_in (P.Pages.size pages.old) our_trees (P.Pages.pages pages.old) 2) vid from to rows.items) }
    ensures kept { Continues P.Pages pages.old pages.new }
    ensures pages { P.Pages.pages pages.new ≡ P.Pages.pages pages.old }
{
    let mut rows = Vec::new(alloc);
    let found = seek_pair(pages, hands, roots, from, vid)?;
    if !found {
        return Ok(rows);
    }
    'walk: for _ in 0..u64::MAX {
        let more = step(pages, hands, roots, vid, from, to, &mut rows)?;
        if !more {
            return Ok(rows);
        }
    }
    Err(Error::OutOfMemory)
}
