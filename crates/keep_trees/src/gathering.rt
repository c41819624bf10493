// The amounts of some days, by a walk over the index.
ghost use Rattle.std.specs.Prelude.{◌≡◌, ◌∷◌, ◌++◌, [], Bool, nat_le, pos, take, filter, IfOk, OnOk};
ghost use Rattle.std.specs.Prelude.{MatchResult};
ghost use Rattle.sqlite_pages.specs.Calls.{IsClean, Continues, FailsFor};
ghost use Rattle.sqlite_btree.specs.Cut.{IsIn};
ghost use Rattle.sqlite_value.specs.declared.value.Value.TheVariants.{Int};
ghost use Rattle.sqlite_store.specs.Db.{IsDb, roots_of, trees_in};
ghost use Rattle.road_time.specs.declared.day.SpentRow.{SpentRow as Amount};
ghost use Rattle.keep_office.specs.Office.{Office, rows_between};
ghost use Rattle.keep_trees.specs.Pages.{our_trees, root_list, StandForOffice};
ghost use Rattle.keep_trees.specs.Rows.{row_key, is_within, Walking, IsWalkedTo};
ghost use Rattle.keep_trees.specs.Walks.{HasAhead, Advances};
ghost use Rattle.keep_trees.specs.Tolls.{IsAmountOf, AreToldRows, Telling, IsTelling};

use crate::amounts::tolls_named;
use crate::hands::Hands;
use crate::roots::Roots;
use crate::values::{number_8, number_32, row_number};
use crate::walks::{first_entry, next_entry};
use road_time::SpentRow;
use sqlite_btree::Scratch;
use sqlite_pages::{Error, Pages};
use sqlite_value::row::Row;
use sqlite_value::value::ValueRef;
use std::alloc::{AllocError, Global};

/// Writes the key of a day over `key`.
fn set_day(key: &mut Row, day: u32) -> Result<(), AllocError>
    ensures { OnOk result (key.new ≡ Int (pos day) ∷ []) }
{
    key.clear();
    key.push(ValueRef::Int(i64::from(day)))
}

/// The amount that an entry is of.
pub fn amount_behind<P: Pages>(
    pages: &mut P,
    scratch: &mut Scratch,
    roots: Roots,
    entry: &Row,
    payload: &mut Vec<u8>,
    row: &mut Row,
) -> Result<SpentRow, Error>
    ensures done { IsClean P.Pages pages.new → (o : Office)
        → StandForOffice (P.Pages.size pages.old) (P.Pages.pages pages.old) roots o
        → IsIn entry.now (trees_in (P.Pages.size pages.old) our_trees (P.Pages.pages pages.old) 2)
        → MatchResult result (λ r. (s : Amount) → IsIn s o.rows → take 3 entry.now ≡ row_key s → r ≡ s)
        (FailsFor P.Pages pages.old pages.new ⊥) }
    ensures told { IsClean P.Pages pages.new → IsDb (P.Pages.size pages.old) our_trees (P.Pages.pages pages.old)
        → roots_of (P.Pages.size pages.old) our_trees (P.Pages.pages pages.old) ≡ root_list roots
        → IfOk result (IsAmountOf (trees_in (P.Pages.size pages.old) our_trees (P.Pages.pages pages.old) 1) entry.now) }
    ensures kept { Continues P.Pages pages.old pages.new }
    ensures pages { P.Pages.pages pages.new ≡ P.Pages.pages pages.old }
{
    let day = number_32(entry, 0)?;
    let vid = number_32(entry, 1)?;
    let xway = number_8(entry, 2)?;
    let number = row_number(entry)?;
    let tolls = tolls_named(pages, scratch, roots, number, payload, row, day, vid, xway)?;
    Ok(SpentRow {
        day,
        vid,
        xway,
        tolls,
    })
}

/// Appends an amount that is not below the first day.
fn append(rows: &mut Vec<SpentRow>, from: u32, amount: SpentRow) -> Result<(), AllocError>
    ensures { OnOk result (rows.new.items ≡ rows.old.items ++ filter (λ r. nat_le from r.day) (amount ∷ [])) }
{
    if from <= amount.day {
        rows.push(amount)?;
    }
    Ok(())
}

/// Takes the amount that a walk stands at, if it is not before the first day, and goes on. Says whether more may come.
pub fn take_amount<P: Pages>(
    pages: &mut P,
    hands: &mut Hands,
    roots: Roots,
    from: u32,
    rows: &mut Vec<SpentRow>,
) -> Result<bool, Error>
    ensures done { IsClean P.Pages pages.new → (o : Office)
        → StandForOffice (P.Pages.size pages.old) (P.Pages.pages pages.old) roots o → (wanted : Amount → Bool)
        → Walking (P.Pages.size pages.old) (P.Pages.pages pages.old) o wanted
        hands.old.batch hands.old.entry rows.old.items
        → ((s : Amount) → IsIn s o.rows → take 3 hands.old.entry ≡ row_key s
        → filter (λ r. nat_le from r.day) (s ∷ []) ≡ filter wanted (s ∷ []))
        → MatchResult result
        (IsWalkedTo (P.Pages.size pages.old) (P.Pages.pages pages.old) o wanted
        hands.new.batch hands.new.entry rows.new.items)
        (FailsFor P.Pages pages.old pages.new ⊥) }
    ensures told { IsClean P.Pages pages.new → (db : IsDb (P.Pages.size pages.old) our_trees (P.Pages.pages pages.old))
        → roots_of (P.Pages.size pages.old) our_trees (P.Pages.pages pages.old) ≡ root_list roots
        → HasAhead (db.layouts 3) (P.Pages.size pages.old) (P.Pages.pages pages.old)
        (trees_in (P.Pages.size pages.old) our_trees (P.Pages.pages pages.old) 2) hands.old.batch hands.old.entry
        → IfOk result (λ found. (r : Amount)
        × IsAmountOf (trees_in (P.Pages.size pages.old) our_trees (P.Pages.pages pages.old) 1) hands.old.entry r
        × (rows.new.items ≡ rows.old.items ++ filter (λ s. nat_le from s.day) (r ∷ []))
        × Advances (db.layouts 3) (P.Pages.size pages.old) (P.Pages.pages pages.old)
        (trees_in (P.Pages.size pages.old) our_trees (P.Pages.pages pages.old) 2) hands.old.entry
        hands.new.batch hands.new.entry found) }
    ensures kept { Continues P.Pages pages.old pages.new }
    ensures pages { P.Pages.pages pages.new ≡ P.Pages.pages pages.old }
{
    let amount = amount_behind(
        pages,
        &mut hands.scratch,
        roots,
        &hands.entry,
        &mut hands.payload,
        &mut hands.row,
    )?;
    append(rows, from, amount)?;
    next_entry(
        pages,
        &mut hands.scratch,
        roots.spent_key,
        &mut hands.batch,
        &mut hands.entry,
    )
}

/// One step of the walk, which ends behind the last day. Says whether more may come.
fn step<P: Pages>(
    pages: &mut P,
    hands: &mut Hands,
    roots: Roots,
    from: u32,
    to: u32,
    rows: &mut Vec<SpentRow>,
) -> Result<bool, Error>
    ensures done { IsClean P.Pages pages.new → (o : Office)
        → StandForOffice (P.Pages.size pages.old) (P.Pages.pages pages.old) roots o
        → Walking (P.Pages.size pages.old) (P.Pages.pages pages.old) o (is_within from to)
        hands.old.batch hands.old.entry rows.old.items
        → MatchResult result
        (IsWalkedTo (P.Pages.size pages.old) (P.Pages.pages pages.old) o (is_within from to)
        hands.new.batch hands.new.entry rows.new.items)
        (FailsFor P.Pages pages.old pages.new ⊥) }
    ensures told { IsClean P.Pages pages.new
        → roots_of (P.Pages.size pages.old) our_trees (P.Pages.pages pages.old) ≡ root_list roots
        → Telling (P.Pages.size pages.old) (P.Pages.pages pages.old) from to hands.old.batch hands.old.entry
        rows.old.items
        → IfOk result (IsTelling (P.Pages.size pages.old) (P.Pages.pages pages.old) from to
        hands.new.batch hands.new.entry rows.new.items) }
    ensures kept { Continues P.Pages pages.old pages.new }
    ensures pages { P.Pages.pages pages.new ≡ P.Pages.pages pages.old }
{
    let day = number_32(&hands.entry, 0)?;
    if day > to {
        return Ok(false);
    }
    take_amount(pages, hands, roots, from, rows)
}

/// The amounts of some days, as the walk gives them.
pub fn gathered<P: Pages>(
    pages: &mut P,
    hands: &mut Hands,
    roots: Roots,
    alloc: Global,
    from: u32,
    to: u32,
) -> Result<Vec<SpentRow>, Error>
    ensures done { IsClean P.Pages pages.new → (o : Office)
        → StandForOffice (P.Pages.size pages.old) (P.Pages.pages pages.old) roots o
        → MatchResult result (λ rows. rows.items ≡ rows_between o from to) (FailsFor P.Pages pages.old pages.new ⊥) }
    ensures told { IsClean P.Pages pages.new → IsDb (P.Pages.size pages.old) our_trees (P.Pages.pages pages.old)
        → roots_of (P.Pages.size pages.old) our_trees (P.Pages.pages pages.old) ≡ root_list roots
        → IfOk result (λ rows. AreToldRows (trees_in (P.Pages.size pages.old) our_trees (P.Pages.pages pages.old) 1)
        (trees_in (P.Pages.size pages.old) our_trees (P.Pages.pages pages.old) 2) from to rows.items) }
    ensures kept { Continues P.Pages pages.old pages.new }
    ensures pages { P.Pages.pages pages.new ≡ P.Pages.pages pages.old }
{
    let mut rows = Vec::new(alloc);
    set_day(&mut hands.key, from)?;
    let found = first_entry(
        pages,
        &mut hands.scratch,
        roots.spent_key,
        &hands.key,
        &mut hands.batch,
        &mut hands.entry,
    )?;
    if !found {
        return Ok(rows);
    }
    'walk: for _ in 0..u64::MAX {
        let more = step(pages, hands, roots, from, to, &mut rows)?;
        if !more {
            return Ok(rows);
        }
    }
    Err(Error::OutOfMemory)
}
