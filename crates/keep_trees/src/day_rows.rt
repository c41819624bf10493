// The rows of days and of their seals.
ghost use Rattle.std.specs.Prelude.{◌≡◌, ◌≢◌, ◌<◌, ◌^◌, ℕ, pos, IfOk, MatchResult};
ghost use Rattle.sqlite_pages.specs.declared.error.Error.TheVariants.{Corrupt};
ghost use Rattle.sqlite_pages.specs.Calls.{IsClean, Continues, FailsFor};
ghost use Rattle.sqlite_store.specs.Db.{IsDb, roots_of, trees_in};
ghost use Rattle.keep_office.specs.declared.kept.DayRecord.{DayRecord as Day};
ghost use Rattle.keep_office.specs.Kept.{sealed};
ghost use Rattle.keep_office.specs.Office.{Office, record_of, last_day};
ghost use Rattle.keep_tables.specs.Codec.{day_row};
ghost use Rattle.keep_tables.specs.Stands.{FitsDay};
ghost use Rattle.keep_trees.specs.Pages.{our_trees, root_list, StandForOffice};
ghost use Rattle.keep_trees.specs.Days.{TellsDay, IsLastDay, HasOld, IsToldOld};
ghost use Rattle.keep_trees.specs.Tells.{IsToldDay, IsLastRow, IsToldLast};

use crate::finds::find_row;
use crate::hands::Hands;
use crate::history_row::history;
use crate::roots::Roots;
use crate::values::{digest_at, number_63};
use keep_office::{DayRecord, OldRecord};
use sqlite_btree::table;
use sqlite_pages::{Error, Pages};
use sqlite_value::row::Row;

/// What a row of days says of a day.
fn old_of(day: u32, row: &Row) -> Result<OldRecord, Error>
    ensures gives { (r : Day) → FitsDay r → r.day ≡ day → row.now ≡ day_row r
        → MatchResult result (λ old. sealed r.tariffs old ≡ r) (λ e. ⊥) }
    ensures numbered { IfOk result (λ old. old.day ≡ day) }
    ensures reads { IfOk result (HasOld row.now) }
{
    let digest = digest_at(row, 2)?;
    let bytes = number_63(row, 3)?;
    let tuples = number_63(row, 4)?;
    let notices = number_63(row, 5)?;
    let notices_digest = digest_at(row, 6)?;
    let total = number_63(row, 7)?;
    Ok(OldRecord {
        day,
        digest,
        bytes,
        tuples,
        notices,
        notices_digest,
        total,
    })
}

/// The record of a day but for its seal, if the day is kept.
fn unsealed_day<P: Pages>(
    pages: &mut P,
    hands: &mut Hands,
    roots: Roots,
    day: u32,
) -> Result<Option<OldRecord>, Error>
    ensures done { IsClean P.Pages pages.new → (o : Office)
        → StandForOffice (P.Pages.size pages.old) (P.Pages.pages pages.old) roots o
        → MatchResult result (TellsDay (record_of o day)) (FailsFor P.Pages pages.old pages.new ⊥) }
    ensures told { IsClean P.Pages pages.new → IsDb (P.Pages.size pages.old) our_trees (P.Pages.pages pages.old)
        → roots_of (P.Pages.size pages.old) our_trees (P.Pages.pages pages.old) ≡ root_list roots
        → IfOk result (IsToldOld (trees_in (P.Pages.size pages.old) our_trees (P.Pages.pages pages.old) 0) day) }
    ensures kept { Continues P.Pages pages.old pages.new }
    ensures pages { P.Pages.pages pages.new ≡ P.Pages.pages pages.old }
{
    let there = find_row(
        pages,
        &mut hands.scratch,
        roots.days,
        i64::from(day),
        &mut hands.payload,
        &mut hands.row,
    )?;
    if !there {
        return Ok(None);
    }
    let record = old_of(day, &hands.row)?;
    Ok(Some(record))
}

/// The record of a day, if it is kept.
pub fn record<P: Pages>(
    pages: &mut P,
    hands: &mut Hands,
    roots: Roots,
    day: u32,
) -> Result<Option<DayRecord>, Error>
    ensures done { IsClean P.Pages pages.new → (o : Office)
        → StandForOffice (P.Pages.size pages.old) (P.Pages.pages pages.old) roots o
        → MatchResult result (λ found. found ≡ record_of o day) (FailsFor P.Pages pages.old pages.new ⊥) }
    ensures told { IsClean P.Pages pages.new → IsDb (P.Pages.size pages.old) our_trees (P.Pages.pages pages.old)
        → roots_of (P.Pages.size pages.old) our_trees (P.Pages.pages pages.old) ≡ root_list roots
        → IfOk result (IsToldDay (trees_in (P.Pages.size pages.old) our_trees (P.Pages.pages pages.old) 0)
        (trees_in (P.Pages.size pages.old) our_trees (P.Pages.pages pages.old) 4) day) }
    ensures kept { Continues P.Pages pages.old pages.new }
    ensures pages { P.Pages.pages pages.new ≡ P.Pages.pages pages.old }
{
    let Some(old) = unsealed_day(pages, hands, roots, day)? else {
        return Ok(None);
    };
    let there = find_row(
        pages,
        &mut hands.scratch,
        roots.seals,
        i64::from(day),
        &mut hands.payload,
        &mut hands.row,
    )?;
    if !there {
        return Err(Error::Corrupt);
    }
    let seal = digest_at(&hands.row, 2)?;
    Ok(Some(old.seal(seal)))
}

/// The day that a number is.
fn day_in(number: i64) -> Result<u32, Error>
    ensures { MatchResult result (λ day. number ≡ pos day)
        (λ e. (e ≡ Corrupt) × ((n : ℕ) → n < 2 ^ 32 → number ≢ pos n)) }
{
    if number < 0 {
        return Err(Error::Corrupt);
    }
    if number > 4_294_967_295 {
        return Err(Error::Corrupt);
    }
    Ok(number as u32)
}

/// The greatest kept day, if a day is kept.
fn greatest_day<P: Pages>(
    pages: &mut P,
    hands: &mut Hands,
    roots: Roots,
) -> Result<Option<u32>, Error>
    ensures done { IsClean P.Pages pages.new → (o : Office)
        → StandForOffice (P.Pages.size pages.old) (P.Pages.pages pages.old) roots o
        → MatchResult result (IsLastDay o.days) (FailsFor P.Pages pages.old pages.new ⊥) }
    ensures last { IsClean P.Pages pages.new → IsDb (P.Pages.size pages.old) our_trees (P.Pages.pages pages.old)
        → roots_of (P.Pages.size pages.old) our_trees (P.Pages.pages pages.old) ≡ root_list roots
        → IfOk result (IsLastRow (trees_in (P.Pages.size pages.old) our_trees (P.Pages.pages pages.old) 0)) }
    ensures kept { Continues P.Pages pages.old pages.new }
    ensures pages { P.Pages.pages pages.new ≡ P.Pages.pages pages.old }
{
    table::fill_back(
        pages,
        &mut hands.scratch,
        roots.days,
        i64::MAX,
        &mut hands.batch,
    )?;
    if !hands.batch.next_back(pages)? {
        return Ok(None);
    }
    let day = day_in(hands.batch.rowid())?;
    Ok(Some(day))
}

/// The greatest kept day, else the day before the history's base, else 0.
pub fn greatest<P: Pages>(pages: &mut P, hands: &mut Hands, roots: Roots) -> Result<u32, Error>
    ensures done { IsClean P.Pages pages.new → (o : Office)
        → StandForOffice (P.Pages.size pages.old) (P.Pages.pages pages.old) roots o
        → MatchResult result (λ last. last ≡ last_day o) (FailsFor P.Pages pages.old pages.new ⊥) }
    ensures told { IsClean P.Pages pages.new → IsDb (P.Pages.size pages.old) our_trees (P.Pages.pages pages.old)
        → roots_of (P.Pages.size pages.old) our_trees (P.Pages.pages pages.old) ≡ root_list roots
        → IfOk result (IsToldLast (trees_in (P.Pages.size pages.old) our_trees (P.Pages.pages pages.old) 0)
        (trees_in (P.Pages.size pages.old) our_trees (P.Pages.pages pages.old) 3)) }
    ensures kept { Continues P.Pages pages.old pages.new }
    ensures pages { P.Pages.pages pages.new ≡ P.Pages.pages pages.old }
{
    if let Some(day) = greatest_day(pages, hands, roots)? {
        return Ok(day);
    }
    match history(pages, hands, roots)? {
        Some(past) => Ok(past.base.saturating_sub(1)),
        None => Ok(0),
    }
}
