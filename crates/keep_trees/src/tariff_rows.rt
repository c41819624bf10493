// The rows of tariffs.
ghost use Rattle.std.specs.Prelude.{◌≡◌, ◌+◌, ℕ, true, IfOk, MatchResult};
ghost use Rattle.std.specs.List.{AllByRecursion};
ghost use Rattle.sqlite_pages.specs.Calls.{IsClean, Continues, FailsFor};
ghost use Rattle.road_time.specs.declared.tariff.Tariff.{Tariff as Fare};
ghost use Rattle.road_time.specs.Rates.{IsTariff};
ghost use Rattle.keep_office.specs.Office.{Office};
ghost use Rattle.keep_tables.specs.Codec.{tariff_row};
ghost use Rattle.sqlite_store.specs.Db.{IsDb, roots_of, trees_in};
ghost use Rattle.keep_trees.specs.Pages.{our_trees, root_list, StandForOffice};
ghost use Rattle.keep_trees.specs.Tells.{HasTariff, AreToldBelow, HasXway, AreTold};
ghost use Rattle.keep_trees.specs.Own.{tariffs_below};

use crate::finds::find_row;
use crate::hands::Hands;
use crate::numbering::{begins_after, ends_before};
use crate::roots::Roots;
use crate::values::{number_8, number_32};
use road_time::{Tariff, Tariffs};
use sqlite_pages::{Error, Pages};
use sqlite_value::row::Row;
use std::alloc::Global;

/// The tariff that a row is, which is valid.
fn tariff_of(row: &Row) -> Result<Tariff, Error>
    ensures valid { IfOk result IsTariff }
    ensures reads { IfOk result (HasTariff row.now) }
    ensures gives { (xway : ℕ) (t : Fare) → IsTariff t → row.now ≡ tariff_row (xway, t)
        → MatchResult result (λ own. own ≡ t) (λ e. ⊥) }
{
    let crowd = number_32(row, 2)?;
    let speed = number_8(row, 3)?;
    let factor = number_8(row, 4)?;
    if crowd > 500_000 {
        return Err(Error::Corrupt);
    }
    if speed > 100 {
        return Err(Error::Corrupt);
    }
    if factor > 20 {
        return Err(Error::Corrupt);
    }
    Ok(Tariff {
        crowd,
        speed,
        factor,
    })
}

/// Takes the tariff of an expressway up, if it has one of its own.
fn add_tariff<P: Pages>(
    pages: &mut P,
    hands: &mut Hands,
    roots: Roots,
    xway: u8,
    tariffs: &mut Tariffs,
) -> Result<(), Error>
    ensures done { IsClean P.Pages pages.new → (o : Office)
        → StandForOffice (P.Pages.size pages.old) (P.Pages.pages pages.old) roots o
        → tariffs.old ≡ tariffs_below xway o.tariffs
        → MatchResult result (λ _. tariffs.new ≡ tariffs_below (xway + 1) o.tariffs)
        (FailsFor P.Pages pages.old pages.new ⊥) }
    ensures told { IsClean P.Pages pages.new → IsDb (P.Pages.size pages.old) our_trees (P.Pages.pages pages.old)
        → roots_of (P.Pages.size pages.old) our_trees (P.Pages.pages pages.old) ≡ root_list roots
        → AreToldBelow (trees_in (P.Pages.size pages.old) our_trees (P.Pages.pages pages.old) 5) xway tariffs.old
        → IfOk result (λ _. AreToldBelow (trees_in (P.Pages.size pages.old) our_trees (P.Pages.pages pages.old) 5)
        (xway + 1) tariffs.new) }
    ensures kept { Continues P.Pages pages.old pages.new }
    ensures pages { P.Pages.pages pages.new ≡ P.Pages.pages pages.old }
{
    let there = find_row(
        pages,
        &mut hands.scratch,
        roots.tariffs,
        i64::from(xway),
        &mut hands.payload,
        &mut hands.row,
    )?;
    if !there {
        return Ok(());
    }
    let tariff = tariff_of(&hands.row)?;
    match tariffs.set(xway, &tariff) {
        Ok(()) => Ok(()),
        Err(_) => Err(Error::OutOfMemory),
    }
}

/// Whether each row of tariffs has the number of an expressway.
fn are_numbered<P: Pages>(pages: &mut P, hands: &mut Hands, roots: Roots) -> Result<bool, Error>
    ensures done { IsClean P.Pages pages.new → (o : Office)
        → StandForOffice (P.Pages.size pages.old) (P.Pages.pages pages.old) roots o
        → MatchResult result (λ are. are ≡ true) (FailsFor P.Pages pages.old pages.new ⊥) }
    ensures told { IsClean P.Pages pages.new → IsDb (P.Pages.size pages.old) our_trees (P.Pages.pages pages.old)
        → roots_of (P.Pages.size pages.old) our_trees (P.Pages.pages pages.old) ≡ root_list roots
        → IfOk result (λ are. are ≡ true → AllByRecursion HasXway
        (trees_in (P.Pages.size pages.old) our_trees (P.Pages.pages pages.old) 5)) }
    ensures kept { Continues P.Pages pages.old pages.new }
    ensures pages { P.Pages.pages pages.new ≡ P.Pages.pages pages.old }
{
    let begins = begins_after(pages, hands, roots.tariffs, -1)?;
    if !begins {
        return Ok(false);
    }
    let ends = ends_before(pages, hands, roots.tariffs, 256)?;
    Ok(ends)
}

/// The tariffs of the 256 expressways that have their own.
fn each_tariff<P: Pages>(
    pages: &mut P,
    hands: &mut Hands,
    roots: Roots,
    alloc: Global,
) -> Result<Tariffs, Error>
    ensures done { IsClean P.Pages pages.new → (o : Office)
        → StandForOffice (P.Pages.size pages.old) (P.Pages.pages pages.old) roots o
        → MatchResult result (λ tariffs. tariffs ≡ o.tariffs) (FailsFor P.Pages pages.old pages.new ⊥) }
    ensures told { IsClean P.Pages pages.new → IsDb (P.Pages.size pages.old) our_trees (P.Pages.pages pages.old)
        → roots_of (P.Pages.size pages.old) our_trees (P.Pages.pages pages.old) ≡ root_list roots
        → IfOk result (AreToldBelow (trees_in (P.Pages.size pages.old) our_trees (P.Pages.pages pages.old) 5) 256) }
    ensures kept { Continues P.Pages pages.old pages.new }
    ensures pages { P.Pages.pages pages.new ≡ P.Pages.pages pages.old }
{
    let mut tariffs = Tariffs::new(alloc);
    'xways: for xway in 0..256u32 {
        add_tariff(pages, hands, roots, xway as u8, &mut tariffs)?;
    }
    Ok(tariffs)
}

/// The tariffs of the expressways that have their own. A row of another number is refused.
pub fn own_tariffs<P: Pages>(
    pages: &mut P,
    hands: &mut Hands,
    roots: Roots,
    alloc: Global,
) -> Result<Tariffs, Error>
    ensures done { IsClean P.Pages pages.new → (o : Office)
        → StandForOffice (P.Pages.size pages.old) (P.Pages.pages pages.old) roots o
        → MatchResult result (λ tariffs. tariffs ≡ o.tariffs) (FailsFor P.Pages pages.old pages.new ⊥) }
    ensures told { IsClean P.Pages pages.new → IsDb (P.Pages.size pages.old) our_trees (P.Pages.pages pages.old)
        → roots_of (P.Pages.size pages.old) our_trees (P.Pages.pages pages.old) ≡ root_list roots
        → IfOk result (AreTold (trees_in (P.Pages.size pages.old) our_trees (P.Pages.pages pages.old) 5)) }
    ensures kept { Continues P.Pages pages.old pages.new }
    ensures pages { P.Pages.pages pages.new ≡ P.Pages.pages pages.old }
{
    let numbered = are_numbered(pages, hands, roots)?;
    if !numbered {
        return Err(Error::Corrupt);
    }
    let tariffs = each_tariff(pages, hands, roots, alloc)?;
    Ok(tariffs)
}
