// Amounts, found in the trees.
ghost use Rattle.std.specs.Prelude.{◌≡◌, true, IfOk, MatchResult};
ghost use Rattle.sqlite_value.specs.declared.value.Value.TheVariants.{Int};
ghost use Rattle.sqlite_value.specs.Order.{Row as Columns, column};
ghost use Rattle.sqlite_trees.specs.View.{Finds};
ghost use Rattle.sqlite_store.specs.Db.{IsDb, roots_of, trees_in};
ghost use Rattle.sqlite_pages.specs.Calls.{IsClean, Continues, FailsFor};
ghost use Rattle.road_time.specs.History.{paid};
ghost use Rattle.keep_office.specs.Office.{Office};
ghost use Rattle.keep_trees.specs.Pages.{our_trees, root_list, StandForOffice};
ghost use Rattle.keep_trees.specs.Finds.{amount_key, HasKey, HasColumns, IsHeldAmount};

use crate::finds::{find_key, find_row};
use crate::hands::Hands;
use crate::roots::Roots;
use crate::values::{row_number, set_key, tolls_at};
use sqlite_btree::Scratch;
use sqlite_pages::{Error, Pages};
use sqlite_value::row::Row;

/// The amount in the row of a number, which an entry with this key names.
pub fn tolls_named<P: Pages>(
    pages: &mut P,
    scratch: &mut Scratch,
    roots: Roots,
    number: i64,
    payload: &mut Vec<u8>,
    row: &mut Row,
    day: u32,
    vid: u32,
    xway: u8,
) -> Result<u64, Error>
    ensures done { IsClean P.Pages pages.new → (o : Office)
        → StandForOffice (P.Pages.size pages.old) (P.Pages.pages pages.old) roots o → (entry : Columns)
        → HasKey (trees_in (P.Pages.size pages.old) our_trees (P.Pages.pages pages.old) 2)
        (amount_key day vid xway) entry true
        → column entry 3 ≡ Int number
        → MatchResult result (λ tolls. tolls ≡ paid o.rows day vid xway) (FailsFor P.Pages pages.old pages.new ⊥) }
    ensures honest { IsClean P.Pages pages.new → IsDb (P.Pages.size pages.old) our_trees (P.Pages.pages pages.old)
        → roots_of (P.Pages.size pages.old) our_trees (P.Pages.pages pages.old) ≡ root_list roots
        → IfOk result (λ tolls. (found : Columns)
        × Finds (trees_in (P.Pages.size pages.old) our_trees (P.Pages.pages pages.old) 1) number found true
        × HasColumns found day vid xway tolls) }
    ensures kept { Continues P.Pages pages.old pages.new }
    ensures pages { P.Pages.pages pages.new ≡ P.Pages.pages pages.old }
{
    let there = find_row(pages, scratch, roots.spent, number, payload, row)?;
    if !there {
        return Err(Error::Corrupt);
    }
    tolls_at(row, day, vid, xway)
}

/// The amount of a vehicle on an expressway on a day, 0 for none.
pub fn amount<P: Pages>(
    pages: &mut P,
    hands: &mut Hands,
    roots: Roots,
    day: u32,
    vid: u32,
    xway: u8,
) -> Result<u64, Error>
    ensures done { IsClean P.Pages pages.new → (o : Office)
        → StandForOffice (P.Pages.size pages.old) (P.Pages.pages pages.old) roots o
        → MatchResult result (λ tolls. tolls ≡ paid o.rows day vid xway) (FailsFor P.Pages pages.old pages.new ⊥) }
    ensures honest { IsClean P.Pages pages.new → IsDb (P.Pages.size pages.old) our_trees (P.Pages.pages pages.old)
        → roots_of (P.Pages.size pages.old) our_trees (P.Pages.pages pages.old) ≡ root_list roots
        → IfOk result (IsHeldAmount (trees_in (P.Pages.size pages.old) our_trees (P.Pages.pages pages.old) 1)
        (trees_in (P.Pages.size pages.old) our_trees (P.Pages.pages pages.old) 2) day vid xway) }
    ensures kept { Continues P.Pages pages.old pages.new }
    ensures pages { P.Pages.pages pages.new ≡ P.Pages.pages pages.old }
{
    set_key(&mut hands.key, day, vid, xway)?;
    let found = find_key(
        pages,
        &mut hands.scratch,
        roots.spent_key,
        &hands.key,
        &mut hands.batch,
        &mut hands.row,
    )?;
    if !found {
        return Ok(0);
    }
    let number = row_number(&hands.row)?;
    tolls_named(
        pages,
        &mut hands.scratch,
        roots,
        number,
        &mut hands.payload,
        &mut hands.row,
        day,
        vid,
        xway,
    )
}
