// Whether pages list our trees, and where those begin.
ghost use Rattle.std.specs.Prelude.{◌≡◌, ℕ, true, IfOk, IfSome};
ghost use Rattle.sqlite_pages.specs.Calls.{IsClean, Continues};
ghost use Rattle.sqlite_trees.specs.declared.store.Shape.TheVariants.{Table};
ghost use Rattle.sqlite_store.specs.Catalog.{reals_at};
ghost use Rattle.sqlite_store.specs.Db.{IsDb, Names as IsAt, roots_of, trees_in};
ghost use Rattle.keep_trees.specs.Pages.{our_trees, root_list, ListsSecond};

use crate::finds::find_row;
use crate::hands::Hands;
use crate::listing::{SCHEMA_ROOT, key_at, table_at};
use crate::numbering::{begins_after, ends_before};
use crate::roots::Roots;
use crate::values::holds;
use sqlite_pages::{Error, Pages};

/// Whether the tables are of version 2.
fn is_second<P: Pages>(pages: &mut P, hands: &mut Hands, form: u32) -> Result<bool, Error>
    ensures second { IsClean P.Pages pages.new → (t : ℕ)
        → IsDb (P.Pages.size pages.old) our_trees (P.Pages.pages pages.old)
        → IsAt (P.Pages.size pages.old) our_trees (P.Pages.pages pages.old) t Table form → reals_at our_trees t ≡ 0
        → IfOk result (λ is. is ≡ true
        → ListsSecond (trees_in (P.Pages.size pages.old) our_trees (P.Pages.pages pages.old) t)) }
    ensures kept { Continues P.Pages pages.old pages.new }
    ensures pages { P.Pages.pages pages.new ≡ P.Pages.pages pages.old }
{
    let there = find_row(
        pages,
        &mut hands.scratch,
        form,
        1,
        &mut hands.payload,
        &mut hands.row,
    )?;
    if !there {
        return Ok(false);
    }
    Ok(holds(&hands.row, 2, 2))
}

/// Whether rows of the numbers 1 to 7 are listed, and no others.
fn lists_seven<P: Pages>(pages: &mut P, hands: &mut Hands) -> Result<bool, Error>
    ensures kept { Continues P.Pages pages.old pages.new }
    ensures pages { P.Pages.pages pages.new ≡ P.Pages.pages pages.old }
{
    if !begins_after(pages, hands, SCHEMA_ROOT, 0)? {
        return Ok(false);
    }
    ends_before(pages, hands, SCHEMA_ROOT, 8)
}

/// Where our trees begin, if each is listed byte for byte.
fn listed_roots<P: Pages>(pages: &mut P, hands: &mut Hands) -> Result<Option<Roots>, Error>
    ensures done { IsClean P.Pages pages.new → IsDb (P.Pages.size pages.old) our_trees (P.Pages.pages pages.old)
        → IfOk result (λ found. IfSome found (λ roots.
        roots_of (P.Pages.size pages.old) our_trees (P.Pages.pages pages.old) ≡ root_list roots)) }
    ensures kept { Continues P.Pages pages.old pages.new }
    ensures pages { P.Pages.pages pages.new ≡ P.Pages.pages pages.old }
{
    let Some(days) = table_at(
        pages,
        hands,
        1,
        "days",
        "CREATE TABLE days (day INTEGER PRIMARY KEY, digest BLOB NOT NULL, bytes INTEGER NOT NULL,
  tuples INTEGER NOT NULL, notices INTEGER NOT NULL, notices_digest BLOB NOT NULL,
  total INTEGER NOT NULL) STRICT",
    )?
    else {
        return Ok(None);
    };
    let Some(spent) = table_at(
        pages,
        hands,
        2,
        "spent",
        "CREATE TABLE spent (day INTEGER NOT NULL, vid INTEGER NOT NULL, xway INTEGER NOT NULL,
  tolls INTEGER NOT NULL, PRIMARY KEY (day, vid, xway)) STRICT",
    )?
    else {
        return Ok(None);
    };
    let Some(spent_key) = key_at(pages, hands, 3)? else {
        return Ok(None);
    };
    let Some(past) = table_at(
        pages,
        hands,
        4,
        "past",
        "CREATE TABLE past (one INTEGER PRIMARY KEY CHECK (one = 1), base INTEGER NOT NULL,
  digest BLOB NOT NULL, bytes INTEGER NOT NULL, rows_kept INTEGER NOT NULL) STRICT",
    )?
    else {
        return Ok(None);
    };
    let Some(seals) = table_at(
        pages,
        hands,
        5,
        "day_tariffs",
        "CREATE TABLE day_tariffs (day INTEGER PRIMARY KEY, digest BLOB NOT NULL) STRICT",
    )?
    else {
        return Ok(None);
    };
    let Some(tariffs) = table_at(
        pages,
        hands,
        6,
        "tariffs",
        "CREATE TABLE tariffs (xway INTEGER PRIMARY KEY, crowd INTEGER NOT NULL,
  speed INTEGER NOT NULL, factor INTEGER NOT NULL) STRICT",
    )?
    else {
        return Ok(None);
    };
    let Some(form) = table_at(
        pages,
        hands,
        7,
        "form",
        "CREATE TABLE form (one INTEGER PRIMARY KEY CHECK (one = 1), version INTEGER NOT NULL) STRICT",
    )?
    else {
        return Ok(None);
    };
    Ok(Some(Roots {
        days,
        spent,
        spent_key,
        past,
        seals,
        tariffs,
        form,
    }))
}

/// Where our trees begin, if the pages list them and nothing more, byte for byte, and they are of version 2.
pub fn find_roots<P: Pages>(pages: &mut P, hands: &mut Hands) -> Result<Option<Roots>, Error>
    ensures done { IsClean P.Pages pages.new → IsDb (P.Pages.size pages.old) our_trees (P.Pages.pages pages.old)
        → IfOk result (λ found. IfSome found (λ roots.
        roots_of (P.Pages.size pages.old) our_trees (P.Pages.pages pages.old) ≡ root_list roots)) }
    ensures second { IsClean P.Pages pages.new → IsDb (P.Pages.size pages.old) our_trees (P.Pages.pages pages.old)
        → IfOk result (λ found. IfSome found (λ _. ListsSecond
        (trees_in (P.Pages.size pages.old) our_trees (P.Pages.pages pages.old) 6))) }
    ensures kept { Continues P.Pages pages.old pages.new }
    ensures pages { P.Pages.pages pages.new ≡ P.Pages.pages pages.old }
{
    let Some(roots) = listed_roots(pages, hands)? else {
        return Ok(None);
    };
    if !lists_seven(pages, hands)? {
        return Ok(None);
    }
    if !is_second(pages, hands, roots.form)? {
        return Ok(None);
    }
    Ok(Some(roots))
}
