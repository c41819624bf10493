// How sqlite_schema lists our trees.
ghost use Rattle.std.specs.Prelude.{◌≡◌, true, IfOk, IfSome, IsTrue, MatchResult};
ghost use Rattle.sqlite_pages.specs.Calls.{IsClean, Continues, FailsFor};
ghost use Rattle.sqlite_btree.specs.Cut.{IsIn};
ghost use Rattle.sqlite_trees.specs.declared.store.Shape.TheVariants.{Table};
ghost use Rattle.sqlite_trees.specs.View.{Finds};
ghost use Rattle.sqlite_store.specs.Catalog.{describes, root_in, same_value};
ghost use Rattle.sqlite_store.specs.Db.{IsDb, rows_at};
ghost use Rattle.sqlite_value.specs.declared.value.Value.TheVariants.{Null, Text};
ghost use Rattle.sqlite_value.specs.Order.{column};
ghost use Rattle.keep_trees.specs.Pages.{our_trees, table_listed, listed_key};

use crate::finds::read_row;
use crate::hands::Hands;
use crate::values::number_32;
use sqlite_pages::{Error, Pages};
use sqlite_value::order::compare;
use sqlite_value::row::Row;
use sqlite_value::value::ValueRef;

/// The page where the table begins that lists all trees.
pub const SCHEMA_ROOT: u32 = 1;

/// Whether a column is this text.
fn is_text(row: &Row, at: usize, text: &str) -> bool
    ensures { result ≡ same_value (column row.now at) (Text text.now) }
{
    compare(row.get(at), ValueRef::Text(text.as_bytes())).is_eq()
}

/// Whether a column is NULL.
fn is_null(row: &Row, at: usize) -> bool
    ensures { result ≡ same_value (column row.now at) Null }
{
    compare(row.get(at), ValueRef::Null).is_eq()
}

/// Whether a row of the list is of the table that a text makes.
fn is_table(row: &Row, name: &str, text: &str) -> bool
    ensures { IsTrue result → describes (table_listed name.now text.now) row.now ≡ true }
{
    if row.len() != 6 {
        return false;
    }
    if !is_text(row, 1, "table") {
        return false;
    }
    if !is_text(row, 2, name) {
        return false;
    }
    if !is_text(row, 3, name) {
        return false;
    }
    is_text(row, 5, text)
}

/// Whether a row of the list is of the index of the amounts.
fn is_key(row: &Row) -> bool
    ensures { IsTrue result → describes listed_key row.now ≡ true }
{
    if row.len() != 6 {
        return false;
    }
    if !is_text(row, 1, "index") {
        return false;
    }
    if !is_text(row, 2, "sqlite_autoindex_spent_1") {
        return false;
    }
    if !is_text(row, 3, "spent") {
        return false;
    }
    is_null(row, 5)
}

/// Writes the row of the list with a number over the hands' row, and says whether there is one.
fn list_row<P: Pages>(pages: &mut P, hands: &mut Hands, number: i64) -> Result<bool, Error>
    ensures done { IsClean P.Pages pages.new → IsDb (P.Pages.size pages.old) our_trees (P.Pages.pages pages.old)
        → MatchResult result
        (Finds (rows_at (P.Pages.size pages.old) (P.Pages.pages pages.old) Table 1) number hands.new.row)
        (FailsFor P.Pages pages.old pages.new ⊥) }
    ensures kept { Continues P.Pages pages.old pages.new }
    ensures pages { P.Pages.pages pages.new ≡ P.Pages.pages pages.old }
{
    read_row(
        pages,
        &mut hands.scratch,
        SCHEMA_ROOT,
        number,
        &mut hands.payload,
        &mut hands.row,
    )
}

/// Where a table begins, if the row with a number lists it so.
pub fn table_at<P: Pages>(
    pages: &mut P,
    hands: &mut Hands,
    number: i64,
    name: &str,
    text: &str,
) -> Result<Option<u32>, Error>
    ensures done { IsClean P.Pages pages.new → IsDb (P.Pages.size pages.old) our_trees (P.Pages.pages pages.old)
        → IsIn (table_listed name.now text.now) our_trees
        → IfOk result (λ found. IfSome found (λ root.
        root_in (rows_at (P.Pages.size pages.old) (P.Pages.pages pages.old) Table 1)
        (table_listed name.now text.now) ≡ root)) }
    ensures kept { Continues P.Pages pages.old pages.new }
    ensures pages { P.Pages.pages pages.new ≡ P.Pages.pages pages.old }
{
    if !list_row(pages, hands, number)? {
        return Ok(None);
    }
    if !is_table(&hands.row, name, text) {
        return Ok(None);
    }
    let root = number_32(&hands.row, 4)?;
    Ok(Some(root))
}

/// Where the index of the amounts begins, if the row with a number lists it so.
pub fn key_at<P: Pages>(pages: &mut P, hands: &mut Hands, number: i64) -> Result<Option<u32>, Error>
    ensures done { IsClean P.Pages pages.new → IsDb (P.Pages.size pages.old) our_trees (P.Pages.pages pages.old)
        → IfOk result (λ found. IfSome found (λ root.
        root_in (rows_at (P.Pages.size pages.old) (P.Pages.pages pages.old) Table 1) listed_key ≡ root)) }
    ensures kept { Continues P.Pages pages.old pages.new }
    ensures pages { P.Pages.pages pages.new ≡ P.Pages.pages pages.old }
{
    if !list_row(pages, hands, number)? {
        return Ok(None);
    }
    if !is_key(&hands.row) {
        return Ok(None);
    }
    let root = number_32(&hands.row, 4)?;
    Ok(Some(root))
}
