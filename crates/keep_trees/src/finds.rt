// Searches of one tree.
ghost use Rattle.std.specs.Prelude.{◌≡◌, ◌↔◌, ℕ, IsTrue, MatchResult};
ghost use Rattle.sqlite_pages.specs.Calls.{IsClean, Continues, FailsFor};
ghost use Rattle.sqlite_value.specs.Keys.{plain};
ghost use Rattle.sqlite_trees.specs.declared.store.Shape.TheVariants.{Table, Index};
ghost use Rattle.sqlite_trees.specs.Tree.{from_key};
ghost use Rattle.sqlite_trees.specs.View.{Finds};
ghost use Rattle.sqlite_store.specs.Db.{IsDb, IsLaid, Names as IsAt, rows_at, trees_in};
ghost use Rattle.sqlite_btree.specs.Chain.{Layout};
ghost use Rattle.sqlite_store.specs.Catalog.{reals_at};
ghost use Rattle.keep_trees.specs.Pages.{our_trees};
ghost use Rattle.keep_trees.specs.Finds.{IsFirst, HasKey, opens_with};

use crate::keys::Before;
use sqlite_btree::{Batch, Scratch, index, table};
use sqlite_pages::{Error, Pages};
use sqlite_record::fields::decode_into;
use sqlite_value::keys::Order;
use sqlite_value::row::Row;
use sqlite_value::value::ValueRef;

/// Writes the row of a table with a number over `row`, and says whether there is one.
pub fn read_row<P: Pages>(
    pages: &mut P,
    scratch: &mut Scratch,
    root: u32,
    number: i64,
    payload: &mut Vec<u8>,
    row: &mut Row,
) -> Result<bool, Error>
    ensures done { IsClean P.Pages pages.new → (layout : Layout)
        → IsLaid (P.Pages.size pages.old) (P.Pages.pages pages.old) layout Table root
        → MatchResult result
        (Finds (rows_at (P.Pages.size pages.old) (P.Pages.pages pages.old) Table root) number row.new)
        (FailsFor P.Pages pages.old pages.new ⊥) }
    ensures kept { Continues P.Pages pages.old pages.new }
    ensures pages { P.Pages.pages pages.new ≡ P.Pages.pages pages.old }
{
    if !table::get(pages, scratch, root, number, payload)? {
        return Ok(false);
    }
    row.clear();
    row.push(ValueRef::Int(number))?;
    decode_into(payload.as_slice(), 0, row)?;
    Ok(true)
}

/// The same in one of our tables.
pub fn find_row<P: Pages>(
    pages: &mut P,
    scratch: &mut Scratch,
    root: u32,
    number: i64,
    payload: &mut Vec<u8>,
    row: &mut Row,
) -> Result<bool, Error>
    ensures done { IsClean P.Pages pages.new → (t : ℕ)
        → IsDb (P.Pages.size pages.old) our_trees (P.Pages.pages pages.old)
        → IsAt (P.Pages.size pages.old) our_trees (P.Pages.pages pages.old) t Table root → reals_at our_trees t ≡ 0
        → MatchResult result
        (Finds (trees_in (P.Pages.size pages.old) our_trees (P.Pages.pages pages.old) t) number row.new)
        (FailsFor P.Pages pages.old pages.new ⊥) }
    ensures kept { Continues P.Pages pages.old pages.new }
    ensures pages { P.Pages.pages pages.new ≡ P.Pages.pages pages.old }
{
    read_row(pages, scratch, root, number, payload, row)
}

/// Writes the first entry that is not below a key over `row`, and says whether there is one.
pub fn find_entry<P: Pages>(
    pages: &mut P,
    scratch: &mut Scratch,
    root: u32,
    key: &Row,
    batch: &mut Batch,
    row: &mut Row,
) -> Result<bool, Error>
    ensures done { IsClean P.Pages pages.new → (t : ℕ)
        → IsDb (P.Pages.size pages.old) our_trees (P.Pages.pages pages.old)
        → IsAt (P.Pages.size pages.old) our_trees (P.Pages.pages pages.old) t (Index plain) root
        → reals_at our_trees t ≡ 0
        → MatchResult result
        (IsFirst (from_key plain key.now (trees_in (P.Pages.size pages.old) our_trees (P.Pages.pages pages.old) t))
        row.new)
        (FailsFor P.Pages pages.old pages.new ⊥) }
    ensures kept { Continues P.Pages pages.old pages.new }
    ensures pages { P.Pages.pages pages.new ≡ P.Pages.pages pages.old }
{
    index::fill(pages, scratch, root, &Before(key), batch)?;
    if !batch.next(pages)? {
        return Ok(false);
    }
    row.clear();
    decode_into(batch.payload(), 0, row)?;
    Ok(true)
}

/// Whether an entry begins with a key.
fn is_begun_by(entry: &Row, key: &Row) -> bool
    ensures { result ≡ opens_with key.now entry.now }
{
    entry.cmp_prefix(Order::PLAIN, key).is_eq()
}

/// Writes an entry that begins with a key over `row`, and says whether there is one.
pub fn find_key<P: Pages>(
    pages: &mut P,
    scratch: &mut Scratch,
    root: u32,
    key: &Row,
    batch: &mut Batch,
    row: &mut Row,
) -> Result<bool, Error>
    ensures done { IsClean P.Pages pages.new → (t : ℕ)
        → IsDb (P.Pages.size pages.old) our_trees (P.Pages.pages pages.old)
        → IsAt (P.Pages.size pages.old) our_trees (P.Pages.pages pages.old) t (Index plain) root
        → reals_at our_trees t ≡ 0
        → MatchResult result
        (HasKey (trees_in (P.Pages.size pages.old) our_trees (P.Pages.pages pages.old) t) key.now row.new)
        (FailsFor P.Pages pages.old pages.new ⊥) }
    ensures kept { Continues P.Pages pages.old pages.new }
    ensures pages { P.Pages.pages pages.new ≡ P.Pages.pages pages.old }
{
    if !find_entry(pages, scratch, root, key, batch, row)? {
        return Ok(false);
    }
    let begun = is_begun_by(row, key);
    Ok(begun)
}
