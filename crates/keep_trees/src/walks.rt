// Walks over the entries of an index.
ghost use Rattle.std.specs.Prelude.{◌≡◌, ℕ, suc, MatchResult};
ghost use Rattle.sqlite_pages.specs.Calls.{IsClean, Continues, FailsFor};
ghost use Rattle.sqlite_value.specs.Keys.{plain};
ghost use Rattle.sqlite_trees.specs.declared.store.Shape.TheVariants.{Index};
ghost use Rattle.sqlite_store.specs.Db.{IsDb, Names as IsAt, trees_in};
ghost use Rattle.sqlite_store.specs.Catalog.{reals_at};
ghost use Rattle.keep_trees.specs.Pages.{our_trees};
ghost use Rattle.keep_trees.specs.Walks.{HasAhead, StartsAt, Advances, TakesEntry};
ghost use Rattle.sqlite_btree.specs.Chain.{Layout};
ghost use Rattle.sqlite_btree.specs.Stored.{IsLaidIn};
ghost use Rattle.sqlite_btree.specs.Batch.{IsBatchOf};

use crate::keys::{Before, Behind};
use sqlite_btree::{Batch, Scratch, index};
use sqlite_pages::{Error, Pages};
use sqlite_record::fields::decode_into;
use sqlite_value::row::Row;

/// Writes the first entry that is not below a key over `entry`, and says whether there is one.
pub fn first_entry<P: Pages>(
    pages: &mut P,
    scratch: &mut Scratch,
    root: u32,
    key: &Row,
    batch: &mut Batch,
    entry: &mut Row,
) -> Result<bool, Error>
    ensures done { IsClean P.Pages pages.new → (t : ℕ)
        → (db : IsDb (P.Pages.size pages.old) our_trees (P.Pages.pages pages.old))
        → IsAt (P.Pages.size pages.old) our_trees (P.Pages.pages pages.old) t (Index plain) root
        → reals_at our_trees t ≡ 0
        → MatchResult result
        (StartsAt (db.layouts (suc t)) (P.Pages.size pages.old) (P.Pages.pages pages.old)
        (trees_in (P.Pages.size pages.old) our_trees (P.Pages.pages pages.old) t) key.now batch.new entry.new)
        (FailsFor P.Pages pages.old pages.new ⊥) }
    ensures kept { Continues P.Pages pages.old pages.new }
    ensures pages { P.Pages.pages pages.new ≡ P.Pages.pages pages.old }
{
    index::fill(pages, scratch, root, &Before(key), batch)?;
    take_entry(pages, batch, entry)
}

/// Writes the entry that comes after `entry` over it, and says whether there is one.
pub fn next_entry<P: Pages>(
    pages: &mut P,
    scratch: &mut Scratch,
    root: u32,
    batch: &mut Batch,
    entry: &mut Row,
) -> Result<bool, Error>
    ensures done { IsClean P.Pages pages.new → (t : ℕ)
        → (db : IsDb (P.Pages.size pages.old) our_trees (P.Pages.pages pages.old))
        → IsAt (P.Pages.size pages.old) our_trees (P.Pages.pages pages.old) t (Index plain) root
        → reals_at our_trees t ≡ 0
        → HasAhead (db.layouts (suc t)) (P.Pages.size pages.old) (P.Pages.pages pages.old)
        (trees_in (P.Pages.size pages.old) our_trees (P.Pages.pages pages.old) t) batch.old entry.old
        → MatchResult result
        (Advances (db.layouts (suc t)) (P.Pages.size pages.old) (P.Pages.pages pages.old)
        (trees_in (P.Pages.size pages.old) our_trees (P.Pages.pages pages.old) t) entry.old batch.new entry.new)
        (FailsFor P.Pages pages.old pages.new ⊥) }
    ensures kept { Continues P.Pages pages.old pages.new }
    ensures pages { P.Pages.pages pages.new ≡ P.Pages.pages pages.old }
{
    if take_entry(pages, batch, entry)? {
        return Ok(true);
    }
    index::fill(pages, scratch, root, &Behind(entry), batch)?;
    take_entry(pages, batch, entry)
}

/// Writes the first entry that a batch has left over `entry`, and says whether there is one.
fn take_entry<P: Pages>(pages: &mut P, batch: &mut Batch, entry: &mut Row) -> Result<bool, Error>
    ensures done { IsClean P.Pages pages.new → (layout : Layout) → IsLaidIn layout (P.Pages.pages pages.old)
        → IsBatchOf layout (P.Pages.size pages.old) batch.old
        → MatchResult result
        (TakesEntry layout (P.Pages.size pages.old) (P.Pages.pages pages.old) batch.old batch.new entry.old entry.new)
        (FailsFor P.Pages pages.old pages.new ⊥) }
    ensures kept { Continues P.Pages pages.old pages.new }
    ensures pages { P.Pages.pages pages.new ≡ P.Pages.pages pages.old }
{
    if !batch.next(pages)? {
        return Ok(false);
    }
    entry.clear();
    decode_into(batch.payload(), 0, entry)?;
    Ok(true)
}
