// Whether the rows of a table have numbers that are not below one, and not above another.
ghost use Rattle.std.specs.Prelude.{◌≡◌, ◌↔◌, IsTrue, MatchResult};
ghost use Rattle.sqlite_pages.specs.Calls.{IsClean, Continues, FailsFor};
ghost use Rattle.sqlite_btree.specs.Chain.{Layout};
ghost use Rattle.sqlite_trees.specs.declared.store.Shape.TheVariants.{Table};
ghost use Rattle.sqlite_store.specs.Db.{IsLaid, rows_at};
ghost use Rattle.keep_trees.specs.Finds.{EndBefore, BeginAfter};

use crate::hands::Hands;
use sqlite_btree::table;
use sqlite_pages::{Error, Pages};

/// Whether no row of a table has a number or one above it.
pub fn ends_before<P: Pages>(
    pages: &mut P,
    hands: &mut Hands,
    root: u32,
    number: i64,
) -> Result<bool, Error>
    ensures done { IsClean P.Pages pages.new → (layout : Layout)
        → IsLaid (P.Pages.size pages.old) (P.Pages.pages pages.old) layout Table root
        → MatchResult result
        (λ ends. IsTrue ends ↔ EndBefore (rows_at (P.Pages.size pages.old) (P.Pages.pages pages.old) Table root) number)
        (FailsFor P.Pages pages.old pages.new ⊥) }
    ensures kept { Continues P.Pages pages.old pages.new }
    ensures pages { P.Pages.pages pages.new ≡ P.Pages.pages pages.old }
{
    table::fill(pages, &mut hands.scratch, root, number, &mut hands.batch)?;
    Ok(hands.batch.is_empty())
}

/// Whether no row of a table has a number or one below it.
pub fn begins_after<P: Pages>(
    pages: &mut P,
    hands: &mut Hands,
    root: u32,
    number: i64,
) -> Result<bool, Error>
    ensures done { IsClean P.Pages pages.new → (layout : Layout)
        → IsLaid (P.Pages.size pages.old) (P.Pages.pages pages.old) layout Table root
        → MatchResult result
        (λ begins. IsTrue begins
        ↔ BeginAfter (rows_at (P.Pages.size pages.old) (P.Pages.pages pages.old) Table root) number)
        (FailsFor P.Pages pages.old pages.new ⊥) }
    ensures kept { Continues P.Pages pages.old pages.new }
    ensures pages { P.Pages.pages pages.new ≡ P.Pages.pages pages.old }
{
    table::fill_back(pages, &mut hands.scratch, root, number, &mut hands.batch)?;
    Ok(hands.batch.is_empty())
}
