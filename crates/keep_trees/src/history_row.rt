// The row of a history.
ghost use Rattle.std.specs.Prelude.{◌≡◌, ◌≤◌, IfOk, IfSome, MatchResult};
ghost use Rattle.sqlite_pages.specs.Calls.{IsClean, Continues, FailsFor};
ghost use Rattle.keep_office.specs.declared.kept.PastRecord.{PastRecord as History};
ghost use Rattle.keep_office.specs.Office.{Office};
ghost use Rattle.keep_tables.specs.Codec.{past_row};
ghost use Rattle.keep_tables.specs.Stands.{FitsPast};
ghost use Rattle.sqlite_store.specs.Db.{IsDb, roots_of, trees_in};
ghost use Rattle.keep_trees.specs.Pages.{our_trees, root_list, StandForOffice};
ghost use Rattle.keep_trees.specs.Tells.{HasPast, IsToldPast};

use crate::finds::find_row;
use crate::hands::Hands;
use crate::roots::Roots;
use crate::values::{digest_at, number_32, number_63};
use keep_office::PastRecord;
use sqlite_pages::{Error, Pages};
use sqlite_value::row::Row;

/// The history that a row is. Its base is 70 or more.
fn history_of(row: &Row) -> Result<PastRecord, Error>
    ensures gives { (p : History) → FitsPast p → 70 ≤ p.base → row.now ≡ past_row p
        → MatchResult result (λ q. q ≡ p) (λ e. ⊥) }
    ensures based { IfOk result (λ q. 70 ≤ q.base) }
    ensures reads { IfOk result (HasPast row.now) }
{
    let base = number_32(row, 2)?;
    let digest = digest_at(row, 3)?;
    let bytes = number_63(row, 4)?;
    let rows = number_63(row, 5)?;
    if base < 70 {
        return Err(Error::Corrupt);
    }
    Ok(PastRecord {
        base,
        digest,
        bytes,
        rows,
    })
}

/// The history, if one is kept.
pub fn history<P: Pages>(
    pages: &mut P,
    hands: &mut Hands,
    roots: Roots,
) -> Result<Option<PastRecord>, Error>
    ensures done { IsClean P.Pages pages.new → (o : Office)
        → StandForOffice (P.Pages.size pages.old) (P.Pages.pages pages.old) roots o
        → MatchResult result (λ past. past ≡ o.past) (FailsFor P.Pages pages.old pages.new ⊥) }
    ensures based { IfOk result (λ past. IfSome past (λ q. 70 ≤ q.base)) }
    ensures told { IsClean P.Pages pages.new → IsDb (P.Pages.size pages.old) our_trees (P.Pages.pages pages.old)
        → roots_of (P.Pages.size pages.old) our_trees (P.Pages.pages pages.old) ≡ root_list roots
        → IfOk result (IsToldPast (trees_in (P.Pages.size pages.old) our_trees (P.Pages.pages pages.old) 3)) }
    ensures kept { Continues P.Pages pages.old pages.new }
    ensures pages { P.Pages.pages pages.new ≡ P.Pages.pages pages.old }
{
    let there = find_row(
        pages,
        &mut hands.scratch,
        roots.past,
        1,
        &mut hands.payload,
        &mut hands.row,
    )?;
    if !there {
        return Ok(None);
    }
    let past = history_of(&hands.row)?;
    Ok(Some(past))
}
