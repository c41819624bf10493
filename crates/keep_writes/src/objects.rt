// The texts of the tables that a database lists.
ghost use Rattle.std.specs.Prelude.{◌≡◌, ◌↔◌, [], ◌∷◌, true, IfOk, IfErr, OnOk, IsTrue};
ghost use Rattle.sqlite_value.specs.declared.value.Value.TheVariants.{Text};
ghost use Rattle.sqlite.specs.Held.{state};
ghost use Rattle.sqlite.specs.State.{HasCleanDisk, FailsToQuery, Survives, KeepsCommit, IsUnchanged};
ghost use Rattle.keep_writes.specs.Objects.{list_texts as the_query, Lists, texts_of};

use crate::tables::{DAYS, PAST, SPENT};
use sqlite::types::ValueRef;
use sqlite::{Alter, Connection, Error, Row};

/// The texts of all that a database lists, in their order. An index that a key makes has none.
pub fn list_texts<S: Alter>(conn: &mut Connection<S>) -> Result<Vec<Row>, Error>
    ensures lists { HasCleanDisk (state S.Store conn.new)
        → IfOk result (λ rows. Lists (state S.Store conn.old).now rows.items) }
    ensures same { HasCleanDisk (state S.Store conn.new)
        → OnOk result (IsUnchanged (state S.Store conn.old) (state S.Store conn.new)) }
    ensures kept { HasCleanDisk (state S.Store conn.new)
        → KeepsCommit (state S.Store conn.old) (state S.Store conn.new) }
    ensures refused { HasCleanDisk (state S.Store conn.new)
        → IfErr result (FailsToQuery the_query [] (state S.Store conn.old) (state S.Store conn.new)) }
    ensures survives { Survives (state S.Store conn.old) (state S.Store conn.new) (λ _. ⊥) }
{
    conn.query_all(
        "SELECT sql FROM sqlite_schema WHERE sql IS NOT NULL ORDER BY sql",
        &[],
    )
}

/// Whether texts are those of version 1, or none.
pub fn are_texts(is_old: bool, texts: &[Row]) -> bool
    ensures { IsTrue result ↔ texts.now ≡ texts_of is_old }
{
    if is_old {
        return are_old(texts);
    }
    texts.is_empty()
}

/// Whether they are those of version 1.
fn are_old(texts: &[Row]) -> bool
    ensures { IsTrue result ↔ texts.now ≡ texts_of true }
{
    let [days, past, spent] = texts else {
        return false;
    };
    if !is_text(days, DAYS) {
        return false;
    }
    if !is_text(past, PAST) {
        return false;
    }
    is_text(spent, SPENT)
}

/// Whether a row is a text alone.
fn is_text(row: &Row, text: &str) -> bool
    ensures { IsTrue result ↔ row.now ≡ Text text.now ∷ [] }
{
    if row.column_count() != 1 {
        return false;
    }
    match row.get_ref(0) {
        Ok(ValueRef::Text(found)) => found == text.as_bytes(),
        _ => false,
    }
}
