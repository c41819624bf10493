// Whether the tables are there, in version 2.
ghost use Rattle.std.specs.Prelude.{◌≡◌, ◌≢◌, true, false, [], ◌∷◌, pos, Ok, Err, IsTrue, IfErr, OnOk, OnErr};
ghost use Rattle.sqlite_value.specs.Order.{column};
ghost use Rattle.sqlite_value.specs.declared.value.Value.TheVariants.{Int};
ghost use Rattle.sqlite.specs.Held.{state};
ghost use Rattle.sqlite.specs.State.{HasCleanDisk, KeepsCommit, Survives};
ghost use Rattle.keep_office.specs.Office.{Office};
ghost use Rattle.keep_office.specs.declared.kept.KeepFault.TheVariants.{Failed, NoMemory};
ghost use Rattle.keep_tables.specs.Stands.{HasOffice, StandsForOffice};
ghost use Rattle.keep_writes.specs.Causes.{HasCause};
ghost use Rattle.keep_database.specs.Looks.{IsSecond, IsUnready, ShowsSecond, ShowsOther};

use crate::looks::look;
use crate::values::number_63;
use keep_office::KeepFault;
use sqlite::{Alter, Connection, Row};

/// Whether all six tables are there in version 2; refused where they are not.
pub fn ready<S: Alter>(conn: &mut Connection<S>) -> Result<(), KeepFault>
    ensures kept { HasCleanDisk (state S.Store conn.new)
        → KeepsCommit (state S.Store conn.old) (state S.Store conn.new) }
    ensures stands { HasCleanDisk (state S.Store conn.new) → (o : Office)
        → StandsForOffice (state S.Store conn.old).committed o
        → OnOk result (IsTrue (state S.Store conn.new).is_open × HasOffice (state S.Store conn.old).committed o) }
    ensures version { HasCleanDisk (state S.Store conn.new) → OnOk result (ShowsSecond S.Store conn.old conn.new) }
    ensures why { HasCleanDisk (state S.Store conn.new) → (o : Office)
        → StandsForOffice (state S.Store conn.old).committed o → IfErr result (HasCause S.Store conn.old conn.new) }
    ensures unready { HasCleanDisk (state S.Store conn.new) → IfErr result (IsUnready S.Store conn.old conn.new) }
    ensures survives { Survives (state S.Store conn.old) (state S.Store conn.new) (λ _. ⊥) }
{
    let found = look(conn, "SELECT version FROM form WHERE one = 1", &[])?;
    is_second(&found)
}

/// Whether version 2 is there, where the database can be asked.
pub fn has_second<S: Alter>(conn: &mut Connection<S>) -> Result<bool, KeepFault>
    ensures kept { HasCleanDisk (state S.Store conn.new)
        → KeepsCommit (state S.Store conn.old) (state S.Store conn.new) }
    ensures second { HasCleanDisk (state S.Store conn.new) → result ≡ Ok true
        → ShowsSecond S.Store conn.old conn.new }
    ensures other { HasCleanDisk (state S.Store conn.new) → result ≡ Ok false
        → ShowsOther S.Store conn.old conn.new }
    ensures why { HasCleanDisk (state S.Store conn.new) → IfErr result (HasCause S.Store conn.old conn.new) }
    ensures survives { Survives (state S.Store conn.old) (state S.Store conn.new) (λ _. ⊥) }
{
    let found = look(conn, "SELECT version FROM form WHERE one = 1", &[])?;
    match is_second(&found) {
        Ok(()) => Ok(true),
        Err(_) => Ok(false),
    }
}

/// Whether an answer has version 2; refused where it has not.
fn is_second(found: &[Row]) -> Result<(), KeepFault>
    ensures there { found.now ≡ (Int (pos 2) ∷ []) ∷ [] → result ≢ Err Failed }
    ensures second { OnOk result (IsSecond found.now) }
    ensures other { OnErr result (¬ IsSecond found.now) }
    ensures pure { result ≢ Err NoMemory }
{
    match found {
        [row] => is_two(row),
        _ => Err(KeepFault::Failed),
    }
}

/// Whether a row has version 2.
fn is_two(row: &Row) -> Result<(), KeepFault>
    ensures there { row.now ≡ Int (pos 2) ∷ [] → result ≢ Err Failed }
    ensures two { OnOk result (column row.now 0 ≡ Int (pos 2)) }
    ensures other { OnErr result (column row.now 0 ≢ Int (pos 2)) }
    ensures pure { result ≢ Err NoMemory }
{
    let version = number_63(row, 0)?;
    if version == 2 {
        Ok(())
    } else {
        Err(KeepFault::Failed)
    }
}
