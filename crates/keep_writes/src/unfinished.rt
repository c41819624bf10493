// Undoes what is under way.
ghost use Rattle.std.specs.Prelude.{◌≡◌, false, [], Err, IsTrue, IfErr, OnOk};
ghost use Rattle.sqlite.specs.Held.{state};
ghost use Rattle.sqlite.specs.State.{HasCleanDisk, Executes, KeepsCommit, Survives};
ghost use Rattle.keep_tables.specs.Texts.{undo};
ghost use Rattle.keep_writes.specs.Causes.{RefusedIn};

use sqlite::{Alter, Connection, Error};

/// Undoes what is under way, if something is.
pub fn settle<S: Alter>(conn: &mut Connection<S>) -> Result<(), Error>
    ensures settled { HasCleanDisk (state S.Store conn.new) → IsTrue (state S.Store conn.new).is_open
        → OnOk result ((state S.Store conn.new).now ≡ (state S.Store conn.new).committed) }
    ensures calm { HasCleanDisk (state S.Store conn.new)
        → OnOk result ((state S.Store conn.new).in_transaction ≡ false) }
    ensures kept { HasCleanDisk (state S.Store conn.new)
        → KeepsCommit (state S.Store conn.old) (state S.Store conn.new) }
    ensures refused { HasCleanDisk (state S.Store conn.new)
        → IfErr result (RefusedIn S.Store conn.old conn.new) }
    ensures undo { HasCleanDisk (state S.Store conn.new)
        → IfErr result (λ e. IsTrue (state S.Store conn.old).in_transaction
        × Executes undo [] (state S.Store conn.old) (state S.Store conn.new) (Err e)) }
    ensures survives { Survives (state S.Store conn.old) (state S.Store conn.new) (λ _. ⊥) }
{
    if conn.is_autocommit() {
        return Ok(());
    }
    match conn.execute("ROLLBACK", &[]) {
        Ok(_) => Ok(()),
        Err(error) => Err(error),
    }
}
