// The statements of a put of a history.
ghost use Rattle.std.specs.Prelude.{◌≡◌, ◌<◌, ◌^◌, [], ◌∷◌, None, IsTrue, IfErr, OnOk};
ghost use Rattle.sqlite.specs.Held.{state};
ghost use Rattle.sqlite.specs.State.{HasCleanDisk, Survives};
ghost use Rattle.keep_office.specs.Office.{Office};
ghost use Rattle.keep_office.specs.Kept.{IsPastPut, HasNoDays, with_past};
ghost use Rattle.keep_tables.specs.Stands.{Contents, Holds, HasOffice, FitsPast, with_history};
ghost use Rattle.keep_tables.specs.Steps.{StaysInside};
ghost use Rattle.keep_writes.specs.Causes.{RefusedInside};
ghost use Rattle.keep_writes.specs.Runs.{RanAll};
ghost use Rattle.keep_writes.specs.Writes.{history_text, past_texts};

use crate::columns::{bytes_of, column};
use crate::spent_writes::put_amounts;
use keep_office::PastRecord;
use road_time::SpentRow;
use sqlite::{Alter, Error, Transaction, params};

/// Writes a history and its amounts.
pub fn write_past<S: Alter>(
    tx: &mut Transaction<'_, S>,
    kept: &PastRecord,
    rows: &[SpentRow],
) -> Result<(), Error>
    requires { IsPastPut kept.now rows.now }
    ensures same_reference { tx.new.conn.ghost_name ≡ tx.old.conn.ghost_name }
    ensures wrote { HasCleanDisk (state S.Store tx.new.conn.now)
        → IsTrue (state S.Store tx.old.conn.now).in_transaction → (o : Office)
        → HasOffice (state S.Store tx.old.conn.now).now o → HasNoDays o
        → OnOk result (HasOffice (state S.Store tx.new.conn.now).now (with_past kept.now rows.now o)) }
    ensures inside { HasCleanDisk (state S.Store tx.new.conn.now)
        → IsTrue (state S.Store tx.old.conn.now).in_transaction
        → StaysInside (state S.Store tx.old.conn.now) (state S.Store tx.new.conn.now) result }
    ensures refused { HasCleanDisk (state S.Store tx.new.conn.now)
        → IsTrue (state S.Store tx.old.conn.now).in_transaction
        → IfErr result (RefusedInside S.Store (past_texts kept.now rows.now) tx.old.conn.now tx.new.conn.now) }
    ensures ran { HasCleanDisk (state S.Store tx.new.conn.now)
        → IsTrue (state S.Store tx.old.conn.now).in_transaction
        → OnOk result (RanAll S.Store (past_texts kept.now rows.now) tx.old.conn.now tx.new.conn.now) }
    ensures survives { Survives (state S.Store tx.old.conn.now) (state S.Store tx.new.conn.now) (λ _. ⊥) }
{
    put_history(tx, kept)?;
    put_amounts(tx, rows)
}

/// Puts the record of a history where none is.
fn put_history<S: Alter>(tx: &mut Transaction<'_, S>, kept: &PastRecord) -> Result<(), Error>
    requires bytes { kept.now.bytes < 2 ^ 63 }
    requires rows { kept.now.rows < 2 ^ 63 }
    ensures fits { FitsPast kept.now }
    ensures same_reference { tx.new.conn.ghost_name ≡ tx.old.conn.ghost_name }
    ensures puts { HasCleanDisk (state S.Store tx.new.conn.now)
        → IsTrue (state S.Store tx.old.conn.now).in_transaction → (c : Contents)
        → Holds (state S.Store tx.old.conn.now).now c
        → c.past ≡ None → OnOk result (Holds (state S.Store tx.new.conn.now).now (with_history kept.now c)) }
    ensures inside { HasCleanDisk (state S.Store tx.new.conn.now)
        → IsTrue (state S.Store tx.old.conn.now).in_transaction
        → StaysInside (state S.Store tx.old.conn.now) (state S.Store tx.new.conn.now) result }
    ensures refused { HasCleanDisk (state S.Store tx.new.conn.now)
        → IsTrue (state S.Store tx.old.conn.now).in_transaction
        → IfErr result (RefusedInside S.Store (history_text kept.now ∷ []) tx.old.conn.now tx.new.conn.now) }
    ensures ran { HasCleanDisk (state S.Store tx.new.conn.now)
        → IsTrue (state S.Store tx.old.conn.now).in_transaction
        → OnOk result (RanAll S.Store (history_text kept.now ∷ []) tx.old.conn.now tx.new.conn.now) }
    ensures survives { Survives (state S.Store tx.old.conn.now) (state S.Store tx.new.conn.now) (λ _. ⊥) }
{
    let base = kept.base;
    let digest = bytes_of(&kept.digest.bytes);
    let bytes = column(kept.bytes);
    let count = column(kept.rows);
    match tx.execute(
        "INSERT INTO past VALUES (1, ?1, ?2, ?3, ?4)",
        params![base, digest, bytes, count],
    ) {
        Ok(_) => Ok(()),
        Err(error) => Err(error),
    }
}
