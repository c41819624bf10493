// The statements that put amounts.
ghost use Rattle.std.specs.Prelude.{◌≡◌, ◌<◌, ◌^◌, [], ◌∷◌, map, pos, IsTrue, IfErr, OnOk};
ghost use Rattle.std.specs.List.{AllByRecursion};
ghost use Rattle.sqlite.specs.Held.{state};
ghost use Rattle.sqlite.specs.State.{HasCleanDisk, Survives};
ghost use Rattle.keep_tables.specs.Layout.{all_tables};
ghost use Rattle.keep_tables.specs.Stands.{FitsSpent};
ghost use Rattle.keep_tables.specs.Steps.{StaysInside, AddsAmounts};
ghost use Rattle.keep_writes.specs.Causes.{RefusedInside};
ghost use Rattle.keep_writes.specs.Runs.{RanAll};
ghost use Rattle.keep_writes.specs.Writes.{amount_text};

use crate::columns::column;
use road_time::SpentRow;
use sqlite::{Alter, Error, Transaction, params};

/// Puts one amount.
pub fn put_amount<S: Alter>(
    tx: &mut Transaction<'_, S>,
    row: &SpentRow,
    tolls: i64,
) -> Result<(), Error>
    requires stored { tolls ≡ pos row.now.tolls }
    requires small { row.now.tolls < 2 ^ 63 }
    ensures fits { FitsSpent row.now }
    ensures same_reference { tx.new.conn.ghost_name ≡ tx.old.conn.ghost_name }
    ensures adds { HasCleanDisk (state S.Store tx.new.conn.now)
        → IsTrue (state S.Store tx.old.conn.now).in_transaction
        → (state S.Store tx.old.conn.now).now.schema ≡ all_tables
        → OnOk result (AddsAmounts (state S.Store tx.old.conn.now).now (state S.Store tx.new.conn.now).now
        (row.now ∷ [])) }
    ensures inside { HasCleanDisk (state S.Store tx.new.conn.now)
        → IsTrue (state S.Store tx.old.conn.now).in_transaction
        → StaysInside (state S.Store tx.old.conn.now) (state S.Store tx.new.conn.now) result }
    ensures refused { HasCleanDisk (state S.Store tx.new.conn.now)
        → IsTrue (state S.Store tx.old.conn.now).in_transaction
        → IfErr result (RefusedInside S.Store (amount_text row.now ∷ []) tx.old.conn.now tx.new.conn.now) }
    ensures ran { HasCleanDisk (state S.Store tx.new.conn.now)
        → IsTrue (state S.Store tx.old.conn.now).in_transaction
        → OnOk result (RanAll S.Store (amount_text row.now ∷ []) tx.old.conn.now tx.new.conn.now) }
    ensures survives { Survives (state S.Store tx.old.conn.now) (state S.Store tx.new.conn.now) (λ _. ⊥) }
{
    let day = row.day;
    let vid = row.vid;
    let xway = row.xway;
    match tx.execute(
        "INSERT INTO spent VALUES (?1, ?2, ?3, ?4)",
        params![day, vid, u32::from(xway), tolls],
    ) {
        Ok(_) => Ok(()),
        Err(error) => Err(error),
    }
}

/// Puts amounts, one after another.
pub fn put_amounts<S: Alter>(tx: &mut Transaction<'_, S>, rows: &[SpentRow]) -> Result<(), Error>
    requires { AllByRecursion (λ r. r.tolls < 2 ^ 63) rows.now }
    ensures fits { OnOk result (AllByRecursion FitsSpent rows.now) }
    ensures same_reference { tx.new.conn.ghost_name ≡ tx.old.conn.ghost_name }
    ensures adds { HasCleanDisk (state S.Store tx.new.conn.now)
        → IsTrue (state S.Store tx.old.conn.now).in_transaction
        → (state S.Store tx.old.conn.now).now.schema ≡ all_tables
        → OnOk result (AddsAmounts (state S.Store tx.old.conn.now).now (state S.Store tx.new.conn.now).now rows.now) }
    ensures inside { HasCleanDisk (state S.Store tx.new.conn.now) → IsTrue (state S.Store tx.old.conn.now).is_open
        → IsTrue (state S.Store tx.old.conn.now).in_transaction
        → StaysInside (state S.Store tx.old.conn.now) (state S.Store tx.new.conn.now) result }
    ensures refused { HasCleanDisk (state S.Store tx.new.conn.now)
        → IsTrue (state S.Store tx.old.conn.now).in_transaction
        → IfErr result (RefusedInside S.Store (map amount_text rows.now) tx.old.conn.now tx.new.conn.now) }
    ensures ran { HasCleanDisk (state S.Store tx.new.conn.now)
        → IsTrue (state S.Store tx.old.conn.now).in_transaction
        → OnOk result (RanAll S.Store (map amount_text rows.now) tx.old.conn.now tx.new.conn.now) }
    ensures survives { Survives (state S.Store tx.old.conn.now) (state S.Store tx.new.conn.now) (λ _. ⊥) }
{
    'rows: for row in rows {
        put_amount(tx, row, column(row.tolls))?;
    }
    Ok(())
}
