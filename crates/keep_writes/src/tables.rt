// The statements that make tables.
ghost use Rattle.std.specs.Prelude.{◌≡◌, [], Err, IsTrue, IfErr, OnOk};
ghost use Rattle.sqlite.specs.Held.{state};
ghost use Rattle.sqlite.specs.State.{HasCleanDisk, ExecutesInside, Survives};
ghost use Rattle.keep_office.specs.Office.{Office};
ghost use Rattle.keep_tables.specs.Stands.{Contents, Holds, HoldsAs, HasOld, HasNothing};
ghost use Rattle.keep_tables.specs.Steps.{StaysInside};
ghost use Rattle.keep_writes.specs.Growth.{TextRan, RanInside, IsUnsealed};
ghost use Rattle.keep_tables.specs.Texts.{put_version as put_version_text};
ghost use Rattle.keep_writes.specs.Runs.{IsText, RanOne, RanAll};
ghost use Rattle.keep_writes.specs.Unmade.{old_texts, new_texts, RefusesEach, EndsInside};

use sqlite::{Alter, Error, Transaction};

/// The text of the table of days.
pub const DAYS: &str =
    "CREATE TABLE days (day INTEGER PRIMARY KEY, digest BLOB NOT NULL, bytes INTEGER NOT NULL,
  tuples INTEGER NOT NULL, notices INTEGER NOT NULL, notices_digest BLOB NOT NULL,
  total INTEGER NOT NULL) STRICT";

/// The text of the table of amounts.
pub const SPENT: &str =
    "CREATE TABLE spent (day INTEGER NOT NULL, vid INTEGER NOT NULL, xway INTEGER NOT NULL,
  tolls INTEGER NOT NULL, PRIMARY KEY (day, vid, xway)) STRICT";

/// The text of the table of the history.
pub const PAST: &str =
    "CREATE TABLE past (one INTEGER PRIMARY KEY CHECK (one = 1), base INTEGER NOT NULL,
  digest BLOB NOT NULL, bytes INTEGER NOT NULL, rows_kept INTEGER NOT NULL) STRICT";

/// Runs a text without parameters.
pub fn run<S: Alter>(tx: &mut Transaction<'_, S>, sql: &str) -> Result<(), Error>
    ensures same_reference { tx.new.conn.ghost_name ≡ tx.old.conn.ghost_name }
    ensures ran { HasCleanDisk (state S.Store tx.new.conn.now)
        → IsTrue (state S.Store tx.old.conn.now).in_transaction
        → OnOk result (TextRan sql.now (state S.Store tx.old.conn.now) (state S.Store tx.new.conn.now)) }
    ensures within { HasCleanDisk (state S.Store tx.new.conn.now)
        → IsTrue (state S.Store tx.old.conn.now).in_transaction
        → OnOk result (RanInside sql.now [] (state S.Store tx.old.conn.now) (state S.Store tx.new.conn.now)) }
    ensures inside { HasCleanDisk (state S.Store tx.new.conn.now)
        → IsTrue (state S.Store tx.old.conn.now).in_transaction
        → StaysInside (state S.Store tx.old.conn.now) (state S.Store tx.new.conn.now) result }
    ensures refused { HasCleanDisk (state S.Store tx.new.conn.now)
        → IsTrue (state S.Store tx.old.conn.now).in_transaction
        → IfErr result (λ e. ExecutesInside 0 sql.now [] (state S.Store tx.old.conn.now)
        (state S.Store tx.new.conn.now) (Err e)) }
    ensures survives { Survives (state S.Store tx.old.conn.now) (state S.Store tx.new.conn.now) (λ _. ⊥) }
{
    match tx.execute(sql, &[]) {
        Ok(_) => Ok(()),
        Err(error) => Err(error),
    }
}

/// Makes the tables of version 1.
pub fn make_old<S: Alter>(tx: &mut Transaction<'_, S>) -> Result<(), Error>
    ensures same_reference { tx.new.conn.ghost_name ≡ tx.old.conn.ghost_name }
    ensures made { HasCleanDisk (state S.Store tx.new.conn.now)
        → IsTrue (state S.Store tx.old.conn.now).in_transaction → (o : Office)
        → HasNothing (state S.Store tx.old.conn.now).now o
        → OnOk result (HasOld (state S.Store tx.new.conn.now).now o) }
    ensures inside { HasCleanDisk (state S.Store tx.new.conn.now)
        → IsTrue (state S.Store tx.old.conn.now).in_transaction
        → StaysInside (state S.Store tx.old.conn.now) (state S.Store tx.new.conn.now) result }
    ensures texts { HasCleanDisk (state S.Store tx.new.conn.now)
        → IsTrue (state S.Store tx.old.conn.now).in_transaction
        → OnOk result (RanAll S.Store old_texts tx.old.conn.now tx.new.conn.now) }
    ensures refused { HasCleanDisk (state S.Store tx.new.conn.now)
        → IsTrue (state S.Store tx.old.conn.now).in_transaction
        → IfErr result (EndsInside S.Store (RefusesEach S.Store old_texts) tx.old.conn.now tx.new.conn.now) }
    ensures survives { Survives (state S.Store tx.old.conn.now) (state S.Store tx.new.conn.now) (λ _. ⊥) }
{
    run(tx, DAYS)?;
    run(tx, SPENT)?;
    run(tx, PAST)
}

/// Makes the tables that version 2 has more.
pub fn make_rest<S: Alter>(tx: &mut Transaction<'_, S>) -> Result<(), Error>
    ensures same_reference { tx.new.conn.ghost_name ≡ tx.old.conn.ghost_name }
    ensures made { HasCleanDisk (state S.Store tx.new.conn.now)
        → IsTrue (state S.Store tx.old.conn.now).in_transaction → (o : Office)
        → HasOld (state S.Store tx.old.conn.now).now o
        → OnOk result (IsUnsealed (state S.Store tx.new.conn.now).now o) }
    ensures inside { HasCleanDisk (state S.Store tx.new.conn.now)
        → IsTrue (state S.Store tx.old.conn.now).in_transaction
        → StaysInside (state S.Store tx.old.conn.now) (state S.Store tx.new.conn.now) result }
    ensures texts { HasCleanDisk (state S.Store tx.new.conn.now)
        → IsTrue (state S.Store tx.old.conn.now).in_transaction
        → OnOk result (RanAll S.Store new_texts tx.old.conn.now tx.new.conn.now) }
    ensures refused { HasCleanDisk (state S.Store tx.new.conn.now)
        → IsTrue (state S.Store tx.old.conn.now).in_transaction
        → IfErr result (EndsInside S.Store (RefusesEach S.Store new_texts) tx.old.conn.now tx.new.conn.now) }
    ensures survives { Survives (state S.Store tx.old.conn.now) (state S.Store tx.new.conn.now) (λ _. ⊥) }
{
    run(
        tx,
        "CREATE TABLE day_tariffs (day INTEGER PRIMARY KEY, digest BLOB NOT NULL) STRICT",
    )?;
    run(
        tx,
        "CREATE TABLE tariffs (xway INTEGER PRIMARY KEY, crowd INTEGER NOT NULL,
  speed INTEGER NOT NULL, factor INTEGER NOT NULL) STRICT",
    )?;
    run(
        tx,
        "CREATE TABLE form (one INTEGER PRIMARY KEY CHECK (one = 1), version INTEGER NOT NULL) STRICT",
    )
}

/// Puts version 2.
pub fn put_version<S: Alter>(tx: &mut Transaction<'_, S>) -> Result<(), Error>
    ensures same_reference { tx.new.conn.ghost_name ≡ tx.old.conn.ghost_name }
    ensures puts { HasCleanDisk (state S.Store tx.new.conn.now)
        → IsTrue (state S.Store tx.old.conn.now).in_transaction → (c : Contents)
        → HoldsAs [] (state S.Store tx.old.conn.now).now c → OnOk result (Holds (state S.Store tx.new.conn.now).now c) }
    ensures inside { HasCleanDisk (state S.Store tx.new.conn.now)
        → IsTrue (state S.Store tx.old.conn.now).in_transaction
        → StaysInside (state S.Store tx.old.conn.now) (state S.Store tx.new.conn.now) result }
    ensures texts { HasCleanDisk (state S.Store tx.new.conn.now)
        → IsTrue (state S.Store tx.old.conn.now).in_transaction
        → OnOk result (RanOne S.Store (IsText (put_version_text, [])) tx.old.conn.now tx.new.conn.now) }
    ensures refused { HasCleanDisk (state S.Store tx.new.conn.now)
        → IsTrue (state S.Store tx.old.conn.now).in_transaction
        → IfErr result (λ e. ExecutesInside 0 put_version_text [] (state S.Store tx.old.conn.now)
        (state S.Store tx.new.conn.now) (Err e)) }
    ensures survives { Survives (state S.Store tx.old.conn.now) (state S.Store tx.new.conn.now) (λ _. ⊥) }
{
    run(tx, "INSERT INTO form VALUES (1, 2)")
}
