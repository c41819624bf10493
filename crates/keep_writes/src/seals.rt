// The seals of days that were kept before tariffs were.
ghost use Rattle.std.specs.Prelude.{◌≡◌, [], pos, map, IsTrue, IfOk, IfErr, OnOk};
ghost use Rattle.sqlite_value.specs.Order.{column};
ghost use Rattle.sqlite_value.specs.declared.value.Value.TheVariants.{Int};
ghost use Rattle.sqlite.specs.Held.{state};
ghost use Rattle.sqlite.specs.Reading.{IsReadError};
ghost use Rattle.sqlite.specs.State.{HasCleanDisk, FailsToQuery, Survives, KeepsCommit, IsUnchanged, Shown};
ghost use Rattle.sqlite.specs.declared.error.Error.TheVariants.{SqliteFailure};
ghost use Rattle.sqlite.specs.declared.error.ErrorCode.TheVariants.{OutOfMemory};
ghost use Rattle.keep_office.specs.Kept.{seal_of};
ghost use Rattle.keep_office.specs.Office.{Office};
ghost use Rattle.keep_tables.specs.Shown.{number_columns};
ghost use Rattle.keep_tables.specs.Stands.{HoldsAs, contents_of};
ghost use Rattle.keep_tables.specs.Steps.{StaysInside};
ghost use Rattle.keep_tables.specs.Texts.{list_days};
ghost use Rattle.keep_writes.specs.Growth.{IsUnsealed};
ghost use Rattle.keep_writes.specs.Unmade.{SealsEach, RefusesSeals, SealsDays, EndsTables, EndsInside};

use crate::day_writes::put_seal;
use keep_office::seal;
use road_digest::Digest;
use road_time::Tariffs;
use sqlite::{Alter, Error, ErrorCode, Row, Transaction};
use std::alloc::Global;

/// Seals each kept day with the seal of no tariffs.
pub fn seal_tables<S: Alter>(tx: &mut Transaction<'_, S>, alloc: Global) -> Result<(), Error>
    ensures same_reference { tx.new.conn.ghost_name ≡ tx.old.conn.ghost_name }
    ensures seals { HasCleanDisk (state S.Store tx.new.conn.now)
        → IsTrue (state S.Store tx.old.conn.now).in_transaction → (o : Office)
        → IsUnsealed (state S.Store tx.old.conn.now).now o
        → OnOk result (HoldsAs [] (state S.Store tx.new.conn.now).now (contents_of o)) }
    ensures inside { HasCleanDisk (state S.Store tx.new.conn.now) → IsTrue (state S.Store tx.old.conn.now).is_open
        → IsTrue (state S.Store tx.old.conn.now).in_transaction
        → StaysInside (state S.Store tx.old.conn.now) (state S.Store tx.new.conn.now) result }
    ensures texts { HasCleanDisk (state S.Store tx.new.conn.now)
        → IsTrue (state S.Store tx.old.conn.now).in_transaction
        → OnOk result (SealsDays S.Store [] tx.old.conn.now tx.new.conn.now) }
    ensures refused { HasCleanDisk (state S.Store tx.new.conn.now)
        → IsTrue (state S.Store tx.old.conn.now).in_transaction
        → IfErr result (EndsInside S.Store (EndsTables S.Store []) tx.old.conn.now tx.new.conn.now) }
    ensures survives { Survives (state S.Store tx.old.conn.now) (state S.Store tx.new.conn.now) (λ _. ⊥) }
{
    let seal = seal_of_none(alloc)?;
    let days = all_days(tx)?;
    seal_days(tx, &seal, &days)
}

/// The seal of no tariffs.
fn seal_of_none(alloc: Global) -> Result<Digest, Error>
    ensures sealed { IfOk result (λ digest. digest ≡ seal_of []) }
    ensures memory { IfErr result (λ e. e ≡ SqliteFailure OutOfMemory) }
{
    let tariffs = Tariffs::new(alloc);
    match seal(alloc, &tariffs) {
        Ok(digest) => Ok(digest),
        Err(_) => Err(Error::SqliteFailure(ErrorCode::OutOfMemory)),
    }
}

/// The numbers of all kept days.
fn all_days<S: Alter>(tx: &mut Transaction<'_, S>) -> Result<Vec<Row>, Error>
    ensures same_reference { tx.new.conn.ghost_name ≡ tx.old.conn.ghost_name }
    ensures shown { HasCleanDisk (state S.Store tx.new.conn.now)
        → IfOk result (λ rows. Shown list_days [] (state S.Store tx.old.conn.now)
        (state S.Store tx.new.conn.now) rows.items) }
    ensures same { HasCleanDisk (state S.Store tx.new.conn.now)
        → OnOk result (IsUnchanged (state S.Store tx.old.conn.now) (state S.Store tx.new.conn.now)) }
    ensures kept { HasCleanDisk (state S.Store tx.new.conn.now)
        → KeepsCommit (state S.Store tx.old.conn.now) (state S.Store tx.new.conn.now) }
    ensures refused { HasCleanDisk (state S.Store tx.new.conn.now)
        → IsTrue (state S.Store tx.old.conn.now).in_transaction
        → IfErr result (FailsToQuery list_days [] (state S.Store tx.old.conn.now)
        (state S.Store tx.new.conn.now)) }
    ensures survives { Survives (state S.Store tx.old.conn.now) (state S.Store tx.new.conn.now) (λ _. ⊥) }
{
    tx.query_all("SELECT day FROM days ORDER BY day", &[])
}

/// Puts a seal for each of some days.
fn seal_days<S: Alter>(
    tx: &mut Transaction<'_, S>,
    seal: &Digest,
    days: &[Row],
) -> Result<(), Error>
    ensures same_reference { tx.new.conn.ghost_name ≡ tx.old.conn.ghost_name }
    ensures seals { HasCleanDisk (state S.Store tx.new.conn.now)
        → IsTrue (state S.Store tx.old.conn.now).in_transaction → (o : Office)
        → IsUnsealed (state S.Store tx.old.conn.now).now o
        → seal.now ≡ seal_of [] → days.now ≡ map number_columns o.days
        → OnOk result (HoldsAs [] (state S.Store tx.new.conn.now).now (contents_of o)) }
    ensures inside { HasCleanDisk (state S.Store tx.new.conn.now) → IsTrue (state S.Store tx.old.conn.now).is_open
        → IsTrue (state S.Store tx.old.conn.now).in_transaction
        → StaysInside (state S.Store tx.old.conn.now) (state S.Store tx.new.conn.now) result }
    ensures texts { HasCleanDisk (state S.Store tx.new.conn.now)
        → IsTrue (state S.Store tx.old.conn.now).in_transaction
        → OnOk result (SealsEach S.Store seal.now days.now tx.old.conn.now tx.new.conn.now) }
    ensures refused { HasCleanDisk (state S.Store tx.new.conn.now)
        → IsTrue (state S.Store tx.old.conn.now).in_transaction
        → IfErr result (EndsInside S.Store (RefusesSeals S.Store seal.now days.now)
        tx.old.conn.now tx.new.conn.now) }
    ensures survives { Survives (state S.Store tx.old.conn.now) (state S.Store tx.new.conn.now) (λ _. ⊥) }
{
    'days: for row in days {
        let day = number_of(row)?;
        put_seal(tx, day, seal)?;
    }
    Ok(())
}

/// The number in a row.
fn number_of(row: &Row) -> Result<u32, Error>
    ensures number { IfOk result (λ day. column row.now 0 ≡ Int (pos day)) }
    ensures unread { IfErr result (IsReadError 0 (column row.now 0)) }
{
    row.get::<u32>(0)
}
