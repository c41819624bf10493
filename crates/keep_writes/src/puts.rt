// What is put into the tables, each put in one transaction. Where one is refused, the database's error is told.
ghost use Rattle.std.specs.Prelude.{◌≡◌, ◌↔◌, ◌⊎◌, Some, IsTrue, IfErr, OnOk, OnErr};
ghost use Rattle.sqlite.specs.declared.error.Error.TheVariants.{SqliteFailure};
ghost use Rattle.sqlite.specs.declared.error.ErrorCode.TheVariants.{OutOfMemory};
ghost use Rattle.sqlite.specs.Held.{state};
ghost use Rattle.sqlite.specs.State.{HasCleanDisk, KeepsCommit, Survives};
ghost use Rattle.road_time.specs.Rates.{IsTariff};
ghost use Rattle.keep_office.specs.Office.{Office};
ghost use Rattle.keep_office.specs.Kept.{IsDayPut, IsPastPut, IsLater, HasNoDays, with_day, with_past, with_tariff_of};
ghost use Rattle.keep_office.specs.declared.kept.KeepFault.TheVariants.{NoMemory};
ghost use Rattle.keep_tables.specs.Stands.{HasOffice};
ghost use Rattle.keep_tables.specs.Steps.{CommitsFor, CommitsNow, FitsAny};
ghost use Rattle.keep_writes.specs.Causes.{RefusedOf, HasCauseOf, IsTold};
ghost use Rattle.keep_writes.specs.Runs.{CommitsRun, LeavesNow, LeavesRun};
ghost use Rattle.keep_writes.specs.Unmade.{SeesCommitted};
ghost use Rattle.keep_writes.specs.Writes.{day_texts, past_texts, tariff_texts};

use crate::day_writes::write_day;
use crate::past_writes::write_past;
use crate::refusals::refusal_told;
use crate::tariff_writes::write;
use crate::unfinished::settle;
use keep_office::{DayRecord, KeepFault, PastRecord};
use road_time::{SpentRow, Tariff};
use sqlite::{Alter, Connection, Error, ErrorCode};

/// Puts a day with its seal and its amounts.
pub fn put_day<S: Alter>(
    conn: &mut Connection<S>,
    kept: &DayRecord,
    rows: &[SpentRow],
    why: &mut Option<Error>,
) -> Result<(), KeepFault>
    requires { IsDayPut kept.now rows.now }
    ensures put { HasCleanDisk (state S.Store conn.new) → (o : Office)
        → HasOffice (state S.Store conn.old).committed o → IsLater kept.now.day o
        → OnOk result (HasOffice (state S.Store conn.new).committed (with_day kept.now rows.now o)) }
    ensures open { HasCleanDisk (state S.Store conn.new) → OnOk result (IsTrue (state S.Store conn.new).is_open) }
    ensures refused { HasCleanDisk (state S.Store conn.new)
        → OnErr result (KeepsCommit (state S.Store conn.old) (state S.Store conn.new)) }
    ensures why { HasCleanDisk (state S.Store conn.new)
        → IfErr result (HasCauseOf S.Store (day_texts kept.now rows.now) conn.old conn.new) }
    ensures wrote { HasCleanDisk (state S.Store conn.new)
        → OnOk result (CommitsRun S.Store (day_texts kept.now rows.now) conn.old conn.new) }
    ensures told { HasCleanDisk (state S.Store conn.new)
        → OnErr result (IsTold S.Store (day_texts kept.now rows.now) conn.old conn.new why.new) }
    ensures named { IfErr result (λ fault. (fault ≡ NoMemory) ↔ (why.new ≡ Some (SqliteFailure OutOfMemory))) }
    ensures quiet { OnOk result (why.new ≡ why.old) }
    ensures leaves { Survives (state S.Store conn.old) (state S.Store conn.new) (LeavesRun S.Store
        (day_texts kept.now rows.now) conn.old) }
    ensures crash { Survives (state S.Store conn.old) (state S.Store conn.new) (CommitsFor (IsLater kept.now.day)
        (with_day kept.now rows.now) (state S.Store conn.old).committed) }
{
    if let Err(error) = settle(conn) {
        return Err(refusal_told(error, why));
    }
    match keep_day(conn, kept, rows) {
        Ok(()) => Ok(()),
        Err(error) => Err(refusal_told(error, why)),
    }
}

/// Writes a day in one transaction.
fn keep_day<S: Alter>(
    conn: &mut Connection<S>,
    kept: &DayRecord,
    rows: &[SpentRow],
) -> Result<(), Error>
    requires { IsDayPut kept.now rows.now }
    ensures put { HasCleanDisk (state S.Store conn.new) → (o : Office) → HasOffice (state S.Store conn.old).now o
        → IsLater kept.now.day o → OnOk result (HasOffice (state S.Store conn.new).committed
        (with_day kept.now rows.now o)) }
    ensures open { HasCleanDisk (state S.Store conn.new)
        → OnOk result (IsTrue (state S.Store conn.old).is_open × IsTrue (state S.Store conn.new).is_open) }
    ensures refused { HasCleanDisk (state S.Store conn.new)
        → OnErr result (KeepsCommit (state S.Store conn.old) (state S.Store conn.new)) }
    ensures because { HasCleanDisk (state S.Store conn.new) → SeesCommitted (state S.Store conn.old)
        → IfErr result (λ e. IsTrue (state S.Store conn.old).in_transaction
        ⊎ RefusedOf S.Store (day_texts kept.now rows.now) conn.old conn.new e) }
    ensures wrote { HasCleanDisk (state S.Store conn.new) → SeesCommitted (state S.Store conn.old)
        → OnOk result (CommitsRun S.Store (day_texts kept.now rows.now) conn.old conn.new) }
    ensures leaves { Survives (state S.Store conn.old) (state S.Store conn.new) (LeavesNow S.Store
        (day_texts kept.now rows.now) conn.old) }
    ensures crash { Survives (state S.Store conn.old) (state S.Store conn.new) (CommitsNow (IsLater kept.now.day)
        (with_day kept.now rows.now) (state S.Store conn.old)) }
{
    if !conn.is_autocommit() {
        return Err(Error::SqliteFailure(ErrorCode::TransactionState));
    }
    let mut tx = conn.transaction();
    write_day(&mut tx, kept, rows)?;
    tx.commit()
}

/// Puts a history with its amounts.
pub fn put_past<S: Alter>(
    conn: &mut Connection<S>,
    kept: &PastRecord,
    rows: &[SpentRow],
    why: &mut Option<Error>,
) -> Result<(), KeepFault>
    requires { IsPastPut kept.now rows.now }
    ensures put { HasCleanDisk (state S.Store conn.new) → (o : Office)
        → HasOffice (state S.Store conn.old).committed o → HasNoDays o
        → OnOk result (HasOffice (state S.Store conn.new).committed (with_past kept.now rows.now o)) }
    ensures open { HasCleanDisk (state S.Store conn.new) → OnOk result (IsTrue (state S.Store conn.new).is_open) }
    ensures refused { HasCleanDisk (state S.Store conn.new)
        → OnErr result (KeepsCommit (state S.Store conn.old) (state S.Store conn.new)) }
    ensures why { HasCleanDisk (state S.Store conn.new)
        → IfErr result (HasCauseOf S.Store (past_texts kept.now rows.now) conn.old conn.new) }
    ensures wrote { HasCleanDisk (state S.Store conn.new)
        → OnOk result (CommitsRun S.Store (past_texts kept.now rows.now) conn.old conn.new) }
    ensures told { HasCleanDisk (state S.Store conn.new)
        → OnErr result (IsTold S.Store (past_texts kept.now rows.now) conn.old conn.new why.new) }
    ensures named { IfErr result (λ fault. (fault ≡ NoMemory) ↔ (why.new ≡ Some (SqliteFailure OutOfMemory))) }
    ensures quiet { OnOk result (why.new ≡ why.old) }
    ensures leaves { Survives (state S.Store conn.old) (state S.Store conn.new) (LeavesRun S.Store
        (past_texts kept.now rows.now) conn.old) }
    ensures crash { Survives (state S.Store conn.old) (state S.Store conn.new) (CommitsFor HasNoDays
        (with_past kept.now rows.now) (state S.Store conn.old).committed) }
{
    if let Err(error) = settle(conn) {
        return Err(refusal_told(error, why));
    }
    match keep_past(conn, kept, rows) {
        Ok(()) => Ok(()),
        Err(error) => Err(refusal_told(error, why)),
    }
}

/// Writes a history in one transaction.
fn keep_past<S: Alter>(
    conn: &mut Connection<S>,
    kept: &PastRecord,
    rows: &[SpentRow],
) -> Result<(), Error>
    requires { IsPastPut kept.now rows.now }
    ensures put { HasCleanDisk (state S.Store conn.new) → (o : Office) → HasOffice (state S.Store conn.old).now o
        → HasNoDays o → OnOk result (HasOffice (state S.Store conn.new).committed (with_past kept.now rows.now o)) }
    ensures open { HasCleanDisk (state S.Store conn.new)
        → OnOk result (IsTrue (state S.Store conn.old).is_open × IsTrue (state S.Store conn.new).is_open) }
    ensures refused { HasCleanDisk (state S.Store conn.new)
        → OnErr result (KeepsCommit (state S.Store conn.old) (state S.Store conn.new)) }
    ensures because { HasCleanDisk (state S.Store conn.new) → SeesCommitted (state S.Store conn.old)
        → IfErr result (λ e. IsTrue (state S.Store conn.old).in_transaction
        ⊎ RefusedOf S.Store (past_texts kept.now rows.now) conn.old conn.new e) }
    ensures wrote { HasCleanDisk (state S.Store conn.new) → SeesCommitted (state S.Store conn.old)
        → OnOk result (CommitsRun S.Store (past_texts kept.now rows.now) conn.old conn.new) }
    ensures leaves { Survives (state S.Store conn.old) (state S.Store conn.new) (LeavesNow S.Store
        (past_texts kept.now rows.now) conn.old) }
    ensures crash { Survives (state S.Store conn.old) (state S.Store conn.new) (CommitsNow HasNoDays
        (with_past kept.now rows.now) (state S.Store conn.old)) }
{
    if !conn.is_autocommit() {
        return Err(Error::SqliteFailure(ErrorCode::TransactionState));
    }
    let mut tx = conn.transaction();
    write_past(&mut tx, kept, rows)?;
    tx.commit()
}

/// Puts a tariff. The benchmark's takes the expressway's own away.
pub fn put_tariff<S: Alter>(
    conn: &mut Connection<S>,
    xway: u8,
    tariff: &Tariff,
    why: &mut Option<Error>,
) -> Result<(), KeepFault>
    requires { IsTariff tariff.now }
    ensures put { HasCleanDisk (state S.Store conn.new) → (o : Office)
        → HasOffice (state S.Store conn.old).committed o
        → OnOk result (HasOffice (state S.Store conn.new).committed (with_tariff_of xway tariff.now o)) }
    ensures open { HasCleanDisk (state S.Store conn.new) → OnOk result (IsTrue (state S.Store conn.new).is_open) }
    ensures refused { HasCleanDisk (state S.Store conn.new)
        → OnErr result (KeepsCommit (state S.Store conn.old) (state S.Store conn.new)) }
    ensures why { HasCleanDisk (state S.Store conn.new)
        → IfErr result (HasCauseOf S.Store (tariff_texts xway tariff.now) conn.old conn.new) }
    ensures wrote { HasCleanDisk (state S.Store conn.new)
        → OnOk result (CommitsRun S.Store (tariff_texts xway tariff.now) conn.old conn.new) }
    ensures told { HasCleanDisk (state S.Store conn.new)
        → OnErr result (IsTold S.Store (tariff_texts xway tariff.now) conn.old conn.new why.new) }
    ensures named { IfErr result (λ fault. (fault ≡ NoMemory) ↔ (why.new ≡ Some (SqliteFailure OutOfMemory))) }
    ensures quiet { OnOk result (why.new ≡ why.old) }
    ensures leaves { Survives (state S.Store conn.old) (state S.Store conn.new) (LeavesRun S.Store
        (tariff_texts xway tariff.now) conn.old) }
    ensures crash { Survives (state S.Store conn.old) (state S.Store conn.new) (CommitsFor FitsAny
        (with_tariff_of xway tariff.now) (state S.Store conn.old).committed) }
{
    if let Err(error) = settle(conn) {
        return Err(refusal_told(error, why));
    }
    match replace(conn, xway, tariff) {
        Ok(()) => Ok(()),
        Err(error) => Err(refusal_told(error, why)),
    }
}

/// Writes a tariff in one transaction.
fn replace<S: Alter>(conn: &mut Connection<S>, xway: u8, tariff: &Tariff) -> Result<(), Error>
    requires { IsTariff tariff.now }
    ensures put { HasCleanDisk (state S.Store conn.new) → (o : Office) → HasOffice (state S.Store conn.old).now o
        → OnOk result (HasOffice (state S.Store conn.new).committed (with_tariff_of xway tariff.now o)) }
    ensures open { HasCleanDisk (state S.Store conn.new)
        → OnOk result (IsTrue (state S.Store conn.old).is_open × IsTrue (state S.Store conn.new).is_open) }
    ensures refused { HasCleanDisk (state S.Store conn.new)
        → OnErr result (KeepsCommit (state S.Store conn.old) (state S.Store conn.new)) }
    ensures because { HasCleanDisk (state S.Store conn.new) → SeesCommitted (state S.Store conn.old)
        → IfErr result (λ e. IsTrue (state S.Store conn.old).in_transaction
        ⊎ RefusedOf S.Store (tariff_texts xway tariff.now) conn.old conn.new e) }
    ensures wrote { HasCleanDisk (state S.Store conn.new) → SeesCommitted (state S.Store conn.old)
        → OnOk result (CommitsRun S.Store (tariff_texts xway tariff.now) conn.old conn.new) }
    ensures leaves { Survives (state S.Store conn.old) (state S.Store conn.new) (LeavesNow S.Store
        (tariff_texts xway tariff.now) conn.old) }
    ensures crash { Survives (state S.Store conn.old) (state S.Store conn.new) (CommitsNow FitsAny
        (with_tariff_of xway tariff.now) (state S.Store conn.old)) }
{
    if !conn.is_autocommit() {
        return Err(Error::SqliteFailure(ErrorCode::TransactionState));
    }
    let mut tx = conn.transaction();
    write(&mut tx, xway, tariff)?;
    tx.commit()
}
