// The calls on a database that stands for an office.
ghost use Rattle.std.specs.Prelude.{◌≡◌, ◌≢◌, ◌≤◌, ◌⊎◌, [], Err, IsTrue, IfOk, IfErr, IfSome, IsSome, OnOk, OnErr};
ghost use Rattle.sqlite.specs.Held.{state};
ghost use Rattle.sqlite.specs.State.{HasCleanDisk, KeepsCommit, Survives};
ghost use Rattle.road_time.specs.Rates.{IsTariff};
ghost use Rattle.keep_office.specs.Office.{Office, RowsRise, last_day as last_day_of, record_of, rows_between};
ghost use Rattle.keep_office.specs.Office.{vehicle_rows_between};
ghost use Rattle.road_time.specs.History.{paid};
ghost use Rattle.keep_office.specs.Kept.{IsDayPut, IsPastPut, IsLater, HasNoDays, with_day, with_past, with_tariff_of};
ghost use Rattle.keep_office.specs.declared.kept.KeepFault.TheVariants.{NoMemory};
ghost use Rattle.keep_tables.specs.Stands.{HasOffice, StandsForOffice};
ghost use Rattle.keep_tables.specs.Steps.{FitsAny};
ghost use Rattle.keep_writes.specs.Causes.{WasRefusedIn, HasCauseOf, LackedMemory};
ghost use Rattle.keep_writes.specs.Runs.{CommitsRun, LeavesRun};
ghost use Rattle.keep_writes.specs.Writes.{day_texts, past_texts, tariff_texts};
ghost use Rattle.keep_database.specs.Gives.{GivesUnless, WantsMemory};
ghost use Rattle.keep_database.specs.Looks.{CommitsFrom, HasSecond, IsSealed, TellsRefusal};
ghost use Rattle.keep_database.specs.Shows.{ShowsDay, ShowsLast, ShowsPast, ShowsRows, ShowsSpent, ShowsTariffs};
ghost use Rattle.keep_database.specs.Shows.{ShowsVehicleRows};

use crate::reads;
use crate::versions::ready;
use keep_office::{DayRecord, KeepFault, PastRecord};
use keep_writes::puts;
use road_time::{SpentRow, Tariff, Tariffs};
use sqlite::{Alter, Connection, Error};
use std::alloc::Global;

/// The greatest kept day, else the day before the history's base, else 0.
pub fn last_day<S: Alter>(conn: &mut Connection<S>) -> Result<u32, KeepFault>
    ensures kept { HasCleanDisk (state S.Store conn.new)
        → KeepsCommit (state S.Store conn.old) (state S.Store conn.new) }
    ensures gives { HasCleanDisk (state S.Store conn.new) → (o : Office)
        → StandsForOffice (state S.Store conn.old).committed o
        → GivesUnless (WasRefusedIn S.Store conn.old conn.new) (λ x. x) result (last_day_of o) }
    ensures memory { HasCleanDisk (state S.Store conn.new) → (o : Office)
        → StandsForOffice (state S.Store conn.old).committed o → result ≡ Err NoMemory
        → WantsMemory S.Store conn.old conn.new (IsSome o.past) }
    ensures version { HasCleanDisk (state S.Store conn.new) → OnOk result (HasSecond S.Store conn.old) }
    ensures shows { HasCleanDisk (state S.Store conn.new) → IfOk result (λ last. ShowsLast S.Store conn.old last) }
    ensures open { HasCleanDisk (state S.Store conn.new) → OnOk result (IsTrue (state S.Store conn.new).is_open) }
    ensures survives { Survives (state S.Store conn.old) (state S.Store conn.new) (λ _. ⊥) }
{
    ready(conn)?;
    reads::last_day(conn)
}

/// The record of a day, none if it is not kept.
pub fn day<S: Alter>(conn: &mut Connection<S>, day: u32) -> Result<Option<DayRecord>, KeepFault>
    ensures kept { HasCleanDisk (state S.Store conn.new)
        → KeepsCommit (state S.Store conn.old) (state S.Store conn.new) }
    ensures gives { HasCleanDisk (state S.Store conn.new) → (o : Office)
        → StandsForOffice (state S.Store conn.old).committed o
        → GivesUnless (WasRefusedIn S.Store conn.old conn.new) (λ x. x) result (record_of o day) }
    ensures memory { HasCleanDisk (state S.Store conn.new) → (o : Office)
        → StandsForOffice (state S.Store conn.old).committed o → result ≡ Err NoMemory
        → WantsMemory S.Store conn.old conn.new (IsSome (record_of o day)) }
    ensures sealed { HasCleanDisk (state S.Store conn.new)
        → IfOk result (λ kept. IfSome kept (λ r. IsSealed S.Store day conn.old)) }
    ensures version { HasCleanDisk (state S.Store conn.new) → OnOk result (HasSecond S.Store conn.old) }
    ensures shows { HasCleanDisk (state S.Store conn.new) → IfOk result (λ kept. ShowsDay S.Store day conn.old kept) }
    ensures open { HasCleanDisk (state S.Store conn.new) → OnOk result (IsTrue (state S.Store conn.new).is_open) }
    ensures survives { Survives (state S.Store conn.old) (state S.Store conn.new) (λ _. ⊥) }
{
    ready(conn)?;
    reads::day(conn, day)
}

/// The record of the history, none if none is kept.
pub fn past<S: Alter>(conn: &mut Connection<S>) -> Result<Option<PastRecord>, KeepFault>
    ensures kept { HasCleanDisk (state S.Store conn.new)
        → KeepsCommit (state S.Store conn.old) (state S.Store conn.new) }
    ensures gives { HasCleanDisk (state S.Store conn.new) → (o : Office)
        → StandsForOffice (state S.Store conn.old).committed o
        → GivesUnless (WasRefusedIn S.Store conn.old conn.new) (λ x. x) result o.past }
    ensures memory { HasCleanDisk (state S.Store conn.new) → (o : Office)
        → StandsForOffice (state S.Store conn.old).committed o → result ≡ Err NoMemory
        → WantsMemory S.Store conn.old conn.new (IsSome o.past) }
    ensures based { IfOk result (λ p. IfSome p (λ q. 70 ≤ q.base)) }
    ensures version { HasCleanDisk (state S.Store conn.new) → OnOk result (HasSecond S.Store conn.old) }
    ensures shows { HasCleanDisk (state S.Store conn.new) → IfOk result (λ past. ShowsPast S.Store conn.old past) }
    ensures open { HasCleanDisk (state S.Store conn.new) → OnOk result (IsTrue (state S.Store conn.new).is_open) }
    ensures survives { Survives (state S.Store conn.old) (state S.Store conn.new) (λ _. ⊥) }
{
    ready(conn)?;
    reads::past(conn)
}

/// The amount of a vehicle on an expressway on a day, 0 for none.
pub fn spent<S: Alter>(
    conn: &mut Connection<S>,
    day: u32,
    vid: u32,
    xway: u8,
) -> Result<u64, KeepFault>
    ensures kept { HasCleanDisk (state S.Store conn.new)
        → KeepsCommit (state S.Store conn.old) (state S.Store conn.new) }
    ensures gives { HasCleanDisk (state S.Store conn.new) → (o : Office)
        → StandsForOffice (state S.Store conn.old).committed o
        → GivesUnless (WasRefusedIn S.Store conn.old conn.new) (λ x. x) result (paid o.rows day vid xway) }
    ensures memory { HasCleanDisk (state S.Store conn.new) → (o : Office)
        → StandsForOffice (state S.Store conn.old).committed o → result ≡ Err NoMemory
        → LackedMemory S.Store conn.old conn.new }
    ensures version { HasCleanDisk (state S.Store conn.new) → OnOk result (HasSecond S.Store conn.old) }
    ensures shows { HasCleanDisk (state S.Store conn.new)
        → IfOk result (λ tolls. ShowsSpent S.Store day vid xway conn.old tolls) }
    ensures open { HasCleanDisk (state S.Store conn.new) → OnOk result (IsTrue (state S.Store conn.new).is_open) }
    ensures survives { Survives (state S.Store conn.old) (state S.Store conn.new) (λ _. ⊥) }
{
    ready(conn)?;
    reads::spent(conn, day, vid, xway)
}

/// The amounts of the days from one to another.
pub fn rows<S: Alter>(
    conn: &mut Connection<S>,
    alloc: Global,
    from: u32,
    to: u32,
) -> Result<Vec<SpentRow>, KeepFault>
    ensures kept { HasCleanDisk (state S.Store conn.new)
        → KeepsCommit (state S.Store conn.old) (state S.Store conn.new) }
    ensures gives { HasCleanDisk (state S.Store conn.new) → (o : Office)
        → StandsForOffice (state S.Store conn.old).committed o
        → GivesUnless (WasRefusedIn S.Store conn.old conn.new) (λ v. v.items) result (rows_between o from to) }
    ensures memory { HasCleanDisk (state S.Store conn.new) → (o : Office)
        → StandsForOffice (state S.Store conn.old).committed o → result ≡ Err NoMemory
        → WantsMemory S.Store conn.old conn.new (rows_between o from to ≢ []) }
    ensures rise { IfOk result (λ v. RowsRise v.items) }
    ensures version { HasCleanDisk (state S.Store conn.new) → OnOk result (HasSecond S.Store conn.old) }
    ensures shows { HasCleanDisk (state S.Store conn.new)
        → IfOk result (λ v. ShowsRows S.Store from to conn.old v.items) }
    ensures open { HasCleanDisk (state S.Store conn.new) → OnOk result (IsTrue (state S.Store conn.new).is_open) }
    ensures survives { Survives (state S.Store conn.old) (state S.Store conn.new) (λ _. ⊥) }
{
    ready(conn)?;
    reads::rows(conn, alloc, from, to)
}

/// The amounts of a vehicle on the days from one to another.
pub fn vehicle_rows<S: Alter>(
    conn: &mut Connection<S>,
    alloc: Global,
    vid: u32,
    from: u32,
    to: u32,
) -> Result<Vec<SpentRow>, KeepFault>
    ensures kept { HasCleanDisk (state S.Store conn.new)
        → KeepsCommit (state S.Store conn.old) (state S.Store conn.new) }
    ensures gives { HasCleanDisk (state S.Store conn.new) → (o : Office)
        → StandsForOffice (state S.Store conn.old).committed o
        → GivesUnless (WasRefusedIn S.Store conn.old conn.new) (λ v. v.items) result
        (vehicle_rows_between o vid from to) }
    ensures memory { HasCleanDisk (state S.Store conn.new) → (o : Office)
        → StandsForOffice (state S.Store conn.old).committed o → result ≡ Err NoMemory
        → WantsMemory S.Store conn.old conn.new (vehicle_rows_between o vid from to ≢ []) }
    ensures rise { IfOk result (λ v. RowsRise v.items) }
    ensures version { HasCleanDisk (state S.Store conn.new) → OnOk result (HasSecond S.Store conn.old) }
    ensures shows { HasCleanDisk (state S.Store conn.new)
        → IfOk result (λ v. ShowsVehicleRows S.Store vid from to conn.old v.items) }
    ensures open { HasCleanDisk (state S.Store conn.new) → OnOk result (IsTrue (state S.Store conn.new).is_open) }
    ensures survives { Survives (state S.Store conn.old) (state S.Store conn.new) (λ _. ⊥) }
{
    ready(conn)?;
    reads::vehicle_rows(conn, alloc, vid, from, to)
}

/// The tariffs of the expressways that have their own.
pub fn tariffs<S: Alter>(conn: &mut Connection<S>, alloc: Global) -> Result<Tariffs, KeepFault>
    ensures kept { HasCleanDisk (state S.Store conn.new)
        → KeepsCommit (state S.Store conn.old) (state S.Store conn.new) }
    ensures gives { HasCleanDisk (state S.Store conn.new) → (o : Office)
        → StandsForOffice (state S.Store conn.old).committed o
        → GivesUnless (WasRefusedIn S.Store conn.old conn.new) (λ x. x) result o.tariffs }
    ensures memory { HasCleanDisk (state S.Store conn.new) → (o : Office)
        → StandsForOffice (state S.Store conn.old).committed o → result ≡ Err NoMemory
        → WantsMemory S.Store conn.old conn.new (o.tariffs ≢ []) }
    ensures version { HasCleanDisk (state S.Store conn.new) → OnOk result (HasSecond S.Store conn.old) }
    ensures shows { HasCleanDisk (state S.Store conn.new)
        → IfOk result (λ tariffs. ShowsTariffs S.Store conn.old tariffs) }
    ensures open { HasCleanDisk (state S.Store conn.new) → OnOk result (IsTrue (state S.Store conn.new).is_open) }
    ensures survives { Survives (state S.Store conn.old) (state S.Store conn.new) (λ _. ⊥) }
{
    ready(conn)?;
    reads::tariffs(conn, alloc)
}

/// Keeps a day after all kept ones, with its seal and its amounts.
pub fn put_day<S: Alter>(
    conn: &mut Connection<S>,
    kept: &DayRecord,
    rows: &[SpentRow],
    why: &mut Option<Error>,
) -> Result<(), KeepFault>
    requires { IsDayPut kept.now rows.now }
    ensures put { HasCleanDisk (state S.Store conn.new) → IsTrue (state S.Store conn.new).is_open → (o : Office)
        → StandsForOffice (state S.Store conn.old).committed o → IsLater kept.now.day o
        → OnOk result (HasOffice (state S.Store conn.new).committed (with_day kept.now rows.now o))
        × OnErr result (StandsForOffice (state S.Store conn.new).committed o) }
    ensures version { HasCleanDisk (state S.Store conn.new) → OnOk result (HasSecond S.Store conn.old) }
    ensures open { HasCleanDisk (state S.Store conn.new) → OnOk result (IsTrue (state S.Store conn.new).is_open) }
    ensures why { HasCleanDisk (state S.Store conn.new) → (o : Office)
        → StandsForOffice (state S.Store conn.old).committed o
        → IfErr result (HasCauseOf S.Store (day_texts kept.now rows.now) conn.old conn.new) }
    ensures wrote { HasCleanDisk (state S.Store conn.new)
        → OnOk result (CommitsRun S.Store (day_texts kept.now rows.now) conn.old conn.new) }
    ensures told { HasCleanDisk (state S.Store conn.new)
        → IfErr result (λ fault. TellsRefusal S.Store (day_texts kept.now rows.now) conn.old conn.new fault
        why.old why.new) }
    ensures refused { HasCleanDisk (state S.Store conn.new)
        → OnErr result (KeepsCommit (state S.Store conn.old) (state S.Store conn.new)) }
    ensures spares { Survives (state S.Store conn.old) (state S.Store conn.new) (λ _. HasSecond S.Store conn.old) }
    ensures quiet { OnOk result (why.new ≡ why.old) }
    ensures leaves { Survives (state S.Store conn.old) (state S.Store conn.new) (LeavesRun S.Store
        (day_texts kept.now rows.now) conn.old) }
    ensures crash { Survives (state S.Store conn.old) (state S.Store conn.new) (CommitsFrom (IsLater kept.now.day)
        (with_day kept.now rows.now) (state S.Store conn.old).committed) }
{
    ready(conn)?;
    puts::put_day(conn, kept, rows, why)
}

/// Keeps a history with its amounts, where no day and no history is kept.
pub fn put_past<S: Alter>(
    conn: &mut Connection<S>,
    kept: &PastRecord,
    rows: &[SpentRow],
    why: &mut Option<Error>,
) -> Result<(), KeepFault>
    requires { IsPastPut kept.now rows.now }
    ensures put { HasCleanDisk (state S.Store conn.new) → IsTrue (state S.Store conn.new).is_open → (o : Office)
        → StandsForOffice (state S.Store conn.old).committed o → HasNoDays o
        → OnOk result (HasOffice (state S.Store conn.new).committed (with_past kept.now rows.now o))
        × OnErr result (StandsForOffice (state S.Store conn.new).committed o) }
    ensures version { HasCleanDisk (state S.Store conn.new) → OnOk result (HasSecond S.Store conn.old) }
    ensures open { HasCleanDisk (state S.Store conn.new) → OnOk result (IsTrue (state S.Store conn.new).is_open) }
    ensures why { HasCleanDisk (state S.Store conn.new) → (o : Office)
        → StandsForOffice (state S.Store conn.old).committed o
        → IfErr result (HasCauseOf S.Store (past_texts kept.now rows.now) conn.old conn.new) }
    ensures wrote { HasCleanDisk (state S.Store conn.new)
        → OnOk result (CommitsRun S.Store (past_texts kept.now rows.now) conn.old conn.new) }
    ensures told { HasCleanDisk (state S.Store conn.new)
        → IfErr result (λ fault. TellsRefusal S.Store (past_texts kept.now rows.now) conn.old conn.new fault
        why.old why.new) }
    ensures refused { HasCleanDisk (state S.Store conn.new)
        → OnErr result (KeepsCommit (state S.Store conn.old) (state S.Store conn.new)) }
    ensures spares { Survives (state S.Store conn.old) (state S.Store conn.new) (λ _. HasSecond S.Store conn.old) }
    ensures quiet { OnOk result (why.new ≡ why.old) }
    ensures leaves { Survives (state S.Store conn.old) (state S.Store conn.new) (LeavesRun S.Store
        (past_texts kept.now rows.now) conn.old) }
    ensures crash { Survives (state S.Store conn.old) (state S.Store conn.new) (CommitsFrom HasNoDays
        (with_past kept.now rows.now) (state S.Store conn.old).committed) }
{
    ready(conn)?;
    puts::put_past(conn, kept, rows, why)
}

/// Gives an expressway a tariff. The benchmark's takes its own away.
pub fn put_tariff<S: Alter>(
    conn: &mut Connection<S>,
    xway: u8,
    tariff: &Tariff,
    why: &mut Option<Error>,
) -> Result<(), KeepFault>
    requires { IsTariff tariff.now }
    ensures put { HasCleanDisk (state S.Store conn.new) → IsTrue (state S.Store conn.new).is_open → (o : Office)
        → StandsForOffice (state S.Store conn.old).committed o
        → OnOk result (HasOffice (state S.Store conn.new).committed (with_tariff_of xway tariff.now o))
        × OnErr result (StandsForOffice (state S.Store conn.new).committed o) }
    ensures version { HasCleanDisk (state S.Store conn.new) → OnOk result (HasSecond S.Store conn.old) }
    ensures open { HasCleanDisk (state S.Store conn.new) → OnOk result (IsTrue (state S.Store conn.new).is_open) }
    ensures why { HasCleanDisk (state S.Store conn.new) → (o : Office)
        → StandsForOffice (state S.Store conn.old).committed o
        → IfErr result (HasCauseOf S.Store (tariff_texts xway tariff.now) conn.old conn.new) }
    ensures wrote { HasCleanDisk (state S.Store conn.new)
        → OnOk result (CommitsRun S.Store (tariff_texts xway tariff.now) conn.old conn.new) }
    ensures told { HasCleanDisk (state S.Store conn.new)
        → IfErr result (λ fault. TellsRefusal S.Store (tariff_texts xway tariff.now) conn.old conn.new fault
        why.old why.new) }
    ensures refused { HasCleanDisk (state S.Store conn.new)
        → OnErr result (KeepsCommit (state S.Store conn.old) (state S.Store conn.new)) }
    ensures spares { Survives (state S.Store conn.old) (state S.Store conn.new) (λ _. HasSecond S.Store conn.old) }
    ensures quiet { OnOk result (why.new ≡ why.old) }
    ensures leaves { Survives (state S.Store conn.old) (state S.Store conn.new) (LeavesRun S.Store
        (tariff_texts xway tariff.now) conn.old) }
    ensures crash { Survives (state S.Store conn.old) (state S.Store conn.new) (CommitsFrom FitsAny
        (with_tariff_of xway tariff.now) (state S.Store conn.old).committed) }
{
    ready(conn)?;
    puts::put_tariff(conn, xway, tariff, why)
}
