// What is read of the tables.
ghost use Rattle.std.specs.Prelude.{◌≡◌, ◌≢◌, ◌≤◌, [], ◌∷◌, pos, Err, IsTrue, IfOk, IfSome, IsSome, OnOk};
ghost use Rattle.sqlite.specs.Held.{state};
ghost use Rattle.sqlite.specs.State.{HasCleanDisk, KeepsCommit, Survives};
ghost use Rattle.keep_office.specs.Office.{Office, RowsRise, last_day as last_day_of, record_of, rows_between};
ghost use Rattle.keep_office.specs.Office.{vehicle_rows_between};
ghost use Rattle.road_time.specs.History.{paid};
ghost use Rattle.keep_office.specs.declared.kept.KeepFault.TheVariants.{NoMemory};
ghost use Rattle.keep_tables.specs.Stands.{HasOffice};
ghost use Rattle.keep_writes.specs.Causes.{WasRefusedIn, LackedMemory};
ghost use Rattle.keep_database.specs.Gives.{GivesUnless, WantsMemory};
ghost use Rattle.keep_database.specs.Looks.{IsSealed};
ghost use Rattle.keep_database.specs.Shows.{ShowsDay, ShowsLast, ShowsPast, ShowsRows, ShowsSpent, ShowsTariffs};
ghost use Rattle.keep_database.specs.Shows.{ShowsVehicleRows};

use crate::answers::{amount_in, amounts_of, day_of, last_of, past_of, tariffs_of};
use crate::looks::look;
use keep_office::{DayRecord, KeepFault, PastRecord};
use road_time::{SpentRow, Tariffs};
use sqlite::{Alter, Connection, params};
use std::alloc::Global;

/// The greatest kept day, else the day before the history's base, else 0.
pub fn last_day<S: Alter>(conn: &mut Connection<S>) -> Result<u32, KeepFault>
    ensures kept { HasCleanDisk (state S.Store conn.new)
        → KeepsCommit (state S.Store conn.old) (state S.Store conn.new) }
    ensures gives { HasCleanDisk (state S.Store conn.new) → (o : Office)
        → HasOffice (state S.Store conn.old).committed o
        → GivesUnless (WasRefusedIn S.Store conn.old conn.new) (λ x. x) result (last_day_of o) }
    ensures memory { HasCleanDisk (state S.Store conn.new) → (o : Office)
        → HasOffice (state S.Store conn.old).committed o → result ≡ Err NoMemory
        → WantsMemory S.Store conn.old conn.new (IsSome o.past) }
    ensures shows { HasCleanDisk (state S.Store conn.new) → IfOk result (λ last. ShowsLast S.Store conn.old last) }
    ensures open { HasCleanDisk (state S.Store conn.new) → OnOk result (IsTrue (state S.Store conn.new).is_open) }
    ensures survives { Survives (state S.Store conn.old) (state S.Store conn.new) (λ _. ⊥) }
{
    let days = look(conn, "SELECT day FROM days ORDER BY day DESC LIMIT 1", &[])?;
    let found = look(
        conn,
        "SELECT base, digest, bytes, rows_kept FROM past WHERE one = 1",
        &[],
    )?;
    last_of(&days, &found)
}

/// The record of a day, none if it is not kept.
pub fn day<S: Alter>(conn: &mut Connection<S>, day: u32) -> Result<Option<DayRecord>, KeepFault>
    ensures kept { HasCleanDisk (state S.Store conn.new)
        → KeepsCommit (state S.Store conn.old) (state S.Store conn.new) }
    ensures gives { HasCleanDisk (state S.Store conn.new) → (o : Office)
        → HasOffice (state S.Store conn.old).committed o
        → GivesUnless (WasRefusedIn S.Store conn.old conn.new) (λ x. x) result (record_of o day) }
    ensures memory { HasCleanDisk (state S.Store conn.new) → (o : Office)
        → HasOffice (state S.Store conn.old).committed o → result ≡ Err NoMemory
        → WantsMemory S.Store conn.old conn.new (IsSome (record_of o day)) }
    ensures sealed { HasCleanDisk (state S.Store conn.new)
        → IfOk result (λ kept. IfSome kept (λ r. IsSealed S.Store day conn.old)) }
    ensures shows { HasCleanDisk (state S.Store conn.new) → IfOk result (λ kept. ShowsDay S.Store day conn.old kept) }
    ensures open { HasCleanDisk (state S.Store conn.new) → OnOk result (IsTrue (state S.Store conn.new).is_open) }
    ensures survives { Survives (state S.Store conn.old) (state S.Store conn.new) (λ _. ⊥) }
{
    let found = look(
        conn,
        "SELECT digest, bytes, tuples, notices, notices_digest, total FROM days WHERE day = ?1",
        params![day],
    )?;
    let seals = look(
        conn,
        "SELECT digest FROM day_tariffs WHERE day = ?1",
        params![day],
    )?;
    day_of(day, &found, &seals)
}

/// The record of the history, none if none is kept.
pub fn past<S: Alter>(conn: &mut Connection<S>) -> Result<Option<PastRecord>, KeepFault>
    ensures kept { HasCleanDisk (state S.Store conn.new)
        → KeepsCommit (state S.Store conn.old) (state S.Store conn.new) }
    ensures gives { HasCleanDisk (state S.Store conn.new) → (o : Office)
        → HasOffice (state S.Store conn.old).committed o
        → GivesUnless (WasRefusedIn S.Store conn.old conn.new) (λ x. x) result o.past }
    ensures memory { HasCleanDisk (state S.Store conn.new) → (o : Office)
        → HasOffice (state S.Store conn.old).committed o → result ≡ Err NoMemory
        → WantsMemory S.Store conn.old conn.new (IsSome o.past) }
    ensures based { IfOk result (λ p. IfSome p (λ q. 70 ≤ q.base)) }
    ensures shows { HasCleanDisk (state S.Store conn.new) → IfOk result (λ past. ShowsPast S.Store conn.old past) }
    ensures open { HasCleanDisk (state S.Store conn.new) → OnOk result (IsTrue (state S.Store conn.new).is_open) }
    ensures survives { Survives (state S.Store conn.old) (state S.Store conn.new) (λ _. ⊥) }
{
    let found = look(
        conn,
        "SELECT base, digest, bytes, rows_kept FROM past WHERE one = 1",
        &[],
    )?;
    past_of(&found)
}

/// The amount of a vehicle on an expressway on a day, 0 for none.
pub fn spent<S: Alter>(
    conn: &mut Connection<S>,
    day: u32,
    vid: u32,
    xway: u8,
) -> Result<u64, KeepFault>
    ensures kept { HasCleanDisk (state S.Store conn.new)
        → KeepsCommit (state S.Store conn.old) (state S.Store conn.new) }
    ensures gives { HasCleanDisk (state S.Store conn.new) → (o : Office)
        → HasOffice (state S.Store conn.old).committed o
        → GivesUnless (WasRefusedIn S.Store conn.old conn.new) (λ x. x) result (paid o.rows day vid xway) }
    ensures memory { HasCleanDisk (state S.Store conn.new) → result ≡ Err NoMemory
        → LackedMemory S.Store conn.old conn.new }
    ensures shows { HasCleanDisk (state S.Store conn.new)
        → IfOk result (λ tolls. ShowsSpent S.Store day vid xway conn.old tolls) }
    ensures open { HasCleanDisk (state S.Store conn.new) → OnOk result (IsTrue (state S.Store conn.new).is_open) }
    ensures survives { Survives (state S.Store conn.old) (state S.Store conn.new) (λ _. ⊥) }
{
    let found = look(
        conn,
        "SELECT tolls FROM spent WHERE day = ?1 AND vid = ?2 AND xway = ?3",
        params![day, vid, u32::from(xway)],
    )?;
    amount_in(&found)
}

/// The amounts of the days from one to another.
pub fn rows<S: Alter>(
    conn: &mut Connection<S>,
    alloc: Global,
    from: u32,
    to: u32,
) -> Result<Vec<SpentRow>, KeepFault>
    ensures kept { HasCleanDisk (state S.Store conn.new)
        → KeepsCommit (state S.Store conn.old) (state S.Store conn.new) }
    ensures gives { HasCleanDisk (state S.Store conn.new) → (o : Office)
        → HasOffice (state S.Store conn.old).committed o
        → GivesUnless (WasRefusedIn S.Store conn.old conn.new) (λ v. v.items) result (rows_between o from to) }
    ensures memory { HasCleanDisk (state S.Store conn.new) → (o : Office)
        → HasOffice (state S.Store conn.old).committed o → result ≡ Err NoMemory
        → WantsMemory S.Store conn.old conn.new (rows_between o from to ≢ []) }
    ensures rise { IfOk result (λ v. RowsRise v.items) }
    ensures shows { HasCleanDisk (state S.Store conn.new)
        → IfOk result (λ v. ShowsRows S.Store from to conn.old v.items) }
    ensures open { HasCleanDisk (state S.Store conn.new) → OnOk result (IsTrue (state S.Store conn.new).is_open) }
    ensures survives { Survives (state S.Store conn.old) (state S.Store conn.new) (λ _. ⊥) }
{
    let found = look(
        conn,
        "SELECT day, vid, xway, tolls FROM spent WHERE day >= ?1 AND day <= ?2 ORDER BY day, vid, xway",
        params![from, to],
    )?;
    amounts_of(alloc, &found)
}

/// The amounts of a vehicle on the days from one to another.
pub fn vehicle_rows<S: Alter>(
    conn: &mut Connection<S>,
    alloc: Global,
    vid: u32,
    from: u32,
    to: u32,
) -> Result<Vec<SpentRow>, KeepFault>
    ensures kept { HasCleanDisk (state S.Store conn.new)
        → KeepsCommit (state S.Store conn.old) (state S.Store conn.new) }
    ensures gives { HasCleanDisk (state S.Store conn.new) → (o : Office)
        → HasOffice (state S.Store conn.old).committed o
        → GivesUnless (WasRefusedIn S.Store conn.old conn.new) (λ v. v.items) result
        (vehicle_rows_between o vid from to) }
    ensures memory { HasCleanDisk (state S.Store conn.new) → (o : Office)
        → HasOffice (state S.Store conn.old).committed o → result ≡ Err NoMemory
        → WantsMemory S.Store conn.old conn.new (vehicle_rows_between o vid from to ≢ []) }
    ensures rise { IfOk result (λ v. RowsRise v.items) }
    ensures shows { HasCleanDisk (state S.Store conn.new)
        → IfOk result (λ v. ShowsVehicleRows S.Store vid from to conn.old v.items) }
    ensures open { HasCleanDisk (state S.Store conn.new) → OnOk result (IsTrue (state S.Store conn.new).is_open) }
    ensures survives { Survives (state S.Store conn.old) (state S.Store conn.new) (λ _. ⊥) }
{
    let found = look(
        conn,
        "SELECT day, vid, xway, tolls FROM spent WHERE vid = ?1 AND day >= ?2 AND day <= ?3 ORDER BY day, vid, xway",
        params![vid, from, to],
    )?;
    amounts_of(alloc, &found)
}

/// The tariffs of the expressways that have their own.
pub fn tariffs<S: Alter>(conn: &mut Connection<S>, alloc: Global) -> Result<Tariffs, KeepFault>
    ensures kept { HasCleanDisk (state S.Store conn.new)
        → KeepsCommit (state S.Store conn.old) (state S.Store conn.new) }
    ensures gives { HasCleanDisk (state S.Store conn.new) → (o : Office)
        → HasOffice (state S.Store conn.old).committed o
        → GivesUnless (WasRefusedIn S.Store conn.old conn.new) (λ x. x) result o.tariffs }
    ensures memory { HasCleanDisk (state S.Store conn.new) → (o : Office)
        → HasOffice (state S.Store conn.old).committed o → result ≡ Err NoMemory
        → WantsMemory S.Store conn.old conn.new (o.tariffs ≢ []) }
    ensures shows { HasCleanDisk (state S.Store conn.new)
        → IfOk result (λ tariffs. ShowsTariffs S.Store conn.old tariffs) }
    ensures open { HasCleanDisk (state S.Store conn.new) → OnOk result (IsTrue (state S.Store conn.new).is_open) }
    ensures survives { Survives (state S.Store conn.old) (state S.Store conn.new) (λ _. ⊥) }
{
    let found = look(
        conn,
        "SELECT xway, crowd, speed, factor FROM tariffs ORDER BY xway",
        &[],
    )?;
    tariffs_of(alloc, &found)
}
