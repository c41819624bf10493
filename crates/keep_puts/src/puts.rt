// Puts, each in one commit.
ghost use Rattle.std.specs.Prelude.{◌≡◌, ◌≤◌, ◌⊎◌, true, false, IfOk, IfErr, IsTrue, OnOk, OnErr};
ghost use Rattle.sqlite_disk.specs.Disk.{MoreFaults};
ghost use Rattle.sqlite_trees.specs.Tree.{Trees};
ghost use Rattle.sqlite_trees.specs.View.{IsClean, IsQuiet, KeepsSchema, KeepsCommitted, OnlyWrites, HasCause};
ghost use Rattle.sqlite_trees.specs.View.{doubt};
ghost use Rattle.road_time.specs.Rates.{IsTariff};
ghost use Rattle.keep_office.specs.Kept.{IsDayPut, IsPastPut, IsLater, HasNoDays, with_day, with_past, with_tariff_of};
ghost use Rattle.keep_tables.specs.Steps.{FitsAny};
ghost use Rattle.keep_puts.specs.Trees.{AreOurs};
ghost use Rattle.keep_puts.specs.Steps.{IfDone, IsFreshDay, IsFreshPast};
ghost use Rattle.keep_puts.specs.Room.{IsDoneIf, TakesDay, TakesPast, RoomForDay, RoomForPast, RoomForTariff};
ghost use Rattle.keep_puts.specs.Causes.{StepCause, PutCause};
ghost use Rattle.keep_puts.specs.Puts.{PutsDay, PutsPast, PutsTariff, Writes};
ghost use Rattle.keep_puts.specs.Stores.{Makes, StaysCommitted, Stores, IsNotDone};

use crate::amounts::put_amounts;
use crate::records::{put_history, put_record, put_seal};
use crate::shapes::are_ours;
use crate::tariffs::write_tariff;
use keep_office::{DayRecord, PastRecord};
use road_time::{SpentRow, Tariff};
use sqlite_trees::error::StoreError;
use sqlite_trees::store::Store;
use sqlite_value::row::Row;
use std::alloc::Global;

/// Undoes what is under way, and says whether the trees are ours.
pub(crate) fn begin<S: Store>(store: &mut S) -> Result<bool, StoreError>
    ensures ours { IfOk result (λ ours. IfDone ours (AreOurs (S.Store.view store.new).shape)) }
    ensures room { IsClean (S.Store.view store.new)
        → IfOk result (IsDoneIf (AreOurs (S.Store.view store.old).committed_shape)) }
    ensures sound { IsClean (S.Store.view store.new) → OnOk result ((S.Store.view store.new).is_broken ≡ false) }
    ensures reals { IsClean (S.Store.view store.new)
        → OnOk result ((S.Store.view store.new).reals ≡ (S.Store.view store.old).committed_reals) }
    ensures why { IsClean (S.Store.view store.new) → IfErr result (PutCause S.Store store.old store.new) }
    ensures settled { IsClean (S.Store.view store.new) → OnOk result (IsTrue (S.Store.view store.new).is_open
        × ((S.Store.view store.new).trees ≡ (S.Store.view store.old).committed)) }
    ensures stays { IsClean (S.Store.view store.new)
        → StaysCommitted (S.Store.view store.old) (S.Store.view store.new) }
    ensures quiet { IsQuiet S.Store.view S.Store.faults S.Store.recovers S.Store.is_shielded store.old store.new }
{
    store.rollback();
    if store.is_broken() {
        return Err(StoreError::Broken);
    }
    Ok(are_ours(store))
}

/// Commits what is written, if a put was done.
pub(crate) fn finish<S: Store>(store: &mut S, done: bool) -> Result<bool, StoreError>
    ensures same { IfOk result (λ is. is ≡ done) }
    ensures commits { IsClean (S.Store.view store.new) → IfOk result (λ is. IfDone is
        ((S.Store.view store.new).committed ≡ (S.Store.view store.old).trees)) }
    ensures stays { IsClean (S.Store.view store.new) → IsNotDone result
        → StaysCommitted (S.Store.view store.old) (S.Store.view store.new) }
    ensures why { IsClean (S.Store.view store.new) → IfErr result (HasCause (S.Store.view store.old)
        (MoreFaults (S.Store.faults store.old) (S.Store.faults store.new)) ⊥) }
    ensures counts { S.Store.faults store.old ≤ S.Store.faults store.new }
    ensures clean { doubt (S.Store.view store.old).is_clean ≤ doubt (S.Store.view store.new).is_clean }
    ensures crash { (db : Trees) → S.Store.recovers store.new db → (((S.Store.view store.old).is_broken ≡ false)
        × (db ≡ (S.Store.view store.old).trees) × (done ≡ true)) ⊎ S.Store.recovers store.old db }
{
    if !done {
        return Ok(false);
    }
    store.commit()?;
    Ok(true)
}

/// Writes a day, its seal and its amounts, and says whether it did.
fn write_day<S: Store>(
    store: &mut S,
    kept: &DayRecord,
    rows: &[SpentRow],
    row: &mut Row,
    spare: &mut Row,
) -> Result<bool, StoreError>
    requires shapes { AreOurs (S.Store.view store.old).shape }
    requires fits { IsDayPut kept.now rows.now }
    ensures wrote { IsClean (S.Store.view store.new) → IfOk result (λ done. IfDone done
        (Makes (IsLater kept.now.day) (with_day kept.now rows.now) (S.Store.view store.old).trees
        (S.Store.view store.new).trees)) }
    ensures fresh { IsClean (S.Store.view store.new) → IfOk result (λ done. IfDone done
        (IsFreshDay kept.now rows.now (S.Store.view store.old).trees)) }
    ensures puts { IsClean (S.Store.view store.new) → IfOk result (λ done. IfDone done
        (PutsDay kept.now rows.now (S.Store.view store.old).trees (S.Store.view store.new).trees)) }
    ensures frame { IsClean (S.Store.view store.new)
        → OnOk result (OnlyWrites (S.Store.view store.old) (S.Store.view store.new)) }
    ensures err { IsClean (S.Store.view store.new)
        → OnErr result (KeepsCommitted (S.Store.view store.old) (S.Store.view store.new)) }
    ensures room { IsClean (S.Store.view store.new)
        → IfOk result (IsDoneIf (TakesDay kept.now rows.now (S.Store.view store.old).trees)) }
    ensures why { IsClean (S.Store.view store.new) → IfErr result (StepCause S.Store store.old store.new) }
    ensures quiet { IsQuiet S.Store.view S.Store.faults S.Store.recovers S.Store.is_shielded store.old store.new }
{
    if !put_record(store, kept, row, spare)? {
        return Ok(false);
    }
    if !put_seal(store, kept.day, &kept.tariffs, row, spare)? {
        return Ok(false);
    }
    put_amounts(store, rows, row, spare)
}

/// Puts a day with its seal and its amounts, and says whether it did.
pub fn put_day<S: Store>(
    store: &mut S,
    alloc: Global,
    kept: &DayRecord,
    rows: &[SpentRow],
) -> Result<bool, StoreError>
    requires { IsDayPut kept.now rows.now }
    ensures stores { Stores S.Store (RoomForDay kept.now rows.now) (IsLater kept.now.day)
        (with_day kept.now rows.now) store.old store.new result }
    ensures fresh { IsClean (S.Store.view store.new) → IfOk result (λ done. IfDone done
        (IsFreshDay kept.now rows.now (S.Store.view store.old).committed)) }
    ensures writes { Writes S.Store (PutsDay kept.now rows.now) store.old store.new result }
{
    if !begin(store)? {
        return Ok(false);
    }
    let mut row = Row::new(alloc);
    let mut spare = Row::new(alloc);
    let done = write_day(store, kept, rows, &mut row, &mut spare)?;
    finish(store, done)
}

/// Writes a history and its amounts, and says whether it did.
pub(crate) fn write_past<S: Store>(
    store: &mut S,
    kept: &PastRecord,
    rows: &[SpentRow],
    row: &mut Row,
    spare: &mut Row,
) -> Result<bool, StoreError>
    requires shapes { AreOurs (S.Store.view store.old).shape }
    requires fits { IsPastPut kept.now rows.now }
    ensures wrote { IsClean (S.Store.view store.new) → IfOk result (λ done. IfDone done
        (Makes HasNoDays (with_past kept.now rows.now) (S.Store.view store.old).trees
        (S.Store.view store.new).trees)) }
    ensures fresh { IsClean (S.Store.view store.new) → IfOk result (λ done. IfDone done
        (IsFreshPast rows.now (S.Store.view store.old).trees)) }
    ensures puts { IsClean (S.Store.view store.new) → IfOk result (λ done. IfDone done
        (PutsPast kept.now rows.now (S.Store.view store.old).trees (S.Store.view store.new).trees)) }
    ensures frame { IsClean (S.Store.view store.new)
        → OnOk result (OnlyWrites (S.Store.view store.old) (S.Store.view store.new)) }
    ensures err { IsClean (S.Store.view store.new)
        → OnErr result (KeepsCommitted (S.Store.view store.old) (S.Store.view store.new)) }
    ensures room { IsClean (S.Store.view store.new)
        → IfOk result (IsDoneIf (TakesPast rows.now (S.Store.view store.old).trees)) }
    ensures why { IsClean (S.Store.view store.new) → IfErr result (StepCause S.Store store.old store.new) }
    ensures quiet { IsQuiet S.Store.view S.Store.faults S.Store.recovers S.Store.is_shielded store.old store.new }
{
    if !put_history(store, kept, row, spare)? {
        return Ok(false);
    }
    put_amounts(store, rows, row, spare)
}

/// Puts a history with its amounts, and says whether it did.
pub fn put_past<S: Store>(
    store: &mut S,
    alloc: Global,
    kept: &PastRecord,
    rows: &[SpentRow],
) -> Result<bool, StoreError>
    requires { IsPastPut kept.now rows.now }
    ensures stores { Stores S.Store (RoomForPast rows.now) HasNoDays (with_past kept.now rows.now)
        store.old store.new result }
    ensures fresh { IsClean (S.Store.view store.new) → IfOk result (λ done. IfDone done
        (IsFreshPast rows.now (S.Store.view store.old).committed)) }
    ensures writes { Writes S.Store (PutsPast kept.now rows.now) store.old store.new result }
{
    if !begin(store)? {
        return Ok(false);
    }
    let mut row = Row::new(alloc);
    let mut spare = Row::new(alloc);
    let done = write_past(store, kept, rows, &mut row, &mut spare)?;
    finish(store, done)
}

/// Gives an expressway a tariff, and says whether it did. The benchmark's takes its own away.
pub fn put_tariff<S: Store>(
    store: &mut S,
    alloc: Global,
    xway: u8,
    tariff: &Tariff,
) -> Result<bool, StoreError>
    requires { IsTariff tariff.now }
    ensures stores { Stores S.Store RoomForTariff FitsAny (with_tariff_of xway tariff.now)
        store.old store.new result }
    ensures writes { Writes S.Store (PutsTariff xway tariff.now) store.old store.new result }
{
    if !begin(store)? {
        return Ok(false);
    }
    let mut row = Row::new(alloc);
    write_tariff(store, xway, tariff, &mut row)?;
    finish(store, true)
}
