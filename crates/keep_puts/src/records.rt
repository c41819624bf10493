// The records of days and histories.
ghost use Rattle.std.specs.Prelude.{◌≡◌, ◌<◌, ◌^◌, [], ◌∷◌, pos, false, IfOk, IfErr, OnOk, OnErr};
ghost use Rattle.sqlite_disk.specs.Disk.{MoreFaults};
ghost use Rattle.sqlite_value.specs.declared.value.Value.TheVariants.{Int, Null, Blob};
ghost use Rattle.sqlite_trees.specs.declared.store.Shape.TheVariants.{Table};
ghost use Rattle.sqlite_trees.specs.Tree.{rowid};
ghost use Rattle.sqlite_trees.specs.View.{IsClean, IsQuiet, KeepsSchema, KeepsCommitted, OnlyWrites, HasCause};
ghost use Rattle.sqlite_trees.specs.View.{IsStorableRow};
ghost use Rattle.keep_tables.specs.Codec.{day_row, past_row};
ghost use Rattle.keep_tables.specs.Stands.{IsWholeDigest, FitsPast};
ghost use Rattle.keep_puts.specs.Steps.{IfDone, Joins};
ghost use Rattle.keep_puts.specs.Room.{IsDoneIf, IsFree};
ghost use Rattle.keep_puts.specs.Causes.{StepCause};

use crate::rows::{set_day, set_past, set_seal};
use keep_office::{DayRecord, PastRecord};
use road_digest::Digest;
use sqlite_trees::error::StoreError;
use sqlite_trees::store::Store;
use sqlite_value::row::Row;

/// Puts a row into a table in which none has its number, and says whether it did.
fn put_new<S: Store>(
    store: &mut S,
    table: u32,
    number: i64,
    row: &Row,
    spare: &mut Row,
) -> Result<bool, StoreError>
    requires shape { (S.Store.view store.old).shape table ≡ Table }
    requires keyed { rowid row.now ≡ Int number }
    ensures done { IsClean (S.Store.view store.new) → IfOk result (λ done. IfDone done
        (Joins table row.now number (S.Store.view store.old).trees (S.Store.view store.new).trees)) }
    ensures sound { IsClean (S.Store.view store.new) → OnOk result ((S.Store.view store.old).is_broken ≡ false) }
    ensures frame { IsClean (S.Store.view store.new)
        → OnOk result (OnlyWrites (S.Store.view store.old) (S.Store.view store.new)) }
    ensures err { IsClean (S.Store.view store.new)
        → OnErr result (KeepsCommitted (S.Store.view store.old) (S.Store.view store.new)) }
    ensures room { IsClean (S.Store.view store.new)
        → IfOk result (IsDoneIf (IsFree number ((S.Store.view store.old).trees table))) }
    ensures why { IsClean (S.Store.view store.new) → IfErr result (HasCause (S.Store.view store.old)
        (MoreFaults (S.Store.faults store.old) (S.Store.faults store.new))
        (¬ IsStorableRow ((S.Store.view store.old).reals table) row.now)) }
    ensures schema { KeepsSchema (S.Store.view store.old) (S.Store.view store.new) }
    ensures quiet { IsQuiet S.Store.view S.Store.faults S.Store.recovers S.Store.is_shielded store.old store.new }
{
    if store.get(table, number, spare)? {
        return Ok(false);
    }
    store.put(table, row)?;
    Ok(true)
}

/// Puts the record of a day, if none has its number, and says whether it did.
pub fn put_record<S: Store>(
    store: &mut S,
    kept: &DayRecord,
    row: &mut Row,
    spare: &mut Row,
) -> Result<bool, StoreError>
    requires shape { (S.Store.view store.old).shape 0 ≡ Table }
    requires bytes { kept.now.bytes < 2 ^ 63 }
    requires tuples { kept.now.tuples < 2 ^ 63 }
    requires notices { kept.now.notices < 2 ^ 63 }
    requires total { kept.now.total < 2 ^ 63 }
    ensures fits { OnOk result (IsWholeDigest kept.now.digest × IsWholeDigest kept.now.notices_digest) }
    ensures done { IsClean (S.Store.view store.new) → IfOk result (λ done. IfDone done
        (Joins 0 (day_row kept.now) (pos kept.now.day) (S.Store.view store.old).trees
        (S.Store.view store.new).trees)) }
    ensures sound { IsClean (S.Store.view store.new) → OnOk result ((S.Store.view store.old).is_broken ≡ false) }
    ensures frame { IsClean (S.Store.view store.new)
        → OnOk result (OnlyWrites (S.Store.view store.old) (S.Store.view store.new)) }
    ensures err { IsClean (S.Store.view store.new)
        → OnErr result (KeepsCommitted (S.Store.view store.old) (S.Store.view store.new)) }
    ensures room { IsClean (S.Store.view store.new)
        → IfOk result (IsDoneIf (IsFree (pos kept.now.day) ((S.Store.view store.old).trees 0))) }
    ensures why { IsClean (S.Store.view store.new) → IfErr result (StepCause S.Store store.old store.new) }
    ensures schema { KeepsSchema (S.Store.view store.old) (S.Store.view store.new) }
    ensures quiet { IsQuiet S.Store.view S.Store.faults S.Store.recovers S.Store.is_shielded store.old store.new }
{
    set_day(row, kept)?;
    put_new(store, 0, i64::from(kept.day), row, spare)
}

/// Puts the seal of a day, if none has its number, and says whether it did.
pub fn put_seal<S: Store>(
    store: &mut S,
    day: u32,
    seal: &Digest,
    row: &mut Row,
    spare: &mut Row,
) -> Result<bool, StoreError>
    requires shape { (S.Store.view store.old).shape 4 ≡ Table }
    ensures fits { OnOk result (IsWholeDigest seal.now) }
    ensures done { IsClean (S.Store.view store.new) → IfOk result (λ done. IfDone done
        (Joins 4 (Int (pos day) ∷ Null ∷ Blob seal.now.bytes ∷ []) (pos day) (S.Store.view store.old).trees
        (S.Store.view store.new).trees)) }
    ensures sound { IsClean (S.Store.view store.new) → OnOk result ((S.Store.view store.old).is_broken ≡ false) }
    ensures frame { IsClean (S.Store.view store.new)
        → OnOk result (OnlyWrites (S.Store.view store.old) (S.Store.view store.new)) }
    ensures err { IsClean (S.Store.view store.new)
        → OnErr result (KeepsCommitted (S.Store.view store.old) (S.Store.view store.new)) }
    ensures room { IsClean (S.Store.view store.new)
        → IfOk result (IsDoneIf (IsFree (pos day) ((S.Store.view store.old).trees 4))) }
    ensures why { IsClean (S.Store.view store.new) → IfErr result (StepCause S.Store store.old store.new) }
    ensures schema { KeepsSchema (S.Store.view store.old) (S.Store.view store.new) }
    ensures quiet { IsQuiet S.Store.view S.Store.faults S.Store.recovers S.Store.is_shielded store.old store.new }
{
    set_seal(row, day, seal)?;
    put_new(store, 4, i64::from(day), row, spare)
}

/// Puts the record of a history, if there is none, and says whether it did.
pub fn put_history<S: Store>(
    store: &mut S,
    kept: &PastRecord,
    row: &mut Row,
    spare: &mut Row,
) -> Result<bool, StoreError>
    requires shape { (S.Store.view store.old).shape 3 ≡ Table }
    requires bytes { kept.now.bytes < 2 ^ 63 }
    requires rows { kept.now.rows < 2 ^ 63 }
    ensures fits { OnOk result (FitsPast kept.now) }
    ensures done { IsClean (S.Store.view store.new) → IfOk result (λ done. IfDone done
        (Joins 3 (past_row kept.now) (pos 1) (S.Store.view store.old).trees (S.Store.view store.new).trees)) }
    ensures sound { IsClean (S.Store.view store.new) → OnOk result ((S.Store.view store.old).is_broken ≡ false) }
    ensures frame { IsClean (S.Store.view store.new)
        → OnOk result (OnlyWrites (S.Store.view store.old) (S.Store.view store.new)) }
    ensures err { IsClean (S.Store.view store.new)
        → OnErr result (KeepsCommitted (S.Store.view store.old) (S.Store.view store.new)) }
    ensures room { IsClean (S.Store.view store.new)
        → IfOk result (IsDoneIf (IsFree (pos 1) ((S.Store.view store.old).trees 3))) }
    ensures why { IsClean (S.Store.view store.new) → IfErr result (StepCause S.Store store.old store.new) }
    ensures schema { KeepsSchema (S.Store.view store.old) (S.Store.view store.new) }
    ensures quiet { IsQuiet S.Store.view S.Store.faults S.Store.recovers S.Store.is_shielded store.old store.new }
{
    set_past(row, kept)?;
    put_new(store, 3, 1, row, spare)
}
