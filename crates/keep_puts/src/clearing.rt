// Taking all rows away but the tariffs.
ghost use Rattle.std.specs.Prelude.{◌≡◌, IfOk, IfErr, OnOk, OnErr};
ghost use Rattle.sqlite_value.specs.Keys.{plain};
ghost use Rattle.sqlite_trees.specs.declared.store.Shape.TheVariants.{Table, Index};
ghost use Rattle.sqlite_trees.specs.View.{IsClean, IsQuiet, KeepsSchema, KeepsCommitted, OnlyWrites};
ghost use Rattle.keep_puts.specs.Trees.{AreOurs};
ghost use Rattle.keep_puts.specs.Steps.{IfDone};
ghost use Rattle.keep_puts.specs.Room.{IsDoneIf, HasFew, HaveFew};
ghost use Rattle.keep_puts.specs.Causes.{StepCause};
ghost use Rattle.keep_puts.specs.Clears.{Pops, Clears, ClearsAmounts, ClearsDays, ClearsAll};

use sqlite_exec::write::last;
use sqlite_trees::error::StoreError;
use sqlite_trees::store::Store;
use sqlite_value::row::Row;
use sqlite_value::value::ValueRef;

/// Takes the last row of a table away, and says whether it had one.
fn pop_row<S: Store>(store: &mut S, table: u32, row: &mut Row) -> Result<bool, StoreError>
    requires { (S.Store.view store.old).shape table ≡ Table }
    ensures pops { IsClean (S.Store.view store.new) → IfOk result (λ some. Pops table some
        (S.Store.view store.old).trees (S.Store.view store.new).trees) }
    ensures frame { IsClean (S.Store.view store.new)
        → OnOk result (OnlyWrites (S.Store.view store.old) (S.Store.view store.new)) }
    ensures err { IsClean (S.Store.view store.new)
        → OnErr result (KeepsCommitted (S.Store.view store.old) (S.Store.view store.new)) }
    ensures why { IsClean (S.Store.view store.new) → IfErr result (StepCause S.Store store.old store.new) }
    ensures schema { KeepsSchema (S.Store.view store.old) (S.Store.view store.new) }
    ensures quiet { IsQuiet S.Store.view S.Store.faults S.Store.recovers S.Store.is_shielded store.old store.new }
{
    if !last(store, table, row)? {
        return Ok(false);
    }
    let ValueRef::Int(number) = row.get(0) else {
        return Err(StoreError::Corrupt);
    };
    store.delete(table, number)?;
    Ok(true)
}

/// Takes the last entry of the index of the amounts away, and says whether it had one.
fn pop_entry<S: Store>(store: &mut S, entry: &mut Row) -> Result<bool, StoreError>
    requires { (S.Store.view store.old).shape 2 ≡ Index plain }
    ensures pops { IsClean (S.Store.view store.new) → IfOk result (λ some. Pops 2 some
        (S.Store.view store.old).trees (S.Store.view store.new).trees) }
    ensures frame { IsClean (S.Store.view store.new)
        → OnOk result (OnlyWrites (S.Store.view store.old) (S.Store.view store.new)) }
    ensures err { IsClean (S.Store.view store.new)
        → OnErr result (KeepsCommitted (S.Store.view store.old) (S.Store.view store.new)) }
    ensures why { IsClean (S.Store.view store.new) → IfErr result (StepCause S.Store store.old store.new) }
    ensures schema { KeepsSchema (S.Store.view store.old) (S.Store.view store.new) }
    ensures quiet { IsQuiet S.Store.view S.Store.faults S.Store.recovers S.Store.is_shielded store.old store.new }
{
    if !last(store, 2, entry)? {
        return Ok(false);
    }
    store.remove(2, entry)?;
    Ok(true)
}

/// Takes all rows of a table away, and says whether it did.
fn clear_table<S: Store>(store: &mut S, table: u32, row: &mut Row) -> Result<bool, StoreError>
    requires { (S.Store.view store.old).shape table ≡ Table }
    ensures clears { IsClean (S.Store.view store.new) → IfOk result (λ done. IfDone done
        (Clears table (S.Store.view store.old).trees (S.Store.view store.new).trees)) }
    ensures frame { IsClean (S.Store.view store.new)
        → OnOk result (OnlyWrites (S.Store.view store.old) (S.Store.view store.new)) }
    ensures err { IsClean (S.Store.view store.new)
        → OnErr result (KeepsCommitted (S.Store.view store.old) (S.Store.view store.new)) }
    ensures room { IsClean (S.Store.view store.new)
        → IfOk result (IsDoneIf (HasFew (S.Store.view store.old).trees table)) }
    ensures why { IsClean (S.Store.view store.new) → IfErr result (StepCause S.Store store.old store.new) }
    ensures schema { KeepsSchema (S.Store.view store.old) (S.Store.view store.new) }
    ensures quiet { IsQuiet S.Store.view S.Store.faults S.Store.recovers S.Store.is_shielded store.old store.new }
{
    'rows: for _turn in 0..u64::MAX {
        if !pop_row(store, table, row)? {
            return Ok(true);
        }
    }
    Ok(false)
}

/// Takes all entries of the index of the amounts away, and says whether it did.
fn clear_index<S: Store>(store: &mut S, entry: &mut Row) -> Result<bool, StoreError>
    requires { (S.Store.view store.old).shape 2 ≡ Index plain }
    ensures clears { IsClean (S.Store.view store.new) → IfOk result (λ done. IfDone done
        (Clears 2 (S.Store.view store.old).trees (S.Store.view store.new).trees)) }
    ensures frame { IsClean (S.Store.view store.new)
        → OnOk result (OnlyWrites (S.Store.view store.old) (S.Store.view store.new)) }
    ensures err { IsClean (S.Store.view store.new)
        → OnErr result (KeepsCommitted (S.Store.view store.old) (S.Store.view store.new)) }
    ensures room { IsClean (S.Store.view store.new)
        → IfOk result (IsDoneIf (HasFew (S.Store.view store.old).trees 2)) }
    ensures why { IsClean (S.Store.view store.new) → IfErr result (StepCause S.Store store.old store.new) }
    ensures schema { KeepsSchema (S.Store.view store.old) (S.Store.view store.new) }
    ensures quiet { IsQuiet S.Store.view S.Store.faults S.Store.recovers S.Store.is_shielded store.old store.new }
{
    'rows: for _turn in 0..u64::MAX {
        if !pop_entry(store, entry)? {
            return Ok(true);
        }
    }
    Ok(false)
}

/// Takes the amounts and their index away, and says whether it did.
fn clear_amounts<S: Store>(store: &mut S, row: &mut Row) -> Result<bool, StoreError>
    requires { AreOurs (S.Store.view store.old).shape }
    ensures clears { IsClean (S.Store.view store.new) → IfOk result (λ done. IfDone done
        (ClearsAmounts (S.Store.view store.old).trees (S.Store.view store.new).trees)) }
    ensures frame { IsClean (S.Store.view store.new)
        → OnOk result (OnlyWrites (S.Store.view store.old) (S.Store.view store.new)) }
    ensures err { IsClean (S.Store.view store.new)
        → OnErr result (KeepsCommitted (S.Store.view store.old) (S.Store.view store.new)) }
    ensures room { IsClean (S.Store.view store.new)
        → IfOk result (IsDoneIf (HaveFew (S.Store.view store.old).trees)) }
    ensures why { IsClean (S.Store.view store.new) → IfErr result (StepCause S.Store store.old store.new) }
    ensures schema { KeepsSchema (S.Store.view store.old) (S.Store.view store.new) }
    ensures quiet { IsQuiet S.Store.view S.Store.faults S.Store.recovers S.Store.is_shielded store.old store.new }
{
    if !clear_table(store, 1, row)? {
        return Ok(false);
    }
    clear_index(store, row)
}

/// Takes the days and their seals away, and says whether it did.
fn clear_days<S: Store>(store: &mut S, row: &mut Row) -> Result<bool, StoreError>
    requires { AreOurs (S.Store.view store.old).shape }
    ensures clears { IsClean (S.Store.view store.new) → IfOk result (λ done. IfDone done
        (ClearsDays (S.Store.view store.old).trees (S.Store.view store.new).trees)) }
    ensures frame { IsClean (S.Store.view store.new)
        → OnOk result (OnlyWrites (S.Store.view store.old) (S.Store.view store.new)) }
    ensures err { IsClean (S.Store.view store.new)
        → OnErr result (KeepsCommitted (S.Store.view store.old) (S.Store.view store.new)) }
    ensures room { IsClean (S.Store.view store.new)
        → IfOk result (IsDoneIf (HaveFew (S.Store.view store.old).trees)) }
    ensures why { IsClean (S.Store.view store.new) → IfErr result (StepCause S.Store store.old store.new) }
    ensures schema { KeepsSchema (S.Store.view store.old) (S.Store.view store.new) }
    ensures quiet { IsQuiet S.Store.view S.Store.faults S.Store.recovers S.Store.is_shielded store.old store.new }
{
    if !clear_table(store, 0, row)? {
        return Ok(false);
    }
    clear_table(store, 4, row)
}

/// Takes all away but the tariffs, and says whether it did.
pub fn clear<S: Store>(store: &mut S, row: &mut Row) -> Result<bool, StoreError>
    requires { AreOurs (S.Store.view store.old).shape }
    ensures clears { IsClean (S.Store.view store.new) → IfOk result (λ done. IfDone done
        (ClearsAll (S.Store.view store.old).trees (S.Store.view store.new).trees)) }
    ensures frame { IsClean (S.Store.view store.new)
        → OnOk result (OnlyWrites (S.Store.view store.old) (S.Store.view store.new)) }
    ensures err { IsClean (S.Store.view store.new)
        → OnErr result (KeepsCommitted (S.Store.view store.old) (S.Store.view store.new)) }
    ensures room { IsClean (S.Store.view store.new)
        → IfOk result (IsDoneIf (HaveFew (S.Store.view store.old).trees)) }
    ensures why { IsClean (S.Store.view store.new) → IfErr result (StepCause S.Store store.old store.new) }
    ensures schema { KeepsSchema (S.Store.view store.old) (S.Store.view store.new) }
    ensures quiet { IsQuiet S.Store.view S.Store.faults S.Store.recovers S.Store.is_shielded store.old store.new }
{
    if !clear_amounts(store, row)? {
        return Ok(false);
    }
    if !clear_days(store, row)? {
        return Ok(false);
    }
    clear_table(store, 3, row)
}
