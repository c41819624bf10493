// The amounts of a day or of a history.
ghost use Rattle.std.specs.Prelude.{◌≡◌, ◌↔◌, ◌<◌, ◌^◌, ◌+ℤ◌, ℕ, pos, false, length, FitsSigned, IsTrue, SomeIff};
ghost use Rattle.std.specs.Prelude.{IsSomeAnd, IfOk, IfErr, IfSome, OnOk, OnErr};
ghost use Rattle.std.specs.Int.{w64};
ghost use Rattle.std.specs.declared.cmp.Ordering.TheVariants.{Less};
ghost use Rattle.std.specs.List.{AllByRecursion};
ghost use Rattle.sqlite_value.specs.Keys.{plain, prefix_cmp};
ghost use Rattle.sqlite_trees.specs.declared.store.Shape.TheVariants.{Table};
ghost use Rattle.sqlite_trees.specs.View.{IsClean, IsQuiet, KeepsSchema, KeepsCommitted, OnlyWrites};
ghost use Rattle.sqlite_exec.specs.Calls.{OnlyReads};
ghost use Rattle.keep_tables.specs.Stands.{FitsSpent};
ghost use Rattle.keep_puts.specs.Trees.{AreOurs};
ghost use Rattle.keep_puts.specs.Steps.{IfDone, AreBelow, PutsBoth, AddsKept, MayFollow};
ghost use Rattle.keep_puts.specs.Room.{IsDoneIf, AreNumbers, HasNumbers, TakesAmounts};
ghost use Rattle.keep_puts.specs.Puts.{PutsFrom, PutsAmounts};
ghost use Rattle.keep_puts.specs.Causes.{StepCause};

use crate::rows::{set_amount, set_entry, set_key};
use road_time::SpentRow;
use sqlite_exec::write::last;
use sqlite_trees::error::StoreError;
use sqlite_trees::store::Store;
use sqlite_value::keys::Order;
use sqlite_value::row::Row;
use sqlite_value::value::ValueRef;

/// Puts an amount under a number, and its entry into the index.
fn put_amount<S: Store>(
    store: &mut S,
    number: i64,
    row: &SpentRow,
    full: &mut Row,
    entry: &mut Row,
) -> Result<(), StoreError>
    requires shapes { AreOurs (S.Store.view store.old).shape }
    requires small { row.now.tolls < 2 ^ 63 }
    ensures fits { FitsSpent row.now }
    ensures puts { IsClean (S.Store.view store.new) → OnOk result
        (PutsBoth number row.now (S.Store.view store.old).trees (S.Store.view store.new).trees) }
    ensures sound { IsClean (S.Store.view store.new) → OnOk result ((S.Store.view store.old).is_broken ≡ false) }
    ensures frame { IsClean (S.Store.view store.new)
        → OnOk result (OnlyWrites (S.Store.view store.old) (S.Store.view store.new)) }
    ensures err { IsClean (S.Store.view store.new)
        → OnErr result (KeepsCommitted (S.Store.view store.old) (S.Store.view store.new)) }
    ensures why { IsClean (S.Store.view store.new) → IfErr result (StepCause S.Store store.old store.new) }
    ensures schema { KeepsSchema (S.Store.view store.old) (S.Store.view store.new) }
    ensures quiet { IsQuiet S.Store.view S.Store.faults S.Store.recovers S.Store.is_shielded store.old store.new }
{
    // numbers that were read are known to fit their types
    let _day = row.day;
    let _vid = row.vid;
    let _xway = row.xway;
    set_amount(full, number, row)?;
    set_entry(entry, number, row)?;
    store.put(1, full)?;
    store.insert(2, entry)
}

/// The number after one, if there is one.
fn after(number: i64) -> Option<i64>
    ensures { SomeIff result (FitsSigned w64 (number +ℤ pos 1)) (number +ℤ pos 1) }
{
    number.checked_add(1)
}

/// Puts amounts, one after another, under the numbers from one on, and says whether these sufficed.
fn put_from<S: Store>(
    store: &mut S,
    first: i64,
    rows: &[SpentRow],
    full: &mut Row,
    entry: &mut Row,
) -> Result<bool, StoreError>
    requires shapes { AreOurs (S.Store.view store.old).shape }
    requires small { AllByRecursion (λ r. r.tolls < 2 ^ 63) rows.now }
    ensures fits { IfOk result (λ done. IfDone done (AllByRecursion FitsSpent rows.now)) }
    ensures adds { IsClean (S.Store.view store.new) → AreBelow first ((S.Store.view store.old).trees 1)
        → IfOk result (λ done. IfDone done
        (AddsKept (S.Store.view store.old).trees (S.Store.view store.new).trees rows.now)) }
    ensures puts { IsClean (S.Store.view store.new) → AreBelow first ((S.Store.view store.old).trees 1)
        → IfOk result (λ done. IfDone done
        (PutsFrom first rows.now (S.Store.view store.old).trees (S.Store.view store.new).trees)) }
    ensures frame { IsClean (S.Store.view store.new)
        → OnOk result (OnlyWrites (S.Store.view store.old) (S.Store.view store.new)) }
    ensures err { IsClean (S.Store.view store.new)
        → OnErr result (KeepsCommitted (S.Store.view store.old) (S.Store.view store.new)) }
    ensures room { IsClean (S.Store.view store.new)
        → IfOk result (IsDoneIf (AreNumbers first (length rows.now))) }
    ensures why { IsClean (S.Store.view store.new) → IfErr result (StepCause S.Store store.old store.new) }
    ensures schema { KeepsSchema (S.Store.view store.old) (S.Store.view store.new) }
    ensures quiet { IsQuiet S.Store.view S.Store.faults S.Store.recovers S.Store.is_shielded store.old store.new }
{
    let mut number = first;
    'rows: for row in rows {
        put_amount(store, number, row, full, entry)?;
        let Some(next) = after(number) else {
            return Ok(false);
        };
        number = next;
    }
    Ok(true)
}

/// A number above those of all amounts, if there is one.
fn next_number<S: Store>(store: &mut S, full: &mut Row) -> Result<Option<i64>, StoreError>
    requires { (S.Store.view store.old).shape 1 ≡ Table }
    ensures next { IsClean (S.Store.view store.new)
        → IfOk result (λ next. IfSome next (λ n. AreBelow n ((S.Store.view store.old).trees 1))) }
    ensures room { IsClean (S.Store.view store.new) → IfOk result (λ next. (count : ℕ)
        → HasNumbers count ((S.Store.view store.old).trees 1) → IsSomeAnd next (λ n. AreNumbers n count)) }
    ensures same { IsClean (S.Store.view store.new)
        → OnOk result (OnlyReads (S.Store.view store.old) (S.Store.view store.new)) }
    ensures err { IsClean (S.Store.view store.new)
        → OnErr result (KeepsCommitted (S.Store.view store.old) (S.Store.view store.new)) }
    ensures why { IsClean (S.Store.view store.new) → IfErr result (StepCause S.Store store.old store.new) }
    ensures schema { KeepsSchema (S.Store.view store.old) (S.Store.view store.new) }
    ensures quiet { IsQuiet S.Store.view S.Store.faults S.Store.recovers S.Store.is_shielded store.old store.new }
{
    if !last(store, 1, full)? {
        return Ok(Some(1));
    }
    match full.get(0) {
        ValueRef::Int(number) => Ok(after(number)),
        _ => Ok(None),
    }
}

/// Whether an entry begins below a key.
fn is_below(entry: &Row, key: &Row) -> bool
    ensures { IsTrue result ↔ (prefix_cmp plain entry.now key.now ≡ Less) }
{
    entry.cmp_prefix(Order::PLAIN, key).is_lt()
}

/// Whether amounts may follow those that the index lists.
fn may_follow<S: Store>(
    store: &mut S,
    rows: &[SpentRow],
    entry: &mut Row,
    key: &mut Row,
) -> Result<bool, StoreError>
    ensures follow { IsClean (S.Store.view store.new)
        → IfOk result (λ may. IfDone may (MayFollow ((S.Store.view store.old).trees 2) rows.now)) }
    ensures same { IsClean (S.Store.view store.new)
        → OnOk result (OnlyReads (S.Store.view store.old) (S.Store.view store.new)) }
    ensures err { IsClean (S.Store.view store.new)
        → OnErr result (KeepsCommitted (S.Store.view store.old) (S.Store.view store.new)) }
    ensures room { IsClean (S.Store.view store.new)
        → IfOk result (IsDoneIf (MayFollow ((S.Store.view store.old).trees 2) rows.now)) }
    ensures why { IsClean (S.Store.view store.new) → IfErr result (StepCause S.Store store.old store.new) }
    ensures schema { KeepsSchema (S.Store.view store.old) (S.Store.view store.new) }
    ensures quiet { IsQuiet S.Store.view S.Store.faults S.Store.recovers S.Store.is_shielded store.old store.new }
{
    let Some(first) = rows.first() else {
        return Ok(true);
    };
    if !last(store, 2, entry)? {
        return Ok(true);
    }
    set_key(key, first)?;
    Ok(is_below(entry, key))
}

/// Puts amounts, if they may follow those that are there, and says whether it did.
pub fn put_amounts<S: Store>(
    store: &mut S,
    rows: &[SpentRow],
    full: &mut Row,
    entry: &mut Row,
) -> Result<bool, StoreError>
    requires shapes { AreOurs (S.Store.view store.old).shape }
    requires small { AllByRecursion (λ r. r.tolls < 2 ^ 63) rows.now }
    ensures fits { IfOk result (λ done. IfDone done (AllByRecursion FitsSpent rows.now)) }
    ensures follow { IsClean (S.Store.view store.new)
        → IfOk result (λ done. IfDone done (MayFollow ((S.Store.view store.old).trees 2) rows.now)) }
    ensures adds { IsClean (S.Store.view store.new) → IfOk result (λ done. IfDone done
        (AddsKept (S.Store.view store.old).trees (S.Store.view store.new).trees rows.now)) }
    ensures puts { IsClean (S.Store.view store.new) → IfOk result (λ done. IfDone done
        (PutsAmounts rows.now (S.Store.view store.old).trees (S.Store.view store.new).trees)) }
    ensures frame { IsClean (S.Store.view store.new)
        → OnOk result (OnlyWrites (S.Store.view store.old) (S.Store.view store.new)) }
    ensures err { IsClean (S.Store.view store.new)
        → OnErr result (KeepsCommitted (S.Store.view store.old) (S.Store.view store.new)) }
    ensures room { IsClean (S.Store.view store.new)
        → IfOk result (IsDoneIf (TakesAmounts rows.now (S.Store.view store.old).trees)) }
    ensures why { IsClean (S.Store.view store.new) → IfErr result (StepCause S.Store store.old store.new) }
    ensures schema { KeepsSchema (S.Store.view store.old) (S.Store.view store.new) }
    ensures quiet { IsQuiet S.Store.view S.Store.faults S.Store.recovers S.Store.is_shielded store.old store.new }
{
    if !may_follow(store, rows, entry, full)? {
        return Ok(false);
    }
    let Some(first) = next_number(store, full)? else {
        return Ok(false);
    };
    put_from(store, first, rows, full, entry)
}
