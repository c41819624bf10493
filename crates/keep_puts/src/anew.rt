// A history that all begins anew with, in one commit.
ghost use Rattle.std.specs.Prelude.{◌≡◌, IfOk, IfErr, OnOk, OnErr};
ghost use Rattle.sqlite_trees.specs.View.{IsClean, IsQuiet, KeepsCommitted, OnlyWrites};
ghost use Rattle.keep_office.specs.Kept.{IsPastPut};
ghost use Rattle.keep_office.specs.Renewed.{anew};
ghost use Rattle.keep_tables.specs.Steps.{FitsAny};
ghost use Rattle.keep_puts.specs.Trees.{AreOurs};
ghost use Rattle.keep_puts.specs.Steps.{IfDone};
ghost use Rattle.keep_puts.specs.Room.{IsDoneIf, TakesAnew, RoomAnew};
ghost use Rattle.keep_puts.specs.Causes.{StepCause};
ghost use Rattle.keep_puts.specs.Puts.{PutsAnew, Writes};
ghost use Rattle.keep_puts.specs.Stores.{Makes, Stores};

use crate::clearing::clear;
use crate::puts::{begin, finish, write_past};
use keep_office::PastRecord;
use road_time::SpentRow;
use sqlite_trees::error::StoreError;
use sqlite_trees::store::Store;
use sqlite_value::row::Row;
use std::alloc::Global;

/// Takes all away but the tariffs, writes a history and its amounts, and says whether it did.
fn write_anew<S: Store>(
    store: &mut S,
    kept: &PastRecord,
    rows: &[SpentRow],
    row: &mut Row,
    spare: &mut Row,
) -> Result<bool, StoreError>
    requires shapes { AreOurs (S.Store.view store.old).shape }
    requires fits { IsPastPut kept.now rows.now }
    ensures wrote { IsClean (S.Store.view store.new) → IfOk result (λ done. IfDone done
        (Makes FitsAny (anew kept.now rows.now) (S.Store.view store.old).trees (S.Store.view store.new).trees)) }
    ensures puts { IsClean (S.Store.view store.new) → IfOk result (λ done. IfDone done
        (PutsAnew kept.now rows.now (S.Store.view store.old).trees (S.Store.view store.new).trees)) }
    ensures frame { IsClean (S.Store.view store.new)
        → OnOk result (OnlyWrites (S.Store.view store.old) (S.Store.view store.new)) }
    ensures err { IsClean (S.Store.view store.new)
        → OnErr result (KeepsCommitted (S.Store.view store.old) (S.Store.view store.new)) }
    ensures room { IsClean (S.Store.view store.new)
        → IfOk result (IsDoneIf (TakesAnew rows.now (S.Store.view store.old).trees)) }
    ensures why { IsClean (S.Store.view store.new) → IfErr result (StepCause S.Store store.old store.new) }
    ensures quiet { IsQuiet S.Store.view S.Store.faults S.Store.recovers S.Store.is_shielded store.old store.new }
{
    if !clear(store, row)? {
        return Ok(false);
    }
    write_past(store, kept, rows, row, spare)
}

/// Takes all away but the tariffs, puts a history with its amounts, and says whether it did.
pub fn put_anew<S: Store>(
    store: &mut S,
    alloc: Global,
    kept: &PastRecord,
    rows: &[SpentRow],
) -> Result<bool, StoreError>
    requires { IsPastPut kept.now rows.now }
    ensures stores { Stores S.Store (RoomAnew rows.now) FitsAny (anew kept.now rows.now)
        store.old store.new result }
    ensures writes { Writes S.Store (PutsAnew kept.now rows.now) store.old store.new result }
{
    if !begin(store)? {
        return Ok(false);
    }
    let mut row = Row::new(alloc);
    let mut spare = Row::new(alloc);
    let done = write_anew(store, kept, rows, &mut row, &mut spare)?;
    finish(store, done)
}
