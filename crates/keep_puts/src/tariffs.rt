// The tariffs of expressways.
ghost use Rattle.std.specs.Prelude.{◌≡◌, pos, false, IfErr, OnOk, OnErr};
ghost use Rattle.sqlite_trees.specs.declared.store.Shape.TheVariants.{Table};
ghost use Rattle.sqlite_trees.specs.View.{IsClean, IsQuiet, KeepsSchema, KeepsCommitted, OnlyWrites};
ghost use Rattle.road_time.specs.Rates.{IsTariff, benchmark, same_tariff};
ghost use Rattle.keep_office.specs.Kept.{with_tariff_of};
ghost use Rattle.keep_tables.specs.Steps.{FitsAny};
ghost use Rattle.sqlite_trees.specs.Tree.{put_row, without_rowid};
ghost use Rattle.keep_tables.specs.Codec.{tariff_row};
ghost use Rattle.keep_puts.specs.Puts.{Edits, PutsTariff};
ghost use Rattle.keep_puts.specs.Stores.{Makes};
ghost use Rattle.keep_puts.specs.Causes.{StepCause};

use crate::rows::set_tariff;
use road_time::Tariff;
use sqlite_trees::error::StoreError;
use sqlite_trees::store::Store;
use sqlite_value::row::Row;

/// Takes an expressway's own tariff away.
fn take<S: Store>(store: &mut S, xway: u8) -> Result<(), StoreError>
    requires { (S.Store.view store.old).shape 5 ≡ Table }
    ensures took { IsClean (S.Store.view store.new) → OnOk result (Makes FitsAny (with_tariff_of xway benchmark)
        (S.Store.view store.old).trees (S.Store.view store.new).trees) }
    ensures edits { IsClean (S.Store.view store.new) → OnOk result (Edits 5 (without_rowid (pos xway))
        (S.Store.view store.old).trees (S.Store.view store.new).trees) }
    ensures frame { IsClean (S.Store.view store.new)
        → OnOk result (OnlyWrites (S.Store.view store.old) (S.Store.view store.new)) }
    ensures err { IsClean (S.Store.view store.new)
        → OnErr result (KeepsCommitted (S.Store.view store.old) (S.Store.view store.new)) }
    ensures why { IsClean (S.Store.view store.new) → IfErr result (StepCause S.Store store.old store.new) }
    ensures schema { KeepsSchema (S.Store.view store.old) (S.Store.view store.new) }
    ensures quiet { IsQuiet S.Store.view S.Store.faults S.Store.recovers S.Store.is_shielded store.old store.new }
{
    store.delete(5, i64::from(xway))
}

/// Gives an expressway a tariff of its own.
fn give<S: Store>(store: &mut S, xway: u8, tariff: &Tariff, row: &mut Row) -> Result<(), StoreError>
    requires shape { (S.Store.view store.old).shape 5 ≡ Table }
    requires valid { IsTariff tariff.now }
    ensures gave { IsClean (S.Store.view store.new) → same_tariff tariff.now benchmark ≡ false
        → OnOk result (Makes FitsAny (with_tariff_of xway tariff.now)
        (S.Store.view store.old).trees (S.Store.view store.new).trees) }
    ensures edits { IsClean (S.Store.view store.new) → OnOk result (Edits 5 (put_row (tariff_row (xway, tariff.now)))
        (S.Store.view store.old).trees (S.Store.view store.new).trees) }
    ensures frame { IsClean (S.Store.view store.new)
        → OnOk result (OnlyWrites (S.Store.view store.old) (S.Store.view store.new)) }
    ensures err { IsClean (S.Store.view store.new)
        → OnErr result (KeepsCommitted (S.Store.view store.old) (S.Store.view store.new)) }
    ensures why { IsClean (S.Store.view store.new) → IfErr result (StepCause S.Store store.old store.new) }
    ensures schema { KeepsSchema (S.Store.view store.old) (S.Store.view store.new) }
    ensures quiet { IsQuiet S.Store.view S.Store.faults S.Store.recovers S.Store.is_shielded store.old store.new }
{
    set_tariff(row, xway, tariff)?;
    store.put(5, row)
}

/// Writes a tariff in place of the expressway's own.
pub fn write_tariff<S: Store>(
    store: &mut S,
    xway: u8,
    tariff: &Tariff,
    row: &mut Row,
) -> Result<(), StoreError>
    requires shape { (S.Store.view store.old).shape 5 ≡ Table }
    requires valid { IsTariff tariff.now }
    ensures wrote { IsClean (S.Store.view store.new)
        → OnOk result (Makes FitsAny (with_tariff_of xway tariff.now)
        (S.Store.view store.old).trees (S.Store.view store.new).trees) }
    ensures puts { IsClean (S.Store.view store.new) → OnOk result (PutsTariff xway tariff.now
        (S.Store.view store.old).trees (S.Store.view store.new).trees) }
    ensures frame { IsClean (S.Store.view store.new)
        → OnOk result (OnlyWrites (S.Store.view store.old) (S.Store.view store.new)) }
    ensures err { IsClean (S.Store.view store.new)
        → OnErr result (KeepsCommitted (S.Store.view store.old) (S.Store.view store.new)) }
    ensures why { IsClean (S.Store.view store.new) → IfErr result (StepCause S.Store store.old store.new) }
    ensures quiet { IsQuiet S.Store.view S.Store.faults S.Store.recovers S.Store.is_shielded store.old store.new }
{
    take(store, xway)?;
    if *tariff == Tariff::BENCHMARK {
        return Ok(());
    }
    give(store, xway, tariff, row)
}
