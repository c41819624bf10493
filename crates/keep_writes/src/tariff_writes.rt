// The statements of a put of a tariff.
ghost use Rattle.std.specs.Prelude.{◌≡◌, [], ◌∷◌, false, Err, IsTrue, IfErr, OnOk};
ghost use Rattle.sqlite.specs.Held.{state};
ghost use Rattle.sqlite.specs.State.{HasCleanDisk, KeepsCommit, Survives, ExecutesInside};
ghost use Rattle.road_time.specs.Rates.{IsTariff, benchmark, same_tariff};
ghost use Rattle.keep_office.specs.Office.{Office};
ghost use Rattle.keep_office.specs.Kept.{with_tariff_of};
ghost use Rattle.keep_tables.specs.Stands.{HasOffice};
ghost use Rattle.keep_tables.specs.Steps.{StaysInside};
ghost use Rattle.keep_writes.specs.Causes.{RefusedInside};
ghost use Rattle.keep_writes.specs.Runs.{RanAll};
ghost use Rattle.keep_writes.specs.Writes.{taken_text, given_text, tariff_texts};

use road_time::Tariff;
use sqlite::{Alter, Error, Transaction, params};

/// Writes a tariff in place of the expressway's own.
pub fn write<S: Alter>(tx: &mut Transaction<'_, S>, xway: u8, tariff: &Tariff) -> Result<(), Error>
    requires { IsTariff tariff.now }
    ensures same_reference { tx.new.conn.ghost_name ≡ tx.old.conn.ghost_name }
    ensures wrote { HasCleanDisk (state S.Store tx.new.conn.now)
        → IsTrue (state S.Store tx.old.conn.now).in_transaction → (o : Office)
        → HasOffice (state S.Store tx.old.conn.now).now o
        → OnOk result (HasOffice (state S.Store tx.new.conn.now).now (with_tariff_of xway tariff.now o)) }
    ensures inside { HasCleanDisk (state S.Store tx.new.conn.now)
        → IsTrue (state S.Store tx.old.conn.now).in_transaction
        → StaysInside (state S.Store tx.old.conn.now) (state S.Store tx.new.conn.now) result }
    ensures refused { HasCleanDisk (state S.Store tx.new.conn.now)
        → IsTrue (state S.Store tx.old.conn.now).in_transaction
        → IfErr result (RefusedInside S.Store (tariff_texts xway tariff.now) tx.old.conn.now tx.new.conn.now) }
    ensures ran { HasCleanDisk (state S.Store tx.new.conn.now)
        → IsTrue (state S.Store tx.old.conn.now).in_transaction
        → OnOk result (RanAll S.Store (tariff_texts xway tariff.now) tx.old.conn.now tx.new.conn.now) }
    ensures survives { Survives (state S.Store tx.old.conn.now) (state S.Store tx.new.conn.now) (λ _. ⊥) }
{
    take(tx, xway)?;
    if *tariff == Tariff::BENCHMARK {
        return Ok(());
    }
    give(tx, xway, tariff)
}

/// Takes an expressway's own tariff away.
fn take<S: Alter>(tx: &mut Transaction<'_, S>, xway: u8) -> Result<(), Error>
    ensures same_reference { tx.new.conn.ghost_name ≡ tx.old.conn.ghost_name }
    ensures took { HasCleanDisk (state S.Store tx.new.conn.now)
        → IsTrue (state S.Store tx.old.conn.now).in_transaction → (o : Office)
        → HasOffice (state S.Store tx.old.conn.now).now o
        → OnOk result (HasOffice (state S.Store tx.new.conn.now).now (with_tariff_of xway benchmark o)) }
    ensures inside { HasCleanDisk (state S.Store tx.new.conn.now)
        → IsTrue (state S.Store tx.old.conn.now).in_transaction
        → StaysInside (state S.Store tx.old.conn.now) (state S.Store tx.new.conn.now) result }
    ensures refused { HasCleanDisk (state S.Store tx.new.conn.now)
        → IsTrue (state S.Store tx.old.conn.now).in_transaction
        → IfErr result (RefusedInside S.Store (taken_text xway ∷ []) tx.old.conn.now tx.new.conn.now) }
    ensures ran { HasCleanDisk (state S.Store tx.new.conn.now)
        → IsTrue (state S.Store tx.old.conn.now).in_transaction
        → OnOk result (RanAll S.Store (taken_text xway ∷ []) tx.old.conn.now tx.new.conn.now) }
    ensures survives { Survives (state S.Store tx.old.conn.now) (state S.Store tx.new.conn.now) (λ _. ⊥) }
{
    match tx.execute(
        "DELETE FROM tariffs WHERE xway = ?1",
        params![u32::from(xway)],
    ) {
        Ok(_) => Ok(()),
        Err(error) => Err(error),
    }
}

/// Gives an expressway that has none a tariff of its own.
fn give<S: Alter>(tx: &mut Transaction<'_, S>, xway: u8, tariff: &Tariff) -> Result<(), Error>
    requires { IsTariff tariff.now }
    ensures same_reference { tx.new.conn.ghost_name ≡ tx.old.conn.ghost_name }
    ensures gave { HasCleanDisk (state S.Store tx.new.conn.now)
        → IsTrue (state S.Store tx.old.conn.now).in_transaction → (o : Office)
        → HasOffice (state S.Store tx.old.conn.now).now o
        → same_tariff tariff.now benchmark ≡ false
        → OnOk result (HasOffice (state S.Store tx.new.conn.now).now (with_tariff_of xway tariff.now o)) }
    ensures inside { HasCleanDisk (state S.Store tx.new.conn.now)
        → IsTrue (state S.Store tx.old.conn.now).in_transaction
        → StaysInside (state S.Store tx.old.conn.now) (state S.Store tx.new.conn.now) result }
    ensures refused { HasCleanDisk (state S.Store tx.new.conn.now)
        → IsTrue (state S.Store tx.old.conn.now).in_transaction
        → IfErr result (RefusedInside S.Store (given_text xway tariff.now ∷ []) tx.old.conn.now tx.new.conn.now) }
    ensures ran { HasCleanDisk (state S.Store tx.new.conn.now)
        → IsTrue (state S.Store tx.old.conn.now).in_transaction
        → OnOk result (RanAll S.Store (given_text xway tariff.now ∷ []) tx.old.conn.now tx.new.conn.now) }
    ensures survives { Survives (state S.Store tx.old.conn.now) (state S.Store tx.new.conn.now) (λ _. ⊥) }
{
    match tx.execute(
        "INSERT INTO tariffs VALUES (?1, ?2, ?3, ?4)",
        params![
            u32::from(xway),
            tariff.crowd,
            u32::from(tariff.speed),
            u32::from(tariff.factor)
        ],
    ) {
        Ok(_) => Ok(()),
        Err(error) => Err(error),
    }
}
