// The statements of a put of a day.
ghost use Rattle.sqlite_value.specs.Order.{Row};
ghost use Rattle.sqlite_value.specs.declared.value.Value.TheVariants.{Int, Blob};
ghost use Rattle.std.specs.Prelude.{◌≡◌, ◌<◌, ◌^◌, List, [], ◌∷◌, pos, Err, IsTrue, IfErr, OnOk};
ghost use Rattle.std.specs.List.{AllByRecursion};
ghost use Rattle.sqlite.specs.Held.{state};
ghost use Rattle.sqlite.specs.State.{HasCleanDisk, ExecutesInside, Survives};
ghost use Rattle.keep_office.specs.declared.kept.DayRecord.{DayRecord};
ghost use Rattle.keep_office.specs.Office.{Office};
ghost use Rattle.keep_office.specs.Kept.{IsDayPut, IsLater, with_day};
ghost use Rattle.keep_tables.specs.Stands.{Contents, Holds, HoldsAs, HasOffice, IsWholeDigest, with_record, with_seal};
ghost use Rattle.keep_tables.specs.Steps.{StaysInside};
ghost use Rattle.keep_tables.specs.Texts.{put_seal as put_seal_text};
ghost use Rattle.keep_writes.specs.Causes.{RefusedInside};
ghost use Rattle.keep_writes.specs.Runs.{RanAll};
ghost use Rattle.keep_writes.specs.Writes.{day_texts, record_text, seal_text};

use crate::columns::{bytes_of, column};
use crate::spent_writes::put_amounts;
use keep_office::DayRecord;
use road_digest::Digest;
use road_time::SpentRow;
use sqlite::{Alter, Error, Transaction, params};

/// Writes a day, its seal and its amounts.
pub fn write_day<S: Alter>(
    tx: &mut Transaction<'_, S>,
    kept: &DayRecord,
    rows: &[SpentRow],
) -> Result<(), Error>
    requires { IsDayPut kept.now rows.now }
    ensures same_reference { tx.new.conn.ghost_name ≡ tx.old.conn.ghost_name }
    ensures wrote { HasCleanDisk (state S.Store tx.new.conn.now)
        → IsTrue (state S.Store tx.old.conn.now).in_transaction → (o : Office)
        → HasOffice (state S.Store tx.old.conn.now).now o → IsLater kept.now.day o
        → OnOk result (HasOffice (state S.Store tx.new.conn.now).now (with_day kept.now rows.now o)) }
    ensures inside { HasCleanDisk (state S.Store tx.new.conn.now)
        → IsTrue (state S.Store tx.old.conn.now).in_transaction
        → StaysInside (state S.Store tx.old.conn.now) (state S.Store tx.new.conn.now) result }
    ensures refused { HasCleanDisk (state S.Store tx.new.conn.now)
        → IsTrue (state S.Store tx.old.conn.now).in_transaction
        → IfErr result (RefusedInside S.Store (day_texts kept.now rows.now) tx.old.conn.now tx.new.conn.now) }
    ensures ran { HasCleanDisk (state S.Store tx.new.conn.now)
        → IsTrue (state S.Store tx.old.conn.now).in_transaction
        → OnOk result (RanAll S.Store (day_texts kept.now rows.now) tx.old.conn.now tx.new.conn.now) }
    ensures survives { Survives (state S.Store tx.old.conn.now) (state S.Store tx.new.conn.now) (λ _. ⊥) }
{
    put_record(tx, kept)?;
    put_seal(tx, kept.day, &kept.tariffs)?;
    put_amounts(tx, rows)
}

/// Puts the record of a day after all others.
pub fn put_record<S: Alter>(tx: &mut Transaction<'_, S>, kept: &DayRecord) -> Result<(), Error>
    requires bytes { kept.now.bytes < 2 ^ 63 }
    requires tuples { kept.now.tuples < 2 ^ 63 }
    requires notices { kept.now.notices < 2 ^ 63 }
    requires total { kept.now.total < 2 ^ 63 }
    ensures day { kept.now.day < 2 ^ 32 }
    ensures digest { IsWholeDigest kept.now.digest }
    ensures told { IsWholeDigest kept.now.notices_digest }
    ensures same_reference { tx.new.conn.ghost_name ≡ tx.old.conn.ghost_name }
    ensures puts { HasCleanDisk (state S.Store tx.new.conn.now)
        → IsTrue (state S.Store tx.old.conn.now).in_transaction → (c : Contents)
        → Holds (state S.Store tx.old.conn.now).now c
        → AllByRecursion (λ d. d.day < kept.now.day) c.days
        → OnOk result (Holds (state S.Store tx.new.conn.now).now (with_record kept.now c)) }
    ensures inside { HasCleanDisk (state S.Store tx.new.conn.now)
        → IsTrue (state S.Store tx.old.conn.now).in_transaction
        → StaysInside (state S.Store tx.old.conn.now) (state S.Store tx.new.conn.now) result }
    ensures refused { HasCleanDisk (state S.Store tx.new.conn.now)
        → IsTrue (state S.Store tx.old.conn.now).in_transaction
        → IfErr result (RefusedInside S.Store (record_text kept.now ∷ []) tx.old.conn.now tx.new.conn.now) }
    ensures ran { HasCleanDisk (state S.Store tx.new.conn.now)
        → IsTrue (state S.Store tx.old.conn.now).in_transaction
        → OnOk result (RanAll S.Store (record_text kept.now ∷ []) tx.old.conn.now tx.new.conn.now) }
    ensures survives { Survives (state S.Store tx.old.conn.now) (state S.Store tx.new.conn.now) (λ _. ⊥) }
{
    let day = kept.day;
    let digest = bytes_of(&kept.digest.bytes);
    let bytes = column(kept.bytes);
    let tuples = column(kept.tuples);
    let notices = column(kept.notices);
    let told = bytes_of(&kept.notices_digest.bytes);
    let total = column(kept.total);
    match tx.execute(
        "INSERT INTO days VALUES (?1, ?2, ?3, ?4, ?5, ?6, ?7)",
        params![day, digest, bytes, tuples, notices, told, total],
    ) {
        Ok(_) => Ok(()),
        Err(error) => Err(error),
    }
}

/// Puts the seal of a day after all others.
pub fn put_seal<S: Alter>(tx: &mut Transaction<'_, S>, day: u32, seal: &Digest) -> Result<(), Error>
    ensures fits { IsWholeDigest seal.now }
    ensures same_reference { tx.new.conn.ghost_name ≡ tx.old.conn.ghost_name }
    ensures puts { HasCleanDisk (state S.Store tx.new.conn.now)
        → IsTrue (state S.Store tx.old.conn.now).in_transaction → (version : List Row) → (c : Contents)
        → HoldsAs version (state S.Store tx.old.conn.now).now c
        → (r : DayRecord) → r.day ≡ day → r.tariffs ≡ seal.now → AllByRecursion (λ d. d.day < r.day) c.sealed
        → OnOk result (HoldsAs version (state S.Store tx.new.conn.now).now (with_seal r c)) }
    ensures inside { HasCleanDisk (state S.Store tx.new.conn.now)
        → IsTrue (state S.Store tx.old.conn.now).in_transaction
        → StaysInside (state S.Store tx.old.conn.now) (state S.Store tx.new.conn.now) result }
    ensures refused { HasCleanDisk (state S.Store tx.new.conn.now)
        → IsTrue (state S.Store tx.old.conn.now).in_transaction
        → IfErr result (RefusedInside S.Store (seal_text day seal.now ∷ []) tx.old.conn.now tx.new.conn.now) }
    ensures ran { HasCleanDisk (state S.Store tx.new.conn.now)
        → IsTrue (state S.Store tx.old.conn.now).in_transaction
        → OnOk result (RanAll S.Store (seal_text day seal.now ∷ []) tx.old.conn.now tx.new.conn.now) }
    ensures text { HasCleanDisk (state S.Store tx.new.conn.now)
        → IsTrue (state S.Store tx.old.conn.now).in_transaction
        → IfErr result (λ e. ExecutesInside 0 put_seal_text (Int (pos day) ∷ Blob seal.now.bytes ∷ [])
        (state S.Store tx.old.conn.now) (state S.Store tx.new.conn.now) (Err e)) }
    ensures survives { Survives (state S.Store tx.old.conn.now) (state S.Store tx.new.conn.now) (λ _. ⊥) }
{
    let bytes = bytes_of(&seal.bytes);
    match tx.execute(
        "INSERT INTO day_tariffs VALUES (?1, ?2)",
        params![day, bytes],
    ) {
        Ok(_) => Ok(()),
        Err(error) => Err(error),
    }
}
