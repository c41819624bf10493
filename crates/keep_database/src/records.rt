// What a row is: an amount, a history, a day, a tariff.
ghost use Rattle.std.specs.Prelude.{◌≡◌, ◌≢◌, ◌<◌, ◌≤◌, ◌^◌, ℕ, pos, Err, IfOk};
ghost use Rattle.sqlite_value.specs.Order.{column};
ghost use Rattle.sqlite_value.specs.declared.value.Value.TheVariants.{Int, Blob};
ghost use Rattle.road_time.specs.declared.day.SpentRow.{SpentRow};
ghost use Rattle.road_time.specs.declared.tariff.Tariff.{Tariff};
ghost use Rattle.road_time.specs.Rates.{IsTariff};
ghost use Rattle.keep_office.specs.declared.kept.DayRecord.{DayRecord};
ghost use Rattle.keep_office.specs.declared.kept.KeepFault.TheVariants.{NoMemory};
ghost use Rattle.keep_office.specs.declared.kept.PastRecord.{PastRecord};
ghost use Rattle.keep_tables.specs.Codec.{spent_row, past_values};
ghost use Rattle.keep_tables.specs.Shown.{day_columns, seal_columns, tariff_columns};
ghost use Rattle.keep_tables.specs.Stands.{FitsDay, FitsSpent};
ghost use Rattle.keep_database.specs.Gives.{Gives, FitsBased};

use crate::values::{digest_at, number_8, number_32, number_63};
use keep_office::{DayRecord, KeepFault, PastRecord};
use road_time::{SpentRow, Tariff};
use sqlite::Row;

/// The tariff of an expressway, which is valid.
#[derive(Clone, Copy, Debug)]
pub struct OwnTariff {
    pub xway: u8,
    pub tariff: Tariff,
    ghost valid: { IsTariff tariff },
}

/// The amount that a row is.
pub fn amount_of(row: &Row) -> Result<SpentRow, KeepFault>
    ensures gives { (r : SpentRow) → FitsSpent r → row.now ≡ spent_row r → Gives (λ x. x) result r }
    ensures exact { IfOk result (λ r. (column row.now 0 ≡ Int (pos r.day)) × (column row.now 1 ≡ Int (pos r.vid))
        × (column row.now 2 ≡ Int (pos r.xway)) × (column row.now 3 ≡ Int (pos r.tolls))) }
    ensures pure { result ≢ Err NoMemory }
{
    let day = number_32(row, 0)?;
    let vid = number_32(row, 1)?;
    let xway = number_8(row, 2)?;
    let tolls = number_63(row, 3)?;
    Ok(SpentRow {
        day,
        vid,
        xway,
        tolls,
    })
}

/// The history that a row is. Its base is 70 or more.
pub fn history_of(row: &Row) -> Result<PastRecord, KeepFault>
    ensures gives { (p : PastRecord) → FitsBased p → row.now ≡ past_values p → Gives (λ x. x) result p }
    ensures exact { IfOk result (λ p. (column row.now 0 ≡ Int (pos p.base)) × (column row.now 1 ≡ Blob p.digest.bytes)
        × (column row.now 2 ≡ Int (pos p.bytes)) × (column row.now 3 ≡ Int (pos p.rows))) }
    ensures based { IfOk result (λ p. 70 ≤ p.base) }
{
    let base = number_32(row, 0)?;
    let digest = digest_at(row, 1)?;
    let bytes = number_63(row, 2)?;
    let rows = number_63(row, 3)?;
    if base < 70 {
        return Err(KeepFault::Failed);
    }
    Ok(PastRecord {
        base,
        digest,
        bytes,
        rows,
    })
}

/// The day that a row and a seal are.
pub fn record_of(day: u32, row: &Row, seal: &Row) -> Result<DayRecord, KeepFault>
    ensures gives { (r : DayRecord) → FitsDay r → r.day ≡ day → row.now ≡ day_columns r → seal.now ≡ seal_columns r
        → Gives (λ x. x) result r }
    ensures exact { IfOk result (λ r. (r.day ≡ day) × (column row.now 0 ≡ Blob r.digest.bytes)
        × (column row.now 1 ≡ Int (pos r.bytes)) × (column row.now 2 ≡ Int (pos r.tuples))
        × (column row.now 3 ≡ Int (pos r.notices)) × (column row.now 4 ≡ Blob r.notices_digest.bytes)
        × (column row.now 5 ≡ Int (pos r.total)) × (column seal.now 0 ≡ Blob r.tariffs.bytes)) }
{
    let digest = digest_at(row, 0)?;
    let bytes = number_63(row, 1)?;
    let tuples = number_63(row, 2)?;
    let notices = number_63(row, 3)?;
    let notices_digest = digest_at(row, 4)?;
    let total = number_63(row, 5)?;
    let tariffs = digest_at(seal, 0)?;
    Ok(DayRecord {
        day,
        digest,
        bytes,
        tuples,
        notices,
        notices_digest,
        tariffs,
        total,
    })
}

/// The tariff that a row is.
pub fn tariff_of(row: &Row) -> Result<OwnTariff, KeepFault>
    ensures gives { (e : ℕ × Tariff) → e.0 < 2 ^ 8 → IsTariff e.1 → row.now ≡ tariff_columns e
        → Gives (λ own. (own.xway, own.tariff)) result e }
    ensures exact { IfOk result (λ own. (column row.now 0 ≡ Int (pos own.xway))
        × (column row.now 1 ≡ Int (pos own.tariff.crowd)) × (column row.now 2 ≡ Int (pos own.tariff.speed))
        × (column row.now 3 ≡ Int (pos own.tariff.factor))) }
    ensures pure { result ≢ Err NoMemory }
{
    let xway = number_8(row, 0)?;
    let crowd = number_32(row, 1)?;
    let speed = number_8(row, 2)?;
    let factor = number_8(row, 3)?;
    if crowd <= 500_000 && speed <= 100 && factor <= 20 {
        let tariff = Tariff {
            crowd,
            speed,
            factor,
        };
        Ok(OwnTariff { xway, tariff })
    } else {
        Err(KeepFault::Failed)
    }
}
