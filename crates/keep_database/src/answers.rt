// What the rows of an answer are.
ghost use Rattle.std.specs.Prelude.{◌≡◌, ◌≢◌, ◌<◌, ◌≤◌, ◌^◌, ℕ, List, [], ◌∷◌, Option, Some, None, map, length};
ghost use Rattle.std.specs.Prelude.{Ok, Err, IfOk, IfSome, IsSome, OnOk};
ghost use Rattle.std.specs.List.{AllByRecursion};
ghost use Rattle.road_time.specs.declared.day.SpentRow.{SpentRow};
ghost use Rattle.road_time.specs.Rates.{Tariffs};
ghost use Rattle.road_time.specs.Tariffs.{IsTariffs};
ghost use Rattle.keep_office.specs.declared.kept.DayRecord.{DayRecord};
ghost use Rattle.keep_office.specs.declared.kept.KeepFault.TheVariants.{NoMemory};
ghost use Rattle.keep_office.specs.declared.kept.PastRecord.{PastRecord};
ghost use Rattle.keep_office.specs.Office.{RowsRise, last_from, day_before};
ghost use Rattle.keep_tables.specs.Codec.{spent_row, past_values};
ghost use Rattle.keep_tables.specs.Shown.{day_columns, seal_columns, tariff_columns, row_if_any, last_rows};
ghost use Rattle.keep_tables.specs.Stands.{FitsDay, FitsSpent};
ghost use Rattle.keep_tables.specs.Amounts.{HasAmount};
ghost use Rattle.keep_database.specs.Exact.{AreAmounts, AreTariffsIn, IsBefore, IsDayIn, IsLastIn, IsPastIn};
ghost use Rattle.keep_database.specs.Gives.{Gives, FitsBased};

use crate::order::rise;
use crate::records::{amount_of, history_of, record_of, tariff_of};
use crate::values::{number_32, number_63};
use keep_office::{DayRecord, KeepFault, PastRecord};
use road_time::{SpentRow, Tariffs};
use sqlite::Row;
use std::alloc::Global;

/// The amounts that rows are, in the order of their keys.
pub fn amounts_of(alloc: Global, found: &[Row]) -> Result<Vec<SpentRow>, KeepFault>
    ensures gives { (rows : List SpentRow) → AllByRecursion FitsSpent rows → RowsRise rows
        → found.now ≡ map spent_row rows → Gives (λ v. v.items) result rows }
    ensures exact { IfOk result (λ v. AreAmounts found.now v.items) }
    ensures rise { IfOk result (λ v. RowsRise v.items) }
    ensures memory { result ≡ Err NoMemory → 0 < length found.now }
{
    let rows = all_amounts(alloc, found)?;
    if rise(&rows) {
        Ok(rows)
    } else {
        Err(KeepFault::Failed)
    }
}

/// The amounts that rows are, in any order.
fn all_amounts(alloc: Global, found: &[Row]) -> Result<Vec<SpentRow>, KeepFault>
    ensures gives { (rows : List SpentRow) → AllByRecursion FitsSpent rows → found.now ≡ map spent_row rows
        → Gives (λ v. v.items) result rows }
    ensures exact { IfOk result (λ v. AreAmounts found.now v.items) }
    ensures memory { result ≡ Err NoMemory → 0 < length found.now }
{
    let mut rows = Vec::new(alloc);
    'found: for row in found {
        let amount = amount_of(row)?;
        rows.push(amount)?;
    }
    Ok(rows)
}

/// The tariffs that rows are.
pub fn tariffs_of(alloc: Global, found: &[Row]) -> Result<Tariffs, KeepFault>
    ensures gives { (ts : Tariffs) → IsTariffs ts → AllByRecursion (λ e. e.0 < 2 ^ 8) ts
        → found.now ≡ map tariff_columns ts → Gives (λ x. x) result ts }
    ensures exact { IfOk result (λ tariffs. AreTariffsIn found.now tariffs) }
    ensures memory { result ≡ Err NoMemory → 0 < length found.now }
{
    let mut tariffs = Tariffs::new(alloc);
    'found: for row in found {
        let own = tariff_of(row)?;
        tariffs.set(own.xway, &own.tariff)?;
    }
    Ok(tariffs)
}

/// The history that an answer has, if any.
pub fn past_of(found: &[Row]) -> Result<Option<PastRecord>, KeepFault>
    ensures gives { (p : Option PastRecord) → IfSome p FitsBased → found.now ≡ row_if_any past_values p
        → Gives (λ x. x) result p }
    ensures exact { IfOk result (λ p. IsPastIn found.now p) }
    ensures few { OnOk result (length found.now < 2) }
    ensures memory { result ≡ Err NoMemory → 0 < length found.now }
    ensures based { IfOk result (λ p. IfSome p (λ q. 70 ≤ q.base)) }
{
    match found {
        [] => Ok(None),
        [row] => {
            let past = history_of(row)?;
            Ok(Some(past))
        }
        _ => Err(KeepFault::Failed),
    }
}

/// The day that two answers have, if any.
pub fn day_of(day: u32, found: &[Row], seals: &[Row]) -> Result<Option<DayRecord>, KeepFault>
    ensures gives { (kept : Option DayRecord) → IfSome kept (λ r. FitsDay r × (r.day ≡ day))
        → found.now ≡ row_if_any day_columns kept → seals.now ≡ row_if_any seal_columns kept →
        Gives (λ x. x) result kept }
    ensures exact { IfOk result (λ kept. IsDayIn day found.now seals.now kept) }
    ensures none { result ≡ Ok None → length found.now ≡ 0 }
    ensures memory { result ≡ Err NoMemory → 0 < length found.now }
    ensures sealed { IfOk result (λ kept. IfSome kept (λ r. (length found.now ≡ 1) × (length seals.now ≡ 1))) }
{
    match found {
        [] => Ok(None),
        [row] => sealed_day(day, row, seals),
        _ => Err(KeepFault::Failed),
    }
}

/// The day that a row and its seal are.
fn sealed_day(day: u32, row: &Row, seals: &[Row]) -> Result<Option<DayRecord>, KeepFault>
    ensures gives { (r : DayRecord) → FitsDay r → r.day ≡ day → row.now ≡ day_columns r
        → seals.now ≡ seal_columns r ∷ [] → Gives (λ x. x) result (Some r) }
    ensures exact { IfOk result (λ kept. IsDayIn day (row.now ∷ []) seals.now kept) }
    ensures sealed { IfOk result (λ kept. IsSome kept × (length seals.now ≡ 1)) }
{
    match seals {
        [seal] => {
            let record = record_of(day, row, seal)?;
            Ok(Some(record))
        }
        _ => Err(KeepFault::Failed),
    }
}

/// The amount that an answer has, 0 for none.
pub fn amount_in(found: &[Row]) -> Result<u64, KeepFault>
    ensures gives { (tolls : ℕ) → HasAmount found.now tolls → Gives (λ x. x) result tolls }
    ensures exact { IfOk result (λ tolls. HasAmount found.now tolls) }
    ensures few { OnOk result (length found.now < 2) }
    ensures pure { result ≢ Err NoMemory }
{
    match found {
        [] => Ok(0),
        [row] => number_63(row, 0),
        _ => Err(KeepFault::Failed),
    }
}

/// The last day, by the answers for the days and for the history.
pub fn last_of(days: &[Row], found: &[Row]) -> Result<u32, KeepFault>
    ensures gives { (ds : List DayRecord) → (p : Option PastRecord) → AllByRecursion FitsDay ds → IfSome p FitsBased
        → days.now ≡ last_rows ds → found.now ≡ row_if_any past_values p
        → Gives (λ x. x) result (last_from ds p) }
    ensures exact { IfOk result (λ last. IsLastIn days.now found.now last) }
    ensures memory { result ≡ Err NoMemory → 0 < length found.now }
{
    match days {
        [] => before(found),
        [row] => number_32(row, 0),
        _ => Err(KeepFault::Failed),
    }
}

/// The day before a history's, 0 for none.
fn before(found: &[Row]) -> Result<u32, KeepFault>
    ensures gives { (p : Option PastRecord) → IfSome p FitsBased → found.now ≡ row_if_any past_values p
        → Gives (λ x. x) result (day_before p) }
    ensures exact { IfOk result (λ last. IsBefore found.now last) }
    ensures memory { result ≡ Err NoMemory → 0 < length found.now }
{
    match past_of(found)? {
        Some(past) => Ok(past.base.saturating_sub(1)),
        None => Ok(0),
    }
}
