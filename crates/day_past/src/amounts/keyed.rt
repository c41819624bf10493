// Amounts in a list, and the same in a map.
ghost use Rattle.std.specs.Prelude.{◌≡◌, ◌<◌, ◌^◌, IsTrue, IfOk, length, map, nat_lt};
ghost use Rattle.std.specs.Ordering.{is_lt};
ghost use Rattle.std.specs.List.{AllByRecursion, filter};
ghost use Rattle.std.specs.declared.cmp.Ordering.TheVariants.{Less};
ghost use Rattle.keep_office.specs.Office.{row_cmp, RowsRise};
ghost use Rattle.day_past.specs.Rows.{amount_of};

use super::Key;
use road_time::{NoMemory, SpentRow};
use std::alloc::Global;
use std::collections::BTreeMap;

/// Whether a row's key is below another's.
fn is_before(row: &SpentRow, next: &SpentRow) -> bool
    ensures { result ≡ is_lt (row_cmp row.now next.now) }
{
    let order = row
        .day
        .cmp(&next.day)
        .then(row.vid.cmp(&next.vid).then(row.xway.cmp(&next.xway)));
    order.is_lt()
}

/// Whether a row comes behind the last of some in order, and so behind all of them.
pub(super) fn is_behind(rows: &[SpentRow], row: &SpentRow) -> bool
    ensures { IsTrue result → RowsRise rows.now → AllByRecursion (λ s. row_cmp s row.now ≡ Less) rows.now }
{
    match rows.split_last() {
        None => true,
        Some((last, _earlier)) => is_before(last, row),
    }
}

/// Rows in order, in a map.
pub(super) fn mapped(alloc: Global, rows: &[SpentRow]) -> Result<BTreeMap<Key, u64>, NoMemory>
    ensures { IfOk result (λ by_key. RowsRise rows.now → map amount_of by_key.entries ≡ rows.now) }
{
    let mut by_key = BTreeMap::new(alloc);
    'rows: for row in rows {
        let key = Key {
            day: row.day,
            vid: row.vid,
            xway: row.xway,
        };
        let Ok(_) = by_key.insert(key, row.tolls) else {
            return Err(NoMemory);
        };
    }
    Ok(by_key)
}

/// The amounts above zero of a list, in its order.
pub(super) fn above_zero(rows: Vec<SpentRow>) -> Vec<SpentRow>
    ensures value { result.items ≡ filter (λ r. nat_lt 0 r.tolls) rows.items }
    ensures few { length result.items < 2 ^ 63 }
{
    let mut kept = rows;
    kept.retain(|row| row.tolls > 0);
    kept
}

/// The amounts above zero of a map, in order.
pub(super) fn listed(alloc: Global, by_key: &BTreeMap<Key, u64>) -> Result<Vec<SpentRow>, NoMemory>
    ensures value { IfOk result (λ kept. kept.items ≡ filter (λ r. nat_lt 0 r.tolls)
        (map amount_of by_key.now.entries)) }
    ensures rise { IfOk result (λ kept. RowsRise kept.items) }
    ensures few { IfOk result (λ kept. length kept.items < 2 ^ 63) }
{
    let mut rows = Vec::new(alloc);
    for (key, tolls) in by_key {
        if *tolls > 0 {
            rows.push(SpentRow {
                day: key.day,
                vid: key.vid,
                xway: key.xway,
                tolls: *tolls,
            })?;
        }
    }
    Ok(rows)
}
