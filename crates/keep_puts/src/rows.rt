// Rows and entries as trees hold them.
ghost use Rattle.std.specs.Prelude.{◌≡◌, ◌<◌, ◌^◌, [], ◌∷◌, ◌++◌, pos, OnOk};
ghost use Rattle.sqlite_value.specs.declared.value.Value.TheVariants.{Int, Null, Blob};
ghost use Rattle.sqlite_sql.specs.Catalog.{entry_of};
ghost use Rattle.keep_tables.specs.Codec.{day_row, past_row, tariff_row};
ghost use Rattle.keep_tables.specs.Stands.{IsWholeDigest, FitsPast};
ghost use Rattle.keep_puts.specs.Trees.{key_columns};
ghost use Rattle.keep_puts.specs.Steps.{numbered, key_of};

use crate::columns::{bytes_of, column};
use keep_office::{DayRecord, PastRecord};
use road_digest::Digest;
use road_time::{SpentRow, Tariff};
use sqlite_value::row::Row;
use sqlite_value::value::ValueRef;
use std::alloc::AllocError;

/// Appends a number.
fn push_number(row: &mut Row, number: u64) -> Result<(), AllocError>
    requires { number < 2 ^ 63 }
    ensures { OnOk result (row.new ≡ row.old ++ Int (pos number) ∷ []) }
{
    row.push(ValueRef::Int(column(number)))
}

/// Appends a digest.
fn push_digest(row: &mut Row, digest: &Digest) -> Result<(), AllocError>
    ensures done { OnOk result (row.new ≡ row.old ++ Blob digest.now.bytes ∷ []) }
    ensures fits { IsWholeDigest digest.now }
{
    row.push(ValueRef::Blob(bytes_of(&digest.bytes)))
}

/// Writes the row of a day over `row`.
pub fn set_day(row: &mut Row, kept: &DayRecord) -> Result<(), AllocError>
    requires bytes { kept.now.bytes < 2 ^ 63 }
    requires tuples { kept.now.tuples < 2 ^ 63 }
    requires notices { kept.now.notices < 2 ^ 63 }
    requires total { kept.now.total < 2 ^ 63 }
    ensures done { OnOk result (row.new ≡ day_row kept.now) }
    ensures fits { OnOk result (IsWholeDigest kept.now.digest × IsWholeDigest kept.now.notices_digest) }
{
    row.clear();
    row.push(ValueRef::Int(i64::from(kept.day)))?;
    row.push(ValueRef::Null)?;
    push_digest(row, &kept.digest)?;
    push_number(row, kept.bytes)?;
    push_number(row, kept.tuples)?;
    push_number(row, kept.notices)?;
    push_digest(row, &kept.notices_digest)?;
    push_number(row, kept.total)
}

/// Writes the row of the seal of a day over `row`.
pub fn set_seal(row: &mut Row, day: u32, seal: &Digest) -> Result<(), AllocError>
    ensures done { OnOk result (row.new ≡ Int (pos day) ∷ Null ∷ Blob seal.now.bytes ∷ []) }
    ensures fits { OnOk result (IsWholeDigest seal.now) }
{
    row.clear();
    row.push(ValueRef::Int(i64::from(day)))?;
    row.push(ValueRef::Null)?;
    push_digest(row, seal)
}

/// Writes the row of a history over `row`.
pub fn set_past(row: &mut Row, kept: &PastRecord) -> Result<(), AllocError>
    requires bytes { kept.now.bytes < 2 ^ 63 }
    requires rows { kept.now.rows < 2 ^ 63 }
    ensures done { OnOk result (row.new ≡ past_row kept.now) }
    ensures fits { OnOk result (FitsPast kept.now) }
{
    row.clear();
    row.push(ValueRef::Int(1))?;
    row.push(ValueRef::Null)?;
    row.push(ValueRef::Int(i64::from(kept.base)))?;
    push_digest(row, &kept.digest)?;
    push_number(row, kept.bytes)?;
    push_number(row, kept.rows)
}

/// Writes the key of an amount over `key`.
pub fn set_key(key: &mut Row, row: &SpentRow) -> Result<(), AllocError>
    ensures { OnOk result (key.new ≡ key_of row.now) }
{
    key.clear();
    key.push(ValueRef::Int(i64::from(row.day)))?;
    key.push(ValueRef::Int(i64::from(row.vid)))?;
    key.push(ValueRef::Int(i64::from(row.xway)))
}

/// Writes the row of an amount, under a number, over `full`.
pub fn set_amount(full: &mut Row, number: i64, row: &SpentRow) -> Result<(), AllocError>
    requires { row.now.tolls < 2 ^ 63 }
    ensures { OnOk result (full.new ≡ numbered number row.now) }
{
    full.clear();
    full.push(ValueRef::Int(number))?;
    full.push(ValueRef::Int(i64::from(row.day)))?;
    full.push(ValueRef::Int(i64::from(row.vid)))?;
    full.push(ValueRef::Int(i64::from(row.xway)))?;
    push_number(full, row.tolls)
}

/// Writes the entry of an amount, under a number, over `entry`.
pub fn set_entry(entry: &mut Row, number: i64, row: &SpentRow) -> Result<(), AllocError>
    ensures { OnOk result (entry.new ≡ entry_of key_columns (numbered number row.now)) }
{
    set_key(entry, row)?;
    entry.push(ValueRef::Int(number))
}

/// Writes the row of the tariff of an expressway over `row`.
pub fn set_tariff(row: &mut Row, xway: u8, tariff: &Tariff) -> Result<(), AllocError>
    ensures { OnOk result (row.new ≡ tariff_row (xway, tariff.now)) }
{
    row.clear();
    row.push(ValueRef::Int(i64::from(xway)))?;
    row.push(ValueRef::Null)?;
    row.push(ValueRef::Int(i64::from(tariff.crowd)))?;
    row.push(ValueRef::Int(i64::from(tariff.speed)))?;
    row.push(ValueRef::Int(i64::from(tariff.factor)))
}
