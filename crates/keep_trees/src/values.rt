// What the columns of a row hold.
ghost use Rattle.std.specs.Prelude.{◌≡◌, ◌≢◌, ◌↔◌, ◌<◌, ◌^◌, ℕ, length, false, pos, IsTrue, OnOk, MatchOption};
ghost use Rattle.std.specs.Prelude.{MatchResult};
ghost use Rattle.sqlite_value.specs.declared.value.Value.TheVariants.{Int, Blob};
ghost use Rattle.sqlite_value.specs.Order.{column};
ghost use Rattle.sqlite_trees.specs.View.{is_int};
ghost use Rattle.sqlite_pages.specs.declared.error.Error.TheVariants.{Corrupt};
ghost use Rattle.road_digest.specs.declared.digest.Digest.{Digest as Sealed};
ghost use Rattle.keep_trees.specs.Finds.{amount_key, HasColumns};

use road_digest::Digest;
use sqlite_pages::Error;
use sqlite_value::row::Row;
use sqlite_value::value::ValueRef;
use std::alloc::AllocError;

/// A column's number, if it holds one that is not below 0.
pub fn number_at(row: &Row, at: usize) -> Option<u64>
    ensures { MatchOption result ((n : ℕ) → n < 2 ^ 63 → column row.now at ≢ Int (pos n))
        (λ n. column row.now at ≡ Int (pos n)) }
{
    match row.get(at) {
        ValueRef::Int(number) if number >= 0 => Some(number as u64),
        _ => None,
    }
}

/// A column's number of 32 bits.
pub fn number_32(row: &Row, at: usize) -> Result<u32, Error>
    ensures { MatchResult result (λ n. column row.now at ≡ Int (pos n))
        (λ e. (e ≡ Corrupt) × ((n : ℕ) → n < 2 ^ 32 → column row.now at ≢ Int (pos n))) }
{
    match row.get(at) {
        ValueRef::Int(number) if number >= 0 && number < 4_294_967_296 => Ok(number as u32),
        _ => Err(Error::Corrupt),
    }
}

/// A column's number of 8 bits.
pub fn number_8(row: &Row, at: usize) -> Result<u8, Error>
    ensures { MatchResult result (λ n. column row.now at ≡ Int (pos n))
        (λ e. (e ≡ Corrupt) × ((n : ℕ) → n < 2 ^ 8 → column row.now at ≢ Int (pos n))) }
{
    match row.get(at) {
        ValueRef::Int(number) if number >= 0 && number < 256 => Ok(number as u8),
        _ => Err(Error::Corrupt),
    }
}

/// Whether a column holds a number.
pub fn holds(row: &Row, at: usize, number: u32) -> bool
    ensures { IsTrue result ↔ (column row.now at ≡ Int (pos number)) }
{
    match row.get(at) {
        ValueRef::Int(found) => found == i64::from(number),
        _ => false,
    }
}

/// The number of the row that an entry of amounts names.
pub fn row_number(entry: &Row) -> Result<i64, Error>
    ensures { MatchResult result (λ n. column entry.now 3 ≡ Int n)
        (λ e. (e ≡ Corrupt) × (is_int (column entry.now 3) ≡ false)) }
{
    match entry.get(3) {
        ValueRef::Int(number) => Ok(number),
        _ => Err(Error::Corrupt),
    }
}

/// Writes the key of an amount over `key`.
pub fn set_key(key: &mut Row, day: u32, vid: u32, xway: u8) -> Result<(), AllocError>
    ensures { OnOk result (key.new ≡ amount_key day vid xway) }
{
    key.clear();
    key.push(ValueRef::Int(i64::from(day)))?;
    key.push(ValueRef::Int(i64::from(vid)))?;
    key.push(ValueRef::Int(i64::from(xway)))
}

/// The amount in a row of amounts that has this key.
pub fn tolls_at(row: &Row, day: u32, vid: u32, xway: u8) -> Result<u64, Error>
    ensures { MatchResult result (λ tolls. HasColumns row.now day vid xway tolls)
        (λ e. (e ≡ Corrupt) × ((tolls : ℕ) → tolls < 2 ^ 63 → ¬ (HasColumns row.now day vid xway tolls))) }
{
    if !holds(row, 1, day) {
        return Err(Error::Corrupt);
    }
    if !holds(row, 2, vid) {
        return Err(Error::Corrupt);
    }
    if !holds(row, 3, u32::from(xway)) {
        return Err(Error::Corrupt);
    }
    match number_at(row, 4) {
        Some(tolls) => Ok(tolls),
        None => Err(Error::Corrupt),
    }
}

/// A column's number, which is there.
pub fn number_63(row: &Row, at: usize) -> Result<u64, Error>
    ensures { MatchResult result (λ n. column row.now at ≡ Int (pos n))
        (λ e. (e ≡ Corrupt) × ((n : ℕ) → n < 2 ^ 63 → column row.now at ≢ Int (pos n))) }
{
    match number_at(row, at) {
        Some(number) => Ok(number),
        None => Err(Error::Corrupt),
    }
}

/// A column's digest.
pub fn digest_at(row: &Row, at: usize) -> Result<Digest, Error>
    ensures { MatchResult result (λ d. column row.now at ≡ Blob d.bytes)
        (λ e. (e ≡ Corrupt) × ((d : Sealed) → length d.bytes ≡ 32 → column row.now at ≢ Blob d.bytes)) }
{
    match row.get(at) {
        ValueRef::Blob(bytes) => match bytes.as_array::<32>() {
            Some(bytes) => Ok(Digest { bytes: *bytes }),
            None => Err(Error::Corrupt),
        },
        _ => Err(Error::Corrupt),
    }
}
