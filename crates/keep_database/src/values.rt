// What the columns of a row hold.
ghost use Rattle.std.specs.Prelude.{◌≡◌, ◌≢◌, ◌<◌, ◌^◌, ℕ, ℤ, List, length, pos, Ok, Err, IfOk, OnOk};
ghost use Rattle.sqlite_value.specs.Order.{column};
ghost use Rattle.sqlite_value.specs.declared.value.Value.TheVariants.{Int, Blob};
ghost use Rattle.road_digest.specs.declared.digest.Digest.{Digest};
ghost use Rattle.keep_office.specs.declared.kept.KeepFault.TheVariants.{NoMemory};
ghost use Rattle.keep_database.specs.Gives.{Gives};

use keep_office::KeepFault;
use keep_writes::refusals::refusal;
use road_digest::Digest;
use sqlite::Row;
use sqlite::types::ValueRef;

/// A column's whole number.
fn int_at(row: &Row, at: usize) -> Result<i64, KeepFault>
    ensures gives { (n : ℤ) → at < length row.now → column row.now at ≡ Int n → result ≡ Ok n }
    ensures exact { IfOk result (λ n. column row.now at ≡ Int n) }
    ensures pure { result ≢ Err NoMemory }
{
    match row.get_ref(at) {
        Ok(ValueRef::Int(number)) => Ok(number),
        _ => Err(KeepFault::Failed),
    }
}

/// A number that is not below 0.
fn natural(number: i64) -> Result<u64, KeepFault>
    ensures gives { (n : ℕ) → number ≡ pos n → result ≡ Ok n }
    ensures exact { IfOk result (λ n. number ≡ pos n) }
    ensures pure { result ≢ Err NoMemory }
{
    match u64::try_from(number) {
        Ok(natural) => Ok(natural),
        Err(_) => Err(KeepFault::Failed),
    }
}

/// A column's number.
pub fn number_63(row: &Row, at: usize) -> Result<u64, KeepFault>
    ensures gives { (n : ℕ) → at < length row.now → column row.now at ≡ Int (pos n) → Gives (λ x. x) result n }
    ensures exact { IfOk result (λ n. column row.now at ≡ Int (pos n)) }
    ensures pure { result ≢ Err NoMemory }
{
    let number = int_at(row, at)?;
    natural(number)
}

/// A column's number of 32 bits.
pub fn number_32(row: &Row, at: usize) -> Result<u32, KeepFault>
    ensures gives { (n : ℕ) → at < length row.now → n < 2 ^ 32 → column row.now at ≡ Int (pos n)
        → Gives (λ x. x) result n }
    ensures exact { IfOk result (λ n. column row.now at ≡ Int (pos n)) }
    ensures pure { result ≢ Err NoMemory }
{
    let number = number_63(row, at)?;
    if number < 4_294_967_296 {
        Ok(number as u32)
    } else {
        Err(KeepFault::Failed)
    }
}

/// A column's number of 8 bits.
pub fn number_8(row: &Row, at: usize) -> Result<u8, KeepFault>
    ensures gives { (n : ℕ) → at < length row.now → n < 2 ^ 8 → column row.now at ≡ Int (pos n)
        → Gives (λ x. x) result n }
    ensures exact { IfOk result (λ n. column row.now at ≡ Int (pos n)) }
    ensures pure { result ≢ Err NoMemory }
{
    let number = number_32(row, at)?;
    if number < 256 {
        Ok(number as u8)
    } else {
        Err(KeepFault::Failed)
    }
}

/// A column's bytes.
fn bytes_at(row: &Row, at: usize) -> Result<Vec<u8>, KeepFault>
    ensures gives { (b : List ℕ) → at < length row.now → column row.now at ≡ Blob b → Gives (λ v. v.items) result b }
    ensures exact { IfOk result (λ v. column row.now at ≡ Blob v.items) }
{
    match row.get::<Vec<u8>>(at) {
        Ok(bytes) => Ok(bytes),
        Err(error) => Err(refusal(error)),
    }
}

/// The digest that bytes are.
fn digest_of(bytes: &[u8]) -> Result<Digest, KeepFault>
    ensures gives { (d : Digest) → length d.bytes ≡ 32 → bytes.now ≡ d.bytes → Gives (λ x. x) result d }
    ensures exact { IfOk result (λ d. bytes.now ≡ d.bytes) }
    ensures long { OnOk result (length bytes.now ≡ 32) }
    ensures pure { result ≢ Err NoMemory }
{
    match bytes.as_array::<32>() {
        Some(bytes) => Ok(Digest { bytes: *bytes }),
        None => Err(KeepFault::Failed),
    }
}

/// A column's digest.
pub fn digest_at(row: &Row, at: usize) -> Result<Digest, KeepFault>
    ensures gives { (d : Digest) → at < length row.now → length d.bytes ≡ 32 → column row.now at ≡ Blob d.bytes
        → Gives (λ x. x) result d }
    ensures exact { IfOk result (λ d. column row.now at ≡ Blob d.bytes) }
    ensures long { IfOk result (λ d. length d.bytes ≡ 32) }
{
    let bytes = bytes_at(row, at)?;
    digest_of(&bytes)
}
