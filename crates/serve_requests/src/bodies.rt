// The bodies of answers.
ghost use Rattle.std.specs.Prelude.{◌≡◌, ◌++◌, ℕ, List, codes, decimal, true, string_bytes, IfOk};
ghost use Rattle.hex.specs.Hex.{encode_lower};
ghost use Rattle.tuples_text.specs.Causes.{cause_text as cause_text_of};
ghost use Rattle.serve_requests.specs.Plain.{is_plain};
ghost use Rattle.serve_requests.specs.Bodies as bodies;

use crate::values::{
    day_value, differs_value, error_value, health_value, imported_value, live_value, passed_value,
    refused_value, spent_value, total_value,
};
use keep_office::DayRecord;
use road_digest::Digest;
use road_time::NoMemory;
use std::alloc::Global;
use tuples_text::Cause;

/// Why a request is refused.
pub fn error_body(alloc: Global, word: &str) -> Result<String, NoMemory>
    requires { is_plain word.now ≡ true }
    ensures { IfOk result (λ s. string_bytes s ≡ bodies.error_body word.now) }
{
    let value = error_value(alloc, word)?;
    Ok(value.to_string(alloc)?)
}

/// What a vehicle was charged.
pub fn spent_body(alloc: Global, amount: u64) -> Result<String, NoMemory>
    ensures { IfOk result (λ s. string_bytes s ≡ bodies.spent_body amount) }
{
    let value = spent_value(alloc, amount)?;
    Ok(value.to_string(alloc)?)
}

/// The last day that is kept, of a keeper that answers.
pub fn health_body(alloc: Global, last: u32) -> Result<String, NoMemory>
    ensures { IfOk result (λ s. string_bytes s ≡ bodies.health_body last) }
{
    let value = health_value(alloc, last)?;
    Ok(value.to_string(alloc)?)
}

/// A day that is passed.
pub fn passed_body(alloc: Global, last: u32) -> Result<String, NoMemory>
    ensures { IfOk result (λ s. string_bytes s ≡ bodies.passed_body last) }
{
    let value = passed_value(alloc, last)?;
    Ok(value.to_string(alloc)?)
}

/// The hexadecimal text of bytes, which needs no escape.
fn hex_text(alloc: Global, bytes: &[u8]) -> Result<String, NoMemory>
    ensures text { IfOk result (λ s. string_bytes s ≡ encode_lower bytes.now) }
    ensures plain { IfOk result (λ s. is_plain (string_bytes s) ≡ true) }
{
    Ok(hex::encode(alloc, bytes)?)
}

/// A digest's text, which needs no escape.
fn digest_text(alloc: Global, digest: &Digest) -> Result<String, NoMemory>
    ensures text { IfOk result (λ s. string_bytes s ≡ bodies.digest_text digest.now) }
    ensures plain { IfOk result (λ s. is_plain (string_bytes s) ≡ true) }
{
    hex_text(alloc, digest.bytes.as_slice())
}

/// A plain word and a number need no escape.
fn is_word(n: u32)
    ensures { (w : List ℕ) → is_plain w ≡ true → is_plain (w ++ decimal n) ≡ true }
{}

/// A plain word and two numbers need no escape.
fn are_words(m: u32, n: u32)
    ensures { (w : List ℕ) → is_plain w ≡ true → is_plain (w ++ decimal m ++ codes " " ++ decimal n) ≡ true }
{}

/// The text of a cause needs no escape.
fn cause_is_plain(cause: Cause)
    ensures { is_plain (cause_text_of cause) ≡ true }
{
    match cause {
        Cause::Long => {}
        Cause::Many(limit) => is_word(limit),
        Cause::Fields(count) => is_word(count),
        Cause::Number(field) => is_word(u32::from(field)),
        Cause::Range(field) => is_word(u32::from(field)),
        Cause::Late(previous, now) => are_words(previous, now),
        Cause::TooOften(vid, minute) => are_words(vid, minute),
        Cause::Vehicles(limit) => is_word(limit),
    }
}

/// A cause's text, which needs no escape.
fn cause_text(alloc: Global, cause: Cause) -> Result<String, NoMemory>
    ensures text { IfOk result (λ s. string_bytes s ≡ cause_text_of cause) }
    ensures plain { IfOk result (λ s. is_plain (string_bytes s) ≡ true) }
{
    cause_is_plain(cause);
    Ok(format!(in alloc; "{cause}")?)
}

/// A day that is kept of other bytes.
pub fn differs_body(alloc: Global, kept: &Digest, found: &Digest) -> Result<String, NoMemory>
    ensures { IfOk result (λ s. string_bytes s ≡ bodies.differs_body kept.now found.now) }
{
    let found = digest_text(alloc, found)?;
    let kept = digest_text(alloc, kept)?;
    let value = differs_value(alloc, found.as_str(), kept.as_str())?;
    Ok(value.to_string(alloc)?)
}

/// A line that is refused.
pub fn refused_body(alloc: Global, line: u64, cause: &Cause) -> Result<String, NoMemory>
    ensures { IfOk result (λ s. string_bytes s ≡ bodies.refused_body line cause.now) }
{
    let cause = cause_text(alloc, *cause)?;
    let value = refused_value(alloc, cause.as_str(), line)?;
    Ok(value.to_string(alloc)?)
}

/// A vehicle's account on the live board.
pub fn live_body(alloc: Global, as_of: u64, balance: u64, day: u32) -> Result<String, NoMemory>
    ensures { IfOk result (λ s. string_bytes s ≡ bodies.live_body as_of balance day) }
{
    let value = live_value(alloc, as_of, balance, day)?;
    Ok(value.to_string(alloc)?)
}

/// The total of the live board.
pub fn total_body(alloc: Global, as_of: u64, day: u32, total: u64) -> Result<String, NoMemory>
    ensures { IfOk result (λ s. string_bytes s ≡ bodies.total_body as_of day total) }
{
    let value = total_value(alloc, as_of, day, total)?;
    Ok(value.to_string(alloc)?)
}

/// A kept day.
pub fn day_body(alloc: Global, r: &DayRecord) -> Result<String, NoMemory>
    ensures { IfOk result (λ s. string_bytes s ≡ bodies.day_body r.now) }
{
    let digest = digest_text(alloc, &r.digest)?;
    let notices_digest = digest_text(alloc, &r.notices_digest)?;
    let tariffs = digest_text(alloc, &r.tariffs)?;
    let value = day_value(
        alloc,
        r,
        digest.as_str(),
        notices_digest.as_str(),
        tariffs.as_str(),
    )?;
    Ok(value.to_string(alloc)?)
}

/// A day that was imported, with what came of it.
pub fn imported_body(alloc: Global, r: &DayRecord, outcome: &str) -> Result<String, NoMemory>
    requires { is_plain outcome.now ≡ true }
    ensures { IfOk result (λ s. string_bytes s ≡ bodies.imported_body r.now outcome.now) }
{
    let digest = digest_text(alloc, &r.digest)?;
    let notices_digest = digest_text(alloc, &r.notices_digest)?;
    let tariffs = digest_text(alloc, &r.tariffs)?;
    let value = imported_value(
        alloc,
        r,
        digest.as_str(),
        notices_digest.as_str(),
        outcome,
        tariffs.as_str(),
    )?;
    Ok(value.to_string(alloc)?)
}
