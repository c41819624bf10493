// The lines of a day's statement.
ghost use Rattle.std.specs.Prelude.{◌≡◌, IfOk, get_or};
ghost use Rattle.std.specs.String.{string_bytes};
ghost use Rattle.office_reports.specs.Statements.{input_lines, count_lines, charge_lines, record_text, way_line};
ghost use Rattle.office_reports.specs.Statements.{way_text};
ghost use Rattle.office_reports.specs.Statements.{ways_text, day_text};

use crate::way_sums::{WAYS, way_sums};
use keep_office::DayRecord;
use road_time::{NoMemory, SpentRow};
use std::alloc::Global;

/// The first lines, with the text of the digest.
#[tactic(auto, unfolding(crate::specs::Statements::input_lines))]
fn input_lines(alloc: Global, day: u32, digest: &str, bytes: u64) -> Result<String, NoMemory>
    ensures { IfOk result (λ text. string_bytes text ≡ input_lines day digest.now bytes) }
{
    let text = format!(in alloc; "day {day}\ndigest {digest}\nbytes {bytes}\n")?;
    Ok(text)
}

/// The lines of the counts.
#[tactic(auto, unfolding(crate::specs::Statements::count_lines))]
fn count_lines(alloc: Global, tuples: u64, notices: u64) -> Result<String, NoMemory>
    ensures { IfOk result (λ text. string_bytes text ≡ count_lines tuples notices) }
{
    let text = format!(in alloc; "tuples {tuples}\nnotices {notices}\n")?;
    Ok(text)
}

/// The lines of what was written and charged, with the texts of the digests.
#[tactic(auto, unfolding(crate::specs::Statements::charge_lines))]
fn charge_lines(
    alloc: Global,
    notices_digest: &str,
    tariffs: &str,
    total: u64,
) -> Result<String, NoMemory>
    ensures { IfOk result (λ text. string_bytes text ≡ charge_lines notices_digest.now tariffs.now total) }
{
    let text = format!(in alloc;
        "notices-digest {notices_digest}\ntariffs {tariffs}\ntotal {total}\n"
    )?;
    Ok(text)
}

/// The record of a day, an item a line.
fn record_text(alloc: Global, kept: &DayRecord) -> Result<Vec<u8>, NoMemory>
    ensures { IfOk result (λ text. text.items ≡ record_text kept.now) }
{
    let digest = kept.digest.text(alloc)?;
    let notices_digest = kept.notices_digest.text(alloc)?;
    let tariffs = kept.tariffs.text(alloc)?;
    let input = input_lines(alloc, kept.day, digest.as_str(), kept.bytes)?;
    let counts = count_lines(alloc, kept.tuples, kept.notices)?;
    let charges = charge_lines(alloc, notices_digest.as_str(), tariffs.as_str(), kept.total)?;
    let mut text = Vec::new(alloc);
    text.extend_from_slice(input.as_bytes())?;
    text.extend_from_slice(counts.as_bytes())?;
    text.extend_from_slice(charges.as_bytes())?;
    Ok(text)
}

/// The line of an expressway.
fn way_line(alloc: Global, xway: u16, sum: u128) -> Result<String, NoMemory>
    ensures { IfOk result (λ line. string_bytes line ≡ way_line xway sum) }
{
    let line = format!(in alloc; "xway {xway:>3} {sum:>20}\n")?;
    Ok(line)
}

/// The line of an expressway, none where it has no tolls.
fn way_text(alloc: Global, xway: u16, sum: u128) -> Result<String, NoMemory>
    ensures { IfOk result (λ line. string_bytes line ≡ way_text xway sum) }
{
    if sum > 0 {
        way_line(alloc, xway, sum)
    } else {
        Ok(String::new(alloc))
    }
}

/// The lines of the expressways with tolls.
fn ways_text(alloc: Global, sums: &[u128; 256]) -> Result<Vec<u8>, NoMemory>
    ensures { IfOk result (λ text. text.items ≡ ways_text (λ x. get_or sums.now x 0) 256) }
{
    let mut text = Vec::new(alloc);
    for xway in 0..WAYS as u16 {
        let line = way_text(alloc, xway, sums[xway as usize])?;
        text.extend_from_slice(line.as_bytes())?;
    }
    Ok(text)
}

/// The statement of a day.
pub(crate) fn day_text(
    alloc: Global,
    kept: &DayRecord,
    rows: &[SpentRow],
) -> Result<Vec<u8>, NoMemory>
    ensures { IfOk result (λ text. text.items ≡ day_text kept.now rows.now) }
{
    let mut text = record_text(alloc, kept)?;
    let ways = ways_text(alloc, &way_sums(rows))?;
    text.extend_from_slice(ways.as_slice())?;
    Ok(text)
}
