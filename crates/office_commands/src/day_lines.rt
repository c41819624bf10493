// Closing lines of days, of tariffs and of rehearsals.
ghost use Rattle.std.specs.Prelude.{◌≡◌, IfOk};
ghost use Rattle.std.specs.String.{string_bytes};
ghost use Rattle.office_commands.specs.Closings.{closing_line, stored_line, already_line, tariff_kept_line};
ghost use Rattle.office_commands.specs.Closings.{differs_line, rehearsed_end, rehearsed_line};
ghost use Rattle.office_commands.specs.declared.closing.Closing.TheVariants.{DiffersDay, Rehearsed, Listed, Checked};

use road_digest::Digest;
use road_time::NoMemory;
use std::alloc::Global;

/// The line of a day that is kept from now on.
#[tactic(auto, unfolding(crate::specs::Closings::stored_line))]
pub(crate) fn stored_line(
    alloc: Global,
    day: u32,
    tuples: u64,
    notices: u64,
    total: u64,
) -> Result<String, NoMemory>
    ensures { IfOk result (λ line. string_bytes line ≡ stored_line day tuples notices total) }
{
    let line = format!(in alloc;
        "# stored day {day} tuples {tuples} notices {notices} total {total}\n"
    )?;
    Ok(line)
}

/// The line of a day that was kept before, of the same bytes.
#[tactic(auto, unfolding(crate::specs::Closings::already_line))]
pub(crate) fn already_line(
    alloc: Global,
    day: u32,
    tuples: u64,
    notices: u64,
    total: u64,
) -> Result<String, NoMemory>
    ensures { IfOk result (λ line. string_bytes line ≡ already_line day tuples notices total) }
{
    let line = format!(in alloc;
        "# already day {day} tuples {tuples} notices {notices} total {total}\n"
    )?;
    Ok(line)
}

/// The line of a tariff that an expressway has from now on.
#[tactic(auto, unfolding(crate::specs::Closings::tariff_kept_line))]
pub(crate) fn tariff_line(
    alloc: Global,
    xway: u8,
    crowd: u32,
    speed: u8,
    factor: u8,
) -> Result<String, NoMemory>
    ensures { IfOk result (λ line. string_bytes line ≡ tariff_kept_line xway crowd speed factor) }
{
    let line = format!(in alloc;
        "# tariff xway {xway} crowd {crowd} speed {speed} factor {factor}\n"
    )?;
    Ok(line)
}

/// The line of a day that is kept of other bytes, with the texts of the digests.
#[tactic(auto, unfolding(crate::specs::Closings::differs_line))]
fn differs_line(alloc: Global, day: u32, kept: &str, found: &str) -> Result<String, NoMemory>
    ensures { IfOk result (λ line. string_bytes line ≡ differs_line day kept.now found.now) }
{
    let line = format!(in alloc; "# differs day {day} kept {kept} found {found}\n")?;
    Ok(line)
}

/// The line of a day that is kept of other bytes.
pub(crate) fn differs_day(
    alloc: Global,
    day: u32,
    kept: &Digest,
    found: &Digest,
) -> Result<String, NoMemory>
    ensures { IfOk result (λ line. string_bytes line ≡ closing_line (DiffersDay day kept.now found.now)) }
{
    let kept_text = kept.text(alloc)?;
    let found_text = found.text(alloc)?;
    differs_line(alloc, day, kept_text.as_str(), found_text.as_str())
}

/// The line of the kept days.
pub(crate) fn days_line(alloc: Global, days: u64, last: u32) -> Result<String, NoMemory>
    ensures { IfOk result (λ line. string_bytes line ≡ closing_line (Listed days last)) }
{
    let line = format!(in alloc; "# days {days} last {last}\n")?;
    Ok(line)
}

/// The line of a day whose lines were checked.
pub(crate) fn checked_line(
    alloc: Global,
    day: u32,
    good: u64,
    refused: u64,
) -> Result<String, NoMemory>
    ensures { IfOk result (λ line. string_bytes line ≡ closing_line (Checked day good refused)) }
{
    let line = format!(in alloc; "# checked day {day} good {good} refused {refused}\n")?;
    Ok(line)
}

/// The end of the line of a rehearsal, with the text of the digest of its notices.
#[tactic(auto, unfolding(crate::specs::Closings::rehearsed_end))]
fn rehearsed_end(alloc: Global, notices: u64, digest: &str, total: u64) -> Result<String, NoMemory>
    ensures { IfOk result (λ text. string_bytes text ≡ rehearsed_end notices digest.now total) }
{
    let text = format!(in alloc; " notices {notices} notices-digest {digest} total {total}\n")?;
    Ok(text)
}

/// The line of a rehearsal, with the text of the digest of its file and its end.
#[tactic(auto, unfolding(crate::specs::Closings::rehearsed_line))]
fn rehearsed_line(
    alloc: Global,
    bytes: u64,
    digest: &str,
    tuples: u64,
    rest: &str,
) -> Result<String, NoMemory>
    ensures { IfOk result (λ line. string_bytes line ≡ rehearsed_line bytes digest.now tuples rest.now) }
{
    let line = format!(in alloc;
        "# rehearsed bytes {bytes} digest {digest} tuples {tuples}{rest}"
    )?;
    Ok(line)
}

/// The line of a rehearsal.
pub(crate) fn rehearsal(
    alloc: Global,
    bytes: u64,
    digest: &Digest,
    tuples: u64,
    notices: u64,
    notices_digest: &Digest,
    total: u64,
) -> Result<String, NoMemory>
    ensures { IfOk result
        (λ line. string_bytes line ≡ closing_line
        (Rehearsed bytes digest.now tuples notices notices_digest.now total)) }
{
    let notices_text = notices_digest.text(alloc)?;
    let rest = rehearsed_end(alloc, notices, notices_text.as_str(), total)?;
    let digest_text = digest.text(alloc)?;
    rehearsed_line(alloc, bytes, digest_text.as_str(), tuples, rest.as_str())
}
