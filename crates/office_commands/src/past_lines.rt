// Closing lines of histories.
ghost use Rattle.std.specs.Prelude.{◌≡◌, IfOk};
ghost use Rattle.std.specs.String.{string_bytes};
ghost use Rattle.office_commands.specs.Closings.{closing_line, differs_past_line};
ghost use Rattle.office_commands.specs.declared.closing.Closing.TheVariants.{PastStored, PastAlready, PastRefused};
ghost use Rattle.office_commands.specs.declared.closing.Closing.TheVariants.{PastLate, PastKept, DiffersPast};

use day_past::PastCause;
use road_digest::Digest;
use road_time::NoMemory;
use std::alloc::Global;

/// The line of a history that is kept of other bytes, with the texts of the digests.
#[tactic(auto, unfolding(crate::specs::Closings::differs_past_line))]
fn differs_past_line(alloc: Global, base: u32, kept: &str, found: &str) -> Result<String, NoMemory>
    ensures { IfOk result (λ line. string_bytes line ≡ differs_past_line base kept.now found.now) }
{
    let line = format!(in alloc; "# differs past {base} kept {kept} found {found}\n")?;
    Ok(line)
}

/// The line of a history that is kept of other bytes.
pub(crate) fn differs_past(
    alloc: Global,
    base: u32,
    kept: &Digest,
    found: &Digest,
) -> Result<String, NoMemory>
    ensures { IfOk result (λ line. string_bytes line ≡ closing_line (DiffersPast base kept.now found.now)) }
{
    let kept_text = kept.text(alloc)?;
    let found_text = found.text(alloc)?;
    differs_past_line(alloc, base, kept_text.as_str(), found_text.as_str())
}

/// The line of a history that is kept from now on.
pub(crate) fn past_stored(alloc: Global, base: u32, rows: u64) -> Result<String, NoMemory>
    ensures { IfOk result (λ line. string_bytes line ≡ closing_line (PastStored base rows)) }
{
    let line = format!(in alloc; "# past base {base} rows {rows}\n")?;
    Ok(line)
}

/// The line of a history that was kept before, of the same bytes.
pub(crate) fn past_already(alloc: Global, base: u32, rows: u64) -> Result<String, NoMemory>
    ensures { IfOk result (λ line. string_bytes line ≡ closing_line (PastAlready base rows)) }
{
    let line = format!(in alloc; "# already past base {base} rows {rows}\n")?;
    Ok(line)
}

/// The line of a history of which a line was refused.
pub(crate) fn past_refused(alloc: Global, line: u64, cause: PastCause) -> Result<String, NoMemory>
    ensures { IfOk result (λ text. string_bytes text ≡ closing_line (PastRefused line cause)) }
{
    let text = format!(in alloc; "# refused line {line} {cause}\n")?;
    Ok(text)
}

/// The line of a history that comes after a day.
pub(crate) fn past_late(alloc: Global, last: u32) -> Result<String, NoMemory>
    ensures { IfOk result (λ line. string_bytes line ≡ closing_line (PastLate last)) }
{
    let line = format!(in alloc; "# past late last {last}\n")?;
    Ok(line)
}

/// The line of a history beside one of another base.
pub(crate) fn past_kept(alloc: Global, base: u32) -> Result<String, NoMemory>
    ensures { IfOk result (λ line. string_bytes line ≡ closing_line (PastKept base)) }
{
    let line = format!(in alloc; "# past kept base {base}\n")?;
    Ok(line)
}
