// The lines that name refused lines.
ghost use Rattle.std.specs.Prelude.{◌≡◌, IfOk};
ghost use Rattle.std.specs.String.{string_bytes};
ghost use Rattle.day_reading.specs.Checked.{refusal_line, refusals_text};

use crate::tally::Refusal;
use road_time::NoMemory;
use std::alloc::Global;

/// The line of a refused line: its number and the cause.
fn refusal_line(alloc: Global, refusal: &Refusal) -> Result<String, NoMemory>
    ensures { IfOk result (λ line. string_bytes line ≡ refusal_line refusal.now) }
{
    let line = format!(in alloc; "{} {}\n", refusal.line, refusal.cause)?;
    Ok(line)
}

/// The lines of refused lines.
pub fn refusals_text(alloc: Global, refusals: &[Refusal]) -> Result<Vec<u8>, NoMemory>
    ensures { IfOk result (λ text. text.items ≡ refusals_text refusals.now) }
{
    let mut text = Vec::new(alloc);
    for refusal in refusals {
        let line = refusal_line(alloc, refusal)?;
        text.extend_from_slice(line.as_bytes())?;
    }
    Ok(text)
}
