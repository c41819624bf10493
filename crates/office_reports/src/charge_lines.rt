// The lines of sums by vehicle and expressway, as CSV.
ghost use Rattle.std.specs.Prelude.{◌≡◌, IfOk};
ghost use Rattle.std.specs.String.{string_bytes};
ghost use Rattle.office_reports.specs.Charges.{charge_line, charges_text};

use crate::charge_sums::Sums;
use road_time::NoMemory;
use std::alloc::Global;

/// The line of a sum.
fn charge_line(alloc: Global, vid: u32, xway: u8, tolls: u128) -> Result<String, NoMemory>
    ensures { IfOk result (λ line. string_bytes line ≡ charge_line ((vid, xway), tolls)) }
{
    let line = format!(in alloc; "{vid},{xway},{tolls}\n")?;
    Ok(line)
}

/// The line that names the columns, and a line for each sum.
pub(crate) fn charges_text(alloc: Global, sums: &Sums) -> Result<Vec<u8>, NoMemory>
    ensures { IfOk result (λ text. text.items ≡ charges_text sums.now.entries) }
{
    let mut text = Vec::new(alloc);
    text.extend_from_slice(b"vid,xway,tolls\n")?;
    for (payer, tolls) in sums {
        let line = charge_line(alloc, payer.0, payer.1, *tolls)?;
        text.extend_from_slice(line.as_bytes())?;
    }
    Ok(text)
}
