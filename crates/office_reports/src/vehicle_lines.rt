// The lines of a vehicle's statement.
ghost use Rattle.std.specs.Prelude.{◌≡◌, IfOk};
ghost use Rattle.std.specs.List.{flat_map};
ghost use Rattle.std.specs.String.{string_bytes};
ghost use Rattle.keep_office.specs.Office.{sum_of_rows};
ghost use Rattle.office_reports.specs.Statements.{vehicle_line, amount_line, total_line, vehicle_text};

use road_time::{NoMemory, SpentRow};
use std::alloc::Global;

/// The first line.
fn vehicle_line(alloc: Global, vid: u32, from: u32, to: u32) -> Result<String, NoMemory>
    ensures { IfOk result (λ line. string_bytes line ≡ vehicle_line vid from to) }
{
    let line = format!(in alloc; "vehicle {vid} days {from} to {to}\n")?;
    Ok(line)
}

/// The line of an amount.
fn amount_line(alloc: Global, row: &SpentRow) -> Result<String, NoMemory>
    ensures { IfOk result (λ line. string_bytes line ≡ amount_line row.now) }
{
    let day = row.day;
    let xway = row.xway;
    let tolls = row.tolls;
    let line = format!(in alloc; "{day:>7} {xway:>3} {tolls:>20}\n")?;
    Ok(line)
}

/// The last line.
fn total_line(alloc: Global, sum: u128) -> Result<String, NoMemory>
    ensures { IfOk result (λ line. string_bytes line ≡ total_line sum) }
{
    let line = format!(in alloc; "total{sum:>27}\n")?;
    Ok(line)
}

/// What amounts come to.
pub(crate) fn sum_of(rows: &[SpentRow]) -> u128
    ensures { result ≡ sum_of_rows rows.now }
{
    let mut sum: u128 = 0;
    for row in rows {
        sum += u128::from(row.tolls);
    }
    sum
}

/// The lines of amounts.
fn amounts_text(alloc: Global, rows: &[SpentRow]) -> Result<Vec<u8>, NoMemory>
    ensures { IfOk result (λ text. text.items ≡ flat_map amount_line rows.now) }
{
    let mut text = Vec::new(alloc);
    for row in rows {
        let line = amount_line(alloc, row)?;
        text.extend_from_slice(line.as_bytes())?;
    }
    Ok(text)
}

/// The statement of a vehicle.
pub(crate) fn vehicle_text(
    alloc: Global,
    vid: u32,
    from: u32,
    to: u32,
    rows: &[SpentRow],
) -> Result<Vec<u8>, NoMemory>
    ensures { IfOk result (λ text. text.items ≡ vehicle_text vid from to rows.now) }
{
    let head = vehicle_line(alloc, vid, from, to)?;
    let amounts = amounts_text(alloc, rows)?;
    let total = total_line(alloc, sum_of(rows))?;
    let mut text = Vec::new(alloc);
    text.extend_from_slice(head.as_bytes())?;
    text.extend_from_slice(amounts.as_slice())?;
    text.extend_from_slice(total.as_bytes())?;
    Ok(text)
}
