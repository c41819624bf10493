// The body that states what a vehicle was charged.
ghost use Rattle.std.specs.Prelude.{◌≡◌, string_bytes, IfOk};
ghost use Rattle.std.specs.List.{flat_map};
ghost use Rattle.keep_office.specs.Office.{sum_of_rows};
ghost use Rattle.serve_requests.specs.Lists as lists;

use road_time::{NoMemory, SpentRow};
use std::alloc::Global;

/// An amount.
fn amount_body(alloc: Global, row: &SpentRow) -> Result<String, NoMemory>
    ensures { IfOk result (λ s. string_bytes s ≡ lists.amount_body row.now) }
{
    let day = row.day;
    let tolls = row.tolls;
    let xway = row.xway;
    Ok(format!(in alloc; "{{\"day\":{day},\"tolls\":{tolls},\"xway\":{xway}}}")?)
}

/// An amount behind others.
fn next_amount(alloc: Global, row: &SpentRow) -> Result<String, NoMemory>
    ensures { IfOk result (λ s. string_bytes s ≡ lists.next_amount row.now) }
{
    let amount = amount_body(alloc, row)?;
    Ok(format!(in alloc; ",{amount}")?)
}

/// Amounts behind others.
fn next_amounts(alloc: Global, rows: &[SpentRow]) -> Result<String, NoMemory>
    ensures { IfOk result (λ s. string_bytes s ≡ flat_map lists.next_amount rows.now) }
{
    let mut text = String::new(alloc);
    for row in rows {
        let amount = next_amount(alloc, row)?;
        text.push_str(amount.as_str())?;
    }
    Ok(text)
}

/// Amounts.
fn amounts_body(alloc: Global, rows: &[SpentRow]) -> Result<String, NoMemory>
    ensures { IfOk result (λ s. string_bytes s ≡ lists.amounts_body rows.now) }
{
    match rows.split_first() {
        None => Ok(String::from_str(alloc, "[]")?),
        Some((first, rest)) => {
            let amount = amount_body(alloc, first)?;
            let next = next_amounts(alloc, rest)?;
            Ok(format!(in alloc; "[{amount}{next}]")?)
        }
    }
}

/// The first members of a statement.
fn statement_front(alloc: Global, rows: &[SpentRow], from: u32, to: u32) -> Result<String, NoMemory>
    ensures { IfOk result (λ s. string_bytes s ≡ lists.statement_front rows.now from to) }
{
    let amounts = amounts_body(alloc, rows)?;
    Ok(format!(in alloc; "{{\"amounts\":{amounts},\"from\":{from},\"to\":{to}")?)
}

/// What amounts come to.
fn sum_of(rows: &[SpentRow]) -> u128
    ensures { result ≡ sum_of_rows rows.now }
{
    let mut sum: u128 = 0;
    for row in rows {
        sum += u128::from(row.tolls);
    }
    sum
}

/// The statement of a vehicle, by its amounts on the days from one to another.
pub fn vehicle_body(
    alloc: Global,
    vid: u32,
    from: u32,
    to: u32,
    rows: &[SpentRow],
) -> Result<String, NoMemory>
    ensures { IfOk result (λ s. string_bytes s ≡ lists.vehicle_body vid from to rows.now) }
{
    let front = statement_front(alloc, rows, from, to)?;
    let sum = sum_of(rows);
    Ok(format!(in alloc; "{front},\"total\":{sum},\"vid\":{vid}}}")?)
}
