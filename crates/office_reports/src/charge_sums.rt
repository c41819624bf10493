// What amounts come to by vehicle and expressway.
ghost use Rattle.std.specs.Prelude.{◌≡◌, OnOk};
ghost use Rattle.std.specs.List.{fold};
ghost use Rattle.office_reports.specs.Charges.{sum_for, with_amount};

use road_time::{NoMemory, SpentRow};
use std::collections::BTreeMap;

/// Sums by vehicle and expressway, in the order of the two.
pub(crate) type Sums = BTreeMap<(u32, u8), u128>;

/// The sum of a vehicle on an expressway, 0 for none.
fn sum_for(sums: &Sums, payer: (u32, u8)) -> u128
    ensures { result ≡ sum_for sums.now.entries payer }
{
    match sums.get(&payer) {
        Some(sum) => *sum,
        None => 0,
    }
}

/// Adds an amount. A sum that 128 bits cannot hold is want of memory.
fn add_row(sums: &mut Sums, row: &SpentRow) -> Result<(), NoMemory>
    ensures { OnOk result (sums.new.entries ≡ with_amount sums.old.entries row.now) }
{
    let payer = (row.vid, row.xway);
    let Some(sum) = sum_for(sums, payer).checked_add(u128::from(row.tolls)) else {
        return Err(NoMemory);
    };
    sums.insert(payer, sum)?;
    Ok(())
}

/// Adds amounts.
pub(crate) fn add_rows(sums: &mut Sums, rows: &[SpentRow]) -> Result<(), NoMemory>
    ensures { OnOk result (sums.new.entries ≡ fold with_amount sums.old.entries rows.now) }
{
    for row in rows {
        add_row(sums, row)?;
    }
    Ok(())
}
