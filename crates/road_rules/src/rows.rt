// What a day's vehicles owe, as rows.
ghost use Rattle.std.specs.Prelude.{◌≡◌, ◌≤◌, ◌<◌, ◌^◌, ◌++◌, map, IfOk, OnOk, ℕ};
ghost use Rattle.std.specs.List.{filter, flat_map};
ghost use Rattle.road_time.specs.Fits.{IsDay};
ghost use Rattle.road_time.specs.Day.{sum_of, charges_to as defined_charges_to};
ghost use Rattle.road_time.specs.Rows.{in_order, charges_on, rows_to, rows_of};
ghost use Rattle.road_rules.specs.RowParts.{row_on, has_tolls};
ghost use Rattle.road_rules.specs.Accounts.{shown_charge};

use crate::account::StayCharge;
use crate::output::charges;
use road_time::{NoMemory, SpentRow, Tariffs, Tuple};
use std::alloc::Global;
use std::collections::BTreeSet;

/// The vehicles of the charges, each once and in order.
fn vehicles(alloc: Global, charges: &[StayCharge]) -> Result<Vec<u32>, NoMemory>
    ensures { IfOk result (λ vids. vids.items ≡ in_order (map (λ c. c.vid) (map shown_charge charges.now))) }
{
    let mut vids = BTreeSet::new(alloc);
    for charge in charges {
        vids.insert(charge.vid)?;
    }
    Ok(vids.iter().copied().collect(alloc)?)
}

/// The expressways of the charges, each once and in order.
fn expressways(alloc: Global, charges: &[StayCharge]) -> Result<Vec<u8>, NoMemory>
    ensures { IfOk result (λ xways. xways.items ≡ in_order (map (λ c. c.xway) (map shown_charge charges.now))) }
{
    let mut xways = BTreeSet::new(alloc);
    for charge in charges {
        xways.insert(charge.xway)?;
    }
    Ok(xways.iter().copied().collect(alloc)?)
}

/// The charges of a vehicle.
fn charges_to(alloc: Global, charges: &[StayCharge], vid: u32) -> Result<Vec<StayCharge>, NoMemory>
    ensures { IfOk result (λ own. map shown_charge own.items ≡ defined_charges_to vid (map shown_charge charges.now)) }
{
    let mut own: Vec<StayCharge> = Vec::new(alloc);
    for charge in charges {
        if charge.vid == vid {
            own.push(*charge)?;
        }
    }
    Ok(own)
}

/// What the charges on an expressway come to.
fn sum_on(charges: &[StayCharge], xway: u8) -> u64
    requires { sum_of (map shown_charge charges.now) < 2 ^ 63 }
    ensures { result ≡ sum_of (charges_on xway (map shown_charge charges.now)) }
{
    let mut total: u64 = 0;
    for charge in charges {
        if charge.xway == xway {
            total += charge.toll;
        }
    }
    total
}

/// Adds the rows of a vehicle on the expressways, those that are not zero.
fn add_rows(
    rows: &mut Vec<SpentRow>,
    day: u32,
    vid: u32,
    own: &[StayCharge],
    xways: &[u8],
) -> Result<(), NoMemory>
    requires { sum_of (map shown_charge own.now) < 2 ^ 63 }
    ensures { OnOk result (rows.new.items ≡ rows.old.items ++ filter has_tolls
        (map (row_on day vid (map shown_charge own.now)) xways.now)) }
{
    for xway in xways {
        let tolls = sum_on(own, *xway);
        if tolls > 0 {
            rows.push(SpentRow {
                day,
                vid,
                xway: *xway,
                tolls,
            })?;
        }
    }
    Ok(())
}

/// Adds the rows of a vehicle, those that are not zero.
fn add_vehicle_rows(
    alloc: Global,
    rows: &mut Vec<SpentRow>,
    day: u32,
    vid: u32,
    charges: &[StayCharge],
) -> Result<(), NoMemory>
    requires { sum_of (map shown_charge charges.now) < 2 ^ 63 }
    ensures { OnOk result (rows.new.items ≡ rows.old.items ++ filter has_tolls
        (rows_to day vid (defined_charges_to vid (map shown_charge charges.now)))) }
{
    let own = charges_to(alloc, charges, vid)?;
    let xways = expressways(alloc, own.as_slice())?;
    add_rows(rows, day, vid, own.as_slice(), xways.as_slice())?;
    Ok(())
}

/// The rows of vehicles, those that are not zero.
fn rows_for(
    alloc: Global,
    charges: &[StayCharge],
    day: u32,
    vids: &[u32],
) -> Result<Vec<SpentRow>, NoMemory>
    requires { sum_of (map shown_charge charges.now) < 2 ^ 63 }
    ensures { IfOk result (λ rows. rows.items ≡ filter has_tolls
        (flat_map (λ v. rows_to day v (defined_charges_to v (map shown_charge charges.now))) vids.now)) }
{
    let mut rows: Vec<SpentRow> = Vec::new(alloc);
    for vid in vids {
        add_vehicle_rows(alloc, &mut rows, day, *vid, charges)?;
    }
    Ok(rows)
}

/// What the day's charges come to by vehicle and expressway, in order, zero sums left out.
pub fn plain_rows(
    alloc: Global,
    tuples: &[Tuple],
    tariffs: &Tariffs,
    day: u32,
) -> Result<Vec<SpentRow>, NoMemory>
    requires { IsDay tuples.now }
    ensures { IfOk result (λ rows. rows.items ≡ rows_of tuples.now tariffs.now day) }
{
    let charges = charges(alloc, tuples, tariffs)?;
    let vids = vehicles(alloc, charges.as_slice())?;
    let rows = rows_for(alloc, charges.as_slice(), day, vids.as_slice())?;
    Ok(rows)
}
