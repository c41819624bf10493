// The rows of a day: what each vehicle was charged on each expressway.
ghost use Rattle.std.specs.Prelude.{◌≡◌, ◌++◌, [], ◌∷◌, OnOk, IsPermutation, IsSortedByKey};
ghost use Rattle.std.specs.HashMap.{IsUnique};
ghost use Rattle.day_floor.specs.Sums.{owner_cmp, same_owner, owner_of, listed};
ghost use Rattle.day_floor.specs.Entries.{firsts};

use crate::vehicle::Vehicle;
use road_time::{NoMemory, SpentRow};
use std::collections::HashMap;

/// Lists a sum as a row of a day, unless it is zero.
pub fn list_sum(
    rows: &mut Vec<SpentRow>,
    day: u32,
    vid: u32,
    xway: u8,
    tolls: u64,
) -> Result<(), NoMemory>
    ensures { OnOk result (rows.new.items ≡ rows.old.items ++ listed day (((vid, xway), tolls) ∷ [])) }
{
    if tolls > 0 {
        rows.push(SpentRow {
            day,
            vid,
            xway,
            tolls,
        })?;
    }
    Ok(())
}

/// Lists what each vehicle was charged on the expressway of its first charge, in no order, zero sums left out.
pub fn list_firsts(
    rows: &mut Vec<SpentRow>,
    vehicles: &HashMap<u32, Vehicle>,
    day: u32,
) -> Result<(), NoMemory>
    ensures { OnOk result (rows.new.items ≡ rows.old.items ++ listed day (firsts vehicles.now.entries)) }
{
    for (vid, vehicle) in vehicles {
        if let Some(first) = vehicle.first.get() {
            list_sum(rows, day, *vid, first.xway, first.sum)?;
        }
    }
    Ok(())
}

/// Lists what each vehicle was charged on further expressways, in no order, zero sums left out.
pub fn list_further(
    rows: &mut Vec<SpentRow>,
    further: &HashMap<(u32, u8), u64>,
    day: u32,
) -> Result<(), NoMemory>
    ensures rows { OnOk result (rows.new.items ≡ rows.old.items ++ listed day further.now.entries) }
    ensures apart { IsUnique same_owner further.now }
{
    for (owner, tolls) in further {
        list_sum(rows, day, owner.0, owner.1, *tolls)?;
    }
    Ok(())
}

/// Puts rows in the order of vehicles and expressways.
pub fn sort_rows(rows: &mut Vec<SpentRow>)
    ensures moved { IsPermutation rows.old.items rows.new.items }
    ensures sorted { IsSortedByKey owner_of owner_cmp rows.new.items }
{
    rows.sort_unstable_by_key(|row| (row.vid, row.xway));
}
