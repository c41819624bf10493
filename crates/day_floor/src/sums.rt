// What each vehicle was charged on further expressways than that of its first charge.
ghost use Rattle.std.specs.Prelude.{◌≡◌, ℕ, ◌+◌, ◌^◌, ◌<◌, ◌&&◌, Some, OnOk, OnErr, if◌then◌else◌};
ghost use Rattle.std.specs.Map.{lookup};
ghost use Rattle.day_floor.specs.Sums.{same_owner, sum_at};
ghost use Rattle.day_floor.specs.Entries.{is_further};

use crate::vehicle::{First, is_further};
use road_time::NoMemory;
use std::collections::HashMap;

/// Adds a toll to the sum of a vehicle on an expressway.
#[inline(always)]
pub fn add(sums: &mut HashMap<(u32, u8), u64>, owner: (u32, u8), toll: u64) -> Result<(), NoMemory>
    requires { sum_at sums.old.entries owner + toll < 2 ^ 64 }
    ensures added { OnOk result ((q : ℕ × ℕ)
        → lookup (same_owner q) sums.new.entries
        ≡ (if same_owner owner q then Some (sum_at sums.old.entries owner + toll) else lookup (same_owner q)
        sums.old.entries)) }
    ensures refused { OnErr result (sums.new.entries ≡ sums.old.entries) }
{
    match sums.get_mut(&owner) {
        Some(sum) => {
            *sum += toll;
            Ok(())
        }
        None => {
            sums.insert(owner, toll)?;
            Ok(())
        }
    }
}

/// Adds a toll to the sum of a vehicle on an expressway, where it is another than that of the first charge.
#[inline(always)]
pub fn add_further(
    sums: &mut HashMap<(u32, u8), u64>,
    first: Option<First>,
    owner: (u32, u8),
    toll: u64,
) -> Result<(), NoMemory>
    requires { sum_at sums.old.entries owner + toll < 2 ^ 64 }
    ensures added { OnOk result ((q : ℕ × ℕ)
        → lookup (same_owner q) sums.new.entries
        ≡ (if is_further first owner.1 && same_owner owner q then Some (sum_at sums.old.entries owner + toll)
        else lookup (same_owner q) sums.old.entries)) }
    ensures refused { OnErr result (sums.new.entries ≡ sums.old.entries) }
{
    if is_further(first, owner.1) {
        add(sums, owner, toll)?;
    }
    Ok(())
}
