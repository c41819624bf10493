// One charge in a map of sums.
ghost use Rattle.std.specs.Prelude.{◌≡◌, ℕ, ◌+◌, ◌<◌, ◌≤◌, nat_eq, Some, if◌then◌else◌};
ghost use Rattle.std.specs.Map.{lookup};
ghost use Rattle.std.specs.HashMap.{spare};
ghost use Rattle.serve_board.specs.Totals.{added, entry_sum};

use day_floor::Charged;
use std::collections::HashMap;

/// Adds a charge to its vehicle's sum, with one look-up where the vehicle was charged before. It asks for room for one
/// vehicle, and takes no memory.
#[inline(always)]
pub fn charge(sums: &mut HashMap<u32, u64>, charged: &Charged)
    requires { 0 < spare sums.old }
    ensures added { (v : ℕ) → lookup (nat_eq v) sums.new.entries ≡
        (if nat_eq charged.now.vid v then Some
        (added (entry_sum sums.old.entries charged.now.vid) charged.now.toll) else lookup (nat_eq v) sums.old.entries) }
    ensures room { spare sums.old ≤ spare sums.new + 1 }
{
    match sums.get_mut(&charged.vid) {
        Some(sum) => {
            *sum = sum.wrapping_add(charged.toll);
        }
        None => match sums.insert(charged.vid, charged.toll) {
            Ok(_) => {}
            Err(_) => unreachable!(),
        },
    }
}
