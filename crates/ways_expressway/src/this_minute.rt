// What was noted of each vehicle in the current minute.
ghost use Rattle.std.specs.Prelude.{◌≡◌, ◌≤◌, [], IfOk, OnOk, OnErr, if◌then◌else◌};
ghost use Rattle.ways_expressway.specs.Parts.{mean12 as mean12_of, more as more_of, sum_in, same_car};
ghost use Rattle.ways_expressway.specs.Numbers.{hash_number as defined_number_of};
ghost use Rattle.ways_expressway.specs.declared.this_minute.Car.{Car as CarValue};
ghost use Rattle.std.specs.Hash as fed;
ghost use Rattle.std.specs.Cmp.Rules.{hashing};
ghost use Rattle.std.proofs.Common.{rules};

use road_time::{NoMemory, Stretch};
use std::collections::HashMap;
use std::hash::{Hash, Hasher};

/// A vehicle in a stretch.
#[derive(Clone, Copy, Debug, PartialEq, Eq)]
pub struct Car {
    pub stretch: Stretch,
    pub vid: u32,
}

/// The number that a vehicle in a stretch is hashed by.
#[inline(always)]
fn number_of(car: Car) -> u64
    ensures { result ≡ defined_number_of car }
{
    let way = 256 * u64::from(car.stretch.xway) + u64::from(car.stretch.dir);
    256 * (256 * way + u64::from(car.stretch.seg)) * 65_536 + u64::from(car.vid)
}

impl Hash for Car {
    ghost hash_input = { λ c. fed.u64 (defined_number_of c) };

    ghost respects_eq = { Prim.search (hashing, rules) };

    #[inline(always)]
    fn hash<H: Hasher>(&self, state: &mut H) {
        state.write_u64(number_of(*self));
    }
}

/// The speeds that were noted of a vehicle: their sum in miles per hour, and their number.
#[derive(Clone, Copy, Debug, PartialEq, Eq)]
pub struct Sum {
    pub total: u16,
    pub count: u16,
}

/// Twelve times the mean of up to four speeds, 0 for none.
#[inline(always)]
pub fn mean12(sum: Sum) -> u32
    requires { sum.count ≤ 4 }
    ensures { result ≡ mean12_of sum }
{
    let total = u32::from(sum.total);
    match sum.count {
        0 => 0,
        1 => 12 * total,
        2 => 6 * total,
        3 => 4 * total,
        _ => 3 * total,
    }
}

/// The speeds with one more.
#[inline(always)]
pub fn more(sum: Sum, spd: u8) -> Sum
    requires total { sum.total ≤ 300 }
    requires count { sum.count ≤ 3 }
    requires slow { spd ≤ 100 }
    ensures { result ≡ more_of sum spd }
{
    Sum {
        total: sum.total + u16::from(spd),
        count: sum.count + 1,
    }
}

/// Notes one more speed of a vehicle, and gives what was noted of it before.
#[inline(always)]
pub fn add(seen: &mut HashMap<Car, Sum>, car: Car, spd: u8) -> Result<Sum, NoMemory>
    requires total { (sum_in seen.old.entries car).total ≤ 300 }
    requires count { (sum_in seen.old.entries car).count ≤ 3 }
    requires slow { spd ≤ 100 }
    ensures before { IfOk result (λ before. before ≡ sum_in seen.old.entries car) }
    ensures sums { OnOk result ((c : CarValue)
        → sum_in seen.new.entries c
        ≡ (if same_car car c then more_of (sum_in seen.old.entries car) spd else sum_in seen.old.entries c)) }
    ensures refused { OnErr result (seen.new.entries ≡ seen.old.entries) }
{
    match seen.get_mut(&car) {
        Some(sum) => {
            let before = *sum;
            *sum = more(before, spd);
            Ok(before)
        }
        None => {
            let none = Sum { total: 0, count: 0 };
            seen.insert(car, more(none, spd))?;
            Ok(none)
        }
    }
}

/// Forgets all of the minute, and keeps the room.
#[inline(always)]
pub fn forget(seen: &mut HashMap<Car, Sum>)
    ensures { seen.new.entries ≡ [] }
{
    seen.clear();
}
