// What is kept of each vehicle.
ghost use Rattle.std.specs.Prelude.{◌≡◌, ℕ, ◌+◌, ◌^◌, ◌<◌, nat_eq, Some, None, OnOk, OnErr, if◌then◌else◌};
ghost use Rattle.std.specs.Map.{lookup, keys_of};
ghost use Rattle.std.specs.List.{IsDistinct};
ghost use Rattle.day_floor.specs.Entries.{vehicle_at, is_further, first_sum, first_after};

use road_time::NoMemory;
use std::collections::HashMap;
use std::marker::Model;

/// The expressway of a vehicle's first charge, and the sum of what it was charged there.
#[derive(Clone, Copy, Debug, PartialEq, Eq)]
pub struct First {
    pub xway: u8,
    pub sum: u64,
}

/// The first charge, if there was one, in 16 bytes: an expressway of 256 says that there was none. Contracts see what
/// it says.
#[derive(Clone, Copy)]
pub struct FirstKept {
    sum: u64,
    xway: u16,
}

impl Model for FirstKept {
    ghost use Rattle.std.specs.Prelude.{Option};
    ghost use Rattle.std.specs.Coded.{coded_option};
    ghost use Rattle.day_floor.specs.declared.vehicle.First.{First};
    ghost use Rattle.day_floor.specs.Firsts.{first_code, first_kept, xway_kept, sum_kept, IsKept};

    ghost Value = { Option First };

    ghost coded = { coded_option first_code };

    ghost view = { λ k. first_kept k.xway k.sum };

    ghost invariant = { λ k. IsKept k.xway k.sum };

    ghost inverse = { λ first. record { sum = sum_kept first; xway = xway_kept first } };
}

impl FirstKept {
    /// Nothing was charged.
    #[inline(always)]
    pub fn none() -> FirstKept
        ensures { result ≡ None }
    {
        FirstKept { sum: 0, xway: 256 }
    }

    /// This was the first charge.
    #[inline(always)]
    pub fn of(first: First) -> FirstKept
        ensures { result ≡ Some first }
    {
        FirstKept {
            sum: first.sum,
            xway: u16::from(first.xway),
        }
    }

    /// The first charge, if there was one.
    #[inline(always)]
    pub fn get(self) -> Option<First>
        ensures { result ≡ self }
    {
        if self.xway <= 255 {
            Some(First {
                xway: self.xway as u8,
                sum: self.sum,
            })
        } else {
            None
        }
    }
}

/// The toll that a vehicle was told last, the sum of what it was charged, and the part of it on the expressway of the
/// first charge: 32 bytes.
#[derive(Clone, Copy)]
pub struct Vehicle {
    pub told: u64,
    pub sum: u64,
    pub first: FirstKept,
}

/// Keeps the toll that a vehicle is told.
#[inline(always)]
pub fn tell(vehicles: &mut HashMap<u32, Vehicle>, vid: u32, toll: u64) -> Result<(), NoMemory>
    ensures told { OnOk result ((v : ℕ)
        → lookup (nat_eq v) vehicles.new.entries
        ≡ (if nat_eq vid v then Some (record {
          told = toll;
          sum = (vehicle_at vehicles.old.entries vid).sum;
          first = (vehicle_at vehicles.old.entries vid).first;
        }) else lookup (nat_eq v) vehicles.old.entries)) }
    ensures apart { OnOk result (IsDistinct nat_eq (keys_of vehicles.new.entries)) }
    ensures refused { OnErr result (vehicles.new.entries ≡ vehicles.old.entries) }
{
    match vehicles.get_mut(&vid) {
        Some(vehicle) => {
            *vehicle = Vehicle {
                told: toll,
                sum: vehicle.sum,
                first: vehicle.first,
            };
            Ok(())
        }
        None => {
            vehicles.insert(
                vid,
                Vehicle {
                    told: toll,
                    sum: 0,
                    first: FirstKept::none(),
                },
            )?;
            Ok(())
        }
    }
}

/// Whether an expressway is another than that of the first charge.
#[inline(always)]
pub fn is_further(first: Option<First>, xway: u8) -> bool
    ensures { result ≡ is_further first xway }
{
    match first {
        Some(first) => first.xway != xway,
        None => false,
    }
}

/// What stands for the first charge after a charge on an expressway.
#[inline(always)]
pub fn first_after(first: Option<First>, xway: u8, toll: u64) -> First
    requires { first_sum first xway + toll < 2 ^ 64 }
    ensures { result ≡ first_after first xway toll }
{
    match first {
        Some(first) => {
            if first.xway == xway {
                First {
                    xway,
                    sum: first.sum + toll,
                }
            } else {
                first
            }
        }
        None => First { xway, sum: toll },
    }
}
