// The cars of a stretch in a minute, and their speeds, recomputed over the whole list.
ghost use Rattle.std.specs.Prelude.{◌≡◌, ◌≤◌, ◌-◌, ◌*◌, ◌/◌, ◌==◌, ◌++◌, ◌∷◌, [], ℕ, nat_eq, IfOk, OnOk, length, sum, if◌then◌else◌};
ghost use Rattle.std.specs.HashMap.{get};
ghost use Rattle.std.specs.List.{filter_map};
ghost use Rattle.road_time.specs.Notes.{cars, vehicles_of, notes_at};
ghost use Rattle.road_time.specs.Fits.{IsDay};
ghost use Rattle.road_time.specs.Tolls.{notes_of};
ghost use Rattle.road_time.specs.Tuples.{reports};
ghost use Rattle.road_rules.specs.Seen.{noted_vehicle, noted_speed, speed_if, with_vehicle, AreKnown};
ghost use Rattle.road_rules.specs.Gathered.{kept_items};

use road_time::{NoMemory, Stretch, Tuple};
use std::alloc::Global;
use std::collections::{HashMap, HashSet};

/// The vehicle that a tuple reports from the stretch in the minute.
fn vehicle_at(tuple: &Tuple, in_minute: u32, stretch: Stretch) -> Option<u32>
    ensures { result ≡ noted_vehicle in_minute stretch tuple.now }
{
    match tuple {
        Tuple::Report(r) => {
            if r.time / 60 + 1 == in_minute && r.stretch() == stretch {
                Some(r.vid)
            } else {
                None
            }
        }
        _ => None,
    }
}

/// Adds a vehicle, if it is not there yet: `known` has those that are.
fn add_vehicle(known: &mut HashSet<u32>, vids: &mut Vec<u32>, vid: u32) -> Result<(), NoMemory>
    requires { AreKnown known.old vids.old.items }
    ensures added { OnOk result (vids.new.items ≡ with_vehicle vids.old.items vid) }
    ensures known { OnOk result (AreKnown known.new vids.new.items) }
{
    if !known.insert(vid)? {
        return Ok(());
    }
    vids.push(vid)?;
    Ok(())
}

/// The vehicles that reported from the stretch in the minute.
pub fn vehicles_at(
    alloc: Global,
    tuples: &[Tuple],
    in_minute: u32,
    stretch: Stretch,
) -> Result<Vec<u32>, NoMemory>
    ensures { IfOk result (λ vids. vids.items ≡ vehicles_of
        (notes_at (notes_of (reports tuples.now)) in_minute stretch)) }
{
    let mut known: HashSet<u32> = HashSet::new(alloc);
    let mut vids: Vec<u32> = Vec::new(alloc);
    for tuple in tuples {
        if let Some(vid) = vehicle_at(tuple, in_minute, stretch) {
            add_vehicle(&mut known, &mut vids, vid)?;
        }
    }
    Ok(vids)
}

/// The cars for a minute: the vehicles that reported from the stretch in the minute before.
#[tactic(auto, using(road_time::proofs::FitLaws::few_vehicles))]
pub fn plain_cars(
    alloc: Global,
    tuples: &[Tuple],
    in_minute: u32,
    stretch: Stretch,
) -> Result<u32, NoMemory>
    requires { IsDay tuples.now }
    ensures few { IfOk result (λ n. n ≤ 500000) }
    ensures exact { IfOk result (λ n. n ≡ cars (notes_of (reports tuples.now)) (in_minute - 1) stretch) }
{
    let vids = vehicles_at(alloc, tuples, in_minute.saturating_sub(1), stretch)?;
    Ok(vids.len() as u32)
}

/// The vehicle that a tuple reports from the stretch in the minute, and its speed.
fn car_at(tuple: &Tuple, in_minute: u32, stretch: Stretch) -> Option<(u32, u8)>
    ensures { (vid : ℕ) → speed_if vid result ≡ noted_speed in_minute stretch vid tuple.now }
{
    match tuple {
        Tuple::Report(r) => {
            if r.time / 60 + 1 == in_minute && r.stretch() == stretch {
                Some((r.vid, r.spd))
            } else {
                None
            }
        }
        _ => None,
    }
}

/// Adds a speed to those of the vehicle.
fn add_speed(
    alloc: Global,
    speeds: &mut HashMap<u32, Vec<u8>>,
    vid: u32,
    spd: u8,
) -> Result<(), NoMemory>
    ensures { OnOk result ((v : ℕ) → kept_items (get nat_eq speeds.new v)
        ≡ kept_items (get nat_eq speeds.old v) ++ (if vid == v then spd ∷ [] else [])) }
{
    match speeds.get_mut(&vid) {
        Some(there) => there.push(spd)?,
        None => {
            let mut there = Vec::new(alloc);
            there.push(spd)?;
            speeds.insert(vid, there)?;
        }
    }
    Ok(())
}

/// The speeds of each vehicle in the stretch and the minute.
pub fn speeds_by_vehicle(
    alloc: Global,
    tuples: &[Tuple],
    in_minute: u32,
    stretch: Stretch,
) -> Result<HashMap<u32, Vec<u8>>, NoMemory>
    ensures { IfOk result (λ speeds. (vid : ℕ) → kept_items (get nat_eq speeds vid)
        ≡ filter_map (noted_speed in_minute stretch vid) tuples.now) }
{
    let mut speeds = HashMap::new(alloc);
    for tuple in tuples {
        if let Some((vid, spd)) = car_at(tuple, in_minute, stretch) {
            add_speed(alloc, &mut speeds, vid, spd)?;
        }
    }
    Ok(speeds)
}

/// Twelve times the mean of the speeds, or 0.
fn mean12(speeds: &[u8]) -> u64
    requires lines { length speeds.now ≤ 16000000 }
    ensures mean { result ≡ (12 * sum speeds.now) / length speeds.now }
    ensures bounded { result ≤ 3060 }
{
    if speeds.is_empty() {
        return 0;
    }
    let mut total: u64 = 0;
    for speed in speeds {
        total += u64::from(*speed);
    }
    12 * total / speeds.len() as u64
}

/// Twelve times the mean of the vehicle's speeds, or 0.
pub fn speed12_of(speeds: &HashMap<u32, Vec<u8>>, vid: u32) -> u64
    requires lines { length (kept_items (get nat_eq speeds.now vid)) ≤ 16000000 }
    ensures mean { result ≡ (12 * sum (kept_items (get nat_eq speeds.now vid)))
        / length (kept_items (get nat_eq speeds.now vid)) }
    ensures bounded { result ≤ 3060 }
{
    match speeds.get(&vid) {
        None => 0,
        Some(there) => mean12(there.as_slice()),
    }
}
