// The accident log of a day.
ghost use Rattle.std.specs.Prelude.{◌≡◌, ◌≤◌, ◌+◌, ◌-◌, ◌++◌, ◌∷◌, [], ◌&&◌, not, map, length, IfOk, OnOk, ℕ, Bool};
ghost use Rattle.std.specs.Prelude.{List};
ghost use Rattle.std.specs.List.{filter_map, fold};
ghost use Rattle.std.specs.HashMap.{get};
ghost use Rattle.std.specs.BTreeSet.{insert_key};
ghost use Rattle.road_time.specs.Fits.{IsDay};
ghost use Rattle.road_time.specs.Order.{greatest_time};
ghost use Rattle.road_time.specs.Tuples.{reports, same_place};
ghost use Rattle.road_time.specs.Log.{places_of, stands_first, stands_for, ends_at as defined_ends_at, log_of};
ghost use Rattle.road_rules.specs.Halts.{halts_of};
ghost use Rattle.road_rules.specs.Gathered.{kept_items};
ghost use Rattle.road_rules.specs.Groups.{stands_with as defined_stands_with, has_other as defined_has_other};
ghost use Rattle.road_rules.specs.Groups.{shown_group, groups_by, groups_of, mishap_in};

use crate::halts::{Halt, covers, halts};
use crate::places::report_of;
use crate::spots::halts_by_place;
use road_time::{Mishap, NoMemory, Place, Tuple};
use std::alloc::Global;
use std::collections::{BTreeSet, HashMap};

/// A place, and who stands there when.
#[derive(Drop)]
pub struct Group {
    place: Place,
    halts: Vec<Halt>,
}

/// Another vehicle stands there at the end of the second.
fn has_other(halts: &[Halt], second: u32, vid: u32) -> bool
    ensures { result ≡ defined_has_other halts.now second vid }
{
    halts.iter().any(|b| covers(second, b) && vid != b.vid)
}

/// Two vehicles stand there at the end of the second.
fn stands_with(halts: &[Halt], second: u32) -> bool
    ensures { result ≡ defined_stands_with halts.now second }
{
    halts
        .iter()
        .any(|a| covers(second, a) && has_other(halts, second, a.vid))
}

/// Seconds at which two vehicles stand there begin at this one.
fn begins_at(halts: &[Halt], second: u32) -> bool
    ensures { result ≡ stands_first (defined_stands_with halts.now) second }
{
    if second == 0 {
        stands_with(halts, 0)
    } else {
        stands_with(halts, second) && !stands_with(halts, second - 1)
    }
}

/// For how many seconds they stand from this one on, up to the last.
fn seconds_from(halts: &[Halt], from: u32, last: u32) -> u32
    requires day { last ≤ 86399 }
    requires inside { from ≤ last }
    ensures fits { from + result ≤ last + 1 }
    ensures exact { result ≡ stands_for (defined_stands_with halts.now) last from }
{
    for second in from..last + 1 {
        if !stands_with(halts, second) {
            return second - from;
        }
    }
    last + 1 - from
}

/// The last of the seconds, or none where that is the last of all.
fn ends_at(last: u32, from: u32, seconds: u32) -> Option<u32>
    requires day { last ≤ 86399 }
    requires fits { from + seconds ≤ last + 1 }
    ensures { result ≡ defined_ends_at last from seconds }
{
    if from + seconds == last + 1 {
        None
    } else {
        Some((from + seconds).saturating_sub(1))
    }
}

/// The accident that begins there at the second, if one does.
fn mishap_at(group: &Group, last: u32, from: u32) -> Option<Mishap>
    requires day { last ≤ 86399 }
    requires inside { from ≤ last }
    ensures { result ≡ mishap_in last from (shown_group group.now) }
{
    let halts = group.halts.as_slice();
    if begins_at(halts, from) {
        let seconds = seconds_from(halts, from, last);
        Some(Mishap {
            from,
            to: ends_at(last, from, seconds),
            place: group.place,
        })
    } else {
        None
    }
}

/// Adds the accidents that begin at the second.
fn add_mishaps(
    log: &mut Vec<Mishap>,
    groups: &[Group],
    last: u32,
    from: u32,
) -> Result<(), NoMemory>
    requires day { last ≤ 86399 }
    requires inside { from ≤ last }
    ensures { OnOk result (log.new.items ≡ log.old.items ++ filter_map (mishap_in last from)
        (map shown_group groups.now)) }
{
    for group in groups {
        if let Some(mishap) = mishap_at(group, last, from) {
            log.push(mishap)?;
        }
    }
    Ok(())
}

/// The greatest Time of the day, 0 for none.
fn last_second(tuples: &[Tuple]) -> u32
    requires { IsDay tuples.now }
    ensures day { result ≤ 86399 }
    ensures exact { result ≡ greatest_time tuples.now }
{
    let mut last = 0;
    for tuple in tuples {
        let time = match tuple {
            Tuple::Report(r) => r.time,
            Tuple::Balance { time, .. } | Tuple::Spent { time, .. } | Tuple::Travel { time } =>
                *time,
        };
        last = last.max(time);
    }
    last
}

/// The places of the reports, each once and in order.
fn places(alloc: Global, tuples: &[Tuple]) -> Result<Vec<Place>, NoMemory>
    ensures { IfOk result (λ places. places.items ≡ places_of (reports tuples.now)) }
{
    let mut places = BTreeSet::new(alloc);
    for tuple in tuples {
        if let Some(r) = report_of(tuple) {
            places.insert(r.place())?;
        }
    }
    Ok(places.iter().copied().collect(alloc)?)
}

/// The halts that are kept of the place.
fn halts_at(
    alloc: Global,
    by_place: &HashMap<Place, Vec<Halt>>,
    place: Place,
) -> Result<Vec<Halt>, NoMemory>
    ensures { IfOk result (λ some. some.items ≡ kept_items (get same_place by_place.now place)) }
{
    match by_place.get(&place) {
        None => Ok(Vec::new(alloc)),
        Some(there) => Ok(there.iter().copied().collect(alloc)?),
    }
}

/// Adds the place with its halts, if it has some.
fn add_group(
    alloc: Global,
    groups: &mut Vec<Group>,
    by_place: &HashMap<Place, Vec<Halt>>,
    place: Place,
) -> Result<(), NoMemory>
    ensures { OnOk result (map shown_group groups.new.items ≡ map shown_group groups.old.items
        ++ groups_by (λ p. kept_items (get same_place by_place.now p)) (place ∷ [])) }
{
    let some = halts_at(alloc, by_place, place)?;
    if !some.is_empty() {
        groups.push(Group { place, halts: some })?;
    }
    Ok(())
}

/// The places where somebody stands, each with its halts.
fn groups_at(
    alloc: Global,
    places: &[Place],
    by_place: &HashMap<Place, Vec<Halt>>,
) -> Result<Vec<Group>, NoMemory>
    ensures { IfOk result (λ groups. map shown_group groups.items
        ≡ groups_by (λ p. kept_items (get same_place by_place.now p)) places.now) }
{
    let mut groups: Vec<Group> = Vec::new(alloc);
    for place in places {
        add_group(alloc, &mut groups, by_place, *place)?;
    }
    Ok(groups)
}

/// The places where somebody stands, in order, each with its halts.
fn groups(alloc: Global, tuples: &[Tuple]) -> Result<Vec<Group>, NoMemory>
    ensures { IfOk result (λ groups. map shown_group groups.items ≡ groups_of (halts_of (reports tuples.now))
        (places_of (reports tuples.now))) }
{
    let places = places(alloc, tuples)?;
    let halts = halts(alloc, tuples)?;
    let by_place = halts_by_place(alloc, halts.as_slice())?;
    let groups = groups_at(alloc, places.as_slice(), &by_place)?;
    Ok(groups)
}

/// The accidents of the day: of each place the longest runs of seconds at which two vehicles stand there.
pub fn plain_log(alloc: Global, tuples: &[Tuple]) -> Result<Vec<Mishap>, NoMemory>
    requires { IsDay tuples.now }
    ensures { IfOk result (λ log. log.items ≡ log_of tuples.now) }
{
    let last = last_second(tuples);
    let groups = groups(alloc, tuples)?;
    let mut log: Vec<Mishap> = Vec::new(alloc);
    for from in 0..last + 1 {
        add_mishaps(&mut log, groups.as_slice(), last, from)?;
    }
    Ok(log)
}
