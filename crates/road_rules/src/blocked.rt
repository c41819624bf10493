// Which accident blocks a stretch, by when each vehicle stands where.
ghost use Rattle.std.specs.Prelude.{◌≡◌, ◌≤◌, ◌-◌, ◌==◌, ℕ, true, false, Some, IfOk, if◌then◌else◌};
ghost use Rattle.std.specs.HashMap.{get};
ghost use Rattle.road_time.specs.declared.road.Place.{Place as PlaceValue};
ghost use Rattle.std.specs.List.{filter};
ghost use Rattle.road_time.specs.Stops.{has_accident as defined_has_accident, stood as defined_stood, near};
ghost use Rattle.road_time.specs.Tuples.{reports, same_place};
ghost use Rattle.road_rules.specs.Halts.{halting, halts_of, is_about as defined_is_about};
ghost use Rattle.road_rules.specs.Gathered.{IsGathered};

use crate::halts::{Halt, covers};
use crate::spots::Gathered;
use road_time::{NoMemory, Place, Stretch, downstream};
use std::alloc::Global;
use std::collections::HashMap;

/// The halt is in the stretch, and touches the minute that begins at the second.
fn is_about(start: u32, stretch: Stretch, halt: &Halt) -> bool
    requires { start ≤ 86400 }
    ensures { result ≡ defined_is_about start stretch halt.now }
{
    halt.place.stretch() == stretch
        && halt.from < start + 60
        && match halt.to {
            None => true,
            Some(to) => start < to,
        }
}

/// The halts in the stretch that touch the minute that begins at the second.
fn halts_about(
    alloc: Global,
    halts: &[Halt],
    start: u32,
    stretch: Stretch,
) -> Result<Vec<Halt>, NoMemory>
    requires { start ≤ 86400 }
    ensures { IfOk result (λ some. some.items ≡ filter (defined_is_about start stretch) halts.now) }
{
    let mut some: Vec<Halt> = Vec::new(alloc);
    for halt in halts {
        if is_about(start, stretch, halt) {
            some.push(*halt)?;
        }
    }
    Ok(some)
}

/// The halts of the day in the stretch that touch the minute that begins at the second.
fn halts_there(
    alloc: Global,
    gathered: &Gathered,
    start: u32,
    stretch: Stretch,
) -> Result<Vec<Halt>, NoMemory>
    requires right { IsGathered gathered.now }
    requires start { start ≤ 86400 }
    ensures { IfOk result (λ some. some.items ≡ filter (defined_is_about start stretch)
        (halts_of (reports gathered.now.tuples.now))) }
{
    match gathered.halts.get(&stretch) {
        None => Ok(Vec::new(alloc)),
        Some(there) => halts_about(alloc, there.as_slice(), start, stretch),
    }
}

/// A vehicle and its place.
fn stop_of(halt: &Halt) -> (u32, Place)
    ensures { result ≡ (halt.now.vid, halt.now.place) }
{
    (halt.vid, halt.place)
}

/// Who stands at the end of the second.
pub fn standing(alloc: Global, halts: &[Halt], second: u32) -> Result<Vec<(u32, Place)>, NoMemory>
    ensures { IfOk result (λ some. some.items ≡ halting halts.now second) }
{
    Ok(
        halts
            .iter()
            .filter(|halt| covers(second, halt))
            .map(|halt| stop_of(halt))
            .collect(alloc)?,
    )
}

/// Whether another vehicle is kept of the place. If none is, this one is kept.
fn meets(firsts: &mut HashMap<Place, u32>, vid: u32, place: Place) -> Result<bool, NoMemory>
    ensures met { IfOk result (λ met. met ≡ true
        → (v : ℕ) × (get same_place firsts.old place ≡ Some v) × ((vid == v) ≡ false)) }
    ensures fits { IfOk result (λ met. met ≡ false → (v : ℕ) → get same_place firsts.old place ≡ Some v → v ≡ vid) }
    ensures kept { IfOk result (λ met. met ≡ false → (p : PlaceValue) → get same_place firsts.new p
        ≡ (if same_place place p then Some vid else get same_place firsts.old p)) }
{
    match firsts.get(&place).copied() {
        Some(first) => Ok(vid != first),
        None => {
            firsts.insert(place, vid)?;
            Ok(false)
        }
    }
}

/// Two vehicles stand at one place of the stretch: one pass over those that stand.
fn has_meeting(alloc: Global, stops: &[(u32, Place)], stretch: Stretch) -> Result<bool, NoMemory>
    ensures { IfOk result (λ b. b ≡ defined_has_accident stops.now stretch) }
{
    let mut firsts: HashMap<Place, u32> = HashMap::new(alloc);
    for stop in stops {
        if stop.1.stretch() == stretch {
            if meets(&mut firsts, stop.0, stop.1)? {
                return Ok(true);
            }
        }
    }
    Ok(false)
}

/// An accident stands in the stretch at the end of the second.
fn accident_by(
    alloc: Global,
    halts: &[Halt],
    second: u32,
    stretch: Stretch,
) -> Result<bool, NoMemory>
    ensures { IfOk result (λ b. b ≡ defined_has_accident (halting halts.now second) stretch) }
{
    let some = standing(alloc, halts, second)?;
    match has_meeting(alloc, some.as_slice(), stretch) {
        Ok(met) => Ok(met),
        Err(error) => Err(error),
    }
}

/// At some second of the minute an accident stood in the stretch.
fn stood_by(
    alloc: Global,
    gathered: &Gathered,
    in_minute: u32,
    stretch: Stretch,
) -> Result<bool, NoMemory>
    requires right { IsGathered gathered.now }
    requires last { in_minute ≤ 1440 }
    ensures { IfOk result (λ b. b ≡ defined_stood (halting (halts_of
        (reports gathered.now.tuples.now))) in_minute stretch) }
{
    if in_minute == 0 {
        return Ok(false);
    }
    let start = 60 * (in_minute - 1);
    let some = halts_there(alloc, gathered, start, stretch)?;
    if some.is_empty() {
        return Ok(false);
    }
    for second in start..start + 60 {
        if accident_by(alloc, some.as_slice(), second, stretch)? {
            return Ok(true);
        }
    }
    Ok(false)
}

/// The segment of the nearest accident that stood in the minute before.
pub fn near_by(
    alloc: Global,
    gathered: &Gathered,
    in_minute: u32,
    stretch: Stretch,
) -> Result<Option<u8>, NoMemory>
    requires right { IsGathered gathered.now }
    requires first { 1 ≤ in_minute }
    requires last { in_minute ≤ 1440 }
    requires segment { stretch.seg ≤ 99 }
    requires direction { stretch.dir ≤ 1 }
    ensures { IfOk result (λ n. n ≡ near (halting (halts_of (reports gathered.now.tuples.now))) in_minute stretch) }
{
    for i in 0..5u8 {
        if let Some(seg) = downstream(stretch.seg, stretch.dir, i) {
            if stood_by(alloc, gathered, in_minute - 1, Stretch { seg, ..stretch })? {
                return Ok(Some(seg));
            }
        }
    }
    Ok(None)
}
