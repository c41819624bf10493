// A day in order, with its reports of each stretch and minute put together, and when vehicles stand in each stretch and
// at each place.
ghost use Rattle.std.specs.Prelude.{◌≡◌, ◌++◌, ◌∷◌, [], IfOk, OnOk, if◌then◌else◌};
ghost use Rattle.std.specs.HashMap.{get};
ghost use Rattle.std.specs.List.{filter};
ghost use Rattle.road_time.specs.Tuples.{reports, same_place, same_stretch};
ghost use Rattle.road_time.specs.declared.road.Place.{Place as PlaceValue};
ghost use Rattle.road_time.specs.declared.road.Stretch.{Stretch as StretchValue};
ghost use Rattle.road_rules.specs.declared.spots.Spot.{Spot as SpotValue};
ghost use Rattle.road_rules.specs.Halts.{is_at, is_in};
ghost use Rattle.road_rules.specs.Gathered.{same_spot, spot_of as defined_spot_of, is_of, kept_items, IsGathered};

use crate::halts::{Halt, halts};
use road_time::{NoMemory, Place, Report, Stretch, Tuple};
use std::alloc::Global;
use std::collections::HashMap;

/// A stretch in a minute.
#[derive(Clone, Copy, Debug, PartialEq, Eq, Hash)]
pub struct Spot {
    pub minute: u32,
    pub stretch: Stretch,
}

/// A day in order, its reports of each spot, and when vehicles stand in each stretch.
#[derive(Drop)]
pub struct Gathered<'a> {
    pub tuples: &'a [Tuple],
    pub by_spot: HashMap<Spot, Vec<Tuple>>,
    pub halts: HashMap<Stretch, Vec<Halt>>,
}

/// The stretch and the minute of a report.
pub fn spot_of(r: &Report) -> Spot
    ensures { result ≡ defined_spot_of r.now }
{
    Spot {
        minute: r.time / 60 + 1,
        stretch: r.stretch(),
    }
}

/// Adds a tuple to those of the spot.
fn add_to(
    alloc: Global,
    by_spot: &mut HashMap<Spot, Vec<Tuple>>,
    spot: Spot,
    tuple: &Tuple,
) -> Result<(), NoMemory>
    ensures { OnOk result ((s : SpotValue) → kept_items (get same_spot by_spot.new s)
        ≡ kept_items (get same_spot by_spot.old s) ++
        (if same_spot spot s then tuple.now ∷ [] else [])) }
{
    match by_spot.get_mut(&spot) {
        Some(there) => there.push(*tuple)?,
        None => {
            let mut there = Vec::new(alloc);
            there.push(*tuple)?;
            by_spot.insert(spot, there)?;
        }
    }
    Ok(())
}

/// The reports of each spot.
fn reports_by_spot(alloc: Global, tuples: &[Tuple]) -> Result<HashMap<Spot, Vec<Tuple>>, NoMemory>
    ensures { IfOk result (λ by_spot. (s : SpotValue) → kept_items (get same_spot by_spot s)
        ≡ filter (is_of s) tuples.now) }
{
    let mut by_spot = HashMap::new(alloc);
    for tuple in tuples {
        if let Tuple::Report(r) = tuple {
            add_to(alloc, &mut by_spot, spot_of(r), tuple)?;
        }
    }
    Ok(by_spot)
}

/// Adds a halt to those in the stretch.
fn add_halt_to(
    alloc: Global,
    by_stretch: &mut HashMap<Stretch, Vec<Halt>>,
    stretch: Stretch,
    halt: &Halt,
) -> Result<(), NoMemory>
    ensures { OnOk result ((k : StretchValue) → kept_items (get same_stretch by_stretch.new k)
        ≡ kept_items (get same_stretch by_stretch.old k) ++
        (if same_stretch stretch k then halt.now ∷ [] else [])) }
{
    match by_stretch.get_mut(&stretch) {
        Some(there) => there.push(*halt)?,
        None => {
            let mut there = Vec::new(alloc);
            there.push(*halt)?;
            by_stretch.insert(stretch, there)?;
        }
    }
    Ok(())
}

/// The halts in each stretch.
fn halts_by_stretch(alloc: Global, halts: &[Halt]) -> Result<HashMap<Stretch, Vec<Halt>>, NoMemory>
    ensures { IfOk result (λ by_stretch. (k : StretchValue) → kept_items (get same_stretch by_stretch k)
        ≡ filter (is_in k) halts.now) }
{
    let mut by_stretch = HashMap::new(alloc);
    for halt in halts {
        add_halt_to(alloc, &mut by_stretch, halt.place.stretch(), halt)?;
    }
    Ok(by_stretch)
}

/// Adds a halt to those at its place.
fn add_halt_at(
    alloc: Global,
    by_place: &mut HashMap<Place, Vec<Halt>>,
    place: Place,
    halt: &Halt,
) -> Result<(), NoMemory>
    ensures { OnOk result ((p : PlaceValue) → kept_items (get same_place by_place.new p)
        ≡ kept_items (get same_place by_place.old p) ++ (if same_place place p then halt.now ∷ [] else [])) }
{
    match by_place.get_mut(&place) {
        Some(there) => there.push(*halt)?,
        None => {
            let mut there = Vec::new(alloc);
            there.push(*halt)?;
            by_place.insert(place, there)?;
        }
    }
    Ok(())
}

/// The halts at each place.
pub fn halts_by_place(alloc: Global, halts: &[Halt]) -> Result<HashMap<Place, Vec<Halt>>, NoMemory>
    ensures { IfOk result (λ by_place. (p : PlaceValue) → kept_items (get same_place by_place p)
        ≡ filter (is_at p) halts.now) }
{
    let mut by_place = HashMap::new(alloc);
    for halt in halts {
        add_halt_at(alloc, &mut by_place, halt.place, halt)?;
    }
    Ok(by_place)
}

/// The day of the tuples, put together.
pub fn gather<'a>(alloc: Global, tuples: &'a [Tuple]) -> Result<Gathered<'a>, NoMemory>
    ensures tuples { IfOk result (λ gathered. gathered.tuples.now ≡ tuples.now) }
    ensures right { IfOk result IsGathered }
{
    let by_spot = reports_by_spot(alloc, tuples)?;
    let all = halts(alloc, tuples)?;
    let halts = halts_by_stretch(alloc, all.as_slice())?;
    Ok(Gathered {
        tuples,
        by_spot,
        halts,
    })
}
