// What was found, put at the positions for which it was found.
ghost use Rattle.std.specs.Prelude.{◌≡◌, ◌∷◌, [], ℕ, List, IfOk, OnOk, length, map, vec_len};
ghost use Rattle.road_time.specs.Tolls.{StretchTold as FindingValue};
ghost use Rattle.ways_expressway.specs.Findings.{shown};
ghost use Rattle.ways_audit.specs.Closing.{IsPlaced};

use day_floor::Found;
use road_time::NoMemory;
use std::alloc::Global;
use ways_expressway::Finding;

/// What a position has for which nothing was found.
const NOTHING: Found = Found {
    lav: -1,
    toll: 0,
    alert: None,
};

/// Puts a finding at its position, if there is one, whatever is there.
fn place(places: &mut Vec<Found>, finding: &Finding)
    ensures len { length places.new.items ≡ length places.old.items }
    ensures placed { (later : List (ℕ × FindingValue)) → IsPlaced places.old.items later
        → IsPlaced places.new.items (shown finding.now ∷ later) }
{
    let at = finding.position as usize;
    if at < places.len() {
        places[at] = Found {
            toll: finding.toll,
            lav: finding.lav,
            alert: finding.alert,
        };
    }
}

/// Places for which nothing was found.
fn new_places(alloc: Global, count: usize) -> Result<Vec<Found>, NoMemory>
    ensures len { IfOk result (λ places. length places.items ≡ count) }
    ensures placed { IfOk result (λ places. IsPlaced places.items []) }
{
    let mut places = Vec::with_capacity(alloc, count)?;
    for _ in 0..count {
        places.push(NOTHING)?;
    }
    Ok(places)
}

/// What was found, position by position. Of two findings for one position the first stands.
fn place_all(alloc: Global, count: usize, findings: &[Finding]) -> Result<Vec<Found>, NoMemory>
    ensures len { IfOk result (λ places. length places.items ≡ count) }
    ensures placed { IfOk result (λ places. IsPlaced places.items (map shown findings.now)) }
{
    let mut places = new_places(alloc, count)?;
    let mut left = findings;
    while let Some((finding, earlier)) = left.split_last() {
        place(&mut places, finding);
        left = earlier;
    }
    Ok(places)
}

/// What was found, position by position. The findings are let go.
pub(crate) fn place_found(
    alloc: Global,
    count: usize,
    found: Vec<Finding>,
) -> Result<Vec<Found>, NoMemory>
    ensures len { IfOk result (λ places. length places.items ≡ count) }
    ensures placed { IfOk result (λ places. IsPlaced places.items (map shown found.items)) }
{
    let places = place_all(alloc, count, found.as_slice())?;
    Ok(places)
}
