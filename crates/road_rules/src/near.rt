// Accidents, recomputed over the whole list: each question goes through all reports, so that the answer can be read off
// the rule. A whole day asks for too many: it is recomputed by when each vehicle stands where (`blocked`).
ghost use Rattle.std.specs.Prelude.{◌≡◌, IfOk, ◌&&◌, ◌==◌, not};
ghost use Rattle.std.specs.List.{list_any, prefix_len};
ghost use Rattle.road_time.specs.Tuples.{reports, place_of as defined_place_of, same_place};
ghost use Rattle.road_time.specs.Stops.{up_to, is_stopped as defined_is_stopped, trail as defined_trail};
ghost use Rattle.road_time.specs.Stops.{stops as defined_stops};
ghost use Rattle.road_time.specs.Stops.{has_accident as defined_has_accident, stood as defined_stood};
ghost use Rattle.road_time.specs.Tolls.{stops_at, near_at};
ghost use Rattle.road_time.specs.Ways.{downstream_of};

use crate::places::report_of;
use road_time::{NoMemory, Place, Report, Stretch, Tuple};
use std::alloc::Global;

/// The reports up to the end of the second.
fn reports_up_to(alloc: Global, tuples: &[Tuple], second: u64) -> Result<Vec<Report>, NoMemory>
    ensures { IfOk result (λ rs. rs.items ≡ up_to second (reports tuples.now)) }
{
    Ok(
        tuples
            .iter()
            .filter_map(|tuple| report_of(tuple))
            .filter(|r| u64::from(r.time) <= second)
            .collect(alloc)?,
    )
}

/// The vehicle's reports, the newest first.
pub fn trail(alloc: Global, reports: &[Report], vid: u32) -> Result<Vec<Report>, NoMemory>
    ensures { IfOk result (λ rs. rs.items ≡ defined_trail reports.now vid) }
{
    Ok(
        reports
            .iter()
            .rev()
            .filter(|r| r.vid == vid)
            .copied()
            .collect(alloc)?,
    )
}

/// How many of the first reports are at the place, before another one.
fn run_at(trail: &[Report], place: Place) -> usize
    ensures { result ≡ prefix_len (λ r. same_place (defined_place_of r) place) trail.now }
{
    for (i, r) in trail.iter().enumerate() {
        if r.place() != place {
            return i;
        }
    }
    trail.len()
}

/// The vehicle's last four reports exist and are at the place.
fn is_stopped(alloc: Global, reports: &[Report], vid: u32, place: Place) -> Result<bool, NoMemory>
    ensures { IfOk result (λ b. b ≡ defined_is_stopped reports.now vid place) }
{
    let trail = trail(alloc, reports, vid)?;
    Ok(run_at(trail.as_slice(), place) >= 4)
}

/// The vehicles that are stopped after the reports, each with its place.
fn stops(alloc: Global, reports: &[Report]) -> Result<Vec<(u32, Place)>, NoMemory>
    ensures { IfOk result (λ ss. ss.items ≡ defined_stops reports.now) }
{
    let mut stopped = Vec::new(alloc);
    for r in reports {
        let place = r.place();
        if is_stopped(alloc, reports, r.vid, place)? {
            stopped.push((r.vid, place))?;
        }
    }
    Ok(stopped)
}

/// Another vehicle stands at the place of this one.
fn has_partner(stops: &[(u32, Place)], vid: u32, place: Place) -> bool
    ensures { result ≡ list_any (λ b. same_place place b.1 && not (vid == b.0)) stops.now }
{
    stops.iter().any(|b| place == b.1 && vid != b.0)
}

/// Two vehicles stand at one place of the stretch.
fn has_accident(stops: &[(u32, Place)], stretch: Stretch) -> bool
    ensures { result ≡ defined_has_accident stops.now stretch }
{
    stops.iter().any(|a| a.1.stretch() == stretch && has_partner(stops, a.0, a.1))
}

/// An accident stands in the stretch at the end of the second.
fn accident_at(
    alloc: Global,
    tuples: &[Tuple],
    second: u64,
    stretch: Stretch,
) -> Result<bool, NoMemory>
    ensures { IfOk result (λ b. b ≡ defined_has_accident (stops_at (reports tuples.now) second) stretch) }
{
    let seen = reports_up_to(alloc, tuples, second)?;
    let stopped = stops(alloc, seen.as_slice())?;
    Ok(has_accident(stopped.as_slice(), stretch))
}

/// At some second of the minute an accident stood in the stretch.
fn stood(
    alloc: Global,
    tuples: &[Tuple],
    in_minute: u32,
    stretch: Stretch,
) -> Result<bool, NoMemory>
    ensures { IfOk result (λ b. b ≡ defined_stood (stops_at (reports tuples.now)) in_minute stretch) }
{
    if in_minute == 0 {
        return Ok(false);
    }
    let start = 60 * u64::from(in_minute - 1);
    for second in start..start + 60 {
        if accident_at(alloc, tuples, second, stretch)? {
            return Ok(true);
        }
    }
    Ok(false)
}

/// The segment that lies `i` downstream, of any stretch.
fn segment_ahead(stretch: Stretch, i: u8) -> Option<u8>
    ensures { result ≡ downstream_of stretch.seg stretch.dir i }
{
    if stretch.dir == 0 {
        let ahead = u16::from(stretch.seg) + u16::from(i);
        if ahead <= 99 { Some(ahead as u8) } else { None }
    } else {
        stretch.seg.checked_sub(i)
    }
}

/// The segment of the nearest accident that stood in the minute before.
pub fn plain_near(
    alloc: Global,
    tuples: &[Tuple],
    in_minute: u32,
    stretch: Stretch,
) -> Result<Option<u8>, NoMemory>
    ensures { IfOk result (λ n. n ≡ near_at (reports tuples.now) in_minute stretch) }
{
    let before = in_minute.saturating_sub(1);
    for i in 0..5u8 {
        if let Some(seg) = segment_ahead(stretch, i) {
            if stood(alloc, tuples, before, Stretch { seg, ..stretch })? {
                return Ok(Some(seg));
            }
        }
    }
    Ok(None)
}
