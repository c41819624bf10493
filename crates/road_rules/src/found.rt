// What is told of a stretch in a minute, found once.
ghost use Rattle.std.specs.Prelude.{◌≡◌, ◌≤◌, IfOk, OnOk};
ghost use Rattle.road_time.specs.Tuples.{reports};
ghost use Rattle.road_time.specs.Fits.{IsDay, IsReport};
ghost use Rattle.road_time.specs.Tolls.{finding_at};
ghost use Rattle.road_time.specs.Rates.{whole_of};
ghost use Rattle.road_rules.specs.Gathered.{IsGathered};
ghost use Rattle.road_rules.specs.Findings.{finding_on, shown_found, KnowsSpots, IsMeanSpeed};

use crate::average::average_on;
use crate::blocked::near_by;
use crate::owed::toll_of;
use crate::spots::{Gathered, Spot, spot_of};
use road_time::{Frac, NoMemory, Report, Stretch, Tariffs};
use std::alloc::Global;
use std::collections::HashMap;

/// What is told of a stretch in a minute: the average, the toll, and the segment of the nearest accident.
#[derive(Clone, Copy, Debug, PartialEq, Eq)]
pub struct SpotFound {
    pub lav: i16,
    pub toll: u64,
    pub alert: Option<u8>,
}

/// The average rounded down, and -1 for none.
fn whole(average: Option<Frac>) -> i16
    requires small { IsMeanSpeed average }
    ensures { result ≡ whole_of average }
{
    match average {
        None => -1,
        Some(f) => (f.num / f.den) as i16,
    }
}

/// What is told of the stretch in the minute.
fn found_at(
    alloc: Global,
    gathered: &Gathered,
    tariffs: &Tariffs,
    in_minute: u32,
    stretch: Stretch,
) -> Result<SpotFound, NoMemory>
    requires fit { IsDay gathered.now.tuples.now }
    requires right { IsGathered gathered.now }
    requires first { 1 ≤ in_minute }
    requires last { in_minute ≤ 1440 }
    requires segment { stretch.seg ≤ 99 }
    requires direction { stretch.dir ≤ 1 }
    ensures { IfOk result (λ f. shown_found f
        ≡ finding_on (reports gathered.now.tuples.now) tariffs.now in_minute stretch) }
{
    let average = average_on(alloc, gathered, in_minute, stretch)?;
    let alert = near_by(alloc, gathered, in_minute, stretch)?;
    Ok(SpotFound {
        lav: whole(average.lav),
        toll: toll_of(
            tariffs.of(stretch.xway),
            average.cars,
            average.lav,
            alert.is_some(),
        ),
        alert,
    })
}

/// What is told at the report: found before, or now.
pub fn found_for(
    alloc: Global,
    gathered: &Gathered,
    tariffs: &Tariffs,
    found: &mut HashMap<Spot, SpotFound>,
    r: &Report,
) -> Result<SpotFound, NoMemory>
    requires fit { IsDay gathered.now.tuples.now }
    requires right { IsGathered gathered.now }
    requires valid { IsReport r.now }
    requires known { KnowsSpots (reports gathered.now.tuples.now) tariffs.now found.old }
    ensures exact { IfOk result (λ f. shown_found f ≡ finding_at (reports gathered.now.tuples.now) tariffs.now r.now) }
    ensures kept { OnOk result (KnowsSpots (reports gathered.now.tuples.now) tariffs.now found.new) }
{
    let spot = spot_of(r);
    if let Some(before) = found.get(&spot) {
        return Ok(*before);
    }
    let now = found_at(alloc, gathered, tariffs, spot.minute, spot.stretch)?;
    found.insert(spot, now)?;
    Ok(now)
}
