// The averages of a stretch, by its reports of the five minutes before.
ghost use Rattle.std.specs.Prelude.{◌≡◌, ◌≤◌, ◌<◌, ◌^◌, ◌-◌, ◌*◌, IfOk, Some};
ghost use Rattle.road_time.specs.declared.road.Frac.{Frac as FracValue};
ghost use Rattle.road_time.specs.Fits.{IsDay};
ghost use Rattle.road_time.specs.Tuples.{reports};
ghost use Rattle.road_time.specs.Notes.{cars};
ghost use Rattle.road_time.specs.Lav.{flow_at as defined_flow_at};
ghost use Rattle.road_time.specs.Tolls.{notes_of, lav_at};
ghost use Rattle.road_rules.specs.Flows.{shown_flow};
ghost use Rattle.road_rules.specs.Gathered.{IsGathered};

use crate::flows::{Flow, flow_at, mean_average};
use crate::spots::{Gathered, Spot};
use road_time::{Frac, NoMemory, Stretch};
use std::alloc::Global;

/// The flow of the stretch in the minute, by its reports.
fn flow_on(
    alloc: Global,
    gathered: &Gathered,
    in_minute: u32,
    stretch: Stretch,
) -> Result<Flow, NoMemory>
    requires fit { IsDay gathered.now.tuples.now }
    requires right { IsGathered gathered.now }
    ensures flow { IfOk result (λ f. shown_flow f
        ≡ defined_flow_at (notes_of (reports gathered.now.tuples.now)) stretch in_minute) }
    ensures bounded { IfOk result (λ f. f.speeds12 ≤ 3060 * f.cars) }
{
    let spot = Spot {
        minute: in_minute,
        stretch,
    };
    match gathered.by_spot.get(&spot) {
        None => Ok(Flow {
            cars: 0,
            speeds12: 0,
        }),
        Some(there) => flow_at(alloc, there.as_slice(), in_minute, stretch),
    }
}

/// The cars of the stretch for the minute, and the average that its tolls go by.
#[derive(Clone, Copy, Debug, PartialEq, Eq)]
pub struct Average {
    pub cars: u32,
    pub lav: Option<Frac>,
}

/// The cars and the average of the stretch for the minute.
pub fn average_on(
    alloc: Global,
    gathered: &Gathered,
    in_minute: u32,
    stretch: Stretch,
) -> Result<Average, NoMemory>
    requires fit { IsDay gathered.now.tuples.now }
    requires right { IsGathered gathered.now }
    requires first { 1 ≤ in_minute }
    ensures few { IfOk result (λ x. x.cars ≤ 500000) }
    ensures cars { IfOk result (λ x. x.cars
        ≡ cars (notes_of (reports gathered.now.tuples.now)) (in_minute - 1) stretch) }
    ensures small { IfOk result (λ x. (f : FracValue) → x.lav ≡ Some f → f.den < 2 ^ 120) }
    ensures lav { IfOk result (λ x. x.lav ≡ lav_at (reports gathered.now.tuples.now) in_minute stretch) }
{
    let a = flow_on(alloc, gathered, in_minute.saturating_sub(5), stretch)?;
    let b = flow_on(alloc, gathered, in_minute.saturating_sub(4), stretch)?;
    let c = flow_on(alloc, gathered, in_minute.saturating_sub(3), stretch)?;
    let d = flow_on(alloc, gathered, in_minute.saturating_sub(2), stretch)?;
    let e = flow_on(alloc, gathered, in_minute.saturating_sub(1), stretch)?;
    let flows = [a, b, c, d, e];
    Ok(Average {
        cars: e.cars,
        lav: mean_average(&flows),
    })
}
