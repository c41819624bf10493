// The average speed that tolls go by, recomputed over the whole list.
ghost use Rattle.std.specs.Prelude.{◌≡◌, ◌≤◌, ◌*◌, ◌<◌, ◌^◌, Some, IfOk, All, map, length};
ghost use Rattle.road_time.specs.declared.road.Frac.{Frac as FracValue};
ghost use Rattle.road_time.specs.Fits.{IsDay};
ghost use Rattle.road_time.specs.Lav.{lav, lav_of, flow_at as defined_flow_at};
ghost use Rattle.road_time.specs.Tolls.{notes_of};
ghost use Rattle.road_time.specs.Tuples.{reports};
ghost use Rattle.road_rules.specs.Flows.{shown_flow};

use crate::cars::{speed12_of, speeds_by_vehicle, vehicles_at};
use road_time::{Frac, NoMemory, Stretch, Tuple};
use std::alloc::Global;

/// The cars of a stretch in a minute, and their speeds in twelfths.
#[derive(Clone, Copy, Debug, PartialEq, Eq)]
pub struct Flow {
    pub cars: u32,
    pub speeds12: u64,
}

/// The flow of the stretch in the minute: two passes over the tuples, whatever they are.
#[tactic(auto, using(road_time::proofs::NoteLaws::no_more_cars))]
pub fn flow_at(
    alloc: Global,
    tuples: &[Tuple],
    in_minute: u32,
    stretch: Stretch,
) -> Result<Flow, NoMemory>
    requires lines { length tuples.now ≤ 16000000 }
    ensures flow { IfOk result (λ f. shown_flow f ≡ defined_flow_at (notes_of (reports tuples.now)) stretch in_minute) }
    ensures bounded { IfOk result (λ f. f.speeds12 ≤ 3060 * f.cars) }
{
    let vids = vehicles_at(alloc, tuples, in_minute, stretch)?;
    let speeds = speeds_by_vehicle(alloc, tuples, in_minute, stretch)?;
    let mut sum: u64 = 0;
    for vid in &vids {
        sum += speed12_of(&speeds, *vid);
    }
    Ok(Flow {
        cars: vids.len() as u32,
        speeds12: sum,
    })
}

/// The mean of the averages of the flows that have cars.
pub fn mean_average(flows: &[Flow]) -> Option<Frac>
    requires few { length flows.now ≤ 5 }
    requires cars { All (λ f. f.cars ≤ 500000) flows.now }
    requires speeds { All (λ f. f.speeds12 ≤ 3060 * f.cars) flows.now }
    ensures small { (f : FracValue) → result ≡ Some f → f.den < 2 ^ 120 }
    ensures exact { result ≡ lav_of (map shown_flow flows.now) }
{
    let mut num: u128 = 0;
    let mut den: u128 = 1;
    let mut busy: u128 = 0;
    for flow in flows {
        if flow.cars > 0 {
            num = num * u128::from(flow.cars) + u128::from(flow.speeds12) * den;
            den *= u128::from(flow.cars);
            busy += 1;
        }
    }
    if busy == 0 {
        None
    } else {
        Some(Frac {
            num,
            den: 12 * busy * den,
        })
    }
}

/// The average speed that tolls of the minute go by.
#[tactic(auto, using(road_time::proofs::FitLaws::cars_few_day))]
pub fn plain_lav(
    alloc: Global,
    tuples: &[Tuple],
    in_minute: u32,
    stretch: Stretch,
) -> Result<Option<Frac>, NoMemory>
    requires { IsDay tuples.now }
    ensures small { IfOk result (λ l. (f : FracValue) → l ≡ Some f → f.den < 2 ^ 120) }
    ensures exact { IfOk result (λ l. l ≡ lav (notes_of (reports tuples.now)) in_minute stretch) }
{
    let a = flow_at(alloc, tuples, in_minute.saturating_sub(5), stretch)?;
    let b = flow_at(alloc, tuples, in_minute.saturating_sub(4), stretch)?;
    let c = flow_at(alloc, tuples, in_minute.saturating_sub(3), stretch)?;
    let d = flow_at(alloc, tuples, in_minute.saturating_sub(2), stretch)?;
    let e = flow_at(alloc, tuples, in_minute.saturating_sub(1), stretch)?;
    let flows = [a, b, c, d, e];
    Ok(mean_average(&flows))
}
