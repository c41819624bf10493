// All vehicles of a plan, in the order of their numbers.
ghost use Rattle.std.specs.Prelude.{◌≡◌, ◌++◌, OnOk, IfOk};
ghost use Rattle.tuples_traffic.specs.Plans.{InRange};
ghost use Rattle.tuples_traffic.specs.Traffic.{before_crash, before_trip, crash_traffic, trip_traffic, trips, traffic};

use crate::crash::Crash;
use crate::plan::GenPlan;
use crate::trip::Trip;
use day_plan::seed;
use rand_pcg::Lcg64Xsh32;
use road_time::{NoMemory, Tuple};
use std::alloc::Global;

/// Adds the crashes.
fn add_crashes(
    plan: &GenPlan,
    rng: &mut Lcg64Xsh32,
    tuples: &mut Vec<Tuple>,
) -> Result<(), NoMemory>
    requires plan { InRange plan.now }
    requires first { rng.old ≡ before_crash plan.now 0 }
    ensures tuples { OnOk result (tuples.new.items ≡ tuples.old.items ++ crash_traffic plan.now plan.now.crashes) }
    ensures drawn { OnOk result (rng.new ≡ before_crash plan.now plan.now.crashes) }
{
    for number in 0..plan.crashes {
        let crash = Crash::draw(plan, rng);
        crash.add(number, 60 * plan.minutes, tuples)?;
    }
    Ok(())
}

/// Adds the trips of the other vehicles.
fn add_trips(plan: &GenPlan, rng: &mut Lcg64Xsh32, tuples: &mut Vec<Tuple>) -> Result<(), NoMemory>
    requires plan { InRange plan.now }
    requires first { rng.old ≡ before_trip plan.now 0 }
    ensures { OnOk result (tuples.new.items ≡ tuples.old.items ++ trip_traffic plan.now (trips plan.now)) }
{
    for number in 0..plan.vehicles - 2 * plan.crashes {
        let trip = Trip::draw(plan, 2 * plan.crashes + 1 + number, rng);
        trip.add(60 * plan.minutes, tuples)?;
    }
    Ok(())
}

/// The tuples of a plan, vehicle by vehicle.
pub fn tuples_of(alloc: Global, plan: &GenPlan) -> Result<Vec<Tuple>, NoMemory>
    requires { InRange plan.now }
    ensures { IfOk result (λ tuples. tuples.items ≡ traffic plan.now) }
{
    let mut rng = seed(plan.seed);
    let mut tuples = Vec::new(alloc);
    add_crashes(plan, &mut rng, &mut tuples)?;
    add_trips(plan, &mut rng, &mut tuples)?;
    Ok(tuples)
}
