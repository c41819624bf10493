// Which way a vehicle goes.
ghost use Rattle.std.specs.Prelude.{◌≡◌};
ghost use Rattle.day_plan.specs.Draws.{drawn};
ghost use Rattle.tuples_traffic.specs.Directions.{direction_of};

use day_plan::draw;
use rand_pcg::Lcg64Xsh32;

/// The direction of a vehicle: one in four goes west.
pub fn direction(rng: &mut Lcg64Xsh32) -> u8
    ensures drawn { (result ≡ direction_of (drawn 4 rng.old).0) × (rng.new ≡ (drawn 4 rng.old).1) }
{
    if draw(rng, 4) == 0 { 1 } else { 0 }
}
