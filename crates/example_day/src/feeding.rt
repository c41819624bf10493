// A day's tuples are fed.
ghost use Rattle.std.specs.Prelude.{◌≡◌, ◌≤◌, length, OnOk};
ghost use Rattle.road_time.specs.Fits.{Fit};
ghost use Rattle.day_floor.specs.Shares.{start};
ghost use Rattle.day_floor.specs.Floors.{Setting, width_of, limits_of, StandsFor};
ghost use Rattle.example_day.specs.Turns.{after_fed};

use day_floor::Floor;
use road_time::{NoMemory, Tuple};

/// Feeds the tuples of a day, before which none was fed. After a refusal some of them were fed.
pub(crate) fn feed_all(floor: &mut Floor, tuples: &[Tuple]) -> Result<(), NoMemory>
    requires stands { (g : Setting) × StandsFor g floor.old start }
    requires fit { Fit tuples.now (limits_of floor.old) }
    requires room { length tuples.now ≤ (limits_of floor.old).backlog }
    ensures width { width_of floor.new ≡ width_of floor.old }
    ensures limits { limits_of floor.new ≡ limits_of floor.old }
    ensures fed { OnOk result ((g : Setting) → StandsFor g floor.old start
        → StandsFor g floor.new (after_fed (width_of floor.old) start tuples.now)) }
{
    for tuple in tuples {
        floor.feed(*tuple)?;
    }
    Ok(())
}
