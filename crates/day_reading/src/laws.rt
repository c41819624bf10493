// Laws of the definitions, which no code runs.
ghost use Rattle.std.specs.Prelude.{◌≡◌, [], ℕ, List, None, slice_get};
ghost use Rattle.road_time.specs.Lines.{lines_of};
ghost use Rattle.road_time.specs.Reads.{accepts, accepts_after};
ghost use Rattle.day_reading.specs.Checked.{checked};

use road_time::Limits;

/// The first line that a check names is the one at which the reading of the day ends, and the good lines alone are a
/// day of which none is refused.
pub fn check_law(limits: &Limits, late: u8)
    ensures first { (bytes : List ℕ) → (accepts bytes limits.now late).refused
        ≡ slice_get (checked limits.now late (lines_of bytes)).refusals 0 }
    ensures good { (lines : List (List ℕ))
        → (accepts_after limits.now late [] (checked limits.now late lines).kept).refused ≡ None }
{}
