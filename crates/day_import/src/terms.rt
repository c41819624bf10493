// What the work of a day is told.
ghost use Rattle.std.specs.Prelude.{◌≤◌};
ghost use Rattle.road_time.specs.Fits.{IsLimits};

use day_plan::Plan;
use road_time::Limits;

/// Which day is worked, 70 to 1,000,000, by which plan, by how many seconds its lines may come late, 0 to 120, and
/// within which limits.
#[derive(Clone, Copy)]
pub struct DayTerms {
    pub day: u32,
    pub plan: Plan,
    pub late: u8,
    pub limits: Limits,
    ghost low: { 70 ≤ day },
    ghost high: { day ≤ 1000000 },
    ghost some: { 1 ≤ plan.width },
    ghost few: { plan.width ≤ 64 },
    ghost soon: { late ≤ 120 },
    ghost within: { IsLimits limits },
}
