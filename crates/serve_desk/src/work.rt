// How days are worked.
ghost use Rattle.std.specs.Prelude.{◌≤◌};
ghost use Rattle.road_time.specs.Fits.{IsLimits};

use day_plan::Plan;
use road_time::Limits;

/// By which plan, and within which limits, a day is worked.
#[derive(Clone, Copy)]
pub struct Work {
    pub plan: Plan,
    pub limits: Limits,
    ghost some: { 1 ≤ plan.width },
    ghost few: { plan.width ≤ 64 },
    ghost within: { IsLimits limits },
}

/// Which day is worked, 70 to 1,000,000, by which plan, and within which limits.
#[derive(Clone, Copy)]
pub struct DayWork {
    pub day: u32,
    pub plan: Plan,
    pub limits: Limits,
    ghost low: { 70 ≤ day },
    ghost high: { day ≤ 1000000 },
    ghost some: { 1 ≤ plan.width },
    ghost few: { plan.width ≤ 64 },
    ghost within: { IsLimits limits },
}
