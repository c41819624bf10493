// The toll by a tariff.
ghost use Rattle.std.specs.Prelude.{◌≡◌, ◌≤◌, IfSome, option_copied};
ghost use Rattle.road_time.specs.declared.tariff.TheConstants.{GREATEST_TOLL};
ghost use Rattle.road_time.specs.Rates.{IsTariff, is_slow, toll_of};
ghost use Rattle.road_time.specs.Lav.{IsAverage};

use crate::averages::below;
use road_time::{Frac, GREATEST_TOLL, Tariff};

/// Whether there is an average, and it is below a speed in miles per hour.
fn slow(lav: Option<&Frac>, speed: u8) -> bool
    requires average { IfSome lav (λ f. IsAverage f.now) }
    requires speed { speed ≤ 100 }
    ensures { result ≡ is_slow speed (option_copied lav.entry) }
{
    match lav {
        None => false,
        Some(lav) => below(lav, u32::from(speed)),
    }
}

/// What a vehicle is charged for a stretch in a minute: by its tariff, the cars and the average of the minutes
/// before, and whether an accident blocks it.
pub fn toll(tariff: &Tariff, cars: u32, lav: Option<&Frac>, blocked: bool) -> u64
    requires tariff { IsTariff tariff.now }
    requires cars { cars ≤ 500000 }
    requires average { IfSome lav (λ f. IsAverage f.now) }
    ensures exact { result ≡ toll_of tariff.now cars (option_copied lav.entry) blocked }
    ensures capped { result ≤ GREATEST_TOLL }
{
    if cars > tariff.crowd && slow(lav, tariff.speed) && !blocked {
        let over = u64::from(cars - tariff.crowd);
        GREATEST_TOLL.min(u64::from(tariff.factor) * (over * over))
    } else {
        0
    }
}
