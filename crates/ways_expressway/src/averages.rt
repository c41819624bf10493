// An average speed against a whole number, and in whole numbers.
ghost use Rattle.std.specs.Prelude.{◌≡◌, ◌≤◌, IfSome, option_copied};
ghost use Rattle.road_time.specs.Rates.{is_below, whole_of};
ghost use Rattle.road_time.specs.Lav.{IsAverage};

use road_time::Frac;

/// Whether an average, of at most 100 miles per hour, is below a speed in miles per hour.
/// It compares cross products, which stay below 2^112.
#[tactic(auto, using(crate::proofs::AverageLaws::product_fits))]
pub fn below(lav: &Frac, speed: u32) -> bool
    requires average { IsAverage lav.now }
    requires speed { speed ≤ 100 }
    ensures { result ≡ is_below lav.now speed }
{
    lav.num < u128::from(speed) * lav.den
}

/// An average in whole miles per hour, rounded down, and -1 for none.
#[tactic(auto, using(crate::proofs::AverageLaws::whole_is_small))]
pub fn whole_lav(lav: Option<&Frac>) -> i16
    requires { IfSome lav (λ f. IsAverage f.now) }
    ensures { result ≡ whole_of (option_copied lav.entry) }
{
    match lav {
        None => -1,
        Some(lav) => (lav.num / lav.den) as i16,
    }
}
