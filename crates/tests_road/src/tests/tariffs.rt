// Tolls, averages in whole units and comparisons, as they are known.
ghost use Rattle.std.specs.Prelude.{◌≡◌};

use road_time::{Frac, Tariff};
use ways_expressway::{below, toll, whole_lav};

const THIRTY: Frac = Frac { num: 30, den: 1 };

const FORTY: Frac = Frac { num: 40, den: 1 };

const HUNDRED: Frac = Frac { num: 100, den: 1 };

const NONE: Frac = Frac { num: 0, den: 1 };

const ALMOST_FORTY: Frac = Frac { num: 479, den: 12 };

/// By the tariff of the benchmark at an average of 30: at 51 cars and at 50, and on a blocked stretch.
fn crowds_are_charged() -> bool {
    let tariff = Tariff::BENCHMARK;
    let above = toll(&tariff, 51, Some(&THIRTY), false);
    let crowd = toll(&tariff, 50, Some(&THIRTY), false);
    let blocked = toll(&tariff, 51, Some(&THIRTY), true);
    [above, crowd, blocked] == [2, 0, 0]
}

/// By the same at other averages: of 40, of almost 40, of none, and of nothing with as many cars as there may be.
fn slow_stretches_are_charged() -> bool {
    let tariff = Tariff::BENCHMARK;
    let forty = toll(&tariff, 51, Some(&FORTY), false);
    let almost = toll(&tariff, 60, Some(&ALMOST_FORTY), false);
    let none = toll(&tariff, 51, None, false);
    let most = toll(&tariff, 500_000, Some(&NONE), false);
    [forty, almost, none, most] == [0, 200, 0, 499_900_005_000]
}

/// An average is rounded down in print, and compared as a fraction.
fn averages_are_whole_in_print() -> bool {
    let whole = [whole_lav(Some(&ALMOST_FORTY)), whole_lav(None)] == [39, -1];
    whole && below(&ALMOST_FORTY, 40) && !below(&FORTY, 40)
}

#[test]
fn tolls_of_the_benchmark(rt: HostRuntime) {
    let rows = [
        crowds_are_charged(),
        slow_stretches_are_charged(),
        averages_are_whole_in_print(),
    ];
    assert_eq!(rt; rows, [true; 3]);
}

fn tariff(crowd: u32, speed: u8, factor: u8) -> Tariff
    ensures { result ≡ record { crowd = crowd; speed = speed; factor = factor } }
{
    Tariff {
        crowd,
        speed,
        factor,
    }
}

/// By a steep tariff, by one that charges below 100 at two averages, by one without a factor, and by one that charges
/// nobody.
fn others_charge() -> bool {
    let steep = toll(&tariff(10, 60, 20), 500_000, Some(&THIRTY), false);
    let wide = tariff(0, 100, 1);
    let slow = toll(&wide, 1, Some(&THIRTY), false);
    let fast = toll(&wide, 1, Some(&HUNDRED), false);
    let free = toll(&tariff(50, 40, 0), 51, Some(&THIRTY), false);
    let still = toll(&tariff(50, 0, 2), 51, Some(&NONE), false);
    [steep, slow, fast, free, still] == [500_000_000_000, 1, 0, 0, 0]
}

#[test]
fn tolls_of_other_tariffs(rt: HostRuntime) {
    assert!(rt; others_charge());
}
