//! What the averages of a few notes are: calls whose answers are proved.
ghost use Rattle.std.specs.Prelude.{◌≡◌, Some, None, IfOk};

use crate::speeds::Speeds;
use road_time::{Frac, NoMemory, Stretch};
use std::alloc::Global;

/// A stretch eastbound.
const HERE: Stretch = Stretch {
    xway: 0,
    dir: 0,
    seg: 10,
};

/// The cars of a minute, and the average speed that its tolls go by.
#[derive(Clone, Copy, Debug, PartialEq, Eq)]
pub struct VehiclesSeen {
    pub cars: u32,
    pub lav: Option<Frac>,
}

/// The speeds 10 and 20 of one vehicle and 90 of another in the first minute, as the second minute sees them, and the
/// seventh.
pub fn two_vehicles(alloc: Global) -> Result<(VehiclesSeen, VehiclesSeen), NoMemory>
    ensures { IfOk result (λ seen. seen
        ≡ (record { cars = 2; lav = Some (record { num = 1260; den = 24 }) }, record { cars = 0; lav = None })) }
{
    let mut speeds = Speeds::new(alloc);
    speeds.note(HERE, 1, 10)?;
    speeds.note(HERE, 1, 20)?;
    speeds.note(HERE, 2, 90)?;
    speeds.roll(2);
    let second = VehiclesSeen {
        cars: speeds.cars(HERE),
        lav: speeds.lav(HERE),
    };
    speeds.roll(7);
    let seventh = VehiclesSeen {
        cars: speeds.cars(HERE),
        lav: speeds.lav(HERE),
    };
    Ok((second, seventh))
}

/// A speed of 20 in the first minute and of 31 in the fourth, as the sixth minute sees them, and the seventh.
pub fn two_minutes(alloc: Global) -> Result<(Option<Frac>, Option<Frac>), NoMemory>
    ensures { IfOk result (λ lavs. lavs
        ≡ (Some (record { num = 612; den = 24 }), Some (record { num = 372; den = 12 }))) }
{
    let mut speeds = Speeds::new(alloc);
    speeds.note(HERE, 1, 20)?;
    speeds.roll(4);
    speeds.note(HERE, 2, 31)?;
    speeds.roll(6);
    let sixth = speeds.lav(HERE);
    speeds.roll(7);
    let seventh = speeds.lav(HERE);
    Ok((sixth, seventh))
}

fn moves<T: Send>() {}

/// Averages may move between threads.
pub fn speeds_move() {
    moves::<Speeds>();
}
