// What a report tells of its vehicle.
ghost use Rattle.std.specs.Prelude.{◌≡◌, ◌∷◌, ◌==◌, ◌&&◌, ◌||◌, not, nat_le, List, Some, None, if◌then◌else◌};
ghost use Rattle.road_time.specs.Tuples.{place_of, stretch_around, same_stretch, same_place};
ghost use Rattle.road_time.specs.declared.road.Report.{Report};
ghost use Rattle.road_time.specs.Stops.{left_by, last_seen};
ghost use Rattle.day_floor.specs.Told.{IsTracked};
ghost use Rattle.day_floor.specs.declared.tracked.Charge.TheVariants.{No, Last};

use road_time::{EXIT_LANE, LastSeen, Place, STOPPED_RUN};

/// Whether a report leaves a stay that is charged, and the expressway of that stay.
#[derive(Clone, Copy, Debug, PartialEq, Eq)]
pub enum Charge {
    No,
    Last(u8),
}

/// What a report tells of its vehicle: whether it begins a stay, whether the vehicle is stopped now,
/// the place where it was stopped and is no more, and the stay that it leaves with a charge.
#[derive(Clone, Copy, Debug, PartialEq, Eq)]
pub struct Tracked {
    pub begins: bool,
    pub stopped: bool,
    pub left: Option<Place>,
    pub charge: Charge,
}

/// What the first report of a vehicle tells.
pub(crate) const FIRST: Tracked = Tracked {
    begins: true,
    stopped: false,
    left: None,
    charge: Charge::No,
};

/// Whether a report begins a stay, where its vehicle was at another place before.
#[inline(always)]
fn begins_after(last: Place, here: Place) -> bool
    ensures { result
        ≡ (not (same_stretch (stretch_around last) (stretch_around here)) || (last.lane == 4 && not (here.lane == 4))) }
{
    last.stretch() != here.stretch() || last.lane == EXIT_LANE && here.lane != EXIT_LANE
}

/// The place that a vehicle leaves, if it stood there.
#[inline(always)]
pub(crate) fn left_from(last: LastSeen, here: Place) -> Option<Place>
    ensures is { result ≡ (if nat_le 4 last.run && not (same_place last.place here) then Some last.place else None) }
    ensures left { (own : List Report) → (r : Report) → last_seen own ≡ Some last → place_of r ≡ here
        → result ≡ left_by own r }
{
    if last.run >= STOPPED_RUN && last.place != here {
        Some(last.place)
    } else {
        None
    }
}

/// The expressway that a vehicle leaves, if the stay there is charged.
#[inline(always)]
fn charge_for(begins: bool, last: Place) -> Charge
    ensures { result ≡ (if begins && not (last.lane == 4) then Last last.xway else No) }
{
    if begins && last.lane != EXIT_LANE {
        Charge::Last(last.xway)
    } else {
        Charge::No
    }
}

/// What a report tells of a vehicle that was seen before.
#[inline(always)]
pub(crate) fn told(last: LastSeen, here: Place, now: LastSeen) -> Tracked
    ensures { (own : List Report) → (r : Report) → last_seen own ≡ Some last → place_of r ≡ here
        → last_seen (r ∷ own) ≡ Some now → IsTracked result own r }
{
    let begins = begins_after(last.place, here);
    Tracked {
        begins,
        stopped: now.run == STOPPED_RUN,
        left: left_from(last, here),
        charge: charge_for(begins, last.place),
    }
}
