// Who stands at a place, and how many do.
ghost use Rattle.std.specs.Prelude.{◌≡◌, ◌-◌, if◌then◌else◌};
ghost use Rattle.road_time.specs.Tuples.{same_place};
ghost use Rattle.road_time.specs.declared.road.Place.{Place as PlaceValue};
ghost use Rattle.ways_expressway.specs.KeptAccidents.{how_many_at};

use indexmap::IndexMap;
use road_time::Place;

/// A vehicle that stands at a place.
#[derive(Clone, Copy, Debug, PartialEq, Eq, Hash)]
pub struct Stopped {
    pub vid: u32,
    pub place: Place,
}

/// How many vehicles stand at the place.
pub(crate) fn count_at(counts: &IndexMap<Place, u32>, place: Place) -> u32
    ensures { result ≡ how_many_at counts.now.entries place }
{
    counts.get(&place).copied().unwrap_or(0)
}

/// One vehicle less at the place.
pub(crate) fn one_less(counts: &mut IndexMap<Place, u32>, place: Place)
    ensures { (p : PlaceValue) → how_many_at counts.new.entries p ≡
        (if same_place place p then how_many_at counts.old.entries place - 1 else how_many_at counts.old.entries p) }
{
    let count = count_at(counts, place);
    if count < 2 {
        counts.swap_remove(&place);
    } else {
        if let Some(kept) = counts.get_mut(&place) {
            *kept = count - 1;
        }
    }
}
