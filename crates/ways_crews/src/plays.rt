// What each step at the cells tells. These types are for the proofs alone.
ghost use Rattle.ways_crews.specs.Views.{new_helper};
ghost use Rattle.ways_crews.specs.Steps.{opens, announces, takes_job, gives_back, collects, shuts, raises_stop};
ghost use Rattle.ways_crews.specs.Steps.{looks, rings};

use crate::cells::{Parcel, View};
use atomic_table::{Join, Play, Split};

pub struct Opens;

impl Play<Option<Parcel>, View> for Opens {
    ghost then = { opens };
}

pub struct Announces;

impl Play<Option<Parcel>, View> for Announces {
    ghost then = { announces };
}

pub struct TakesJob;

impl Play<Option<Parcel>, View> for TakesJob {
    ghost then = { takes_job };
}

pub struct GivesBack;

impl Play<Option<Parcel>, View> for GivesBack {
    ghost then = { gives_back };
}

pub struct Collects;

impl Play<Option<Parcel>, View> for Collects {
    ghost then = { collects };
}

pub struct Shuts;

impl Play<Option<Parcel>, View> for Shuts {
    ghost then = { shuts };
}

pub struct StopsCrew;

impl Play<Option<Parcel>, View> for StopsCrew {
    ghost then = { raises_stop };
}

pub struct LooksForStop;

impl Play<Option<Parcel>, View> for LooksForStop {
    ghost then = { looks };
}

pub struct Rings;

impl Play<Option<Parcel>, View> for Rings {
    ghost then = { rings };
}

/// A helper's seat beside the crew's.
pub struct Hires;

impl Split<View> for Hires {
    ghost left = { λ v. v };

    ghost right = { λ v. new_helper };
}

impl Join<View> for Hires {
    ghost both = { λ v w. v };

    ghost spent = { new_helper };
}
