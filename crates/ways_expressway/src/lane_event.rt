// What a worker is told.
ghost use Rattle.std.specs.Prelude.{◌≡◌};

use road_time::{Place, Report};
use std::marker::Model;

/// What a worker is told: a report of one of its ways, with its position in the day, whether it begins a stay and
/// whether its vehicle is stopped there, or that a vehicle left a place of one where it stood, with the position and
/// second of the report by which it did.
#[derive(Clone, Copy, Debug, PartialEq, Eq)]
pub enum LaneEvent {
    Seen {
        position: u32,
        report: Report,
        begins: bool,
        stopped: bool,
    },
    Leave {
        position: u32,
        time: u32,
        vid: u32,
        place: Place,
    },
}

/// The events of a job, in order. Contracts see the list.
#[derive(Drop)]
pub struct Events {
    items: Vec<LaneEvent>,
}

impl Model for Events {
    ghost use Rattle.std.specs.Prelude.{List};
    ghost use Rattle.ways_expressway.specs.declared.lane_event.LaneEvent.{LaneEvent};

    ghost Value = { List LaneEvent };

    ghost view = { λ e. e.items.items };
}

impl Events {
    pub fn from_vec(items: Vec<LaneEvent>) -> Self
        ensures { result ≡ items.items }
    {
        Events { items }
    }

    pub fn into_vec(self) -> Vec<LaneEvent>
        ensures { result.items ≡ self }
    {
        self.items
    }

    pub fn items(&self) -> &[LaneEvent]
        ensures { result.now ≡ self.now }
    {
        self.items.as_slice()
    }
}
