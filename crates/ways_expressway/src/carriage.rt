// What one worker keeps of its ways, as one thing that moves.
ghost use Rattle.std.specs.Prelude.{◌≡◌, ◌++◌, ◌∷◌, [], List, IfOk, OnOk};
ghost use Rattle.std.specs.List.{cons_option};
ghost use Rattle.std.specs.Option.{option_map};
ghost use Rattle.ways_expressway.specs.declared.lane_event.LaneEvent.{LaneEvent as Event};
ghost use Rattle.ways_expressway.specs.Findings.{shown, findings};
ghost use Rattle.ways_expressway.specs.Stands.{StandsFor};
ghost use Rattle.ways_expressway.specs.Ready.{IsReady};

use crate::finding::Finding;
use crate::lane_event::LaneEvent;
use crate::parts::Parts;
use road_time::{NoMemory, Tariffs};
use std::alloc::Global;
use std::marker::Model;

/// What one worker keeps of its ways: the sliding averages, who stands where, and the tariffs. It stands for the events
/// that were run on it. It moves as one pointer.
#[derive(Drop)]
pub struct Carriage {
    parts: Box<Parts>,
}

impl Model for Carriage {
    ghost use Rattle.std.specs.Prelude.{box_value};
    ghost use Rattle.ways_expressway.specs.Kept.{KeptWays};

    ghost Value = { KeptWays };

    ghost view = { λ c. box_value c.parts };
}

impl Carriage {
    /// No event was run. It keeps a copy of the tariffs, and the one error is want of memory.
    pub fn new(alloc: Global, tariffs: &Tariffs) -> Result<Self, NoMemory>
        ensures stands { IfOk result (λ c. StandsFor c []) }
        ensures tariffs { IfOk result (λ c. c.tariffs ≡ tariffs.now) }
    {
        let parts = Parts::new(alloc, tariffs)?;
        Ok(Carriage {
            parts: Box::new(alloc, parts)?,
        })
    }

    /// Runs the next event, and gives what it finds. The one error is want of memory.
    pub(crate) fn next(&mut self, event: &LaneEvent) -> Result<Option<Finding>, NoMemory>
        requires { (before : List Event) × IsReady self.old before (event.now ∷ []) }
        ensures tariffs { OnOk result (self.new.tariffs ≡ self.old.tariffs) }
        ensures carried { OnOk result ((before : List Event) → IsReady self.old before (event.now ∷ [])
            → StandsFor self.new (before ++ event.now ∷ [])) }
        ensures found { IfOk result (λ found. (before : List Event) → IsReady self.old before (event.now ∷ [])
            → cons_option (option_map shown found) [] ≡ findings before (event.now ∷ []) self.old.tariffs) }
    {
        self.parts.next(event)
    }
}
