// Two jobs, over any crew.
ghost use Rattle.std.specs.Prelude.{◌≡◌, [], ◌∷◌, true, false, List, is_err};
ghost use Rattle.ways_expressway.specs.declared.lane_event.LaneEvent.{LaneEvent};
ghost use Rattle.ways_expressway.specs.Ready.{IsReady};
ghost use Rattle.ways_expressway.specs.Results.{IsResultOf, IsResultShaped};
ghost use Rattle.ways_crews.specs.Told.{WhereTold};
ghost use Rattle.ways_crews.specs.Callers.{ListsAll, ListsFirst};

use crate::crew::Crew;
use crate::open_jobs::{finish_among, start_beside};
use ways_expressway::{Done, Job};

/// Starts two jobs, and finishes the second first.
pub fn run_both<C: Crew>(crew: &mut C, first: Job, second: Job) -> (Done, Done)
    requires first { (before : List LaneEvent) × IsReady first.carriage before first.events }
    requires second { (before : List LaneEvent) × IsReady second.carriage before second.events }
    requires idle { C.out crew.old ≡ [] }
    ensures shape { IsResultShaped first result.0 × IsResultShaped second result.1 }
    ensures run { C.exact ≡ true → IsResultOf first result.0 × IsResultOf second result.1 }
    ensures idle { C.out crew.new ≡ [] }
    ensures all { is_err result.0.result ≡ false → is_err result.1.result ≡ false
        → WhereTold (ListsAll (first ∷ second ∷ [])) (C.jobs crew.old) (C.jobs crew.new) }
    ensures first { WhereTold (ListsFirst (first ∷ second ∷ [])) (C.jobs crew.old) (C.jobs crew.new) }
    ensures which { C.which crew.new ≡ C.which crew.old }
{
    let one = start_beside(crew, first);
    let two = start_beside(crew, second);
    let later = finish_among(crew, two);
    let sooner = finish_among(crew, one);
    (sooner, later)
}
