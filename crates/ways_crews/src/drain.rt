// What is out comes home, over any crew.
ghost use Rattle.std.specs.Prelude.{◌≡◌, [], Bool, true, List, Option, map};
ghost use Rattle.ways_expressway.specs.declared.job.Job.{Job as TheJob};
ghost use Rattle.ways_crews.specs.Told.{CrewTold};
ghost use Rattle.ways_crews.specs.Callers.{HasOut, IsListingWhereTold};

use crate::crew::Crew;
use crate::open_jobs::finish_among;
use std::collections::VecDeque;

/// Finishes all that is out, in the order of the starts, whether or not memory ran out for a job.
pub fn finish_all<C: Crew>(crew: &mut C, mut tickets: VecDeque<C::Ticket>)
    requires { (tasks : List (C.Ticket × TheJob)) × (map (λ t. t.0) tasks ≡ tickets.items)
        × HasOut C.out C.number C.holds C.gave crew.old tasks }
    ensures idle { C.out crew.new ≡ [] }
    ensures told { (before : Option CrewTold) (jobs : List TheJob) (refused : Bool)
        → IsListingWhereTold before jobs (C.out crew.old) refused (C.jobs crew.old)
        → IsListingWhereTold before jobs [] true (C.jobs crew.new) }
    ensures which { C.which crew.new ≡ C.which crew.old }
{
    while let Some(ticket) = tickets.pop_front() {
        let _done = finish_among(crew, ticket);
    }
}
