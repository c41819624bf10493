// The jobs that a caller has out, over any crew: starts and finishes in any order.
ghost use Rattle.std.specs.Prelude.{◌≡◌, ◌<◌, ◌++◌, ◌∷◌, [], true, List, length};
ghost use Rattle.ways_expressway.specs.declared.lane_event.LaneEvent.{LaneEvent};
ghost use Rattle.ways_expressway.specs.declared.job.Job.{Job as TheJob};
ghost use Rattle.ways_expressway.specs.Ready.{IsReady};
ghost use Rattle.ways_expressway.specs.Results.{IsResultOf, IsResultShaped};
ghost use Rattle.ways_crews.specs.Numbers.{IsOneMore};
ghost use Rattle.ways_crews.specs.Told.{WhereTold, ListsJob, ForgetsJob, AnswersFindings};
ghost use Rattle.ways_crews.specs.Callers.{HasOut};

use crate::crew::Crew;
use ways_expressway::{Done, Job};

/// Starts a job beside those that are out.
pub fn start_beside<C: Crew>(crew: &mut C, job: Job) -> C::Ticket
    requires ready { (before : List LaneEvent) × IsReady job.carriage before job.events }
    requires room { (tasks : List (C.Ticket × TheJob)) × HasOut C.out C.number C.holds C.gave crew.old tasks
        × (length tasks < 64) }
    ensures out { (tasks : List (C.Ticket × TheJob)) → HasOut C.out C.number C.holds C.gave crew.old tasks
        → HasOut C.out C.number C.holds C.gave crew.new (tasks ++ (result, job) ∷ []) }
    ensures numbers { IsOneMore (C.number result) (C.out crew.old) (C.out crew.new) }
    ensures which { C.which crew.new ≡ C.which crew.old }
    ensures jobs { WhereTold (ListsJob (C.number result) job) (C.jobs crew.old) (C.jobs crew.new) }
    ensures answers { C.answers crew.new ≡ C.answers crew.old }
{
    crew.start(job)
}

/// Finishes one of those that are out.
pub fn finish_among<C: Crew>(crew: &mut C, ticket: C::Ticket) -> Done
    requires { (before : List (C.Ticket × TheJob)) × (job : TheJob) × (after : List (C.Ticket × TheJob))
        × HasOut C.out C.number C.holds C.gave crew.old (before ++ (ticket, job) ∷ after) }
    ensures out { (before : List (C.Ticket × TheJob)) (job : TheJob) (after : List (C.Ticket × TheJob))
        → HasOut C.out C.number C.holds C.gave crew.old (before ++ (ticket, job) ∷ after)
        → HasOut C.out C.number C.holds C.gave crew.new (before ++ after) }
    ensures shape { (before : List (C.Ticket × TheJob)) (job : TheJob) (after : List (C.Ticket × TheJob))
        → HasOut C.out C.number C.holds C.gave crew.old (before ++ (ticket, job) ∷ after) → IsResultShaped job result }
    ensures run { C.exact ≡ true → (before : List (C.Ticket × TheJob)) (job : TheJob) (after : List (C.Ticket × TheJob))
        → HasOut C.out C.number C.holds C.gave crew.old (before ++ (ticket, job) ∷ after) → IsResultOf job result }
    ensures numbers { IsOneMore (C.number ticket) (C.out crew.new) (C.out crew.old) }
    ensures which { C.which crew.new ≡ C.which crew.old }
    ensures jobs { WhereTold (ForgetsJob (C.number ticket) result) (C.jobs crew.old) (C.jobs crew.new) }
    ensures answers { WhereTold (AnswersFindings result) (C.answers crew.old) (C.answers crew.new) }
{
    crew.finish(ticket)
}
