// Whoever does the jobs.
ghost use Rattle.std.specs.Prelude.{◌≡◌, ◌<◌, ◌≢◌, true, ℕ, List, length, Contains};
ghost use Rattle.ways_expressway.specs.declared.lane_event.LaneEvent.{LaneEvent};
ghost use Rattle.ways_expressway.specs.declared.job.Job.{Job as TheJob};
ghost use Rattle.ways_expressway.specs.Ready.{IsReady};
ghost use Rattle.ways_expressway.specs.Results.{IsResultOf, IsResultShaped};
ghost use Rattle.ways_crews.specs.Numbers.{IsOneMore};
ghost use Rattle.ways_crews.specs.Told.{WhereTold, ListsJob, ForgetsJob, AnswersFindings, IsOutWhereTold};

use ways_expressway::{Done, Job};

/// Does jobs. `out` are the numbers, 0 to 63, of the tickets whose jobs are out, `number` is a ticket's, `holds` says
/// that it holds a job under a number, and `gave` that a ticket is its own. `exact` says whether it answers what `run`
/// does, `which` names the crew. Where it tells them, `jobs` are the jobs that it lists, and `answers` the findings
/// that it answered.
pub trait Crew {
    ghost use Rattle.std.specs.Prelude.{ℕ, Bool, List, Option};
    ghost use Rattle.ways_expressway.specs.declared.job.Job.{Job};
    ghost use Rattle.ways_expressway.specs.declared.finding.Finding.{Finding};
    ghost use Rattle.ways_crews.specs.Told.{CrewTold};

    type Ticket: Drop;

    type Name;

    ghost exact: { Bool };

    ghost out: { Self → List ℕ };

    ghost number: { Self.Ticket → ℕ };

    ghost holds: { Self → ℕ → Job → Type 0 };

    ghost gave: { Self → Self.Ticket → Type 0 };

    ghost which: { Self → Self.Name };

    ghost jobs: { Self → Option CrewTold };

    ghost answers: { Self → Option (List Finding) };

    /// Takes a job, and gives its ticket. It asks what `run` asks of the job, and that fewer than 64 jobs are out.
    fn start(&mut self, job: Job) -> Self::Ticket
        requires ready { (before : List LaneEvent) × IsReady job.carriage before job.events }
        requires room { length (out self.old) < 64 }
        ensures out { IsOneMore (number result) (out self.old) (out self.new) }
        ensures held { holds self.new (number result) job }
        ensures given { gave self.new result }
        ensures others { (n : ℕ) (j : TheJob) → n ≢ number result → holds self.old n j → holds self.new n j }
        ensures tickets { (t : Self.Ticket) → number t ≢ number result → gave self.old t → gave self.new t }
        ensures which { which self.new ≡ which self.old }
        ensures jobs { WhereTold (ListsJob (number result) job) (jobs self.old) (jobs self.new) }
        ensures unlisted { (n : ℕ) → IsOutWhereTold (out self.new) n (jobs self.new) }
        ensures answers { answers self.new ≡ answers self.old };

    /// What was done of a ticket's job. It waits for it where it must.
    fn finish(&mut self, ticket: Self::Ticket) -> Done
        requires out { Contains (out self.old) (number ticket) }
        requires given { gave self.old ticket }
        ensures out { IsOneMore (number ticket) (out self.new) (out self.old) }
        ensures shape { (j : TheJob) → holds self.old (number ticket) j → IsResultShaped j result }
        ensures run { exact ≡ true → (j : TheJob) → holds self.old (number ticket) j → IsResultOf j result }
        ensures others { (n : ℕ) (j : TheJob) → n ≢ number ticket → holds self.old n j → holds self.new n j }
        ensures tickets { (t : Self.Ticket) → number t ≢ number ticket → gave self.old t → gave self.new t }
        ensures which { which self.new ≡ which self.old }
        ensures jobs { WhereTold (ForgetsJob (number ticket) result) (jobs self.old) (jobs self.new) }
        ensures unlisted { (n : ℕ) → IsOutWhereTold (out self.new) n (jobs self.new) }
        ensures answers { WhereTold (AnswersFindings result) (answers self.old) (answers self.new) };
}
