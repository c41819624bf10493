// The crew that runs a job as it is finished.
ghost use Rattle.std.specs.Prelude.{◌≡◌, [], IfSome, IfNone};
ghost use Rattle.ways_crews.specs.Told.{TellsNone};

use crate::crew::Crew;
use crate::entry::{run_later, run_waiting};
use crate::job_list::{JobList, Started};
use crate::places::{Places, Ticket};
use std::alloc::Global;
use ways_expressway::{Done, Job};

/// Keeps each job, and runs it as it is finished.
#[derive(Drop)]
pub struct LateCrew {
    alloc: Global,
    places: Places,
    list: JobList,
}

impl LateCrew {
    /// No job is out. With `tell` it tells its jobs.
    pub fn new(alloc: Global, tell: bool) -> LateCrew
        ensures out { ⟦<LateCrew as Crew>⟧.out result ≡ [] }
        ensures jobs { TellsNone tell (⟦<LateCrew as Crew>⟧.jobs result) }
    {
        LateCrew {
            alloc,
            places: Places::new(),
            list: JobList::new(alloc, tell),
        }
    }

    /// The jobs that it lists, none where it does not tell them.
    pub fn jobs(&self) -> &[Started]
        ensures told { IfSome (⟦<LateCrew as Crew>⟧.jobs self.now) (λ told. result.now ≡ told.listed) }
        ensures untold { IfNone (⟦<LateCrew as Crew>⟧.jobs self.now) (result.now ≡ []) }
    {
        self.list.items()
    }
}

impl Crew for LateCrew {
    ghost use Rattle.std.specs.Prelude.{true, None};
    ghost use Rattle.ways_crews.specs.Places.{out_of, HasAt, EachAt};
    ghost use Rattle.ways_crews.specs.Entries.{IsOf, IsYetToRun, is_unlisted};
    ghost use Rattle.ways_crews.specs.Tellings.{told_by_list};

    type Ticket = Ticket;

    type Name = ();

    ghost exact = { true };

    ghost out = { λ s. out_of s.places.items };

    ghost number = { λ t. t.number };

    ghost holds = { λ s n job. HasAt IsOf s.places.items n job };

    ghost gave = { λ s t. EachAt IsYetToRun s.places.items t.number };

    ghost which = { λ s. tt };

    ghost jobs = { λ s. told_by_list is_unlisted s.list s.places.items };

    ghost answers = { λ s. None };

    fn start(&mut self, job: Job) -> Ticket {
        let listed = self.list.list(&job);
        let entry = run_later(job, listed);
        Ticket {
            number: self.places.put(entry),
        }
    }

    fn finish(&mut self, ticket: Ticket) -> Done {
        let entry = self.places.take(ticket.number);
        run_waiting(self.alloc, entry)
    }
}
