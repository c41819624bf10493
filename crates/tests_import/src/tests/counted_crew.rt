// A crew round another one, for tests.
ghost use Rattle.std.specs.Prelude.{◌≡◌};

use ways_crews::Crew;
use ways_expressway::{Done, Job};

/// Counts the jobs that are started and those that are finished, and has another crew do them.
#[derive(Drop)]
pub struct CountedCrew<C> {
    crew: C,
    pub started: u64,
    pub finished: u64,
}

impl<C: Crew> CountedCrew<C> {
    /// None was started yet.
    pub fn new(crew: C) -> CountedCrew<C>
        ensures { ⟦<CountedCrew<C> as Crew>⟧.out result ≡ C.out crew }
    {
        CountedCrew {
            crew,
            started: 0,
            finished: 0,
        }
    }
}

impl<C: Crew> Crew for CountedCrew<C> {
    type Ticket = C::Ticket;

    type Name = C::Name;

    ghost exact = { C.exact };

    ghost out = { λ s. C.out s.crew };

    ghost number = { C.number };

    ghost holds = { λ s n job. C.holds s.crew n job };

    ghost gave = { λ s t. C.gave s.crew t };

    ghost which = { λ s. C.which s.crew };

    ghost jobs = { λ s. C.jobs s.crew };

    ghost answers = { λ s. C.answers s.crew };

    fn start(&mut self, job: Job) -> C::Ticket {
        self.started = self.started.saturating_add(1);
        self.crew.start(job)
    }

    fn finish(&mut self, ticket: C::Ticket) -> Done {
        self.finished = self.finished.saturating_add(1);
        self.crew.finish(ticket)
    }
}
