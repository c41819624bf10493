// The crew that answers a toll of its own, for tests.
ghost use Rattle.std.specs.Prelude.{◌≡◌, ◌≤◌, ℕ, [], IfSome, true};
ghost use Rattle.road_time.specs.declared.tariff.TheConstants.{GREATEST_TOLL};
ghost use Rattle.ways_expressway.specs.declared.job.Job.{Job as TheJob};
ghost use Rattle.ways_expressway.specs.Results.{IsResultOf, IsResultShaped};
ghost use Rattle.ways_crews.specs.Told.{AnswersFindings};
ghost use Rattle.ways_crews.specs.Marks.{marked, have_toll};

use crate::crew::Crew;
use crate::places::{Places, Ticket, TicketEntry};
use road_time::NoMemory;
use std::alloc::Global;
use ways_expressway::{Done, Finding, Findings, Job, run};

/// Runs each job as it is started, and answers each finding with a toll of its own: a crew that is not exact, for
/// tests.
#[derive(Drop)]
pub struct MarkCrew {
    alloc: Global,
    toll: u64,
    places: Places,
    answered: Vec<Finding>,
    ghost possible: { toll ≤ GREATEST_TOLL },
    ghost tolls: { have_toll toll answered.items ≡ true },
}

/// Sets the toll of each finding.
fn set_tolls(findings: &mut [Finding], toll: u64)
    ensures { findings.new ≡ marked toll findings.old }
{
    for finding in findings.iter_mut() {
        finding.toll = toll;
    }
}

/// Findings with a toll in each.
fn with_tolls(findings: Findings, toll: u64) -> Findings
    ensures { result ≡ marked toll findings }
{
    let mut all = findings.into_vec();
    set_tolls(all.as_mut_slice(), toll);
    Findings::from_vec(all)
}

/// What was done of a job, with a toll in each finding.
fn mark(done: Done, toll: u64) -> Done
    requires { toll ≤ GREATEST_TOLL }
    ensures shape { (job : TheJob) → IsResultOf job done → IsResultShaped job result }
    ensures tolls { have_toll toll result.findings ≡ true }
{
    let Done {
        worker,
        number,
        carriage,
        findings,
        result,
    } = done;
    Done {
        worker,
        number,
        carriage,
        findings: with_tolls(findings, toll),
        result,
    }
}

/// Keeps what is answered, behind what was answered before. Where it cannot, the answer is that memory ran out.
fn keep(answered: &mut Vec<Finding>, done: Done) -> Done
    ensures shape { (job : TheJob) → IsResultShaped job done → IsResultShaped job result }
    ensures answers { AnswersFindings result answered.old.items answered.new.items }
    ensures tolls { (toll : ℕ) → have_toll toll answered.old.items ≡ true → have_toll toll done.findings ≡ true
        → have_toll toll answered.new.items ≡ true }
{
    match done.result {
        Err(_) => done,
        Ok(()) => match answered.extend_from_slice(done.findings.items()) {
            Ok(()) => done,
            Err(_) => Done {
                worker: done.worker,
                number: done.number,
                carriage: done.carriage,
                findings: done.findings,
                result: Err(NoMemory),
            },
        },
    }
}

impl MarkCrew {
    /// No job is out, and none was answered.
    pub fn new(alloc: Global, toll: u64) -> MarkCrew
        requires { toll ≤ GREATEST_TOLL }
        ensures out { ⟦<MarkCrew as Crew>⟧.out result ≡ [] }
        ensures which { ⟦<MarkCrew as Crew>⟧.which result ≡ toll }
        ensures answers { IfSome (⟦<MarkCrew as Crew>⟧.answers result) (λ answered. answered ≡ []) }
    {
        MarkCrew {
            alloc,
            toll,
            places: Places::new(),
            answered: Vec::new(alloc),
        }
    }

    /// The findings that were answered, each with the crew's toll.
    pub fn answered(&self) -> &[Finding]
        ensures answers { IfSome (⟦<MarkCrew as Crew>⟧.answers self.now) (λ answered. result.now ≡ answered) }
        ensures tolls { have_toll (⟦<MarkCrew as Crew>⟧.which self.now) result.now ≡ true }
    {
        self.answered.as_slice()
    }
}

impl Crew for MarkCrew {
    ghost use Rattle.std.specs.Prelude.{false, Some, None};
    ghost use Rattle.ways_crews.specs.Places.{out_of, HasAt, EachAt};
    ghost use Rattle.ways_crews.specs.Entries.{IsShapedFor};
    ghost use Rattle.ways_crews.specs.Marks.{HasToll};

    type Ticket = Ticket;

    type Name = u64;

    ghost exact = { false };

    ghost out = { λ s. out_of s.places.items };

    ghost number = { λ t. t.number };

    ghost holds = { λ s n job. HasAt IsShapedFor s.places.items n job };

    ghost gave = { λ s t. EachAt (HasToll s.toll) s.places.items t.number };

    ghost which = { λ s. s.toll };

    ghost jobs = { λ s. None };

    ghost answers = { λ s. Some s.answered.items };

    fn start(&mut self, job: Job) -> Ticket {
        let done = mark(run(self.alloc, job), self.toll);
        Ticket {
            number: self.places.put(TicketEntry::Ran(done)),
        }
    }

    fn finish(&mut self, ticket: Ticket) -> Done {
        match self.places.take(ticket.number) {
            TicketEntry::Ran(done) => keep(&mut self.answered, done),
            _ => unreachable!(),
        }
    }
}
