// The crew that keeps one job for the caller, and runs each further one in a thread of its own.
ghost use Rattle.std.specs.Prelude.{◌≡◌, [], List};
ghost use Rattle.ways_expressway.specs.declared.lane_event.LaneEvent.{LaneEvent};
ghost use Rattle.ways_expressway.specs.declared.job.Job.{Job as TheJob};
ghost use Rattle.ways_expressway.specs.Ready.{IsReady};
ghost use Rattle.ways_expressway.specs.Results.{IsResultOf};
ghost use Rattle.ways_crews.specs.Threads.{WillFit};

use crate::crew::Crew;
use crate::gate::{Gate, NoGate};
use crate::held::{Held, RunsJob};
use crate::places::ThreadPlaces;
use std::alloc::Global;
use std::snapshot::Snapshot;
use std::thread;
use std::thread::Threads;
use ways_expressway::{Done, Job, run};

/// Runs a job in a thread of its own, after a clone of the gate was passed there. Where no thread or no clone can be
/// had, the caller passes the gate and runs the job.
pub fn begin<R: Threads, G: Gate + Clone + Send + Drop + 'static>(
    rt: &R,
    alloc: Global,
    gate: &G,
    job: Job,
) -> Held
    requires { (before : List LaneEvent) × IsReady job.carriage before job.events }
    ensures { WillFit result job }
{
    let worker = job.worker;
    let number = job.number;
    let promise = RunsJob(Snapshot::of(&job));
    match gate.clone() {
        Err(_) => {
            gate.pass(worker, number);
            Held::Here(run(alloc, job))
        }
        Ok(theirs) => {
            match thread::spawn_with(
                rt,
                promise,
                move || -> Done
                    requires { (before : List LaneEvent) × IsReady job.carriage before job.events }
                    ensures { IsResultOf job result }
                {
                    theirs.pass(worker, number);
                    run(alloc, job)
                },
            ) {
                Ok(child) => Held::There(child),
                Err(refused) => Held::Here((refused.value)()),
            }
        }
    }
}

/// Whether a job waits for the caller.
fn is_kept(held: &Held) -> bool {
    matches!(held, Held::Waits(_))
}

/// What was done of a job. Where the job waits for the caller it passes the gate and is run; else this waits for its
/// thread.
fn end<R: Threads, G: Gate>(rt: &R, alloc: Global, gate: &G, held: Held) -> Done
    requires { (job : TheJob) × WillFit held job }
    ensures { (job : TheJob) → WillFit held job → IsResultOf job result }
{
    match held {
        Held::Here(done) => done,
        Held::Waits(job) => {
            gate.pass(job.worker, job.number);
            run(alloc, job)
        }
        Held::There(child) => child.join(rt),
    }
}

/// A gate that a thread of its own can pass: each such gate has one line, a call of `begin`.
pub trait Starter: Gate {
    /// Runs a job in a thread of its own that passes the gate.
    fn begin<R: Threads>(&self, rt: &R, alloc: Global, job: Job) -> Held
        requires { (before : List LaneEvent) × IsReady job.carriage before job.events }
        ensures { WillFit result job };
}

impl Starter for NoGate {
    fn begin<R: Threads>(&self, rt: &R, alloc: Global, job: Job) -> Held {
        begin(rt, alloc, self, job)
    }
}

/// Keeps a job for the caller, or runs it in a thread of its own.
fn hold<R: Threads, G: Starter>(rt: &R, alloc: Global, gate: &G, keep: bool, job: Job) -> Held
    requires { (before : List LaneEvent) × IsReady job.carriage before job.events }
    ensures { WillFit result job }
{
    if keep {
        Held::Waits(job)
    } else {
        gate.begin(rt, alloc, job)
    }
}

/// A ticket, with its job or the thread that has it.
#[derive(Drop)]
pub struct ThreadTicket {
    number: u8,
    held: Held,
}

/// Keeps a job for the caller, which runs it as it is finished, and runs each further one in a thread of its own, so
/// that as many work as there are jobs out. The gate is passed before each job. `keeps` says whether a job waits for
/// the caller.
#[derive(Drop)]
pub struct ThreadCrew<R, G> {
    rt: R,
    alloc: Global,
    gate: G,
    places: ThreadPlaces,
    keeps: bool,
}

impl<R: Threads, G: Starter> ThreadCrew<R, G> {
    /// No job is out.
    pub fn new(rt: R, alloc: Global, gate: G) -> ThreadCrew<R, G>
        ensures { ⟦<ThreadCrew<R, G> as Crew>⟧.out result ≡ [] }
    {
        ThreadCrew {
            rt,
            alloc,
            gate,
            places: ThreadPlaces::new(),
            keeps: false,
        }
    }
}

impl<R: Threads, G: Starter> Crew for ThreadCrew<R, G> {
    ghost use Rattle.std.specs.Prelude.{true, None, ℕ};
    ghost use Rattle.ways_expressway.specs.declared.job.Job.{Job};
    ghost use Rattle.ways_crews.specs.Places.{out_of, HasAt};
    ghost use Rattle.ways_crews.specs.Threads.{WillFit, Remembers};

    type Ticket = ThreadTicket;

    type Name = ();

    ghost exact = { true };

    ghost out = { λ s. out_of s.places.items };

    ghost number = { λ t. t.number };

    ghost holds = { λ s n job. HasAt Remembers s.places.items n job };

    ghost gave = { λ s t. (job : Job) → HasAt Remembers s.places.items t.number job → WillFit t.held job };

    ghost which = { λ s. tt };

    ghost jobs = { λ s. None };

    ghost answers = { λ s. None };

    fn start(&mut self, job: Job) -> ThreadTicket {
        let number = self.places.put(Snapshot::of(&job));
        let held = hold(&self.rt, self.alloc, &self.gate, !self.keeps, job);
        self.keeps = true;
        ThreadTicket { number, held }
    }

    fn finish(&mut self, ticket: ThreadTicket) -> Done {
        let ThreadTicket { number, held } = ticket;
        self.places.take(number);
        self.keeps = self.keeps && !is_kept(&held);
        end(&self.rt, self.alloc, &self.gate, held)
    }
}
