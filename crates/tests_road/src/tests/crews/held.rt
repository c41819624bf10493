// A job that is held until the next one has passed.
use super::are_answered;
use road_time::NoMemory;
use std::alloc::Global;
use std::sync::Arc;
use std::sync::atomic::{AtomicU64, Ordering};
use std::thread::Threads;
use ways_crews::{Crew, Gate, Held, InlineCrew, Starter, ThreadCrew, begin};
use ways_expressway::{Done, Job};

/// The worker whose jobs are looked at.
const WORKER: u8 = 3;

/// Holds job 0 until job 1 has passed, for so many looks, and notes whether it saw that. It looks at no job that comes
/// under another worker than its own.
#[derive(Clone, Drop)]
pub(crate) struct SecondFirst {
    passed: Arc<AtomicU64, Global>,
    saw: Arc<AtomicU64, Global>,
}

const LOOKS: u32 = 300_000_000;

impl Gate for SecondFirst {
    fn pass(&self, worker: u8, number: u32) {
        if worker != WORKER {
            return;
        }
        if number != 0 {
            self.passed.store(1, Ordering::SeqCst);
            return;
        }
        for _ in 0..LOOKS {
            if self.passed.load(Ordering::SeqCst) == 1 {
                self.saw.store(1, Ordering::SeqCst);
                return;
            }
        }
    }
}

impl SecondFirst {
    pub(crate) fn new(alloc: Global) -> Result<SecondFirst, NoMemory> {
        Ok(SecondFirst {
            passed: Arc::new(alloc, AtomicU64::new(0))?,
            saw: Arc::new(alloc, AtomicU64::new(0))?,
        })
    }

    /// The same gate.
    pub(crate) fn share(&self) -> Result<SecondFirst, NoMemory> {
        Ok(SecondFirst {
            passed: Arc::try_clone(&self.passed)?,
            saw: Arc::try_clone(&self.saw)?,
        })
    }

    /// Whether job 0 saw job 1 pass.
    pub(crate) fn has_seen(&self) -> bool {
        self.saw.load(Ordering::SeqCst) == 1
    }
}

impl Starter for SecondFirst {
    fn begin<R: Threads>(&self, rt: &R, alloc: Global, job: Job) -> Held {
        begin(rt, alloc, self, job)
    }
}

/// A crew whose caller passes the gate before each start.
#[derive(Drop)]
struct OnCaller<C> {
    gate: SecondFirst,
    crew: C,
}

impl<C: Crew> Crew for OnCaller<C> {
    type Ticket = C::Ticket;

    type Name = C::Name;

    ghost exact = { C.exact };

    ghost out = { λ s. C.out s.crew };

    ghost number = { C.number };

    ghost holds = { λ s n job. C.holds s.crew n job };

    ghost gave = { λ s t. C.gave s.crew t };

    ghost which = { λ s. C.which s.crew };

    ghost jobs = { λ s. C.jobs s.crew };

    ghost answers = { λ s. C.answers s.crew };

    fn start(&mut self, job: Job) -> C::Ticket {
        self.gate.pass(job.worker, job.number);
        self.crew.start(job)
    }

    fn finish(&mut self, ticket: C::Ticket) -> Done {
        self.crew.finish(ticket)
    }
}

/// Two jobs over threads of their own that pass the gate: whether they were answered, and job 0 saw job 1 pass.
fn sees_in_threads<R: Threads + Copy + Drop>(
    rt: R,
    alloc: Global,
) -> Result<(bool, bool), NoMemory> {
    let gate = SecondFirst::new(alloc)?;
    let mut threads = ThreadCrew::new(rt, alloc, gate.share()?);
    let right = are_answered(alloc, &mut threads, (WORKER, WORKER), 0)?;
    Ok((right, gate.has_seen()))
}

/// A job that is held sees the next one pass in a thread of its own.
#[test]
fn a_held_job_sees_the_next_one_pass_in_threads(rt: HostRuntime) {
    assert!(rt; sees_in_threads(rt, rt.alloc()) == Ok((true, true)));
}

/// The same where the caller runs both.
fn sees_on_caller(alloc: Global) -> Result<(bool, bool), NoMemory> {
    let gate = SecondFirst::new(alloc)?;
    let mut on_caller = OnCaller {
        gate: gate.share()?,
        crew: InlineCrew::new(alloc, false),
    };
    let right = are_answered(alloc, &mut on_caller, (WORKER, WORKER), 0)?;
    Ok((right, gate.has_seen()))
}

/// It sees none pass where the caller runs both.
#[test]
fn a_held_job_sees_none_pass_on_the_caller(rt: HostRuntime) {
    assert!(rt; sees_on_caller(rt.alloc()) == Ok((true, false)));
}
