// Four helpers, each held in turn.
ghost use Rattle.std.specs.Prelude.{◌≡◌, []};

use super::super::crews::{finish_each, start_all};
use road_time::NoMemory;
use std::alloc::Global;
use std::sync::atomic::{AtomicU64, Ordering};
use std::sync::{Arc, Wait};
use std::thread::Threads;
use ways_crews::{Crew, Crewed, Gate, beside, standing};

/// How many jobs and helpers there are.
const FOUR: u32 = 4;

/// The worker whose jobs are started.
const WORKER: u8 = 3;

/// How often one looks for another at most.
const LOOKS: u32 = 300_000_000;

/// Looks for so long that a thread with nothing to do is asleep behind them.
const PAUSE: u32 = 20_000_000;

/// Holds four jobs until all have come, and then lets them pass in the order of their numbers, with a pause before
/// each. It counts no job that comes under another worker than its own.
#[derive(Drop)]
struct InTurn {
    came: Arc<AtomicU64, Global>,
    passed: Arc<AtomicU64, Global>,
}

/// Looks at a word until it holds at least so much, and says whether it did within so many looks.
fn is_reached(word: &AtomicU64, wanted: u64, looks: u32) -> bool {
    for _ in 0..looks {
        if word.load(Ordering::SeqCst) >= wanted {
            return true;
        }
    }
    false
}

impl InTurn {
    fn new(alloc: Global) -> Result<InTurn, NoMemory> {
        Ok(InTurn {
            came: Arc::new(alloc, AtomicU64::new(0))?,
            passed: Arc::new(alloc, AtomicU64::new(0))?,
        })
    }

    /// The same gate.
    fn share(&self) -> Result<InTurn, NoMemory> {
        Ok(InTurn {
            came: Arc::try_clone(&self.came)?,
            passed: Arc::try_clone(&self.passed)?,
        })
    }

    /// Whether all jobs have come.
    fn all_came(&self) -> bool {
        is_reached(&self.came, u64::from(FOUR), LOOKS)
    }

    /// Whether so many jobs have passed in turn.
    fn has_passed(&self, jobs: u64) -> bool {
        is_reached(&self.passed, jobs, LOOKS)
    }

    /// Lets some time pass.
    fn pause(&self) {
        is_reached(&self.passed, u64::MAX, PAUSE);
    }
}

impl Gate for InTurn {
    fn pass(&self, worker: u8, number: u32) {
        if worker != WORKER {
            return;
        }
        let jobs = u64::from(number);
        self.came.fetch_add(1, Ordering::SeqCst);
        if self.all_came() && self.has_passed(jobs) {
            self.pause();
            self.passed.store(jobs.saturating_add(1), Ordering::SeqCst);
        }
    }
}

/// Four jobs over a crew, whose answers are asked for when all have come to the gate: whether they came, passed in turn
/// and were answered each with its own findings.
fn are_held_and_answered<C: Crew>(
    alloc: Global,
    gate: &InTurn,
    crew: &mut C,
) -> Result<bool, NoMemory>
    requires { C.out crew.old ≡ [] }
{
    gate.pause();
    let tickets = start_all(alloc, crew, FOUR)?;
    let came = gate.all_came();
    let right = finish_each(crew, tickets, FOUR, 0);
    gate.pause();
    Ok(came && right && gate.has_passed(u64::from(FOUR)))
}

/// The same over a crew of eight cells beside four helpers: also whether all helpers came back.
fn are_held_beside<R: Threads + Wait + Sync + Copy + Drop>(
    rt: R,
    alloc: Global,
) -> Result<bool, NoMemory> {
    let gate = InTurn::new(alloc)?;
    let Crewed { crew, helpers } = standing(rt, alloc, 8, 4, false, gate.share()?)?;
    let mut crew = crew;
    let (helpers, right) = beside(&rt, &gate, helpers, || {
        let right = are_held_and_answered(alloc, &gate, &mut crew);
        crew.stop();
        right
    });
    Ok(right? && helpers.len() == 4)
}

/// Four helpers that sleep are woken by four jobs, each held in turn while the caller sleeps, sleep again, and come back
/// after the stop.
#[test]
fn four_helpers_are_held_in_turn_and_come_back(rt: HostRuntime) {
    assert!(rt; are_held_beside(rt, rt.alloc()) == Ok(true));
}
