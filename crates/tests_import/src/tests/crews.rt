// What is done by a crew, and by which.
ghost use Rattle.std.specs.Prelude.{◌≡◌, []};
ghost use Rattle.ways_crews.specs.Places.{out_of};

use super::counted_crew::CountedCrew;
use super::days::{STOPPED_ON_ANOTHER_WAY, STOPPED_TOLD};
use super::importing::{Given, Way, imported_day, is_stored};
use super::jobs::{JobRow, are_jobs};
use super::offices::run_by;
use super::slow::{Waited, is_seen};
use road_io::MemSink;
use std::alloc::Global;
use std::sync::Wait;
use std::thread::Threads;
use ways_crews::{
    Crew, Crewed, InlineCrew, LateCrew, NoGate, StandingCrew, Started, ThreadCrew, beside, standing,
};

/// A day: what is given of it, what it is told, and how many tuples, notices and tolls are stored.
#[derive(Clone, Copy)]
pub struct Day<'a> {
    pub given: Given<'a>,
    pub told: &'a [u8],
    pub counts: [u64; 3],
}

/// The day of two who stop.
pub const STOPPED: Day<'static> = Day {
    given: Given {
        input: STOPPED_ON_ANOTHER_WAY,
        read: 50,
        written: 7,
        fails: &[],
    },
    told: STOPPED_TOLD,
    counts: [11, 6, 0],
};

/// What is done: words of `office` that end well with a line, a day that is stored with its notices, or one whose
/// notices are written by the time of each read.
#[derive(Clone, Copy)]
pub enum Task<'a> {
    Words(&'a [&'a str], &'a [u8]),
    Day(Day<'a>, Way),
    Waited(Waited<'a>, Way),
}

/// Whether a day is stored by a crew with its notices.
fn is_day<C: Crew, R: Threads>(rt: &R, alloc: Global, day: Day<'_>, way: Way, crew: &mut C) -> bool
    requires idle { C.out crew.old ≡ [] }
{
    let Ok(mut sink) = MemSink::new(alloc, 4096, day.given.written.max(1)) else {
        return false;
    };
    let outcome = imported_day(rt, alloc, way, day.given, &mut sink, crew);
    sink.bytes() == day.told && is_stored(outcome, day.counts)
}

/// Whether words end well by a crew, with this line.
fn is_line<C: Crew, R: Threads + Sync>(
    rt: &R,
    alloc: Global,
    words: &[&str],
    line: &[u8],
    crew: &mut C,
) -> bool
    requires idle { C.out crew.old ≡ [] }
{
    match run_by(rt, alloc, words, b"", 400, crew) {
        Ok((sink, status)) => sink.bytes() == line && status == 0,
        Err(_) => false,
    }
}

/// Whether a crew does a task.
fn is_done<C: Crew, R: Threads + Sync>(rt: &R, alloc: Global, task: Task<'_>, crew: &mut C) -> bool
    requires idle { C.out crew.old ≡ [] }
{
    match task {
        Task::Words(words, line) => is_line(rt, alloc, words, line, crew),
        Task::Day(day, way) => is_day(rt, alloc, day, way, crew),
        Task::Waited(waited, way) => is_seen(rt, alloc, waited, way, crew),
    }
}

/// Whether these jobs were started, where some are wanted.
fn are_told(jobs: &[Started], rows: Option<&[JobRow]>) -> bool {
    match rows {
        Some(rows) => are_jobs(jobs, rows),
        None => true,
    }
}

/// Whether so many were started and finished.
fn are_counted(started: u64, finished: u64, rows: Option<&[JobRow]>) -> bool {
    match rows {
        Some(rows) => started == rows.len() as u64 && finished == started,
        None => true,
    }
}

/// A crew that runs a job as it is started, as it is finished, in cells beside helpers, or in a thread of its own.
#[derive(Clone, Copy)]
pub enum Kind {
    Soon,
    Late,
    Standing,
    Threads,
}

/// Whether a crew that runs a job as it is started does a task, and is told these jobs.
fn is_done_soon<R: Threads + Sync>(
    rt: &R,
    alloc: Global,
    task: Task<'_>,
    rows: Option<&[JobRow]>,
) -> bool {
    let mut crew = InlineCrew::new(alloc, rows.is_some());
    is_done(rt, alloc, task, &mut crew) && are_told(crew.jobs(), rows)
}

/// The same by one that runs it as it is finished.
fn is_done_late<R: Threads + Sync>(
    rt: &R,
    alloc: Global,
    task: Task<'_>,
    rows: Option<&[JobRow]>,
) -> bool {
    let mut crew = LateCrew::new(alloc, rows.is_some());
    is_done(rt, alloc, task, &mut crew) && are_told(crew.jobs(), rows)
}

/// The same by a standing crew, which is told to stop then.
fn is_done_and_stops<R: Threads + Wait + Sync + Copy + Drop>(
    rt: R,
    alloc: Global,
    task: Task<'_>,
    rows: Option<&[JobRow]>,
    crew: StandingCrew<R, NoGate>,
) -> bool
    requires { out_of crew.places ≡ [] }
{
    let mut crew = crew;
    let done = is_done(&rt, alloc, task, &mut crew);
    crew.stop();
    done && are_told(crew.jobs(), rows)
}

/// The same by one of 64 cells, beside its four helpers.
fn is_done_beside<R: Threads + Wait + Sync + Copy + Drop>(
    rt: R,
    alloc: Global,
    task: Task<'_>,
    rows: Option<&[JobRow]>,
) -> bool {
    let Ok(Crewed { crew, helpers }) = standing(rt, alloc, 64, 4, rows.is_some(), NoGate) else {
        return false;
    };
    let (_, done) = beside(
        &rt,
        &NoGate,
        helpers,
        move || -> bool
            requires { out_of crew.places ≡ [] }
        { is_done_and_stops(rt, alloc, task, rows, crew) },
    );
    done
}

/// The same by one that runs jobs in threads of their own: it starts as many, and each is finished.
fn is_done_in_threads<R: Threads + Sync + Copy + Drop>(
    rt: R,
    alloc: Global,
    task: Task<'_>,
    rows: Option<&[JobRow]>,
) -> bool {
    let mut crew = CountedCrew::new(ThreadCrew::new(rt, alloc, NoGate));
    is_done(&rt, alloc, task, &mut crew) && are_counted(crew.started, crew.finished, rows)
}

/// Whether a crew of a kind does a task, and is told these jobs, where some are wanted.
pub fn by<R: Threads + Wait + Sync + Copy + Drop>(
    rt: R,
    alloc: Global,
    kind: Kind,
    task: Task<'_>,
    rows: Option<&[JobRow]>,
) -> bool {
    match kind {
        Kind::Soon => is_done_soon(&rt, alloc, task, rows),
        Kind::Late => is_done_late(&rt, alloc, task, rows),
        Kind::Standing => is_done_beside(rt, alloc, task, rows),
        Kind::Threads => is_done_in_threads(rt, alloc, task, rows),
    }
}
