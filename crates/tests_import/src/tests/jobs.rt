// The jobs that an import starts, as its crew tells them.
use super::crews::{Kind, STOPPED, Task, by};
use super::importing::Way;
use std::alloc::Global;
use std::sync::Wait;
use std::thread::Threads;
use ways_crews::Started;
use ways_expressway::LaneEvent;

/// What an event tells, with its position: that a vehicle was seen, or that one left its place.
#[derive(Clone, Copy, PartialEq, Eq)]
pub enum Tells {
    Seen(u32),
    Left(u32),
}

/// A job's worker, its number, and what its events tell.
pub type JobRow = (u8, u32, &'static [Tells]);

/// By three workers, all lines in one round.
const BY_THREE: [JobRow; 2] = [
    (
        0,
        0,
        &[
            Tells::Seen(0),
            Tells::Seen(1),
            Tells::Seen(2),
            Tells::Seen(3),
            Tells::Seen(4),
            Tells::Seen(5),
            Tells::Seen(6),
            Tells::Seen(7),
            Tells::Left(8),
            Tells::Seen(9),
            Tells::Seen(10),
        ],
    ),
    (2, 1, &[Tells::Seen(8)]),
];

/// By three workers, four lines in a round.
const BY_FOUR_LINES: [JobRow; 4] = [
    (
        0,
        0,
        &[
            Tells::Seen(0),
            Tells::Seen(1),
            Tells::Seen(2),
            Tells::Seen(3),
        ],
    ),
    (
        0,
        1,
        &[
            Tells::Seen(4),
            Tells::Seen(5),
            Tells::Seen(6),
            Tells::Seen(7),
        ],
    ),
    (0, 2, &[Tells::Left(8), Tells::Seen(9), Tells::Seen(10)]),
    (2, 3, &[Tells::Seen(8)]),
];

/// By one worker, a line in a round.
const BY_EACH_LINE_ALONE: [JobRow; 11] = [
    (0, 0, &[Tells::Seen(0)]),
    (0, 1, &[Tells::Seen(1)]),
    (0, 2, &[Tells::Seen(2)]),
    (0, 3, &[Tells::Seen(3)]),
    (0, 4, &[Tells::Seen(4)]),
    (0, 5, &[Tells::Seen(5)]),
    (0, 6, &[Tells::Seen(6)]),
    (0, 7, &[Tells::Seen(7)]),
    (0, 8, &[Tells::Left(8), Tells::Seen(8)]),
    (0, 9, &[Tells::Seen(9)]),
    (0, 10, &[Tells::Seen(10)]),
];

/// By three workers or more, a line in a round.
const BY_EACH_LINE: [JobRow; 12] = [
    (0, 0, &[Tells::Seen(0)]),
    (0, 1, &[Tells::Seen(1)]),
    (0, 2, &[Tells::Seen(2)]),
    (0, 3, &[Tells::Seen(3)]),
    (0, 4, &[Tells::Seen(4)]),
    (0, 5, &[Tells::Seen(5)]),
    (0, 6, &[Tells::Seen(6)]),
    (0, 7, &[Tells::Seen(7)]),
    (0, 8, &[Tells::Left(8)]),
    (2, 9, &[Tells::Seen(8)]),
    (0, 10, &[Tells::Seen(9)]),
    (0, 11, &[Tells::Seen(10)]),
];

/// What an event tells.
fn told_by(event: &LaneEvent) -> Tells {
    match event {
        LaneEvent::Seen { position, .. } => Tells::Seen(*position),
        LaneEvent::Leave { position, .. } => Tells::Left(*position),
    }
}

/// Whether these events tell this.
fn tell(events: &[LaneEvent], wanted: &[Tells]) -> bool {
    let same = events
        .iter()
        .zip(wanted)
        .all(|(event, told)| told_by(event) == *told);
    events.len() == wanted.len() && same
}

/// Whether these jobs were started.
pub fn are_jobs(jobs: &[Started], rows: &[JobRow]) -> bool {
    let mut same = jobs.len() == rows.len();
    for (job, row) in jobs.iter().zip(rows) {
        let named = job.worker == row.0 && job.number == row.1;
        same = same && named && tell(job.events.items(), row.2);
    }
    same
}

/// By how many workers, how many lines may wait, and the jobs of the day of two who stop.
type Start = (u8, u32, &'static [JobRow]);

const STARTED: [Start; 5] = [
    (3, 65_536, &BY_THREE),
    (3, 4, &BY_FOUR_LINES),
    (1, 1, &BY_EACH_LINE_ALONE),
    (3, 1, &BY_EACH_LINE),
    (64, 1, &BY_EACH_LINE),
];

/// Whether these jobs are started by each crew, and the day is stored by a late one in turns.
fn are_started<R: Threads + Wait + Sync + Copy + Drop>(rt: R, alloc: Global, row: &Start) -> bool {
    let (width, backlog, jobs) = *row;
    let way = Way {
        width,
        turns: None,
        backlog,
    };
    let turns = Way {
        turns: Some(1),
        ..way
    };
    let day = Task::Day(STOPPED, way);
    by(rt, alloc, Kind::Soon, day, Some(jobs))
        && by(rt, alloc, Kind::Late, day, Some(jobs))
        && by(rt, alloc, Kind::Standing, day, Some(jobs))
        && by(rt, alloc, Kind::Threads, day, Some(jobs))
        && by(rt, alloc, Kind::Late, Task::Day(STOPPED, turns), None)
}

/// The number of the first row that is not so, their count where all are.
fn first_wrong<R: Threads + Wait + Sync + Copy + Drop>(
    rt: R,
    alloc: Global,
    rows: &[Start],
) -> usize {
    for (at, row) in rows.iter().enumerate() {
        if !are_started(rt, alloc, row) {
            return at;
        }
    }
    rows.len()
}

#[test]
fn an_import_starts_the_jobs_of_its_rounds(rt: HostRuntime) {
    assert_eq!(rt; first_wrong(rt, rt.alloc(), &STARTED), 5);
}
