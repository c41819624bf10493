// A day by every plan, and one whose keeper fails: what else an import answers is told by the rows of the commands.
use super::crews::{Day, Kind, Task, by};
use super::days::{charged_on_leaving, told_with};
use super::importing::{Given, Way, imported_day};
use day_import::Outcome;
use road_io::MemSink;
use std::alloc::Global;
use std::sync::Wait;
use std::thread::Threads;
use ways_crews::InlineCrew;

/// One report.
const ONE: &[u8] = b"0,0,7,30,0,0,0,10,52800,-1,-1,-1,-1,-1,-1\n";

/// Two questions about what was paid on other days, and one about a travel time.
const ASKING: &[u8] = b"3,0,7,-1,0,-1,-1,-1,-1,1,-1,-1,-1,-1,69\n\
4,0,-1,-1,-1,-1,-1,-1,-1,-1,-1,-1,-1,-1,-1\n\
3,0,7,-1,0,-1,-1,-1,-1,2,-1,-1,-1,-1,2\n";

/// What the vehicle of the charge is told behind its crowd.
const CHARGED: &str = "0,100,60,30,2\n0,100,90,-1,0\n0,100,150,-1,0\n2,160,9,2\n";

/// By which workers, in rounds, and in turns that a number draws.
const PLANS: [(u8, Option<u64>); 9] = [
    (1, None),
    (1, Some(1)),
    (1, Some(5)),
    (3, None),
    (3, Some(1)),
    (3, Some(5)),
    (64, None),
    (64, Some(1)),
    (64, Some(5)),
];

/// The day of a charge is the same by every number of workers, in rounds and in turns, and by two crews, where few
/// tuples may wait.
fn same_by_every_plan<R: Threads + Wait + Sync + Copy + Drop>(rt: R, alloc: Global) -> bool {
    let Ok(input) = charged_on_leaving(alloc) else {
        return false;
    };
    let Ok(told) = told_with(alloc, 0, CHARGED) else {
        return false;
    };
    let given = Given {
        input: input.as_slice(),
        read: 7,
        written: 100,
        fails: &[],
    };
    let day = Day {
        given,
        told: told.as_slice(),
        counts: [56, 55, 2],
    };
    is_same_by_each(rt, alloc, day, &PLANS)
}

/// Whether a day is so by each of these plans.
fn is_same_by_each<R: Threads + Wait + Sync + Copy + Drop>(
    rt: R,
    alloc: Global,
    day: Day<'_>,
    plans: &[(u8, Option<u64>)],
) -> bool {
    for (width, turns) in plans {
        let way = Way {
            width: *width,
            turns: *turns,
            backlog: 4,
        };
        let task = Task::Day(day, way);
        if !by(rt, alloc, Kind::Soon, task, None) || !by(rt, alloc, Kind::Late, task, None) {
            return false;
        }
    }
    true
}

/// A day's work by one worker, in rounds.
const ALONE: Way = Way {
    width: 1,
    turns: None,
    backlog: 65_536,
};

/// Whether an import that makes so many calls of the keeper fails where this one does, if it makes it; and whether
/// something is written if that is the last one or none of them, and else nothing.
fn is_right_at<R: Threads>(rt: &R, alloc: Global, input: &[u8], calls: u32, call: u32) -> bool {
    let given = Given {
        input,
        read: 100,
        written: 65_536,
        fails: &[call],
    };
    let Ok(mut sink) = MemSink::new(alloc, 4096, given.written) else {
        return false;
    };
    let mut crew = InlineCrew::new(alloc, false);
    let outcome = imported_day(rt, alloc, ALONE, given, &mut sink, &mut crew);
    let failed = outcome == Outcome::KeeperFault;
    let written = !sink.bytes().is_empty();
    failed == (call < calls) && written == (call.saturating_add(1) >= calls)
}

/// The first of seven calls that is not so, 7 where all are.
fn first_wrong<R: Threads>(rt: &R, alloc: Global, input: &[u8], calls: u32) -> u32 {
    for call in 0..7u32 {
        if !is_right_at(rt, alloc, input, calls, call) {
            return call;
        }
    }
    7
}

#[test]
fn one_day_by_every_plan(rt: HostRuntime) {
    assert!(rt; same_by_every_plan(rt, rt.alloc()));
}

/// The import of one day makes four calls of the keeper, that of another one six.
#[test]
fn a_keeper_fails_at_each_call(rt: HostRuntime) {
    let four = first_wrong(&rt, rt.alloc(), ONE, 4);
    let six = first_wrong(&rt, rt.alloc(), ASKING, 6);
    assert_eq!(rt; [four, six], [7, 7]);
}
