// What is found for the events of a few worked rows, each written out with its findings.
ghost use Rattle.std.specs.Prelude.{◌≡◌, true};
ghost use Rattle.ways_expressway.specs.Checks.{can_be_run};

mod running;

use road_time::{Place, Report, Tariff, Tariffs};
use running::{at_once, one_by_one};
use std::alloc::Global;
use ways_expressway::{Carriage, Done, Finding, Job, LaneEvent};

/// The event that a report was seen: position, second, vehicle, speed, expressway, lane, direction, segment, feet,
/// and whether it begins a stay and its vehicle is stopped.
macro_rules! seen {
    (
        $position:expr, $time:expr, $vid:expr, $spd:expr, $xway:expr, $lane:expr,
        $dir:expr, $seg:expr, $pos:expr, $begins:expr, $stopped:expr
    ) => {
        LaneEvent::Seen {
            position: $position,
            report: Report {
                time: $time,
                vid: $vid,
                spd: $spd,
                xway: $xway,
                lane: $lane,
                dir: $dir,
                seg: $seg,
                pos: $pos,
            },
            begins: $begins,
            stopped: $stopped,
        }
    };
}

/// The event that a vehicle left the place of the pair.
macro_rules! left {
    ($position:expr, $time:expr, $vid:expr) => {
        LaneEvent::Leave {
            position: $position,
            time: $time,
            vid: $vid,
            place: Place {
                xway: 0,
                dir: 0,
                lane: 2,
                seg: 10,
                pos: 55000,
            },
        }
    };
}

/// What is told at a position.
macro_rules! told {
    ($position:expr, $lav:expr, $toll:expr, $alert:expr) => {
        Finding {
            position: $position,
            lav: $lav,
            toll: $toll,
            alert: $alert,
        }
    };
}

/// One report.
const ONE_REPORT: [LaneEvent; 1] = [seen!(0, 0, 7, 30, 0, 0, 0, 10, 52800, true, false)];

fn one_report() -> [LaneEvent; 1]
    ensures { can_be_run result ≡ true }
{
    ONE_REPORT
}

/// The pair clears: vehicle 2 leaves the place by a report of the same way, all of it for the first worker at each
/// width.
const PAIR_CLEARS: [LaneEvent; 12] = [
    seen!(0, 0, 1, 0, 0, 2, 0, 10, 55000, true, false),
    seen!(1, 0, 2, 0, 0, 2, 0, 10, 55000, true, false),
    seen!(2, 30, 1, 0, 0, 2, 0, 10, 55000, false, false),
    seen!(3, 30, 2, 0, 0, 2, 0, 10, 55000, false, false),
    seen!(4, 60, 1, 0, 0, 2, 0, 10, 55000, false, false),
    seen!(5, 60, 2, 0, 0, 2, 0, 10, 55000, false, false),
    seen!(6, 90, 1, 0, 0, 2, 0, 10, 55000, false, true),
    seen!(7, 90, 2, 0, 0, 2, 0, 10, 55000, false, true),
    left!(8, 150, 2),
    seen!(8, 150, 2, 30, 0, 2, 0, 10, 55440, false, false),
    seen!(9, 180, 201, 50, 0, 1, 0, 10, 52800, true, false),
    seen!(10, 240, 202, 50, 0, 1, 0, 10, 52800, true, false),
];

fn pair_clears() -> [LaneEvent; 12]
    ensures { can_be_run result ≡ true }
{
    PAIR_CLEARS
}

/// Stopped on another way, for one worker of all ways.
const STOPPED_ELSEWHERE: [LaneEvent; 12] = [
    seen!(0, 0, 1, 0, 0, 2, 0, 10, 55000, true, false),
    seen!(1, 0, 2, 0, 0, 2, 0, 10, 55000, true, false),
    seen!(2, 30, 1, 0, 0, 2, 0, 10, 55000, false, false),
    seen!(3, 30, 2, 0, 0, 2, 0, 10, 55000, false, false),
    seen!(4, 60, 1, 0, 0, 2, 0, 10, 55000, false, false),
    seen!(5, 60, 2, 0, 0, 2, 0, 10, 55000, false, false),
    seen!(6, 90, 1, 0, 0, 2, 0, 10, 55000, false, true),
    seen!(7, 90, 2, 0, 0, 2, 0, 10, 55000, false, true),
    left!(8, 130, 2),
    seen!(8, 130, 2, 50, 1, 0, 0, 3, 15840, true, false),
    seen!(9, 180, 3, 50, 0, 1, 0, 10, 52800, true, false),
    seen!(10, 240, 4, 50, 0, 1, 0, 10, 52800, true, false),
];

fn stopped_elsewhere() -> [LaneEvent; 12]
    ensures { can_be_run result ≡ true }
{
    STOPPED_ELSEWHERE
}

/// Stopped on another way, for the worker of the place, of three or of sixty-four.
const LEFT_FOR_ELSEWHERE: [LaneEvent; 11] = [
    seen!(0, 0, 1, 0, 0, 2, 0, 10, 55000, true, false),
    seen!(1, 0, 2, 0, 0, 2, 0, 10, 55000, true, false),
    seen!(2, 30, 1, 0, 0, 2, 0, 10, 55000, false, false),
    seen!(3, 30, 2, 0, 0, 2, 0, 10, 55000, false, false),
    seen!(4, 60, 1, 0, 0, 2, 0, 10, 55000, false, false),
    seen!(5, 60, 2, 0, 0, 2, 0, 10, 55000, false, false),
    seen!(6, 90, 1, 0, 0, 2, 0, 10, 55000, false, true),
    seen!(7, 90, 2, 0, 0, 2, 0, 10, 55000, false, true),
    left!(8, 130, 2),
    seen!(9, 180, 3, 50, 0, 1, 0, 10, 52800, true, false),
    seen!(10, 240, 4, 50, 0, 1, 0, 10, 52800, true, false),
];

fn left_for_elsewhere() -> [LaneEvent; 11]
    ensures { can_be_run result ≡ true }
{
    LEFT_FOR_ELSEWHERE
}

/// Stopped on another way, for the worker of the other way, of three or of sixty-four.
const SEEN_ELSEWHERE: [LaneEvent; 1] = [seen!(8, 130, 2, 50, 1, 0, 0, 3, 15840, true, false)];

fn seen_elsewhere() -> [LaneEvent; 1]
    ensures { can_be_run result ≡ true }
{
    SEEN_ELSEWHERE
}

fn moves<T: Send>() {}

/// Carriages, jobs and what was done of them may move between threads.
#[test]
fn jobs_move_between_threads(_rt: HostRuntime) {
    moves::<Carriage>();
    moves::<Job>();
    moves::<Done>();
}

/// What one report finds.
const OF_ONE_REPORT: [Finding; 1] = [told!(0, -1, 0, None)];

/// What is found where the pair clears: all on one way, which the first worker has at each width.
const OF_THE_PAIR: [Finding; 4] = [
    told!(0, -1, 0, None),
    told!(1, -1, 0, None),
    told!(9, 10, 0, Some(10)),
    told!(10, 20, 0, None),
];

/// What is found where one stopped on another way, by one worker of all ways.
const OF_ALL_WAYS: [Finding; 5] = [
    told!(0, -1, 0, None),
    told!(1, -1, 0, None),
    told!(8, -1, 0, None),
    told!(9, 0, 0, Some(10)),
    told!(10, 16, 0, None),
];

/// The same by the worker of the place. The leave is the one event of its job, then comes a minute that is blocked,
/// and then one that is not.
const OF_ITS_WAY: [Finding; 4] = [
    told!(0, -1, 0, None),
    told!(1, -1, 0, None),
    told!(9, 0, 0, Some(10)),
    told!(10, 16, 0, None),
];

/// The same by the worker of the other way.
const OF_THE_OTHER_WAY: [Finding; 1] = [told!(8, -1, 0, None)];

/// Whether events find this in one job.
fn finds(alloc: Global, tariffs: &Tariffs, events: &[LaneEvent], wanted: &[Finding]) -> bool
    requires { can_be_run events.now ≡ true }
{
    match at_once(alloc, tariffs, events) {
        Ok(found) => found.as_slice() == wanted,
        Err(_) => false,
    }
}

/// Whether they find it in a job for each.
fn finds_each(alloc: Global, tariffs: &Tariffs, events: &[LaneEvent], wanted: &[Finding]) -> bool
    requires { can_be_run events.now ≡ true }
{
    match one_by_one(alloc, tariffs, events) {
        Ok(found) => found.as_slice() == wanted,
        Err(_) => false,
    }
}

/// Whether each of the worked rows on one way finds what it is to find: one report; the pair clears, at widths 1, 3 and
/// 64; the same, a job for each event.
fn are_found_on_one_way(alloc: Global, plain: &Tariffs) -> [bool; 3] {
    let pair = pair_clears();
    [
        finds(alloc, plain, &one_report(), &OF_ONE_REPORT),
        finds(alloc, plain, &pair, &OF_THE_PAIR),
        finds_each(alloc, plain, &pair, &OF_THE_PAIR),
    ]
}

/// Whether each of the rows of one that stopped on another way does: at width 1; by the worker of the place, at widths 3
/// and 64; the same, a job for each event; by the worker of the other way, at widths 3 and 64.
fn are_found_on_two_ways(alloc: Global, plain: &Tariffs) -> [bool; 4] {
    let here = left_for_elsewhere();
    [
        finds(alloc, plain, &stopped_elsewhere(), &OF_ALL_WAYS),
        finds(alloc, plain, &here, &OF_ITS_WAY),
        finds_each(alloc, plain, &here, &OF_ITS_WAY),
        finds(alloc, plain, &seen_elsewhere(), &OF_THE_OTHER_WAY),
    ]
}

#[test]
fn runs_find_what_the_worked_rows_say(rt: HostRuntime) {
    let plain = Tariffs::new(rt.alloc());
    let one = are_found_on_one_way(rt.alloc(), &plain);
    let two = are_found_on_two_ways(rt.alloc(), &plain);
    assert_eq!(rt; (one, two), ([true; 3], [true; 4]));
}

/// Whether one report finds the same under another tariff.
fn is_found_under_another(alloc: Global) -> bool {
    let mut steep = Tariffs::new(alloc);
    let tariff = Tariff {
        crowd: 50,
        speed: 40,
        factor: 5,
    };
    steep.set(0, &tariff).is_ok() && finds(alloc, &steep, &one_report(), &OF_ONE_REPORT)
}

#[test]
fn one_report_finds_the_same_under_another_tariff(rt: HostRuntime) {
    assert!(rt; is_found_under_another(rt.alloc()));
}
