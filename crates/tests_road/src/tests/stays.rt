// What a tracker tells of the reports of a few worked rows, each written out with its answer.
use day_floor::{Charge, Tracked, Tracker};
use road_time::{Place, Report};
use std::alloc::Global;

/// A place to the east: expressway, lane, segment and feet.
type East = (u8, u8, u8, u32);

/// Where the pair stands.
const PAIR: East = (0, 2, 10, 55000);

const NOTHING: Tracked = Tracked {
    begins: false,
    stopped: false,
    left: None,
    charge: Charge::No,
};

const BEGINS: Tracked = Tracked {
    begins: true,
    ..NOTHING
};

const STOPPED: Tracked = Tracked {
    stopped: true,
    ..NOTHING
};

/// A vehicle leaves the pair's place and stays in the stretch.
const LEAVES: Tracked = Tracked {
    left: Some(Place {
        xway: 0,
        dir: 0,
        lane: 2,
        seg: 10,
        pos: 55000,
    }),
    ..NOTHING
};

/// A vehicle begins a stay and is charged for the one before, on the first expressway or the second.
const CHARGED_ON_FIRST: Tracked = Tracked {
    charge: Charge::Last(0),
    ..BEGINS
};

const CHARGED_ON_SECOND: Tracked = Tracked {
    charge: Charge::Last(1),
    ..BEGINS
};

/// It leaves the pair's place as it does so.
const LEAVES_CHARGED: Tracked = Tracked {
    charge: Charge::Last(0),
    begins: true,
    ..LEAVES
};

/// A report's time, vehicle and place, and what is told of it.
type Seen = (u32, u32, East, Tracked);

/// What a row shows, and its reports.
type Row = (&'static str, &'static [Seen]);

const ROWS: [Row; 7] = [
    (
        "four equal reports",
        &[
            (0, 1, PAIR, BEGINS),
            (30, 1, PAIR, NOTHING),
            (60, 1, PAIR, NOTHING),
            (90, 1, PAIR, STOPPED),
            (120, 1, (0, 2, 10, 55440), LEAVES),
        ],
    ),
    (
        "the pair clears",
        &[
            (0, 1, PAIR, BEGINS),
            (0, 2, PAIR, BEGINS),
            (30, 1, PAIR, NOTHING),
            (30, 2, PAIR, NOTHING),
            (60, 1, PAIR, NOTHING),
            (60, 2, PAIR, NOTHING),
            (90, 1, PAIR, STOPPED),
            (90, 2, PAIR, STOPPED),
            (150, 2, (0, 2, 10, 55440), LEAVES),
            (180, 201, (0, 1, 10, 52800), BEGINS),
            (240, 202, (0, 1, 10, 52800), BEGINS),
        ],
    ),
    (
        "one of two leaves in the same second",
        &[
            (0, 1, PAIR, BEGINS),
            (0, 2, PAIR, BEGINS),
            (30, 1, PAIR, NOTHING),
            (30, 2, PAIR, NOTHING),
            (60, 1, PAIR, NOTHING),
            (60, 2, PAIR, NOTHING),
            (90, 1, PAIR, STOPPED),
            (90, 2, PAIR, STOPPED),
            (90, 2, (0, 2, 10, 55440), LEAVES),
            (120, 3, (0, 1, 10, 52800), BEGINS),
        ],
    ),
    (
        "stopped on another way",
        &[
            (0, 1, PAIR, BEGINS),
            (0, 2, PAIR, BEGINS),
            (30, 1, PAIR, NOTHING),
            (30, 2, PAIR, NOTHING),
            (60, 1, PAIR, NOTHING),
            (60, 2, PAIR, NOTHING),
            (90, 1, PAIR, STOPPED),
            (90, 2, PAIR, STOPPED),
            (130, 2, (1, 0, 3, 15840), LEAVES_CHARGED),
            (180, 3, (0, 1, 10, 52800), BEGINS),
            (240, 4, (0, 1, 10, 52800), BEGINS),
        ],
    ),
    (
        "stops broken by another way",
        &[
            (0, 1, PAIR, BEGINS),
            (0, 2, PAIR, BEGINS),
            (30, 1, PAIR, NOTHING),
            (30, 2, PAIR, NOTHING),
            (60, 1, PAIR, NOTHING),
            (60, 2, (1, 1, 3, 15840), CHARGED_ON_FIRST),
            (90, 1, PAIR, STOPPED),
            (90, 2, PAIR, CHARGED_ON_SECOND),
            (120, 2, PAIR, NOTHING),
            (180, 3, (0, 1, 10, 52800), BEGINS),
        ],
    ),
    (
        "charged on leaving",
        &[
            (60, 100, (0, 1, 10, 52800), BEGINS),
            (90, 100, (0, 1, 11, 58080), CHARGED_ON_FIRST),
            (120, 100, (0, 4, 11, 60000), NOTHING),
            (150, 100, (1, 0, 5, 26400), BEGINS),
        ],
    ),
    (
        "exit is free",
        &[
            (60, 100, (0, 1, 10, 52800), BEGINS),
            (90, 100, (0, 4, 10, 54120), NOTHING),
            (120, 100, (0, 0, 10, 54120), BEGINS),
        ],
    ),
];

/// A report at a place to the east.
fn at(time: u32, vid: u32, place: East) -> Report {
    Report {
        time,
        vid,
        spd: 50,
        xway: place.0,
        lane: place.1,
        dir: 0,
        seg: place.2,
        pos: place.3,
    }
}

/// Whether each report of a row has its answer.
fn are_told(tracker: &mut Tracker, rows: &[Seen]) -> bool {
    for (time, vid, place, want) in rows {
        let report = at(*time, *vid, *place);
        if tracker.left(&report) != want.left || tracker.see(&report) != Ok(*want) {
            return false;
        }
    }
    true
}

/// The number of the first row that has another answer, their count where none has.
fn first_wrong(alloc: Global, rows: &[Row]) -> usize {
    for (at, (_, reports)) in rows.iter().enumerate() {
        if !are_told(&mut Tracker::new(alloc), reports) {
            return at;
        }
    }
    rows.len()
}

fn moves<T: Send>() {}

#[test]
fn a_tracker_tells_the_worked_rows(rt: HostRuntime) {
    moves::<Tracker>();
    assert_eq!(rt; first_wrong(rt.alloc(), &ROWS), 7);
}
