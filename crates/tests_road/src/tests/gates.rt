// Which tuples are admitted, and in which order they are given.
use road_time::{Limits, Report, Tuple};
use std::alloc::Global;
use tuples_text::{AdmitFault, Cause, Gatekeeper, Sorter};

/// A report of a vehicle at a Time.
fn report(time: u32, vid: u32) -> Tuple {
    Tuple::Report(Report {
        time,
        vid,
        spd: 30,
        xway: 0,
        lane: 0,
        dir: 0,
        seg: 10,
        pos: 52_800,
    })
}

/// A tuple's Time and vehicle, and whether it is admitted.
type Step = (u32, u32, Result<(), AdmitFault>);

const ONE_VEHICLE: Limits = Limits {
    vehicles: 1,
    ..Limits::DAY
};

const LATE: Result<(), AdmitFault> = Err(AdmitFault::Refused(Cause::Late(10, 9)));

const OFTEN: Result<(), AdmitFault> = Err(AdmitFault::Refused(Cause::TooOften(1, 1)));

const MANY: Result<(), AdmitFault> = Err(AdmitFault::Refused(Cause::Vehicles(1)));

const FAR: Result<(), AdmitFault> = Err(AdmitFault::Refused(Cause::Late(30, 0)));

/// A day by its limits, its lateness and its first tuples.
type Day = (Limits, u8, [Step; 5]);

const DAYS: [Day; 4] = [
    (
        Limits::DAY,
        0,
        [
            (10, 1, Ok(())),
            (9, 2, LATE),
            (10, 3, Ok(())),
            (10, 4, Ok(())),
            (10, 5, Ok(())),
        ],
    ),
    (
        Limits::DAY,
        0,
        [
            (0, 1, Ok(())),
            (10, 1, Ok(())),
            (20, 1, Ok(())),
            (30, 1, Ok(())),
            (40, 1, OFTEN),
        ],
    ),
    (
        ONE_VEHICLE,
        0,
        [
            (0, 7, Ok(())),
            (0, 8, MANY),
            (0, 7, Ok(())),
            (30, 7, Ok(())),
            (30, 8, MANY),
        ],
    ),
    (
        Limits::DAY,
        29,
        [
            (30, 1, Ok(())),
            (0, 2, FAR),
            (1, 2, Ok(())),
            (60, 1, Ok(())),
            (60, 2, Ok(())),
        ],
    ),
];

/// The number of the first tuple of a day that is not admitted as it is to be, their count where all are.
fn first_misjudged(alloc: Global, limits: &Limits, lateness: u8, steps: &[Step]) -> usize {
    if lateness > 120 {
        return 0;
    }
    let mut gatekeeper = Gatekeeper::new(alloc, limits, lateness);
    for (at, (time, vid, want)) in steps.iter().enumerate() {
        if gatekeeper.admit(&report(*time, *vid)) != *want {
            return at;
        }
    }
    steps.len()
}

/// Whether the tuples of each day are admitted as they are to be.
fn are_judged(alloc: Global, days: &[Day]) -> bool {
    for (limits, lateness, steps) in days {
        if first_misjudged(alloc, limits, *lateness, steps) != 5 {
            return false;
        }
    }
    true
}

/// What asks for a time, as a sorter gives it.
fn asks(time: u32) -> Option<Tuple> {
    Some(Tuple::Travel { time })
}

/// Whether a sorter of half a minute gives three tuples in the order of their Times.
fn sorts(alloc: Global) -> bool {
    let mut sorter = Sorter::new(alloc, 30);
    let put = [
        sorter.put(&Tuple::Travel { time: 30 }),
        sorter.put(&Tuple::Travel { time: 0 }),
        sorter.put(&Tuple::Travel { time: 60 }),
    ];
    let taken = [sorter.take(), sorter.take(), sorter.take()];
    let ended = [sorter.end(), sorter.end()];
    put == [Ok(()); 3] && taken == [asks(0), asks(30), None] && ended == [asks(60), None]
}

/// Whether a sorter that waits for none gives a tuple at once.
fn gives_at_once(sorter: &mut Sorter, vid: u32) -> bool {
    let tuple = report(9, vid);
    sorter.put(&tuple).is_ok() && sorter.take() == Some(tuple)
}

/// Whether one does so with three tuples.
fn sorts_at_once(alloc: Global) -> bool {
    let mut prompt = Sorter::new(alloc, 0);
    gives_at_once(&mut prompt, 0) && gives_at_once(&mut prompt, 1) && gives_at_once(&mut prompt, 2)
}

#[test]
fn tuples_of_a_day(rt: HostRuntime) {
    let alloc = rt.alloc();
    let rows = [are_judged(alloc, &DAYS), sorts(alloc), sorts_at_once(alloc)];
    assert_eq!(rt; rows, [true; 3]);
}
