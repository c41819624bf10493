// The worked row of the shards, with ample memory.
use day_floor::{Charge, Tracked};
use road_time::{Place, Report, Tuple};
use std::alloc::Global;
use std::thread::Threads;
use ways_audit::Shards;

/// A report of vehicle 1.
fn at(time: u32, pos: u32) -> Tuple {
    Tuple::Report(Report {
        time,
        vid: 1,
        spd: 50,
        xway: 0,
        lane: 2,
        dir: 0,
        seg: 10,
        pos,
    })
}

const NOTHING: Tracked = Tracked {
    begins: false,
    stopped: false,
    left: None,
    charge: Charge::No,
};

/// What is told of them.
const TOLD: [Option<Tracked>; 6] = [
    Some(Tracked {
        begins: true,
        ..NOTHING
    }),
    Some(NOTHING),
    Some(NOTHING),
    Some(Tracked {
        stopped: true,
        ..NOTHING
    }),
    None,
    Some(Tracked {
        left: Some(Place {
            xway: 0,
            dir: 0,
            lane: 2,
            seg: 10,
            pos: 55000,
        }),
        ..NOTHING
    }),
];

/// Whether two shards tell it of four equal reports, a request that tells nothing, and a report elsewhere in the
/// stretch.
fn are_told<R: Threads + Sync>(rt: &R, alloc: Global) -> bool {
    let tuples = [
        at(0, 55000),
        at(30, 55000),
        at(60, 55000),
        at(90, 55000),
        Tuple::Travel { time: 95 },
        at(120, 55440),
    ];
    let Ok(mut shards) = Shards::new(alloc, 2) else {
        return false;
    };
    match shards.see_all(rt, &tuples) {
        Ok(list) => list.items() == TOLD.as_slice(),
        Err(_) => false,
    }
}

#[test]
fn shards_tell_the_worked_row(rt: HostRuntime) {
    assert!(rt; are_told(&rt, rt.alloc()));
}
