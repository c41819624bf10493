// The rows on single calls, and that tariffs may move between threads.
use road_time::{Tariff, Tariffs, Way, downstream, minute, worker_of};
use std::alloc::Global;

/// Takes what may move between threads.
fn moves<T: Send>(_value: &T) {}

/// The minutes of a day's first seconds and of its last.
fn minutes_begin_at_one() -> bool {
    [minute(0), minute(59), minute(60), minute(86_399)] == [1, 1, 2, 1440]
}

/// One and two segments ahead of segment 98 eastbound, three and four ahead of segment 3 westbound.
fn roads_have_ends() -> bool {
    let east = [downstream(98, 0, 1), downstream(98, 0, 2)];
    let west = [downstream(3, 1, 3), downstream(3, 1, 4)];
    east == [Some(99), None] && west == [Some(0), None]
}

/// The worker of expressway 1 eastbound, of one, two, three and 64.
fn workers_have_ways() -> bool {
    let way = Way { xway: 1, dir: 0 };
    let few = [worker_of(way, 1), worker_of(way, 2)];
    let more = [worker_of(way, 3), worker_of(way, 64)];
    few == [0, 0] && more == [2, 2]
}

#[test]
fn minutes_segments_and_workers(rt: HostRuntime) {
    let rows = [
        minutes_begin_at_one(),
        roads_have_ends(),
        workers_have_ways(),
    ];
    assert_eq!(rt; rows, [true; 3]);
}

const DEAR: Tariff = Tariff {
    crowd: 50,
    speed: 40,
    factor: 5,
};

/// Whether this is the tariff of the first expressway, that of the benchmark the second one's, and these are their
/// lines.
fn are_tariffs(alloc: Global, tariffs: &Tariffs, first: Tariff, lines: &[u8]) -> bool {
    let mut text = Vec::new(alloc);
    let told = tariffs.lines(alloc, &mut text).is_ok() && text.as_slice() == lines;
    told && tariffs.of(0) == first && tariffs.of(1) == Tariff::BENCHMARK
}

/// A tariff holds on its expressway alone, and not in a copy in which that of the benchmark is set; this one has no
/// line.
fn a_copy_is_apart(alloc: Global) -> bool {
    let mut first = Tariffs::new(alloc);
    moves(&first);
    let set = first.set(0, &DEAR).is_ok();
    let Ok(mut copy) = first.copy() else {
        return false;
    };
    set && copy.set(0, &Tariff::BENCHMARK).is_ok()
        && are_tariffs(alloc, &first, DEAR, b"0,50,40,5\n")
        && are_tariffs(alloc, &copy, Tariff::BENCHMARK, b"")
}

#[test]
fn tariffs_of_expressways(rt: HostRuntime) {
    assert!(rt; a_copy_is_apart(rt.alloc()));
}
