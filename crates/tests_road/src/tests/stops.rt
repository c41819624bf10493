// What stops answer after the entries of a few worked rows, each written out with its answers.
use road_time::{Place, Stretch};
use std::alloc::Global;
use ways_expressway::Stops;

/// A step of a row: on to a second, an entry of a vehicle at the row's place, or a question with its answer.
#[derive(Clone, Copy)]
enum Step {
    To(u32),
    Stop(u32),
    Leave(u32),
    Nearest(u8, Option<u8>),
    Stood(u8, bool),
}

/// Where the pair stands.
const PAIR: Place = Place {
    xway: 0,
    dir: 0,
    lane: 2,
    seg: 10,
    pos: 55000,
};

/// The same of the other direction, and at the road's end.
const WESTBOUND: Place = Place { dir: 1, ..PAIR };

const AT_THE_END: Place = Place {
    seg: 0,
    pos: 100,
    ..WESTBOUND
};

/// What a row shows, its place, the direction that is asked of, and its steps.
type Row = (&'static str, Place, u8, &'static [Step]);

const ROWS: [Row; 10] = [
    (
        "the pair eastbound",
        PAIR,
        0,
        &[
            Step::To(90),
            Step::Stop(1),
            Step::Stop(2),
            Step::To(120),
            Step::Nearest(10, Some(10)),
            Step::Nearest(6, Some(10)),
            Step::Nearest(5, None),
            Step::Nearest(11, None),
        ],
    ),
    (
        "one of three leaves, then one of two",
        PAIR,
        0,
        &[
            Step::To(90),
            Step::Stop(1),
            Step::Stop(2),
            Step::Stop(3),
            Step::Leave(3),
            Step::To(150),
            Step::Leave(2),
            Step::To(180),
            Step::Nearest(10, Some(10)),
            Step::To(240),
            Step::Nearest(10, None),
        ],
    ),
    (
        "one of two leaves in the same second",
        PAIR,
        0,
        &[
            Step::To(90),
            Step::Stop(1),
            Step::Stop(2),
            Step::Leave(2),
            Step::To(120),
            Step::Nearest(10, None),
        ],
    ),
    (
        "minutes without a call",
        PAIR,
        0,
        &[
            Step::To(90),
            Step::Stop(1),
            Step::Stop(2),
            Step::To(600),
            Step::Nearest(10, Some(10)),
        ],
    ),
    (
        "the pair clears",
        PAIR,
        0,
        &[
            Step::To(90),
            Step::Stop(1),
            Step::Stop(2),
            Step::To(150),
            Step::Leave(2),
            Step::To(180),
            Step::Nearest(10, Some(10)),
            Step::Stood(10, true),
            Step::To(240),
            Step::Nearest(10, None),
            Step::Stood(10, false),
        ],
    ),
    (
        "stopped on another way",
        PAIR,
        0,
        &[
            Step::To(90),
            Step::Stop(1),
            Step::Stop(2),
            Step::To(130),
            Step::Leave(2),
            Step::To(180),
            Step::Nearest(10, Some(10)),
            Step::To(240),
            Step::Nearest(10, None),
        ],
    ),
    (
        "stops broken by another way",
        PAIR,
        0,
        &[
            Step::To(90),
            Step::Stop(1),
            Step::To(180),
            Step::Nearest(10, None),
        ],
    ),
    (
        "the pair westbound",
        WESTBOUND,
        1,
        &[
            Step::To(90),
            Step::Stop(1),
            Step::Stop(2),
            Step::To(120),
            Step::Nearest(9, None),
            Step::Nearest(10, Some(10)),
            Step::Nearest(14, Some(10)),
            Step::Nearest(15, None),
        ],
    ),
    (
        "the pair at the road's end",
        AT_THE_END,
        1,
        &[
            Step::To(90),
            Step::Stop(1),
            Step::Stop(2),
            Step::To(120),
            Step::Nearest(4, Some(0)),
            Step::Nearest(5, None),
        ],
    ),
    (
        "the other direction",
        AT_THE_END,
        0,
        &[
            Step::To(90),
            Step::Stop(1),
            Step::Stop(2),
            Step::To(120),
            Step::Nearest(0, None),
        ],
    ),
];

/// Takes one step, where an answer about this direction is asked of this place: whether it is as it is to be.
fn is_right(stops: &mut Stops, place: Place, dir: u8, step: Step) -> bool {
    match step {
        Step::To(second) => comes_to(stops, second),
        Step::Stop(vid) => stops.stop(place, vid).is_ok(),
        Step::Leave(vid) => {
            stops.leave(place, vid);
            true
        }
        Step::Nearest(seg, want) => is_nearest(stops, dir, seg, want),
        Step::Stood(seg, want) => stops.stood_last_minute(Stretch { xway: 0, dir, seg }) == want,
    }
}

/// Goes on to a second that has not passed.
fn comes_to(stops: &mut Stops, second: u32) -> bool {
    if second < stops.second() {
        return false;
    }
    stops.advance(second);
    stops.second() == second
}

/// Whether this is the nearest accident from a segment.
fn is_nearest(stops: &Stops, dir: u8, seg: u8, want: Option<u8>) -> bool {
    seg <= 99 && dir <= 1 && stops.nearest(Stretch { xway: 0, dir, seg }) == want
}

/// Whether the answers about this direction are those of the steps, at this place.
fn are_right(stops: &mut Stops, place: Place, dir: u8, steps: &[Step]) -> bool {
    for step in steps {
        if !is_right(stops, place, dir, *step) {
            return false;
        }
    }
    true
}

/// The number of the first row whose answers are others, their count where none is.
fn first_wrong(alloc: Global, rows: &[Row]) -> usize {
    for (at, (_, place, dir, steps)) in rows.iter().enumerate() {
        if !are_right(&mut Stops::new(alloc), *place, *dir, steps) {
            return at;
        }
    }
    rows.len()
}

fn moves<T: Send>() {}

#[test]
fn stops_answer_the_worked_rows(rt: HostRuntime) {
    moves::<Stops>();
    assert_eq!(rt; first_wrong(rt.alloc(), &ROWS), 10);
}
