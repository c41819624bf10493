// Single calls of the plain rules.
ghost use Rattle.road_time.specs.Fits.{IsDay};

use super::days::is_day;
use road_rules::{
    Mishap, Verdict, check, plain_cars, plain_lav, plain_log, plain_near, plain_notices,
    plain_owed, plain_rows, plain_toll,
};
use road_time::{NoMemory, Notice, Place, Report, SpentRow, Stretch, Tariff, Tariffs, Tuple};
use std::alloc::Global;

/// A report of one of two vehicles that stand at one place from second 90 on.
const STANDS: Report = Report {
    time: 0,
    vid: 1,
    spd: 0,
    xway: 0,
    lane: 2,
    dir: 0,
    seg: 10,
    pos: 55000,
};

/// Those two.
const PAIR: [Tuple; 8] = [
    Tuple::Report(STANDS),
    Tuple::Report(Report { vid: 2, ..STANDS }),
    Tuple::Report(Report { time: 30, ..STANDS }),
    Tuple::Report(Report {
        time: 30,
        vid: 2,
        ..STANDS
    }),
    Tuple::Report(Report { time: 60, ..STANDS }),
    Tuple::Report(Report {
        time: 60,
        vid: 2,
        ..STANDS
    }),
    Tuple::Report(Report { time: 90, ..STANDS }),
    Tuple::Report(Report {
        time: 90,
        vid: 2,
        ..STANDS
    }),
];

/// A report of a vehicle of a crowd in segment 10 eastbound.
const DRIVES: Report = Report {
    time: 0,
    vid: 1,
    spd: 30,
    xway: 0,
    lane: 1,
    dir: 0,
    seg: 10,
    pos: 52800,
};

/// A vehicle that comes a minute later and leaves the stretch.
const COMES: [Tuple; 2] = [
    Tuple::Report(Report {
        time: 60,
        vid: 100,
        ..DRIVES
    }),
    Tuple::Report(Report {
        time: 90,
        vid: 100,
        seg: 11,
        pos: 58080,
        ..DRIVES
    }),
];

fn toll(vid: u32, time: u32, lav: i16, toll: u64) -> Notice {
    Notice::Toll {
        vid,
        time,
        lav,
        toll,
    }
}

/// The stretch of the crowd and of the pair.
const TEN: Stretch = Stretch {
    xway: 0,
    dir: 0,
    seg: 10,
};

const DEAR: Tariff = Tariff {
    crowd: 50,
    speed: 40,
    factor: 5,
};

/// The accident of the pair.
const ACCIDENT: Mishap = Mishap {
    from: 90,
    to: None,
    place: Place {
        xway: 0,
        dir: 0,
        lane: 2,
        seg: 10,
        pos: 55000,
    },
};

/// A crowd of 51 at second 0, and that vehicle.
fn jam(alloc: Global) -> Result<Vec<Tuple>, NoMemory> {
    let mut day = Vec::new(alloc);
    for vid in 1..52u32 {
        day.push(Tuple::Report(Report { vid, ..DRIVES }))?;
    }
    day.extend_from_slice(&COMES)?;
    Ok(day)
}

/// Whether there are 51 cars at minute 2, and their average is 30.
fn are_counted(alloc: Global, day: &[Tuple]) -> bool
    requires { IsDay day.now }
{
    let cars = plain_cars(alloc, day, 2, TEN) == Ok(51);
    match plain_lav(alloc, day, 2, TEN) {
        Ok(Some(lav)) => cars && lav.num == 30 * lav.den,
        _ => false,
    }
}

/// Whether the toll at minute 2 is 2, also where another tariff holds elsewhere, and 5 where that one holds here.
fn are_tolled(alloc: Global, day: &[Tuple]) -> bool
    requires { IsDay day.now }
{
    let mut tariffs = Tariffs::new(alloc);
    let plain = plain_toll(alloc, day, &tariffs, 2, TEN);
    let set = tariffs.set(1, &DEAR).is_ok();
    let elsewhere = plain_toll(alloc, day, &tariffs, 2, TEN);
    let both = tariffs.set(0, &DEAR).is_ok();
    let here = plain_toll(alloc, day, &tariffs, 2, TEN);
    set && both && [plain, elsewhere, here] == [Ok(2), Ok(2), Ok(5)]
}

/// Whether vehicle 100 is told a toll of 2, and then of nothing.
fn are_told(alloc: Global, day: &[Tuple]) -> bool
    requires { IsDay day.now }
{
    let none: [SpentRow; 0] = [];
    let told = [toll(100, 60, 30, 2), toll(100, 90, -1, 0)];
    match plain_notices(alloc, day, &Tariffs::new(alloc), 100, &none) {
        Ok(notices) => notices.as_slice().ends_with(&told),
        Err(_) => false,
    }
}

/// Whether it is charged 2 as it leaves, and nothing else is charged that day.
fn is_charged(alloc: Global, day: &[Tuple]) -> bool
    requires { IsDay day.now }
{
    if day.len() != 53 {
        return false;
    }
    let tariffs = Tariffs::new(alloc);
    let owed = plain_owed(alloc, day, &tariffs, 52) == Ok(2);
    let row = SpentRow {
        day: 100,
        vid: 100,
        xway: 0,
        tolls: 2,
    };
    match plain_rows(alloc, day, &tariffs, 100) {
        Ok(rows) => owed && rows.as_slice() == [row].as_slice(),
        Err(_) => false,
    }
}

/// Whether the accident of the pair is found, and is near four segments before it.
fn are_found(alloc: Global, day: &[Tuple]) -> bool
    requires { IsDay day.now }
{
    let near = plain_near(alloc, day, 3, Stretch { seg: 6, ..TEN }) == Ok(Some(10));
    match plain_log(alloc, day) {
        Ok(log) => near && log.as_slice() == [ACCIDENT].as_slice(),
        Err(_) => false,
    }
}

/// Whether each call has its answer on the day of the crowd: cars and average; tolls; notices; the charge.
fn are_answered(alloc: Global, day: &[Tuple]) -> bool {
    is_day(alloc, day)
        && are_counted(alloc, day)
        && are_tolled(alloc, day)
        && are_told(alloc, day)
        && is_charged(alloc, day)
}

/// Whether the calls on accidents have their answers on the day of the pair.
fn is_answered_of_the_pair(alloc: Global) -> bool {
    is_day(alloc, &PAIR) && are_found(alloc, &PAIR)
}

#[test]
fn single_calls_have_their_answers(rt: HostRuntime) -> Result<(), NoMemory> {
    let day = jam(rt.alloc())?;
    let crowd = are_answered(rt.alloc(), day.as_slice());
    assert!(rt; crowd && is_answered_of_the_pair(rt.alloc()));
    Ok(())
}

/// A day of one report.
const ONE: [Tuple; 1] = [Tuple::Report(Report {
    vid: 7,
    lane: 0,
    ..DRIVES
})];

/// Whether a check of it says this of these notices.
fn is_verdict(alloc: Global, notices: &[Notice], wanted: Verdict) -> bool {
    let none: [SpentRow; 0] = [];
    is_day(alloc, &ONE)
        && check(alloc, &ONE, &Tariffs::new(alloc), 100, &none, notices) == Ok(wanted)
}

/// What a check says where it finds this in the place of the first notice.
fn differs(found: Option<Notice>) -> Verdict {
    Verdict::Differs {
        line: 1,
        wanted: Some(toll(7, 0, -1, 0)),
        found,
    }
}

/// A check agrees with the notice, and names the first line where it is another, or none.
#[test]
fn a_check_names_the_first_line_that_differs(rt: HostRuntime) {
    let alloc = rt.alloc();
    let other = toll(7, 0, -1, 2);
    let verdicts = [
        is_verdict(alloc, &[toll(7, 0, -1, 0)], Verdict::Agree),
        is_verdict(alloc, &[other], differs(Some(other))),
        is_verdict(alloc, &[], differs(None)),
    ];
    assert_eq!(rt; verdicts, [true; 3]);
}
