// Days whose refused lines are all named, where something fails or little is allowed.
use super::runs::{ONE, STEP, Step, each_ends, each_of_new, ends_so};
use road_time::Limits;
use std::alloc::Global;
use std::test::Fail;

const CHECK: &[&str] = &["check", "100"];

/// A day of nothing.
const EMPTY: Step<'static> = Step {
    words: CHECK,
    text: "# checked day 100 good 0 refused 0\n",
    ..STEP
};

/// Good lines, an empty one among them, and refused ones: of one field, a minute late, of a segment 100, and of a lane
/// that is no number. Those refused before the last two have later Times, and change nothing.
const MIXED: Step<'static> = Step {
    input: b"0,0,7,30,0,0,0,10,52800,-1,-1,-1,-1,-1,-1\n\
        x\n\
        0,60,7,30,0,0,0,10,52800,-1,-1,-1,-1,-1,-1\n\
        0,0,8,30,0,0,0,10,52800,-1,-1,-1,-1,-1,-1\n\
        \n\
        0,300,7,30,0,0,0,100,52800,-1,-1,-1,-1,-1,-1\n\
        0,300,7,30,0,lane,0,10,52800,-1,-1,-1,-1,-1,-1\n\
        0,60,9,30,0,0,0,10,52800,-1,-1,-1,-1,-1,-1\r\n\
        4,60,-1,-1,-1,-1,-1,-1,-1,-1,-1,-1,-1,-1,-1\n",
    text: "2 fields 1\n4 late 60 0\n6 range 8\n7 number 6\n# checked day 100 good 5 refused 4\n",
    status: 2,
    ..EMPTY
};

/// Reads that fail, and a sink that is small.
const ENDS: [Step<'static>; 5] = [
    Step {
        input_fails: &[0],
        text: "# read fault\n",
        status: 4,
        ..MIXED
    },
    Step {
        input_fails: &[9],
        text: "# read fault\n",
        status: 4,
        ..MIXED
    },
    Step {
        aside_fails: &[0],
        ..MIXED
    },
    Step {
        room: 17,
        text: "2 fields 1\n4 late",
        status: 5,
        ..MIXED
    },
    Step {
        room: 46,
        text: "2 fields 1\n4 late 60 0\n6 range 8\n7 number 6\n# ",
        status: 5,
        ..MIXED
    },
];

#[test]
fn checks_that_meet_a_fault(rt: HostRuntime) -> Result<(), Fail> {
    each_ends(&rt, rt.alloc(), &ENDS)
}

/// Lines of 200, 201 and 100,000 bytes between good ones, and one of 202 behind them.
fn long_lines(alloc: Global) -> Result<Vec<u8>, Fail> {
    let mut input = Vec::new(alloc);
    for length in [200usize, 201, 100_000] {
        input.extend_from_slice(ONE)?;
        for _ in 0..length {
            input.push(b'1')?;
        }
        input.push(b'\n')?;
    }
    input.extend_from_slice(ONE)?;
    for _ in 0..202 {
        input.push(b'0')?;
    }
    Ok(input)
}

/// These are read in pieces of some length.
#[test]
fn behind_a_long_line_more_is_read(rt: HostRuntime) -> Result<(), Fail> {
    let input = long_lines(rt.alloc())?;
    let read = Step {
        words: CHECK,
        input: input.as_slice(),
        text: "2 fields 1\n4 long\n6 long\n8 long\n# checked day 100 good 4 refused 4\n",
        status: 2,
        ..STEP
    };
    for input_piece in [1usize, 201, 65_536, 1_000_000] {
        let piece = Step {
            input_piece,
            ..read
        };
        assert!(rt;
            ends_so(&rt, rt.alloc(), &Limits::DAY, &piece)?,
            "{input_piece}"
        );
    }
    Ok(())
}

/// Refused lines among good ones, of one vehicle too many and of lines too many.
const TAKEN: Step<'static> = Step {
    words: CHECK,
    input: b"x\n\
        0,0,7,30,0,0,0,10,52800,-1,-1,-1,-1,-1,-1\n\
        0,0,8,30,0,0,0,10,52800,-1,-1,-1,-1,-1,-1\n\
        0,0,7,30,0,0,0,10,52800,-1,-1,-1,-1,-1,-1\n\
        \n\
        0,0,7,30,0,0,0,10,52800,-1,-1,-1,-1,-1,-1\n\
        x\n",
    text: "1 fields 1\n3 vehicles 1\n6 many 3\n7 many 3\n# checked day 100 good 3 refused 4\n",
    status: 2,
    ..STEP
};

/// Of three lines at most, and of one vehicle: what is refused takes no place.
#[test]
fn refused_lines_take_no_place(rt: HostRuntime) -> Result<(), Fail> {
    let limits = Limits {
        lines: 3,
        vehicles: 1,
        ..Limits::DAY
    };
    assert!(rt; ends_so(&rt, rt.alloc(), &limits, &TAKEN)?);
    Ok(())
}

/// A check, and the days that are kept, which are asked for twice.
const THEN_DAYS: [Step<'static>; 3] = [
    Step {
        input: ONE,
        text: "# checked day 100 good 1 refused 0\n",
        ..EMPTY
    },
    Step {
        words: &["days"],
        text: "# keeper fault\n",
        status: 6,
        ..STEP
    },
    Step {
        words: &["days"],
        text: "# days 0 last 0\n",
        ..STEP
    },
];

/// A check asks nothing of a keeper, whose first call fails, and leaves what it keeps.
#[test]
fn a_check_keeps_nothing(rt: HostRuntime) -> Result<(), Fail> {
    each_of_new(&rt, rt.alloc(), &[0], &THEN_DAYS)
}
