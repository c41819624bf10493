// Limits and faults.
ghost use Rattle.std.specs.Prelude.{◌≤◌};
ghost use Rattle.road_time.specs.Fits.{IsLimits};

use super::runs::{ANSWERED, ONE, STEP, Step, each_ends, ends_so};
use road_time::Limits;
use std::alloc::Global;
use std::test::Fail;
use std::thread::Threads;

/// Three lines, and a line more of another vehicle, and a line after an empty one.
const THREE_LINES: &[u8] =
    b"0,0,7,30,0,0,0,10,52800,-1,-1,-1,-1,-1,-1\n0,30,7,30,0,0,0,10,52800,-1,-1,-1,-1,-1,-1\n\
        0,60,7,30,0,0,0,10,52800,-1,-1,-1,-1,-1,-1\n";

const TWO_VEHICLES: &[u8] =
    b"0,0,7,30,0,0,0,10,52800,-1,-1,-1,-1,-1,-1\n0,0,8,30,0,0,0,10,52800,-1,-1,-1,-1,-1,-1\n";

const AFTER_NONE: &[u8] = b"\n0,0,7,30,0,0,0,10,52800,-1,-1,-1,-1,-1,-1\n";

/// Whether a day that is past its limits is answered so.
fn is_refused<'a, R: Threads + Sync>(
    rt: &R,
    alloc: Global,
    limits: &Limits,
    input: &'a [u8],
    text: &'a str,
) -> Result<bool, Fail>
    requires { IsLimits limits.now }
{
    let step = Step {
        words: &["answers", "100"],
        input,
        text,
        status: 2,
        ..STEP
    };
    ends_so(rt, alloc, limits, &step)
}

#[test]
fn small_limits(rt: HostRuntime) -> Result<(), Fail> {
    let two_lines = Limits {
        lines: 2,
        ..Limits::DAY
    };
    let one_vehicle = Limits {
        vehicles: 1,
        ..Limits::DAY
    };
    let one_line = Limits {
        lines: 1,
        ..Limits::DAY
    };
    let many = "0,7,0,-1,0\n# refused line 3 many 2\n";
    let vehicles = "0,7,0,-1,0\n# refused line 2 vehicles 1\n";
    let next = "# refused line 2 many 1\n";
    assert!(rt; is_refused(&rt, rt.alloc(), &two_lines, THREE_LINES, many)?);
    assert!(rt; is_refused(&rt, rt.alloc(), &one_vehicle, TWO_VEHICLES, vehicles)?);
    assert!(rt; is_refused(&rt, rt.alloc(), &one_line, AFTER_NONE, next)?);
    Ok(())
}

/// Answers, and what is compared with them, where reads fail or the sink is small.
const FAULTS: [(&[&str], &[u32], &[u32], usize, &str, u8); 13] = [
    (DAY, &[0], &[], 2000, "# read fault\n", 4),
    (DAY, &[3], &[], 2000, "# read fault\n", 4),
    (DAY, &[], &[0], 2000, ANSWERED, 0),
    (DAY, &[], &[], 5, "0,7,0", 5),
    (DAY, &[], &[], 20, "0,7,0,-1,0\n# answere", 5),
    (COMPARED, &[0], &[], 2000, "# read fault\n", 4),
    (COMPARED, &[], &[0], 2000, "# read fault\n", 4),
    (COMPARED, &[], &[2], 2000, "# read fault\n", 4),
    (COMPARED, &[], &[], 3, "# a", 5),
    (&["accidents"], &[3], &[], 2000, "# read fault\n", 4),
    (&["accidents"], &[], &[0], 2000, "", 0),
    (&[], &[0], &[], 2000, "# words\n", 1),
    (&[], &[], &[], 0, "", 5),
];

const DAY: &[&str] = &["answers", "100"];

const COMPARED: &[&str] = &["validate", "100"];

/// A line that is refused before the aside is read.
const REFUSED: Step<'static> = Step {
    words: COMPARED,
    input: b"x\n",
    aside: b"0,7,0,-1,0\n",
    aside_fails: &[0],
    text: "# refused line 1 fields 1\n",
    status: 2,
    ..STEP
};

#[test]
fn faults_and_their_ends(rt: HostRuntime) -> Result<(), Fail> {
    for (words, input_fails, aside_fails, room, text, status) in &FAULTS {
        let step = Step {
            words,
            input: ONE,
            input_fails,
            aside_fails,
            room: *room,
            text,
            status: *status,
            ..REFUSED
        };
        assert!(rt; ends_so(&rt, rt.alloc(), &Limits::DAY, &step)?, "{text}");
    }
    each_ends(&rt, rt.alloc(), &[REFUSED])
}
