// Audits that meet a fault.
use super::runs::{ONE, STEP, Step, each_ends};
use std::test::Fail;

/// One report and its notice.
const GOOD: Step<'static> = Step {
    words: &["audit", "100"],
    input: ONE,
    aside: b"0,7,0,-1,0\n",
    ..STEP
};

/// "Stopped on another way", and its notices without the fourth.
const SHORT: Step<'static> = Step {
    words: &["audit", "100", "--show", "10"],
    input: b"0,0,1,0,0,2,0,10,55000,-1,-1,-1,-1,-1,-1\n0,0,2,0,0,2,0,10,55000,-1,-1,-1,-1,-1,-1\n\
        0,30,1,0,0,2,0,10,55000,-1,-1,-1,-1,-1,-1\n0,30,2,0,0,2,0,10,55000,-1,-1,-1,-1,-1,-1\n\
        0,60,1,0,0,2,0,10,55000,-1,-1,-1,-1,-1,-1\n0,60,2,0,0,2,0,10,55000,-1,-1,-1,-1,-1,-1\n\
        0,90,1,0,0,2,0,10,55000,-1,-1,-1,-1,-1,-1\n0,90,2,0,0,2,0,10,55000,-1,-1,-1,-1,-1,-1\n\
        0,130,2,50,1,0,0,3,15840,-1,-1,-1,-1,-1,-1\n0,180,3,50,0,1,0,10,52800,-1,-1,-1,-1,-1,-1\n\
        0,240,4,50,0,1,0,10,52800,-1,-1,-1,-1,-1,-1\n",
    aside: b"0,1,0,-1,0\n0,2,0,-1,0\n0,2,130,-1,0\n0,3,180,0,0\n0,4,240,16,0\n",
    ..STEP
};

/// A refused line before the aside would fail, reads that fail, and a sink of three bytes: for the closing line, and for
/// the list of differences before it.
const ENDS: [Step<'static>; 5] = [
    Step {
        input: b"x\n",
        aside_fails: &[0],
        text: "# refused line 1 fields 1\n",
        status: 2,
        ..GOOD
    },
    Step {
        input_fails: &[3],
        text: "# read fault\n",
        status: 4,
        ..GOOD
    },
    Step {
        aside_fails: &[0],
        text: "# read fault\n",
        status: 4,
        ..GOOD
    },
    Step {
        room: 3,
        text: "# a",
        status: 5,
        ..GOOD
    },
    Step {
        room: 3,
        text: "4 m",
        status: 5,
        ..SHORT
    },
];

#[test]
fn audits_that_meet_a_fault(rt: HostRuntime) -> Result<(), Fail> {
    each_ends(&rt, rt.alloc(), &ENDS)
}
