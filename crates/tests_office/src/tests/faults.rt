// A source, a sink or a keeper that fails at each place of an import, and of a history.
use super::days::{FIFTY_ONE, LEAVES, day, told};
use super::runs::{ONE, STEP, Step, each_of_new, each_writes, run_on};
use keep_office::{LateKeeper, MemKeeper};
use road_time::Limits;
use std::alloc::Global;
use std::process::Abort;
use std::test::Fail;
use std::thread::Threads;

const IMPORT: &[&str] = &["import", "100"];

const DAY: &[&str] = &["day", "100"];

/// What is written on the day that vehicle 100 is charged as it leaves.
const LEFT: &str = "0,100,60,30,2\n0,100,90,-1,0\n0,100,150,-1,0\n2,160,9,2\n";

/// And how it is stored.
const STORED: &str =
    "0,100,60,30,2\n0,100,90,-1,0\n0,100,150,-1,0\n2,160,9,2\n# stored day 100 tuples 56 notices 55 total 2\n";

/// How it ends where its put fails.
const NOT_STORED: &str =
    "0,100,60,30,2\n0,100,90,-1,0\n0,100,150,-1,0\n2,160,9,2\n# keeper fault\n";

const ALREADY: &str = "# already day 100 tuples 56 notices 55 total 2\n";

const READ_FAULT: &str = "# read fault\n";

const KEEPER_FAULT: &str = "# keeper fault\n";

/// The day is imported once more.
const AGAIN: Step<'static> = Step {
    words: IMPORT,
    text: ALREADY,
    ..STEP
};

/// Nothing is kept.
const NO_DAY: Step<'static> = Step {
    words: DAY,
    text: "# no day 100\n",
    status: 3,
    ..STEP
};

/// The import of the day.
fn import<'a>(input: &'a [u8], text: &'a str) -> Step<'a> {
    Step {
        words: IMPORT,
        input,
        text,
        ..STEP
    }
}

/// Nothing is kept, and then the day is stored once.
fn stores<'a>(input: &'a [u8], stored: &'a str) -> [Step<'a>; 3] {
    [
        Step { input, ..NO_DAY },
        import(input, stored),
        Step { input, ..AGAIN },
    ]
}

/// However the input is cut and the output taken, it is one and the same.
#[test]
fn pieces_of_any_size(rt: HostRuntime) -> Result<(), Fail> {
    let input = day(rt.alloc(), &FIFTY_ONE, &[&LEAVES])?;
    let stored = told(rt.alloc(), &FIFTY_ONE, STORED)?;
    for (input_piece, output_piece) in [(1, 1), (7, 65_536), (65_536, 1), (65_536, 65_536)] {
        let step = Step {
            input_piece,
            output_piece,
            ..import(input.as_slice(), stored.as_str())
        };
        each_of_new(&rt, rt.alloc(), &[], &[step])?;
    }
    Ok(())
}

/// Whether the read of a number fails. Then nothing is kept, and the day is stored by the next import.
fn fails_at_read<R: Abort + Threads + Sync>(
    rt: &R,
    alloc: Global,
    input: &[u8],
    stored: &str,
    number: u32,
) -> Result<bool, Fail> {
    let step = Step {
        input_piece: 100,
        input_fails: &[number],
        ..import(input, READ_FAULT)
    };
    let mut keeper = MemKeeper::new(alloc, &[])?;
    let (sink, status) = run_on(rt, alloc, &Limits::DAY, &step, &mut keeper)?;
    if status == 0 {
        return Ok(false);
    }
    assert_eq!(rt; status, 4);
    assert!(rt; sink.bytes() == READ_FAULT.as_bytes());
    each_writes(rt, alloc, &mut keeper, &stores(input, stored))?;
    Ok(true)
}

/// The read of each number fails, until a run meets no fault.
#[test]
fn each_read_fails(rt: HostRuntime) -> Result<(), Fail> {
    let input = day(rt.alloc(), &FIFTY_ONE, &[&LEAVES])?;
    let stored = told(rt.alloc(), &FIFTY_ONE, STORED)?;
    let mut failed = 0u32;
    for number in 0..40u32 {
        if fails_at_read(&rt, rt.alloc(), input.as_slice(), stored.as_str(), number)? {
            assert_eq!(rt; failed, number);
            failed = number.saturating_add(1);
        }
    }
    assert!(rt; failed > 24 && failed < 40);
    Ok(())
}

/// An import of an input into so small a room writes the front of a text, with status 5, and what the next one writes
/// is this.
fn is_cut_off<R: Abort + Threads + Sync>(
    rt: &R,
    alloc: Global,
    input: &[u8],
    room: usize,
    text: &str,
    then: &str,
) -> Result<(), Fail> {
    let small = Step {
        room,
        status: 5,
        ..import(input, text)
    };
    each_of_new(rt, alloc, &[], &[small, import(input, then)])
}

/// The sink has each room that is too small for all; the day is kept where all notices were written.
#[test]
fn each_room_is_too_small(rt: HostRuntime) -> Result<(), Fail> {
    let input = day(rt.alloc(), &FIFTY_ONE, &[&LEAVES])?;
    let notices = told(rt.alloc(), &FIFTY_ONE, LEFT)?.len();
    let stored = told(rt.alloc(), &FIFTY_ONE, STORED)?;
    let text = stored.as_str();
    for room in 0..text.len() {
        let cut = text.get(..room).unwrap_or("");
        let then = if room < notices { text } else { ALREADY };
        is_cut_off(&rt, rt.alloc(), input.as_slice(), room, cut, then)?;
    }
    Ok(())
}

/// A call of the keeper fails in an import: nothing is kept.
fn fails_at_call<R: Abort + Threads + Sync>(
    rt: &R,
    alloc: Global,
    input: &[u8],
    stored: &str,
    number: u32,
    text: &str,
) -> Result<(), Fail> {
    let [none, import, again] = stores(input, stored);
    let fault = Step {
        text,
        status: 6,
        ..import
    };
    each_of_new(rt, alloc, &[number], &[fault, none, import, again])
}

/// Each step over a new keeper whose call of a number fails after it is done.
fn each_of_late<R: Abort + Threads + Sync>(
    rt: &R,
    alloc: Global,
    number: u32,
    steps: &[Step<'_>],
) -> Result<(), Fail> {
    let mut keeper = LateKeeper::new(alloc, &[number])?;
    each_writes(rt, alloc, &mut keeper, steps)
}

/// The keeper fails at each of the four calls of an import; nothing is kept, but where a put fails after it was done.
#[test]
fn each_call_fails(rt: HostRuntime) -> Result<(), Fail> {
    let input = day(rt.alloc(), &FIFTY_ONE, &[&LEAVES])?;
    let stored = told(rt.alloc(), &FIFTY_ONE, STORED)?;
    let not_stored = told(rt.alloc(), &FIFTY_ONE, NOT_STORED)?;
    let (day, then, last) = (input.as_slice(), stored.as_str(), not_stored.as_str());
    for (number, text) in [
        (0, KEEPER_FAULT),
        (1, KEEPER_FAULT),
        (2, KEEPER_FAULT),
        (3, last),
    ] {
        fails_at_call(&rt, rt.alloc(), day, then, number, text)?;
    }
    let late = Step {
        status: 6,
        ..import(day, last)
    };
    each_of_late(
        &rt,
        rt.alloc(),
        3,
        &[
            late,
            Step {
                input: day,
                ..AGAIN
            },
        ],
    )
}

/// What one line stores, and what it answers then.
const ONE_STORED: &str = "0,7,0,-1,0\n# stored day 100 tuples 1 notices 1 total 0\n";

const ONE_ALREADY: &str = "# already day 100 tuples 1 notices 1 total 0\n";

/// One line, by a command.
const LINE: Step<'static> = Step {
    words: IMPORT,
    input: ONE,
    ..STEP
};

/// Room for its notice alone, and for one byte less, and what the same import writes then.
const ROOMS: [[Step<'static>; 2]; 2] = [
    [
        Step {
            room: 11,
            text: "0,7,0,-1,0\n",
            status: 5,
            ..LINE
        },
        Step {
            text: ONE_ALREADY,
            ..LINE
        },
    ],
    [
        Step {
            room: 10,
            text: "0,7,0,-1,0",
            status: 5,
            ..LINE
        },
        Step {
            text: ONE_STORED,
            ..LINE
        },
    ],
];

/// The first read fails.
const UNREAD: Step<'static> = Step {
    input_fails: &[0],
    text: READ_FAULT,
    status: 4,
    ..LINE
};

/// The keeper's first call fails, which this does not make.
const UNASKED: Step<'static> = Step {
    words: &["accidents"],
    ..LINE
};

/// Commands that ask a keeper first.
const COMMANDS: [&[&str]; 10] = [
    IMPORT,
    DAY,
    &["answers", "100"],
    &["validate", "100"],
    &["vehicle", "7", "31", "99"],
    &["export", "100"],
    &["tariff", "0", "50", "40", "5"],
    &["tariffs"],
    &["days"],
    &["charges", "31", "99"],
];

/// Room for the notice alone, room for one byte less, and a source and a keeper that fail at once.
#[test]
fn one_line_and_one_fault(rt: HostRuntime) -> Result<(), Fail> {
    for steps in &ROOMS {
        each_of_new(&rt, rt.alloc(), &[], steps)?;
    }
    for words in COMMANDS {
        let fault = Step {
            words,
            text: KEEPER_FAULT,
            status: 6,
            ..LINE
        };
        each_of_new(&rt, rt.alloc(), &[0], &[fault])?;
    }
    each_of_new(&rt, rt.alloc(), &[], &[UNREAD])?;
    each_of_new(&rt, rt.alloc(), &[0], &[UNASKED])
}

/// A history of two amounts of vehicle 7.
const PAST: Step<'static> = Step {
    words: &["past", "100"],
    input: b"7,69,0,28\n7,1,0,5\n",
    text: "# past base 100 rows 2\n",
    ..STEP
};

/// A call of its keeper fails.
const PAST_FAULT: Step<'static> = Step {
    text: KEEPER_FAULT,
    status: 6,
    ..PAST
};

/// It is kept already.
const PAST_AGAIN: Step<'static> = Step {
    text: "# already past base 100 rows 2\n",
    ..PAST
};

/// Each read of a history and each call of its keeper fails; nothing is kept, but where a put fails after it was done.
#[test]
fn each_fault_of_a_history(rt: HostRuntime) -> Result<(), Fail> {
    for number in 0..3u32 {
        let unread = Step {
            input_fails: &[number],
            text: READ_FAULT,
            status: 4,
            ..PAST
        };
        each_of_new(&rt, rt.alloc(), &[], &[unread, PAST])?;
        each_of_new(&rt, rt.alloc(), &[number], &[PAST_FAULT, PAST])?;
    }
    each_of_late(&rt, rt.alloc(), 2, &[PAST_FAULT, PAST_AGAIN])
}
