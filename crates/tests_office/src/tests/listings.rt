// The lists of the kept days and of what was charged on some days, where something fails.
use super::days::{FIFTY_ONE, LEAVES, day, told};
use super::runs::{ONE, STEP, Step, each_writes, one_step};
use keep_office::MemKeeper;
use std::alloc::Global;
use std::process::Abort;
use std::test::Fail;
use std::thread::Threads;

/// Amounts of the days 99, 98, 97, 95, 94 and 31, the one of day 97 not kept.
const SEVERAL: &[u8] = b"9,1,3,4\n7,69,0,28\n7,1,0,5\n7,2,3,10\n2147483647,5,255,9999999999\n\
    2147483647,6,255,9999999999\n7,3,0,0\n";

/// After that history day 100 was imported, on which vehicle 100 was charged 2, and day 102, of one report.
pub const LISTED: &str = "day 100 tuples 56 notices 55 total 2 digest 666b265381326509\n\
    day 102 tuples 1 notices 1 total 0 digest fc2f0b2e7199ba75\n# days 2 last 102\n";

/// What was charged then on all days.
const CHARGES: Step<'static> = Step {
    words: &["charges", "1", "1000000"],
    text: "vid,xway,tolls\n7,0,33\n7,3,10\n9,3,4\n100,0,2\n2147483647,255,19999999998\n",
    ..STEP
};

/// What day 100 is told behind its crowd.
const STORED: &str =
    "0,100,60,30,2\n0,100,90,-1,0\n0,100,150,-1,0\n2,160,9,2\n# stored day 100 tuples 56 notices 55 total 2\n";

/// The history is put.
const PAST: Step<'static> = Step {
    words: &["past", "100"],
    input: SEVERAL,
    text: "# past base 100 rows 6\n",
    ..STEP
};

/// The list of the two days.
const TWO_DAYS: Step<'static> = Step {
    words: &["days"],
    text: LISTED,
    ..STEP
};

/// A call of a list fails.
const FAULT: Step<'static> = Step {
    text: "# keeper fault\n",
    status: 6,
    ..STEP
};

/// A keeper of the history and of the two days, made by its calls 0 to 10, of which these fail.
fn kept<R: Abort + Threads + Sync>(
    rt: &R,
    alloc: Global,
    fails: &[u32],
) -> Result<MemKeeper, Fail> {
    let mut keeper = MemKeeper::new(alloc, fails)?;
    let input = day(alloc, &FIFTY_ONE, &[&LEAVES])?;
    let stored = told(alloc, &FIFTY_ONE, STORED)?;
    let import = &["import", "100"];
    let first = one_step(import, input.as_slice(), b"", stored.as_str(), 0);
    let second = Step {
        words: &["import", "102"],
        input: ONE,
        text: "0,7,0,-1,0\n# stored day 102 tuples 1 notices 1 total 0\n",
        ..STEP
    };
    each_writes(rt, alloc, &mut keeper, &[PAST, first, second])?;
    Ok(keeper)
}

/// These steps over that keeper, of which these calls fail.
fn each_of_kept<R: Abort + Threads + Sync>(
    rt: &R,
    alloc: Global,
    fails: &[u32],
    steps: &[Step<'_>],
) -> Result<(), Fail> {
    let mut keeper = kept(rt, alloc, fails)?;
    each_writes(rt, alloc, &mut keeper, steps)
}

/// Each call of a list fails, and no other: from the eleventh of the keeper to the one before `behind`.
fn fails_at_each<R: Abort + Threads + Sync>(
    rt: &R,
    alloc: Global,
    list: Step<'_>,
    behind: u32,
) -> Result<(), Fail> {
    let fault = Step {
        words: list.words,
        ..FAULT
    };
    for number in 11..behind {
        each_of_kept(rt, alloc, &[number], &[fault, list])?;
    }
    each_of_kept(rt, alloc, &[behind], &[list, fault])
}

/// A keeper that fails at each call of either list: five of the days, and of the charges of four days the last day, and
/// of each day its record and its amounts.
#[test]
fn each_call_of_a_list_fails(rt: HostRuntime) -> Result<(), Fail> {
    let charges = Step {
        words: &["charges", "99", "102"],
        text: "vid,xway,tolls\n7,0,5\n9,3,4\n100,0,2\n",
        ..STEP
    };
    fails_at_each(&rt, rt.alloc(), TWO_DAYS, 16)?;
    fails_at_each(&rt, rt.alloc(), charges, 20)
}

/// A list into each room that is too small: what fits is written, with status 5.
fn is_cut_in_each<R: Abort + Threads + Sync>(
    rt: &R,
    alloc: Global,
    list: Step<'_>,
    keeper: &mut MemKeeper,
) -> Result<(), Fail> {
    for room in 0..list.text.len() {
        let small = Step {
            room,
            text: list.text.get(..room).unwrap_or(""),
            status: 5,
            ..list
        };
        each_writes(rt, alloc, keeper, &[small])?;
    }
    Ok(())
}

/// A sink with each room that is too small.
#[test]
fn each_room_is_too_small_for_a_list(rt: HostRuntime) -> Result<(), Fail> {
    let mut keeper = kept(&rt, rt.alloc(), &[])?;
    is_cut_in_each(&rt, rt.alloc(), TWO_DAYS, &mut keeper)?;
    is_cut_in_each(&rt, rt.alloc(), CHARGES, &mut keeper)
}
