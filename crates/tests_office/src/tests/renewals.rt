// An office that begins anew.
use super::days::{FIFTY_ONE, LEAVES, day};
use super::listings::LISTED;
use super::runs::{ONE, STEP, Step, each_writes, is_right, run_on};
use keep_office::{AnewKeeper, Keeper, MemKeeper, PastRecord};
use office_ends::{begin_anew, renewal_base, renewal_drop};
use road_io::MemSink;
use road_time::Limits;
use std::alloc::Global;
use std::process::Abort;
use std::test::Fail;
use std::thread::Threads;

/// How many numbered calls of the keeper make the office of these rows.
const CALLS: u32 = 9;

/// Amounts of the days 99, 98, 95, 94 and 31.
const SEVERAL: &[u8] = b"9,1,3,4\n7,69,0,28\n7,1,0,5\n7,2,3,10\n2147483647,5,255,9999999999\n\
    2147483647,6,255,9999999999\n";

/// What of them, and of day 100, on which vehicle 100 was charged 2, a history with the base 103 has: that of day 31
/// is too old for it.
const CARRIED: &[u8] =
    b"2147483647,9,255,9999999999\n2147483647,8,255,9999999999\n7,5,3,10\n7,4,0,5\n9,4,3,4\n\
    100,3,0,2\n";

/// The digest of that text, by another program.
const CARRIED_DIGEST: &str = "61b0d69a6b81bb137f90e2d46a41645ebd4bbb596fc9cf760486537be3b79558";

/// What a day asks for: the amounts of days 99, 100, 94 and 34.
const ASKED: &[u8] =
    b"3,0,7,-1,0,-1,-1,-1,-1,1,-1,-1,-1,-1,4\n3,0,100,-1,0,-1,-1,-1,-1,2,-1,-1,-1,-1,3\n\
    3,0,2147483647,-1,255,-1,-1,-1,-1,3,-1,-1,-1,-1,9\n3,0,7,-1,0,-1,-1,-1,-1,4,-1,-1,-1,-1,69\n";

/// What it is answered.
const TOLD: &str =
    "3,0,1,5\n3,0,2,2\n3,0,3,9999999999\n3,0,4,0\n# answered day 103 tuples 4 notices 4\n";

/// A keeper of a history, of a tariff and of the days 100 and 102, made by its calls 0 to 8, of which these fail.
fn kept<R: Abort + Threads + Sync>(
    rt: &R,
    alloc: Global,
    fails: &[u32],
) -> Result<AnewKeeper, Fail> {
    let mut keeper = AnewKeeper::new(alloc, fails)?;
    let input = day(alloc, &FIFTY_ONE, &[&LEAVES])?;
    let rows: [(&[&str], &[u8]); 4] = [
        (&["past", "100"], SEVERAL),
        (&["import", "100"], input.as_slice()),
        (&["import", "102"], ONE),
        (&["tariff", "5", "7", "8", "9"], b""),
    ];
    for (words, input) in rows {
        let step = Step {
            words,
            input,
            ..STEP
        };
        let (_, status) = run_on(rt, alloc, &Limits::DAY, &step, &mut keeper)?;
        assert_eq!(rt; status, 0);
    }
    Ok(keeper)
}

/// The base that words ask for, and the number of amounts that they name.
fn said(alloc: Global, words: &[&str]) -> Result<(Option<u32>, Option<u64>), Fail> {
    let mut owned = Vec::new(alloc);
    for word in words {
        owned.push(String::from_str(alloc, word)?)?;
    }
    Ok((
        renewal_base(owned.as_slice()),
        renewal_drop(owned.as_slice()),
    ))
}

/// Whether an office that begins anew where the words ask for it, and else does what they do, writes a step's text and
/// has its status.
fn is_right_anew<R: Threads + Sync>(
    rt: &R,
    alloc: Global,
    step: &Step<'_>,
    keeper: &mut AnewKeeper,
) -> Result<bool, Fail> {
    let (asked, named) = said(alloc, step.words)?;
    let Some(base) = asked else {
        return is_right(rt, alloc, &Limits::DAY, step, keeper);
    };
    if base < 70 {
        return Ok(false);
    }
    let mut sink = MemSink::new(alloc, step.room, 5)?;
    let status = begin_anew(alloc, base, named, &mut sink, keeper);
    Ok(sink.bytes() == step.text.as_bytes() && status == step.status)
}

/// Each step, one after the other over one keeper, does.
fn each_anew<R: Abort + Threads + Sync>(
    rt: &R,
    alloc: Global,
    keeper: &mut AnewKeeper,
    steps: &[Step<'_>],
) -> Result<(), Fail> {
    for step in steps {
        let text = step.text;
        assert!(rt; is_right_anew(rt, alloc, step, keeper)?, "{text}");
    }
    Ok(())
}

/// A day that asks is answered, before it begins anew and then.
const ANSWERS: Step<'static> = Step {
    words: &["answers", "103"],
    input: ASKED,
    text: TOLD,
    ..STEP
};

/// A base that is the last day.
const EARLY: Step<'static> = Step {
    words: &["renew", "102"],
    text: "# renew early last 102\n",
    status: 3,
    ..STEP
};

/// The office begins anew; its days are gone, and its tariff is there.
const RENEWED: [Step<'static>; 6] = [
    ANSWERS,
    EARLY,
    Step {
        words: &["renew", "103"],
        text: "# renewed base 103 rows 6 dropped 0\n",
        ..STEP
    },
    ANSWERS,
    Step {
        words: &["days"],
        text: "# days 0 last 102\n",
        ..STEP
    },
    Step {
        words: &["tariffs"],
        text: "5,7,8,9\n",
        ..STEP
    },
];

/// And once more, where all six amounts are too old to be carried: their number has to be named.
const AGAIN: [Step<'static>; 4] = [
    EARLY,
    Step {
        words: &["renew", "172"],
        text: "# renew drops rows 6\n",
        status: 3,
        ..STEP
    },
    Step {
        words: &["renew", "--drop", "5", "172"],
        text: "# renew drops rows 6\n",
        status: 3,
        ..STEP
    },
    Step {
        words: &["renew", "172", "--drop", "6"],
        text: "# renewed base 172 rows 0 dropped 6\n",
        ..STEP
    },
];

/// Bases above the day after the last kept one: with the first no amount goes, with the second those of days 94 and 95.
const DROPPED: [Step<'static>; 4] = [
    Step {
        words: &["renew", "104"],
        text: "# renew drops rows 0\n",
        status: 3,
        ..STEP
    },
    Step {
        words: &["renew", "165", "--drop", "0"],
        text: "# renew drops rows 2\n",
        status: 3,
        ..STEP
    },
    ANSWERS,
    Step {
        words: &["renew", "165", "--drop", "2"],
        text: "# renewed base 165 rows 4 dropped 2\n",
        ..STEP
    },
];

/// An office that keeps nothing begins at any base.
const EMPTY: Step<'static> = Step {
    words: &["renew", "1000000"],
    text: "# renewed base 1000000 rows 0 dropped 0\n",
    ..STEP
};

/// The history of a new office that takes what is carried.
fn carried<R: Abort + Threads + Sync>(rt: &R, alloc: Global) -> Result<Option<PastRecord>, Fail> {
    let past = Step {
        words: &["past", "103"],
        input: CARRIED,
        text: "# past base 103 rows 6\n",
        ..STEP
    };
    let mut new = MemKeeper::new(alloc, &[])?;
    each_writes(rt, alloc, &mut new, &[past])?;
    Ok(new.past().unwrap_or(None))
}

/// The history, the tariffs and what a later day is answered are what they are to be; the days are gone.
#[test]
fn begun_anew_at_a_day(rt: HostRuntime) -> Result<(), Fail> {
    let alloc = rt.alloc();
    let mut keeper = kept(&rt, alloc, &[])?;
    each_anew(&rt, alloc, &mut keeper, &RENEWED)?;
    let there = keeper.past().unwrap_or(None);
    assert_eq!(rt; there, carried(&rt, alloc)?);
    let digest = match there {
        Some(kept) => kept.digest.text(alloc)?,
        None => String::from_str(alloc, "none")?,
    };
    assert_eq!(rt; digest.as_str(), CARRIED_DIGEST);
    each_anew(&rt, alloc, &mut keeper, &AGAIN)
}

/// What would go has to be named, where something is kept.
#[test]
fn amounts_that_go_are_named(rt: HostRuntime) -> Result<(), Fail> {
    let alloc = rt.alloc();
    let mut keeper = kept(&rt, alloc, &[])?;
    each_anew(&rt, alloc, &mut keeper, &DROPPED)?;
    let mut empty = AnewKeeper::new(alloc, &[])?;
    each_anew(&rt, alloc, &mut empty, &[EMPTY])
}

/// A call of a renewal fails, and the office is as it was.
const AS_BEFORE: [Step<'static>; 3] = [
    Step {
        words: &["renew", "103"],
        text: "# keeper fault\n",
        status: 6,
        ..STEP
    },
    Step {
        words: &["days"],
        text: LISTED,
        ..STEP
    },
    ANSWERS,
];

/// A call that fails leaves the office as it was.
#[test]
fn a_call_of_a_renewal_fails(rt: HostRuntime) -> Result<(), Fail> {
    let alloc = rt.alloc();
    for call in 0..5 {
        let mut keeper = kept(&rt, alloc, &[CALLS + call])?;
        each_anew(&rt, alloc, &mut keeper, &AS_BEFORE)?;
    }
    Ok(())
}

/// Words, and the base that they ask for.
const SAID: [(&[&str], Option<u32>); 20] = [
    (&["renew", "70"], Some(70)),
    (&["renew", "1000000"], Some(1_000_000)),
    (&["renew", "--", "103"], Some(103)),
    (&["renew", "103", "--"], Some(103)),
    (&["renew", "0103"], Some(103)),
    (&["renew", "69"], None),
    (&["renew", "1000001"], None),
    (&["renew", "-103"], None),
    (&["renew", "103", "104"], None),
    (&["renew", "103", "--drop", "0"], Some(103)),
    (
        &["renew", "--drop", "18446744073709551615", "103"],
        Some(103),
    ),
    (&["renew", "103", "--drop", "18446744073709551616"], None),
    (&["renew", "103", "--drop", "-1"], None),
    (&["renew", "103", "--drop"], None),
    (&["renew", "103", "--drop=6"], None),
    (&["renew", "103", "6", "--drop"], None),
    (&["renew", "--", "103", "--drop", "6"], None),
    (&["renew"], None),
    (&["past", "103"], None),
    (&[], None),
];

/// What words ask.
#[test]
fn words_of_a_renewal(rt: HostRuntime) -> Result<(), Fail> {
    for (words, base) in SAID {
        assert_eq!(rt; said(rt.alloc(), words)?.0, base);
    }
    Ok(())
}
