// How often the comparing commands ask a keeper for what was paid on earlier days.
use super::runs::{STEP, Step, each_of_new};
use std::alloc::Global;
use std::process::Abort;
use std::test::Fail;
use std::thread::Threads;

/// A day without an expenditure request.
const NO_REQUEST: &[u8] = b"4,0,-1,-1,-1,-1,-1,-1,-1,-1,-1,-1,-1,-1,-1\n";

/// Vehicle 7 asks what it paid yesterday, and again.
const TWICE: &[u8] =
    b"3,0,7,-1,0,-1,-1,-1,-1,1,-1,-1,-1,-1,1\n3,0,7,-1,0,-1,-1,-1,-1,2,-1,-1,-1,-1,1\n";

/// And then what it paid the day before.
const ANOTHER: &[u8] =
    b"3,0,7,-1,0,-1,-1,-1,-1,1,-1,-1,-1,-1,1\n3,0,7,-1,0,-1,-1,-1,-1,2,-1,-1,-1,-1,1\n\
    3,0,7,-1,0,-1,-1,-1,-1,3,-1,-1,-1,-1,2\n";

/// What is answered to two requests, and to three.
const TWO: &[u8] = b"3,0,1,0\n3,0,2,0\n";

const THREE: &[u8] = b"3,0,1,0\n3,0,2,0\n3,0,3,0\n";

const FAULT: &str = "# keeper fault\n";

/// An input, an aside, the number of the keeper's call that fails, the text, and the status. The first call, number 0,
/// asks for the tariffs.
type Asked<'a> = (&'a [u8], &'a [u8], u32, &'a str, u8);

/// `validate` and `audit` end so over a keeper where nothing is kept.
fn each_asks<R: Abort + Threads + Sync>(
    rt: &R,
    alloc: Global,
    rows: &[Asked<'_>],
) -> Result<(), Fail> {
    for (input, aside, fails, text, status) in rows {
        let validate = Step {
            words: &["validate", "100"],
            input,
            aside,
            input_piece: 65_536,
            text,
            status: *status,
            ..STEP
        };
        let audit = Step {
            words: &["audit", "100"],
            ..validate
        };
        each_of_new(rt, alloc, &[*fails], &[validate])?;
        each_of_new(rt, alloc, &[*fails], &[audit])?;
    }
    Ok(())
}

/// An amount is asked for once, however many requests there are for it, and none where there is no request.
#[test]
fn each_amount_once(rt: HostRuntime) -> Result<(), Fail> {
    let rows: [Asked<'_>; 5] = [
        (NO_REQUEST, b"", 1, "# agree notices 0\n", 0),
        (TWICE, TWO, 1, FAULT, 6),
        (TWICE, TWO, 2, "# agree notices 2\n", 0),
        (ANOTHER, THREE, 2, FAULT, 6),
        (ANOTHER, THREE, 3, "# agree notices 3\n", 0),
    ];
    each_asks(&rt, rt.alloc(), &rows)
}

/// Requests of so many vehicles, and their answers.
fn many(alloc: Global, count: u32) -> Result<(String, String), Fail> {
    let mut input = String::new(alloc);
    let mut aside = String::new(alloc);
    for vid in 0..count {
        let line = format!(in alloc; "3,0,{vid},-1,0,-1,-1,-1,-1,1,-1,-1,-1,-1,1\n")?;
        input.push_str(line.as_str())?;
        aside.push_str("3,0,1,0\n")?;
    }
    Ok((input, aside))
}

/// Of many requests the amounts of all days are asked for at once.
#[test]
fn many_at_once(rt: HostRuntime) -> Result<(), Fail> {
    let (input, aside) = many(rt.alloc(), 4096)?;
    let (more, behind) = many(rt.alloc(), 4097)?;
    let agree = "# agree notices 4097\n";
    let rows: [Asked<'_>; 3] = [
        (input.as_bytes(), aside.as_bytes(), 4096, FAULT, 6),
        (more.as_bytes(), behind.as_bytes(), 2, agree, 0),
        (more.as_bytes(), behind.as_bytes(), 1, FAULT, 6),
    ];
    each_asks(&rt, rt.alloc(), &rows)
}
