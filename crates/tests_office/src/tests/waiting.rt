// How many tuples may wait: what was written of a day before its reading failed.
use super::days::{Crowd, FIFTY_ONE, LEAVES, day, told};
use super::runs::{Step, ends_so, one_step, run};
use road_time::Limits;
use std::alloc::Global;
use std::test::Fail;
use std::thread::Threads;

/// The first forty vehicles of a crowd of fifty-one.
const FORTY: [Crowd; 1] = [Crowd {
    first: 1,
    last: 40,
    spd: 30,
}];

/// A command by which one tuple may wait, and the same by which all may.
type Waiting = [&'static [&'static str]; 2];

const COMMANDS: [Waiting; 2] = [
    [&["answers", "100", "--backlog", "1"], &["answers", "100"]],
    [&["import", "100", "--backlog", "1"], &["import", "100"]],
];

/// Whether the first forty are told before the read fails behind the first 2,000 bytes of a day, if one tuple may wait,
/// and none if all may.
fn is_told<R: Threads + Sync>(rt: &R, alloc: Global, words: Waiting) -> Result<bool, Fail> {
    let input = day(alloc, &FIFTY_ONE, &[&LEAVES])?;
    let first = told(alloc, &FORTY, "")?;
    let [one, all] = words;
    let one = Step {
        input_fails: &[20],
        input_piece: 100,
        ..one_step(one, input.as_slice(), b"", "", 4)
    };
    let all = Step {
        input_fails: &[20],
        input_piece: 100,
        ..one_step(all, input.as_slice(), b"", "# read fault\n", 4)
    };
    let (sink, status) = run(rt, alloc, &one)?;
    let text = sink.bytes();
    let cut = text.starts_with(first.as_bytes()) && text.ends_with(b"\n# read fault\n");
    Ok(cut && status == 4 && ends_so(rt, alloc, &Limits::DAY, &all)?)
}

/// If one tuple may wait, the first forty of some forty-six are told before the fault; if all may, none is.
#[test]
fn told_before_a_read_fault(rt: HostRuntime) -> Result<(), Fail> {
    for words in COMMANDS {
        assert!(rt; is_told(&rt, rt.alloc(), words)?);
    }
    Ok(())
}
