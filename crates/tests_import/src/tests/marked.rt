// What the workers find is what is written.
use super::days::{charged_on_leaving, told_with};
use super::offices::run_by;
use std::alloc::Global;
use std::thread::Threads;
use ways_crews::MarkCrew;

/// What follows the crowd's notices where each toll is 6.
const MARKED: &str =
    "0,100,60,30,6\n0,100,90,-1,6\n0,100,150,-1,6\n2,160,9,6\n# answered day 100 tuples 56 notices 55\n";

/// Whether `answers` by so many workers writes this, with status 0, where its crew found 54 tolls of 6 and no other.
fn is_marked<R: Threads + Sync>(
    rt: &R,
    alloc: Global,
    workers: &str,
    input: &[u8],
    wanted: &[u8],
) -> bool {
    let mut crew = MarkCrew::new(alloc, 6);
    let words = ["answers", "100", workers];
    let written = match run_by(rt, alloc, &words, input, 4096, &mut crew) {
        Ok((sink, status)) => sink.bytes() == wanted && status == 0,
        Err(_) => false,
    };
    let six = crew.answered().iter().filter(|found| found.toll == 6);
    written && (crew.answered().len(), six.count()) == (54, 54)
}

/// Whether it does by one worker and by three.
fn are_marked<R: Threads + Sync>(rt: &R, alloc: Global) -> bool {
    let Ok(input) = charged_on_leaving(alloc) else {
        return false;
    };
    let Ok(wanted) = told_with(alloc, 6, MARKED) else {
        return false;
    };
    let (input, wanted) = (input.as_slice(), wanted.as_slice());
    is_marked(rt, alloc, "--workers=1", input, wanted)
        && is_marked(rt, alloc, "--workers=3", input, wanted)
}

#[test]
fn what_the_workers_find_is_written(rt: HostRuntime) {
    assert!(rt; are_marked(&rt, rt.alloc()));
}
