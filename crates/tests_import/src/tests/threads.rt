// A source fails while jobs are out in threads.
use super::counted_crew::CountedCrew;
use super::days::charged_on_leaving;
use super::offices::{Input, run};
use keep_office::{Keeper, MemKeeper};
use road_time::Limits;
use std::alloc::Global;
use std::thread::Threads;
use ways_crews::{NoGate, ThreadCrew};

/// Whether an import by threads ends with a read fault, some jobs were started, all of them finished, and nothing is
/// stored.
fn are_finished<R: Threads + Sync + Copy + Drop>(rt: R, alloc: Global) -> bool {
    let Ok(input) = charged_on_leaving(alloc) else {
        return false;
    };
    let limits = Limits {
        backlog: 8,
        ..Limits::DAY
    };
    let failing = Input {
        bytes: input.as_slice(),
        piece: 50,
        fails: &[20],
    };
    let words = ["import", "100", "--workers", "3", "--turns", "2"];
    let Ok(mut keeper) = MemKeeper::new(alloc, &[]) else {
        return false;
    };
    let mut crew = CountedCrew::new(ThreadCrew::new(rt, alloc, NoGate));
    let ended = match run(
        &rt,
        alloc,
        &words,
        &limits,
        failing,
        4096,
        &mut keeper,
        &mut crew,
    ) {
        Ok((text, status)) => status == 4 && text.bytes().ends_with(b"# read fault\n"),
        Err(_) => false,
    };
    let finished = crew.started > 0 && crew.finished == crew.started;
    ended && finished && keeper.last_day() == Ok(0)
}

#[test]
fn all_jobs_are_finished_where_a_source_fails(rt: HostRuntime) {
    assert!(rt; are_finished(rt, rt.alloc()));
}
