// A standing crew that is asked as a caller asks it, alone and with helpers.
ghost use Rattle.std.specs.Prelude.{◌≡◌, ◌<◌, ◌≤◌, [], IfOk, length};

mod held;

use super::crews::are_answered;
use super::crews::held::SecondFirst;
use super::jobs::{is_right, one_report};
use road_time::NoMemory;
use std::alloc::Global;
use std::sync::Wait;
use std::thread::Threads;
use ways_crews::{
    Crew, Crewed, Gate, Helper, NoGate, StandingCrew, beside, finish_among, help, standing,
    start_beside,
};

/// The worker of all jobs here.
const WORKER: u8 = 3;

fn moves<T: Send>() {}

/// A crew and its helpers may move between threads.
#[test]
fn a_crew_and_its_helpers_move_between_threads(_rt: HostRuntime) {
    moves::<StandingCrew<HostRuntime, NoGate>>();
    moves::<Helper>();
}

/// Two jobs over a crew, the first finished first: whether each was answered with its own findings.
fn are_answered_in_order<C: Crew>(alloc: Global, crew: &mut C) -> Result<bool, NoMemory>
    requires { C.out crew.old ≡ [] }
{
    let first = one_report(alloc, WORKER, 0)?;
    let second = one_report(alloc, WORKER, 1)?;
    let one = start_beside(crew, first);
    let two = start_beside(crew, second);
    let sooner = finish_among(crew, one);
    let later = finish_among(crew, two);
    Ok(is_right(&sooner, WORKER, 0, 0) && is_right(&later, WORKER, 1, 0))
}

/// Two jobs over a crew of two cells without a helper, and two after its stop: whether those before were answered and
/// told, and those after answered.
fn are_run_alone<R: Threads + Wait + Sync + Copy + Drop>(
    rt: R,
    alloc: Global,
) -> Result<[bool; 3], NoMemory> {
    let Crewed { crew, helpers } = standing(rt, alloc, 2, 0, true, NoGate)?;
    let mut crew = crew;
    let before = are_answered(alloc, &mut crew, (WORKER, WORKER), 0)?;
    let told = crew.jobs().len() == 2;
    crew.stop();
    let after = are_answered(alloc, &mut crew, (WORKER, WORKER), 0)?;
    crew.close(helpers);
    Ok([before, told, after])
}

/// A crew of two cells and no helper runs two jobs on the caller alone, before and after its stop, tells
/// them, and is closed.
#[test]
fn two_jobs_are_run_on_the_caller_alone(rt: HostRuntime) {
    assert!(rt; are_run_alone(rt, rt.alloc()) == Ok([true; 3]));
}

/// Two jobs in order over a crew of two cells with so many helpers, all of which pass one gate.
fn answered_beside<R: Threads + Wait + Sync + Copy + Drop>(
    rt: R,
    alloc: Global,
    gate: &SecondFirst,
    count: u8,
) -> Result<bool, NoMemory>
    requires { count ≤ 16 }
{
    let Crewed { crew, helpers } = standing(rt, alloc, 2, count, false, gate.share()?)?;
    let mut crew = crew;
    let (_, right) = beside(&rt, gate, helpers, || {
        let right = are_answered_in_order(alloc, &mut crew);
        crew.stop();
        right
    });
    right
}

/// The same with a gate that holds job 0, and whether that saw job 1 pass.
fn sees_beside<R: Threads + Wait + Sync + Copy + Drop>(
    rt: R,
    alloc: Global,
    count: u8,
) -> Result<(bool, bool), NoMemory>
    requires { count ≤ 16 }
{
    let gate = SecondFirst::new(alloc)?;
    let right = answered_beside(rt, alloc, &gate, count)?;
    Ok((right, gate.has_seen()))
}

/// A job that is held sees the next one pass where there is a helper, and does not on the caller alone.
#[test]
fn a_held_job_sees_the_next_one_pass_beside_a_helper(rt: HostRuntime) {
    let beside = sees_beside(rt, rt.alloc(), 1);
    let on_caller = sees_beside(rt, rt.alloc(), 0);
    assert!(rt; [beside, on_caller] == [Ok((true, true)), Ok((true, false))]);
}

/// Two jobs over a crew, and its stop.
fn answered_and_stopped<R: Wait + Drop, G: Gate + Drop>(
    alloc: Global,
    crew: StandingCrew<R, G>,
) -> (StandingCrew<R, G>, Result<bool, NoMemory>)
    requires { ⟦<StandingCrew<R, G> as Crew>⟧.out crew ≡ [] }
    ensures idle { IfOk result.1 (λ right. ⟦<StandingCrew<R, G> as Crew>⟧.out result.0 ≡ []) }
    ensures which { ⟦<StandingCrew<R, G> as Crew>⟧.which result.0 ≡ ⟦<StandingCrew<R, G> as Crew>⟧.which crew }
{
    let mut crew = crew;
    let right = are_answered(alloc, &mut crew, (WORKER, WORKER), 0);
    crew.stop();
    (crew, right)
}

/// Two jobs beside so many helpers, which come back and are closed with their crew: whether each job was
/// answered with its own findings, and all helpers came back.
fn answered_and_closed<R: Threads + Wait + Sync + Copy + Drop>(
    rt: R,
    alloc: Global,
    count: u8,
) -> Result<bool, NoMemory>
    requires { count ≤ 16 }
{
    let Crewed { crew, helpers } = standing(rt, alloc, 64, count, false, NoGate)?;
    let (helpers, (crew, right)) = beside(
        &rt,
        &NoGate,
        helpers,
        move || answered_and_stopped(alloc, crew),
    );
    let right = right?;
    let all = helpers.len() == usize::from(count);
    crew.close(helpers);
    Ok(right && all)
}

/// Four helpers help beside two jobs, come back, and are closed with their crew.
#[test]
fn four_helpers_help_and_come_back(rt: HostRuntime) {
    assert!(rt; answered_and_closed(rt, rt.alloc(), 4) == Ok(true));
}

/// A helper that begins after the stop of its crew is handed back, and closed with it.
fn is_closed_with_its_helper<R: Threads + Wait + Sync + Copy + Drop>(
    rt: R,
    alloc: Global,
) -> Result<(), NoMemory> {
    let Crewed { crew, helpers } = standing(rt, alloc, 2, 1, false, NoGate)?;
    let mut crew = crew;
    let mut helpers = helpers;
    crew.stop();
    let mut back = Vec::new(alloc);
    if let Some(helper) = helpers.pop() {
        back.push(help(&rt, helper, &NoGate))?;
        crew.close(back);
    }
    Ok(())
}

/// A helper that begins after the stop is handed back at once.
#[test]
fn a_helper_after_the_stop_is_handed_back(rt: HostRuntime) {
    assert!(rt; is_closed_with_its_helper(rt, rt.alloc()).is_ok());
}
