// Crews that are asked as a caller asks them.
ghost use Rattle.std.specs.Prelude.{◌≡◌, ◌≤◌, [], List, IfOk, map};
ghost use Rattle.ways_expressway.specs.declared.job.Job.{Job as TheJob};
ghost use Rattle.ways_crews.specs.Callers.{HasOut};

pub(crate) mod held;

use super::jobs::{is_right, one_finding, one_report};
use road_time::NoMemory;
use std::alloc::Global;
use std::collections::VecDeque;
use std::thread::Threads;
use ways_crews::{
    Crew, InlineCrew, LateCrew, MarkCrew, NoGate, Places, Started, ThreadCrew, ThreadPlaces,
    TicketEntry, finish_among, run_both, start_beside,
};

fn moves<T: Send>() {}

/// Crews, and what they keep, may move between threads.
#[test]
fn crews_move_between_threads(_rt: HostRuntime) {
    moves::<TicketEntry>();
    moves::<Places>();
    moves::<ThreadPlaces>();
    moves::<InlineCrew>();
    moves::<LateCrew>();
    moves::<ThreadCrew<HostRuntime, NoGate>>();
}

/// Two jobs of these workers over a crew, the second finished first: whether each was answered with its own findings.
pub(crate) fn are_answered<C: Crew>(
    alloc: Global,
    crew: &mut C,
    workers: (u8, u8),
    toll: u64,
) -> Result<bool, NoMemory>
    requires { C.out crew.old ≡ [] }
    ensures idle { IfOk result (λ right. C.out crew.new ≡ []) }
    ensures which { C.which crew.new ≡ C.which crew.old }
{
    let first = one_report(alloc, workers.0, 0)?;
    let second = one_report(alloc, workers.1, 1)?;
    let (first, second) = run_both(crew, first, second);
    Ok(is_right(&first, workers.0, 0, toll) && is_right(&second, workers.1, 1, toll))
}

/// Starts so many jobs, by the numbers from 0.
pub(super) fn start_all<C: Crew>(
    alloc: Global,
    crew: &mut C,
    count: u32,
) -> Result<VecDeque<C::Ticket>, NoMemory>
    requires room { count ≤ 64 }
    requires idle { C.out crew.old ≡ [] }
    ensures { IfOk result (λ tickets. (tasks : List (C.Ticket × TheJob)) × (map (λ t. t.0) tasks ≡ tickets.items)
        × HasOut C.out C.number C.holds C.gave crew.new tasks) }
{
    let mut tickets = VecDeque::new(alloc);
    for number in 0..count {
        let job = one_report(alloc, 3, number)?;
        tickets.push_back(start_beside(crew, job))?;
    }
    Ok(tickets)
}

/// Finishes so many of them in the order of their starts: whether each was answered with its own findings.
pub(super) fn finish_each<C: Crew>(
    crew: &mut C,
    mut tickets: VecDeque<C::Ticket>,
    count: u32,
    toll: u64,
) -> bool
    requires { (tasks : List (C.Ticket × TheJob)) × (map (λ t. t.0) tasks ≡ tickets.items)
        × HasOut C.out C.number C.holds C.gave crew.old tasks }
{
    for number in 0..count {
        let Some(ticket) = tickets.pop_front() else {
            return false;
        };
        let done = finish_among(crew, ticket);
        if !is_right(&done, 3, number, toll) {
            return false;
        }
    }
    true
}

/// Two jobs over a crew in the other order, then 64 out together: whether each was answered with its own findings.
fn serves<C: Crew + Drop>(alloc: Global, mut crew: C, toll: u64) -> Result<bool, NoMemory>
    requires { C.out crew ≡ [] }
{
    let two = are_answered(alloc, &mut crew, (0, 1), toll)?;
    let tickets = start_all(alloc, &mut crew, 64)?;
    Ok(two && finish_each(&mut crew, tickets, 64, toll))
}

/// The same over each crew: whether jobs are run as they are started, as they are finished, in threads, and with another
/// toll.
fn each_serves<R: Threads + Copy + Drop>(rt: R, alloc: Global) -> [Result<bool, NoMemory>; 4] {
    let at_once = serves(alloc, InlineCrew::new(alloc, true), 0);
    let late = serves(alloc, LateCrew::new(alloc, true), 0);
    let threads = serves(alloc, ThreadCrew::new(rt, alloc, NoGate), 0);
    let mark = serves(alloc, MarkCrew::new(alloc, 6), 6);
    [at_once, late, threads, mark]
}

/// Each crew answers each job with its own findings, in whatever order they are finished, with as many as 64 out.
#[test]
fn each_crew_answers_each_job(rt: HostRuntime) {
    assert!(rt; each_serves(rt, rt.alloc()) == [Ok(true); 4]);
}

/// Whether a `MarkCrew` tells both findings with the toll, that of the job finished first before the other.
fn have_the_toll(alloc: Global) -> bool {
    let mut mark = MarkCrew::new(alloc, 6);
    let both = are_answered(alloc, &mut mark, (0, 1), 6) == Ok(true);
    let [second] = one_finding(1, 6);
    let [first] = one_finding(0, 6);
    both && mark.answered() == [second, first].as_slice()
}

/// A `MarkCrew` tells the findings that it answered, each with its toll, in the order of the finishes.
#[test]
fn what_was_answered_has_the_toll(rt: HostRuntime) {
    assert!(rt; have_the_toll(rt.alloc()));
}

/// Two jobs over a crew, the second finished first: whether the first was run, and the second.
fn are_run<C: Crew>(alloc: Global, crew: &mut C) -> Result<(bool, bool), NoMemory>
    requires { C.out crew.old ≡ [] }
{
    let (first, second) = run_both(crew, one_report(alloc, 2, 0)?, one_report(alloc, 1, 1)?);
    Ok((first.result.is_ok(), second.result.is_ok()))
}

/// Whether a job of a worker, of one event, was told; it may be untold where it was not run.
fn is_told(job: Option<&Started>, worker: u8, number: u32, ran: bool) -> bool {
    match job {
        Some(job) => { (job.worker, job.number, job.events.items().len()) == (worker, number, 1) }
        None => !ran,
    }
}

/// Whether job 0 is told, job 1, and no other; and none where none is to be told.
fn are_listed(alloc: Global) -> [bool; 4] {
    let mut crew = LateCrew::new(alloc, true);
    let Ok((first, second)) = are_run(alloc, &mut crew) else {
        return [false; 4];
    };
    let mut listed = crew.jobs().iter();
    let zero = is_told(listed.next(), 2, 0, first);
    let one = is_told(listed.next(), 1, 1, second);
    let two = listed.next().is_none();
    [
        zero,
        one,
        two,
        InlineCrew::new(alloc, false).jobs().is_empty(),
    ]
}

/// Jobs are told as they are started. A job that cannot be listed ends the list, and is not run.
#[test]
fn jobs_are_told_as_they_are_started(rt: HostRuntime) {
    assert_eq!(rt; are_listed(rt.alloc()), [true; 4]);
}
