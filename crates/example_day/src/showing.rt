// What a row prints.
use day_floor::{Closed, SettleFault};
use std::io;
use std::rt::HostRuntime;
use ways_expressway::{Job, LaneEvent};

/// An event, on a line of its own.
fn show_event(rt: HostRuntime, event: &LaneEvent) -> io::Result<()> {
    match event {
        LaneEvent::Seen {
            position,
            report,
            begins,
            stopped,
        } => {
            let vid = report.vid;
            println!(rt; "  {position}: vehicle {vid} seen, begins {begins}, stopped {stopped}")
        }
        LaneEvent::Leave {
            position,
            vid,
            place,
            ..
        } => {
            let seg = place.seg;
            println!(rt; "  {position}: vehicle {vid} left segment {seg}")
        }
    }
}

/// A job and its events.
pub(crate) fn show_job(rt: HostRuntime, job: &Job) -> io::Result<()> {
    let worker = job.worker;
    let number = job.number;
    println!(rt; "worker {worker} is given job {number}")?;
    for event in job.events.items() {
        show_event(rt, event)?;
    }
    Ok(())
}

/// That no event waits for a worker.
pub(crate) fn show_none(rt: HostRuntime, worker: u8) -> io::Result<()> {
    println!(rt; "worker {worker} is given none")
}

/// How many tuples wait, how many more may be fed, and the mark.
pub(crate) fn show_floor(rt: HostRuntime, pending: u32, room: u32, mark: u64) -> io::Result<()> {
    println!(rt; "{pending} wait, {room} more may be fed, the mark is {mark}")
}

/// What is left of a day, or why it was stopped; and what was written.
pub(crate) fn show_end(
    rt: HostRuntime,
    end: &Result<Closed, SettleFault>,
    written: &str,
) -> io::Result<()> {
    match end {
        Ok(closed) => {
            let rows = closed.rows.items().len();
            let total = closed.total;
            let notices = closed.notices;
            println!(rt; "rows {rows}, total {total}, notices {notices}, written:")?;
        }
        Err(fault) => println!(rt; "{fault:?}, written:")?,
    }
    println!(rt; "{written}")
}
