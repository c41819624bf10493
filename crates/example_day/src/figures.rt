// What is printed of the long day's runs.
use crate::long_day::lines_of_day;
use crate::running::{Runs, runs_of};
use day_import::{AnsweredDay, Outcome};
use keep_office::DayRecord;
use std::io;
use std::rt::HostRuntime;
use std::thread::Threads;

/// What a day comes to, in figures.
fn show_sums(rt: HostRuntime, word: &str, day: &AnsweredDay) -> io::Result<()> {
    let AnsweredDay {
        bytes,
        tuples,
        notices,
        total,
    } = *day;
    println!(rt; "{word}: {tuples} tuples, {bytes} bytes, {notices} notices, {total} charged")
}

/// A record in figures, and the digests of its lines and of its notices.
fn show_record(rt: HostRuntime, word: &str, record: &DayRecord) -> io::Result<()> {
    let sums = AnsweredDay {
        bytes: record.bytes,
        tuples: record.tuples,
        notices: record.notices,
        total: record.total,
    };
    show_sums(rt, word, &sums)?;
    let (Ok(read), Ok(told)) = (
        record.digest.text(rt.alloc()),
        record.notices_digest.text(rt.alloc()),
    ) else {
        return println!(rt; "no memory for the digests");
    };
    println!(rt; "lines {read}")?;
    println!(rt; "notices {told}")
}

/// What an audit wrote, and its status.
fn show_audit(rt: HostRuntime, text: &[u8], status: u8) -> io::Result<()> {
    match str::from_utf8(text) {
        Ok(line) => println!(rt; "audited: {line}status {status}"),
        Err(_) => println!(rt; "no text"),
    }
}

/// An outcome.
fn show(rt: HostRuntime, outcome: &Outcome) -> io::Result<()> {
    match outcome {
        Outcome::Answered(day) => show_sums(rt, "answered", day),
        Outcome::Stored(record) => show_record(rt, "stored", record),
        Outcome::Already(record) => show_record(rt, "already", record),
        other => println!(rt; "{other:?}"),
    }
}

/// How each run of the day ends.
fn show_runs(rt: HostRuntime, runs: &Runs) -> io::Result<()> {
    show(rt, &runs.answered)?;
    show_audit(rt, runs.audit.as_slice(), runs.status)?;
    for outcome in &runs.imported {
        show(rt, outcome)?;
    }
    Ok(())
}

/// Makes the long day, runs it, and prints how each run ends.
pub(crate) fn show_long_day<R: Threads + Sync + Copy + Drop>(
    rt: HostRuntime,
    threads: R,
) -> io::Result<()> {
    let Ok(lines) = lines_of_day(rt.alloc()) else {
        return println!(rt; "no memory for the day");
    };
    match runs_of(&threads, threads, rt.alloc(), lines.as_slice()) {
        Ok(runs) => show_runs(rt, &runs),
        Err(_) => println!(rt; "no memory for its edges"),
    }
}
