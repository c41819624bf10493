// A realistic hour, over each crew.
use super::crews::{Kind, Task, by};
use super::offices::run_soon;
use road_io::MemSink;
use road_time::NoMemory;
use std::alloc::Global;
use std::sync::Wait;
use std::thread::Threads;

/// The hour's seed and sizes.
const HOUR: [&str; 7] = [
    "1",
    "--vehicles",
    "4000",
    "--minutes",
    "60",
    "--crashes",
    "2",
];

/// In rounds, in turns that five numbers draw, and with lines that may come two minutes late.
const WAYS: [&[&str]; 7] = [
    &[],
    &["--late=120"],
    &["--turns=1"],
    &["--turns=2"],
    &["--turns=3"],
    &["--turns=4"],
    &["--turns=5", "--late=120"],
];

/// A command of the hour, by some workers in some way.
fn words_of<'a>(
    alloc: Global,
    command: &'a str,
    workers: &'a str,
    way: &[&'a str],
) -> Result<Vec<&'a str>, NoMemory> {
    let mut words = Vec::new(alloc);
    words.push(command)?;
    words.extend_from_slice(&HOUR)?;
    words.push(workers)?;
    words.extend_from_slice(way)?;
    Ok(words)
}

/// Whether a crew of a kind rehearses the hour with this line, by some workers in some way.
fn is_rehearsed<'a, R: Threads + Wait + Sync + Copy + Drop>(
    rt: R,
    alloc: Global,
    kind: Kind,
    workers: &'a str,
    way: &[&'a str],
    line: &[u8],
) -> bool {
    match words_of(alloc, "rehearse", workers, way) {
        Ok(words) => by(rt, alloc, kind, Task::Words(words.as_slice(), line), None),
        Err(_) => false,
    }
}

/// Whether it does in each way.
fn is_rehearsed_in_each_way<'a, R: Threads + Wait + Sync + Copy + Drop>(
    rt: R,
    alloc: Global,
    kind: Kind,
    workers: &'a str,
    ways: &[&'a [&'a str]],
    line: &[u8],
) -> bool {
    for way in ways {
        if !is_rehearsed(rt, alloc, kind, workers, way, line) {
            return false;
        }
    }
    true
}

/// The closing line of the hour's rehearsal.
fn line_of<R: Threads + Sync>(rt: &R, alloc: Global) -> Result<(MemSink, u8), NoMemory> {
    let words = words_of(alloc, "rehearse", "--workers=1", &[])?;
    run_soon(rt, alloc, words.as_slice(), b"", 400)
}

/// Whether the hour ends with one and the same line, whoever does its jobs and however they are cut and ordered.
fn has_one_line<R: Threads + Wait + Sync + Copy + Drop>(rt: R, alloc: Global, kind: Kind) -> bool {
    let Ok((sink, status)) = line_of(&rt, alloc) else {
        return false;
    };
    let line = sink.bytes();
    status == 0
        && line.starts_with(b"# rehearsed bytes ")
        && is_rehearsed_in_each_way(rt, alloc, kind, "--workers=1", &WAYS, line)
        && is_rehearsed_in_each_way(rt, alloc, kind, "--workers=3", &WAYS, line)
        && is_rehearsed_in_each_way(rt, alloc, kind, "--workers=64", &WAYS, line)
}

#[test]
fn an_hour_by_jobs_that_run_as_they_are_started(rt: HostRuntime) {
    assert!(rt; has_one_line(rt, rt.alloc(), Kind::Soon));
}

#[test]
fn an_hour_by_jobs_that_run_as_they_are_finished(rt: HostRuntime) {
    assert!(rt; has_one_line(rt, rt.alloc(), Kind::Late));
}

#[test]
fn an_hour_by_jobs_in_threads(rt: HostRuntime) {
    assert!(rt; has_one_line(rt, rt.alloc(), Kind::Threads));
}

#[test]
fn an_hour_by_jobs_in_cells_beside_helpers(rt: HostRuntime) {
    assert!(rt; has_one_line(rt, rt.alloc(), Kind::Standing));
}

/// The last line of a text, without its end.
fn last_line(text: &[u8]) -> &[u8] {
    let all = text.strip_suffix(b"\n").unwrap_or(text);
    match all.iter().rposition(|byte| *byte == b'\n') {
        Some(at) => &all[at + 1..],
        None => all,
    }
}

/// What stands behind a word and a space of a line, up to the next space.
fn after<'a>(line: &'a [u8], word: &[u8]) -> Option<&'a [u8]> {
    let mut words = line.split(|byte| *byte == b' ');
    for found in words.by_ref() {
        if found == word {
            return words.next();
        }
    }
    None
}

/// The command that makes the hour.
const GENERATE: [&str; 8] = [
    "generate",
    "1",
    "--vehicles",
    "4000",
    "--minutes",
    "60",
    "--crashes",
    "2",
];

/// Whether a closing line has the same behind a word as another one.
fn tells_the_same(kept: &[u8], line: &[u8], word: &[u8]) -> bool {
    let there = after(line, word);
    there.is_some() && after(kept, word) == there
}

/// Whether the hour is generated and then imported with the counts of its rehearsal.
fn is_imported<R: Threads + Sync>(rt: &R, alloc: Global) -> bool {
    let Ok((line, _)) = line_of(rt, alloc) else {
        return false;
    };
    let Ok((file, made)) = run_soon(rt, alloc, &GENERATE, b"", 40_000_000) else {
        return false;
    };
    let import = ["import", "100"];
    let Ok((text, stored)) = run_soon(rt, alloc, &import, file.bytes(), 40_000_000) else {
        return false;
    };
    let (kept, line) = (last_line(text.bytes()), last_line(line.bytes()));
    [made, stored] == [0, 0]
        && kept.starts_with(b"# stored day 100 ")
        && tells_the_same(kept, line, b"tuples")
        && tells_the_same(kept, line, b"notices")
        && tells_the_same(kept, line, b"total")
}

#[test]
fn an_hour_that_is_generated_and_imported(rt: HostRuntime) {
    assert!(rt; is_imported(&rt, rt.alloc()));
}
