// What is said of a run that failed, beside what it writes.
use super::runs::{ANSWERED, ONE};
use keep_office::AnewKeeper;
use office_ends::answered;
use road_io::{MemSink, MemSource};
use road_time::Limits;
use std::alloc::Global;
use std::test::Fail;
use std::thread::Threads;
use ways_crews::InlineCrew;

/// A command, which reads and which calls of the keeper fail, the cause that the keeper tells, the room for what is said,
/// what is written and said, and the status.
#[derive(Clone, Copy)]
struct Row {
    words: &'static [&'static str],
    input_fails: &'static [u32],
    keeper_fails: &'static [u32],
    cause: Option<&'static str>,
    room: usize,
    text: &'static str,
    said: &'static str,
    status: u8,
}

/// A cause as a text.
fn line_of(alloc: Global, cause: Option<&str>) -> Option<String> {
    match cause {
        Some(line) => String::from_str(alloc, line).ok(),
        None => None,
    }
}

/// Whether a command writes and says what a row has.
fn is_so<R: Threads + Sync>(rt: &R, alloc: Global, row: &Row) -> Result<bool, Fail> {
    let mut words = Vec::new(alloc);
    for word in row.words {
        words.push(String::from_str(alloc, word)?)?;
    }
    let mut source = MemSource::new(alloc, ONE, 7, row.input_fails)?;
    let mut aside = MemSource::new(alloc, b"", 7, &[])?;
    let mut sink = MemSink::new(alloc, 2000, 5)?;
    let mut err = MemSink::new(alloc, row.room, 5)?;
    let mut keeper = AnewKeeper::new(alloc, row.keeper_fails)?;
    let mut crew = InlineCrew::new(alloc, false);
    let cause = row.cause;
    let status = answered(
        rt,
        alloc,
        words.as_slice(),
        &Limits::DAY,
        &mut source,
        &mut aside,
        &mut sink,
        &mut keeper,
        &|_keeper: &AnewKeeper| line_of(alloc, cause),
        &mut err,
        &mut crew,
    );
    let same = sink.bytes() == row.text.as_bytes() && err.bytes() == row.said.as_bytes();
    Ok(same && status == row.status)
}

const KEEPER_FAULT: Row = Row {
    words: &["import", "100"],
    input_fails: &[],
    keeper_fails: &[0],
    cause: Some("tolls.db: another program has it open\n"),
    room: 2000,
    text: "# keeper fault\n",
    said: "tolls.db: another program has it open\n",
    status: 6,
};

const ROWS: [Row; 7] = [
    KEEPER_FAULT,
    Row {
        room: 8,
        said: "tolls.db",
        ..KEEPER_FAULT
    },
    Row {
        cause: None,
        said: "",
        ..KEEPER_FAULT
    },
    Row {
        words: &["answers", "100"],
        input_fails: &[0],
        text: "# read fault\n",
        said: "toll_office: standard input or notices.txt cannot be read\n",
        status: 4,
        keeper_fails: &[],
        ..KEEPER_FAULT
    },
    Row {
        words: &["answers", "100"],
        text: ANSWERED,
        said: "",
        status: 0,
        keeper_fails: &[],
        ..KEEPER_FAULT
    },
    Row {
        words: &["day", "100"],
        text: "# no day 100\n",
        said: "",
        status: 3,
        keeper_fails: &[],
        ..KEEPER_FAULT
    },
    Row {
        words: &["what"],
        text: "# words\n",
        said: "",
        status: 1,
        ..KEEPER_FAULT
    },
];

/// A fault says its cause in one line, as far as there is room; what goes well or is refused says nothing.
#[test]
fn faults_say_why(rt: HostRuntime) -> Result<(), Fail> {
    for row in ROWS {
        assert!(rt; is_so(&rt, rt.alloc(), &row)?, "status {}", row.status);
    }
    Ok(())
}
