// Lines, and the texts of causes, tuples and notices.
use road_time::{Notice, Report, Tuple};
use std::alloc::Global;
use tuples_text::{Cause, put_notice, put_tuple, read_line, read_notice};

const REPORT: Report = Report {
    time: 0,
    vid: 7,
    spd: 30,
    xway: 0,
    lane: 0,
    dir: 0,
    seg: 10,
    pos: 52_800,
};

/// Lines, and what is read of them.
const LINES: [(&[u8], Result<Option<Tuple>, Cause>); 19] = [
    (
        b"0,0,7,30,0,0,0,10,52800,-1,-1,-1,-1,-1,-1",
        Ok(Some(Tuple::Report(REPORT))),
    ),
    (
        b"0,0,7,30,0,0,0,10,52800,-1,-1,-1,-1,-1,-1\r",
        Ok(Some(Tuple::Report(REPORT))),
    ),
    (
        b"-0,0,7,30,0,0,0,10,52800,-1,-1,-1,-1,-1,-1",
        Ok(Some(Tuple::Report(REPORT))),
    ),
    (
        b"2,60,7,-1,-1,-1,-1,-1,-1,5,-1,-1,-1,-1,-1",
        Ok(Some(Tuple::Balance {
            time: 60,
            vid: 7,
            qid: 5,
        })),
    ),
    (
        b"3,60,7,-1,3,-1,-1,-1,-1,5,-1,-1,-1,-1,69",
        Ok(Some(Tuple::Spent {
            time: 60,
            vid: 7,
            xway: 3,
            qid: 5,
            day: 69,
        })),
    ),
    (
        b"4,60,7,-1,3,-1,-1,-1,-1,5,-1,-1,-1,-1,99",
        Ok(Some(Tuple::Travel { time: 60 })),
    ),
    (b"", Ok(None)),
    (b"\r", Ok(None)),
    (&[b'1'; 200], Err(Cause::Fields(1))),
    (
        b"0,0,7,30,0,0,0,10,52800,-1,-1,-1,-1,-1",
        Err(Cause::Fields(14)),
    ),
    (
        b"0,0,7,30,0,0,0,10,52800,-1,-1,-1,-1,-1,-1,0",
        Err(Cause::Fields(16)),
    ),
    (
        b"-,0,7,30,0,0,0,10,52800,-1,-1,-1,-1,-1,-1",
        Err(Cause::Number(1)),
    ),
    (
        b"0,00000000000,7,30,0,0,0,10,52800,-1,-1,-1,-1,-1,-1",
        Err(Cause::Number(2)),
    ),
    (
        b"0,0,\0,30,0,0,0,10,52800,-1,-1,-1,-1,-1,-1",
        Err(Cause::Number(3)),
    ),
    (
        b"0,0,7,30,0,0,0,10,52800,-1,-1,-1,-1,-1,-1\r\r",
        Err(Cause::Number(15)),
    ),
    (
        b"1,0,7,30,0,0,0,10,52800,-1,-1,-1,-1,-1,-1",
        Err(Cause::Range(1)),
    ),
    (
        b"0,86400,7,30,0,0,0,10,52800,-1,-1,-1,-1,-1,-1",
        Err(Cause::Range(2)),
    ),
    (
        b"0,0,7,101,0,0,0,10,52800,-1,-1,-1,-1,-1,-1",
        Err(Cause::Range(4)),
    ),
    (
        b"0,0,7,30,0,0,0,10,52800,-1,-1,-1,-2,-1,-1",
        Err(Cause::Range(13)),
    ),
];

/// The number of the first line that is not read as it is to be, their count where all are.
fn first_misread(lines: &[(&[u8], Result<Option<Tuple>, Cause>)]) -> usize {
    for (at, (line, want)) in lines.iter().enumerate() {
        if line.len() > 200 || read_line(line) != *want {
            return at;
        }
    }
    lines.len()
}

#[test]
fn lines_are_read(rt: HostRuntime) {
    assert_eq!(rt; first_misread(&LINES), 19);
}

const CAUSES: [(Cause, &[u8]); 8] = [
    (Cause::Long, b"long"),
    (Cause::Many(2), b"many 2"),
    (Cause::Fields(14), b"fields 14"),
    (Cause::Number(3), b"number 3"),
    (Cause::Range(4), b"range 4"),
    (Cause::Late(10, 9), b"late 10 9"),
    (Cause::TooOften(1, 1), b"too-often 1 1"),
    (Cause::Vehicles(1), b"vehicles 1"),
];

const NOTICES: [(&[u8], Notice); 4] = [
    (
        b"0,7,0,-1,0",
        Notice::Toll {
            vid: 7,
            time: 0,
            lav: -1,
            toll: 0,
        },
    ),
    (
        b"1,120,3,10",
        Notice::Alert {
            time: 120,
            vid: 3,
            seg: 10,
        },
    ),
    (
        b"2,200,1,0",
        Notice::Balance {
            time: 200,
            qid: 1,
            amount: 0,
        },
    ),
    (
        b"3,150,11,18446744073709551615",
        Notice::Spent {
            time: 150,
            qid: 11,
            amount: u64::MAX,
        },
    ),
];

/// Lines of no notice.
const NO_NOTICES: [&[u8]; 6] = [
    b"0,07,0,-1,0",
    b"0,7,0,-2,0",
    b"0,7,0,101,0",
    b"1,86400,3,10",
    b"3,150,11,18446744073709551616",
    b"",
];

/// Whether a cause has this text.
fn is_text_of(alloc: Global, cause: Cause, text: &[u8]) -> bool {
    match format!(in alloc; "{cause}") {
        Ok(found) => found.as_bytes() == text,
        Err(_) => false,
    }
}

/// Whether each cause has its text.
fn are_texts(alloc: Global, causes: &[(Cause, &[u8])]) -> bool {
    for (cause, text) in causes {
        if !is_text_of(alloc, *cause, text) {
            return false;
        }
    }
    true
}

/// Whether a notice is written as this line.
fn is_line_of(alloc: Global, notice: &Notice, line: &[u8]) -> bool {
    let mut out = Vec::new(alloc);
    put_notice(&mut out, notice).is_ok() && out.pop() == Some(b'\n') && out.as_slice() == line
}

/// Whether each notice is written and read.
fn are_notices(alloc: Global, notices: &[(&[u8], Notice)]) -> bool {
    for (line, notice) in notices {
        if read_notice(line) != Some(*notice) || !is_line_of(alloc, notice, line) {
            return false;
        }
    }
    true
}

/// Whether lines of no notice are read as none.
fn are_none(lines: &[&[u8]]) -> bool {
    for line in lines {
        if read_notice(line) != None {
            return false;
        }
    }
    true
}

/// Whether a tuple is written as this line.
fn is_line_of_tuple(alloc: Global, tuple: &Tuple, line: &[u8]) -> bool {
    let mut out = Vec::new(alloc);
    put_tuple(&mut out, tuple).is_ok() && out.as_slice() == line
}

#[test]
fn texts_of_causes_and_notices(rt: HostRuntime) {
    let alloc = rt.alloc();
    let line = b"0,0,7,30,0,0,0,10,52800,-1,-1,-1,-1,-1,-1\n".as_slice();
    let rows = [
        are_texts(alloc, &CAUSES),
        are_notices(alloc, &NOTICES),
        are_none(&NO_NOTICES),
        is_line_of_tuple(alloc, &Tuple::Report(REPORT), line),
    ];
    assert_eq!(rt; rows, [true; 4]);
}
