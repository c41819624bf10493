// Lines that are late, however they are cut, and with each read failing in turn.
use super::{Reads, end_of, read_day};
use day_reading::ReadEnd;
use road_time::{Limits, Report, Tuple};
use std::alloc::Global;
use std::thread::Threads;
use tuples_text::Cause;

fn report(time: u32, vid: u32) -> Tuple {
    Tuple::Report(Report {
        time,
        vid,
        spd: 30,
        xway: 0,
        lane: 1,
        dir: 0,
        seg: 10,
        pos: 52_800,
    })
}

/// A report, then a balance request and a report that are half a minute late.
const TURNED: &str =
    "0,30,1,30,0,1,0,10,52800,-1,-1,-1,-1,-1,-1\n2,0,1,-1,-1,-1,-1,-1,-1,9,-1,-1,-1,-1,-1\n\
        0,0,2,30,0,1,0,10,52800,-1,-1,-1,-1,-1,-1\n";

/// Whether that day by this lateness has these tuples and this end.
fn is_turned<R: Threads>(
    rt: &R,
    alloc: Global,
    piece: usize,
    late: u8,
    tuples: &[Tuple],
    refused: Option<(u64, Cause)>,
) -> bool {
    let reads = Reads { piece, fails: &[] };
    match read_day(rt, alloc, TURNED, &Limits::DAY, late, reads) {
        Ok(day) => day.end == end_of(refused) && day.tuples.as_slice() == tuples,
        Err(_) => false,
    }
}

/// Whether that day is sorted by half a minute, and refused by less, in pieces of this size.
fn is_turned_in_pieces<R: Threads>(rt: &R, alloc: Global, piece: usize) -> bool {
    let balance = Tuple::Balance {
        time: 0,
        vid: 1,
        qid: 9,
    };
    let sorted = [balance, report(0, 2), report(30, 1)];
    let refused = Some((2, Cause::Late(30, 0)));
    is_turned(rt, alloc, piece, 30, &sorted, None)
        && is_turned(rt, alloc, piece, 29, &[report(30, 1)], refused)
}

#[test]
fn late_lines(rt: HostRuntime) {
    let alloc = rt.alloc();
    let turned = [
        is_turned_in_pieces(&rt, alloc, 1),
        is_turned_in_pieces(&rt, alloc, 7),
        is_turned_in_pieces(&rt, alloc, 65_536),
    ];
    assert_eq!(rt; turned, [true; 3]);
}

/// How many tuples of that day are given where this read fails, and how it ends.
fn failed_at<R: Threads>(rt: &R, alloc: Global, read: u32) -> Option<(usize, Result<(), ReadEnd>)> {
    let reads = Reads {
        piece: 10,
        fails: &[read],
    };
    match read_day(rt, alloc, TURNED, &Limits::DAY, 30, reads) {
        Ok(day) => Some((day.tuples.len(), day.end)),
        Err(_) => None,
    }
}

/// Whether each read fails in turn with fewer tuples than three, until none does and all three are given.
fn are_given_until_a_read_fails<R: Threads>(rt: &R, alloc: Global) -> bool {
    for read in 0..100u32 {
        match failed_at(rt, alloc, read) {
            Some((count, Ok(()))) => return count == 3,
            Some((count, Err(ReadEnd::ReadFault))) if count < 3 => {}
            _ => return false,
        }
    }
    false
}

/// Each read fails in turn, until none does.
#[test]
fn each_read_of_late_lines_fails(rt: HostRuntime) {
    assert!(rt; are_given_until_a_read_fails(&rt, rt.alloc()));
}
