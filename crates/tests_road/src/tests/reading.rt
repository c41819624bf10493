// Days as they are read: whole, refused, late, and with a source that fails.
mod late;

use super::records::has_text;
use day_reading::{DayAhead, DayEnd, DayReader, ReadEnd, ReadStop, find_digest};
use road_digest::Digest;
use road_io::MemSource;
use road_time::{Limits, NoMemory, Tuple};
use std::alloc::Global;
use std::thread::Threads;
use tuples_text::Cause;

const ONE: &str = "0,0,7,30,0,0,0,10,52800,-1,-1,-1,-1,-1,-1\n";

const PAIR: &str =
    "0,10,1,30,0,1,0,10,52800,-1,-1,-1,-1,-1,-1\n0,10,2,30,0,1,0,10,52800,-1,-1,-1,-1,-1,-1\n";

const THREE: &str =
    "0,0,7,30,0,0,0,10,52800,-1,-1,-1,-1,-1,-1\n0,0,7,30,0,0,0,10,52800,-1,-1,-1,-1,-1,-1\n\
        0,0,7,30,0,0,0,10,52800,-1,-1,-1,-1,-1,-1\n";

/// How a source is read: at most so many bytes at a time, failing at some reads.
#[derive(Clone, Copy)]
struct Reads<'a> {
    piece: usize,
    fails: &'a [u32],
}

const WHOLE: Reads<'static> = Reads {
    piece: 7,
    fails: &[],
};

/// The tuples of a day, how its reading ended, and what was counted.
#[derive(Drop)]
struct Day {
    tuples: Vec<Tuple>,
    end: Result<(), ReadEnd>,
    lines: u64,
    bytes: u64,
    digest: Option<Digest>,
}

/// Reads on to the end of a day: why it ended before that, if it did.
fn read_on<R: Threads>(
    rt: &R,
    reader: &mut DayReader,
    source: &mut MemSource,
    tuples: &mut Vec<Tuple>,
) -> Result<Result<(), ReadEnd>, NoMemory> {
    for _ in 0..1000u32 {
        match reader.next(rt, source) {
            Ok(Some(tuple)) => tuples.push(tuple)?,
            Ok(None) => return Ok(Ok(())),
            Err(stop) => return Ok(Err(stop)),
        }
    }
    Ok(Ok(()))
}

fn read_day<R: Threads>(
    rt: &R,
    alloc: Global,
    input: &str,
    limits: &Limits,
    late: u8,
    reads: Reads<'_>,
) -> Result<Day, NoMemory> {
    let mut source = MemSource::new(alloc, input.as_bytes(), reads.piece.max(1), reads.fails)?;
    let mut reader = DayReader::new(alloc, limits, late.min(120), true)?;
    let mut tuples = Vec::new(alloc);
    let Ok(end) = read_on(rt, &mut reader, &mut source, &mut tuples) else {
        reader.close(rt);
        return Err(NoMemory);
    };
    Ok(Day {
        tuples,
        end,
        lines: reader.lines(),
        bytes: reader.bytes(),
        digest: reader.digest(rt),
    })
}

/// Reads a day one tuple ahead, with or without the digest: the number of its tuples, and its end.
fn count_ahead<R: Threads>(
    rt: &R,
    alloc: Global,
    input: &str,
    limits: &Limits,
    digested: bool,
    fails: &[u32],
) -> Result<(usize, Result<DayEnd, ReadStop>), NoMemory> {
    let mut source = MemSource::new(alloc, input.as_bytes(), 7, fails)?;
    let mut ahead = match DayAhead::open(rt, alloc, limits, 0, digested, &mut source) {
        Ok(ahead) => ahead,
        Err(stop) => return Ok((0, Err(stop))),
    };
    let mut count = 0usize;
    for _ in 0..1000u32 {
        match ahead.next(rt, &mut source) {
            Ok(Some(_)) => count = count.saturating_add(1),
            Ok(None) => break,
            Err(stop) => {
                ahead.close(rt);
                return Ok((count, Err(stop)));
            }
        }
    }
    if ahead.more() {
        ahead.close(rt);
        return Ok((count, Err(ReadStop::NoMemory)));
    }
    Ok((count, Ok(ahead.end(rt))))
}

/// Whether both ways to read a day end alike.
fn is_same(end: &Result<(), ReadEnd>, ahead: &Result<DayEnd, ReadStop>) -> bool {
    match (end, ahead) {
        (Ok(()), Ok(DayEnd::Whole { .. })) => true,
        (Err(ReadEnd::Refused { line, cause }), Ok(DayEnd::Refused { line: l, cause: c })) => {
            line == l && cause == c
        }
        (Err(ReadEnd::ReadFault), Err(ReadStop::ReadFault)) => true,
        _ => false,
    }
}

const TWO_LINES: Limits = Limits {
    lines: 2,
    ..Limits::DAY
};

const ONE_LINE: Limits = Limits {
    lines: 1,
    ..Limits::DAY
};

const ONE_VEHICLE: Limits = Limits {
    vehicles: 1,
    ..Limits::DAY
};

/// A day by its lines, its limits, the number of its tuples, and the line and the cause of its end where it is refused.
type Row = (&'static str, Limits, usize, Option<(u64, Cause)>);

const ROWS: [Row; 11] = [
    ("", Limits::DAY, 0, None),
    (ONE, Limits::DAY, 1, None),
    (
        "0,10,1,30,0,1,0,10,52800,-1,-1,-1,-1,-1,-1\n0,10,2,30,0,1,0,10,52800,-1,-1,-1,-1,-1,-1\n\
            0,9,3,30,0,1,0,10,52800,-1,-1,-1,-1,-1,-1\n",
        Limits::DAY,
        2,
        Some((3, Cause::Late(10, 9))),
    ),
    (
        "0,0,1,30,0,1,0,10,52800,-1,-1,-1,-1,-1,-1\n0,10,1,30,0,1,0,10,52800,-1,-1,-1,-1,-1,-1\n\
            0,20,1,30,0,1,0,10,52800,-1,-1,-1,-1,-1,-1\n0,30,1,30,0,1,0,10,52800,-1,-1,-1,-1,-1,-1\n\
            0,40,1,30,0,1,0,10,52800,-1,-1,-1,-1,-1,-1\n",
        Limits::DAY,
        4,
        Some((5, Cause::TooOften(1, 1))),
    ),
    (THREE, TWO_LINES, 2, Some((3, Cause::Many(2)))),
    (
        "\n0,0,7,30,0,0,0,10,52800,-1,-1,-1,-1,-1,-1\n",
        ONE_LINE,
        0,
        Some((2, Cause::Many(1))),
    ),
    (PAIR, ONE_VEHICLE, 1, Some((2, Cause::Vehicles(1)))),
    (
        "0,0,7,30,0,0,0,10,52800,-1,-1,-1,-1,-1\n",
        Limits::DAY,
        0,
        Some((1, Cause::Fields(14))),
    ),
    (
        "0,0,7,101,0,0,0,10,52800,-1,-1,-1,-1,-1,-1\n",
        Limits::DAY,
        0,
        Some((1, Cause::Range(4))),
    ),
    (
        "0,0,x,30,0,0,0,10,52800,-1,-1,-1,-1,-1,-1\n",
        Limits::DAY,
        0,
        Some((1, Cause::Number(3))),
    ),
    (
        "0,0,7,30,0,0,0,10,52800,-1,-1,-1,-2,-1,-1\n",
        Limits::DAY,
        0,
        Some((1, Cause::Range(13))),
    ),
];

/// The end of a day that is refused at a line, or read whole.
fn end_of(refused: Option<(u64, Cause)>) -> Result<(), ReadEnd> {
    match refused {
        Some((line, cause)) => Err(ReadEnd::Refused { line, cause }),
        None => Ok(()),
    }
}

/// Whether a day is read so, and the same a tuple ahead.
fn is_read<R: Threads>(rt: &R, alloc: Global, row: &Row) -> bool {
    let (input, limits, count, refused) = row;
    let end = end_of(*refused);
    let ahead = match count_ahead(rt, alloc, input, limits, false, &[]) {
        Ok((found, ended)) => found == *count && is_same(&end, &ended),
        Err(_) => false,
    };
    match read_day(rt, alloc, input, limits, 0, WHOLE) {
        Ok(day) => ahead && day.end == end && day.tuples.len() == *count,
        Err(_) => false,
    }
}

/// The number of the first day that is not read so, their count where all are.
fn first_misread<R: Threads>(rt: &R, alloc: Global, rows: &[Row]) -> usize {
    for (at, row) in rows.iter().enumerate() {
        if !is_read(rt, alloc, row) {
            return at;
        }
    }
    rows.len()
}

#[test]
fn days_and_their_ends(rt: HostRuntime) {
    assert_eq!(rt; first_misread(&rt, rt.alloc(), &ROWS), 11);
}

/// The digest of one line, where its day has one line, one tuple and 42 bytes.
fn digest_of_one<R: Threads>(rt: &R, alloc: Global) -> Option<Digest> {
    match read_day(rt, alloc, ONE, &Limits::DAY, 0, WHOLE) {
        Ok(one) if (one.lines, one.bytes, one.tuples.len()) == (1, 42, 1) => one.digest,
        _ => None,
    }
}

/// Whether the first 42 bytes of three lines have this digest.
fn is_found(alloc: Global, digest: Digest) -> bool {
    match MemSource::new(alloc, THREE.as_bytes(), 7, &[]) {
        Ok(mut source) => find_digest(alloc, 41, &mut source) == Ok(digest),
        Err(_) => false,
    }
}

/// How many tuples one line has, and how it is read to its end at once, with or without the digest.
fn read_at_once<R: Threads>(rt: &R, alloc: Global, digested: bool) -> Option<(usize, DayEnd)> {
    let Ok(mut source) = MemSource::new(alloc, ONE.as_bytes(), 7, &[]) else {
        return None;
    };
    match day_reading::read_day(rt, alloc, &Limits::DAY, 0, digested, &mut source) {
        Ok(day) => Some((day.tuples.len(), day.end)),
        Err(_) => None,
    }
}

/// Whether one line is read to its end, at once and a tuple ahead, with its digest, where that is asked for, or
/// without.
fn is_read_whole<R: Threads>(rt: &R, alloc: Global, asked: Option<Digest>) -> bool {
    let whole = DayEnd::Whole {
        bytes: 42,
        digest: asked,
    };
    let ahead = count_ahead(rt, alloc, ONE, &Limits::DAY, asked.is_some(), &[]);
    ahead == Ok((1, Ok(whole))) && read_at_once(rt, alloc, asked.is_some()) == Some((1, whole))
}

const TEXT: &str = "fc2f0b2e7199ba75ff5a464f444f1d13574338c146416b399a7125bc0993cf7b";

/// Whether one line is read with its digest and without, has its digest, the first 42 bytes of three lines have it too,
/// and a failed read comes before any tuple.
fn is_one_line<R: Threads>(rt: &R, alloc: Global) -> bool {
    let Some(digest) = digest_of_one(rt, alloc) else {
        return false;
    };
    has_text(alloc, &digest, TEXT)
        && is_found(alloc, digest)
        && count_ahead(rt, alloc, PAIR, &Limits::DAY, true, &[1])
            == Ok((0, Err(ReadStop::ReadFault)))
        && is_read_whole(rt, alloc, Some(digest))
        && is_read_whole(rt, alloc, None)
}

#[test]
fn one_line_and_its_digest(rt: HostRuntime) {
    assert!(rt; is_one_line(&rt, rt.alloc()));
}
