// Histories as they are kept, from the worked rows.
ghost use Rattle.std.specs.Prelude.{◌≤◌};

use super::records::{amount, are_amounts, day_of, has_text};
use day_past::{PastCause, PastOutcome, import_past};
use keep_office::{Keeper, LateKeeper, MemKeeper};
use road_digest::Digester;
use road_io::MemSource;
use road_time::{Limits, NoMemory};
use std::alloc::Global;
use std::thread::Threads;

/// Two amounts of vehicle 7.
const TWO: &[u8] = b"7,69,0,28\n7,1,0,5\n";

/// So many lines of a history are lawful.
fn lines(most: u32) -> Limits {
    Limits {
        past: most,
        ..Limits::DAY
    }
}

/// Keeps a history from a source that fails at these reads.
fn keep<K: Keeper, R: Threads>(
    rt: &R,
    alloc: Global,
    base: u32,
    most: u32,
    input: &[u8],
    fails: &[u32],
    keeper: &mut K,
) -> Result<PastOutcome, NoMemory>
    requires { 70 ≤ base }
{
    let limits = lines(most);
    let mut source = MemSource::new(alloc, input, 7, fails)?;
    Ok(import_past(rt, alloc, base, &limits, &mut source, keeper))
}

/// The same of at most ten lines into a keeper in memory, before day 100. All but two calls over it go through here.
fn keep_ten<R: Threads>(
    rt: &R,
    alloc: Global,
    input: &[u8],
    fails: &[u32],
    keeper: &mut MemKeeper,
) -> Result<PastOutcome, NoMemory> {
    keep(rt, alloc, 100, 10, input, fails, keeper)
}

/// Whether a history is kept from now on, or was before, of so many amounts.
fn is_kept(outcome: Result<PastOutcome, NoMemory>, again: bool, rows: u64) -> bool {
    match outcome {
        Ok(PastOutcome::Stored(past)) => !again && past.rows == rows,
        Ok(PastOutcome::Already(past)) => again && past.rows == rows,
        _ => false,
    }
}

/// Whether a keeper has the two amounts.
fn has_two(keeper: &mut MemKeeper) -> bool {
    let spent = [keeper.spent(31, 7, 0), keeper.spent(99, 7, 0)];
    keeper.last_day() == Ok(99) && spent == [Ok(28), Ok(5)]
}

/// A history of two amounts, twice.
fn stored_once<R: Threads>(rt: &R, alloc: Global) -> bool {
    let Ok(mut keeper) = MemKeeper::new(alloc, &[]) else {
        return false;
    };
    let first = keep_ten(rt, alloc, TWO, &[], &mut keeper);
    let second = keep_ten(rt, alloc, TWO, &[], &mut keeper);
    is_kept(first, false, 2) && is_kept(second, true, 2) && has_two(&mut keeper)
}

/// The digests of no byte and of the three that are found in its place.
const NOTHING: &str = "e3b0c44298fc1c149afbf4c8996fb92427ae41e4649b934ca495991b7852b855";

const ABC: &str = "ca978112ca1bbdcafac231b39a23dc4da786eff8147c4e72b9807785afee48bb";

/// Whether nothing is kept, and something else was found.
fn differs(alloc: Global, outcome: Result<PastOutcome, NoMemory>) -> bool {
    match outcome {
        Ok(PastOutcome::Differs { kept, found }) => {
            has_text(alloc, &kept, NOTHING) && has_text(alloc, &found, ABC)
        }
        _ => false,
    }
}

/// Another history of that base, and one of another base.
fn others<R: Threads>(rt: &R, alloc: Global) -> bool {
    let Ok(mut keeper) = MemKeeper::new(alloc, &[]) else {
        return false;
    };
    let first = keep_ten(rt, alloc, b"", &[], &mut keeper);
    let other = keep(rt, alloc, 101, 10, b"", &[0], &mut keeper);
    let another = keep_ten(rt, alloc, b"abc", &[], &mut keeper);
    let base = other == Ok(PastOutcome::OtherBase { kept: 100 });
    first.is_ok() && base && differs(alloc, another)
}

/// A history after a day.
fn late<R: Threads>(rt: &R, alloc: Global) -> bool {
    let Ok(mut keeper) = MemKeeper::new(alloc, &[]) else {
        return false;
    };
    keeper.put_day(&day_of(Digester::new().finish(), 0), &[]) == Ok(())
        && keep_ten(rt, alloc, TWO, &[0], &mut keeper) == Ok(PastOutcome::PastLate { last: 100 })
        && keeper.past() == Ok(None)
}

/// The amounts above zero are kept, in order.
fn zeros<R: Threads>(rt: &R, alloc: Global) -> bool {
    let input = b"9,1,0,5\n8,2,0,0\n\n7,1,0,10\r\n".as_slice();
    let Ok(mut keeper) = MemKeeper::new(alloc, &[]) else {
        return false;
    };
    let outcome = keep(rt, alloc, 100, 4, input, &[], &mut keeper);
    let wanted = [amount(99, 7, 10), amount(99, 9, 5)];
    is_kept(outcome, false, 2) && are_amounts(keeper.rows(31, 99), &wanted)
}

/// A put that fails late is done.
fn failed_late<R: Threads>(rt: &R, alloc: Global) -> bool {
    let Ok(mut keeper) = LateKeeper::new(alloc, &[2]) else {
        return false;
    };
    let failed = keep(rt, alloc, 100, 10, TWO, &[], &mut keeper);
    let again = keep(rt, alloc, 100, 10, TWO, &[], &mut keeper);
    failed == Ok(PastOutcome::KeeperFault) && is_kept(again, true, 2)
}

#[test]
fn histories_are_kept_once(rt: HostRuntime) {
    let alloc = rt.alloc();
    let rows = [
        stored_once(&rt, alloc),
        others(&rt, alloc),
        late(&rt, alloc),
        zeros(&rt, alloc),
        failed_late(&rt, alloc),
    ];
    assert_eq!(rt; rows, [true; 5]);
}

/// A history, how many lines are lawful, and the line that is refused with its cause.
type Refused = (&'static [u8], u32, u64, PastCause);

const REFUSED: [Refused; 7] = [
    (TWO, 1, 2, PastCause::Many(1)),
    (&[b'7'; 201], 1, 1, PastCause::Long),
    (b"7,1,0\n", 9, 1, PastCause::Fields(3)),
    (b"\n7,1,x,5\n", 9, 2, PastCause::Number(3)),
    (b"7,70,0,5\n", 9, 1, PastCause::Range(2)),
    (b"7,1,0,9999999999\n7,1,256,5", 9, 2, PastCause::Range(3)),
    (b"7,1,0,0\n8,1,0,3\n7,01,-0,5\n", 9, 3, PastCause::Twice),
];

/// Whether a history is refused at this line for this cause, and nothing is kept.
fn is_refused<R: Threads>(rt: &R, alloc: Global, row: &Refused) -> bool {
    let (input, most, line, cause) = *row;
    let Ok(mut keeper) = MemKeeper::new(alloc, &[]) else {
        return false;
    };
    keep(rt, alloc, 100, most, input, &[], &mut keeper) == Ok(PastOutcome::Row { line, cause })
        && keeper.past() == Ok(None)
        && keeper.last_day() == Ok(0)
}

/// The number of the first history that is not refused so, their count where all are.
fn first_taken<R: Threads>(rt: &R, alloc: Global, rows: &[Refused]) -> usize {
    for (at, row) in rows.iter().enumerate() {
        if !is_refused(rt, alloc, row) {
            return at;
        }
    }
    rows.len()
}

#[test]
fn lines_that_are_refused(rt: HostRuntime) {
    assert_eq!(rt; first_taken(&rt, rt.alloc(), &REFUSED), 7);
}

/// Whether this is answered where these reads and calls of the keeper fail, and nothing is kept then.
fn fails_with<R: Threads>(
    rt: &R,
    alloc: Global,
    reads: &[u32],
    calls: &[u32],
    outcome: PastOutcome,
) -> bool {
    let Ok(mut keeper) = MemKeeper::new(alloc, calls) else {
        return false;
    };
    let failed = keep_ten(rt, alloc, TWO, reads, &mut keeper);
    let again = keep_ten(rt, alloc, TWO, &[], &mut keeper);
    failed == Ok(outcome) && is_kept(again, false, 2)
}

/// Whether this read fails as it is to fail, and this call of the keeper, and nothing is kept.
fn both_fail<R: Threads>(rt: &R, alloc: Global, at: u32) -> bool {
    fails_with(rt, alloc, &[at], &[], PastOutcome::ReadFault)
        && fails_with(rt, alloc, &[], &[at], PastOutcome::KeeperFault)
}

#[test]
fn reads_and_calls_that_fail(rt: HostRuntime) {
    let alloc = rt.alloc();
    let failed = [
        both_fail(&rt, alloc, 0),
        both_fail(&rt, alloc, 1),
        both_fail(&rt, alloc, 2),
    ];
    assert_eq!(rt; failed, [true; 3]);
}
