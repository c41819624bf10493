// What the numbers of a line may be, and the tuple that they make.
ghost use Rattle.std.specs.Prelude.{◌≡◌, ◌+◌, ◌<◌, ◌^◌, length, map, drop, ℤ, pos, ◌≤ℤ◌, ◌<ℤ◌, slice_index_or, ◌∷◌};
ghost use Rattle.road_time.specs.Form.{is_allowed, first_out as defined_first_out, of_numbers, nat_of};
ghost use Rattle.tuples_text.specs.Causes.{reader_answer};
ghost use Rattle.tuples_text.specs.Uses.{use_of};

use crate::cause::Cause;
use crate::ranges::{
    LAST_DIRECTION, LAST_LANE, LAST_NAME, LAST_POSITION, LAST_SECOND, LAST_SEGMENT, LAST_XWAY,
    TOP_SPEED,
};
use road_time::{Report, Tuple};

/// What a field may hold: a number from the first to the last, or, unused, any from -1 on.
#[derive(Clone, Copy)]
enum Use {
    From(u32, u32),
    Unused,
}

/// A second of the day.
const TIME: Use = Use::From(0, LAST_SECOND);

/// The number of a vehicle or of a request.
const NAME: Use = Use::From(0, LAST_NAME);

/// An expressway.
const XWAY: Use = Use::From(0, LAST_XWAY);

/// The fields 2 to 15 of a report.
const REPORT: [Use; 14] = [
    TIME,
    NAME,
    Use::From(0, TOP_SPEED),
    XWAY,
    Use::From(0, LAST_LANE),
    Use::From(0, LAST_DIRECTION),
    Use::From(0, LAST_SEGMENT),
    Use::From(0, LAST_POSITION),
    Use::Unused,
    Use::Unused,
    Use::Unused,
    Use::Unused,
    Use::Unused,
    Use::Unused,
];

/// The fields 2 to 15 of a balance request.
const BALANCE: [Use; 14] = [
    TIME,
    NAME,
    Use::Unused,
    Use::Unused,
    Use::Unused,
    Use::Unused,
    Use::Unused,
    Use::Unused,
    NAME,
    Use::Unused,
    Use::Unused,
    Use::Unused,
    Use::Unused,
    Use::Unused,
];

/// The fields 2 to 15 of an expenditure request: the last is a day that is past.
const SPENT: [Use; 14] = [
    TIME,
    NAME,
    Use::Unused,
    XWAY,
    Use::Unused,
    Use::Unused,
    Use::Unused,
    Use::Unused,
    NAME,
    Use::Unused,
    Use::Unused,
    Use::Unused,
    Use::Unused,
    Use::From(1, 69),
];

/// The fields 2 to 15 of a travel request.
const TRAVEL: [Use; 14] = [
    TIME,
    Use::Unused,
    Use::Unused,
    Use::Unused,
    Use::Unused,
    Use::Unused,
    Use::Unused,
    Use::Unused,
    Use::Unused,
    Use::Unused,
    Use::Unused,
    Use::Unused,
    Use::Unused,
    Use::Unused,
];

/// Whether a field may hold the number.
fn allows(field: Use, z: i64) -> bool
    ensures { result ≡ is_allowed (use_of field) z }
{
    match field {
        Use::From(low, high) => z >= 0 && i64::from(low) <= z && z <= i64::from(high),
        Use::Unused => z >= -1,
    }
}

/// The number from 2 of the first field that holds what it may not.
fn first_out(uses: &[Use; 14], numbers: &[i64; 15]) -> Option<u8>
    ensures { result ≡ defined_first_out 2 (map use_of uses.now) (drop 1 numbers.now) }
{
    for i in 0..14usize {
        if !allows(uses[i], numbers[i + 1]) {
            return Some(i as u8 + 2);
        }
    }
    None
}

/// The number at a place, if it is from 0 below 2^32.
fn natural(n: &[i64; 15], i: usize) -> u32
    requires { i < 15 }
    ensures { nat_of (slice_index_or n.now i (pos 0)) < 2 ^ 32 → result ≡ nat_of (slice_index_or n.now i (pos 0)) }
{
    let z = n[i];
    if z < 0 {
        0
    } else if z < 4_294_967_296 {
        z as u32
    } else {
        0
    }
}

/// The same below 2^8.
fn small(n: &[i64; 15], i: usize) -> u8
    requires { i < 15 }
    ensures { nat_of (slice_index_or n.now i (pos 0)) < 2 ^ 8 → result ≡ nat_of (slice_index_or n.now i (pos 0)) }
{
    let z = n[i];
    if z < 0 {
        0
    } else if z < 256 {
        z as u8
    } else {
        0
    }
}

/// The tuple of fifteen numbers, or the first field out of its range.
pub fn tuple(numbers: &[i64; 15]) -> Result<Option<Tuple>, Cause>
    ensures { result ≡ reader_answer (of_numbers numbers.now) }
{
    match numbers[0] {
        0 => report(numbers),
        2 => balance(numbers),
        3 => spent(numbers),
        4 => travel(numbers),
        _ => Err(Cause::Range(1)),
    }
}

/// The report of fifteen numbers.
fn report(n: &[i64; 15]) -> Result<Option<Tuple>, Cause>
    ensures { result ≡ reader_answer (of_numbers (pos 0 ∷ drop 1 n.now)) }
{
    match first_out(&REPORT, n) {
        Some(field) => Err(Cause::Range(field)),
        None => Ok(Some(Tuple::Report(Report {
            time: natural(n, 1),
            vid: natural(n, 2),
            spd: small(n, 3),
            xway: small(n, 4),
            lane: small(n, 5),
            dir: small(n, 6),
            seg: small(n, 7),
            pos: natural(n, 8),
        }))),
    }
}

/// The balance request of fifteen numbers.
fn balance(n: &[i64; 15]) -> Result<Option<Tuple>, Cause>
    ensures { result ≡ reader_answer (of_numbers (pos 2 ∷ drop 1 n.now)) }
{
    match first_out(&BALANCE, n) {
        Some(field) => Err(Cause::Range(field)),
        None => Ok(Some(Tuple::Balance {
            time: natural(n, 1),
            vid: natural(n, 2),
            qid: natural(n, 9),
        })),
    }
}

/// The expenditure request of fifteen numbers.
fn spent(n: &[i64; 15]) -> Result<Option<Tuple>, Cause>
    ensures { result ≡ reader_answer (of_numbers (pos 3 ∷ drop 1 n.now)) }
{
    match first_out(&SPENT, n) {
        Some(field) => Err(Cause::Range(field)),
        None => Ok(Some(Tuple::Spent {
            time: natural(n, 1),
            vid: natural(n, 2),
            xway: small(n, 4),
            qid: natural(n, 9),
            day: small(n, 14),
        })),
    }
}

/// The travel request of fifteen numbers.
fn travel(n: &[i64; 15]) -> Result<Option<Tuple>, Cause>
    ensures { result ≡ reader_answer (of_numbers (pos 4 ∷ drop 1 n.now)) }
{
    match first_out(&TRAVEL, n) {
        Some(field) => Err(Cause::Range(field)),
        None => Ok(Some(Tuple::Travel {
            time: natural(n, 1),
        })),
    }
}
