// Lines of a history, and the amounts that are kept of them.
use super::records::amount;
use day_past::{Amounts, PastCause, read_row};
use road_time::{NoMemory, SpentRow};
use std::alloc::Global;

/// Lines, and what is read of them before day 100: the day and the amount of vehicle 7, none, or why it is refused.
const LINES: [(&[u8], Result<Option<(u32, u64)>, PastCause>); 7] = [
    (b"7,69,0,28", Ok(Some((31, 28)))),
    (b"7,01,-0,5\r", Ok(Some((99, 5)))),
    (b"", Ok(None)),
    (b"7,70,0,5", Err(PastCause::Range(2))),
    (b"7,1,0,10000000000", Err(PastCause::Number(4))),
    (b"7,1,0", Err(PastCause::Fields(3))),
    (b"7,1,256,x", Err(PastCause::Number(4))),
];

/// What is read of an amount, or of none.
fn read_of(wanted: Option<(u32, u64)>) -> Option<SpentRow> {
    match wanted {
        Some((day, tolls)) => Some(amount(day, 7, tolls)),
        None => None,
    }
}

/// Whether a line is read so.
fn is_read(line: &[u8], wanted: &Result<Option<(u32, u64)>, PastCause>) -> bool {
    if line.len() > 200 {
        return false;
    }
    match (read_row(100, line), *wanted) {
        (Ok(read), Ok(wanted)) => read == read_of(wanted),
        (Err(found), Err(cause)) => found == cause,
        _ => false,
    }
}

/// The number of the first line that is read otherwise, their count where none is.
fn first_misread(lines: &[(&[u8], Result<Option<(u32, u64)>, PastCause>)]) -> usize {
    for (at, (line, wanted)) in lines.iter().enumerate() {
        if !is_read(line, wanted) {
            return at;
        }
    }
    lines.len()
}

#[test]
fn lines_of_a_history(rt: HostRuntime) {
    assert_eq!(rt; first_misread(&LINES), 7);
}

/// How many amounts of days are taken, up to one that was taken before, and how many of them are kept.
fn taken(alloc: Global, rows: &[(u32, u64)]) -> Result<(usize, usize), NoMemory> {
    let mut amounts = Amounts::new(alloc);
    let mut count = rows.len();
    for (at, (day, tolls)) in rows.iter().enumerate() {
        if !amounts.take(&amount(*day, 7, *tolls))? {
            count = at;
            break;
        }
    }
    Ok((count, amounts.kept()?.len()))
}

#[test]
fn amounts_above_zero(rt: HostRuntime) {
    assert!(rt; taken(rt.alloc(), &[(99, 5), (31, 28), (50, 0)]) == Ok((3, 2)));
}

#[test]
fn amounts_that_rise(rt: HostRuntime) {
    assert!(rt; taken(rt.alloc(), &[(31, 28), (50, 0), (99, 5)]) == Ok((3, 2)));
}

#[test]
fn an_amount_taken_before(rt: HostRuntime) {
    let found = taken(rt.alloc(), &[(99, 5), (31, 28), (50, 0), (50, 3)]);
    assert!(rt; matches!(found, Ok((3, _))));
}
