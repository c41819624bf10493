// The worked books, and a publisher that keeps nothing, with ample memory.
use day_floor::worked::{Answers, a_charge_of_nothing, one_charge, two_expressways};
use day_floor::{Charged, NoPublisher, Publisher};
use road_time::SpentRow;
use std::alloc::Global;

/// What vehicle 100 was charged on an expressway.
fn row(xway: u8, tolls: u64) -> SpentRow {
    SpentRow {
        day: 100,
        vid: 100,
        xway,
        tolls,
    }
}

/// Whether a book answers this of the last charge, of a vehicle and of all, and has these rows.
fn are_kept(
    told: Answers,
    rows: &[SpentRow],
    charged: u64,
    total: u64,
    wanted: &[SpentRow],
) -> bool {
    (told.charged, told.balance, told.total) == (charged, total, total) && rows == wanted
}

/// A charge is of the toll told last.
fn one_is_charged(alloc: Global) -> bool {
    match one_charge(alloc) {
        Ok((told, rows)) => are_kept(told, rows.as_slice(), 2, 2, &[row(0, 2)]),
        Err(_) => false,
    }
}

/// A sum of nothing has no row.
fn nothing_has_no_row(alloc: Global) -> bool {
    match a_charge_of_nothing(alloc) {
        Ok((told, rows)) => are_kept(told, rows.as_slice(), 0, 0, &[]),
        Err(_) => false,
    }
}

/// Each expressway has a row of its own.
fn two_have_rows(alloc: Global) -> bool {
    match two_expressways(alloc) {
        Ok((told, rows)) => are_kept(told, rows.as_slice(), 2, 6, &[row(0, 2), row(1, 4)]),
        Err(_) => false,
    }
}

/// A publisher that keeps nothing takes what it is told.
fn nobody_is_told() -> bool {
    let mut nobody = NoPublisher;
    let charged = [Charged {
        vid: 100,
        xway: 0,
        toll: 2,
    }];
    nobody.begin(100).is_ok() && nobody.publish(&charged, 54).is_ok()
}

/// A charge is of the toll told last, and a sum of nothing has no row.
#[test]
fn charges_and_rows(rt: HostRuntime) {
    let alloc = rt.alloc();
    let rows = [
        one_is_charged(alloc),
        nothing_has_no_row(alloc),
        two_have_rows(alloc),
        nobody_is_told(),
    ];
    assert_eq!(rt; rows, [true; 4]);
}
