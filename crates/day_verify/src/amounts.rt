// Where kept amounts part from the right ones.
ghost use Rattle.std.specs.Prelude.{◌≡◌, []};
ghost use Rattle.keep_office.specs.Office.{row_cmp};
ghost use Rattle.day_verify.specs.Partings.{parting, parting_at, kept_alone, right_alone};

use crate::verdict::Parting;
use road_time::SpentRow;
use std::cmp::Ordering;

/// How the keys of two rows stand to each other.
fn key_order(kept: &SpentRow, right: &SpentRow) -> Ordering
    ensures { result ≡ row_cmp kept.now right.now }
{
    kept.day
        .cmp(&right.day)
        .then(kept.vid.cmp(&right.vid).then(kept.xway.cmp(&right.xway)))
}

/// A kept amount where none is right.
fn only_kept(row: &SpentRow) -> Parting
    ensures { result ≡ kept_alone row.now }
{
    Parting {
        vid: row.vid,
        xway: row.xway,
        kept: row.tolls,
        right: 0,
    }
}

/// A right amount where none is kept.
fn only_right(row: &SpentRow) -> Parting
    ensures { result ≡ right_alone row.now }
{
    Parting {
        vid: row.vid,
        xway: row.xway,
        kept: 0,
        right: row.tolls,
    }
}

/// Where the first of kept amounts and the first right one part.
fn part_of(kept: &SpentRow, right: &SpentRow) -> Option<Parting>
    ensures { result ≡ parting_at kept.now right.now }
{
    match key_order(kept, right) {
        Ordering::Less => Some(only_kept(kept)),
        Ordering::Greater => Some(only_right(right)),
        Ordering::Equal => {
            if kept.tolls == right.tolls {
                None
            } else {
                Some(Parting {
                    vid: kept.vid,
                    xway: kept.xway,
                    kept: kept.tolls,
                    right: right.tolls,
                })
            }
        }
    }
}

/// Where right amounts part from kept ones, of which none is left.
fn part_behind(right: &[SpentRow]) -> Option<Parting>
    ensures { result ≡ parting [] right.now }
{
    match right.split_first() {
        Some((row, _later)) => Some(only_right(row)),
        None => None,
    }
}

/// Where kept amounts first part from the right ones, both in order.
pub(crate) fn first_parting(kept: &[SpentRow], right: &[SpentRow]) -> Option<Parting>
    ensures { result ≡ parting kept.now right.now }
{
    let mut kept_left = kept;
    let mut right_left = right;
    while let Some((row, kept_later)) = kept_left.split_first() {
        let Some((other, right_later)) = right_left.split_first() else {
            return Some(only_kept(row));
        };
        match part_of(row, other) {
            Some(found) => return Some(found),
            None => {}
        }
        kept_left = kept_later;
        right_left = right_later;
    }
    part_behind(right_left)
}
