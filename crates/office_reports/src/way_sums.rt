// What a day's amounts come to on each expressway.
ghost use Rattle.std.specs.Prelude.{◌≡◌, ◌<◌, ℕ, get_or};
ghost use Rattle.office_reports.specs.Statements.{sum_on};

use road_time::SpentRow;

/// How many expressways there are.
pub(crate) const WAYS: usize = 256;

/// No sum yet.
fn no_sums() -> [u128; 256]
    ensures { (xway : ℕ) → xway < 256 → get_or result xway 0 ≡ 0 }
{
    [0; WAYS]
}

/// The sum of the rows of each expressway, by its number.
pub(crate) fn way_sums(rows: &[SpentRow]) -> [u128; 256]
    ensures { (xway : ℕ) → xway < 256 → get_or result xway 0 ≡ sum_on rows.now xway }
{
    let mut sums = no_sums();
    for row in rows {
        sums[row.xway as usize] += u128::from(row.tolls);
    }
    sums
}
