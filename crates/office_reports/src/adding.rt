// Whether what is kept of a day adds up.
ghost use Rattle.std.specs.Prelude.{◌≡◌, true, false, ◌≢◌};
ghost use Rattle.keep_office.specs.Office.{sum_of_rows};

use crate::vehicle_lines::sum_of;
use keep_office::DayRecord;
use road_time::SpentRow;

/// Whether amounts come to the total of a record.
pub(crate) fn adds_up(kept: &DayRecord, rows: &[SpentRow]) -> bool
    ensures same { result ≡ true → sum_of_rows rows.now ≡ kept.now.total }
    ensures other { result ≡ false → sum_of_rows rows.now ≢ kept.now.total }
{
    sum_of(rows) == u128::from(kept.total)
}
