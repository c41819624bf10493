// Whether rows stand in the order of day, vehicle and expressway.
ghost use Rattle.std.specs.Prelude.{◌≡◌, ◌↔◌, IsTrue};
ghost use Rattle.std.specs.Ordering.{is_lt};
ghost use Rattle.keep_office.specs.Office.{row_cmp, RowsRise};

use road_time::SpentRow;

/// Whether the keys of rows rise strictly.
pub fn rise(rows: &[SpentRow]) -> bool
    ensures { IsTrue result ↔ RowsRise rows.now }
{
    rows.is_sorted_by(|row, next| is_before(row, next))
}

/// Whether a row's key is below another's.
fn is_before(row: &SpentRow, next: &SpentRow) -> bool
    ensures { result ≡ is_lt (row_cmp row.now next.now) }
{
    let order = row
        .day
        .cmp(&next.day)
        .then(row.vid.cmp(&next.vid).then(row.xway.cmp(&next.xway)));
    order.is_lt()
}
