// One line of a history: judged, and its amount taken.
ghost use Rattle.std.specs.Prelude.{◌≡◌, ◌≢◌, ◌≤◌, ℕ, List, Some, IfNone, length};
ghost use Rattle.road_time.specs.declared.day.Limits.{Limits as LimitsValue};
ghost use Rattle.road_time.specs.declared.day.SpentRow.{SpentRow as SpentRowValue};
ghost use Rattle.day_past.specs.Rows.{HasRows, IsPastRow};
ghost use Rattle.day_past.specs.Readings.{JudgesRow, GathersRows, TakesRow, StopsTwice};
ghost use Rattle.day_past.specs.declared.judging.PastStop.TheVariants.{Row, ReadFault};

use crate::amounts::Amounts;
use crate::lines::read_row;
use crate::outcomes::PastCause;
use road_time::SpentRow;
use thiserror::Error;

/// Why no further line of a history is read.
#[derive(Clone, Copy, Debug, PartialEq, Eq, Error)]
pub enum PastStop {
    /// This line, counted from 1, is the first that is refused.
    #[error("line {line} is refused: {cause}")]
    Row { line: u64, cause: PastCause },
    /// The source failed.
    #[error("a read failed")]
    ReadFault,
    /// Memory ran out.
    #[error("no memory")]
    NoMemory,
}

/// The reading stops at a line that is refused.
pub fn refused(line: u64, cause: PastCause) -> PastStop
    ensures { result ≡ Row line cause }
{
    PastStop::Row { line, cause }
}

/// Takes the amount of a line, or says that it comes twice.
fn take_row(amounts: &mut Amounts, line: u64, row: &SpentRow) -> Option<PastStop>
    ensures takes { (base : ℕ) (rows : List SpentRowValue) → IsPastRow base row.now → HasRows amounts.old base rows
        → TakesRow result base rows row.now amounts.new }
    ensures stops { StopsTwice line result }
{
    match amounts.take(row) {
        Ok(true) => None,
        Ok(false) => Some(refused(line, PastCause::Twice)),
        Err(_) => Some(PastStop::NoMemory),
    }
}

/// Takes the amount of a line of at most 200 bytes, if it has one, or says why the reading stops.
pub fn judge(
    amounts: &mut Amounts,
    base: u32,
    limit: u32,
    line: u64,
    text: &[u8],
) -> Option<PastStop>
    requires few { length text.now ≤ 200 }
    requires based { 70 ≤ base }
    ensures judges { (limits : LimitsValue) → limits.past ≡ limit
        → JudgesRow result base limits line text.now amounts.old amounts.new }
    ensures gathers { IfNone result (GathersRows amounts.old base → GathersRows amounts.new base) }
    ensures unread { result ≢ Some ReadFault }
    ensures within { IfNone result (line ≤ limit) }
{
    if line > u64::from(limit) {
        return Some(refused(line, PastCause::Many(limit)));
    }
    match read_row(base, text) {
        Ok(Some(row)) => take_row(amounts, line, &row),
        Ok(None) => None,
        Err(cause) => Some(refused(line, cause)),
    }
}
