// What is looked at before an office begins anew.
ghost use Rattle.std.specs.Prelude.{◌≡◌, ◌≤◌, ◌&&◌, nat_lt, Some, Err, IfOk, not, find};
ghost use Rattle.road_io.specs.Blame.{FaultsByPlan};
ghost use Rattle.road_io.specs.Plans.{NeverFails};
ghost use Rattle.keep_office.specs.Office.{Office};
ghost use Rattle.keep_office.specs.Renewed.{history_rows, is_fit};
ghost use Rattle.keep_office.specs.declared.kept.KeepFault.TheVariants.{Failed};
ghost use Rattle.office_ends.specs.Drops.{dropped, first_unfit, is_far, is_named};

use keep_office::{KeepFault, Renews};
use road_time::SpentRow;

/// Whether something is kept, and a base is above the day after the last kept one.
fn is_far(base: u32, last: u32) -> bool
    requires { 70 ≤ base }
    ensures { result ≡ is_far base last }
{
    0 < last && last < base - 1
}

/// Whether so many amounts are named.
pub(crate) fn is_named(named: Option<u64>, count: u64) -> bool
    ensures { result ≡ is_named named count }
{
    match named {
        Some(named) => named == count,
        None => false,
    }
}

/// The number of amounts that a renewal at the day after the last kept one keeps and one at this base does not, where the
/// base is above that day and something is kept.
pub(crate) fn dropped<K: Renews>(base: u32, keeper: &mut K) -> Result<Option<u64>, KeepFault>
    requires { 70 ≤ base }
    ensures says { (o : Office) → K.Keeper.told keeper.old ≡ Some o → IfOk result (λ count. count ≡ dropped base o) }
    ensures kept { K.Keeper.told keeper.new ≡ K.Keeper.told keeper.old }
    ensures keeper { FaultsByPlan (K.Keeper.faults keeper.old) (K.Keeper.faults keeper.new) (K.Keeper.plan keeper.old)
        (result ≡ Err Failed) }
    ensures still { NeverFails (K.Keeper.plan keeper.old) → NeverFails (K.Keeper.plan keeper.new) }
{
    let last = match keeper.last_day() {
        Ok(last) => last,
        Err(fault) => return Err(fault),
    };
    if !is_far(base, last) {
        return Ok(None);
    }
    let rows = match keeper.rows(last.saturating_sub(68), base - 70) {
        Ok(rows) => rows,
        Err(fault) => return Err(fault),
    };
    Ok(Some(rows.len() as u64))
}

/// Whether a history with a base may have an amount.
fn is_fit(base: u32, row: &SpentRow) -> bool
    requires { 70 ≤ base }
    ensures { result ≡ is_fit base row.now }
{
    base - 69 <= row.day
        && row.day < base
        && row.vid <= 2_147_483_647
        && 0 < row.tolls
        && row.tolls <= 9_999_999_999
}

/// The first of some amounts that a history with a base may not have.
fn first_unfit(base: u32, rows: &[SpentRow]) -> Option<SpentRow>
    requires { 70 ≤ base }
    ensures { result ≡ first_unfit base rows.now }
{
    let mut left = rows;
    while let Some((row, rest)) = left.split_first() {
        if !is_fit(base, row) {
            return Some(*row);
        }
        left = rest;
    }
    None
}

/// The first of the amounts that a renewal at a base would keep which a history may not have.
pub(crate) fn find_unfit<K: Renews>(
    base: u32,
    keeper: &mut K,
) -> Result<Option<SpentRow>, KeepFault>
    requires { 70 ≤ base }
    ensures says { (o : Office) → K.Keeper.told keeper.old ≡ Some o
        → IfOk result (λ row. row ≡ first_unfit base (history_rows base o)) }
    ensures kept { K.Keeper.told keeper.new ≡ K.Keeper.told keeper.old }
    ensures keeper { FaultsByPlan (K.Keeper.faults keeper.old) (K.Keeper.faults keeper.new) (K.Keeper.plan keeper.old)
        (result ≡ Err Failed) }
    ensures still { NeverFails (K.Keeper.plan keeper.old) → NeverFails (K.Keeper.plan keeper.new) }
{
    match keeper.rows(base - 69, base - 1) {
        Ok(rows) => Ok(first_unfit(base, rows.as_slice())),
        Err(fault) => Err(fault),
    }
}
