// Beginning anew.
ghost use Rattle.std.specs.Prelude.{◌≡◌, ◌≤◌, Some, Err};
ghost use Rattle.std.specs.List.{list_all};
ghost use Rattle.road_io.specs.Blame.{FaultsByPlan};
ghost use Rattle.keep_office.specs.Office.{Office, RowsRise};
ghost use Rattle.keep_office.specs.declared.kept.KeepFault.TheVariants.{Failed};
ghost use Rattle.keep_office.specs.Renewed.{history_rows, is_fit, are_fit};
ghost use Rattle.keep_office.specs.Renewals.{renewed_if, renew_answer, DoesRenewal, IsRenewedOr};

use crate::anew::Renews;
use crate::kept::{KeepFault, PastRecord};
use crate::lines::record_of;
use road_time::{NoMemory, SpentRow};
use std::alloc::Global;

/// How a renewal ends.
#[derive(Clone, Copy, Debug, PartialEq, Eq)]
pub enum Renewal {
    /// The office began anew, with this history.
    Renewed(PastRecord),
    /// The base is not above the last day, which is this one. Nothing changed.
    Early { last: u32 },
    /// No history may have the amounts: one is out of its range. Nothing changed.
    Unfit,
}

/// The most amounts that a history has.
const MOST: usize = 4_000_000_000;

/// Whether a history may have an amount.
fn is_fit(base: u32, row: &SpentRow) -> bool
    requires { 70 ≤ base }
    ensures { result ≡ is_fit base row.now }
{
    base - 69 <= row.day
        && row.day < base
        && row.vid <= 2_147_483_647
        && 0 < row.tolls
        && row.tolls <= 9_999_999_999
}

/// Whether a history may have each of some amounts.
fn all_fit(base: u32, rows: &[SpentRow]) -> bool
    requires { 70 ≤ base }
    ensures { result ≡ list_all (is_fit base) rows.now }
{
    rows.iter().all(|row| is_fit(base, row))
}

/// Whether a history may have some amounts.
fn are_fit(base: u32, rows: &[SpentRow]) -> bool
    requires { 70 ≤ base }
    ensures { result ≡ are_fit base rows.now }
{
    rows.len() <= MOST && all_fit(base, rows)
}

/// Begins anew with the amounts of the 69 days before a base.
fn begin<K: Renews>(
    alloc: Global,
    base: u32,
    rows: &[SpentRow],
    keeper: &mut K,
) -> Result<Renewal, KeepFault>
    requires based { 70 ≤ base }
    requires rise { RowsRise rows.now }
    ensures does { (o : Office) → K.Keeper.told keeper.old ≡ Some o → rows.now ≡ history_rows base o
        → DoesRenewal K.Keeper.refuses (renewed_if (are_fit base rows.now) base o) o (K.Keeper.told keeper.new) result }
    ensures keeper { FaultsByPlan (K.Keeper.faults keeper.old) (K.Keeper.faults keeper.new) (K.Keeper.plan keeper.old)
        (result ≡ Err Failed) }
{
    if !are_fit(base, rows) {
        return Ok(Renewal::Unfit);
    }
    let kept = match record_of(alloc, base, rows) {
        Ok(kept) => kept,
        Err(NoMemory) => return Err(KeepFault::NoMemory),
    };
    match keeper.put_anew(&kept, rows) {
        Ok(()) => Ok(Renewal::Renewed(kept)),
        Err(fault) => Err(fault),
    }
}

/// Begins anew at a base above the last day.
fn begin_above<K: Renews>(alloc: Global, base: u32, keeper: &mut K) -> Result<Renewal, KeepFault>
    requires { 70 ≤ base }
    ensures does { (o : Office) → K.Keeper.told keeper.old ≡ Some o
        → DoesRenewal K.Keeper.refuses (renew_answer base o) o (K.Keeper.told keeper.new) result }
    ensures keeper { FaultsByPlan (K.Keeper.faults keeper.old) (K.Keeper.faults keeper.new) (K.Keeper.plan keeper.old)
        (result ≡ Err Failed) }
{
    let last = match keeper.last_day() {
        Ok(last) => last,
        Err(fault) => return Err(fault),
    };
    if base <= last {
        return Ok(Renewal::Early { last });
    }
    let rows = match keeper.rows(base - 69, base - 1) {
        Ok(rows) => rows,
        Err(fault) => return Err(fault),
    };
    begin(alloc, base, rows.as_slice(), keeper)
}

/// Begins anew at a base above the last day: the amounts of the 69 days before it become the history, all else goes but
/// the tariffs. It is one put, so all is done or nothing.
pub fn renew<K: Renews>(alloc: Global, base: u32, keeper: &mut K) -> Result<Renewal, KeepFault>
    requires { 70 ≤ base }
    ensures does { (o : Office) → K.Keeper.told keeper.old ≡ Some o
        → DoesRenewal K.Keeper.refuses (renew_answer base o) o (K.Keeper.told keeper.new) result }
    ensures whole { (o : Office) → K.Keeper.told keeper.old ≡ Some o → IsRenewedOr base o (K.Keeper.told keeper.new) }
    ensures keeper { FaultsByPlan (K.Keeper.faults keeper.old) (K.Keeper.faults keeper.new) (K.Keeper.plan keeper.old)
        (result ≡ Err Failed) }
{
    begin_above(alloc, base, keeper)
}
