// What is said of a day that was worked again.
ghost use Rattle.std.specs.Prelude.{◌≡◌, ◌≢◌, ℕ, is_some, true, Option, Some};
ghost use Rattle.keep_office.specs.Office.{Office};
ghost use Rattle.day_reading.specs.Days.{IsDigested};
ghost use Rattle.day_reading.specs.declared.whole_day.DayEnd.TheVariants.{Whole};
ghost use Rattle.road_digest.specs.declared.digest.Digest.{Digest as DigestValue};
ghost use Rattle.road_io.specs.Blame.{FaultsByPlan};
ghost use Rattle.day_verify.specs.Verdicts.{judged, Finishes, IsOfEnd, IsUnread};
ghost use Rattle.day_verify.specs.declared.verdict.Verdict.TheVariants.{ReadFault, KeeperFault};

use crate::amounts::first_parting;
use crate::records::first_amiss;
use crate::verdict::{Verdict, refused};
use day_import::{AnsweredDay, WorkedDay};
use day_reading::DayEnd;
use keep_office::{DayRecord, Keeper};
use road_digest::Digest;
use road_time::SpentRow;

/// What is said of a kept day and its amounts, by what its bytes come to.
fn judge(
    kept: &DayRecord,
    rows: &[SpentRow],
    sums: &AnsweredDay,
    text: &Digest,
    right: &[SpentRow],
) -> Verdict
    ensures is { result ≡ judged kept.now rows.now sums.now text.now right.now }
    ensures of_end { (bytes : ℕ) (digest : Option DigestValue) → IsOfEnd (Whole bytes digest) result }
    ensures unread { (result ≢ ReadFault) × (result ≢ KeeperFault) }
    ensures read { IsUnread result → ⊥ }
{
    match first_parting(rows, right) {
        Some(parting) => Verdict::UnsoundAmount(parting),
        None => match first_amiss(kept, sums, text) {
            Some(amiss) => Verdict::UnsoundRecord(amiss),
            None => Verdict::Verified {
                kept: *kept,
                amounts: rows.len() as u64,
            },
        },
    }
}

/// The digest of the notices of a day that was worked, which was asked.
fn text_digest(run: &WorkedDay) -> Digest
    requires { is_some run.now.closed.notices_digest ≡ true }
    ensures { run.now.closed.notices_digest ≡ Some result }
{
    match run.closed.notices_digest {
        Some(digest) => digest,
        None => unreachable!(),
    }
}

/// What is said of a day that was read whole, of so many bytes with this digest.
fn finish_whole<K: Keeper>(
    number: u32,
    kept: &DayRecord,
    bytes: u64,
    found: Digest,
    run: &WorkedDay,
    keeper: &mut K,
) -> Verdict
    requires notices_digested { is_some run.now.closed.notices_digest ≡ true }
    ensures finishes { (o : Office) → K.told keeper.old ≡ Some o
        → Finishes number kept.now (Whole bytes (Some found)) run.now o result }
    ensures kept { K.told keeper.new ≡ K.told keeper.old }
    ensures of_end { IsOfEnd (Whole bytes (Some found)) result }
    ensures unread { result ≢ ReadFault }
    ensures read { IsUnread result → ⊥ }
    ensures keeper { FaultsByPlan (K.faults keeper.old) (K.faults keeper.new) (K.plan keeper.old)
        (result ≡ KeeperFault) }
{
    let text = text_digest(run);
    if found.bytes == kept.digest.bytes {
        match keeper.rows(number, number) {
            Ok(rows) => {
                let sums = AnsweredDay {
                    bytes,
                    tuples: run.tuples,
                    notices: run.closed.notices,
                    total: run.closed.total,
                };
                judge(kept, rows.as_slice(), &sums, &text, run.closed.rows.items())
            }
            Err(fault) => refused(fault),
        }
    } else {
        Verdict::Differs {
            kept: kept.digest,
            found,
        }
    }
}

/// What is said of a day that was worked.
pub(crate) fn finish<K: Keeper>(
    number: u32,
    kept: &DayRecord,
    run: &WorkedDay,
    keeper: &mut K,
) -> Verdict
    requires digested { IsDigested true run.now.end }
    requires notices_digested { is_some run.now.closed.notices_digest ≡ true }
    ensures finishes { (o : Office) → K.told keeper.old ≡ Some o
        → Finishes number kept.now run.now.end run.now o result }
    ensures kept { K.told keeper.new ≡ K.told keeper.old }
    ensures of_end { IsOfEnd run.now.end result }
    ensures unread { result ≢ ReadFault }
    ensures read { IsUnread result → ⊥ }
    ensures keeper { FaultsByPlan (K.faults keeper.old) (K.faults keeper.new) (K.plan keeper.old)
        (result ≡ KeeperFault) }
{
    match run.end {
        DayEnd::Refused { line, cause } => Verdict::Refused { line, cause },
        DayEnd::Whole { bytes, digest } => match digest {
            Some(found) => finish_whole(number, kept, bytes, found, run, keeper),
            None => unreachable!(),
        },
    }
}
