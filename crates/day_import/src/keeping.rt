// A day that is kept: it is stored with its amounts, or compared by its digest.
ghost use Rattle.std.specs.Prelude.{◌≡◌, ◌≢◌, ◌⊎◌, ℕ, Option, Some, IfOk, true, ◌+◌, List, is_some};
ghost use Rattle.keep_office.specs.Office.{Office};
ghost use Rattle.keep_office.specs.Kept.{IsDayPut, IsLater};
ghost use Rattle.keep_office.specs.Calls.{IfTold};
ghost use Rattle.keep_office.specs.declared.kept.DayRecord.{DayRecord as DayRecordValue};
ghost use Rattle.road_digest.specs.declared.digest.Digest.{Digest as DigestValue};
ghost use Rattle.day_reading.specs.declared.whole_day.DayEnd.TheVariants.{Whole};
ghost use Rattle.day_reading.specs.Days.{IsDigested};
ghost use Rattle.road_io.specs.Blame.{FaultsByPlan};
ghost use Rattle.day_import.specs.Asked.{AsksBy};
ghost use Rattle.day_import.specs.Imports.{IsOfNewDay, IsOfAnswers, PutsOnce, KeepsAll, again, IsOfKeptDay};
ghost use Rattle.day_import.specs.Imports.{IsUncompared};
ghost use Rattle.day_import.specs.Stages.{run_record, CanPut, Stores, Finishes, Tells, IsReadWhole, IsOfEnd};
ghost use Rattle.day_import.specs.Stages.{Compares};
ghost use Rattle.day_import.specs.declared.outcomes.Outcome.TheVariants.{Stored, ReadFault, WriteFault, KeeperFault};
ghost use Rattle.road_io.specs.Within.{ReadsWithin};

use crate::day::WorkedDay;
use crate::outcomes::{Outcome, refused, sums_of};
use day_reading::{DayEnd, ReadStop, find_digest};
use keep_office::{DayRecord, Keeper, seal};
use road_digest::Digest;
use road_io::Source;
use road_time::{NoMemory, SpentRow, Tariffs};
use std::alloc::Global;

/// The digest of the text of a day that was worked, which was asked.
fn notices_digest(run: &WorkedDay) -> Digest
    requires { is_some run.now.closed.notices_digest ≡ true }
    ensures { run.now.closed.notices_digest ≡ Some result }
{
    match run.closed.notices_digest {
        Some(digest) => digest,
        None => unreachable!(),
    }
}

/// The record of a day that was worked, of so many bytes with this digest, and of a text with that one.
fn record_for(
    alloc: Global,
    number: u32,
    bytes: u64,
    digest: Digest,
    notices_digest: Digest,
    run: &WorkedDay,
    tariffs: &Tariffs,
) -> Result<DayRecord, NoMemory>
    ensures { IfOk result (λ kept. kept ≡ run_record number bytes digest notices_digest run.now tariffs.now) }
{
    let tariffs = seal(alloc, tariffs)?;
    Ok(DayRecord {
        day: number,
        digest,
        bytes,
        tuples: run.tuples,
        notices: run.closed.notices,
        notices_digest,
        tariffs,
        total: run.closed.total,
    })
}

/// Puts a day.
fn store<K: Keeper>(kept: &DayRecord, rows: &[SpentRow], keeper: &mut K) -> Outcome
    requires fits { IsDayPut kept.now rows.now }
    requires later { IfTold (K.told keeper.old) (λ o. IsLater kept.now.day o) }
    ensures stores { (o : Office) → K.told keeper.old ≡ Some o
        → Stores K.refuses kept.now rows.now o (K.told keeper.new) result }
    ensures puts { (o : Office) → K.told keeper.old ≡ Some o → PutsOnce kept.now.day o (K.told keeper.new) }
    ensures keeps { KeepsAll result (K.told keeper.new ≡ K.told keeper.old) }
    ensures new_day { IsOfNewDay result }
    ensures of_end { (bytes : ℕ) (digest : Option DigestValue) → IsOfEnd (Whole bytes digest) result }
    ensures unread { result ≢ ReadFault }
    ensures unwritten { result ≢ WriteFault }
    ensures keeper { FaultsByPlan (K.faults keeper.old) (K.faults keeper.new) (K.plan keeper.old)
        (result ≡ KeeperFault) }
    ensures asked { AsksBy 0 result (K.plan keeper.old) (K.plan keeper.new) }
{
    match keeper.put_day(kept, rows) {
        Ok(()) => Outcome::Stored(*kept),
        Err(fault) => refused(fault),
    }
}

/// Stores a day that was worked, unless a line of it was refused.
pub fn finish_import<K: Keeper>(
    alloc: Global,
    number: u32,
    run: &WorkedDay,
    tariffs: &Tariffs,
    keeper: &mut K,
) -> Outcome
    requires can { CanPut number run.now }
    requires digested { IsDigested true run.now.end }
    requires notices_digested { is_some run.now.closed.notices_digest ≡ true }
    requires later { IfTold (K.told keeper.old) (λ o. IsLater number o) }
    ensures finishes { (o : Office) → K.told keeper.old ≡ Some o
        → Finishes K.refuses number run.now.end run.now tariffs.now o (K.told keeper.new) result }
    ensures puts { (o : Office) → K.told keeper.old ≡ Some o → PutsOnce number o (K.told keeper.new) }
    ensures keeps { KeepsAll result (K.told keeper.new ≡ K.told keeper.old) }
    ensures whole { (kept : DayRecordValue) → result ≡ Stored kept → IsReadWhole run.now.end }
    ensures read_first { (K.told keeper.new ≡ K.told keeper.old) ⊎ IsReadWhole run.now.end }
    ensures of_end { IsOfEnd run.now.end result }
    ensures new_day { IsOfNewDay result }
    ensures unread { result ≢ ReadFault }
    ensures unwritten { result ≢ WriteFault }
    ensures keeper { FaultsByPlan (K.faults keeper.old) (K.faults keeper.new) (K.plan keeper.old)
        (result ≡ KeeperFault) }
    ensures asked { AsksBy 0 result (K.plan keeper.old) (K.plan keeper.new) }
{
    match run.end {
        DayEnd::Refused { line, cause } => Outcome::Refused { line, cause },
        DayEnd::Whole { bytes, digest } => match digest {
            Some(digest) => {
                let text = notices_digest(run);
                match record_for(alloc, number, bytes, digest, text, run, tariffs) {
                    Ok(kept) => store(&kept, run.closed.rows.items(), keeper),
                    Err(NoMemory) => Outcome::NoMemory,
                }
            }
            None => unreachable!(),
        },
    }
}

/// The answer to a day that was worked.
pub fn finish_answers(run: &WorkedDay) -> Outcome
    ensures tells { Tells run.now.end run.now result }
    ensures own { IsOfAnswers result }
    ensures unread { result ≢ ReadFault }
    ensures unwritten { result ≢ WriteFault }
    ensures unasked { result ≢ KeeperFault }
{
    match run.end {
        DayEnd::Refused { line, cause } => Outcome::Refused { line, cause },
        DayEnd::Whole { bytes, .. } => Outcome::Answered(sums_of(bytes, run)),
    }
}

/// Whether what was found is what is kept.
fn same_or_not(kept: &DayRecord, found: Digest) -> Outcome
    ensures is { result ≡ again kept.now found }
    ensures kept_day { IsOfKeptDay result }
    ensures compared { IsUncompared result → ⊥ }
{
    if found.bytes == kept.digest.bytes {
        Outcome::Already(*kept)
    } else {
        Outcome::Differs {
            kept: kept.digest,
            found,
        }
    }
}

/// Compares the source with a day that is kept.
pub fn compare<S: Source>(alloc: Global, kept: &DayRecord, source: &mut S) -> Outcome
    ensures compares { (bytes : List ℕ) → S.left source.old ≡ Some bytes
        → Compares kept.now bytes (S.left source.new) result }
    ensures kept_day { IsOfKeptDay result }
    ensures compared { IsUncompared result → ⊥ }
    ensures bounded { ReadsWithin (kept.now.bytes + 1) (S.left source.old) (S.left source.new) }
    ensures unwritten { result ≢ WriteFault }
    ensures unasked { result ≢ KeeperFault }
    ensures same { S.name source.new ≡ S.name source.old }
    ensures source { FaultsByPlan (S.faults source.old) (S.faults source.new) (S.plan source.old)
        (result ≡ ReadFault) }
{
    match find_digest(alloc, kept.bytes, source) {
        Ok(found) => same_or_not(kept, found),
        Err(ReadStop::ReadFault) => Outcome::ReadFault,
        Err(ReadStop::NoMemory) => Outcome::NoMemory,
    }
}
