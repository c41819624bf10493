// Keeping a history, once.
ghost use Rattle.std.specs.Prelude.{◌≡◌, ◌≢◌, ◌≤◌, ◌+◌, [], List, ℕ, Option, Some, None};
ghost use Rattle.road_time.specs.declared.day.SpentRow.{SpentRow as SpentRowValue};
ghost use Rattle.road_io.specs.Blame.{FaultsByPlan};
ghost use Rattle.keep_office.specs.declared.kept.PastRecord.{PastRecord as PastRecordValue};
ghost use Rattle.keep_office.specs.Office.{Office};
ghost use Rattle.keep_office.specs.Kept.{IsPastPut, HasNoDays};
ghost use Rattle.keep_office.specs.PastReads.{past_reads, past_record, past_kept};
ghost use Rattle.keep_office.specs.Calls.{WhenRefused, IfTold};
ghost use Rattle.road_io.specs.Within.{ReadsWithin};
ghost use Rattle.day_past.specs.Imports.{past_compared, unchanged, past_again, past_read, past_new, past_answer};
ghost use Rattle.day_past.specs.Imports.{DoesPast, LeavesPast, NeedsNone, IsUnread, IsPastUncompared, RefusesSoon};
ghost use Rattle.day_past.specs.Imports.{PutsPast, KeepsAllPast, most_past, most_kept};
ghost use Rattle.day_past.specs.Asked.{FailsFirst, AsksNewPast, AsksPast, IsOfKeptPast};
ghost use Rattle.day_past.specs.declared.outcomes.PastOutcome.TheVariants.{ReadFault, KeeperFault};

use crate::history::History;
use crate::judging::PastStop;
use crate::outcomes::{PastOutcome, keeper_refused};
use crate::whole_past::read_past;
use day_reading::{ReadStop, find_digest};
use keep_office::{Keeper, PastRecord};
use road_digest::Digest;
use road_io::Source;
use road_time::Limits;
use std::alloc::Global;
use std::thread::Threads;

/// Whether what was found is what is kept.
fn same_or_not(kept: &PastRecord, found: Digest) -> PastOutcome
    ensures is { result ≡ past_compared kept.now found }
    ensures soon { (bytes : List ℕ) (left : Option (List ℕ)) → RefusesSoon result bytes left }
    ensures compared { IsPastUncompared result → ⊥ }
    ensures own { IsOfKeptPast result }
{
    if found.bytes == kept.digest.bytes {
        PastOutcome::Already(*kept)
    } else {
        PastOutcome::Differs {
            kept: kept.digest,
            found,
        }
    }
}

/// Compares the source with a history that is kept. One of another base is not compared.
fn compare<S: Source>(alloc: Global, kept: &PastRecord, base: u32, source: &mut S) -> PastOutcome
    ensures does { (w : WhenRefused) (bytes : List ℕ) (o : Office) → S.left source.old ≡ Some bytes
        → DoesPast w (unchanged (past_again kept.now base bytes) o) o (Some o) result }
    ensures rest { (bytes : List ℕ) → S.left source.old ≡ Some bytes
        → LeavesPast result (Some kept.now) bytes (S.left source.new) }
    ensures unread { kept.now.base ≢ base → source.new ≡ source.old }
    ensures untouched { IsUnread result → source.new ≡ source.old }
    ensures soon { (bytes : List ℕ) (left : Option (List ℕ)) → RefusesSoon result bytes left }
    ensures uncompared { IsPastUncompared result → source.new ≡ source.old }
    ensures bounded { ReadsWithin (kept.now.bytes + 1) (S.left source.old) (S.left source.new) }
    ensures unasked { result ≢ KeeperFault }
    ensures own { IsOfKeptPast result }
    ensures same { S.name source.new ≡ S.name source.old }
    ensures source { FaultsByPlan (S.faults source.old) (S.faults source.new) (S.plan source.old) (result ≡ ReadFault) }
{
    if kept.base != base {
        return PastOutcome::OtherBase { kept: kept.base };
    }
    match find_digest(alloc, kept.bytes, source) {
        Ok(found) => same_or_not(kept, found),
        Err(ReadStop::ReadFault) => PastOutcome::ReadFault,
        Err(ReadStop::NoMemory) => PastOutcome::NoMemory,
    }
}

/// Keeps a history that was read.
fn store<K: Keeper>(history: &History, keeper: &mut K) -> PastOutcome
    requires fits { IsPastPut history.now.past history.now.rows.items }
    requires first { IfTold (K.told keeper.old) HasNoDays }
    ensures does { (base : ℕ) (bytes : List ℕ) (rows : List SpentRowValue) (o : Office) → K.told keeper.old ≡ Some o
        → history.now.past ≡ past_record base bytes rows → history.now.rows.items ≡ past_kept rows
        → DoesPast K.refuses (past_read base bytes rows None o) o (K.told keeper.new) result }
    ensures rest { (kept : Option PastRecordValue) (bytes : List ℕ) → LeavesPast result kept bytes (Some []) }
    ensures puts { (o : Office) → K.told keeper.old ≡ Some o → PutsPast history.now.past.base o (K.told keeper.new) }
    ensures keeps { KeepsAllPast result (K.told keeper.new ≡ K.told keeper.old) }
    ensures soon { (bytes : List ℕ) (left : Option (List ℕ)) → RefusesSoon result bytes left }
    ensures touched { IsUnread result → ⊥ }
    ensures unread { result ≢ ReadFault }
    ensures keeper { FaultsByPlan (K.faults keeper.old) (K.faults keeper.new) (K.plan keeper.old)
        (result ≡ KeeperFault) }
    ensures asked { AsksNewPast 0 result (K.plan keeper.old) (K.plan keeper.new) }
{
    match keeper.put_past(&history.past, history.rows.as_slice()) {
        Ok(()) => PastOutcome::Stored(history.past),
        Err(fault) => keeper_refused(fault),
    }
}

/// Reads a history and keeps it, where no day and no history is kept.
fn import_first<S: Source, K: Keeper, R: Threads>(
    rt: &R,
    alloc: Global,
    base: u32,
    limits: &Limits,
    source: &mut S,
    keeper: &mut K,
) -> PastOutcome
    requires based { 70 ≤ base }
    requires first { IfTold (K.told keeper.old) HasNoDays }
    ensures does { (bytes : List ℕ) (o : Office) → S.left source.old ≡ Some bytes → K.told keeper.old ≡ Some o
        → DoesPast K.refuses (past_read base bytes (past_reads bytes base limits.now).rows
        (past_reads bytes base limits.now).refused o) o (K.told keeper.new) result }
    ensures rest { (bytes : List ℕ) (kept : Option PastRecordValue) → S.left source.old ≡ Some bytes
        → LeavesPast result kept bytes (S.left source.new) }
    ensures puts { (o : Office) → K.told keeper.old ≡ Some o → PutsPast base o (K.told keeper.new) }
    ensures keeps { KeepsAllPast result (K.told keeper.new ≡ K.told keeper.old) }
    ensures soon { (bytes : List ℕ) → S.left source.old ≡ Some bytes → RefusesSoon result bytes (S.left source.new) }
    ensures touched { IsUnread result → ⊥ }
    ensures bounded { ReadsWithin (most_past limits.now) (S.left source.old) (S.left source.new) }
    ensures read_same { S.name source.new ≡ S.name source.old }
    ensures source { FaultsByPlan (S.faults source.old) (S.faults source.new) (S.plan source.old) (result ≡ ReadFault) }
    ensures keeper { FaultsByPlan (K.faults keeper.old) (K.faults keeper.new) (K.plan keeper.old)
        (result ≡ KeeperFault) }
    ensures asked { AsksNewPast 0 result (K.plan keeper.old) (K.plan keeper.new) }
{
    match read_past(rt, alloc, base, limits, source) {
        Ok(history) => store(&history, keeper),
        Err(PastStop::Row { line, cause }) => PastOutcome::Row { line, cause },
        Err(PastStop::ReadFault) => PastOutcome::ReadFault,
        Err(PastStop::NoMemory) => PastOutcome::NoMemory,
    }
}

/// Keeps a history where none is kept. Where a day is kept, it is too late for one.
fn import_new<S: Source, K: Keeper, R: Threads>(
    rt: &R,
    alloc: Global,
    base: u32,
    limits: &Limits,
    source: &mut S,
    keeper: &mut K,
) -> PastOutcome
    requires based { 70 ≤ base }
    requires none { IfTold (K.told keeper.old) (λ o. o.past ≡ None) }
    ensures does { (bytes : List ℕ) (o : Office) → S.left source.old ≡ Some bytes → K.told keeper.old ≡ Some o
        → DoesPast K.refuses (past_new o.days base limits.now bytes o) o (K.told keeper.new) result }
    ensures rest { (bytes : List ℕ) (kept : Option PastRecordValue) → S.left source.old ≡ Some bytes
        → LeavesPast result kept bytes (S.left source.new) }
    ensures puts { (o : Office) → K.told keeper.old ≡ Some o → PutsPast base o (K.told keeper.new) }
    ensures keeps { KeepsAllPast result (K.told keeper.new ≡ K.told keeper.old) }
    ensures soon { (bytes : List ℕ) → S.left source.old ≡ Some bytes → RefusesSoon result bytes (S.left source.new) }
    ensures unread { (o : Office) → K.told keeper.old ≡ Some o → o.days ≢ [] → source.new ≡ source.old }
    ensures untouched { IsUnread result → source.new ≡ source.old }
    ensures bounded { ReadsWithin (most_past limits.now) (S.left source.old) (S.left source.new) }
    ensures read_same { S.name source.new ≡ S.name source.old }
    ensures source { FaultsByPlan (S.faults source.old) (S.faults source.new) (S.plan source.old) (result ≡ ReadFault) }
    ensures keeper { FaultsByPlan (K.faults keeper.old) (K.faults keeper.new) (K.plan keeper.old)
        (result ≡ KeeperFault) }
    ensures asked { AsksNewPast 1 result (K.plan keeper.old) (K.plan keeper.new) }
{
    match keeper.last_day() {
        Ok(last) => {
            if last > 0 {
                PastOutcome::PastLate { last }
            } else {
                import_first(rt, alloc, base, limits, source, keeper)
            }
        }
        Err(fault) => keeper_refused(fault),
    }
}

/// Keeps a history, its days counted back from a base, or says why not. A history that is kept already is compared, and
/// nothing changes.
pub fn import_past<S: Source, K: Keeper, R: Threads>(
    rt: &R,
    alloc: Global,
    base: u32,
    limits: &Limits,
    source: &mut S,
    keeper: &mut K,
) -> PastOutcome
    requires based { 70 ≤ base }
    ensures does { (bytes : List ℕ) (o : Office) → S.left source.old ≡ Some bytes → K.told keeper.old ≡ Some o
        → DoesPast K.refuses (past_answer base limits.now bytes o) o (K.told keeper.new) result }
    ensures rest { (bytes : List ℕ) (o : Office) → S.left source.old ≡ Some bytes → K.told keeper.old ≡ Some o
        → LeavesPast result o.past bytes (S.left source.new) }
    ensures puts { (o : Office) → K.told keeper.old ≡ Some o → PutsPast base o (K.told keeper.new) }
    ensures keeps { KeepsAllPast result (K.told keeper.new ≡ K.told keeper.old) }
    ensures soon { (bytes : List ℕ) → S.left source.old ≡ Some bytes → RefusesSoon result bytes (S.left source.new) }
    ensures unread { (o : Office) → K.told keeper.old ≡ Some o → NeedsNone o.past base o → source.new ≡ source.old }
    ensures untouched { IsUnread result → source.new ≡ source.old }
    ensures uncompared { IsPastUncompared result
        → ReadsWithin (most_past limits.now) (S.left source.old) (S.left source.new) }
    ensures bounded { (o : Office) → K.told keeper.old ≡ Some o
        → ReadsWithin (most_kept o.past limits.now) (S.left source.old) (S.left source.new) }
    ensures read_same { S.name source.new ≡ S.name source.old }
    ensures source { FaultsByPlan (S.faults source.old) (S.faults source.new) (S.plan source.old) (result ≡ ReadFault) }
    ensures keeper { FaultsByPlan (K.faults keeper.old) (K.faults keeper.new) (K.plan keeper.old)
        (result ≡ KeeperFault) }
    ensures asked_first { FailsFirst (K.plan keeper.old) → result ≡ KeeperFault }
    ensures asked { AsksPast result (K.plan keeper.old) (K.plan keeper.new) }
{
    match keeper.past() {
        Ok(Some(kept)) => compare(alloc, &kept, base, source),
        Ok(None) => import_new(rt, alloc, base, limits, source, keeper),
        Err(fault) => keeper_refused(fault),
    }
}
