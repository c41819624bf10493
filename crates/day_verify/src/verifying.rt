// Verifying a kept day: its bytes are worked again, and what they come to is held against what is kept.
ghost use Rattle.std.specs.Prelude.{◌≡◌, ◌≢◌, List, ℕ, Some, None, [], true};
ghost use Rattle.road_time.specs.Reads.{reads};
ghost use Rattle.keep_office.specs.Office.{Office};
ghost use Rattle.road_io.specs.Blame.{FaultsByPlan};
ghost use Rattle.day_import.specs.Faults.{FaultsBeside};
ghost use Rattle.day_verify.specs.Verdicts.{kept_verdict, sealed_verdict, verdict_of, Says, ReadsDay, IsUnread};
ghost use Rattle.day_verify.specs.Jobs.{StartsJobs};
ghost use Rattle.day_verify.specs.declared.verdict.Verdict.TheVariants.{ReadFault, KeeperFault};

use crate::judging::finish;
use crate::verdict::{Verdict, refused, stopped};
use day_floor::NoPublisher;
use day_import::{DayTerms, run_day};
use keep_office::{DayRecord, Keeper, seal};
use road_io::{Source, VoidSink};
use road_time::{NoMemory, Tariffs};
use std::alloc::Global;
use std::thread::Threads;
use ways_crews::Crew;

/// Verifies a kept day under the kept tariffs, which it was charged under.
fn verify_under<S: Source, K: Keeper, C: Crew, R: Threads>(
    rt: &R,
    alloc: Global,
    terms: DayTerms,
    kept: &DayRecord,
    tariffs: &Tariffs,
    source: &mut S,
    keeper: &mut K,
    crew: &mut C,
) -> Verdict
    requires idle { C.out crew.old ≡ [] }
    ensures says { C.exact ≡ true → (bytes : List ℕ) (o : Office) → S.left source.old ≡ Some bytes
        → K.told keeper.old ≡ Some o → tariffs.now ≡ o.tariffs
        → Says (kept_verdict kept.now terms.day terms.late terms.limits bytes o) result }
    ensures kept { K.told keeper.new ≡ K.told keeper.old }
    ensures jobs { (bytes : List ℕ) → S.left source.old ≡ Some bytes
        → StartsJobs terms.plan terms.limits.backlog (reads bytes terms.limits terms.late).tuples (C.jobs crew.old)
        (C.jobs crew.new) (C.answers crew.old) (C.answers crew.new) result }
    ensures read { IsUnread result → ⊥ }
    ensures reads { ReadsDay terms.limits terms.late result (S.left source.old) (S.left source.new) }
    ensures crew { (C.out crew.new ≡ []) × (C.which crew.new ≡ C.which crew.old) }
    ensures source { FaultsBeside (S.faults source.old) (S.faults source.new) (S.plan source.old)
        (result ≡ ReadFault) (result ≢ KeeperFault) }
    ensures keeper { FaultsByPlan (K.faults keeper.old) (K.faults keeper.new) (K.plan keeper.old)
        (result ≡ KeeperFault) }
{
    let mut sink = VoidSink;
    let mut publisher = NoPublisher;
    match run_day(
        rt,
        alloc,
        &terms.plan,
        &terms.limits,
        terms.late,
        true,
        tariffs,
        terms.day,
        source,
        keeper,
        &mut sink,
        crew,
        &mut publisher,
    ) {
        Ok(run) => finish(terms.day, kept, &run, keeper),
        Err(fault) => stopped(fault),
    }
}

/// Verifies a kept day under the kept tariffs, unless it was charged under others: then it is not read.
fn verify_sealed<S: Source, K: Keeper, C: Crew, R: Threads>(
    rt: &R,
    alloc: Global,
    terms: DayTerms,
    kept: &DayRecord,
    tariffs: &Tariffs,
    source: &mut S,
    keeper: &mut K,
    crew: &mut C,
) -> Verdict
    requires idle { C.out crew.old ≡ [] }
    ensures says { C.exact ≡ true → (bytes : List ℕ) (o : Office) → S.left source.old ≡ Some bytes
        → K.told keeper.old ≡ Some o → tariffs.now ≡ o.tariffs
        → Says (sealed_verdict kept.now terms.day terms.late terms.limits bytes o) result }
    ensures kept { K.told keeper.new ≡ K.told keeper.old }
    ensures jobs { (bytes : List ℕ) → S.left source.old ≡ Some bytes
        → StartsJobs terms.plan terms.limits.backlog (reads bytes terms.limits terms.late).tuples (C.jobs crew.old)
        (C.jobs crew.new) (C.answers crew.old) (C.answers crew.new) result }
    ensures unread { IsUnread result → source.new ≡ source.old }
    ensures reads { ReadsDay terms.limits terms.late result (S.left source.old) (S.left source.new) }
    ensures crew { (C.out crew.new ≡ []) × (C.which crew.new ≡ C.which crew.old) }
    ensures source { FaultsBeside (S.faults source.old) (S.faults source.new) (S.plan source.old)
        (result ≡ ReadFault) (result ≢ KeeperFault) }
    ensures keeper { FaultsByPlan (K.faults keeper.old) (K.faults keeper.new) (K.plan keeper.old)
        (result ≡ KeeperFault) }
{
    match seal(alloc, tariffs) {
        Ok(now) => {
            if now.bytes == kept.tariffs.bytes {
                verify_under(rt, alloc, terms, kept, tariffs, source, keeper, crew)
            } else {
                Verdict::OtherTariffs {
                    kept: kept.tariffs,
                    now,
                }
            }
        }
        Err(NoMemory) => Verdict::NoMemory,
    }
}

/// Verifies a kept day.
fn verify_kept<S: Source, K: Keeper, C: Crew, R: Threads>(
    rt: &R,
    alloc: Global,
    terms: DayTerms,
    kept: &DayRecord,
    source: &mut S,
    keeper: &mut K,
    crew: &mut C,
) -> Verdict
    requires idle { C.out crew.old ≡ [] }
    ensures says { C.exact ≡ true → (bytes : List ℕ) (o : Office) → S.left source.old ≡ Some bytes
        → K.told keeper.old ≡ Some o
        → Says (sealed_verdict kept.now terms.day terms.late terms.limits bytes o) result }
    ensures kept { K.told keeper.new ≡ K.told keeper.old }
    ensures jobs { (bytes : List ℕ) → S.left source.old ≡ Some bytes
        → StartsJobs terms.plan terms.limits.backlog (reads bytes terms.limits terms.late).tuples (C.jobs crew.old)
        (C.jobs crew.new) (C.answers crew.old) (C.answers crew.new) result }
    ensures unread { IsUnread result → source.new ≡ source.old }
    ensures reads { ReadsDay terms.limits terms.late result (S.left source.old) (S.left source.new) }
    ensures crew { (C.out crew.new ≡ []) × (C.which crew.new ≡ C.which crew.old) }
    ensures source { FaultsBeside (S.faults source.old) (S.faults source.new) (S.plan source.old)
        (result ≡ ReadFault) (result ≢ KeeperFault) }
    ensures keeper { FaultsByPlan (K.faults keeper.old) (K.faults keeper.new) (K.plan keeper.old)
        (result ≡ KeeperFault) }
{
    match keeper.tariffs() {
        Ok(tariffs) => verify_sealed(rt, alloc, terms, kept, &tariffs, source, keeper, crew),
        Err(fault) => refused(fault),
    }
}

/// Holds what is kept of a day against what its bytes come to: the digest of the bytes, the seal of the tariffs, each
/// amount, and each number of the record. Nothing that is kept changes.
pub fn verify<S: Source, K: Keeper, C: Crew, R: Threads>(
    rt: &R,
    alloc: Global,
    terms: DayTerms,
    source: &mut S,
    keeper: &mut K,
    crew: &mut C,
) -> Verdict
    requires idle { C.out crew.old ≡ [] }
    ensures says { C.exact ≡ true → (bytes : List ℕ) (o : Office) → S.left source.old ≡ Some bytes
        → K.told keeper.old ≡ Some o → Says (verdict_of terms.day terms.late terms.limits bytes o) result }
    ensures kept { K.told keeper.new ≡ K.told keeper.old }
    ensures jobs { (bytes : List ℕ) → S.left source.old ≡ Some bytes
        → StartsJobs terms.plan terms.limits.backlog (reads bytes terms.limits terms.late).tuples (C.jobs crew.old)
        (C.jobs crew.new) (C.answers crew.old) (C.answers crew.new) result }
    ensures unread { IsUnread result → source.new ≡ source.old }
    ensures reads { ReadsDay terms.limits terms.late result (S.left source.old) (S.left source.new) }
    ensures crew { (C.out crew.new ≡ []) × (C.which crew.new ≡ C.which crew.old) }
    ensures source { FaultsBeside (S.faults source.old) (S.faults source.new) (S.plan source.old)
        (result ≡ ReadFault) (result ≢ KeeperFault) }
    ensures keeper { FaultsByPlan (K.faults keeper.old) (K.faults keeper.new) (K.plan keeper.old)
        (result ≡ KeeperFault) }
{
    match keeper.day(terms.day) {
        Ok(Some(kept)) => verify_kept(rt, alloc, terms, &kept, source, keeper, crew),
        Ok(None) => Verdict::NoDay,
        Err(fault) => refused(fault),
    }
}
