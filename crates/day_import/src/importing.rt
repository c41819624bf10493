// Importing a day: looking whether it is kept, passed or new, and a new one.
ghost use Rattle.std.specs.Prelude.{◌≡◌, ◌≤◌, List, ℕ, Some, None, [], true};
ghost use Rattle.road_time.specs.Reads.{reads};
ghost use Rattle.keep_office.specs.declared.kept.DayRecord.{DayRecord};
ghost use Rattle.keep_office.specs.Office.{Office, record_of, last_day};
ghost use Rattle.day_reading.specs.Days.{most_of_day};
ghost use Rattle.road_io.specs.Within.{ReadsWithin};
ghost use Rattle.road_io.specs.Blame.{FaultsByPlan, FaultsByRoom};
ghost use Rattle.day_import.specs.Faults.{FaultsBeside, NamesNoOther, FailsNext};
ghost use Rattle.day_import.specs.Asked.{AsksBy};
ghost use Rattle.day_import.specs.Imports.{import_answer, import_found, most_imported, Does, LeavesRest, LeavesAlone};
ghost use Rattle.day_import.specs.Imports.{LeavesRead, PutsOnce, KeepsAll, KeepsUnlessRead, IsUncompared, new_import};
ghost use Rattle.day_import.specs.Imports.{new_import_found, unless_passed, IsOfNewDay};
ghost use Rattle.day_import.specs.Runs.{DoesByCrew, HasStartedJobs, PublishesDay, PublishesUnderSome};
ghost use Rattle.day_import.specs.Planned.{WorksPlanned};
ghost use Rattle.day_floor.specs.Operations.{Posted};
ghost use Rattle.day_import.specs.declared.outcomes.Outcome.TheVariants.{Stored, ReadFault, WriteFault, KeeperFault};
ghost use Rattle.keep_office.specs.Kept.{IsLater};
ghost use Rattle.keep_office.specs.Calls.{IfTold};

use crate::beginning::import_begun;
use crate::keeping::compare;
use crate::outcomes::{Outcome, refused};
use crate::terms::DayTerms;
use day_floor::Publisher;
use keep_office::Keeper;
use road_io::{Sink, Source};
use std::alloc::Global;
use std::thread::Threads;
use ways_crews::Crew;

/// Imports a day: writes the output of its tuples in their order and keeps the day with its amounts, or says why not. A
/// day that is kept already is compared, and nothing changes.
pub fn import<S: Source, O: Sink, K: Keeper, C: Crew, P: Publisher, R: Threads>(
    rt: &R,
    alloc: Global,
    terms: DayTerms,
    source: &mut S,
    sink: &mut O,
    keeper: &mut K,
    crew: &mut C,
    publisher: &mut P,
) -> Outcome
    requires idle { C.out crew.old ≡ [] }
    ensures does { C.exact ≡ true → (bytes : List ℕ) (o : Office) → S.left source.old ≡ Some bytes
        → K.told keeper.old ≡ Some o
        → Does K.refuses (import_answer terms.day terms.late terms.limits bytes o) o (O.written sink.old)
        (O.written sink.new) (K.told keeper.new) result }
    ensures merged { (bytes : List ℕ) (o : Office) → S.left source.old ≡ Some bytes → K.told keeper.old ≡ Some o
        → DoesByCrew K.refuses (λ found. import_found found terms.day terms.late terms.limits bytes o) o
        (C.answers crew.old) (C.answers crew.new) (O.written sink.old) (O.written sink.new) (K.told keeper.new) result }
    ensures jobs { (bytes : List ℕ) → S.left source.old ≡ Some bytes
        → HasStartedJobs terms.plan.width terms.limits.backlog (reads bytes terms.limits terms.late).tuples
        (C.jobs crew.old) (C.jobs crew.new) result }
    ensures planned { (bytes : List ℕ) → S.left source.old ≡ Some bytes
        → WorksPlanned terms.plan terms.limits.backlog (reads bytes terms.limits terms.late).tuples (C.jobs crew.old)
        (C.jobs crew.new) (C.answers crew.old) (C.answers crew.new) result }
    ensures published { C.exact ≡ true → (bytes : List ℕ) (o : Office) (was : Posted) → S.left source.old ≡ Some bytes
        → K.told keeper.old ≡ Some o
        → P.posted publisher.old ≡ Some was
        → PublishesDay o.tariffs (reads bytes terms.limits terms.late).tuples terms.day terms.limits.backlog was
        (P.posted publisher.new) result }
    ensures published_by { C.exact ≡ true → (bytes : List ℕ) (was : Posted) → S.left source.old ≡ Some bytes
        → P.posted publisher.old ≡ Some was
        → PublishesUnderSome (reads bytes terms.limits terms.late).tuples terms.day terms.limits.backlog was
        (P.posted publisher.new) result }
    ensures puts { (o : Office) → K.told keeper.old ≡ Some o → PutsOnce terms.day o (K.told keeper.new) }
    ensures keeps { KeepsAll result (K.told keeper.new ≡ K.told keeper.old) }
    ensures read_first { (bytes : List ℕ) → S.left source.old ≡ Some bytes
        → KeepsUnlessRead (K.told keeper.old) (K.told keeper.new) (S.left source.new) (S.faults source.old)
        (S.faults source.new) }
    ensures whole { (bytes : List ℕ) (kept : DayRecord) → S.left source.old ≡ Some bytes → result ≡ Stored kept
        → S.left source.new ≡ Some [] }
    ensures leaves { (bytes : List ℕ) → S.left source.old ≡ Some bytes
        → LeavesRead result (reads bytes terms.limits terms.late).refused bytes (S.left source.new) }
    ensures alone { LeavesAlone result (source.new ≡ source.old) ((sink.new ≡ sink.old)
        × (publisher.new ≡ publisher.old) × (crew.new ≡ crew.old)) }
    ensures rest { (bytes : List ℕ) (o : Office) → S.left source.old ≡ Some bytes → K.told keeper.old ≡ Some o
        → LeavesRest result (record_of o terms.day) bytes (S.left source.new) }
    ensures unread { (o : Office) → K.told keeper.old ≡ Some o → record_of o terms.day ≡ None → terms.day ≤ last_day o
        → source.new ≡ source.old }
    ensures uncompared { IsUncompared result
        → ReadsWithin (most_of_day terms.limits) (S.left source.old) (S.left source.new) }
    ensures bounded { (o : Office) → K.told keeper.old ≡ Some o
        → ReadsWithin (most_imported (record_of o terms.day) terms.limits) (S.left source.old) (S.left source.new) }
    ensures idle { C.out crew.new ≡ [] }
    ensures crew { C.which crew.new ≡ C.which crew.old }
    ensures publisher { P.which publisher.new ≡ P.which publisher.old }
    ensures read_same { S.name source.new ≡ S.name source.old }
    ensures source { FaultsBeside (S.faults source.old) (S.faults source.new) (S.plan source.old)
        (result ≡ ReadFault) (NamesNoOther result) }
    ensures sink { FaultsByRoom (O.faults sink.old) (O.faults sink.new) (O.room sink.old) (O.room sink.new)
        (result ≡ WriteFault) }
    ensures asked_first { FailsNext (K.plan keeper.old) → result ≡ KeeperFault }
    ensures keeper { FaultsByPlan (K.faults keeper.old) (K.faults keeper.new) (K.plan keeper.old)
        (result ≡ KeeperFault) }
    ensures asked { AsksBy 3 result (K.plan keeper.old) (K.plan keeper.new) }
{
    match keeper.day(terms.day) {
        Ok(Some(kept)) => compare(alloc, &kept, source),
        Ok(None) => import_new(rt, alloc, terms, source, sink, keeper, crew, publisher),
        Err(why) => refused(why),
    }
}

/// Imports a day that is later than all that is kept.
fn import_later<S: Source, O: Sink, K: Keeper, C: Crew, P: Publisher, R: Threads>(
    rt: &R,
    alloc: Global,
    terms: DayTerms,
    source: &mut S,
    sink: &mut O,
    keeper: &mut K,
    crew: &mut C,
    publisher: &mut P,
) -> Outcome
    requires idle { C.out crew.old ≡ [] }
    requires later { IfTold (K.told keeper.old) (λ o. IsLater terms.day o) }
    ensures does { C.exact ≡ true → (bytes : List ℕ) (o : Office) → S.left source.old ≡ Some bytes
        → K.told keeper.old ≡ Some o
        → Does K.refuses (new_import terms.day terms.late terms.limits bytes o) o (O.written sink.old)
        (O.written sink.new) (K.told keeper.new) result }
    ensures merged { (bytes : List ℕ) (o : Office) → S.left source.old ≡ Some bytes → K.told keeper.old ≡ Some o
        → DoesByCrew K.refuses (λ found. new_import_found found terms.day terms.late terms.limits bytes o) o
        (C.answers crew.old) (C.answers crew.new) (O.written sink.old) (O.written sink.new) (K.told keeper.new) result }
    ensures jobs { (bytes : List ℕ) → S.left source.old ≡ Some bytes
        → HasStartedJobs terms.plan.width terms.limits.backlog (reads bytes terms.limits terms.late).tuples
        (C.jobs crew.old) (C.jobs crew.new) result }
    ensures planned { (bytes : List ℕ) → S.left source.old ≡ Some bytes
        → WorksPlanned terms.plan terms.limits.backlog (reads bytes terms.limits terms.late).tuples (C.jobs crew.old)
        (C.jobs crew.new) (C.answers crew.old) (C.answers crew.new) result }
    ensures published { C.exact ≡ true → (bytes : List ℕ) (o : Office) (was : Posted) → S.left source.old ≡ Some bytes
        → K.told keeper.old ≡ Some o
        → P.posted publisher.old ≡ Some was
        → PublishesDay o.tariffs (reads bytes terms.limits terms.late).tuples terms.day terms.limits.backlog was
        (P.posted publisher.new) result }
    ensures published_by { C.exact ≡ true → (bytes : List ℕ) (was : Posted) → S.left source.old ≡ Some bytes
        → P.posted publisher.old ≡ Some was
        → PublishesUnderSome (reads bytes terms.limits terms.late).tuples terms.day terms.limits.backlog was
        (P.posted publisher.new) result }
    ensures puts { (o : Office) → K.told keeper.old ≡ Some o → PutsOnce terms.day o (K.told keeper.new) }
    ensures keeps { KeepsAll result (K.told keeper.new ≡ K.told keeper.old) }
    ensures read_first { (bytes : List ℕ) → S.left source.old ≡ Some bytes
        → KeepsUnlessRead (K.told keeper.old) (K.told keeper.new) (S.left source.new) (S.faults source.old)
        (S.faults source.new) }
    ensures whole { (bytes : List ℕ) (kept : DayRecord) → S.left source.old ≡ Some bytes → result ≡ Stored kept
        → S.left source.new ≡ Some [] }
    ensures leaves { (bytes : List ℕ) → S.left source.old ≡ Some bytes
        → LeavesRead result (reads bytes terms.limits terms.late).refused bytes (S.left source.new) }
    ensures new_day { IsOfNewDay result }
    ensures bounded { ReadsWithin (most_of_day terms.limits) (S.left source.old) (S.left source.new) }
    ensures idle { C.out crew.new ≡ [] }
    ensures crew { C.which crew.new ≡ C.which crew.old }
    ensures publisher { P.which publisher.new ≡ P.which publisher.old }
    ensures read_same { S.name source.new ≡ S.name source.old }
    ensures source { FaultsBeside (S.faults source.old) (S.faults source.new) (S.plan source.old)
        (result ≡ ReadFault) (NamesNoOther result) }
    ensures sink { FaultsByRoom (O.faults sink.old) (O.faults sink.new) (O.room sink.old) (O.room sink.new)
        (result ≡ WriteFault) }
    ensures keeper { FaultsByPlan (K.faults keeper.old) (K.faults keeper.new) (K.plan keeper.old)
        (result ≡ KeeperFault) }
    ensures asked { AsksBy 1 result (K.plan keeper.old) (K.plan keeper.new) }
{
    match keeper.tariffs() {
        Ok(tariffs) => import_begun(
            rt, alloc, terms, &tariffs, source, sink, keeper, crew, publisher,
        ),
        Err(fault) => refused(fault),
    }
}

/// Imports a day that is not kept.
pub(crate) fn import_new<S: Source, O: Sink, K: Keeper, C: Crew, P: Publisher, R: Threads>(
    rt: &R,
    alloc: Global,
    terms: DayTerms,
    source: &mut S,
    sink: &mut O,
    keeper: &mut K,
    crew: &mut C,
    publisher: &mut P,
) -> Outcome
    requires idle { C.out crew.old ≡ [] }
    ensures does { C.exact ≡ true → (bytes : List ℕ) (o : Office) → S.left source.old ≡ Some bytes
        → K.told keeper.old ≡ Some o
        → Does K.refuses (unless_passed (new_import terms.day terms.late terms.limits bytes o) terms.day o) o
        (O.written sink.old) (O.written sink.new) (K.told keeper.new) result }
    ensures merged { (bytes : List ℕ) (o : Office) → S.left source.old ≡ Some bytes → K.told keeper.old ≡ Some o
        → DoesByCrew K.refuses (λ found. unless_passed
        (new_import_found found terms.day terms.late terms.limits bytes o) terms.day o) o (C.answers crew.old)
        (C.answers crew.new) (O.written sink.old) (O.written sink.new) (K.told keeper.new) result }
    ensures unread { (o : Office) → K.told keeper.old ≡ Some o → terms.day ≤ last_day o → source.new ≡ source.old }
    ensures jobs { (bytes : List ℕ) → S.left source.old ≡ Some bytes
        → HasStartedJobs terms.plan.width terms.limits.backlog (reads bytes terms.limits terms.late).tuples
        (C.jobs crew.old) (C.jobs crew.new) result }
    ensures planned { (bytes : List ℕ) → S.left source.old ≡ Some bytes
        → WorksPlanned terms.plan terms.limits.backlog (reads bytes terms.limits terms.late).tuples (C.jobs crew.old)
        (C.jobs crew.new) (C.answers crew.old) (C.answers crew.new) result }
    ensures published { C.exact ≡ true → (bytes : List ℕ) (o : Office) (was : Posted) → S.left source.old ≡ Some bytes
        → K.told keeper.old ≡ Some o
        → P.posted publisher.old ≡ Some was
        → PublishesDay o.tariffs (reads bytes terms.limits terms.late).tuples terms.day terms.limits.backlog was
        (P.posted publisher.new) result }
    ensures published_by { C.exact ≡ true → (bytes : List ℕ) (was : Posted) → S.left source.old ≡ Some bytes
        → P.posted publisher.old ≡ Some was
        → PublishesUnderSome (reads bytes terms.limits terms.late).tuples terms.day terms.limits.backlog was
        (P.posted publisher.new) result }
    ensures puts { (o : Office) → K.told keeper.old ≡ Some o → PutsOnce terms.day o (K.told keeper.new) }
    ensures keeps { KeepsAll result (K.told keeper.new ≡ K.told keeper.old) }
    ensures read_first { (bytes : List ℕ) → S.left source.old ≡ Some bytes
        → KeepsUnlessRead (K.told keeper.old) (K.told keeper.new) (S.left source.new) (S.faults source.old)
        (S.faults source.new) }
    ensures whole { (bytes : List ℕ) (kept : DayRecord) → S.left source.old ≡ Some bytes → result ≡ Stored kept
        → S.left source.new ≡ Some [] }
    ensures leaves { (bytes : List ℕ) → S.left source.old ≡ Some bytes
        → LeavesRead result (reads bytes terms.limits terms.late).refused bytes (S.left source.new) }
    ensures alone { LeavesAlone result (source.new ≡ source.old) ((sink.new ≡ sink.old)
        × (publisher.new ≡ publisher.old) × (crew.new ≡ crew.old)) }
    ensures bounded { ReadsWithin (most_of_day terms.limits) (S.left source.old) (S.left source.new) }
    ensures idle { C.out crew.new ≡ [] }
    ensures crew { C.which crew.new ≡ C.which crew.old }
    ensures publisher { P.which publisher.new ≡ P.which publisher.old }
    ensures read_same { S.name source.new ≡ S.name source.old }
    ensures source { FaultsBeside (S.faults source.old) (S.faults source.new) (S.plan source.old)
        (result ≡ ReadFault) (NamesNoOther result) }
    ensures sink { FaultsByRoom (O.faults sink.old) (O.faults sink.new) (O.room sink.old) (O.room sink.new)
        (result ≡ WriteFault) }
    ensures keeper { FaultsByPlan (K.faults keeper.old) (K.faults keeper.new) (K.plan keeper.old)
        (result ≡ KeeperFault) }
    ensures asked { AsksBy 2 result (K.plan keeper.old) (K.plan keeper.new) }
{
    match keeper.last_day() {
        Ok(last) => {
            if last >= terms.day {
                Outcome::DayPassed { last }
            } else {
                import_later(rt, alloc, terms, source, sink, keeper, crew, publisher)
            }
        }
        Err(fault) => refused(fault),
    }
}
