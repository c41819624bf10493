// A day begins, and is imported under the kept tariffs.
ghost use Rattle.std.specs.Prelude.{◌≡◌, List, ℕ, Some, [], true};
ghost use Rattle.road_time.specs.Reads.{reads};
ghost use Rattle.keep_office.specs.declared.kept.DayRecord.{DayRecord};
ghost use Rattle.keep_office.specs.Office.{Office};
ghost use Rattle.keep_office.specs.Kept.{IsLater};
ghost use Rattle.keep_office.specs.Calls.{IfTold};
ghost use Rattle.day_floor.specs.SettlingBoards.{IsAbreast};
ghost use Rattle.day_reading.specs.Days.{most_of_day};
ghost use Rattle.road_io.specs.Within.{ReadsWithin};
ghost use Rattle.road_io.specs.Blame.{FaultsByPlan, FaultsByRoom};
ghost use Rattle.day_import.specs.Faults.{FaultsBeside, NamesNoOther};
ghost use Rattle.day_import.specs.Asked.{AsksBy};
ghost use Rattle.day_import.specs.Imports.{new_import, new_import_found, Does, LeavesRead, PutsOnce, KeepsAll};
ghost use Rattle.day_import.specs.Imports.{IsOfNewDay, KeepsUnlessRead};
ghost use Rattle.day_import.specs.Runs.{DoesByCrew, HasStartedJobs, HasDaySteps, PublishesDay};
ghost use Rattle.day_import.specs.Planned.{WorksPlanned};
ghost use Rattle.day_floor.specs.Operations.{Posted};
ghost use Rattle.day_import.specs.declared.outcomes.Outcome.TheVariants.{Stored, ReadFault, WriteFault, KeeperFault};

use crate::day::run_day;
use crate::keeping::finish_import;
use crate::outcomes::{Outcome, stopped};
use crate::terms::DayTerms;
use day_floor::Publisher;
use keep_office::Keeper;
use road_io::{Sink, Source};
use road_time::Tariffs;
use std::alloc::Global;
use std::thread::Threads;
use ways_crews::Crew;

/// Imports a day that begins, under the kept tariffs.
fn import_under<S: Source, O: Sink, K: Keeper, C: Crew, P: Publisher, R: Threads>(
    rt: &R,
    alloc: Global,
    terms: DayTerms,
    tariffs: &Tariffs,
    source: &mut S,
    sink: &mut O,
    keeper: &mut K,
    crew: &mut C,
    publisher: &mut P,
) -> Outcome
    requires idle { C.out crew.old ≡ [] }
    requires later { IfTold (K.told keeper.old) (λ o. IsLater terms.day o) }
    requires abreast { IsAbreast (P.posted publisher.old) 0 }
    ensures does { C.exact ≡ true → (bytes : List ℕ) (o : Office) → S.left source.old ≡ Some bytes
        → K.told keeper.old ≡ Some o → tariffs.now ≡ o.tariffs
        → Does K.refuses (new_import terms.day terms.late terms.limits bytes o) o (O.written sink.old)
        (O.written sink.new) (K.told keeper.new) result }
    ensures merged { (bytes : List ℕ) (o : Office) → S.left source.old ≡ Some bytes → K.told keeper.old ≡ Some o
        → tariffs.now ≡ o.tariffs
        → DoesByCrew K.refuses (λ found. new_import_found found terms.day terms.late terms.limits bytes o) o
        (C.answers crew.old) (C.answers crew.new) (O.written sink.old) (O.written sink.new) (K.told keeper.new) result }
    ensures jobs { (bytes : List ℕ) → S.left source.old ≡ Some bytes
        → HasStartedJobs terms.plan.width terms.limits.backlog (reads bytes terms.limits terms.late).tuples
        (C.jobs crew.old) (C.jobs crew.new) result }
    ensures planned { (bytes : List ℕ) → S.left source.old ≡ Some bytes
        → WorksPlanned terms.plan terms.limits.backlog (reads bytes terms.limits terms.late).tuples (C.jobs crew.old)
        (C.jobs crew.new) (C.answers crew.old) (C.answers crew.new) result }
    ensures stepped { C.exact ≡ true → (bytes : List ℕ) → S.left source.old ≡ Some bytes
        → HasDaySteps tariffs.now (reads bytes terms.limits terms.late).tuples terms.limits.backlog
        (P.posted publisher.old) (P.posted publisher.new) result }
    ensures puts { (o : Office) → K.told keeper.old ≡ Some o → PutsOnce terms.day o (K.told keeper.new) }
    ensures keeps { KeepsAll result (K.told keeper.new ≡ K.told keeper.old) }
    ensures read_first { (bytes : List ℕ) → S.left source.old ≡ Some bytes
        → KeepsUnlessRead (K.told keeper.old) (K.told keeper.new) (S.left source.new) (S.faults source.old)
        (S.faults source.new) }
    ensures whole { (bytes : List ℕ) (kept : DayRecord) → S.left source.old ≡ Some bytes → result ≡ Stored kept
        → S.left source.new ≡ Some [] }
    ensures leaves { (bytes : List ℕ) → S.left source.old ≡ Some bytes
        → LeavesRead result (reads bytes terms.limits terms.late).refused bytes (S.left source.new) }
    ensures new_day { IsOfNewDay result }
    ensures bounded { ReadsWithin (most_of_day terms.limits) (S.left source.old) (S.left source.new) }
    ensures idle { C.out crew.new ≡ [] }
    ensures crew { C.which crew.new ≡ C.which crew.old }
    ensures publisher { P.which publisher.new ≡ P.which publisher.old }
    ensures read_same { S.name source.new ≡ S.name source.old }
    ensures source { FaultsBeside (S.faults source.old) (S.faults source.new) (S.plan source.old)
        (result ≡ ReadFault) (NamesNoOther result) }
    ensures sink { FaultsByRoom (O.faults sink.old) (O.faults sink.new) (O.room sink.old) (O.room sink.new)
        (result ≡ WriteFault) }
    ensures keeper { FaultsByPlan (K.faults keeper.old) (K.faults keeper.new) (K.plan keeper.old)
        (result ≡ KeeperFault) }
    ensures asked { AsksBy 0 result (K.plan keeper.old) (K.plan keeper.new) }
{
    match run_day(
        rt,
        alloc,
        &terms.plan,
        &terms.limits,
        terms.late,
        true,
        tariffs,
        terms.day,
        source,
        keeper,
        sink,
        crew,
        publisher,
    ) {
        Ok(run) => finish_import(alloc, terms.day, &run, tariffs, keeper),
        Err(fault) => stopped(fault),
    }
}

/// Begins a day, and imports it under the kept tariffs.
pub(crate) fn import_begun<S: Source, O: Sink, K: Keeper, C: Crew, P: Publisher, R: Threads>(
    rt: &R,
    alloc: Global,
    terms: DayTerms,
    tariffs: &Tariffs,
    source: &mut S,
    sink: &mut O,
    keeper: &mut K,
    crew: &mut C,
    publisher: &mut P,
) -> Outcome
    requires idle { C.out crew.old ≡ [] }
    requires later { IfTold (K.told keeper.old) (λ o. IsLater terms.day o) }
    ensures does { C.exact ≡ true → (bytes : List ℕ) (o : Office) → S.left source.old ≡ Some bytes
        → K.told keeper.old ≡ Some o → tariffs.now ≡ o.tariffs
        → Does K.refuses (new_import terms.day terms.late terms.limits bytes o) o (O.written sink.old)
        (O.written sink.new) (K.told keeper.new) result }
    ensures merged { (bytes : List ℕ) (o : Office) → S.left source.old ≡ Some bytes → K.told keeper.old ≡ Some o
        → tariffs.now ≡ o.tariffs
        → DoesByCrew K.refuses (λ found. new_import_found found terms.day terms.late terms.limits bytes o) o
        (C.answers crew.old) (C.answers crew.new) (O.written sink.old) (O.written sink.new) (K.told keeper.new) result }
    ensures jobs { (bytes : List ℕ) → S.left source.old ≡ Some bytes
        → HasStartedJobs terms.plan.width terms.limits.backlog (reads bytes terms.limits terms.late).tuples
        (C.jobs crew.old) (C.jobs crew.new) result }
    ensures planned { (bytes : List ℕ) → S.left source.old ≡ Some bytes
        → WorksPlanned terms.plan terms.limits.backlog (reads bytes terms.limits terms.late).tuples (C.jobs crew.old)
        (C.jobs crew.new) (C.answers crew.old) (C.answers crew.new) result }
    ensures published { C.exact ≡ true → (bytes : List ℕ) (was : Posted) → S.left source.old ≡ Some bytes
        → P.posted publisher.old ≡ Some was
        → PublishesDay tariffs.now (reads bytes terms.limits terms.late).tuples terms.day terms.limits.backlog was
        (P.posted publisher.new) result }
    ensures puts { (o : Office) → K.told keeper.old ≡ Some o → PutsOnce terms.day o (K.told keeper.new) }
    ensures keeps { KeepsAll result (K.told keeper.new ≡ K.told keeper.old) }
    ensures read_first { (bytes : List ℕ) → S.left source.old ≡ Some bytes
        → KeepsUnlessRead (K.told keeper.old) (K.told keeper.new) (S.left source.new) (S.faults source.old)
        (S.faults source.new) }
    ensures whole { (bytes : List ℕ) (kept : DayRecord) → S.left source.old ≡ Some bytes → result ≡ Stored kept
        → S.left source.new ≡ Some [] }
    ensures leaves { (bytes : List ℕ) → S.left source.old ≡ Some bytes
        → LeavesRead result (reads bytes terms.limits terms.late).refused bytes (S.left source.new) }
    ensures new_day { IsOfNewDay result }
    ensures bounded { ReadsWithin (most_of_day terms.limits) (S.left source.old) (S.left source.new) }
    ensures idle { C.out crew.new ≡ [] }
    ensures crew { C.which crew.new ≡ C.which crew.old }
    ensures publisher { P.which publisher.new ≡ P.which publisher.old }
    ensures read_same { S.name source.new ≡ S.name source.old }
    ensures source { FaultsBeside (S.faults source.old) (S.faults source.new) (S.plan source.old)
        (result ≡ ReadFault) (NamesNoOther result) }
    ensures sink { FaultsByRoom (O.faults sink.old) (O.faults sink.new) (O.room sink.old) (O.room sink.new)
        (result ≡ WriteFault) }
    ensures keeper { FaultsByPlan (K.faults keeper.old) (K.faults keeper.new) (K.plan keeper.old)
        (result ≡ KeeperFault) }
    ensures asked { AsksBy 0 result (K.plan keeper.old) (K.plan keeper.new) }
{
    match publisher.begin(terms.day) {
        Ok(()) => import_under(
            rt, alloc, terms, tariffs, source, sink, keeper, crew, publisher,
        ),
        Err(_) => Outcome::NoMemory,
    }
}
