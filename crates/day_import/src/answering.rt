// Answering a day: its output is written, and nothing is kept.
ghost use Rattle.std.specs.Prelude.{◌≡◌, List, ℕ, Some, [], true};
ghost use Rattle.road_time.specs.Reads.{reads};
ghost use Rattle.keep_office.specs.Office.{Office};
ghost use Rattle.day_reading.specs.Days.{most_of_day};
ghost use Rattle.road_io.specs.Within.{ReadsWithin};
ghost use Rattle.road_io.specs.Blame.{FaultsByPlan, FaultsByRoom};
ghost use Rattle.day_import.specs.Faults.{FaultsBeside, NamesNoOther, FailsNext};
ghost use Rattle.day_import.specs.Asked.{AsksBy};
ghost use Rattle.day_import.specs.Imports.{answers_answer, answers_found, Does, LeavesRead, IsOfAnswers};
ghost use Rattle.day_import.specs.Runs.{DoesByCrew, HasStartedJobs};
ghost use Rattle.day_import.specs.Planned.{WorksPlanned};
ghost use Rattle.day_import.specs.declared.outcomes.Outcome.TheVariants.{ReadFault, WriteFault, KeeperFault};

use crate::day::run_day;
use crate::keeping::finish_answers;
use crate::outcomes::{Outcome, refused, stopped};
use crate::terms::DayTerms;
use day_floor::NoPublisher;
use keep_office::Keeper;
use road_io::{Sink, Source};
use road_time::Tariffs;
use std::alloc::Global;
use std::thread::Threads;
use ways_crews::Crew;

/// Answers a day under the kept tariffs.
fn answer_under<S: Source, O: Sink, K: Keeper, C: Crew, R: Threads>(
    rt: &R,
    alloc: Global,
    terms: DayTerms,
    tariffs: &Tariffs,
    source: &mut S,
    sink: &mut O,
    keeper: &mut K,
    crew: &mut C,
) -> Outcome
    requires idle { C.out crew.old ≡ [] }
    ensures does { C.exact ≡ true → (bytes : List ℕ) (o : Office) → S.left source.old ≡ Some bytes
        → K.told keeper.old ≡ Some o → tariffs.now ≡ o.tariffs
        → Does K.refuses (answers_answer terms.day terms.late terms.limits bytes o) o (O.written sink.old)
        (O.written sink.new) (K.told keeper.new) result }
    ensures merged { (bytes : List ℕ) (o : Office) → S.left source.old ≡ Some bytes → K.told keeper.old ≡ Some o
        → tariffs.now ≡ o.tariffs
        → DoesByCrew K.refuses (λ found. answers_found found terms.day terms.late terms.limits bytes o) o
        (C.answers crew.old) (C.answers crew.new) (O.written sink.old) (O.written sink.new) (K.told keeper.new) result }
    ensures jobs { (bytes : List ℕ) → S.left source.old ≡ Some bytes
        → HasStartedJobs terms.plan.width terms.limits.backlog (reads bytes terms.limits terms.late).tuples
        (C.jobs crew.old) (C.jobs crew.new) result }
    ensures planned { (bytes : List ℕ) → S.left source.old ≡ Some bytes
        → WorksPlanned terms.plan terms.limits.backlog (reads bytes terms.limits terms.late).tuples (C.jobs crew.old)
        (C.jobs crew.new) (C.answers crew.old) (C.answers crew.new) result }
    ensures kept { K.told keeper.new ≡ K.told keeper.old }
    ensures own { IsOfAnswers result }
    ensures leaves { (bytes : List ℕ) → S.left source.old ≡ Some bytes
        → LeavesRead result (reads bytes terms.limits terms.late).refused bytes (S.left source.new) }
    ensures bounded { ReadsWithin (most_of_day terms.limits) (S.left source.old) (S.left source.new) }
    ensures idle { C.out crew.new ≡ [] }
    ensures crew { C.which crew.new ≡ C.which crew.old }
    ensures read_same { S.name source.new ≡ S.name source.old }
    ensures source { FaultsBeside (S.faults source.old) (S.faults source.new) (S.plan source.old)
        (result ≡ ReadFault) (NamesNoOther result) }
    ensures sink { FaultsByRoom (O.faults sink.old) (O.faults sink.new) (O.room sink.old) (O.room sink.new)
        (result ≡ WriteFault) }
    ensures keeper { FaultsByPlan (K.faults keeper.old) (K.faults keeper.new) (K.plan keeper.old)
        (result ≡ KeeperFault) }
    ensures asked { AsksBy 0 result (K.plan keeper.old) (K.plan keeper.new) }
{
    let mut publisher = NoPublisher;
    match run_day(
        rt,
        alloc,
        &terms.plan,
        &terms.limits,
        terms.late,
        false,
        tariffs,
        terms.day,
        source,
        keeper,
        sink,
        crew,
        &mut publisher,
    ) {
        Ok(run) => finish_answers(&run),
        Err(fault) => stopped(fault),
    }
}

/// Answers a day: writes the output of its tuples in their order, or says why not. Nothing is kept of it, and kept days
/// are asked for what was paid alone.
pub fn answers<S: Source, O: Sink, K: Keeper, C: Crew, R: Threads>(
    rt: &R,
    alloc: Global,
    terms: DayTerms,
    source: &mut S,
    sink: &mut O,
    keeper: &mut K,
    crew: &mut C,
) -> Outcome
    requires idle { C.out crew.old ≡ [] }
    ensures does { C.exact ≡ true → (bytes : List ℕ) (o : Office) → S.left source.old ≡ Some bytes
        → K.told keeper.old ≡ Some o
        → Does K.refuses (answers_answer terms.day terms.late terms.limits bytes o) o (O.written sink.old)
        (O.written sink.new) (K.told keeper.new) result }
    ensures merged { (bytes : List ℕ) (o : Office) → S.left source.old ≡ Some bytes → K.told keeper.old ≡ Some o
        → DoesByCrew K.refuses (λ found. answers_found found terms.day terms.late terms.limits bytes o) o
        (C.answers crew.old) (C.answers crew.new) (O.written sink.old) (O.written sink.new) (K.told keeper.new) result }
    ensures jobs { (bytes : List ℕ) → S.left source.old ≡ Some bytes
        → HasStartedJobs terms.plan.width terms.limits.backlog (reads bytes terms.limits terms.late).tuples
        (C.jobs crew.old) (C.jobs crew.new) result }
    ensures planned { (bytes : List ℕ) → S.left source.old ≡ Some bytes
        → WorksPlanned terms.plan terms.limits.backlog (reads bytes terms.limits terms.late).tuples (C.jobs crew.old)
        (C.jobs crew.new) (C.answers crew.old) (C.answers crew.new) result }
    ensures kept { K.told keeper.new ≡ K.told keeper.old }
    ensures own { IsOfAnswers result }
    ensures leaves { (bytes : List ℕ) → S.left source.old ≡ Some bytes
        → LeavesRead result (reads bytes terms.limits terms.late).refused bytes (S.left source.new) }
    ensures bounded { ReadsWithin (most_of_day terms.limits) (S.left source.old) (S.left source.new) }
    ensures idle { C.out crew.new ≡ [] }
    ensures crew { C.which crew.new ≡ C.which crew.old }
    ensures read_same { S.name source.new ≡ S.name source.old }
    ensures source { FaultsBeside (S.faults source.old) (S.faults source.new) (S.plan source.old)
        (result ≡ ReadFault) (NamesNoOther result) }
    ensures sink { FaultsByRoom (O.faults sink.old) (O.faults sink.new) (O.room sink.old) (O.room sink.new)
        (result ≡ WriteFault) }
    ensures asked_first { FailsNext (K.plan keeper.old) → result ≡ KeeperFault }
    ensures keeper { FaultsByPlan (K.faults keeper.old) (K.faults keeper.new) (K.plan keeper.old)
        (result ≡ KeeperFault) }
    ensures asked { AsksBy 1 result (K.plan keeper.old) (K.plan keeper.new) }
{
    match keeper.tariffs() {
        Ok(tariffs) => answer_under(rt, alloc, terms, &tariffs, source, sink, keeper, crew),
        Err(fault) => refused(fault),
    }
}
