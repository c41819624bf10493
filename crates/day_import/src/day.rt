// A day on the floor: it is opened, run as its plan says, and closed.
ghost use Rattle.std.specs.Prelude.{◌≡◌, ◌≤◌, [], ℕ, List, Some, None, IfOk, IfErr, OnOk, Option, drop, true, false};
ghost use Rattle.std.specs.Prelude.{length, is_some};
ghost use Rattle.road_time.specs.Reads.{reads};
ghost use Rattle.road_io.specs.Plans.{NeverFails};
ghost use Rattle.road_io.specs.Rooms.{Endless};
ghost use Rattle.day_reading.specs.Days.{IsDigested, LeavesBehind, most_of_day};
ghost use Rattle.road_io.specs.Within.{ReadsWithin};
ghost use Rattle.day_floor.specs.Answers.{history_of};
ghost use Rattle.day_floor.specs.SettlingBoards.{IsAbreast};
ghost use Rattle.day_floor.specs.Terms.{AreTerms};
ghost use Rattle.day_import.specs.DayFaults.{IsCounted, IsCountedAhead};
ghost use Rattle.day_import.specs.AskedRounds.{AsksUntil, keeper_stopped};
ghost use Rattle.day_import.specs.Outcomes.{HasImported, HasStopped, task_of};
ghost use Rattle.day_import.specs.PlannedRounds.{HasPlannedJobs, IsPlanned};
ghost use Rattle.day_import.specs.declared.fault.DayFault.TheVariants.{ReadFault, WriteFault, KeeperFault};
ghost use Rattle.day_reading.specs.Ahead.{is_digested, IsAhead, IsGatheringAhead, HasReadAhead, HasFailedAhead};
ghost use Rattle.day_reading.specs.Ahead.{has_more};
ghost use Rattle.day_floor.specs.Shares.{start, State};
ghost use Rattle.day_floor.specs.Floors.{Setting};
ghost use Rattle.day_import.specs.RoundRuns.{RunsBy};
ghost use Rattle.ways_expressway.specs.declared.finding.Finding.{Finding};
ghost use Rattle.ways_crews.specs.Told.{CrewTold};
ghost use Rattle.day_import.specs.Days.{IsOn};
ghost use Rattle.day_import.specs.Halts.{IsCutDayBy};

use crate::begun::{Import, begin, leave, stop};
use crate::fault::{DayFault, reading_stopped};
use crate::rounds::run_rounds;
use crate::turns::run_turns;
use day_floor::{Closed, Publisher};
use day_plan::{Plan, seed};
use day_reading::{DayAhead, DayEnd};
use keep_office::Keeper;
use road_io::{Sink, Source};
use road_time::{Limits, Tariffs, Tuple};
use std::alloc::Global;
use std::thread::Threads;
use ways_crews::Crew;

/// Imports the tuples of a day to its end, or to the first line that is refused: it reads, and makes turns by the plan
/// until all is settled. What is written is their output, by the findings that the crew answered. The digests of the
/// bytes and of what is written are taken where they are asked. On every exit the crew has nothing out.
pub fn run_day<C: Crew, S: Source, K: Keeper, O: Sink, P: Publisher, R: Threads>(
    rt: &R,
    alloc: Global,
    plan: &Plan,
    limits: &Limits,
    late: u8,
    digested: bool,
    tariffs: &Tariffs,
    day: u32,
    source: &mut S,
    keeper: &mut K,
    sink: &mut O,
    crew: &mut C,
    publisher: &mut P,
) -> Result<WorkedDay, DayFault>
    requires terms { AreTerms plan.now.width limits.now }
    requires soon { late ≤ 120 }
    requires abreast { IsAbreast (P.posted publisher.old) 0 }
    requires idle { C.out crew.old ≡ [] }
    ensures idle { C.out crew.new ≡ [] }
    ensures crew { C.which crew.new ≡ C.which crew.old }
    ensures ran { IfOk result (λ run.
        HasImported (record {
          width = plan.now.width;
          limits = limits.now;
          late = late;
          tariffs = tariffs.now;
          number = day;
          history = history_of (K.told keeper.old);
        })
        C.exact (λ bytes. S.left source.old ≡ Some bytes) (C.answers crew.old) (C.answers crew.new) (C.jobs crew.old)
        (C.jobs crew.new)
        (O.written sink.old) (O.written sink.new) (P.posted publisher.old) (P.posted publisher.new) run) }
    ensures stopped { IfErr result (λ fault.
        HasStopped (record {
          width = plan.now.width;
          limits = limits.now;
          late = late;
          tariffs = tariffs.now;
          number = day;
          history = history_of (K.told keeper.old);
        })
        C.exact (λ bytes. S.left source.old ≡ Some bytes) (C.jobs crew.old) (C.jobs crew.new)
        (O.written sink.old) (O.written sink.new) (P.posted publisher.old) (P.posted publisher.new) fault) }
    ensures bounded { ReadsWithin (most_of_day limits.now) (S.left source.old) (S.left source.new) }
    ensures leaves { IfOk result (λ run. (bytes : List ℕ) → S.left source.old ≡ Some bytes
        → LeavesBehind run.end bytes (S.left source.new)) }
    ensures digested { IfOk result (λ run. IsDigested digested run.end) }
    ensures notices_digested { IfOk result (λ run. is_some run.closed.notices_digest ≡ digested) }
    ensures planned { OnOk result ((bytes : List ℕ) → S.left source.old ≡ Some bytes
        → HasPlannedJobs plan.now.turns plan.now.width limits.now.backlog (reads bytes limits.now late).tuples
        (C.jobs crew.old) (C.jobs crew.new) (C.answers crew.old) (C.answers crew.new)) }
    ensures rest { OnOk result ((bytes : List ℕ) → S.left source.old ≡ Some bytes
        → (reads bytes limits.now late).refused ≡ None → S.left source.new ≡ Some []) }
    ensures source_same { S.name source.new ≡ S.name source.old }
    ensures publisher { P.which publisher.new ≡ P.which publisher.old }
    ensures same { K.told keeper.new ≡ K.told keeper.old }
    ensures source { IsCountedAhead ReadFault (S.faults source.old) (S.faults source.new)
        (NeverFails (S.plan source.old)) (NeverFails (S.plan source.new)) result }
    ensures sink { IsCounted WriteFault (O.faults sink.old) (O.faults sink.new) (O.room sink.old ≡ Endless)
        (O.room sink.new ≡ Endless) result }
    ensures keeper { IsCounted KeeperFault (K.faults keeper.old) (K.faults keeper.new) (NeverFails (K.plan keeper.old))
        (NeverFails (K.plan keeper.new)) result }
    ensures asked { AsksUntil (keeper_stopped result) (K.plan keeper.old) (K.plan keeper.new) }
{
    let Ok(run) = begin(alloc, plan.width, limits, tariffs, digested) else {
        return Err(DayFault::NoMemory);
    };
    match DayAhead::open(rt, alloc, limits, late, digested, source) {
        Err(stop) => {
            leave(rt, run);
            Err(reading_stopped(stop))
        }
        Ok(ahead) => {
            let these = Vec::new(alloc);
            match run_opened(
                rt, plan, run, crew, ahead, source, these, day, keeper, sink, publisher,
            ) {
                Ok(left) => Ok(left),
                Err(fault) => Err(fault),
            }
        }
    }
}

/// What is left of a day that was imported to its end or to the first line that is refused: what its settling left, how
/// many tuples it has, and how its reading ended.
#[derive(Drop)]
pub struct WorkedDay {
    pub closed: Closed,
    pub tuples: u64,
    pub end: DayEnd,
}

/// A day whose reader is open, on a crew that has nothing out.
pub fn run_opened<C: Crew, S: Source, K: Keeper, O: Sink, P: Publisher, R: Threads>(
    rt: &R,
    plan: &Plan,
    mut run: Import<C::Ticket>,
    crew: &mut C,
    mut ahead: DayAhead,
    source: &mut S,
    mut these: Vec<Tuple>,
    day: u32,
    keeper: &mut K,
    sink: &mut O,
    publisher: &mut P,
) -> Result<WorkedDay, DayFault>
    requires width { plan.now.width ≡ run.floor.inboxes.width }
    requires none { run.tickets.items ≡ [] }
    requires unfailed { HasFailedAhead ahead → ⊥ }
    requires runs { (e : Setting) × (late : ℕ)
        × RunsBy C.Crew e (C.jobs crew.old) (C.answers crew.old) run crew.old start
        × IsGatheringAhead ahead run.floor.limits late [] × (e.number ≡ day)
        × (e.history ≡ history_of (K.told keeper.old)) × IsAbreast (P.posted publisher.old) 0 }
    ensures idle { C.out crew.new ≡ [] }
    ensures crew { C.which crew.new ≡ C.which crew.old }
    ensures ran { IfOk result (λ r. (e : Setting) (late : ℕ)
        → RunsBy C.Crew e (C.jobs crew.old) (C.answers crew.old) run crew.old start
        → IsGatheringAhead ahead run.floor.limits late [] → e.number ≡ day → e.history ≡ history_of (K.told keeper.old)
        → HasImported (task_of e run.floor.inboxes.width run.floor.limits late) C.exact (λ bytes. IsAhead ahead
        run.floor.limits late (S.left source.old) bytes []) (C.answers crew.old) (C.answers crew.new) (C.jobs crew.old)
        (C.jobs crew.new) (O.written sink.old) (O.written sink.new) (P.posted publisher.old) (P.posted publisher.new) r) }
    ensures stopped { IfErr result (λ fault. (e : Setting) (late : ℕ)
        → RunsBy C.Crew e (C.jobs crew.old) (C.answers crew.old) run crew.old start
        → IsGatheringAhead ahead run.floor.limits late [] → e.number ≡ day → e.history ≡ history_of (K.told keeper.old)
        → HasStopped (task_of e run.floor.inboxes.width run.floor.limits late) C.exact (λ bytes. IsAhead ahead
        run.floor.limits late (S.left source.old) bytes []) (C.jobs crew.old) (C.jobs crew.new) (O.written sink.old)
        (O.written sink.new) (P.posted publisher.old) (P.posted publisher.new) fault) }
    ensures bounded { (bytes : List ℕ) → HasReadAhead ahead run.floor.limits.lines (S.left source.old) bytes
        → (count : ℕ) × (count ≤ most_of_day run.floor.limits) × (S.left source.new ≡ Some (drop count bytes)) }
    ensures leaves { IfOk result (λ r. (e : Setting) (late : ℕ)
        → RunsBy C.Crew e (C.jobs crew.old) (C.answers crew.old) run crew.old start
        → IsGatheringAhead ahead run.floor.limits late [] → e.number ≡ day → e.history ≡ history_of (K.told keeper.old)
        → (bytes : List ℕ) → IsAhead ahead run.floor.limits late (S.left source.old) bytes []
        → HasReadAhead ahead run.floor.limits.lines (S.left source.old) bytes
        → LeavesBehind r.end bytes (S.left source.new)) }
    ensures digested { IfOk result (λ r. IsDigested (is_digested ahead) r.end) }
    ensures notices_digested { IfOk result (λ r. (e : Setting) (late : ℕ)
        → RunsBy C.Crew e (C.jobs crew.old) (C.answers crew.old) run crew.old start
        → IsGatheringAhead ahead run.floor.limits late [] → e.number ≡ day → e.history ≡ history_of (K.told keeper.old)
        → is_some r.closed.notices_digest ≡ e.digested) }
    ensures planned { OnOk result ((e : Setting) (late : ℕ)
        → RunsBy C.Crew e (C.jobs crew.old) (C.answers crew.old) run crew.old start
        → IsGatheringAhead ahead run.floor.limits late [] → e.number ≡ day → e.history ≡ history_of (K.told keeper.old)
        → (bytes : List ℕ) → IsAhead ahead run.floor.limits late (S.left source.old) bytes []
        → HasPlannedJobs plan.now.turns run.floor.inboxes.width run.floor.limits.backlog (reads bytes run.floor.limits
        late).tuples (C.jobs crew.old) (C.jobs crew.new) (C.answers crew.old) (C.answers crew.new)) }
    ensures rest { OnOk result ((e : Setting) (late : ℕ)
        → RunsBy C.Crew e (C.jobs crew.old) (C.answers crew.old) run crew.old start
        → IsGatheringAhead ahead run.floor.limits late [] → e.number ≡ day → e.history ≡ history_of (K.told keeper.old)
        → (bytes : List ℕ) → IsAhead ahead run.floor.limits late (S.left source.old) bytes []
        → HasReadAhead ahead run.floor.limits.lines (S.left source.old) bytes
        → (reads bytes run.floor.limits late).refused ≡ None → S.left source.new ≡ Some []) }
    ensures source_same { S.name source.new ≡ S.name source.old }
    ensures publisher { P.which publisher.new ≡ P.which publisher.old }
    ensures same { K.told keeper.new ≡ K.told keeper.old }
    ensures source { IsCountedAhead ReadFault (S.faults source.old) (S.faults source.new)
        (NeverFails (S.plan source.old)) (NeverFails (S.plan source.new)) result }
    ensures sink { IsCounted WriteFault (O.faults sink.old) (O.faults sink.new) (O.room sink.old ≡ Endless)
        (O.room sink.new ≡ Endless) result }
    ensures keeper { IsCounted KeeperFault (K.faults keeper.old) (K.faults keeper.new) (NeverFails (K.plan keeper.old))
        (NeverFails (K.plan keeper.new)) result }
    ensures asked { AsksUntil (keeper_stopped result) (K.plan keeper.old) (K.plan keeper.new) }
{
    match run_plan(
        rt, plan, &mut run, crew, &mut ahead, source, &mut these, day, keeper, sink, publisher,
    ) {
        Ok(tuples) => {
            let Import { floor, tickets: _ } = run;
            let Ok(closed) = floor.close(rt, day) else {
                ahead.close(rt);
                return Err(DayFault::NoMemory);
            };
            let end = ahead.end(rt);
            Ok(WorkedDay {
                closed,
                tuples,
                end,
            })
        }
        Err(fault) => {
            stop(rt, run, crew);
            ahead.close(rt);
            Err(fault)
        }
    }
}

/// A day, from the start: in turns that the plan's number draws, or in rounds. It answers how many are settled, which
/// is all.
pub fn run_plan<C: Crew, S: Source, K: Keeper, O: Sink, P: Publisher, R: Threads>(
    rt: &R,
    plan: &Plan,
    run: &mut Import<C::Ticket>,
    crew: &mut C,
    ahead: &mut DayAhead,
    source: &mut S,
    these: &mut Vec<Tuple>,
    day: u32,
    keeper: &mut K,
    sink: &mut O,
    publisher: &mut P,
) -> Result<u64, DayFault>
    requires width { plan.now.width ≡ run.old.floor.inboxes.width }
    requires none { run.old.tickets.items ≡ [] }
    requires unfailed { HasFailedAhead ahead.old → ⊥ }
    requires runs { (e : Setting) × (told : Option CrewTold) × (answered : Option (List Finding)) × (late : ℕ)
        × RunsBy C.Crew e told answered run.old crew.old start × IsGatheringAhead ahead.old run.old.floor.limits late []
        × (e.number ≡ day) × (e.history ≡ history_of (K.told keeper.old)) × IsAbreast (P.posted publisher.old) 0 }
    ensures width { run.new.floor.inboxes.width ≡ run.old.floor.inboxes.width }
    ensures limits { run.new.floor.limits ≡ run.old.floor.limits }
    ensures crew { C.which crew.new ≡ C.which crew.old }
    ensures none { OnOk result (run.new.tickets.items ≡ []) }
    ensures ended { OnOk result (has_more ahead.new ≡ false) }
    ensures done { IfOk result (λ n. (e : Setting) (told : Option CrewTold) (answered : Option (List Finding))
        (late : ℕ) → RunsBy C.Crew e told answered run.old crew.old start
        → IsGatheringAhead ahead.old run.old.floor.limits late [] → e.number ≡ day
        → e.history ≡ history_of (K.told keeper.old) → (now : State)
        × IsOn run.old.floor.limits late e ahead.old ahead.new (S.left source.old) (S.left source.new) (O.written
        sink.old) (O.written sink.new) (P.posted publisher.old) (P.posted publisher.new) now
        × (now.settled ≡ length now.fed) × (n ≡ now.settled) × RunsBy C.Crew e told answered run.new crew.new now
        × IsPlanned plan.now.turns run.old.floor.inboxes.width run.old.floor.limits.backlog now) }
    ensures halted { IfErr result (λ fault. (e : Setting) (told : Option CrewTold) (answered : Option (List Finding))
        (late : ℕ) → RunsBy C.Crew e told answered run.old crew.old start
        → IsGatheringAhead ahead.old run.old.floor.limits late [] → e.number ≡ day
        → e.history ≡ history_of (K.told keeper.old)
        → IsCutDayBy C.Crew fault e told run.old.floor.inboxes.width run.old.floor.limits late ahead.old (S.left
        source.old) (O.written sink.old) (O.written sink.new) (P.posted publisher.old) (P.posted publisher.new) run.new
        crew.new) }
    ensures read { (lines : ℕ) (bytes : List ℕ) → HasReadAhead ahead.old lines (S.left source.old) bytes
        → HasReadAhead ahead.new lines (S.left source.new) bytes }
    ensures source_same { S.name source.new ≡ S.name source.old }
    ensures publisher { P.which publisher.new ≡ P.which publisher.old }
    ensures same { K.told keeper.new ≡ K.told keeper.old }
    ensures source { IsCountedAhead ReadFault (S.faults source.old) (S.faults source.new)
        (NeverFails (S.plan source.old)) (NeverFails (S.plan source.new)) result }
    ensures sink { IsCounted WriteFault (O.faults sink.old) (O.faults sink.new) (O.room sink.old ≡ Endless)
        (O.room sink.new ≡ Endless) result }
    ensures keeper { IsCounted KeeperFault (K.faults keeper.old) (K.faults keeper.new) (NeverFails (K.plan keeper.old))
        (NeverFails (K.plan keeper.new)) result }
    ensures asked { AsksUntil (keeper_stopped result) (K.plan keeper.old) (K.plan keeper.new) }
{
    match plan.turns {
        None => run_rounds(
            rt, run, crew, plan.width, ahead, source, these, day, keeper, sink, publisher,
        ),
        Some(number) => {
            let mut rng = seed(number);
            run_turns(
                rt, plan, run, crew, ahead, source, these, &mut rng, day, keeper, sink, publisher,
            )
        }
    }
}
