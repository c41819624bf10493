// A day in rounds: its tuples are fed, and worked on while the next ones are read, and all is settled.
ghost use Rattle.std.specs.Prelude.{true, false, ◌≡◌, [], ℕ, List, Option, IfOk, IfErr, OnOk, length, ◌≤◌, ◌<◌, ◌++◌};
ghost use Rattle.std.specs.Prelude.{◌≢◌, ◌+◌, Some, None, OnErr};
ghost use Rattle.road_io.specs.Plans.{NeverFails};
ghost use Rattle.road_io.specs.Rooms.{Endless};
ghost use Rattle.day_reading.specs.Ahead.{has_more, IsGatheringAhead, HasReadAhead, HasFailedAhead};
ghost use Rattle.ways_expressway.specs.declared.finding.Finding.{Finding};
ghost use Rattle.ways_crews.specs.Told.{CrewTold};
ghost use Rattle.day_floor.specs.Answers.{history_of};
ghost use Rattle.day_floor.specs.SettlingBoards.{IsAbreast};
ghost use Rattle.day_floor.specs.Shares.{State, start};
ghost use Rattle.day_floor.specs.Floors.{Setting};
ghost use Rattle.day_import.specs.RoundRuns.{RunsBy, CanFeedAll, StoppedBy};
ghost use Rattle.day_import.specs.Days.{IsOn};
ghost use Rattle.day_import.specs.PlannedRounds.{RoundMade, AreRounds};
ghost use Rattle.day_import.specs.Halts.{IsCutDayBy, IsHaltedBy};
ghost use Rattle.day_import.specs.DayFaults.{IsCounted, IsCountedAhead};
ghost use Rattle.day_import.specs.AskedRounds.{AsksUntil, keeper_stopped};
ghost use Rattle.day_import.specs.declared.fault.DayFault.TheVariants.{ReadFault, WriteFault, KeeperFault};
ghost use Rattle.road_time.specs.declared.day.Limits.{Limits as DayLimits};
ghost use Rattle.road_time.specs.Day.{sum_of};
ghost use Rattle.day_floor.specs.Written.{settled_charges};
ghost use Rattle.day_import.specs.Rounds.{IsSettled};
ghost use Rattle.day_import.specs.Readers.{HasGiven, HasReadOn};
ghost use Rattle.road_time.specs.declared.road.Tuple.{Tuple as RoadTuple};
ghost use Rattle.road_io.specs.Faults.{Rose};
ghost use Rattle.day_reading.specs.declared.whole_day.ReadStop.TheVariants.{ReadFault as ReadStopped};
ghost use Rattle.ways_expressway.specs.Results.{AreFirst};
ghost use Rattle.day_floor.specs.Faults.{SinkFaults, KeeperFaults, keeper_failed};
ghost use Rattle.day_import.specs.Published.{published_of};
ghost use Rattle.day_import.specs.Fronts.{HasText, HasFront};

use crate::begun::Import;
use crate::fault::{DayFault, reading_stopped, round_stopped};
use crate::reading::{read_on, read_rest};
use crate::work::{settle_done, work_round};
use day_floor::{Publisher, SettleFault};
use day_reading::{DayAhead, ReadStop};
use keep_office::Keeper;
use road_io::{Sink, Source};
use road_time::Tuple;
use std::thread::Threads;
use ways_crews::Crew;

/// Rounds over a day, from the start, until no tuple is left. The tuples of a round are read while the jobs of the one
/// before are out, until the source waits, as it may from the start; the others once that one is settled. It answers how
/// many are settled, which is all.
pub fn run_rounds<C: Crew, S: Source, K: Keeper, O: Sink, P: Publisher, R: Threads>(
    rt: &R,
    run: &mut Import<C::Ticket>,
    crew: &mut C,
    width: u8,
    ahead: &mut DayAhead,
    source: &mut S,
    these: &mut Vec<Tuple>,
    day: u32,
    keeper: &mut K,
    sink: &mut O,
    publisher: &mut P,
) -> Result<u64, DayFault>
    requires width { width ≡ run.old.floor.inboxes.width }
    requires none { run.old.tickets.items ≡ [] }
    requires unfailed { HasFailedAhead ahead.old → ⊥ }
    requires runs { (e : Setting) × (told : Option CrewTold) × (answered : Option (List Finding)) × (late : ℕ)
        × RunsBy C.Crew e told answered run.old crew.old start × IsGatheringAhead ahead.old run.old.floor.limits late []
        × (e.number ≡ day) × (e.history ≡ history_of (K.told keeper.old)) × IsAbreast (P.posted publisher.old) 0 }
    ensures width { run.new.floor.inboxes.width ≡ run.old.floor.inboxes.width }
    ensures limits { run.new.floor.limits ≡ run.old.floor.limits }
    ensures crew { C.which crew.new ≡ C.which crew.old }
    ensures none { OnOk result (run.new.tickets.items ≡ []) }
    ensures ended { OnOk result (has_more ahead.new ≡ false) }
    ensures done { IfOk result (λ n. (e : Setting) (told : Option CrewTold) (answered : Option (List Finding))
        (late : ℕ) → RunsBy C.Crew e told answered run.old crew.old start
        → IsGatheringAhead ahead.old run.old.floor.limits late [] → e.number ≡ day
        → e.history ≡ history_of (K.told keeper.old) → (now : State)
        × IsOn run.old.floor.limits late e ahead.old ahead.new (S.left source.old) (S.left source.new) (O.written
        sink.old) (O.written sink.new) (P.posted publisher.old) (P.posted publisher.new) now
        × (now.settled ≡ length now.fed) × (n ≡ now.settled) × RunsBy C.Crew e told answered run.new crew.new now
        × ((rounds : List RoundMade)
        × AreRounds run.old.floor.inboxes.width run.old.floor.limits.backlog rounds now false)) }
    ensures halted { IfErr result (λ fault. (e : Setting) (told : Option CrewTold) (answered : Option (List Finding))
        (late : ℕ) → RunsBy C.Crew e told answered run.old crew.old start
        → IsGatheringAhead ahead.old run.old.floor.limits late [] → e.number ≡ day
        → e.history ≡ history_of (K.told keeper.old)
        → IsCutDayBy C.Crew fault e told run.old.floor.inboxes.width run.old.floor.limits late ahead.old (S.left
        source.old) (O.written sink.old) (O.written sink.new) (P.posted publisher.old) (P.posted publisher.new) run.new
        crew.new) }
    ensures read { (lines : ℕ) (bytes : List ℕ) → HasReadAhead ahead.old lines (S.left source.old) bytes
        → HasReadAhead ahead.new lines (S.left source.new) bytes }
    ensures source_same { S.name source.new ≡ S.name source.old }
    ensures publisher { P.which publisher.new ≡ P.which publisher.old }
    ensures same { K.told keeper.new ≡ K.told keeper.old }
    ensures source { IsCountedAhead ReadFault (S.faults source.old) (S.faults source.new)
        (NeverFails (S.plan source.old)) (NeverFails (S.plan source.new)) result }
    ensures sink { IsCounted WriteFault (O.faults sink.old) (O.faults sink.new) (O.room sink.old ≡ Endless)
        (O.room sink.new ≡ Endless) result }
    ensures keeper { IsCounted KeeperFault (K.faults keeper.old) (K.faults keeper.new) (NeverFails (K.plan keeper.old))
        (NeverFails (K.plan keeper.new)) result }
    ensures asked { AsksUntil (keeper_stopped result) (K.plan keeper.old) (K.plan keeper.new) }
{
    let room = run.floor.room() as usize;
    let mut waits = true;
    if let Some(stop) = read_on(rt, ahead, source, &mut waits, room, these, true) {
        return Err(reading_stopped(stop));
    }
    let mut settled = 0;
    'day: while !these.is_empty() {
        match next_round(
            rt, run, crew, width, ahead, source, &mut waits, these, day, keeper, sink, publisher,
        ) {
            Ok(count) => settled = count,
            Err(fault) => return Err(fault),
        }
    }
    Ok(settled)
}

/// A round over the next tuples of a day, which were read: as many as there is room for, or all that were left. Those
/// after them are read too. It answers how many are settled. Where a read failed and memory ran out, the read is to
/// blame.
pub fn next_round<C: Crew, S: Source, K: Keeper, O: Sink, P: Publisher, R: Threads>(
    rt: &R,
    run: &mut Import<C::Ticket>,
    crew: &mut C,
    width: u8,
    ahead: &mut DayAhead,
    source: &mut S,
    waits: &mut bool,
    these: &mut Vec<Tuple>,
    day: u32,
    keeper: &mut K,
    sink: &mut O,
    publisher: &mut P,
) -> Result<u64, DayFault>
    requires width { width ≡ run.old.floor.inboxes.width }
    requires none { run.old.tickets.items ≡ [] }
    requires unfailed { HasFailedAhead ahead.old → ⊥ }
    requires full { length these.old.items < run.old.floor.limits.backlog → has_more ahead.old ≡ false }
    requires runs { (e : Setting) × (told : Option CrewTold) × (answered : Option (List Finding)) × (s : State)
        × RunsBy C.Crew e told answered run.old crew.old s × CanFeedAll run.old.floor.limits s these.old.items
        × (e.number ≡ day) × (e.history ≡ history_of (K.told keeper.old))
        × IsAbreast (P.posted publisher.old) (sum_of (settled_charges s)) × (s.settled ≡ length s.fed) }
    ensures width { run.new.floor.inboxes.width ≡ run.old.floor.inboxes.width }
    ensures limits { run.new.floor.limits ≡ run.old.floor.limits }
    ensures crew { C.which crew.new ≡ C.which crew.old }
    ensures none { OnOk result (run.new.tickets.items ≡ []) }
    ensures done { IfOk result (λ n. (e : Setting) (told : Option CrewTold) (answered : Option (List Finding))
        (s : State) → RunsBy C.Crew e told answered run.old crew.old s
        → CanFeedAll run.old.floor.limits s these.old.items → e.number ≡ day
        → e.history ≡ history_of (K.told keeper.old) → (now : State)
        × IsSettled run.old.floor.inboxes.width run.old.floor.limits.backlog e s these.old.items (O.written sink.old)
        (O.written sink.new) (P.posted publisher.old) (P.posted publisher.new) now × (n ≡ now.settled)
        × RunsBy C.Crew e told answered run.new crew.new now
        × IsAbreast (P.posted publisher.new) (sum_of (settled_charges now))) }
    ensures given { OnOk result ((limits : DayLimits) (late : ℕ)
        → HasGiven limits late these.new.items ahead.old ahead.new (S.left source.old) (S.left source.new)) }
    ensures few { OnOk result (length these.new.items ≤ run.old.floor.limits.backlog) }
    ensures ended { OnOk result (has_more ahead.old ≡ false → these.new.items ≡ []) }
    ensures full { OnOk result (length these.new.items < run.old.floor.limits.backlog → has_more ahead.new ≡ false) }
    ensures halted { IfErr result (λ fault. (e : Setting) (told : Option CrewTold) (answered : Option (List Finding))
        (late : ℕ) (s : State) → RunsBy C.Crew e told answered run.old crew.old s
        → CanFeedAll run.old.floor.limits s these.old.items → e.number ≡ day
        → e.history ≡ history_of (K.told keeper.old)
        → IsHaltedBy C.Crew fault e told run.old.floor.inboxes.width run.old.floor.limits late s (s.fed ++
        these.old.items) ahead.old (S.left source.old) (O.written sink.old) (O.written sink.new) (P.posted
        publisher.old) (P.posted publisher.new) run.new crew.new) }
    ensures unfailed { OnOk result (HasFailedAhead ahead.new → ⊥) }
    ensures read { (lines : ℕ) (bytes : List ℕ) → HasReadAhead ahead.old lines (S.left source.old) bytes
        → HasReadAhead ahead.new lines (S.left source.new) bytes }
    ensures source_same { S.name source.new ≡ S.name source.old }
    ensures publisher { P.which publisher.new ≡ P.which publisher.old }
    ensures same { K.told keeper.new ≡ K.told keeper.old }
    ensures source { IsCountedAhead ReadFault (S.faults source.old) (S.faults source.new)
        (NeverFails (S.plan source.old)) (NeverFails (S.plan source.new)) result }
    ensures sink { IsCounted WriteFault (O.faults sink.old) (O.faults sink.new) (O.room sink.old ≡ Endless)
        (O.room sink.new ≡ Endless) result }
    ensures keeper { IsCounted KeeperFault (K.faults keeper.old) (K.faults keeper.new) (NeverFails (K.plan keeper.old))
        (NeverFails (K.plan keeper.new)) result }
    ensures asked { AsksUntil (keeper_stopped result) (K.plan keeper.old) (K.plan keeper.new) }
{
    let room = run.floor.room() as usize;
    let mut stop = None;
    match round(
        rt, run, crew, width, ahead, source, waits, room, these, &mut stop, day, keeper, sink,
        publisher,
    ) {
        Err(fault) => Err(round_stopped(fault, stop)),
        Ok(settled) => match stop {
            None => Ok(settled),
            Some(stop) => Err(reading_stopped(stop)),
        },
    }
}

/// A round over some tuples: they are fed, each worker's job is done while the next ones are read in their place, until
/// the source waits, all is settled, and then the rest of the next ones is read. It answers how many are
/// settled, and says why reading stopped, if it did, also where the round is stopped after that.
pub fn round<C: Crew, S: Source, K: Keeper, O: Sink, P: Publisher, R: Threads>(
    rt: &R,
    run: &mut Import<C::Ticket>,
    crew: &mut C,
    width: u8,
    ahead: &mut DayAhead,
    source: &mut S,
    waits: &mut bool,
    count: usize,
    these: &mut Vec<Tuple>,
    stop: &mut Option<ReadStop>,
    day: u32,
    keeper: &mut K,
    sink: &mut O,
    publisher: &mut P,
) -> Result<u64, SettleFault>
    requires width { width ≡ run.old.floor.inboxes.width }
    requires none { run.old.tickets.items ≡ [] }
    requires unfailed { HasFailedAhead ahead.old → ⊥ }
    requires unstopped { stop.old ≡ None }
    requires runs { (e : Setting) × (told : Option CrewTold) × (answered : Option (List Finding)) × (s : State)
        × RunsBy C.Crew e told answered run.old crew.old s × CanFeedAll run.old.floor.limits s these.old.items
        × (e.number ≡ day) × (e.history ≡ history_of (K.told keeper.old))
        × IsAbreast (P.posted publisher.old) (sum_of (settled_charges s)) }
    ensures width { run.new.floor.inboxes.width ≡ run.old.floor.inboxes.width }
    ensures limits { run.new.floor.limits ≡ run.old.floor.limits }
    ensures crew { C.which crew.new ≡ C.which crew.old }
    ensures none { OnOk result (run.new.tickets.items ≡ []) }
    ensures done { IfOk result (λ n. (e : Setting) (told : Option CrewTold) (answered : Option (List Finding))
        (s : State) → RunsBy C.Crew e told answered run.old crew.old s
        → CanFeedAll run.old.floor.limits s these.old.items → e.number ≡ day
        → e.history ≡ history_of (K.told keeper.old) → (now : State)
        × IsSettled run.old.floor.inboxes.width run.old.floor.limits.backlog e s these.old.items (O.written sink.old)
        (O.written sink.new) (P.posted publisher.old) (P.posted publisher.new) now × (n ≡ now.settled)
        × RunsBy C.Crew e told answered run.new crew.new now
        × IsAbreast (P.posted publisher.new) (sum_of (settled_charges now))) }
    ensures stopped { OnErr result ((e : Setting) (told : Option CrewTold) (answered : Option (List Finding))
        (s : State) → RunsBy C.Crew e told answered run.old crew.old s
        → CanFeedAll run.old.floor.limits s these.old.items → (whole : List RoadTuple)
        → AreFirst (s.fed ++ these.old.items) whole
        → StoppedBy C.Crew told run.old.floor.inboxes.width run.old.floor.limits whole run.new crew.new) }
    ensures front { IfErr result (λ fault. (e : Setting) (told : Option CrewTold) (answered : Option (List Finding))
        (s : State) → RunsBy C.Crew e told answered run.old crew.old s
        → CanFeedAll run.old.floor.limits s these.old.items → e.number ≡ day
        → e.history ≡ history_of (K.told keeper.old) → C.exact ≡ true → (first : Option (List ℕ))
        → HasText e s first (O.written sink.old)
        → HasFront fault e (s.fed ++ these.old.items) first (O.written sink.new)) }
    ensures published { OnErr result (published_of (P.posted publisher.new) ≡ published_of (P.posted publisher.old)) }
    ensures read_on { OnOk result (HasReadOn true stop.new count these.new.items ahead.old ahead.new
        (S.left source.old) (S.left source.new)) }
    ensures read { (lines : ℕ) (bytes : List ℕ) → HasReadAhead ahead.old lines (S.left source.old) bytes
        → HasReadAhead ahead.new lines (S.left source.new) bytes }
    ensures source_same { S.name source.new ≡ S.name source.old }
    ensures later { S.faults source.old ≤ S.faults source.new }
    ensures cause { stop.new ≡ Some ReadStopped → Rose (S.faults source.old) (S.faults source.new) }
    ensures stands { stop.new ≢ Some ReadStopped → S.faults source.new ≡ S.faults source.old }
    ensures sure { NeverFails (S.plan source.old) → (stop.new ≢ Some ReadStopped) × NeverFails (S.plan source.new) }
    ensures publisher { P.which publisher.new ≡ P.which publisher.old }
    ensures same { K.told keeper.new ≡ K.told keeper.old }
    ensures sink { SinkFaults (O.faults sink.old) (O.faults sink.new) (O.room sink.old) (O.room sink.new) result }
    ensures keeper { KeeperFaults (K.faults keeper.old) (K.faults keeper.new) (K.plan keeper.old) (K.plan keeper.new)
        result }
    ensures asked { AsksUntil (keeper_failed result) (K.plan keeper.old) (K.plan keeper.new) }
{
    let Ok(()) = work_round(
        rt, run, crew, width, ahead, source, waits, count, these, stop,
    ) else {
        return Err(SettleFault::NoMemory);
    };
    match settle_done(rt, &mut run.floor, day, keeper, sink, publisher) {
        Ok(settled) => {
            *stop = read_rest(rt, ahead, source, waits, count, these, *stop);
            Ok(settled)
        }
        Err(fault) => Err(fault),
    }
}
