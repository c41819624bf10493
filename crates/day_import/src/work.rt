// The work of a round or a turn: tuples come in, jobs go out and come back, and what is done is settled.
ghost use Rattle.std.specs.Prelude.{◌≡◌, ◌≢◌, ◌≤◌, ◌<◌, ◌++◌, [], ℕ, List, Option, Some, None, OnOk, OnErr, length};
ghost use Rattle.std.specs.Prelude.{◌+◌, true, false, Err, IfOk, IfErr};
ghost use Rattle.road_time.specs.declared.road.Tuple.{Tuple as RoadTuple, Tuple};
ghost use Rattle.road_io.specs.Faults.{Rose};
ghost use Rattle.road_io.specs.Plans.{NeverFails};
ghost use Rattle.day_reading.specs.Ahead.{HasReadAhead, HasFailedAhead};
ghost use Rattle.day_reading.specs.declared.whole_day.ReadStop.TheVariants.{ReadFault};
ghost use Rattle.ways_expressway.specs.Results.{AreFirst};
ghost use Rattle.ways_expressway.specs.declared.finding.Finding.{Finding};
ghost use Rattle.ways_crews.specs.Told.{CrewTold};
ghost use Rattle.day_floor.specs.Shares.{State, mark};
ghost use Rattle.day_floor.specs.Floors.{Setting, StandsFor};
ghost use Rattle.day_import.specs.Readers.{HasReadOn};
ghost use Rattle.day_import.specs.RoundRuns.{RunsBy, StoppedBy, CanFeedAll, OnlyTakesBack, HaveComeInOrder, IsDone};
ghost use Rattle.day_import.specs.RoundRuns.{after_feeds, given_all, given_if, CameBack};
ghost use Rattle.road_time.specs.declared.day.Limits.{Limits as DayLimits};
ghost use Rattle.road_time.specs.Fits.{Fit};
ghost use Rattle.road_time.specs.Day.{sum_of};
ghost use Rattle.day_floor.specs.Operations.{Posted};
ghost use Rattle.day_floor.specs.Answers.{history_of};
ghost use Rattle.day_floor.specs.SettlingBoards.{IsAbreast};
ghost use Rattle.day_floor.specs.Faults.{SinkFaults, KeeperFaults, keeper_failed};
ghost use Rattle.day_floor.specs.Steps.{after_settle};
ghost use Rattle.day_floor.specs.Sound.{IsTrue};
ghost use Rattle.day_floor.specs.Written.{settled_charges};
ghost use Rattle.day_import.specs.Published.{HasStepped, published_of};
ghost use Rattle.day_import.specs.Fronts.{HasText, HasFront};
ghost use Rattle.day_import.specs.AskedRounds.{AsksUntil};

use crate::begun::Import;
use crate::reading::read_on;
use day_floor::{Floor, Publisher, SettleFault};
use day_reading::{DayAhead, ReadStop};
use keep_office::Keeper;
use road_io::{Sink, Source};
use road_time::{NoMemory, Tuple};
use std::thread::Threads;
use ways_crews::{Crew, finish_among, start_beside};

/// Feeds some tuples. After a refusal some of them were fed.
pub fn feed_these<T: Drop>(run: &mut Import<T>, these: &[Tuple]) -> Result<(), NoMemory>
    requires { (e : Setting) × (s : State) × StandsFor e run.old.floor s × CanFeedAll run.old.floor.limits s these.now }
    ensures width { run.new.floor.inboxes.width ≡ run.old.floor.inboxes.width }
    ensures limits { run.new.floor.limits ≡ run.old.floor.limits }
    ensures tickets { run.new.tickets.items ≡ run.old.tickets.items }
    ensures fed { OnOk result ((e : Setting) (s : State) → StandsFor e run.old.floor s
        → CanFeedAll run.old.floor.limits s these.now
        → StandsFor e run.new.floor (after_feeds run.old.floor.inboxes.width s these.now)) }
{
    for tuple in these {
        run.floor.feed(*tuple)?;
    }
    Ok(())
}

/// Gives each worker, in order, its next job. After a refusal the first of them were given theirs.
pub fn give_all<C: Crew>(
    run: &mut Import<C::Ticket>,
    crew: &mut C,
    width: u8,
) -> Result<(), NoMemory>
    requires width { width ≡ run.old.floor.inboxes.width }
    requires runs { (e : Setting) × (told : Option CrewTold) × (answered : Option (List Finding)) × (s : State)
        × RunsBy C.Crew e told answered run.old crew.old s }
    ensures width { run.new.floor.inboxes.width ≡ run.old.floor.inboxes.width }
    ensures limits { run.new.floor.limits ≡ run.old.floor.limits }
    ensures which { C.which crew.new ≡ C.which crew.old }
    ensures given { OnOk result ((e : Setting) (told : Option CrewTold) (answered : Option (List Finding)) (s : State)
        → RunsBy C.Crew e told answered run.old crew.old s
        → RunsBy C.Crew e told answered run.new crew.new (given_all s width)) }
    ensures refused { OnErr result ((e : Setting) (told : Option CrewTold) (answered : Option (List Finding))
        (s : State) → RunsBy C.Crew e told answered run.old crew.old s → (n : ℕ)
        × RunsBy C.Crew e told answered run.new crew.new (given_all s n)) }
{
    for worker in 0..width {
        give_one(run, crew, worker)?;
    }
    Ok(())
}

/// Finishes all jobs that are out, in the order of their starts. After a refusal the floor serves no more.
pub fn finish_firsts<C: Crew>(run: &mut Import<C::Ticket>, crew: &mut C) -> Result<(), NoMemory>
    requires runs { (e : Setting) × (told : Option CrewTold) × (answered : Option (List Finding)) × (s : State)
        × RunsBy C.Crew e told answered run.old crew.old s }
    ensures width { run.new.floor.inboxes.width ≡ run.old.floor.inboxes.width }
    ensures limits { run.new.floor.limits ≡ run.old.floor.limits }
    ensures which { C.which crew.new ≡ C.which crew.old }
    ensures none { OnOk result (run.new.tickets.items ≡ []) }
    ensures came { OnOk result ((e : Setting) (told : Option CrewTold) (answered : Option (List Finding)) (s : State)
        → RunsBy C.Crew e told answered run.old crew.old s → (now : State) × OnlyTakesBack s now × HaveComeInOrder s now
        × RunsBy C.Crew e told answered run.new crew.new now) }
    ensures stopped { OnErr result ((e : Setting) (told : Option CrewTold) (answered : Option (List Finding))
        (s : State) → RunsBy C.Crew e told answered run.old crew.old s → (day : List RoadTuple) → AreFirst s.fed day
        → StoppedBy C.Crew told run.old.floor.inboxes.width run.old.floor.limits day run.new crew.new) }
{
    while !run.tickets.is_empty() {
        finish_one(run, crew, 0)?;
    }
    Ok(())
}

/// Feeds some tuples, gives each worker its job, reads the next tuples in their place while the jobs are out, until the
/// source waits, and finishes all in the order of their starts: nothing is out or waits then, where nothing was out
/// before. It says why reading stopped, if it did, also where memory ran out after that.
pub fn work_round<C: Crew, S: Source, R: Threads>(
    rt: &R,
    run: &mut Import<C::Ticket>,
    crew: &mut C,
    width: u8,
    ahead: &mut DayAhead,
    source: &mut S,
    waits: &mut bool,
    count: usize,
    these: &mut Vec<Tuple>,
    stop: &mut Option<ReadStop>,
) -> Result<(), NoMemory>
    requires width { width ≡ run.old.floor.inboxes.width }
    requires runs { (e : Setting) × (told : Option CrewTold) × (answered : Option (List Finding)) × (s : State)
        × RunsBy C.Crew e told answered run.old crew.old s × CanFeedAll run.old.floor.limits s these.old.items }
    requires none { run.old.tickets.items ≡ [] }
    requires unfailed { HasFailedAhead ahead.old → ⊥ }
    requires unstopped { stop.old ≡ None }
    ensures width { run.new.floor.inboxes.width ≡ run.old.floor.inboxes.width }
    ensures limits { run.new.floor.limits ≡ run.old.floor.limits }
    ensures which { C.which crew.new ≡ C.which crew.old }
    ensures none { OnOk result (run.new.tickets.items ≡ []) }
    ensures done { OnOk result ((e : Setting) (told : Option CrewTold) (answered : Option (List Finding)) (s : State)
        → RunsBy C.Crew e told answered run.old crew.old s → CanFeedAll run.old.floor.limits s these.old.items
        → (now : State) × IsDone run.old.floor.inboxes.width s these.old.items now
        × RunsBy C.Crew e told answered run.new crew.new now) }
    ensures stopped { OnErr result ((e : Setting) (told : Option CrewTold) (answered : Option (List Finding))
        (s : State) → RunsBy C.Crew e told answered run.old crew.old s
        → CanFeedAll run.old.floor.limits s these.old.items → (day : List RoadTuple)
        → AreFirst (s.fed ++ these.old.items) day
        → StoppedBy C.Crew told run.old.floor.inboxes.width run.old.floor.limits day run.new crew.new) }
    ensures read_on { OnOk result (HasReadOn false stop.new count these.new.items ahead.old ahead.new
        (S.left source.old) (S.left source.new)) }
    ensures read { (lines : ℕ) (bytes : List ℕ) → HasReadAhead ahead.old lines (S.left source.old) bytes
        → HasReadAhead ahead.new lines (S.left source.new) bytes }
    ensures source_same { S.name source.new ≡ S.name source.old }
    ensures later { S.faults source.old ≤ S.faults source.new }
    ensures cause { stop.new ≡ Some ReadFault → Rose (S.faults source.old) (S.faults source.new) }
    ensures stands { stop.new ≢ Some ReadFault → S.faults source.new ≡ S.faults source.old }
    ensures sure { NeverFails (S.plan source.old) → (stop.new ≢ Some ReadFault) × NeverFails (S.plan source.new) }
{
    feed_these(run, these.as_slice())?;
    give_all(run, crew, width)?;
    *stop = read_on(rt, ahead, source, waits, count, these, false);
    finish_firsts(run, crew)?;
    Ok(())
}

/// Gives a worker its next job, if there is one, and starts it. The one error is want of memory, and then nothing has
/// changed.
pub fn give_one<C: Crew>(
    run: &mut Import<C::Ticket>,
    crew: &mut C,
    worker: u8,
) -> Result<(), NoMemory>
    requires within { worker < run.old.floor.inboxes.width }
    requires runs { (e : Setting) × (told : Option CrewTold) × (answered : Option (List Finding)) × (s : State)
        × RunsBy C.Crew e told answered run.old crew.old s }
    ensures width { run.new.floor.inboxes.width ≡ run.old.floor.inboxes.width }
    ensures limits { run.new.floor.limits ≡ run.old.floor.limits }
    ensures which { C.which crew.new ≡ C.which crew.old }
    ensures given { OnOk result ((e : Setting) (told : Option CrewTold) (answered : Option (List Finding)) (s : State)
        → RunsBy C.Crew e told answered run.old crew.old s
        → RunsBy C.Crew e told answered run.new crew.new (given_if s worker)) }
    ensures refused { OnErr result ((e : Setting) (told : Option CrewTold) (answered : Option (List Finding))
        (s : State) → RunsBy C.Crew e told answered run.old crew.old s
        → RunsBy C.Crew e told answered run.new crew.new s) }
{
    run.tickets.reserve(1)?;
    let Some(job) = run.floor.give(worker) else {
        return Ok(());
    };
    let ticket = start_beside(crew, job);
    if run.tickets.push_back(ticket).is_err() {}
    Ok(())
}

/// Finishes one of the jobs that are out, by its place among them, and takes back what was done. After a refusal the
/// floor serves no more.
pub fn finish_one<C: Crew>(
    run: &mut Import<C::Ticket>,
    crew: &mut C,
    place: usize,
) -> Result<(), NoMemory>
    requires within { place < length run.old.tickets.items }
    requires runs { (e : Setting) × (told : Option CrewTold) × (answered : Option (List Finding)) × (s : State)
        × RunsBy C.Crew e told answered run.old crew.old s }
    ensures width { run.new.floor.inboxes.width ≡ run.old.floor.inboxes.width }
    ensures limits { run.new.floor.limits ≡ run.old.floor.limits }
    ensures which { C.which crew.new ≡ C.which crew.old }
    ensures fewer { length run.new.tickets.items + 1 ≡ length run.old.tickets.items }
    ensures came { OnOk result ((e : Setting) (told : Option CrewTold) (answered : Option (List Finding)) (s : State)
        → RunsBy C.Crew e told answered run.old crew.old s → (now : State)
        × CameBack run.old.floor.inboxes.width place s now × RunsBy C.Crew e told answered run.new crew.new now) }
    ensures stopped { OnErr result ((e : Setting) (told : Option CrewTold) (answered : Option (List Finding))
        (s : State) → RunsBy C.Crew e told answered run.old crew.old s → (day : List Tuple) → AreFirst s.fed day
        → StoppedBy C.Crew told run.old.floor.inboxes.width run.old.floor.limits day run.new crew.new) }
{
    let Some(ticket) = run.tickets.remove(place) else {
        unreachable!();
    };
    let done = finish_among(crew, ticket);
    if done.result.is_err() {
        return Err(NoMemory);
    }
    run.floor.back(done)
}

/// Settles every position below the mark. The text and the steps go on from what was written and published; after a
/// refusal some first bytes of the output of any day that goes on from the tuples fed were written, where the findings
/// are true, and no step was published.
pub fn settle_done<K: Keeper, O: Sink, P: Publisher, R: Threads>(
    rt: &R,
    floor: &mut Floor,
    day: u32,
    keeper: &mut K,
    sink: &mut O,
    publisher: &mut P,
) -> Result<u64, SettleFault>
    requires { (e : Setting) × (s : State) × StandsFor e floor.old s × (e.number ≡ day)
        × (e.history ≡ history_of (K.told keeper.old))
        × IsAbreast (P.posted publisher.old) (sum_of (settled_charges s)) }
    ensures width { floor.new.inboxes.width ≡ floor.old.inboxes.width }
    ensures limits { floor.new.limits ≡ floor.old.limits }
    ensures settled { IfOk result (λ n. (e : Setting) (s : State) → StandsFor e floor.old s → e.number ≡ day
        → e.history ≡ history_of (K.told keeper.old)
        → (n ≡ mark floor.old.inboxes.width s) × StandsFor e floor.new (after_settle s n)
        × ((first : Option (List ℕ)) → HasText e s first (O.written sink.old)
        → HasText e (after_settle s n) first (O.written sink.new))
        × ((before : Option Posted) → HasStepped floor.old.limits.backlog s before (P.posted publisher.old)
        → HasStepped floor.old.limits.backlog (after_settle s n) before (P.posted publisher.new))
        × IsAbreast (P.posted publisher.new) (sum_of (settled_charges (after_settle s n)))) }
    ensures stopped { IfErr result (λ fault. (e : Setting) (s : State) → StandsFor e floor.old s → e.number ≡ day
        → e.history ≡ history_of (K.told keeper.old)
        → IsTrue e.tariffs floor.old.inboxes.width s → (later : List RoadTuple) → AreFirst s.fed later
        → Fit later floor.old.limits
        → (first : Option (List ℕ)) → HasText e s first (O.written sink.old)
        → HasFront fault e later first (O.written sink.new)) }
    ensures published { OnErr result (published_of (P.posted publisher.new) ≡ published_of (P.posted publisher.old)) }
    ensures which { P.which publisher.new ≡ P.which publisher.old }
    ensures same { K.told keeper.new ≡ K.told keeper.old }
    ensures sink { SinkFaults (O.faults sink.old) (O.faults sink.new) (O.room sink.old) (O.room sink.new) result }
    ensures keeper { KeeperFaults (K.faults keeper.old) (K.faults keeper.new) (K.plan keeper.old) (K.plan keeper.new)
        result }
    ensures asked { AsksUntil (keeper_failed result) (K.plan keeper.old) (K.plan keeper.new) }
{
    floor.settle(rt, day, keeper, sink, publisher)
}
