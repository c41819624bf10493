// A day in turns that a number draws.
ghost use Rattle.std.specs.Prelude.{true, false, ◌≡◌, ◌≤◌, [], ℕ, List, Option, Some, IfOk, IfErr, OnOk, length, ◌+◌};
ghost use Rattle.road_io.specs.Plans.{NeverFails};
ghost use Rattle.road_io.specs.Rooms.{Endless};
ghost use Rattle.day_plan.specs.Draws.{seeded, drawn};
ghost use Rattle.day_reading.specs.Ahead.{has_more, IsGatheringAhead, HasReadAhead, HasFailedAhead};
ghost use Rattle.ways_expressway.specs.declared.finding.Finding.{Finding};
ghost use Rattle.ways_crews.specs.Told.{CrewTold};
ghost use Rattle.day_floor.specs.Answers.{history_of};
ghost use Rattle.day_floor.specs.SettlingBoards.{IsAbreast};
ghost use Rattle.day_floor.specs.Shares.{State, start};
ghost use Rattle.day_floor.specs.Floors.{Setting};
ghost use Rattle.day_import.specs.RoundRuns.{RunsBy};
ghost use Rattle.day_import.specs.Days.{IsOn};
ghost use Rattle.day_import.specs.Drawn.{TurnMade, AreTurns, DrawsTurn, HasMade};
ghost use Rattle.day_import.specs.Halts.{IsCutDayBy, IsHaltedBy};
ghost use Rattle.day_import.specs.DayFaults.{IsCounted};
ghost use Rattle.day_import.specs.AskedRounds.{AsksUntil, keeper_stopped};
ghost use Rattle.day_import.specs.declared.fault.DayFault.TheVariants.{ReadFault, WriteFault, KeeperFault};
ghost use Rattle.road_time.specs.declared.road.Tuple.{Tuple as RoadTuple};
ghost use Rattle.road_time.specs.Day.{sum_of};
ghost use Rattle.road_time.specs.Tolls.{StretchTold as RoadFinding};
ghost use Rattle.day_floor.specs.Written.{settled_charges};
ghost use Rattle.day_import.specs.Turns.{IsTurned};
ghost use Rattle.day_import.specs.Readers.{HasGiven};

use crate::begun::Import;
use crate::fault::{DayFault, reading_stopped, settling_stopped};
use crate::reading::gather;
use crate::turning::turn;
use day_floor::Publisher;
use day_plan::{Plan, draw};
use day_reading::DayAhead;
use keep_office::Keeper;
use rand_pcg::Lcg64Xsh32;
use road_io::{Sink, Source};
use road_time::Tuple;
use std::thread::Threads;
use ways_crews::Crew;

/// Whether a tuple is left or waits.
fn goes_on(more: bool, pending: u32) -> bool
    ensures some { result ≡ true → more ≡ false → 1 ≤ pending }
    ensures none { result ≡ false → (more ≡ false) × (pending ≡ 0) }
{
    more || pending > 0
}

/// Turns over a day, from the start, until no tuple is left and all are settled, as the generator of the plan's number
/// draws them. It answers how many are settled.
pub fn run_turns<C: Crew, S: Source, K: Keeper, O: Sink, P: Publisher, R: Threads>(
    rt: &R,
    plan: &Plan,
    run: &mut Import<C::Ticket>,
    crew: &mut C,
    ahead: &mut DayAhead,
    source: &mut S,
    these: &mut Vec<Tuple>,
    rng: &mut Lcg64Xsh32,
    day: u32,
    keeper: &mut K,
    sink: &mut O,
    publisher: &mut P,
) -> Result<u64, DayFault>
    requires width { plan.now.width ≡ run.old.floor.inboxes.width }
    requires seeded { (number : ℕ) → plan.now.turns ≡ Some number → rng.old ≡ seeded number }
    requires none { run.old.tickets.items ≡ [] }
    requires unfailed { HasFailedAhead ahead.old → ⊥ }
    requires runs { (e : Setting) × (told : Option CrewTold) × (answered : Option (List Finding)) × (late : ℕ)
        × RunsBy C.Crew e told answered run.old crew.old start × IsGatheringAhead ahead.old run.old.floor.limits late []
        × (e.number ≡ day) × (e.history ≡ history_of (K.told keeper.old)) × IsAbreast (P.posted publisher.old) 0 }
    ensures width { run.new.floor.inboxes.width ≡ run.old.floor.inboxes.width }
    ensures limits { run.new.floor.limits ≡ run.old.floor.limits }
    ensures crew { C.which crew.new ≡ C.which crew.old }
    ensures none { OnOk result (run.new.tickets.items ≡ []) }
    ensures ended { OnOk result (has_more ahead.new ≡ false) }
    ensures done { IfOk result (λ n. (e : Setting) (told : Option CrewTold) (answered : Option (List Finding))
        (late : ℕ) → RunsBy C.Crew e told answered run.old crew.old start
        → IsGatheringAhead ahead.old run.old.floor.limits late [] → e.number ≡ day
        → e.history ≡ history_of (K.told keeper.old) → (now : State)
        × IsOn run.old.floor.limits late e ahead.old ahead.new (S.left source.old) (S.left source.new) (O.written
        sink.old) (O.written sink.new) (P.posted publisher.old) (P.posted publisher.new) now
        × (now.settled ≡ length now.fed) × (n ≡ now.settled) × RunsBy C.Crew e told answered run.new crew.new now
        × ((turns : List TurnMade)
        × AreTurns plan.now.width run.old.floor.limits.backlog rng.old turns now rng.new false)) }
    ensures turned { OnOk result ((e : Setting) (told : Option CrewTold) (answered : Option (List Finding)) (late : ℕ)
        → RunsBy C.Crew e told answered run.old crew.old start → IsGatheringAhead ahead.old run.old.floor.limits late []
        → e.number ≡ day → e.history ≡ history_of (K.told keeper.old) → (now : State) × (turns : List TurnMade)
        × RunsBy C.Crew e told answered run.new crew.new now
        × AreTurns plan.now.width run.old.floor.limits.backlog rng.old turns now rng.new false) }
    ensures halted { IfErr result (λ fault. (e : Setting) (told : Option CrewTold) (answered : Option (List Finding))
        (late : ℕ) → RunsBy C.Crew e told answered run.old crew.old start
        → IsGatheringAhead ahead.old run.old.floor.limits late [] → e.number ≡ day
        → e.history ≡ history_of (K.told keeper.old)
        → IsCutDayBy C.Crew fault e told run.old.floor.inboxes.width run.old.floor.limits late ahead.old (S.left
        source.old) (O.written sink.old) (O.written sink.new) (P.posted publisher.old) (P.posted publisher.new) run.new
        crew.new) }
    ensures read { (lines : ℕ) (bytes : List ℕ) → HasReadAhead ahead.old lines (S.left source.old) bytes
        → HasReadAhead ahead.new lines (S.left source.new) bytes }
    ensures source_same { S.name source.new ≡ S.name source.old }
    ensures publisher { P.which publisher.new ≡ P.which publisher.old }
    ensures same { K.told keeper.new ≡ K.told keeper.old }
    ensures source { IsCounted ReadFault (S.faults source.old) (S.faults source.new)
        (NeverFails (S.plan source.old)) (NeverFails (S.plan source.new)) result }
    ensures sink { IsCounted WriteFault (O.faults sink.old) (O.faults sink.new) (O.room sink.old ≡ Endless)
        (O.room sink.new ≡ Endless) result }
    ensures keeper { IsCounted KeeperFault (K.faults keeper.old) (K.faults keeper.new) (NeverFails (K.plan keeper.old))
        (NeverFails (K.plan keeper.new)) result }
    ensures asked { AsksUntil (keeper_stopped result) (K.plan keeper.old) (K.plan keeper.new) }
{
    let mut settled = 0;
    let mut pending = 0;
    'day: while goes_on(ahead.more(), pending) {
        match next_turn(
            rt, run, crew, plan.width, ahead, source, these, rng, day, keeper, sink, publisher,
        ) {
            Ok(count) => settled = count,
            Err(fault) => return Err(fault),
        }
        pending = run.floor.pending();
    }
    Ok(settled)
}

/// How many tuples a turn feeds at most: from one to the room, as is drawn; none, and no draw, where there is no room
/// or no tuple is left.
fn some_of(room: u32, more: bool, rng: &mut Lcg64Xsh32) -> u32
    ensures few { result ≤ room }
    ensures some { 1 ≤ room → more ≡ true → 1 ≤ result }
    ensures drawn { 1 ≤ room → more ≡ true
        → (result ≡ 1 + (drawn room rng.old).0) × (rng.new ≡ (drawn room rng.old).1) }
    ensures no_room { room ≡ 0 → (result ≡ 0) × (rng.new ≡ rng.old) }
    ensures none_left { more ≡ false → (result ≡ 0) × (rng.new ≡ rng.old) }
{
    if room == 0 || !more {
        return 0;
    }
    1 + draw(rng, room)
}

/// A turn over the next tuples of a day, as many as are drawn. It answers how many are settled.
pub fn next_turn<C: Crew, S: Source, K: Keeper, O: Sink, P: Publisher, R: Threads>(
    rt: &R,
    run: &mut Import<C::Ticket>,
    crew: &mut C,
    width: u8,
    ahead: &mut DayAhead,
    source: &mut S,
    these: &mut Vec<Tuple>,
    rng: &mut Lcg64Xsh32,
    day: u32,
    keeper: &mut K,
    sink: &mut O,
    publisher: &mut P,
) -> Result<u64, DayFault>
    requires width { width ≡ run.old.floor.inboxes.width }
    requires unfailed { HasFailedAhead ahead.old → ⊥ }
    requires runs { (e : Setting) × (told : Option CrewTold) × (answered : Option (List Finding)) × (late : ℕ)
        × (s : State) × RunsBy C.Crew e told answered run.old crew.old s
        × IsGatheringAhead ahead.old run.old.floor.limits late s.fed × (e.number ≡ day)
        × (e.history ≡ history_of (K.told keeper.old))
        × IsAbreast (P.posted publisher.old) (sum_of (settled_charges s)) }
    ensures width { run.new.floor.inboxes.width ≡ run.old.floor.inboxes.width }
    ensures limits { run.new.floor.limits ≡ run.old.floor.limits }
    ensures crew { C.which crew.new ≡ C.which crew.old }
    ensures done { IfOk result (λ n.
        (e : Setting) (told : Option CrewTold) (answered : Option (List Finding)) (late : ℕ) (s : State)
        → RunsBy C.Crew e told answered run.old crew.old s
        → IsGatheringAhead ahead.old run.old.floor.limits late s.fed
        → e.number ≡ day → e.history ≡ history_of (K.told keeper.old)
        → (xs : List RoadTuple) × (now : State) × (k : ℕ)
        × HasGiven run.old.floor.limits late xs ahead.old ahead.new (S.left source.old) (S.left source.new)
        × IsTurned run.old.floor.inboxes.width run.old.floor.limits.backlog k e s xs (O.written sink.old)
        (O.written sink.new) (P.posted publisher.old) (P.posted publisher.new) now
        × (n ≡ now.settled) × RunsBy C.Crew e told answered run.new
        crew.new now
        × IsAbreast (P.posted publisher.new) (sum_of (settled_charges now))
        × (s.settled ≡ length s.fed → has_more ahead.old ≡ true → 1 ≤ length xs)
        × DrawsTurn run.old.floor.limits.backlog s rng.old xs (has_more ahead.old) (has_more ahead.new)
        × ((backs : List (ℕ × List (ℕ × RoadFinding))) × HasMade width run.old.floor.limits.backlog
        (record { before = s; generator = rng.old; more = has_more ahead.old; xs = xs; backs = backs }) now rng.new)) }
    ensures halted { IfErr result (λ fault. (e : Setting) (told : Option CrewTold) (answered : Option (List Finding))
        (late : ℕ) (s : State) → RunsBy C.Crew e told answered run.old crew.old s
        → IsGatheringAhead ahead.old run.old.floor.limits late s.fed → e.number ≡ day
        → e.history ≡ history_of (K.told keeper.old)
        → IsHaltedBy C.Crew fault e told run.old.floor.inboxes.width run.old.floor.limits late s s.fed ahead.old (S.left
        source.old) (O.written sink.old) (O.written sink.new) (P.posted publisher.old) (P.posted publisher.new) run.new
        crew.new) }
    ensures unfailed { OnOk result (HasFailedAhead ahead.new → ⊥) }
    ensures read { (lines : ℕ) (bytes : List ℕ) → HasReadAhead ahead.old lines (S.left source.old) bytes
        → HasReadAhead ahead.new lines (S.left source.new) bytes }
    ensures source_same { S.name source.new ≡ S.name source.old }
    ensures publisher { P.which publisher.new ≡ P.which publisher.old }
    ensures same { K.told keeper.new ≡ K.told keeper.old }
    ensures source { IsCounted ReadFault (S.faults source.old) (S.faults source.new)
        (NeverFails (S.plan source.old)) (NeverFails (S.plan source.new)) result }
    ensures sink { IsCounted WriteFault (O.faults sink.old) (O.faults sink.new) (O.room sink.old ≡ Endless)
        (O.room sink.new ≡ Endless) result }
    ensures keeper { IsCounted KeeperFault (K.faults keeper.old) (K.faults keeper.new) (NeverFails (K.plan keeper.old))
        (NeverFails (K.plan keeper.new)) result }
    ensures asked { AsksUntil (keeper_stopped result) (K.plan keeper.old) (K.plan keeper.new) }
{
    let room = run.floor.room();
    let count = some_of(room, ahead.more(), rng) as usize;
    match gather(rt, ahead, source, count, these) {
        Err(stop) => Err(reading_stopped(stop)),
        Ok(()) => match turn(
            rt,
            run,
            crew,
            width,
            these.as_slice(),
            rng,
            day,
            keeper,
            sink,
            publisher,
        ) {
            Ok(settled) => Ok(settled),
            Err(fault) => Err(settling_stopped(fault)),
        },
    }
}
