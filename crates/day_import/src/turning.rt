// A turn: what a number draws of feeding, giving and finishing, and then all that is done is settled.
ghost use Rattle.std.specs.Prelude.{true, false, ◌≡◌, ◌++◌, ◌+◌, ◌≤◌, [], ℕ, List, Option, IfOk, IfErr, OnOk, OnErr};
ghost use Rattle.std.specs.Prelude.{length, ◌<◌};
ghost use Rattle.road_time.specs.declared.road.Tuple.{Tuple as RoadTuple};
ghost use Rattle.road_time.specs.Day.{sum_of};
ghost use Rattle.road_time.specs.Tolls.{StretchTold as RoadFinding};
ghost use Rattle.ways_expressway.specs.Results.{AreFirst};
ghost use Rattle.ways_expressway.specs.declared.finding.Finding.{Finding};
ghost use Rattle.ways_crews.specs.Told.{CrewTold};
ghost use Rattle.day_plan.specs.Draws.{after_draws, drawn};
ghost use Rattle.day_floor.specs.Answers.{history_of};
ghost use Rattle.day_floor.specs.SettlingBoards.{IsAbreast};
ghost use Rattle.day_floor.specs.Faults.{SinkFaults, KeeperFaults, keeper_failed};
ghost use Rattle.day_floor.specs.Shares.{State, mark};
ghost use Rattle.day_floor.specs.Written.{settled_charges};
ghost use Rattle.day_floor.specs.Floors.{Setting};
ghost use Rattle.day_import.specs.RoundRuns.{RunsBy, StoppedBy, CanFeedAll, after_feeds, after_backs, settled_all};
ghost use Rattle.day_import.specs.Turns.{IsMoved, IsTurned, IsGiven};
ghost use Rattle.day_import.specs.Drawn.{AreFinished, after_giving, given_drawn, given_where, given_least};
ghost use Rattle.day_import.specs.Drawn.{ComeAsDrawn};
ghost use Rattle.day_import.specs.Published.{published_of};
ghost use Rattle.day_import.specs.Fronts.{HasText, HasFront};
ghost use Rattle.day_import.specs.AskedRounds.{AsksUntil};
ghost use Rattle.day_import.specs.Tasks.{out_at};

use crate::begun::Import;
use crate::work::{feed_these, finish_one, give_one, settle_done};
use day_floor::{Publisher, SettleFault};
use day_plan::{draw, draw_place};
use keep_office::Keeper;
use rand_pcg::Lcg64Xsh32;
use road_io::Sink;
use road_time::{NoMemory, Tuple};
use std::thread::Threads;
use ways_crews::Crew;

/// Some tuples are fed, and some jobs are given and finished as they are drawn.
pub fn feed_turn<C: Crew>(
    run: &mut Import<C::Ticket>,
    crew: &mut C,
    width: u8,
    these: &[Tuple],
    rng: &mut Lcg64Xsh32,
) -> Result<(), NoMemory>
    requires width { width ≡ run.old.floor.inboxes.width }
    requires runs { (e : Setting) × (told : Option CrewTold) × (answered : Option (List Finding)) × (s : State)
        × RunsBy C.Crew e told answered run.old crew.old s × CanFeedAll run.old.floor.limits s these.now }
    ensures width { run.new.floor.inboxes.width ≡ run.old.floor.inboxes.width }
    ensures limits { run.new.floor.limits ≡ run.old.floor.limits }
    ensures which { C.which crew.new ≡ C.which crew.old }
    ensures worked { OnOk result ((e : Setting) (told : Option CrewTold) (answered : Option (List Finding)) (s : State)
        → RunsBy C.Crew e told answered run.old crew.old s → CanFeedAll run.old.floor.limits s these.now → (now : State)
        × (k : ℕ) × IsMoved run.old.floor.inboxes.width k (after_feeds run.old.floor.inboxes.width s these.now) now
        × RunsBy C.Crew e told answered run.new crew.new now × (k ≡ 0
        → mark run.old.floor.inboxes.width (after_feeds run.old.floor.inboxes.width s these.now) ≡ length (after_feeds
        run.old.floor.inboxes.width s these.now).fed) × ((backs : List (ℕ × List (ℕ × RoadFinding)))
        × (now ≡ after_backs (after_giving width rng.old (after_feeds run.old.floor.inboxes.width s these.now)) backs)
        × AreFinished (after_giving width rng.old (after_feeds run.old.floor.inboxes.width s these.now)) (after_draws
        width rng.old) rng.new backs)) }
    ensures stopped { OnErr result ((e : Setting) (told : Option CrewTold) (answered : Option (List Finding))
        (s : State) → RunsBy C.Crew e told answered run.old crew.old s → CanFeedAll run.old.floor.limits s these.now
        → (whole : List RoadTuple) → AreFirst (s.fed ++ these.now) whole
        → StoppedBy C.Crew told run.old.floor.inboxes.width run.old.floor.limits whole run.new crew.new) }
{
    feed_these(run, these)?;
    work_turn(run, crew, width, rng)
}

/// A turn over some tuples: they are fed, some jobs are given and finished as they are drawn, and what can be is
/// settled.
pub fn turn<C: Crew, K: Keeper, O: Sink, P: Publisher, R: Threads>(
    rt: &R,
    run: &mut Import<C::Ticket>,
    crew: &mut C,
    width: u8,
    these: &[Tuple],
    rng: &mut Lcg64Xsh32,
    day: u32,
    keeper: &mut K,
    sink: &mut O,
    publisher: &mut P,
) -> Result<u64, SettleFault>
    requires width { width ≡ run.old.floor.inboxes.width }
    requires runs { (e : Setting) × (told : Option CrewTold) × (answered : Option (List Finding)) × (s : State)
        × RunsBy C.Crew e told answered run.old crew.old s × CanFeedAll run.old.floor.limits s these.now
        × (e.number ≡ day) × (e.history ≡ history_of (K.told keeper.old))
        × IsAbreast (P.posted publisher.old) (sum_of (settled_charges s)) }
    ensures width { run.new.floor.inboxes.width ≡ run.old.floor.inboxes.width }
    ensures limits { run.new.floor.limits ≡ run.old.floor.limits }
    ensures crew { C.which crew.new ≡ C.which crew.old }
    ensures done { IfOk result (λ n. (e : Setting) (told : Option CrewTold) (answered : Option (List Finding))
        (s : State) → RunsBy C.Crew e told answered run.old crew.old s → CanFeedAll run.old.floor.limits s these.now
        → e.number ≡ day → e.history ≡ history_of (K.told keeper.old) → (now : State) × (k : ℕ)
        × IsTurned run.old.floor.inboxes.width run.old.floor.limits.backlog k e s these.now (O.written sink.old)
        (O.written sink.new) (P.posted publisher.old) (P.posted publisher.new) now × (n ≡ now.settled)
        × RunsBy C.Crew e told answered run.new crew.new now
        × IsAbreast (P.posted publisher.new) (sum_of (settled_charges now)) × ((backs : List (ℕ × List (ℕ
        × RoadFinding)))
        × (now ≡ settled_all run.old.floor.inboxes.width (after_backs (after_giving width rng.old (after_feeds
        run.old.floor.inboxes.width s these.now)) backs))
        × AreFinished (after_giving width rng.old (after_feeds run.old.floor.inboxes.width s these.now)) (after_draws
        width rng.old) rng.new backs)) }
    ensures stopped { OnErr result ((e : Setting) (told : Option CrewTold) (answered : Option (List Finding))
        (s : State) → RunsBy C.Crew e told answered run.old crew.old s → CanFeedAll run.old.floor.limits s these.now
        → (whole : List RoadTuple) → AreFirst (s.fed ++ these.now) whole
        → StoppedBy C.Crew told run.old.floor.inboxes.width run.old.floor.limits whole run.new crew.new) }
    ensures front { IfErr result (λ fault. (e : Setting) (told : Option CrewTold) (answered : Option (List Finding))
        (s : State) → RunsBy C.Crew e told answered run.old crew.old s → CanFeedAll run.old.floor.limits s these.now
        → e.number ≡ day → e.history ≡ history_of (K.told keeper.old) → C.exact ≡ true → (first : Option (List ℕ))
        → HasText e s first (O.written sink.old) → HasFront fault e (s.fed ++ these.now) first (O.written sink.new)) }
    ensures published { OnErr result (published_of (P.posted publisher.new) ≡ published_of (P.posted publisher.old)) }
    ensures publisher { P.which publisher.new ≡ P.which publisher.old }
    ensures same { K.told keeper.new ≡ K.told keeper.old }
    ensures sink { SinkFaults (O.faults sink.old) (O.faults sink.new) (O.room sink.old) (O.room sink.new) result }
    ensures keeper { KeeperFaults (K.faults keeper.old) (K.faults keeper.new) (K.plan keeper.old) (K.plan keeper.new)
        result }
    ensures asked { AsksUntil (keeper_failed result) (K.plan keeper.old) (K.plan keeper.new) }
{
    let Ok(()) = feed_turn(run, crew, width, these, rng) else {
        return Err(SettleFault::NoMemory);
    };
    settle_done(rt, &mut run.floor, day, keeper, sink, publisher)
}

/// A worker, as it is drawn.
fn pick(rng: &mut Lcg64Xsh32, width: u8) -> u8
    requires { 0 < width }
    ensures below { result < width }
    ensures drawn { (result ≡ (drawn width rng.old).0) × (rng.new ≡ (drawn width rng.old).1) }
{
    draw(rng, u32::from(width)) as u8
}

/// As many times as there are workers, one is drawn and given its next job, if there is one.
pub fn give_drawn<C: Crew>(
    run: &mut Import<C::Ticket>,
    crew: &mut C,
    width: u8,
    rng: &mut Lcg64Xsh32,
) -> Result<(), NoMemory>
    requires width { width ≡ run.old.floor.inboxes.width }
    requires runs { (e : Setting) × (told : Option CrewTold) × (answered : Option (List Finding)) × (s : State)
        × RunsBy C.Crew e told answered run.old crew.old s }
    ensures width { run.new.floor.inboxes.width ≡ run.old.floor.inboxes.width }
    ensures limits { run.new.floor.limits ≡ run.old.floor.limits }
    ensures which { C.which crew.new ≡ C.which crew.old }
    ensures given { (e : Setting) (told : Option CrewTold) (answered : Option (List Finding)) (s : State)
        → RunsBy C.Crew e told answered run.old crew.old s → (now : State) × (k : ℕ)
        × IsGiven run.old.floor.inboxes.width k s now × RunsBy C.Crew e told answered run.new crew.new now
        × OnOk result (now ≡ given_drawn width width rng.old s) }
    ensures drawn { OnOk result (rng.new ≡ after_draws width rng.old) }
{
    for _count in 0..width {
        let worker = pick(rng, width);
        give_one(run, crew, worker)?;
    }
    Ok(())
}

/// Where no ticket is held, a worker is given its next job, if there is one.
fn give_if_none<C: Crew>(
    run: &mut Import<C::Ticket>,
    crew: &mut C,
    worker: u8,
) -> Result<(), NoMemory>
    requires within { worker < run.old.floor.inboxes.width }
    requires runs { (e : Setting) × (told : Option CrewTold) × (answered : Option (List Finding)) × (s : State)
        × RunsBy C.Crew e told answered run.old crew.old s }
    ensures width { run.new.floor.inboxes.width ≡ run.old.floor.inboxes.width }
    ensures limits { run.new.floor.limits ≡ run.old.floor.limits }
    ensures which { C.which crew.new ≡ C.which crew.old }
    ensures given { OnOk result ((e : Setting) (told : Option CrewTold) (answered : Option (List Finding)) (s : State)
        → RunsBy C.Crew e told answered run.old crew.old s → (now : State) × (k : ℕ)
        × IsGiven run.old.floor.inboxes.width k s now × RunsBy C.Crew e told answered run.new crew.new now
        × (((run.old.tickets.items ≡ []) → (v : ℕ) → v < worker → (s.share v).waiting ≡ []) → run.new.tickets.items ≡ []
        → (v : ℕ) → v < worker + 1 → (now.share v).waiting ≡ [])
        × (now ≡ given_where (out_at s.share run.old.floor.inboxes.width) s worker)) }
    ensures refused { OnErr result ((e : Setting) (told : Option CrewTold) (answered : Option (List Finding))
        (s : State) → RunsBy C.Crew e told answered run.old crew.old s
        → RunsBy C.Crew e told answered run.new crew.new s) }
{
    if !run.tickets.is_empty() {
        return Ok(());
    }
    give_one(run, crew, worker)
}

/// Where no ticket is held, the least worker for which events wait is given its job.
pub fn give_least<C: Crew>(
    run: &mut Import<C::Ticket>,
    crew: &mut C,
    width: u8,
) -> Result<(), NoMemory>
    requires width { width ≡ run.old.floor.inboxes.width }
    requires runs { (e : Setting) × (told : Option CrewTold) × (answered : Option (List Finding)) × (s : State)
        × RunsBy C.Crew e told answered run.old crew.old s }
    ensures width { run.new.floor.inboxes.width ≡ run.old.floor.inboxes.width }
    ensures limits { run.new.floor.limits ≡ run.old.floor.limits }
    ensures which { C.which crew.new ≡ C.which crew.old }
    ensures given { OnOk result ((e : Setting) (told : Option CrewTold) (answered : Option (List Finding)) (s : State)
        → RunsBy C.Crew e told answered run.old crew.old s → (now : State) × (k : ℕ)
        × IsGiven run.old.floor.inboxes.width k s now × RunsBy C.Crew e told answered run.new crew.new now
        × (run.new.tickets.items ≡ [] → (worker : ℕ) → worker < width → (now.share worker).waiting ≡ [])
        × (now ≡ given_least run.old.floor.inboxes.width width s)) }
    ensures refused { OnErr result ((e : Setting) (told : Option CrewTold) (answered : Option (List Finding))
        (s : State) → RunsBy C.Crew e told answered run.old crew.old s → (now : State) × (k : ℕ)
        × IsGiven run.old.floor.inboxes.width k s now × RunsBy C.Crew e told answered run.new crew.new now) }
{
    for worker in 0..width {
        give_if_none(run, crew, worker)?;
    }
    Ok(())
}

/// Finishes some of the jobs that are out, each drawn. After a refusal the floor serves no more.
pub fn finish_drawn<C: Crew>(
    run: &mut Import<C::Ticket>,
    crew: &mut C,
    rng: &mut Lcg64Xsh32,
) -> Result<(), NoMemory>
    requires runs { (e : Setting) × (told : Option CrewTold) × (answered : Option (List Finding)) × (s : State)
        × RunsBy C.Crew e told answered run.old crew.old s }
    ensures width { run.new.floor.inboxes.width ≡ run.old.floor.inboxes.width }
    ensures limits { run.new.floor.limits ≡ run.old.floor.limits }
    ensures which { C.which crew.new ≡ C.which crew.old }
    ensures came { OnOk result ((e : Setting) (told : Option CrewTold) (answered : Option (List Finding)) (s : State)
        → RunsBy C.Crew e told answered run.old crew.old s → (now : State) × (k : ℕ)
        × IsMoved run.old.floor.inboxes.width k s now
        × (length run.new.tickets.items + k ≡ length run.old.tickets.items)
        × RunsBy C.Crew e told answered run.new crew.new now × ((backs : List (ℕ × List (ℕ × RoadFinding)))
        × (now ≡ after_backs s backs) × (length backs ≡ k) × ComeAsDrawn rng.old s backs)) }
    ensures some { OnOk result (1 ≤ length run.old.tickets.items
        → length run.new.tickets.items + 1 ≤ length run.old.tickets.items) }
    ensures stopped { OnErr result ((e : Setting) (told : Option CrewTold) (answered : Option (List Finding))
        (s : State) → RunsBy C.Crew e told answered run.old crew.old s → (day : List RoadTuple) → AreFirst s.fed day
        → StoppedBy C.Crew told run.old.floor.inboxes.width run.old.floor.limits day run.new crew.new) }
    ensures none { OnOk result (length run.old.tickets.items ≡ 0 → rng.new ≡ rng.old) }
    ensures drawn { OnOk result (1 ≤ length run.old.tickets.items
        → (length run.new.tickets.items + (1 + (drawn (length run.old.tickets.items) rng.old).0)
        ≡ length run.old.tickets.items)
        × (rng.new ≡ after_draws (2 + (drawn (length run.old.tickets.items) rng.old).0) rng.old)) }
{
    let held = run.tickets.len();
    if held == 0 {
        return Ok(());
    }
    let more = draw_place(rng, held);
    let left = held - 1 - more;
    while run.tickets.len() > left {
        let place = draw_place(rng, run.tickets.len());
        finish_one(run, crew, place)?;
    }
    Ok(())
}

/// Some workers are given their jobs, and some jobs that are out are finished, as they are drawn.
pub fn work_turn<C: Crew>(
    run: &mut Import<C::Ticket>,
    crew: &mut C,
    width: u8,
    rng: &mut Lcg64Xsh32,
) -> Result<(), NoMemory>
    requires width { width ≡ run.old.floor.inboxes.width }
    requires runs { (e : Setting) × (told : Option CrewTold) × (answered : Option (List Finding)) × (s : State)
        × RunsBy C.Crew e told answered run.old crew.old s }
    ensures width { run.new.floor.inboxes.width ≡ run.old.floor.inboxes.width }
    ensures limits { run.new.floor.limits ≡ run.old.floor.limits }
    ensures which { C.which crew.new ≡ C.which crew.old }
    ensures worked { OnOk result ((e : Setting) (told : Option CrewTold) (answered : Option (List Finding)) (s : State)
        → RunsBy C.Crew e told answered run.old crew.old s → (now : State) × (k : ℕ)
        × IsMoved run.old.floor.inboxes.width k s now × RunsBy C.Crew e told answered run.new crew.new now × (k ≡ 0
        → mark run.old.floor.inboxes.width s ≡ length s.fed) × ((backs : List (ℕ × List (ℕ × RoadFinding)))
        × (now ≡ after_backs (after_giving width rng.old s) backs)
        × AreFinished (after_giving width rng.old s) (after_draws width rng.old) rng.new backs)) }
    ensures stopped { OnErr result ((e : Setting) (told : Option CrewTold) (answered : Option (List Finding))
        (s : State) → RunsBy C.Crew e told answered run.old crew.old s → (day : List RoadTuple) → AreFirst s.fed day
        → StoppedBy C.Crew told run.old.floor.inboxes.width run.old.floor.limits day run.new crew.new) }
{
    give_drawn(run, crew, width, rng)?;
    give_least(run, crew, width)?;
    finish_drawn(run, crew, rng)
}
