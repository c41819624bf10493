// A worker's job is given, run and taken back.
ghost use Rattle.std.specs.Prelude.{◌≡◌, ◌<◌, ℕ, Some, length, OnOk, IfOk, IfErr};
ghost use Rattle.std.specs.Io.KnownBytes.{Appends};
ghost use Rattle.road_time.specs.Day.{notices, sum_of};
ghost use Rattle.road_time.specs.Text.{out};
ghost use Rattle.day_floor.specs.Answers.{history_of};
ghost use Rattle.day_floor.specs.SettlingBoards.{IsAbreast};
ghost use Rattle.day_floor.specs.Written.{settled_charges};
ghost use Rattle.day_floor.specs.Shares.{State};
ghost use Rattle.day_floor.specs.Steps.{after_settle};
ghost use Rattle.day_floor.specs.Floors.{Setting, width_of, limits_of, StandsFor, StandsForSome};
ghost use Rattle.example_day.specs.Turns.{after_run, after_runs, AllHome, AreAnswered};
ghost use Rattle.example_day.specs.Stops.{TakesDay, StopsDay};
ghost use Rattle.day_floor.specs.Sound.{IsTrue};

use crate::showing::{show_job, show_none};
use day_floor::{Floor, Publisher, SettleFault};
use keep_office::Keeper;
use road_io::Sink;
use road_time::NoMemory;
use std::rt::HostRuntime;
use std::thread::Threads;
use ways_expressway::run;

/// Gives a worker its next job, if there is one, and no other as long as it is out, runs it, and takes it back.
/// After a refusal the floor serves no more.
pub fn run_next(rt: HostRuntime, floor: &mut Floor, worker: u8) -> Result<(), NoMemory>
    requires within { worker < width_of floor.old }
    requires serves { StandsForSome floor.old }
    ensures width { width_of floor.new ≡ width_of floor.old }
    ensures limits { limits_of floor.new ≡ limits_of floor.old }
    ensures ran { OnOk result ((g : Setting) (s : State) → StandsFor g floor.old s
        → StandsFor g floor.new (after_run g.tariffs s worker)) }
    ensures charged { OnOk result ((g : Setting) (s : State) → StandsFor g floor.old s
        → settled_charges (after_run g.tariffs s worker) ≡ settled_charges s) }
    ensures right { OnOk result ((g : Setting) (s : State) → StandsFor g floor.old s
        → IsTrue g.tariffs (width_of floor.old) s
        → IsTrue g.tariffs (width_of floor.old) (after_run g.tariffs s worker)) }
{
    let Some(job) = floor.give(worker) else {
        let _shown = show_none(rt, worker).is_ok();
        return Ok(());
    };
    let None = floor.give(worker) else {
        return Err(NoMemory);
    };
    let _shown = show_job(rt, &job).is_ok();
    let done = run(rt.alloc(), job);
    if done.result.is_err() {
        return Err(NoMemory);
    }
    floor.back(done)
}

/// Runs the next job of each worker. Where no job was out and the findings were true, all tuples are done, and their
/// findings make the notices of the rules. After a refusal the floor serves no more.
pub fn run_all(rt: HostRuntime, floor: &mut Floor, width: u8) -> Result<(), NoMemory>
    requires width { width ≡ width_of floor.old }
    requires serves { StandsForSome floor.old }
    ensures width { width_of floor.new ≡ width_of floor.old }
    ensures limits { limits_of floor.new ≡ limits_of floor.old }
    ensures ran { OnOk result ((g : Setting) (s : State) → StandsFor g floor.old s
        → StandsFor g floor.new (after_runs g.tariffs s width)) }
    ensures charged { OnOk result ((g : Setting) (s : State) → StandsFor g floor.old s
        → settled_charges (after_runs g.tariffs s width) ≡ settled_charges s) }
    ensures answered { OnOk result ((g : Setting) (s : State) → StandsFor g floor.old s → AllHome s
        → IsTrue g.tariffs width s → AreAnswered g.tariffs width s.fed (after_runs g.tariffs s width)) }
{
    for worker in 0..width {
        run_next(rt, floor, worker)?;
    }
    Ok(())
}

/// Runs the next job of each worker, and settles. Where no job was out, the findings were true and nothing was settled,
/// it writes the output of the rules, or is stopped where the sink's room is full or the keeper's call was planned to
/// fail.
pub fn run_and_settle<R: Threads, K: Keeper, O: Sink, P: Publisher>(
    rt: HostRuntime,
    threads: &R,
    floor: &mut Floor,
    width: u8,
    day: u32,
    keeper: &mut K,
    sink: &mut O,
    publisher: &mut P,
) -> Result<u64, SettleFault>
    requires width { width ≡ width_of floor.old }
    requires serves { (g : Setting) × (s : State) × StandsFor g floor.old s × (g.number ≡ day)
        × (g.history ≡ history_of (K.told keeper.old))
        × IsAbreast (P.posted publisher.old) (sum_of (settled_charges s)) }
    ensures settled { IfOk result (λ n. (g : Setting) (s : State) → StandsFor g floor.old s → g.number ≡ day
        → g.history ≡ history_of (K.told keeper.old) → AllHome s → IsTrue g.tariffs width s
        → (n ≡ length s.fed) × StandsFor g floor.new (after_settle (after_runs g.tariffs s width) n)) }
    ensures wrote { OnOk result ((g : Setting) (s : State) (kept : ℕ → ℕ → ℕ → ℕ) → StandsFor g floor.old s
        → g.number ≡ day → g.history ≡ history_of (K.told keeper.old) → g.history ≡ Some kept → AllHome s
        → IsTrue g.tariffs width s → s.settled ≡ 0
        → Appends (O.written sink.old) (O.written sink.new) (out (notices s.fed g.tariffs day kept))) }
    ensures took { OnOk result ((g : Setting) (s : State) (kept : ℕ → ℕ → ℕ → ℕ) → StandsFor g floor.old s
        → g.number ≡ day → g.history ≡ history_of (K.told keeper.old)
        → g.history ≡ Some kept → AllHome s → IsTrue g.tariffs width s → s.settled ≡ 0
        → TakesDay s.fed g.tariffs day kept (O.written sink.old, O.room sink.old) (O.written sink.new, O.room sink.new)
        (K.plan keeper.old) (K.plan keeper.new)) }
    ensures stopped { IfErr result (λ fault. (g : Setting) (s : State) (kept : ℕ → ℕ → ℕ → ℕ) → StandsFor g floor.old s
        → g.number ≡ day → g.history ≡ history_of (K.told keeper.old)
        → g.history ≡ Some kept → AllHome s → IsTrue g.tariffs width s → s.settled ≡ 0
        → StopsDay fault s.fed g.tariffs day kept (O.written sink.old, O.room sink.old)
        (O.written sink.new, O.room sink.new) (K.plan keeper.old) (K.plan keeper.new)) }
{
    if run_all(rt, floor, width).is_err() {
        return Err(SettleFault::NoMemory);
    }
    floor.settle(threads, day, keeper, sink, publisher)
}
