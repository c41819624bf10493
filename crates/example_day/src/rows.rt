// The rows: each a day of a few lines.
ghost use Rattle.std.specs.Prelude.{◌≡◌, ◌≤◌, ◌<◌, ◌++◌, ℕ, true, false, Some, Err, [], length, take, OnOk, IfErr};
ghost use Rattle.std.specs.Io.KnownBytes.{Appends};
ghost use Rattle.road_time.specs.Fits.{Fit};
ghost use Rattle.road_time.specs.declared.day.TheConstants.Limits.{DAY};
ghost use Rattle.road_time.specs.Day.{notices};
ghost use Rattle.road_time.specs.Text.{out};
ghost use Rattle.road_io.specs.Fakes.{bytes_of, room_of};
ghost use Rattle.road_time.specs.History.{paid};
ghost use Rattle.keep_office.specs.Memory.{kept_by, plan_of};
ghost use Rattle.day_floor.specs.declared.fault.SettleFault.TheVariants.{KeeperFault, WriteFault};
ghost use Rattle.day_floor.specs.Answers.{history_of};
ghost use Rattle.day_floor.specs.Asking.{requests_of};
ghost use Rattle.example_day.specs.Stops.{TakesDay, StopsDay};

use crate::feeding::feed_all;
use crate::reading::read_day;
use crate::showing::{show_end, show_floor};
use crate::turns::{run_all, run_and_settle};
use day_floor::{Closed, Floor, NoPublisher, SettleFault};
use keep_office::{Keeper, MemKeeper};
use road_io::{MemSink, MemSource, Sink};
use road_time::{Limits, Tariffs, Tuple};
use std::rt::HostRuntime;
use std::str;
use std::thread::Threads;

/// The number of the day.
const NUMBER: u32 = 100;

/// How many bytes a source gives and a sink takes at once.
const PIECE: usize = 64;

/// Feeds a day's tuples, runs each worker's job, settles and closes. What is written is the output of the rules.
fn settle_day<R: Threads, K: Keeper, O: Sink>(
    rt: HostRuntime,
    threads: &R,
    width: u8,
    tuples: &[Tuple],
    keeper: &mut K,
    sink: &mut O,
) -> Result<Closed, SettleFault>
    requires some { 1 ≤ width }
    requires few { width ≤ 64 }
    requires fit { Fit tuples.now DAY }
    requires room { length tuples.now ≤ DAY.backlog }
    ensures wrote { OnOk result ((kept : ℕ → ℕ → ℕ → ℕ) → history_of (K.told keeper.old) ≡ Some kept
        → Appends (O.written sink.old) (O.written sink.new) (out (notices tuples.now [] 100 kept))) }
    ensures took { OnOk result ((kept : ℕ → ℕ → ℕ → ℕ) → history_of (K.told keeper.old) ≡ Some kept
        → TakesDay tuples.now [] 100 kept (O.written sink.old, O.room sink.old) (O.written sink.new, O.room sink.new)
        (K.plan keeper.old) (K.plan keeper.new)) }
    ensures stopped { IfErr result (λ fault. (kept : ℕ → ℕ → ℕ → ℕ) → history_of (K.told keeper.old) ≡ Some kept
        → StopsDay fault tuples.now [] 100 kept (O.written sink.old, O.room sink.old)
        (O.written sink.new, O.room sink.new) (K.plan keeper.old) (K.plan keeper.new)) }
{
    let tariffs = Tariffs::new(rt.alloc());
    let Ok(mut floor) = Floor::new(rt.alloc(), width, &Limits::DAY, &tariffs, true) else {
        return Err(SettleFault::NoMemory);
    };
    let Ok(()) = feed_all(&mut floor, tuples) else {
        floor.leave(threads);
        return Err(SettleFault::NoMemory);
    };
    let _before = show_floor(rt, floor.pending(), floor.room(), floor.mark()).is_ok();
    if let Err(fault) = run_and_settle(
        rt,
        threads,
        &mut floor,
        width,
        NUMBER,
        keeper,
        sink,
        &mut NoPublisher,
    ) {
        floor.leave(threads);
        return Err(fault);
    }
    let _after = show_floor(rt, floor.pending(), floor.room(), floor.mark()).is_ok();
    match floor.close(threads, NUMBER) {
        Ok(closed) => Ok(closed),
        Err(_) => Err(SettleFault::NoMemory),
    }
}

/// Settles a day into a sink in memory. Of a day that is longer than the sink's room it has as much as there is room
/// for; and where the keeper fails, the first of its calls that was planned to fail is one of the day's requests.
fn settle_in_memory<R: Threads>(
    rt: HostRuntime,
    threads: &R,
    width: u8,
    tuples: &[Tuple],
    keeper: &mut MemKeeper,
    sink: &mut MemSink,
) -> Result<Closed, SettleFault>
    requires some { 1 ≤ width }
    requires few { width ≤ 64 }
    requires fit { Fit tuples.now DAY }
    requires room { length tuples.now ≤ DAY.backlog }
    ensures fits { OnOk result (length (out (notices tuples.now [] 100 (paid (kept_by keeper.old).rows)))
        ≤ room_of sink.old) }
    ensures passed { OnOk result ((i : ℕ) → i < requests_of tuples.now → plan_of keeper.old i ≡ false) }
    ensures full { result ≡ Err WriteFault
        → bytes_of sink.new
        ≡ bytes_of sink.old ++ take (room_of sink.old)
        (out (notices tuples.now [] 100 (paid (kept_by keeper.old).rows))) }
    ensures failed { result ≡ Err KeeperFault
        → (i : ℕ) × (i < requests_of tuples.now) × (plan_of keeper.old i ≡ true)
        × ((j : ℕ) → j < i → plan_of keeper.old j ≡ false) }
{
    settle_day(rt, threads, width, tuples, keeper, sink)
}

/// Prints what is done with a day's lines: over so many workers, a keeper that fails at some calls, and a sink with
/// room for so many bytes.
fn show_row<R: Threads>(
    rt: HostRuntime,
    threads: &R,
    title: &str,
    width: u8,
    lines: &str,
    fails: &[u32],
    room: usize,
) -> bool
    requires some { 1 ≤ width }
    requires few { width ≤ 64 }
{
    let _titled = println!(rt; "-- {title}").is_ok();
    let Ok(mut source) = MemSource::new(rt.alloc(), lines.as_bytes(), PIECE, &[]) else {
        return false;
    };
    let Some(tuples) = read_day(threads, rt.alloc(), &mut source) else {
        return false;
    };
    if tuples.len() > PIECE {
        return false;
    }
    let Ok(mut keeper) = MemKeeper::new(rt.alloc(), fails) else {
        return false;
    };
    let Ok(mut sink) = MemSink::new(rt.alloc(), room, PIECE) else {
        return false;
    };
    let end = settle_in_memory(
        rt,
        threads,
        width,
        tuples.as_slice(),
        &mut keeper,
        &mut sink,
    );
    let written = str::from_utf8(sink.bytes()).unwrap_or("");
    show_end(rt, &end, written).is_ok()
}

/// One report is fed over two workers.
fn one_report<R: Threads>(rt: HostRuntime, threads: &R) -> bool {
    let lines = "0,0,7,30,0,0,0,10,52800,-1,-1,-1,-1,-1,-1\n";
    show_row(rt, threads, "one report", 2, lines, &[], 1_000)
}

/// A vehicle stands in four reports, leaves for the other direction and then for another expressway.
fn route_of_three_workers<R: Threads>(rt: HostRuntime, threads: &R) -> bool {
    let lines = "0,0,1,0,0,2,0,10,55000,-1,-1,-1,-1,-1,-1\n\
        0,30,1,0,0,2,0,10,55000,-1,-1,-1,-1,-1,-1\n\
        0,60,1,0,0,2,0,10,55000,-1,-1,-1,-1,-1,-1\n\
        0,90,1,0,0,2,0,10,55000,-1,-1,-1,-1,-1,-1\n\
        0,120,1,50,0,1,1,10,52800,-1,-1,-1,-1,-1,-1\n\
        0,150,1,50,1,1,0,5,26400,-1,-1,-1,-1,-1,-1\n\
        2,151,1,-1,-1,-1,-1,-1,-1,9,-1,-1,-1,-1,-1\n";
    show_row(
        rt,
        threads,
        "a route of three workers",
        3,
        lines,
        &[],
        1_000,
    )
}

/// The sink has room for five bytes of eleven.
fn sink_with_little_room<R: Threads>(rt: HostRuntime, threads: &R) -> bool {
    let lines = "0,0,7,30,0,0,0,10,52800,-1,-1,-1,-1,-1,-1\n";
    show_row(rt, threads, "a sink with little room", 1, lines, &[], 5)
}

/// The keeper fails at its second call: the first request is answered, and no more.
fn keeper_that_fails<R: Threads>(rt: HostRuntime, threads: &R) -> bool {
    let lines = "3,0,7,-1,0,-1,-1,-1,-1,8,-1,-1,-1,-1,1\n\
        3,0,7,-1,0,-1,-1,-1,-1,9,-1,-1,-1,-1,2\n";
    show_row(rt, threads, "a keeper that fails", 1, lines, &[1], 1_000)
}

/// All rows.
pub(crate) fn show_rows<R: Threads>(rt: HostRuntime, threads: &R) -> bool {
    let one = one_report(rt, threads);
    let route = route_of_three_workers(rt, threads);
    let room = sink_with_little_room(rt, threads);
    let kept = keeper_that_fails(rt, threads);
    one && route && room && kept
}
