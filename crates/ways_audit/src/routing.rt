// The events of each worker, from what the tuples of a day tell.
ghost use Rattle.std.specs.Prelude.{◌≡◌, ◌≤◌, ◌<◌, ◌++◌, ◌∷◌, [], ◌==◌, ℕ, List, OnOk, IfOk, length, if◌then◌else◌};
ghost use Rattle.road_time.specs.declared.road.Tuple.{Tuple as TupleValue};
ghost use Rattle.road_time.specs.Ways.{worker_for};
ghost use Rattle.ways_expressway.specs.declared.lane_event.LaneEvent.{LaneEvent as Event};
ghost use Rattle.ways_expressway.specs.Events.{events_at, told_to, way_told};
ghost use Rattle.ways_audit.specs.Seen.{tracked_by, tracked_after};
ghost use Rattle.ways_audit.specs.Routing.{tracked_events, HasEvents, HaveEvents};

use day_floor::Tracked;
use road_time::{NoMemory, Report, Tuple};
use std::alloc::Global;
use std::mem;
use ways_expressway::LaneEvent;

/// The events of one worker.
#[derive(Drop)]
pub(crate) struct WorkerEvents {
    pub(crate) events: Vec<LaneEvent>,
}

/// The worker that has a way, of so many.
#[inline(always)]
fn worker_of_way(xway: u8, dir: u8, width: u8) -> usize
    requires { 1 ≤ width }
    ensures is { result ≡ worker_for (record { xway = xway; dir = dir }) width }
    ensures within { result < width }
{
    usize::from((2 * u16::from(xway) + u16::from(dir)) % u16::from(width))
}

/// Puts an event behind those of a worker.
fn put(lists: &mut [WorkerEvents], worker: usize, event: LaneEvent) -> Result<(), NoMemory>
    requires { worker < length lists.old }
    ensures len { OnOk result (length lists.new ≡ length lists.old) }
    ensures put { OnOk result ((w : ℕ) (es : List Event) → HasEvents lists.old w es
        → HasEvents lists.new w (es ++ (if worker == w then event ∷ [] else []))) }
{
    lists[worker].events.push(event)?;
    Ok(())
}

/// Puts the events of a report behind those of their workers: that its vehicle left a place, if it did, and then that
/// it was seen.
fn put_events(
    lists: &mut [WorkerEvents],
    width: u8,
    position: u32,
    report: &Report,
    tracked: &Tracked,
) -> Result<(), NoMemory>
    requires some { 1 ≤ width }
    requires len { length lists.old ≡ width }
    ensures len { OnOk result (length lists.new ≡ length lists.old) }
    ensures put { OnOk result ((w : ℕ) (es : List Event) → HasEvents lists.old w es
        → HasEvents lists.new w (es ++ told_to w width (tracked_events position report.now tracked.now))) }
{
    let seen = LaneEvent::Seen {
        position,
        report: *report,
        begins: tracked.begins,
        stopped: tracked.stopped,
    };
    let own = worker_of_way(report.xway, report.dir, width);
    match tracked.left {
        None => {
            put(lists, own, seen)?;
            Ok(())
        }
        Some(place) => {
            let other = worker_of_way(place.xway, place.dir, width);
            let leave = LaneEvent::Leave {
                position,
                time: report.time,
                vid: report.vid,
                place,
            };
            put(lists, other, leave)?;
            put(lists, own, seen)?;
            Ok(())
        }
    }
}

/// Puts the events of a tuple behind those of their workers.
fn put_events_at(
    lists: &mut [WorkerEvents],
    width: u8,
    position: u32,
    tuple: &Tuple,
    tracked: Option<Tracked>,
) -> Result<(), NoMemory>
    requires some { 1 ≤ width }
    requires len { length lists.old ≡ width }
    ensures len { OnOk result (length lists.new ≡ length lists.old) }
    ensures put { OnOk result ((before : List TupleValue) → length before ≡ position
        → tracked ≡ tracked_by (before, tuple.now) → (w : ℕ) (es : List Event) → HasEvents lists.old w es
        → HasEvents lists.new w (es ++ told_to w width (events_at (before, tuple.now)))) }
{
    let Tuple::Report(report) = tuple else {
        return Ok(());
    };
    let Some(told) = tracked else {
        return Ok(());
    };
    put_events(lists, width, position, report, &told)?;
    Ok(())
}

/// No events yet, with room for so many where memory has it.
fn room_for(alloc: Global, count: usize) -> Vec<LaneEvent>
    ensures { result.items ≡ [] }
{
    match Vec::with_capacity(alloc, count) {
        Ok(events) => events,
        Err(_) => Vec::new(alloc),
    }
}

/// No events yet, of so many workers, each with room for so many where memory has it.
fn new_lists(alloc: Global, width: u8, room: usize) -> Result<Vec<WorkerEvents>, NoMemory>
    ensures len { IfOk result (λ lists. length lists.items ≡ width) }
    ensures empty { IfOk result (λ lists. (w : ℕ) → HasEvents lists.items w []) }
{
    let mut lists = Vec::with_capacity(alloc, usize::from(width))?;
    for _ in 0..width {
        lists.push(WorkerEvents {
            events: room_for(alloc, room),
        })?;
    }
    Ok(lists)
}

/// Puts the events of a day's tuples behind those of their workers, with their positions.
fn put_all(
    lists: &mut [WorkerEvents],
    width: u8,
    tuples: &[Tuple],
    tracked: &[Option<Tracked>],
) -> Result<(), NoMemory>
    requires some { 1 ≤ width }
    requires width { length lists.old ≡ width }
    requires empty { (w : ℕ) → HasEvents lists.old w [] }
    requires few { length tuples.now ≤ 16000000 }
    requires tracked { tracked.now ≡ tracked_after [] tuples.now }
    requires len { length tracked.now ≡ length tuples.now }
    ensures len { OnOk result (length lists.new ≡ length lists.old) }
    ensures events { OnOk result (HaveEvents lists.new tuples.now width 0) }
{
    for at in 0..tuples.len() {
        put_events_at(lists, width, at as u32, &tuples[at], tracked[at])?;
    }
    Ok(())
}

/// The events of each worker, of so many: all that the day's tuples tell it, with their positions. It goes over the
/// tuples once. Each has room from the start for its share, were all the same, and an eighth more.
pub(crate) fn route(
    alloc: Global,
    tuples: &[Tuple],
    tracked: &[Option<Tracked>],
    width: u8,
) -> Result<Vec<WorkerEvents>, NoMemory>
    requires some { 1 ≤ width }
    requires few { length tuples.now ≤ 16000000 }
    requires tracked { tracked.now ≡ tracked_after [] tuples.now }
    requires len { length tracked.now ≡ length tuples.now }
    ensures len { IfOk result (λ lists. length lists.items ≡ width) }
    ensures events { IfOk result (λ lists. HaveEvents lists.items tuples.now width 0) }
{
    let share = tuples.len() / usize::from(width);
    let mut lists = new_lists(alloc, width, share.saturating_add(share / 8))?;
    put_all(lists.as_mut_slice(), width, tuples, tracked)?;
    Ok(lists)
}

/// Moves the events of a worker out. Those of the others stay.
pub(crate) fn take_events(alloc: Global, lists: &mut [WorkerEvents], worker: u8) -> Vec<LaneEvent>
    requires { worker < length lists.old }
    ensures len { length lists.new ≡ length lists.old }
    ensures taken { (es : List Event) → HasEvents lists.old worker es → result.items ≡ es }
    ensures left { (w : ℕ) (es : List Event) → worker < w → HasEvents lists.old w es → HasEvents lists.new w es }
{
    mem::replace(&mut lists[usize::from(worker)].events, Vec::new(alloc))
}
