// What each worker is told, as tuples come in.
ghost use Rattle.std.specs.Prelude.{◌≡◌, ◌≤◌, ◌<◌, ◌+◌, ◌++◌, ◌∷◌, [], ◌==◌, ℕ, List, min, true, false, length};
ghost use Rattle.std.specs.Prelude.{vec_len, IfOk, IfSome, IfNone, OnOk, OnErr, if◌then◌else◌};
ghost use Rattle.road_time.specs.declared.road.Tuple.{Tuple as Fed};
ghost use Rattle.road_time.specs.declared.road.Tuple.TheVariants.{Report as ReportTuple};
ghost use Rattle.road_time.specs.declared.day.Limits.{Limits};
ghost use Rattle.road_time.specs.Fits.{Fit};
ghost use Rattle.road_time.specs.Tuples.{stretch_of, stretch_around};
ghost use Rattle.road_time.specs.Ways.{way_of, worker_for};
ghost use Rattle.ways_expressway.specs.declared.lane_event.LaneEvent.TheVariants.{Seen, Leave};
ghost use Rattle.ways_expressway.specs.Events.{told_to};
ghost use Rattle.day_floor.specs.Shares.{Share, idle, can_give, least_of};
ghost use Rattle.day_floor.specs.Steps.{at_worker, fed_to, given_out, taken_back};
ghost use Rattle.day_floor.specs.Slots.{due_of};
ghost use Rattle.day_floor.specs.Desks.{IsDeskAt, HasInboxRoom, with_events, tracked_events, MayCome, StandFor};

use crate::desk::WorkerDesk;
use crate::due_slot::Due;
use crate::tracked::Tracked;
use crate::tracker::Tracker;
use road_time::{NoMemory, Place, Report, Tuple, Way, worker_of};
use std::alloc::Global;
use ways_expressway::LaneEvent;

/// Where each vehicle was last, and each worker's events that wait.
#[derive(Drop)]
pub(crate) struct Inboxes {
    pub(crate) width: u8,
    pub(crate) tracker: Tracker,
    pub(crate) desks: Vec<WorkerDesk>,
}

/// The worker of a report.
fn worker_of_report(report: &Report, width: u8) -> u8
    requires direction { report.now.dir ≤ 1 }
    requires some { 1 ≤ width }
    requires few { width ≤ 64 }
    ensures is { result ≡ worker_for (way_of (stretch_of report.now)) width }
    ensures within { result < width }
{
    worker_of(
        Way {
            xway: report.xway,
            dir: report.dir,
        },
        width,
    )
}

/// The worker of a place.
fn worker_of_place(place: Place, width: u8) -> u8
    requires direction { place.dir ≤ 1 }
    requires some { 1 ≤ width }
    requires few { width ≤ 64 }
    ensures is { result ≡ worker_for (way_of (stretch_around place)) width }
    ensures within { result < width }
{
    worker_of(
        Way {
            xway: place.xway,
            dir: place.dir,
        },
        width,
    )
}

/// That a report was seen.
fn seen(position: u32, report: &Report, tracked: Tracked) -> LaneEvent
    ensures { result ≡ Seen position report.now tracked.begins tracked.stopped }
{
    LaneEvent::Seen {
        position,
        report: *report,
        begins: tracked.begins,
        stopped: tracked.stopped,
    }
}

/// That the vehicle of a report left a place.
fn leave(position: u32, report: &Report, place: Place) -> LaneEvent
    ensures { result ≡ Leave position report.now.time report.now.vid place }
{
    LaneEvent::Leave {
        position,
        time: report.time,
        vid: report.vid,
        place,
    }
}

/// Makes room in a worker's inbox for two events.
fn make_room(desks: &mut Vec<WorkerDesk>, worker: u8) -> Result<(), NoMemory>
    requires { worker < vec_len desks.old }
    ensures len { vec_len desks.new ≡ vec_len desks.old }
    ensures same { (w : ℕ) (share : Share) → IsDeskAt desks.old.items w share → IsDeskAt desks.new.items w share }
    ensures room { OnOk result (HasInboxRoom 2 desks.new.items worker) }
    ensures kept { (w n : ℕ) → HasInboxRoom n desks.old.items w → HasInboxRoom n desks.new.items w }
{
    desks[usize::from(worker)].inbox.reserve(2)?;
    Ok(())
}

/// Puts an event into a worker's inbox.
fn put(desks: &mut Vec<WorkerDesk>, worker: u8, event: LaneEvent)
    requires within { worker < vec_len desks.old }
    requires room { HasInboxRoom 1 desks.old.items worker }
    ensures len { vec_len desks.new ≡ vec_len desks.old }
    ensures put { (w : ℕ) (share : Share) → IsDeskAt desks.old.items w share
        → IsDeskAt desks.new.items w (if w == worker then with_events (event ∷ []) share else share) }
    ensures kept { (w n : ℕ) → HasInboxRoom (n + 1) desks.old.items w → HasInboxRoom n desks.new.items w }
{
    desks[usize::from(worker)].put(event);
}

/// Desks with nothing on them.
fn make_desks(alloc: Global, width: u8) -> Result<Vec<WorkerDesk>, NoMemory>
    ensures len { IfOk result (λ desks. vec_len desks ≡ width) }
    ensures idle { IfOk result (λ desks. (w : ℕ) → IsDeskAt desks.items w idle) }
{
    let mut desks = Vec::with_capacity(alloc, usize::from(width))?;
    for _ in 0..width {
        desks.push(WorkerDesk {
            inbox: Vec::new(alloc),
            first_out: None,
        })?;
    }
    Ok(desks)
}

/// Makes room for the events of a report.
fn make_rooms(
    desks: &mut Vec<WorkerDesk>,
    width: u8,
    worker: u8,
    left: Option<Place>,
) -> Result<(), NoMemory>
    requires worker { worker < vec_len desks.old }
    requires width { vec_len desks.old ≡ width }
    requires some { 1 ≤ width }
    requires few { width ≤ 64 }
    requires direction { IfSome left (λ p. p.dir ≤ 1) }
    ensures len { vec_len desks.new ≡ vec_len desks.old }
    ensures same { (w : ℕ) (share : Share) → IsDeskAt desks.old.items w share → IsDeskAt desks.new.items w share }
    ensures left { OnOk result (IfSome left
        (λ p. HasInboxRoom 2 desks.new.items (worker_for (way_of (stretch_around p)) width))) }
    ensures worker { OnOk result (HasInboxRoom 2 desks.new.items worker) }
{
    match left {
        None => make_room(desks, worker),
        Some(place) => {
            let other = worker_of_place(place, width);
            make_room(desks, other)?;
            make_room(desks, worker)
        }
    }
}

/// Puts the events of a report into the inboxes: that its vehicle left a place, if it did, and then that it was seen.
fn put_events(
    desks: &mut Vec<WorkerDesk>,
    width: u8,
    worker: u8,
    position: u32,
    report: &Report,
    tracked: Tracked,
)
    requires width { vec_len desks.old ≡ width }
    requires some { 1 ≤ width }
    requires few { width ≤ 64 }
    requires worker { worker ≡ worker_for (way_of (stretch_of report.now)) width }
    requires within { worker < vec_len desks.old }
    requires left_direction { IfSome tracked.left (λ p. p.dir ≤ 1) }
    requires left_room { IfSome tracked.left (λ p. HasInboxRoom 2 desks.old.items (worker_for (way_of
        (stretch_around p)) width)) }
    requires seen_room { HasInboxRoom 2 desks.old.items worker }
    ensures len { vec_len desks.new ≡ vec_len desks.old }
    ensures put { (w : ℕ) (share : Share) → IsDeskAt desks.old.items w share
        → IsDeskAt desks.new.items w (with_events (told_to w width (tracked_events position report.now tracked))
        share) }
{
    let event = seen(position, report, tracked);
    match tracked.left {
        None => put(desks, worker, event),
        Some(place) => {
            let other = worker_of_place(place, width);
            put(desks, other, leave(position, report, place));
            put(desks, worker, event);
        }
    }
}

impl Inboxes {
    /// No tuple came in. The one error is want of memory.
    pub(crate) fn new(alloc: Global, width: u8) -> Result<Inboxes, NoMemory>
        requires some { 1 ≤ width }
        requires few { width ≤ 64 }
        ensures stand { IfOk result (λ i. StandFor i [] (λ w. idle)) }
        ensures width { IfOk result (λ i. i.width ≡ width) }
    {
        let desks = make_desks(alloc, width)?;
        Ok(Inboxes {
            width,
            tracker: Tracker::new(alloc),
            desks,
        })
    }

    /// A report comes in, and what it calls for is told. The one error is want of memory, and then nothing has changed.
    fn feed_report(&mut self, position: u32, report: &Report) -> Result<Due, NoMemory>
        requires { MayCome self.old position (ReportTuple report.now) }
        ensures width { self.new.width ≡ self.old.width }
        ensures fed { OnOk result ((day : List Fed) (share : ℕ → Share) → StandFor self.old day share
            → length day ≡ position → StandFor self.new (day ++ ReportTuple report.now ∷ [])
            (λ w. fed_to w self.old.width day (ReportTuple report.now) (share w))) }
        ensures due { IfOk result (λ due. (day : List Fed) (share : ℕ → Share) → StandFor self.old day share
            → due ≡ due_of (day, ReportTuple report.now)) }
        ensures refused { OnErr result ((day : List Fed) (share : ℕ → Share) → StandFor self.old day share
            → StandFor self.new day share) }
    {
        let sighting = self.tracker.sight(report);
        let worker = worker_of_report(report, self.width);
        make_rooms(&mut self.desks, self.width, worker, sighting.tracked.left)?;
        self.tracker.keep(report, &sighting)?;
        put_events(
            &mut self.desks,
            self.width,
            worker,
            position,
            report,
            sighting.tracked,
        );
        Ok(Due::of_report(report, &sighting.tracked))
    }

    /// The next tuple of the day comes in, at its position, and what it calls for is told. The one error is want of
    /// memory, and then nothing has changed.
    pub(crate) fn feed(&mut self, position: u32, tuple: &Tuple) -> Result<Due, NoMemory>
        requires { MayCome self.old position tuple.now }
        ensures width { self.new.width ≡ self.old.width }
        ensures fed { OnOk result ((day : List Fed) (share : ℕ → Share) → StandFor self.old day share
            → length day ≡ position → StandFor self.new (day ++ tuple.now ∷ [])
            (λ w. fed_to w self.old.width day tuple.now (share w))) }
        ensures due { IfOk result (λ due. (day : List Fed) (share : ℕ → Share) → StandFor self.old day share
            → due ≡ due_of (day, tuple.now)) }
        ensures refused { OnErr result ((day : List Fed) (share : ℕ → Share) → StandFor self.old day share
            → StandFor self.new day share) }
    {
        match tuple {
            Tuple::Report(report) => self.feed_report(position, report),
            request => Ok(Due::of_request(request)),
        }
    }

    /// Moves a worker's events out that wait, if there are any and no job of its is out.
    pub(crate) fn give(&mut self, alloc: Global, worker: u8) -> Option<Vec<LaneEvent>>
        requires { worker < vec_len self.old.desks }
        ensures width { self.new.width ≡ self.old.width }
        ensures none { IfNone result ((day : List Fed) (share : ℕ → Share) → StandFor self.old day share
            → (can_give (share worker) ≡ false) × StandFor self.new day share) }
        ensures some { IfSome result (λ events. (day : List Fed) (share : ℕ → Share) (number : ℕ)
            → StandFor self.old day share → (can_give (share worker) ≡ true) × (events.items ≡ (share worker).waiting)
            × StandFor self.new day (at_worker worker (given_out number) share)) }
    {
        let events = self.desks[usize::from(worker)].give(alloc)?;
        Some(events)
    }

    /// A worker's job is back.
    pub(crate) fn back(&mut self, worker: u8)
        requires { worker < vec_len self.old.desks }
        ensures width { self.new.width ≡ self.old.width }
        ensures back { (day : List Fed) (share : ℕ → Share) → StandFor self.old day share
            → StandFor self.new day (at_worker worker taken_back share) }
    {
        self.desks[usize::from(worker)].back();
    }

    /// The least, over the workers, of the position of the first event that is not back, and a number.
    pub(crate) fn least(&self, fed: u32) -> u32
        ensures { (day : List Fed) (share : ℕ → Share) → StandFor self.now day share
            → result ≡ least_of share self.now.width fed }
    {
        let mut least = fed;
        for desk in &self.desks {
            least = lower(desk.first(), least);
        }
        least
    }
}

/// The lesser of a number and a position, if there is one.
fn lower(at: Option<u32>, number: u32) -> u32
    ensures none { IfNone at (result ≡ number) }
    ensures some { IfSome at (λ position. result ≡ min position number) }
{
    match at {
        None => number,
        Some(position) => { if position < number { position } else { number } }
    }
}
