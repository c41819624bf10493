// What one worker keeps of its ways, by its parts.
ghost use Rattle.std.specs.Prelude.{◌≡◌, ◌≤◌, ◌<◌, ◌+◌, ◌==◌, ◌&&◌, not, ◌++◌, ◌∷◌, []};
ghost use Rattle.std.specs.Prelude.{ℕ, Bool, List, IfOk, OnOk, IfSome};
ghost use Rattle.std.specs.List.{cons_option};
ghost use Rattle.std.specs.Option.{option_map};
ghost use Rattle.road_time.specs.Clock.{minute_of};
ghost use Rattle.road_time.specs.Notes.{Note, note_of};
ghost use Rattle.road_time.specs.Tuples.{stretch_of as defined_stretch_of};
ghost use Rattle.road_time.specs.Entries.{StopEntry, standing_at};
ghost use Rattle.road_time.specs.Tolls.{notes_of, finding_by};
ghost use Rattle.ways_expressway.specs.SpeedsStand.{StandsFor as AveragesStandFor, CanNote};
ghost use Rattle.ways_expressway.specs.AccidentsStand.{StandsFor as StopsStandFor};
ghost use Rattle.ways_expressway.specs.declared.lane_event.LaneEvent.{LaneEvent as Event};
ghost use Rattle.ways_expressway.specs.declared.lane_event.LaneEvent.TheVariants.{Seen, Leave};
ghost use Rattle.ways_expressway.specs.Events.{seen, entries};
ghost use Rattle.ways_expressway.specs.Findings.{shown, found_if, findings};
ghost use Rattle.ways_expressway.specs.Known.{told_now_of, known_as};
ghost use Rattle.ways_expressway.specs.Parts.{flow_in};
ghost use Rattle.ways_expressway.specs.Near.{stood_in};
ghost use Rattle.road_time.specs.declared.road.Stretch.{Stretch as StretchValue};
ghost use Rattle.ways_expressway.specs.Stands.{IsUpTo, StandsFor};
ghost use Rattle.ways_expressway.specs.Ready.{IsReady};

use crate::averages::whole_lav;
use crate::finding::Finding;
use crate::formula::toll;
use crate::known::{Known, keep, know_nothing, place as place_known};
use crate::lane_event::LaneEvent;
use crate::speeds::Speeds;
use crate::stops::Stops;
use road_time::{EXIT_LANE, NoMemory, Place, Report, Stretch, Tariffs, minute};
use std::alloc::Global;
use std::marker::Model;

/// The sliding averages, who stands where, and the tariffs; and what is known of stretches, which is found once a
/// minute.
#[derive(Drop)]
pub struct Parts {
    speeds: Speeds,
    stops: Stops,
    tariffs: Tariffs,
    known: Vec<Option<Known>>,
}

impl Model for Parts {
    ghost use Rattle.ways_expressway.specs.Kept.{KeptWays};

    ghost Value = { KeptWays };

    ghost use Rattle.ways_expressway.specs.Known.{IsInStep};

    ghost view = { λ c. record { speeds = c.speeds; stops = c.stops; tariffs = c.tariffs } };

    ghost invariant = { λ c. IsInStep (record { speeds = c.speeds; stops = c.stops; tariffs = c.tariffs })
        c.known.items };
}

/// Notes a report of the current minute.
fn note(speeds: &mut Speeds, report: &Report) -> Result<(), NoMemory>
    requires slow { report.now.spd ≤ 100 }
    requires minute { speeds.old.minute ≡ minute_of report.now.time }
    requires one { (notes : List Note) × AveragesStandFor speeds.old notes × CanNote notes (note_of report.now) }
    ensures minute { speeds.new.minute ≡ speeds.old.minute }
    ensures noted { OnOk result ((notes : List Note) → AveragesStandFor speeds.old notes
        → CanNote notes (note_of report.now) → AveragesStandFor speeds.new (notes ++ note_of report.now ∷ [])) }
    ensures past { (k : StretchValue) (m : ℕ) → m < speeds.old.minute → speeds.old.minute < m + 6
        → flow_in speeds.new.rings k m ≡ flow_in speeds.old.rings k m }
{
    speeds.note(report.stretch(), report.vid, report.spd)
}

/// The vehicle of a report of the current second stands at its place, if it is stopped.
fn stop_if(stops: &mut Stops, stopped: bool, report: &Report) -> Result<(), NoMemory>
    requires second { stops.old.second ≡ report.now.time }
    ensures second { stops.new.second ≡ stops.old.second }
    ensures stopped { OnOk result ((before : List StopEntry) (position : ℕ) (begins : Bool)
        → StopsStandFor stops.old before
        → StopsStandFor stops.new (before ++ entries (Seen position report.now begins stopped ∷ []))) }
    ensures last { (k : StretchValue) → stood_in stops.new k ≡ stood_in stops.old k }
{
    if stopped {
        stops.stop(report.place(), report.vid)?;
    }
    Ok(())
}

impl Parts {
    /// No event was run. It keeps a copy of the tariffs.
    pub fn new(alloc: Global, tariffs: &Tariffs) -> Result<Self, NoMemory>
        ensures stands { IfOk result (λ c. StandsFor c []) }
        ensures tariffs { IfOk result (λ c. c.tariffs ≡ tariffs.now) }
    {
        let tariffs = tariffs.copy()?;
        let known = know_nothing(alloc)?;
        Ok(Parts {
            speeds: Speeds::new(alloc),
            stops: Stops::new(alloc),
            tariffs,
            known,
        })
    }

    /// Closes the seconds before this one, and the minutes with them.
    fn advance(&mut self, second: u32)
        requires minute { self.old.speeds.minute ≤ minute_of second }
        requires second { self.old.stops.second ≤ second }
        ensures tariffs { self.new.tariffs ≡ self.old.tariffs }
        ensures at { (before : List Event) (last : ℕ) → IsUpTo self.old last before → IsUpTo self.new second before }
    {
        self.speeds.roll(minute(second));
        self.stops.advance(second);
    }

    /// What is told of the stretch of a report of the current second, by what is kept.
    fn find_anew(&self, position: u32, report: &Report) -> Finding
        requires segment { report.now.seg ≤ 99 }
        requires direction { report.now.dir ≤ 1 }
        ensures exact { (before : List Event) → IsUpTo self.now report.now.time before
            → shown result ≡ (
              position,
              finding_by (notes_of (seen before)) (standing_at (entries before)) self.now.tariffs report.now,
            ) }
        ensures kept { shown result ≡ (position, told_now_of self.now (defined_stretch_of report.now)) }
    {
        let stretch = report.stretch();
        let tariff = self.tariffs.of(report.xway);
        let cars = self.speeds.cars(stretch);
        let lav = self.speeds.lav(stretch);
        let alert = self.stops.nearest(stretch);
        Finding {
            position,
            lav: whole_lav(lav.as_ref()),
            toll: toll(&tariff, cars, lav.as_ref(), alert.is_some()),
            alert,
        }
    }

    /// What is known of a stretch in the current minute.
    #[inline(always)]
    fn known_of(&self, stretch: Stretch) -> Option<Known>
        ensures { IfSome result (λ q. known_as q ≡ told_now_of self.now stretch) }
    {
        let known = (*self.known.get(place_known(stretch))?)?;
        if known.stretch == stretch && known.minute == minute(self.stops.second()) {
            Some(known)
        } else {
            None
        }
    }

    /// From now on what was found of the stretch of a report is known.
    #[inline(always)]
    fn know(&mut self, report: &Report, finding: Finding)
        requires { (shown finding).1 ≡ told_now_of self.old (defined_stretch_of report.now) }
        ensures { self.new ≡ self.old }
    {
        let stretch = report.stretch();
        let one = Known {
            toll: finding.toll,
            stretch,
            minute: minute(self.stops.second()),
            lav: finding.lav,
            alert: finding.alert,
        };
        keep(&mut self.known, place_known(stretch), one);
    }

    /// What is told of the stretch of a report of the current second.
    fn find(&self, position: u32, report: &Report) -> Finding
        requires segment { report.now.seg ≤ 99 }
        requires direction { report.now.dir ≤ 1 }
        ensures exact { (before : List Event) → IsUpTo self.now report.now.time before
            → shown result ≡ (
              position,
              finding_by (notes_of (seen before)) (standing_at (entries before)) self.now.tariffs report.now,
            ) }
        ensures kept { shown result ≡ (position, told_now_of self.now (defined_stretch_of report.now)) }
    {
        match self.known_of(report.stretch()) {
            Some(known) => Finding {
                position,
                lav: known.lav,
                toll: known.toll,
                alert: known.alert,
            },
            None => self.find_anew(position, report),
        }
    }

    /// What the vehicle of a report of the current second is told, if the report begins a stay outside the exit lane.
    fn find_if(&self, position: u32, report: &Report, begins: bool) -> Option<Finding>
        requires segment { report.now.seg ≤ 99 }
        requires direction { report.now.dir ≤ 1 }
        ensures exact { (before : List Event) → IsUpTo self.now report.now.time before
            → option_map shown result ≡ found_if (begins && not (report.now.lane == 4)) (notes_of (seen before))
            (standing_at (entries before)) self.now.tariffs position report.now }
        ensures kept { IfSome result (λ f. (shown f).1 ≡ told_now_of self.now (defined_stretch_of report.now)) }
    {
        if begins && report.lane != EXIT_LANE {
            Some(self.find(position, report))
        } else {
            None
        }
    }

    /// The same, and what was found is known from now on.
    fn tell(&mut self, position: u32, report: &Report, begins: bool) -> Option<Finding>
        requires segment { report.now.seg ≤ 99 }
        requires direction { report.now.dir ≤ 1 }
        ensures same { self.new ≡ self.old }
        ensures told { (before : List Event) → IsUpTo self.old report.now.time before
            → option_map shown result ≡ found_if (begins && not (report.now.lane == 4)) (notes_of (seen before))
            (standing_at (entries before)) self.old.tariffs position report.now }
    {
        let finding = self.find_if(position, report, begins);
        if let Some(found) = finding {
            self.know(report, found);
        }
        finding
    }

    /// A report was seen: gives what its vehicle is told, and then keeps it.
    fn see(
        &mut self,
        position: u32,
        report: &Report,
        begins: bool,
        stopped: bool,
    ) -> Result<Option<Finding>, NoMemory>
        requires { (before : List Event) × IsReady self.old before (Seen position report.now begins stopped ∷ []) }
        ensures tariffs { OnOk result (self.new.tariffs ≡ self.old.tariffs) }
        ensures carried { OnOk result ((before : List Event)
            → IsReady self.old before (Seen position report.now begins stopped ∷ [])
            → StandsFor self.new (before ++ Seen position report.now begins stopped ∷ [])) }
        ensures found { IfOk result (λ found. (before : List Event)
            → IsReady self.old before (Seen position report.now begins stopped ∷ [])
            → cons_option (option_map shown found) []
            ≡ findings before (Seen position report.now begins stopped ∷ []) self.old.tariffs) }
    {
        self.advance(report.time);
        let finding = self.tell(position, report, begins);
        note(&mut self.speeds, report)?;
        stop_if(&mut self.stops, stopped, report)?;
        Ok(finding)
    }

    /// A vehicle left a place.
    fn leave(&mut self, time: u32, vid: u32, place: Place)
        requires { (position : ℕ) × (before : List Event)
            × IsReady self.old before (Leave position time vid place ∷ []) }
        ensures tariffs { self.new.tariffs ≡ self.old.tariffs }
        ensures carried { (position : ℕ) (before : List Event)
            → IsReady self.old before (Leave position time vid place ∷ [])
            → StandsFor self.new (before ++ Leave position time vid place ∷ []) }
    {
        self.advance(time);
        self.stops.leave(place, vid);
    }

    /// Runs the next event, and gives what it finds. The one error is want of memory.
    pub(crate) fn next(&mut self, event: &LaneEvent) -> Result<Option<Finding>, NoMemory>
        requires { (before : List Event) × IsReady self.old before (event.now ∷ []) }
        ensures tariffs { OnOk result (self.new.tariffs ≡ self.old.tariffs) }
        ensures carried { OnOk result ((before : List Event) → IsReady self.old before (event.now ∷ [])
            → StandsFor self.new (before ++ event.now ∷ [])) }
        ensures found { IfOk result (λ found. (before : List Event) → IsReady self.old before (event.now ∷ [])
            → cons_option (option_map shown found) [] ≡ findings before (event.now ∷ []) self.old.tariffs) }
    {
        match *event {
            LaneEvent::Seen {
                position,
                report,
                begins,
                stopped,
            } => self.see(position, &report, begins, stopped),
            LaneEvent::Leave {
                time,
                vid,
                place,
                ..
            } => {
                self.leave(time, vid, place);
                Ok(None)
            }
        }
    }
}
