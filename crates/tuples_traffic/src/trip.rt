// Trips: vehicles that enter, drive at one speed, leave, and may ask.
ghost use Rattle.std.specs.Prelude.{◌≡◌, ◌≤◌, ◌<◌, ◌++◌, Some, None, OnOk, IfSome, if◌then◌else◌};
ghost use Rattle.tuples_traffic.specs.Plans.{InRange};
ghost use Rattle.tuples_traffic.specs.Trips.{drawn_past, drawn_trip, IsTrip, lane_at, trip_report, asks, asking_time};
ghost use Rattle.tuples_traffic.specs.Trips.{spent_request, requests, trip_tuples};
ghost use Rattle.tuples_traffic.specs.Reports.{reports_before};

use crate::directions::direction;
use crate::plan::GenPlan;
use crate::reporting::{Course, Motion, add_report};
use day_plan::draw;
use rand_pcg::Lcg64Xsh32;
use road_time::{NoMemory, Report, Tuple};

/// A vehicle's first second, segment, number of reports and speed, and the past day that it asks for.
#[derive(Clone, Copy)]
pub struct Trip {
    pub vid: u32,
    pub xway: u8,
    pub dir: u8,
    pub start: u32,
    pub seg: u32,
    pub reports: u32,
    pub speed: u32,
    pub past: Option<u8>,
}

/// Draws a past day for each fiftieth vehicle.
fn draw_past(vid: u32, rng: &mut Lcg64Xsh32) -> Option<u8>
    ensures drawn { (result ≡ (drawn_past vid rng.old).0) × (rng.new ≡ (drawn_past vid rng.old).1) }
    ensures past { IfSome result (λ day. (1 ≤ day) × (day ≤ 69)) }
{
    if vid % 50 != 0 {
        return None;
    }
    let day = draw(rng, 69) as u8;
    Some(1 + day)
}

impl Trip {
    /// Draws a vehicle's trip.
    pub fn draw(plan: &GenPlan, vid: u32, rng: &mut Lcg64Xsh32) -> Trip
        requires plan { InRange plan.now }
        requires vehicle { vid ≤ 5000 }
        ensures drawn { (result ≡ (drawn_trip plan.now vid rng.old).0)
            × (rng.new ≡ (drawn_trip plan.now vid rng.old).1) }
        ensures trip { IsTrip result }
    {
        let xway = draw(rng, u32::from(plan.xways)) as u8;
        let dir = direction(rng);
        let start = draw(rng, 60 * plan.minutes);
        let seg = 40 + draw(rng, 4);
        let reports = 4 + draw(rng, 33);
        let speed = 10 + draw(rng, 41);
        let past = draw_past(vid, rng);
        Trip {
            vid,
            xway,
            dir,
            start,
            seg,
            reports,
            speed,
            past,
        }
    }

    /// The lane of report `k`.
    fn lane(&self, k: u32) -> u8
        requires { k ≤ 36 }
        ensures value { result ≡ lane_at self.now k }
        ensures lane { result ≤ 4 }
    {
        if k == 0 {
            0
        } else if k + 1 == self.reports {
            4
        } else {
            (1 + self.vid % 3) as u8
        }
    }

    /// Report `k`.
    fn report(&self, k: u32) -> Report
        requires trip { IsTrip self.now }
        requires few { k < self.now.reports }
        ensures { result ≡ trip_report self.now k }
    {
        let course = Course {
            vid: self.vid,
            xway: self.xway,
            dir: self.dir,
            start: self.start,
        };
        let motion = Motion {
            spd: self.speed as u8,
            lane: self.lane(k),
            pos: course.after(5280 * self.seg + 100, 44 * self.speed * k),
        };
        course.report(k, motion)
    }

    /// Adds its reports.
    fn add_reports(&self, end: u32, tuples: &mut Vec<Tuple>) -> Result<(), NoMemory>
        requires trip { IsTrip self.now }
        ensures { OnOk result (tuples.new.items ≡ tuples.old.items ++ reports_before end
            (trip_report self.now) self.now.reports) }
    {
        for k in 0..self.reports {
            add_report(self.report(k), end, tuples)?;
        }
        Ok(())
    }

    /// Whether it asks, and when.
    fn asks_at(&self, end: u32) -> Option<u32>
        requires { IsTrip self.now }
        ensures { result ≡ (if asks end self.now then Some (asking_time self.now) else None) }
    {
        let time = self.start + 151;
        if self.vid % 10 == 0 && self.reports > 5 && time < end {
            Some(time)
        } else {
            None
        }
    }

    /// Adds its requests.
    fn add_requests(&self, end: u32, tuples: &mut Vec<Tuple>) -> Result<(), NoMemory>
        requires { IsTrip self.now }
        ensures { OnOk result (tuples.new.items ≡ tuples.old.items ++ requests end self.now) }
    {
        let Some(time) = self.asks_at(end) else {
            return Ok(());
        };
        tuples.push(Tuple::Balance {
            time,
            vid: self.vid,
            qid: self.vid,
        })?;
        if let Some(day) = self.past {
            tuples.push(Tuple::Spent {
                time,
                vid: self.vid,
                xway: self.xway,
                qid: self.vid,
                day,
            })?;
        }
        Ok(())
    }

    /// Adds its reports and requests.
    pub fn add(&self, end: u32, tuples: &mut Vec<Tuple>) -> Result<(), NoMemory>
        requires { IsTrip self.now }
        ensures { OnOk result (tuples.new.items ≡ tuples.old.items ++ trip_tuples end self.now) }
    {
        self.add_reports(end, tuples)?;
        self.add_requests(end, tuples)
    }
}
