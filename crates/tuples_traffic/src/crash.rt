// Crashes: two vehicles that stand at one place for some minutes, and drive on.
ghost use Rattle.std.specs.Prelude.{◌≡◌, ◌≤◌, ◌<◌, ◌+◌, ◌++◌, OnOk};
ghost use Rattle.tuples_traffic.specs.Plans.{InRange};
ghost use Rattle.tuples_traffic.specs.Crashes.{drawn_crash, IsCrash, crash_report, crash_vehicle, crash_tuples};

use crate::directions::direction;
use crate::plan::GenPlan;
use crate::reporting::{Course, Motion, add_report};
use day_plan::draw;
use rand_pcg::Lcg64Xsh32;
use road_time::{NoMemory, Report, Tuple};

/// Where and when a crash is, and how many reports each of its vehicles makes while it stands.
#[derive(Clone, Copy)]
pub struct Crash {
    pub xway: u8,
    pub dir: u8,
    pub start: u32,
    pub seg: u32,
    pub stops: u32,
}

impl Crash {
    /// Draws a crash.
    pub fn draw(plan: &GenPlan, rng: &mut Lcg64Xsh32) -> Crash
        requires { InRange plan.now }
        ensures drawn { (result ≡ (drawn_crash plan.now rng.old).0) × (rng.new ≡ (drawn_crash plan.now rng.old).1) }
        ensures crash { IsCrash result }
    {
        let xway = draw(rng, u32::from(plan.xways)) as u8;
        let dir = direction(rng);
        let start = draw(rng, 30 * plan.minutes);
        let seg = 44 + draw(rng, 4);
        let stops = 8 + draw(rng, 8);
        Crash {
            xway,
            dir,
            start,
            seg,
            stops,
        }
    }

    /// Report `k` of one of its vehicles: it stands in lane 2, drives on, and leaves by lane 4.
    fn report(&self, course: &Course, k: u32) -> Report
        requires crash { IsCrash self.now }
        requires way { (course.now.xway ≡ self.now.xway) × (course.now.dir ≡ self.now.dir) }
        requires start { course.now.start ≤ 43200 }
        requires few { k < self.now.stops + 4 }
        ensures { result ≡ crash_report self.now course.now.vid course.now.start k }
    {
        let spot = 5280 * self.seg + 2640;
        if k < self.stops {
            let standing = Motion {
                spd: 0,
                lane: 2,
                pos: spot,
            };
            return course.report(k, standing);
        }
        let moves = k - self.stops + 1;
        let driving = Motion {
            spd: 30,
            lane: if moves < 4 { 2 } else { 4 },
            pos: course.after(spot, 1320 * moves),
        };
        course.report(k, driving)
    }

    /// Adds the reports of one of its vehicles.
    fn add_vehicle(
        &self,
        vid: u32,
        start: u32,
        end: u32,
        tuples: &mut Vec<Tuple>,
    ) -> Result<(), NoMemory>
        requires crash { IsCrash self.now }
        requires start { start ≤ 43200 }
        ensures { OnOk result (tuples.new.items ≡ tuples.old.items ++ crash_vehicle end self.now vid start) }
    {
        let course = Course {
            vid,
            xway: self.xway,
            dir: self.dir,
            start,
        };
        for k in 0..self.stops + 4 {
            add_report(self.report(&course, k), end, tuples)?;
        }
        Ok(())
    }

    /// Adds the reports of both vehicles.
    pub fn add(&self, number: u32, end: u32, tuples: &mut Vec<Tuple>) -> Result<(), NoMemory>
        requires crash { IsCrash self.now }
        requires few { number < 100 }
        ensures { OnOk result (tuples.new.items ≡ tuples.old.items ++ crash_tuples end number self.now) }
    {
        self.add_vehicle(2 * number + 1, self.start, end, tuples)?;
        self.add_vehicle(2 * number + 2, self.start + 1, end, tuples)
    }
}
