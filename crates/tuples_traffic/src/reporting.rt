// Reports of vehicles that come every 30 seconds.
ghost use Rattle.std.specs.Prelude.{◌≡◌, ◌≤◌, ◌<◌, ◌+◌, ◌*◌, ◌∷◌, [], ◌++◌, nat_lt, OnOk, if◌then◌else◌};
ghost use Rattle.road_time.specs.declared.road.Tuple.TheVariants.{Report as ReportTuple};
ghost use Rattle.tuples_traffic.specs.Reports.{time_at, moved_on, report_at};

use road_time::{NoMemory, Report, Tuple};

/// What a vehicle does at a moment: its speed, lane and position.
#[derive(Clone, Copy)]
pub struct Motion {
    pub spd: u8,
    pub lane: u8,
    pub pos: u32,
}

/// A vehicle on an expressway in a direction, and when it first reports.
#[derive(Clone, Copy)]
pub struct Course {
    pub vid: u32,
    pub xway: u8,
    pub dir: u8,
    pub start: u32,
}

impl Course {
    /// The position `feet` further on than `from`.
    pub fn after(&self, from: u32, feet: u32) -> u32
        requires west { feet ≤ from }
        requires east { from + feet < 528000 }
        ensures value { result ≡ moved_on self.now.dir from feet }
        ensures on_road { result < 528000 }
    {
        if self.dir == 0 {
            from + feet
        } else {
            from - feet
        }
    }

    /// Report `k`.
    pub fn report(&self, k: u32, motion: Motion) -> Report
        requires start { self.now.start ≤ 86400 }
        requires few { k ≤ 36 }
        requires on_road { motion.pos < 528000 }
        ensures { result
            ≡ report_at (time_at self.now.start k) self.now.vid motion.spd
            self.now.xway motion.lane self.now.dir motion.pos }
    {
        Report {
            time: self.start + 30 * k,
            vid: self.vid,
            spd: motion.spd,
            xway: self.xway,
            lane: motion.lane,
            dir: self.dir,
            seg: (motion.pos / 5280) as u8,
            pos: motion.pos,
        }
    }
}

/// Adds a report, if it is before the end.
pub fn add_report(report: Report, end: u32, tuples: &mut Vec<Tuple>) -> Result<(), NoMemory>
    ensures { OnOk result (tuples.new.items ≡ tuples.old.items ++
        (if nat_lt report.time end then ReportTuple report ∷ [] else [])) }
{
    if report.time < end {
        tuples.push(Tuple::Report(report))?;
    }
    Ok(())
}
