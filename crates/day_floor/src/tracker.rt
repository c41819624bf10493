// Each vehicle's last place, as reports come in.
ghost use Rattle.std.specs.Prelude.{◌≡◌, ◌++◌, ◌∷◌, [], List, None, nat_eq, IfOk, OnOk, OnErr};
ghost use Rattle.std.specs.Map.{lookup};
ghost use Rattle.road_time.specs.Stops.{trail, left_by};
ghost use Rattle.day_floor.specs.Told.{IsTracked};
ghost use Rattle.day_floor.specs.Stands.{StandsFor};
ghost use Rattle.day_floor.specs.Sightings.{IsSighting};

use crate::seen::next;
use crate::sighting::Sighting;
use crate::tracked::{FIRST, Tracked, left_from, told};
use indexmap::IndexMap;
use road_time::{LastSeen, NoMemory, Place, Report, UsualOrder, find, look};
use std::alloc::Global;
use std::marker::Model;

/// Where each vehicle was last. Contracts see it as the list of vehicles that were seen, each with what is kept of it.
#[derive(Drop)]
pub struct Tracker {
    seen: IndexMap<u32, LastSeen>,
    order: UsualOrder,
}

impl Model for Tracker {
    ghost use Rattle.day_floor.specs.Runs.{KeptSeen};

    ghost Value = { KeptSeen };

    ghost view = { λ t. t.seen.entries };
}

impl Tracker {
    /// No vehicle was seen.
    pub fn new(alloc: Global) -> Self
        ensures empty { result ≡ [] }
        ensures stands { StandsFor result [] }
    {
        Tracker {
            seen: IndexMap::new(alloc),
            order: UsualOrder::new(alloc),
        }
    }

    /// The place that the next report of the day would leave, if its vehicle stood at one and is no more. Nothing
    /// changes, and no memory is wanted.
    pub fn left(&self, report: &Report) -> Option<Place>
        ensures { (reports : List Report) → StandsFor self.now reports
            → result ≡ left_by (trail reports report.now.vid) report.now }
    {
        let here = report.place();
        match look(&self.seen, self.order.guess(), report.vid) {
            Some(seen) => left_from(*seen, here),
            None => None,
        }
    }

    /// What the next report of the day tells, and what is to be kept with it. Nothing changes, and no memory is wanted.
    #[inline(always)]
    pub fn sight(&self, report: &Report) -> Sighting
        ensures is { IsSighting self.now report.now result }
        ensures told { (reports : List Report) → StandsFor self.now reports
            → IsTracked result.tracked (trail reports report.now.vid) report.now }
    {
        let here = report.place();
        match find(&self.seen, self.order.guess(), report.vid) {
            Some(at) => {
                let Some((_, seen)) = self.seen.get_index(at) else {
                    unreachable!()
                };
                let last = *seen;
                let now = next(last, here);
                Sighting {
                    tracked: told(last, here, now),
                    now,
                    at: Some(at),
                }
            }
            None => {
                Sighting {
                    tracked: FIRST,
                    now: LastSeen {
                        place: here,
                        run: 1,
                    },
                    at: None,
                }
            }
        }
    }

    /// The report that `sight` told of comes in. Only a vehicle's first report can be refused.
    #[inline(always)]
    pub fn keep(&mut self, report: &Report, sighting: &Sighting) -> Result<(), NoMemory>
        requires { IsSighting self.old report.now sighting.now }
        ensures seen { OnOk result ((reports : List Report) → StandsFor self.old reports
            → StandsFor self.new (reports ++ report.now ∷ [])) }
        ensures refused { OnErr result (self.new ≡ self.old) }
        ensures first { OnErr result (lookup (nat_eq report.now.vid) self.old ≡ None) }
    {
        match sighting.at {
            Some(at) => {
                self.order.follow(at);
                let (_, seen) = self.seen.pair_mut(at);
                *seen = sighting.now;
                Ok(())
            }
            None => {
                let at = self.seen.len();
                self.seen.insert(report.vid, sighting.now)?;
                self.order.follow(at);
                Ok(())
            }
        }
    }

    /// What the next report of the day tells. Only a vehicle's first report can be refused.
    pub fn see(&mut self, report: &Report) -> Result<Tracked, NoMemory>
        ensures seen { OnOk result ((reports : List Report) → StandsFor self.old reports
            → StandsFor self.new (reports ++ report.now ∷ [])) }
        ensures told { IfOk result (λ tracked. (reports : List Report) → StandsFor self.old reports
            → IsTracked tracked (trail reports report.now.vid) report.now) }
        ensures refused { OnErr result (self.new ≡ self.old) }
        ensures first { OnErr result (lookup (nat_eq report.now.vid) self.old ≡ None) }
    {
        let sighting = self.sight(report);
        self.keep(report, &sighting)?;
        Ok(sighting.tracked)
    }
}
