// Which tuples of a day are let in.
ghost use Rattle.std.specs.Prelude.{◌≡◌, ◌≤◌, ◌+◌, ◌++◌, ◌∷◌, [], ℕ, List, OnOk, OnErr, Some, None, nat_eq, is_some};
ghost use Rattle.std.specs.Prelude.{length, if◌then◌else◌};
ghost use Rattle.road_time.specs.declared.road.Tuple.{Tuple as TupleValue};
ghost use Rattle.road_time.specs.declared.day.Limits.{Limits as LimitsValue};
ghost use Rattle.road_time.specs.Reads.{admit_fault};
ghost use Rattle.tuples_text.specs.Gates.{StandsFor, Judges, kept_of, kept_fault, noted_of};

use crate::cause::Cause;
use crate::recent::Recent;
use indexmap::IndexMap;
use road_time::{Limits, Tuple, UsualOrder, find, minute};
use std::alloc::Global;
use std::marker::Model;
use thiserror::Error;

/// Why a tuple is not let in.
#[derive(Clone, Copy, Debug, PartialEq, Eq, Error)]
pub enum AdmitFault {
    /// It comes too late, or is a report too many.
    #[error("refused: {0}")]
    Refused(Cause),
    /// Memory ran out.
    #[error("no memory")]
    NoMemory,
}

/// Lets in the tuples of a day, in the order of their lines, which may come late by up to so many seconds.
#[derive(Drop)]
pub struct Gatekeeper {
    vehicle_limit: u32,
    lateness: u8,
    greatest: u32,
    seen: IndexMap<u32, Recent>,
    order: UsualOrder,
}

impl Model for Gatekeeper {
    ghost use Rattle.tuples_text.specs.Gates.{GateState};

    ghost Value = { GateState };

    ghost view = { λ g. record {
      vehicle_limit = g.vehicle_limit;
      lateness = g.lateness;
      greatest = g.greatest;
      seen = g.seen.entries;
    } };
}

/// Notes a report of a vehicle, unless it is a report too many.
#[inline(always)]
fn note(
    seen: &mut IndexMap<u32, Recent>,
    order: &mut UsualOrder,
    vid: u32,
    minute: u32,
    limit: u32,
) -> Result<(), AdmitFault>
    ensures judged { Judges result
        (kept_fault (kept_of seen.old.entries vid) (length seen.old.entries) limit vid minute) }
    ensures noted { OnOk result ((v : ℕ)
        → kept_of seen.new.entries v
        ≡ (if nat_eq vid v then Some (noted_of (kept_of seen.old.entries vid) minute)
        else kept_of seen.old.entries v)) }
    ensures number { OnOk result (length seen.new.entries
        ≡ length seen.old.entries + (if is_some (kept_of seen.old.entries vid) then 0 else 1)) }
    ensures kept { OnErr result (seen.new.entries ≡ seen.old.entries) }
{
    match find(seen, order.guess(), vid) {
        Some(at) => {
            order.follow(at);
            let (_, recent) = seen.pair_mut(at);
            let before = *recent;
            let count = before.count(minute);
            if count > 3 {
                return Err(AdmitFault::Refused(Cause::TooOften(vid, minute)));
            }
            *recent = before.noted(minute);
            Ok(())
        }
        None => {
            let at = seen.len();
            if at >= limit as usize {
                return Err(AdmitFault::Refused(Cause::Vehicles(limit)));
            }
            if seen.insert(vid, Recent::first(minute)).is_err() {
                return Err(AdmitFault::NoMemory);
            }
            order.follow(at);
            Ok(())
        }
    }
}

impl Gatekeeper {
    /// No tuple is let in yet. The lateness is in seconds.
    pub fn new(alloc: Global, limits: &Limits, late: u8) -> Self
        requires { late ≤ 120 }
        ensures { StandsFor result limits.now late [] }
    {
        Gatekeeper {
            vehicle_limit: limits.vehicles,
            lateness: late,
            greatest: 0,
            seen: IndexMap::new(alloc),
            order: UsualOrder::new(alloc),
        }
    }

    /// Lets the next tuple in, or says why not; then nothing is changed.
    pub fn admit(&mut self, tuple: &Tuple) -> Result<(), AdmitFault>
        ensures judged { (limits : LimitsValue) → (late : ℕ) → (before : List TupleValue)
            → StandsFor self.old limits late before → Judges result (admit_fault limits late before tuple.now) }
        ensures admitted { OnOk result ((limits : LimitsValue) → (late : ℕ) → (before : List TupleValue)
            → StandsFor self.old limits late before → StandsFor self.new limits late (before ++ tuple.now ∷ [])) }
        ensures kept { OnErr result (self.new ≡ self.old) }
    {
        let time = tuple.time();
        if u64::from(time) + u64::from(self.lateness) < u64::from(self.greatest) {
            return Err(AdmitFault::Refused(Cause::Late(self.greatest, time)));
        }
        if let Tuple::Report(report) = tuple {
            note(
                &mut self.seen,
                &mut self.order,
                report.vid,
                minute(time),
                self.vehicle_limit,
            )?;
        }
        self.greatest = self.greatest.max(time);
        Ok(())
    }
}
