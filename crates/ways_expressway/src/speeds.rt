// The sliding averages of all stretches.
ghost use Rattle.std.specs.Prelude.{◌≡◌, ◌≤◌, ◌<◌, ◌+◌, ◌-◌, ◌*◌, ◌^◌, ◌++◌, ◌∷◌, [], ℕ, List, IfSome, OnOk, OnErr};
ghost use Rattle.road_time.specs.Notes.{Note, cars};
ghost use Rattle.road_time.specs.Lav.{lav};
ghost use Rattle.ways_expressway.specs.Parts.{flow_in, IsSmall};

use crate::this_minute::{Car, Sum, add, forget};
use crate::window::{Flow, Ring, grown, mean_average};
use indexmap::IndexMap;
use road_time::{Frac, NoMemory, Stretch};
use std::alloc::Global;
use std::collections::HashMap;
use std::marker::Model;

/// The sliding averages of the stretches, which stand for the notes so far and the current minute.
#[derive(Drop)]
pub struct Speeds {
    minute: u32,
    seen: HashMap<Car, Sum>,
    rings: IndexMap<Stretch, Ring>,
}

impl Model for Speeds {
    ghost use Rattle.ways_expressway.specs.KeptSpeeds.{KeptSpeeds};

    ghost Value = { KeptSpeeds };

    ghost use Rattle.ways_expressway.specs.Parts.{AreSmall};

    ghost view = { λ s. record { minute = s.minute; seen = s.seen.entries; rings = s.rings.entries } };

    ghost invariant = { λ s. AreSmall s.rings.entries };
}

impl Speeds {
    ghost use Rattle.ways_expressway.specs.SpeedsStand.{StandsFor, CanNote};
    ghost use Rattle.ways_expressway.specs.Past.{cars_in, lav_in};
    ghost use Rattle.road_time.specs.declared.road.Stretch.{Stretch as StretchValue};

    /// Minute 1, and nothing noted. It takes no memory.
    pub fn new(alloc: Global) -> Self
        ensures minute { result.minute ≡ 1 }
        ensures stands { StandsFor result [] }
    {
        Speeds {
            minute: 1,
            seen: HashMap::new(alloc),
            rings: IndexMap::new(alloc),
        }
    }

    /// Notes a report of the current minute: a vehicle's speed in miles per hour, at most 100. It asks that fewer
    /// than four notes of the vehicle are of this minute, and that the notes with this one are of at most 500,000
    /// vehicles. The one error is want of memory.
    pub fn note(&mut self, stretch: Stretch, vid: u32, spd: u8) -> Result<(), NoMemory>
        requires slow { spd ≤ 100 }
        requires one { (notes : List Note) × StandsFor self.old notes
            × CanNote notes (record { minute = self.old.minute; stretch = stretch; vid = vid; spd = spd }) }
        ensures minute { self.new.minute ≡ self.old.minute }
        ensures noted { OnOk result ((notes : List Note) → StandsFor self.old notes
            → CanNote notes (record { minute = self.old.minute; stretch = stretch; vid = vid; spd = spd })
            → StandsFor self.new (notes
            ++ record { minute = self.old.minute; stretch = stretch; vid = vid; spd = spd } ∷ [])) }
        ensures refused { OnErr result (self.new ≡ self.old) }
        ensures past { (k : StretchValue) (m : ℕ) → m < self.old.minute → self.old.minute < m + 6
            → flow_in self.new.rings k m ≡ flow_in self.old.rings k m }
    {
        let car = Car { stretch, vid };
        let minute = self.minute;
        match self.rings.get_mut(&stretch) {
            Some(ring) => {
                let before = add(&mut self.seen, car, spd)?;
                ring.put(minute, grown(ring.at(minute), before, spd));
                Ok(())
            }
            None => {
                self.rings.reserve(1)?;
                let before = add(&mut self.seen, car, spd)?;
                let mut ring = Ring::new();
                ring.put(minute, grown(Flow::NONE, before, spd));
                self.rings.insert(stretch, ring)?;
                Ok(())
            }
        }
    }

    /// Closes the minutes before this one, skipped ones too. It takes no memory.
    pub fn roll(&mut self, minute: u32)
        requires { self.old.minute ≤ minute }
        ensures minute { self.new.minute ≡ minute }
        ensures kept { (notes : List Note) → StandsFor self.old notes → StandsFor self.new notes }
        ensures same { self.old.minute ≡ minute → self.new ≡ self.old }
    {
        if minute == self.minute {
            return;
        }
        forget(&mut self.seen);
        self.minute = minute;
    }

    /// The flow of a stretch in a minute.
    #[inline(always)]
    fn flow(&self, stretch: Stretch, minute: u32) -> Flow
        ensures flow { result ≡ flow_in self.now.rings stretch minute }
        ensures small { IsSmall result }
    {
        match self.rings.get(&stretch) {
            Some(ring) => ring.at(minute),
            None => Flow::NONE,
        }
    }

    /// The cars of the stretch in the minute before.
    pub fn cars(&self, stretch: Stretch) -> u32
        ensures few { result ≤ 500000 }
        ensures exact { (notes : List Note) → StandsFor self.now notes
            → result ≡ cars notes (self.now.minute - 1) stretch }
        ensures kept { result ≡ cars_in self.now stretch }
    {
        self.flow(stretch, self.minute.saturating_sub(1)).cars
    }

    /// The average speed that tolls of the current minute go by, over the five minutes before it: none if they have
    /// no note. It is at most 100 miles per hour, and its denominator at most 2^101.
    pub fn lav(&self, stretch: Stretch) -> Option<Frac>
        ensures average { IfSome result (λ f. (1 ≤ f.den) × (f.den ≤ 2 ^ 101) × (f.num ≤ 100 * f.den)) }
        ensures exact { (notes : List Note) → StandsFor self.now notes → result ≡ lav notes self.now.minute stretch }
        ensures kept { result ≡ lav_in self.now stretch }
    {
        let ring = self.rings.get(&stretch)?;
        let flows = [
            ring.at(self.minute.saturating_sub(5)),
            ring.at(self.minute.saturating_sub(4)),
            ring.at(self.minute.saturating_sub(3)),
            ring.at(self.minute.saturating_sub(2)),
            ring.at(self.minute.saturating_sub(1)),
        ];
        mean_average(&flows)
    }
}
