// Who stands where, and which stretches stood, at the current second.
ghost use Rattle.std.specs.Prelude.{◌≡◌, ◌≤◌, ◌-◌, ◌++◌, ◌∷◌, [], List, true, false, OnOk, OnErr};
ghost use Rattle.road_time.specs.Clock.{minute_of};
ghost use Rattle.road_time.specs.Stops.{stood, near};
ghost use Rattle.road_time.specs.Entries.{StopEntry, standing_at};
ghost use Rattle.ways_expressway.specs.KeptAccidents.{has_stopped};
ghost use Rattle.ways_expressway.specs.Near.{stood_in, near_in};
ghost use Rattle.ways_expressway.specs.AccidentsStand.{StandsFor};
ghost use Rattle.road_time.specs.declared.road.Stretch.{Stretch as StretchValue};

use crate::places::{Stopped, count_at, one_less};
use crate::recent::{begin_if, end_if, spell_at};
use crate::spell::{Spell, stood_before};
use indexmap::{IndexMap, IndexSet};
use road_time::{NoMemory, Place, Stretch, downstream};
use std::alloc::Global;
use std::marker::Model;

/// Who stands where, and what is kept of the stretches, at the current second.
/// Contracts see it as that second and three finite maps: who stands, how many stand at each place, and the accidents
/// of each stretch.
#[derive(Drop)]
pub struct Stops {
    second: u32,
    standing: IndexSet<Stopped>,
    counts: IndexMap<Place, u32>,
    spells: IndexMap<Stretch, Spell>,
}

impl Model for Stops {
    ghost use Rattle.ways_expressway.specs.KeptAccidents.{KeptStops};

    ghost Value = { KeptStops };

    ghost view = { λ s. record {
      second = s.second;
      standing = s.standing.keys;
      counts = s.counts.entries;
      spells = s.spells.entries;
    } };
}

impl Stops {
    /// At second 0 nobody stands.
    pub fn new(alloc: Global) -> Self
        ensures start { result ≡ record { second = 0; standing = []; counts = []; spells = [] } }
        ensures stands { StandsFor result [] }
    {
        Stops {
            second: 0,
            standing: IndexSet::new(alloc),
            counts: IndexMap::new(alloc),
            spells: IndexMap::new(alloc),
        }
    }

    /// The current second of the day.
    pub fn second(&self) -> u32
        ensures { result ≡ self.now.second }
    {
        self.second
    }

    /// The vehicle stands at the place from the current second on. Where it stands there already nothing changes.
    pub fn stop(&mut self, place: Place, vid: u32) -> Result<(), NoMemory>
        ensures second { self.new.second ≡ self.old.second }
        ensures stopped { OnOk result ((entries : List StopEntry) → StandsFor self.old entries
            → StandsFor self.new (entries
            ++ record { second = self.old.second; vid = vid; place = place; stops = true } ∷ [])) }
        ensures idle { has_stopped self.old.standing place vid ≡ true → self.new ≡ self.old }
        ensures refused { OnErr result (self.new ≡ self.old) }
        ensures new { OnErr result (has_stopped self.old.standing place vid ≡ false) }
        ensures last { (k : StretchValue) → stood_in self.new k ≡ stood_in self.old k }
    {
        let stopped = Stopped { vid, place };
        if self.standing.contains(&stopped) {
            return Ok(());
        }
        let count = count_at(&self.counts, place);
        let more = count.checked_add(1).ok_or(NoMemory)?;
        self.standing.reserve(1)?;
        self.counts.reserve(1)?;
        begin_if(&mut self.spells, count == 1, place.stretch(), self.second)?;
        self.counts.insert(place, more)?;
        self.standing.insert(stopped)?;
        Ok(())
    }

    /// The vehicle stands at the place no more. Where it does not stand there nothing changes.
    pub fn leave(&mut self, place: Place, vid: u32)
        ensures second { self.new.second ≡ self.old.second }
        ensures left { (entries : List StopEntry) → StandsFor self.old entries
            → StandsFor self.new (entries
            ++ record { second = self.old.second; vid = vid; place = place; stops = false } ∷ []) }
        ensures idle { has_stopped self.old.standing place vid ≡ false → self.new ≡ self.old }
        ensures last { (k : StretchValue) → stood_in self.new k ≡ stood_in self.old k }
    {
        let stopped = Stopped { vid, place };
        if self.standing.swap_remove(&stopped) {
            let count = count_at(&self.counts, place);
            one_less(&mut self.counts, place);
            end_if(&mut self.spells, count == 2, place.stretch(), self.second);
        }
    }

    /// Closes the seconds before this one, and the minutes with them.
    pub fn advance(&mut self, second: u32)
        requires { self.old.second ≤ second }
        ensures second { self.new ≡ record self.old { second = second } }
        ensures kept { (entries : List StopEntry) → StandsFor self.old entries → StandsFor self.new entries }
    {
        self.second = second;
    }

    /// Whether an accident stood in the stretch in the minute before the current one.
    pub fn stood_last_minute(&self, stretch: Stretch) -> bool
        ensures exact { (entries : List StopEntry) → StandsFor self.now entries
            → result ≡ stood (standing_at entries) (minute_of self.now.second - 1) stretch }
        ensures kept { result ≡ stood_in self.now stretch }
    {
        stood_before(spell_at(&self.spells, stretch), self.second)
    }

    /// The segment of the nearest accident ahead that stood in the minute before the current one.
    pub fn nearest(&self, stretch: Stretch) -> Option<u8>
        requires segment { stretch.seg ≤ 99 }
        requires direction { stretch.dir ≤ 1 }
        ensures exact { (entries : List StopEntry) → StandsFor self.now entries
            → result ≡ near (standing_at entries) (minute_of self.now.second) stretch }
        ensures kept { result ≡ near_in self.now stretch }
    {
        for i in 0..5u8 {
            if let Some(seg) = downstream(stretch.seg, stretch.dir, i) {
                if self.stood_last_minute(Stretch { seg, ..stretch }) {
                    return Some(seg);
                }
            }
        }
        None
    }
}
