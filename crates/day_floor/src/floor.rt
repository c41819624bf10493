// The floor: it hands a day's events to workers, and takes their findings back in any order.
ghost use Rattle.std.specs.Prelude.{◌≡◌, ◌+◌, ◌-◌, ◌≤◌, ◌<◌, ℕ, IfErr, length, map, OnOk, OnErr, IsOk, IfOk, IfSome};
ghost use Rattle.std.specs.Prelude.{IfNone, false, is_some};
ghost use Rattle.ways_expressway.specs.Findings.{shown};
ghost use Rattle.day_floor.specs.Terms.{AreTerms};
ghost use Rattle.day_floor.specs.Shares.{State, start, can_give, mark};
ghost use Rattle.day_floor.specs.Steps.{after_feed, after_give, after_back, after_settle};
ghost use Rattle.day_floor.specs.Sound.{CanFeed};
ghost use Rattle.day_floor.specs.Jobs.{IsNext, MayComeBack};
ghost use Rattle.day_floor.specs.Floors.{Setting, width_of, limits_of, StandsFor, StandsForSome, WritesText};
ghost use Rattle.day_floor.specs.Floors.{WritesSomeSettled, TakesSettled, StopsSettling};
ghost use Rattle.day_floor.specs.Answers.{PaidHistory, history_of};
ghost use Rattle.day_floor.specs.SettlingBoards.{IsAbreast, PublishesStep};
ghost use Rattle.day_floor.specs.Closes.{IsClosed};
ghost use Rattle.road_time.specs.Day.{given, sum_of};
ghost use Rattle.day_floor.specs.Faults.{SinkFaults, KeeperFaults};
ghost use Rattle.day_floor.specs.Written.{charged_to, settled_charges};

use crate::due_slot::{Found, Slot};
use crate::fault::SettleFault;
use crate::homes::{bring_home, make_homes, take_home};
use crate::inboxes::Inboxes;
use crate::publisher::Publisher;
use crate::settler::{Closed, Settler};
use crate::slots::fill;
use keep_office::Keeper;
use road_io::Sink;
use road_time::{Limits, NoMemory, Tariffs, Tuple};
use std::alloc::Global;
use std::collections::VecDeque;
use std::thread::Threads;
use ways_expressway::{Carriage, Done, Events, Job};

/// The tuples that wait to be settled, with what was found for them, and what each worker has of the day. It cannot be
/// dropped: `close` and `leave` end it, once no thread has a part of its text.
pub struct Floor {
    pub(crate) alloc: Global,
    pub(crate) limits: Limits,
    pub(crate) inboxes: Inboxes,
    pub(crate) homes: Vec<Option<Carriage>>,
    pub(crate) slots: VecDeque<Slot>,
    pub(crate) settler: Settler,
    pub(crate) settled: u32,
    pub(crate) given: u32,
}

impl Floor {
    /// A floor of so many workers, 1 to 64, under these limits and tariffs. Nothing was fed. It asks of the limits a
    /// backlog of at least one, and no more lines, vehicles and backlog than the greatest day's. The digest of its text
    /// is taken where it is asked. The one error is want of memory.
    pub fn new(
        alloc: Global,
        width: u8,
        limits: &Limits,
        tariffs: &Tariffs,
        digested: bool,
    ) -> Result<Floor, NoMemory>
        requires { AreTerms width limits.now }
        ensures stands { IfOk result (λ floor. (number : ℕ) (history : PaidHistory)
            → StandsFor (record {
              tariffs = tariffs.now;
              number = number;
              history = history;
              digested = digested;
            }) floor start) }
        ensures width { IfOk result (λ floor. width_of floor ≡ width) }
        ensures limits { IfOk result (λ floor. limits_of floor ≡ limits.now) }
    {
        let inboxes = Inboxes::new(alloc, width)?;
        let homes = make_homes(alloc, width, tariffs)?;
        Ok(Floor {
            alloc,
            limits: *limits,
            inboxes,
            homes,
            slots: VecDeque::new(alloc),
            settler: Settler::new(alloc, digested),
            settled: 0,
            given: 0,
        })
    }

    /// How many tuples were fed and are not settled.
    pub fn pending(&self) -> u32
        requires { StandsForSome self.now }
        ensures { (g : Setting) (s : State) → StandsFor g self.now s → s.settled + result ≡ length s.fed }
    {
        self.slots.len() as u32
    }

    /// How many more may be fed before any is settled.
    pub fn room(&self) -> u32
        requires { StandsForSome self.now }
        ensures { (g : Setting) (s : State) → StandsFor g self.now s
            → length s.fed + result ≡ s.settled + (limits_of self.now).backlog }
    {
        self.limits.backlog - self.pending()
    }

    /// How many tuples were fed.
    fn fed(&self) -> u32
        requires { StandsForSome self.now }
        ensures { (g : Setting) (s : State) → StandsFor g self.now s → result ≡ length s.fed }
    {
        self.settled + self.pending()
    }

    /// Gives a tuple the next position. The one error is want of memory, and then nothing has changed.
    pub fn feed(&mut self, tuple: Tuple) -> Result<(), NoMemory>
        requires { (g : Setting) × (s : State) × StandsFor g self.old s × CanFeed (limits_of self.old) s tuple }
        ensures width { width_of self.new ≡ width_of self.old }
        ensures limits { limits_of self.new ≡ limits_of self.old }
        ensures fed { OnOk result ((g : Setting) (s : State) → StandsFor g self.old s
            → CanFeed (limits_of self.old) s tuple → StandsFor g self.new (after_feed (width_of self.old) s tuple)) }
        ensures refused { OnErr result ((g : Setting) (s : State) → StandsFor g self.old s → StandsFor g self.new s) }
    {
        self.slots.reserve(1)?;
        let position = self.fed();
        let due = self.inboxes.feed(position, &tuple)?;
        let slot = Slot {
            due,
            found: Found::none_yet(),
        };
        if self.slots.push_back(slot).is_err() {}
        Ok(())
    }

    /// Moves a worker's carriage and its events that wait out as a job; none where a job of its is out or no event
    /// waits.
    pub fn give(&mut self, worker: u8) -> Option<Job>
        requires within { worker < width_of self.old }
        requires serves { StandsForSome self.old }
        ensures width { width_of self.new ≡ width_of self.old }
        ensures limits { limits_of self.new ≡ limits_of self.old }
        ensures none { IfNone result ((g : Setting) (s : State) → StandsFor g self.old s
            → (can_give (s.share worker) ≡ false) × StandsFor g self.new s) }
        ensures some { IfSome result (λ job. (g : Setting) (s : State) → StandsFor g self.old s
            → IsNext g.tariffs s worker job × StandsFor g self.new (after_give s worker)) }
    {
        let Some(events) = self.inboxes.give(self.alloc, worker) else {
            return None;
        };
        match take_home(&mut self.homes, worker) {
            None => None,
            Some(carriage) => {
                let number = self.given;
                self.given += 1;
                Some(Job {
                    worker,
                    number,
                    carriage,
                    events: Events::from_vec(events),
                })
            }
        }
    }

    /// Takes what was done of a worker's job back. The room for it is there, so that it is never refused.
    pub fn back(&mut self, done: Done) -> Result<(), NoMemory>
        requires { (g : Setting) × (s : State) × StandsFor g self.old s
            × MayComeBack g.tariffs (width_of self.old) s done }
        ensures width { width_of self.new ≡ width_of self.old }
        ensures limits { limits_of self.new ≡ limits_of self.old }
        ensures taken { IsOk result }
        ensures back { OnOk result ((g : Setting) (s : State) → StandsFor g self.old s
            → MayComeBack g.tariffs (width_of self.old) s done
            → StandsFor g self.new (after_back s done.worker (map shown done.findings))) }
    {
        let Done {
            worker,
            carriage,
            findings,
            ..
        } = done;
        fill(&mut self.slots, self.settled, findings.items());
        self.inboxes.back(worker);
        bring_home(&mut self.homes, worker, carriage);
        Ok(())
    }

    /// The least, over the workers, of the position of the first event that is not back, and the number of tuples fed.
    pub fn mark(&self) -> u64
        requires { StandsForSome self.now }
        ensures { (g : Setting) (s : State) → StandsFor g self.now s → result ≡ mark (width_of self.now) s }
    {
        u64::from(self.inboxes.least(self.fed()))
    }

    /// Settles, in order, every position below the mark: it books, writes the notices and answers, publishes the
    /// charges with the new mark, and answers how many positions are settled so far. After a refusal some first bytes
    /// of the text were written, no step was published, and the floor serves no more.
    pub fn settle<R: Threads, K: Keeper, O: Sink, P: Publisher>(
        &mut self,
        rt: &R,
        day: u32,
        keeper: &mut K,
        sink: &mut O,
        publisher: &mut P,
    ) -> Result<u64, SettleFault>
        requires { (g : Setting) × (s : State) × StandsFor g self.old s × (g.number ≡ day)
            × (g.history ≡ history_of (K.told keeper.old))
            × IsAbreast (P.posted publisher.old) (sum_of (settled_charges s)) }
        ensures width { width_of self.new ≡ width_of self.old }
        ensures limits { limits_of self.new ≡ limits_of self.old }
        ensures settled { IfOk result (λ n. (g : Setting) (s : State) → StandsFor g self.old s → g.number ≡ day
            → g.history ≡ history_of (K.told keeper.old)
            → (n ≡ mark (width_of self.old) s) × StandsFor g self.new (after_settle s n)) }
        ensures wrote { IfOk result (λ n. (g : Setting) (s : State) → StandsFor g self.old s → g.number ≡ day
            → g.history ≡ history_of (K.told keeper.old) → WritesText g s n (O.written sink.old) (O.written sink.new)) }
        ensures stopped { IfErr result (λ fault. (g : Setting) (s : State) → StandsFor g self.old s → g.number ≡ day
            → g.history ≡ history_of (K.told keeper.old)
            → WritesSomeSettled fault g s (mark (width_of self.old) s) (O.written sink.old) (O.written sink.new)) }
        ensures took { IfOk result (λ n. (g : Setting) (s : State) → StandsFor g self.old s → g.number ≡ day
            → g.history ≡ history_of (K.told keeper.old)
            → TakesSettled g s n (O.written sink.old, O.room sink.old) (O.written sink.new, O.room sink.new)
            (K.plan keeper.old) (K.plan keeper.new)) }
        ensures where_stopped { IfErr result
            (λ fault. (g : Setting) (s : State) → StandsFor g self.old s → g.number ≡ day
            → g.history ≡ history_of (K.told keeper.old)
            → StopsSettling fault g s (mark (width_of self.old) s) (O.written sink.old, O.room sink.old)
            (O.written sink.new, O.room sink.new)
            (K.plan keeper.old) (K.plan keeper.new)) }
        ensures published { (g : Setting) (s : State) → StandsFor g self.old s → g.number ≡ day
            → g.history ≡ history_of (K.told keeper.old)
            → PublishesStep result (mark (width_of self.old) s - s.settled) (charged_to s (mark (width_of self.old) s))
            (mark (width_of self.old) s) (P.posted publisher.old) (P.posted publisher.new) }
        ensures abreast { IfOk result (λ n. (g : Setting) (s : State) → StandsFor g self.old s → g.number ≡ day
            → g.history ≡ history_of (K.told keeper.old)
            → IsAbreast (P.posted publisher.new) (sum_of (settled_charges (after_settle s n)))) }
        ensures which { P.which publisher.new ≡ P.which publisher.old }
        ensures same { K.told keeper.new ≡ K.told keeper.old }
        ensures sink { SinkFaults (O.faults sink.old) (O.faults sink.new) (O.room sink.old) (O.room sink.new) result }
        ensures keeper { KeeperFaults (K.faults keeper.old) (K.faults keeper.new) (K.plan keeper.old)
            (K.plan keeper.new) result }
    {
        let mark = self.inboxes.least(self.fed());
        let count = mark - self.settled;
        match self
            .settler
            .settle(rt, count, &mut self.slots, day, keeper, sink, publisher)
        {
            Err(fault) => Err(fault),
            Ok(settled) => {
                self.settled = mark;
                Ok(settled)
            }
        }
    }

    /// What is left of the day, under its number, where all tuples are settled. The one error is want of memory.
    pub fn close<R: Threads>(self, rt: &R, day: u32) -> Result<Closed, NoMemory>
        requires { (g : Setting) × (s : State) × StandsFor g self s × (s.settled ≡ length s.fed) }
        ensures closed { IfOk result (λ closed. (g : Setting) (s : State) → StandsFor g self s
            → s.settled ≡ length s.fed → IsClosed closed day (given s.found) g.number g.history s.fed) }
        ensures digested { IfOk result (λ closed. (g : Setting) (s : State) → StandsFor g self s
            → is_some closed.notices_digest ≡ g.digested) }
    {
        let Floor {
            alloc: _,
            limits: _,
            inboxes: _,
            homes: _,
            slots: _,
            settler,
            settled: _,
            given: _,
        } = self;
        settler.close(rt, day)
    }

    /// Leaves the floor, once no thread has a part of its text.
    pub fn leave<R: Threads>(self, rt: &R) {
        let Floor {
            alloc: _,
            limits: _,
            inboxes: _,
            homes: _,
            slots: _,
            settler,
            settled: _,
            given: _,
        } = self;
        settler.leave(rt);
    }
}
