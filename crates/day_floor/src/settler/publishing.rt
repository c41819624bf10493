// A run's charges are published, and positions are settled.
ghost use Rattle.std.specs.Prelude.{◌≡◌, ◌≤◌, ◌<◌, ◌+◌, ◌^◌, ◌++◌, ℕ, [], List, false, OnOk, IfOk, IfErr, take, drop};
ghost use Rattle.std.specs.Prelude.{length, map};
ghost use Rattle.road_time.specs.declared.road.Tuple.{Tuple};
ghost use Rattle.road_time.specs.Sights.{Sight, moments_after};
ghost use Rattle.road_time.specs.Tolls.{StretchTold};
ghost use Rattle.road_time.specs.Day.{charges_by, sum_of};
ghost use Rattle.day_floor.specs.Operations.{charge_of};
ghost use Rattle.day_floor.specs.Sums.{total_in};
ghost use Rattle.day_floor.specs.Answers.{history_of};
ghost use Rattle.day_floor.specs.SettlingBoards.{IsAbreast, PublishesStep};
ghost use Rattle.day_floor.specs.Faults.{SinkFaults, KeeperFaults, write_failed, keeper_failed};
ghost use Rattle.day_floor.specs.SettlingRuns.{StandsFor, Waits, WritesRun, WritesSomeOfRun, TakesRun, StopsRun};
ghost use Rattle.day_floor.specs.SettlingRuns.{is_digested};

use super::Settler;
use crate::due_slot::Slot;
use crate::fault::SettleFault;
use crate::publisher::Publisher;
use keep_office::Keeper;
use road_io::Sink;
use std::collections::VecDeque;
use std::thread::Threads;

impl Settler {
    /// Publishes the listed charges with the new mark, if any position was settled.
    fn publish<P: Publisher>(&mut self, count: u32, publisher: &mut P) -> Result<(), SettleFault>
        requires abreast { (total : ℕ) × IsAbreast (P.posted publisher.old) total
            × (total + sum_of (map charge_of self.old.charges.items) ≡ total_in self.old.book.spent) }
        requires few { total_in self.old.book.spent < 2 ^ 63 }
        requires idle { count ≡ 0 → self.old.charges.items ≡ [] }
        ensures published { PublishesStep result count (map charge_of self.old.charges.items) self.old.settled
            (P.posted publisher.old) (P.posted publisher.new) }
        ensures abreast { OnOk result (IsAbreast (P.posted publisher.new) (total_in self.old.book.spent)) }
        ensures which { P.which publisher.new ≡ P.which publisher.old }
        ensures listed { OnOk result (self.new.charges.items ≡ []) }
        ensures book { self.new.book ≡ self.old.book }
        ensures printer { self.new.printer ≡ self.old.printer }
        ensures settled { self.new.settled ≡ self.old.settled }
        ensures write { write_failed result ≡ false }
        ensures keeper { keeper_failed result ≡ false }
    {
        if count == 0 {
            return Ok(());
        }
        match publisher.publish(self.charges.as_slice(), self.settled) {
            Ok(()) => {
                self.charges.clear();
                Ok(())
            }
            Err(_) => Err(SettleFault::NoMemory),
        }
    }

    /// Settles the first positions that wait, so many, in order: it books, writes all of their notices and answers,
    /// publishes the charges with the new mark, and answers how many positions are settled so far. After a refusal some
    /// first bytes of their text were written, no step was published, and the settler serves no more.
    pub fn settle<R: Threads, K: Keeper, O: Sink, P: Publisher>(
        &mut self,
        rt: &R,
        count: u32,
        slots: &mut VecDeque<Slot>,
        number: u32,
        keeper: &mut K,
        sink: &mut O,
        publisher: &mut P,
    ) -> Result<u64, SettleFault>
        requires waits { (finding : Sight → StretchTold) × (before : List Tuple) × (rest : List Tuple)
            × StandsFor self.old finding number (history_of (K.told keeper.old)) before
            × Waits slots.old.items finding before rest × (count ≤ length rest) }
        requires abreast { IsAbreast (P.posted publisher.old) (total_in self.old.book.spent) }
        ensures settled { IfOk result (λ n. (finding : Sight → StretchTold) (before rest : List Tuple)
            → StandsFor self.old finding number (history_of (K.told keeper.old)) before
            → Waits slots.old.items finding before rest → count ≤ length rest
            → (n ≡ length before + count)
            × StandsFor self.new finding number (history_of (K.told keeper.new)) (before ++ take count rest)
            × Waits slots.new.items finding (before ++ take count rest) (drop count rest)) }
        ensures wrote { OnOk result ((finding : Sight → StretchTold) (before rest : List Tuple)
            → StandsFor self.old finding number (history_of (K.told keeper.old)) before
            → Waits slots.old.items finding before rest → count ≤ length rest
            → WritesRun finding number (history_of (K.told keeper.old)) before (take count rest) (O.written sink.old)
            (O.written sink.new)) }
        ensures stopped { IfErr result (λ fault. (finding : Sight → StretchTold) (before rest : List Tuple)
            → StandsFor self.old finding number (history_of (K.told keeper.old)) before
            → Waits slots.old.items finding before rest → count ≤ length rest
            → WritesSomeOfRun fault finding number (history_of (K.told keeper.old)) before (take count rest)
            (O.written sink.old) (O.written sink.new)) }
        ensures took { OnOk result ((finding : Sight → StretchTold) (before rest : List Tuple)
            → StandsFor self.old finding number (history_of (K.told keeper.old)) before
            → Waits slots.old.items finding before rest → count ≤ length rest
            → TakesRun finding number (history_of (K.told keeper.old)) before (take count rest)
            (O.written sink.old, O.room sink.old) (O.written sink.new, O.room sink.new) (K.plan keeper.old)
            (K.plan keeper.new)) }
        ensures where_stopped { IfErr result
            (λ fault. (finding : Sight → StretchTold) (before rest : List Tuple)
            → StandsFor self.old finding number (history_of (K.told keeper.old)) before
            → Waits slots.old.items finding before rest → count ≤ length rest
            → StopsRun fault finding number (history_of (K.told keeper.old)) before (take count rest)
            (O.written sink.old, O.room sink.old) (O.written sink.new, O.room sink.new) (K.plan keeper.old)
            (K.plan keeper.new)) }
        ensures published { (finding : Sight → StretchTold) (before rest : List Tuple)
            → StandsFor self.old finding number (history_of (K.told keeper.old)) before
            → Waits slots.old.items finding before rest → count ≤ length rest
            → PublishesStep result count (charges_by finding (moments_after before (take count rest)))
            (length before + count) (P.posted publisher.old) (P.posted publisher.new) }
        ensures abreast { OnOk result (IsAbreast (P.posted publisher.new) (total_in self.new.book.spent)) }
        ensures which { P.which publisher.new ≡ P.which publisher.old }
        ensures same { K.told keeper.new ≡ K.told keeper.old }
        ensures sink { SinkFaults (O.faults sink.old) (O.faults sink.new) (O.room sink.old) (O.room sink.new) result }
        ensures keeper { KeeperFaults (K.faults keeper.old) (K.faults keeper.new) (K.plan keeper.old)
            (K.plan keeper.new) result }
        ensures digested { is_digested self.new ≡ is_digested self.old }
    {
        if let Err(fault) = self.write_run(rt, count, slots, number, keeper, sink) {
            return Err(fault);
        }
        if let Err(fault) = self.publish(count, publisher) {
            return Err(fault);
        }
        Ok(self.settled)
    }
}
