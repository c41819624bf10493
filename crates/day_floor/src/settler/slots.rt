// One position is settled.
ghost use Rattle.std.specs.Prelude.{◌≡◌, ◌<◌, ◌≤◌, ◌+◌, ◌^◌, ◌++◌, List, map, OnOk};
ghost use Rattle.day_floor.specs.Operations.{charge_of};
ghost use Rattle.road_time.specs.declared.tariff.TheConstants.{GREATEST_TOLL};
ghost use Rattle.road_time.specs.declared.road.Notice.{Notice as NoticeValue};
ghost use Rattle.day_floor.specs.Answers.{IsSaid, history_of};
ghost use Rattle.day_floor.specs.SettlingBooks.{CanSettle, charges_in, book_after};
ghost use Rattle.day_floor.specs.Faults.{SinkFaults, KeeperFaults};
ghost use Rattle.day_floor.specs.SettlingRuns.{SettlesSlot, is_digested};

use super::Settler;
use crate::due_slot::{Due, Slot};
use crate::fault::SettleFault;
use crate::paying::paid_on;
use keep_office::Keeper;
use road_io::Sink;
use road_time::Notice;
use std::thread::Threads;

impl Settler {
    /// Settles a position: it books, tells and answers as the slot says.
    pub(super) fn settle_slot<R: Threads, K: Keeper, O: Sink>(
        &mut self,
        rt: &R,
        slot: Slot,
        number: u32,
        keeper: &mut K,
        sink: &mut O,
    ) -> Result<(), SettleFault>
        requires told { CanSettle slot.due self.old.book }
        requires few { self.old.book.made < 16000000 }
        requires toll { slot.found.toll ≤ GREATEST_TOLL }
        requires count { self.old.printer.notices + 2 < 2 ^ 64 }
        ensures booked { OnOk result (self.new.book ≡ book_after slot.due slot.found.toll self.old.book) }
        ensures listed { OnOk result (map charge_of self.new.charges.items
            ≡ map charge_of self.old.charges.items ++ charges_in slot.due self.old.book) }
        ensures says { (told : List NoticeValue)
            × IsSaid (history_of (K.told keeper.old)) number slot.due slot.found self.old.book told
            × SettlesSlot result slot.due self.old.printer self.new.printer (O.written sink.old, O.room sink.old)
            (O.written sink.new, O.room sink.new) (K.plan keeper.old) (K.plan keeper.new) told }
        ensures settled { self.new.settled ≡ self.old.settled }
        ensures same { K.told keeper.new ≡ K.told keeper.old }
        ensures sink { SinkFaults (O.faults sink.old) (O.faults sink.new) (O.room sink.old) (O.room sink.new) result }
        ensures keeper { KeeperFaults (K.faults keeper.old) (K.faults keeper.new) (K.plan keeper.old)
            (K.plan keeper.new) result }
        ensures digested { is_digested self.new ≡ is_digested self.old }
    {
        match slot.due {
            Due::Nothing => Ok(()),
            Due::Report {
                time,
                vid,
                charge,
                told,
            } => self.settle_report(rt, time, vid, charge, told, slot.found, sink),
            Due::Balance { time, vid, qid } => {
                let amount = self.book.balance(vid);
                self.printer
                    .put(rt, &Notice::Balance { time, qid, amount }, sink)
            }
            Due::Spent {
                time,
                vid,
                xway,
                qid,
                day,
            } => match paid_on(keeper, number.saturating_sub(u32::from(day)), vid, xway) {
                Ok(amount) => self
                    .printer
                    .put(rt, &Notice::Spent { time, qid, amount }, sink),
                Err(fault) => Err(fault),
            },
        }
    }
}
