// A report is charged, and then told.
ghost use Rattle.std.specs.Prelude.{◌≡◌, ◌<◌, ◌≤◌, ◌+◌, ◌^◌, ◌++◌, false, map, OnOk};
ghost use Rattle.road_time.specs.declared.tariff.TheConstants.{GREATEST_TOLL};
ghost use Rattle.day_floor.specs.Operations.{charge_of};
ghost use Rattle.day_floor.specs.Answers.{told_notices};
ghost use Rattle.day_floor.specs.SettlingBooks.{WasTold, charges_for, charged_with, told_with};
ghost use Rattle.day_floor.specs.Faults.{SinkFaults, keeper_failed};
ghost use Rattle.day_floor.specs.Printing.{Says};
ghost use Rattle.day_floor.specs.SettlingRuns.{is_digested};

use super::Settler;
use crate::booking::book_report;
use crate::due_slot::Found;
use crate::fault::SettleFault;
use crate::tracked::Charge;
use road_io::Sink;
use std::thread::Threads;

impl Settler {
    /// Writes what a report is told, if it is told.
    fn tell<R: Threads, O: Sink>(
        &mut self,
        rt: &R,
        time: u32,
        vid: u32,
        told: bool,
        found: Found,
        sink: &mut O,
    ) -> Result<(), SettleFault>
        requires toll { found.toll ≤ GREATEST_TOLL }
        requires count { self.old.printer.notices + 2 < 2 ^ 64 }
        ensures book { self.new.book ≡ self.old.book }
        ensures says { Says result self.old.printer self.new.printer (O.written sink.old, O.room sink.old)
            (O.written sink.new, O.room sink.new) (told_notices told time vid found) }
        ensures charges { self.new.charges ≡ self.old.charges }
        ensures settled { self.new.settled ≡ self.old.settled }
        ensures faults { SinkFaults (O.faults sink.old) (O.faults sink.new) (O.room sink.old) (O.room sink.new) result }
        ensures other { keeper_failed result ≡ false }
        ensures digested { is_digested self.new ≡ is_digested self.old }
    {
        if !told {
            return Ok(());
        }
        self.printer.put_told(rt, time, vid, found, sink)
    }

    /// Settles a report: the stay that it leaves is charged the toll that was told last, and only then it is told its
    /// own.
    pub(super) fn settle_report<R: Threads, O: Sink>(
        &mut self,
        rt: &R,
        time: u32,
        vid: u32,
        charge: Charge,
        told: bool,
        found: Found,
        sink: &mut O,
    ) -> Result<(), SettleFault>
        requires told { WasTold charge vid self.old.book }
        requires few { self.old.book.made < 16000000 }
        requires toll { found.toll ≤ GREATEST_TOLL }
        requires count { self.old.printer.notices + 2 < 2 ^ 64 }
        ensures booked { OnOk result (self.new.book
            ≡ told_with told vid found.toll (charged_with (charges_for charge vid self.old.book) self.old.book)) }
        ensures listed { OnOk result (map charge_of self.new.charges.items
            ≡ map charge_of self.old.charges.items ++ charges_for charge vid self.old.book) }
        ensures says { Says result self.old.printer self.new.printer (O.written sink.old, O.room sink.old)
            (O.written sink.new, O.room sink.new) (told_notices told time vid found) }
        ensures settled { self.new.settled ≡ self.old.settled }
        ensures faults { SinkFaults (O.faults sink.old) (O.faults sink.new) (O.room sink.old) (O.room sink.new) result }
        ensures other { keeper_failed result ≡ false }
        ensures digested { is_digested self.new ≡ is_digested self.old }
    {
        if book_report(
            &mut self.book,
            &mut self.charges,
            vid,
            charge,
            told,
            found.toll,
        )
        .is_err()
        {
            return Err(SettleFault::NoMemory);
        }
        self.tell(rt, time, vid, told, found, sink)
    }
}
