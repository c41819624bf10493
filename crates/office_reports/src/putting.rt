// Writing a report's text.
ghost use Rattle.std.specs.Prelude.{◌≡◌, ◌≢◌, Err};
ghost use Rattle.road_io.specs.Blame.{FaultsByRoom};
ghost use Rattle.office_reports.specs.Endings.{WroteText};
ghost use Rattle.office_reports.specs.declared.report_fault.ReportFault.TheVariants.{WriteFault, NoDay, KeeperFault};
ghost use Rattle.office_reports.specs.declared.report_fault.ReportFault.TheVariants.{NoMemory};

use crate::report_fault::ReportFault;
use road_io::{Failed, Sink, put_all};

/// Writes a text.
pub(crate) fn put_text<O: Sink>(text: &[u8], sink: &mut O) -> Result<(), ReportFault>
    ensures wrote { WroteText result (O.written sink.old) (O.written sink.new) text.now }
    ensures own { (result ≢ Err NoDay) × (result ≢ Err KeeperFault) × (result ≢ Err NoMemory) }
    ensures sink { FaultsByRoom (O.faults sink.old) (O.faults sink.new) (O.room sink.old) (O.room sink.new)
        (result ≡ Err WriteFault) }
{
    match put_all(sink, text) {
        Ok(()) => Ok(()),
        Err(Failed) => Err(ReportFault::WriteFault),
    }
}
