// The accident log of a day: a line for each accident.
ghost use Rattle.std.specs.Prelude.{◌≡◌, ◌≢◌, ◌∷◌, [], ◌++◌, Err, IfOk};
ghost use Rattle.std.specs.String.{string_bytes};
ghost use Rattle.road_time.specs.Fits.{IsDay};
ghost use Rattle.road_time.specs.Log.{log_of};
ghost use Rattle.road_io.specs.Blame.{FaultsByRoom};
ghost use Rattle.office_reports.specs.AccidentLog.{last_number, mishap_text, log_text};
ghost use Rattle.office_reports.specs.Endings.{WroteText};
ghost use Rattle.office_reports.specs.declared.report_fault.ReportFault.TheVariants.{NoDay, KeeperFault, WriteFault};

use crate::putting::put_text;
use crate::report_fault::ReportFault;
use road_io::Sink;
use road_rules::plain_log;
use road_time::{Mishap, NoMemory, Tuple};
use std::alloc::Global;

/// The last second as a line has it: -1 where the accident stands at the end of the day.
fn last_second(to: Option<u32>) -> i64
    ensures { result ≡ last_number to }
{
    match to {
        Some(second) => i64::from(second),
        None => -1,
    }
}

/// The line of an accident: its first second, its last, and its place.
fn line_of(alloc: Global, mishap: &Mishap) -> Result<String, NoMemory>
    ensures { IfOk result (λ line. string_bytes line ≡ mishap_text mishap.now ++ 10 ∷ []) }
{
    let to = last_second(mishap.to);
    let place = mishap.place;
    let line = format!(in alloc;
        "{},{},{},{},{},{},{}\n",
        mishap.from, to, place.xway, place.dir, place.lane, place.seg, place.pos
    )?;
    Ok(line)
}

/// The lines of the accidents.
fn text_of(alloc: Global, mishaps: &[Mishap]) -> Result<Vec<u8>, NoMemory>
    ensures { IfOk result (λ text. text.items ≡ log_text mishaps.now) }
{
    let mut text = Vec::new(alloc);
    for mishap in mishaps {
        let line = line_of(alloc, mishap)?;
        text.extend_from_slice(line.as_bytes())?;
    }
    Ok(text)
}

/// The lines of the day's accidents.
fn text_for(alloc: Global, tuples: &[Tuple]) -> Result<Vec<u8>, NoMemory>
    requires { IsDay tuples.now }
    ensures { IfOk result (λ text. text.items ≡ log_text (log_of tuples.now)) }
{
    let log = plain_log(alloc, tuples)?;
    let text = text_of(alloc, log.as_slice())?;
    Ok(text)
}

/// Writes a line `FROM,TO,XWAY,DIR,LANE,SEG,POS` for each accident of the day: its first second, its last or -1 where
/// it stands at the end of the day, and its place. After a `WriteFault` a prefix was written, and not all; after another
/// fault nothing.
pub fn accident_log<O: Sink>(
    alloc: Global,
    tuples: &[Tuple],
    sink: &mut O,
) -> Result<(), ReportFault>
    requires { IsDay tuples.now }
    ensures wrote { WroteText result (O.written sink.old) (O.written sink.new) (log_text (log_of tuples.now)) }
    ensures own { (result ≢ Err NoDay) × (result ≢ Err KeeperFault) }
    ensures sink { FaultsByRoom (O.faults sink.old) (O.faults sink.new) (O.room sink.old) (O.room sink.new)
        (result ≡ Err WriteFault) }
{
    let text = match text_for(alloc, tuples) {
        Ok(text) => text,
        Err(NoMemory) => return Err(ReportFault::NoMemory),
    };
    put_text(text.as_slice(), sink)
}
