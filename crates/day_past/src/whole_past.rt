// A history, read whole.
ghost use Rattle.std.specs.Prelude.{◌≡◌, ℕ, List, Some, Err, IfOk, IfErr, ◌≤◌};
ghost use Rattle.road_io.specs.Blame.{FaultsByPlan};
ghost use Rattle.keep_office.specs.Kept.{IsPastPut};
ghost use Rattle.road_io.specs.Within.{ReadsWithin};
ghost use Rattle.day_past.specs.Readings.{ReadsPast, StopsSoonAt};
ghost use Rattle.day_past.specs.Imports.{most_past};
ghost use Rattle.day_past.specs.declared.judging.PastStop.TheVariants.{ReadFault};

use crate::history::History;
use crate::judging::PastStop;
use crate::past_reader::PastReader;
use road_io::Source;
use road_time::Limits;
use std::alloc::Global;
use std::thread::Threads;

/// Reads a history to its end or to the first line that is refused. Its days are counted back from a base.
pub fn read_past<S: Source, R: Threads>(
    rt: &R,
    alloc: Global,
    base: u32,
    limits: &Limits,
    source: &mut S,
) -> Result<History, PastStop>
    requires based { 70 ≤ base }
    ensures reads { (bytes : List ℕ) → S.left source.old ≡ Some bytes
        → ReadsPast result base limits.now (S.left source.new) bytes }
    ensures soon { IfErr result (λ stop. (bytes : List ℕ) → S.left source.old ≡ Some bytes
        → StopsSoonAt stop bytes (S.left source.new)) }
    ensures fits { IfOk result (λ h. IsPastPut h.past h.rows.items) }
    ensures based { IfOk result (λ h. h.past.base ≡ base) }
    ensures bounded { ReadsWithin (most_past limits.now) (S.left source.old) (S.left source.new) }
    ensures same { S.name source.new ≡ S.name source.old }
    ensures source { FaultsByPlan (S.faults source.old) (S.faults source.new) (S.plan source.old)
        (result ≡ Err ReadFault) }
{
    let Ok(mut reader) = PastReader::new(alloc) else {
        return Err(PastStop::NoMemory);
    };
    if let Some(stop) = reader.read_all(rt, base, limits.past, source) {
        reader.close(rt);
        return Err(stop);
    }
    reader.kept(rt, base)
}
