// Reading a history, line by line.
ghost use Rattle.std.specs.Prelude.{◌≡◌, ◌≤◌, ◌<◌, ◌+◌, ◌^◌, ℕ, List, Option, Some, None, Ok, Err, IfOk, IfErr};
ghost use Rattle.std.specs.Prelude.{IfSome, IfNone, true};
ghost use Rattle.road_time.specs.declared.day.Limits.{Limits as LimitsValue};
ghost use Rattle.road_io.specs.Blame.{FaultsByPlan};
ghost use Rattle.road_io.specs.Plans.{NeverFails};
ghost use Rattle.road_io.specs.Cutter.{line_number, fault_of};
ghost use Rattle.keep_office.specs.Kept.{IsPastPut};
ghost use Rattle.keep_office.specs.PastReads.{past_reads, past_kept, past_record};
ghost use Rattle.day_past.specs.Readings.{GathersRows, IsReadingPast, HasReadPastOf, EndsPast, Steps};
ghost use Rattle.day_past.specs.Readings.{EndsReadingPast, StopsPastAfter};
ghost use Rattle.day_past.specs.declared.judging.PastStop.TheVariants.{ReadFault, NoMemory as OutOfMemory};

use super::PastReader;
use crate::amounts::Amounts;
use crate::history::History;
use crate::judging::{PastStop, judge, refused};
use crate::outcomes::PastCause;
use day_reading::Consumed;
use keep_office::PastRecord;
use road_io::{LineCutter, LineFault, Source};
use road_time::NoMemory;
use std::alloc::Global;
use std::thread::Threads;

impl PastReader {
    /// A reader before the first line.
    pub fn new(alloc: Global) -> Result<PastReader, NoMemory>
        ensures reading { IfOk result (λ r. (base : ℕ) (limits : LimitsValue) (bytes : List ℕ)
            → IsReadingPast r base limits (Some bytes) bytes) }
        ensures gathers { IfOk result (λ r. (base : ℕ) → GathersRows r.amounts base) }
        ensures read { IfOk result (λ r. (bytes : List ℕ) → HasReadPastOf r (Some bytes) bytes) }
        ensures none { IfOk result (λ r. line_number r.cutter ≡ 0) }
        ensures unbroken { IfOk result (λ r. fault_of r.cutter ≡ None) }
    {
        let cutter = LineCutter::new(alloc)?;
        Ok(PastReader {
            cutter,
            consumed: Consumed::new(alloc, true),
            amounts: Amounts::new(alloc),
        })
    }

    /// Reads one line more, under a limit of lines; false where there is none.
    fn read_one<S: Source, R: Threads>(
        &mut self,
        rt: &R,
        base: u32,
        limit: u32,
        source: &mut S,
    ) -> Result<bool, PastStop>
        requires based { 70 ≤ base }
        requires few { line_number self.old.cutter ≤ limit }
        requires unbroken { fault_of self.old.cutter ≡ None }
        ensures steps { (limits : LimitsValue) (bytes : List ℕ) → limits.past ≡ limit
            → IsReadingPast self.old base limits (S.left source.old) bytes
            → Steps result self.new base limits (S.left source.new) bytes }
        ensures gathers { GathersRows self.old.amounts base → IfOk result (λ more. GathersRows self.new.amounts base) }
        ensures read { (bytes : List ℕ) → HasReadPastOf self.old (S.left source.old) bytes
            → HasReadPastOf self.new (S.left source.new) bytes }
        ensures bounded { line_number self.new.cutter ≤ limit + 1 }
        ensures after { IfErr result (λ stop. StopsPastAfter stop (line_number self.new.cutter)) }
        ensures next { result ≡ Ok true → line_number self.new.cutter ≡ line_number self.old.cutter + 1 }
        ensures few { IfOk result (λ more. line_number self.new.cutter ≤ limit) }
        ensures unbroken { IfOk result (λ more. fault_of self.new.cutter ≡ None) }
        ensures same { S.name source.new ≡ S.name source.old }
        ensures source { FaultsByPlan (S.faults source.old) (S.faults source.new) (S.plan source.old)
            (result ≡ Err ReadFault) }
        ensures still { NeverFails (S.plan source.old) → NeverFails (S.plan source.new) }
    {
        match self.cutter.advance(source) {
            Ok(true) => {
                self.consumed.add(rt, self.cutter.rest());
                let line = self.cutter.number();
                match judge(&mut self.amounts, base, limit, line, self.cutter.line()) {
                    None => Ok(true),
                    Some(stop) => Err(stop),
                }
            }
            Ok(false) => Ok(false),
            Err(LineFault::LongLine(line)) => Err(refused(line, PastCause::Long)),
            Err(LineFault::ReadFault) => Err(PastStop::ReadFault),
        }
    }

    /// Reads all lines, under a limit of lines, or says why not.
    pub fn read_all<S: Source, R: Threads>(
        &mut self,
        rt: &R,
        base: u32,
        limit: u32,
        source: &mut S,
    ) -> Option<PastStop>
        requires based { 70 ≤ base }
        requires few { line_number self.old.cutter ≤ limit }
        requires unbroken { fault_of self.old.cutter ≡ None }
        ensures ends { (limits : LimitsValue) (bytes : List ℕ) → limits.past ≡ limit
            → IsReadingPast self.old base limits (S.left source.old) bytes
            → EndsReadingPast result self.new base limits (S.left source.new) bytes }
        ensures gathers { GathersRows self.old.amounts base → IfNone result (GathersRows self.new.amounts base) }
        ensures read { (bytes : List ℕ) → HasReadPastOf self.old (S.left source.old) bytes
            → HasReadPastOf self.new (S.left source.new) bytes }
        ensures bounded { line_number self.new.cutter ≤ limit + 1 }
        ensures after { IfSome result (λ stop. StopsPastAfter stop (line_number self.new.cutter)) }
        ensures few { IfNone result (line_number self.new.cutter ≤ limit) }
        ensures same { S.name source.new ≡ S.name source.old }
        ensures source { FaultsByPlan (S.faults source.old) (S.faults source.new) (S.plan source.old)
            (result ≡ Some ReadFault) }
    {
        'reading: loop {
            match self.read_one(rt, base, limit, source) {
                Ok(true) => {}
                Ok(false) => return None,
                Err(stop) => return Some(stop),
            }
        }
    }

    /// What is kept of the lines that were read, their days counted back from a base.
    pub fn kept<R: Threads>(self, rt: &R, base: u32) -> Result<History, PastStop>
        requires based { 70 ≤ base }
        requires few { line_number self.cutter < 2 ^ 32 }
        ensures exact { (limits : LimitsValue) (left : Option (List ℕ)) (bytes : List ℕ)
            → EndsPast self.consumed self.amounts base limits left bytes
            → IfOk result (λ h. (h.past ≡ past_record base bytes (past_reads bytes base limits).rows)
            × (h.rows.items ≡ past_kept (past_reads bytes base limits).rows)) }
        ensures fits { GathersRows self.amounts base → IfOk result (λ h. IsPastPut h.past h.rows.items) }
        ensures based { IfOk result (λ h. h.past.base ≡ base) }
        ensures stops { IfErr result (λ stop. stop ≡ OutOfMemory) }
    {
        let PastReader {
            cutter: _,
            consumed,
            amounts,
        } = self;
        let Ok(rows) = amounts.kept() else {
            consumed.close(rt);
            return Err(PastStop::NoMemory);
        };
        let bytes = consumed.bytes;
        let Some(digest) = consumed.digest(rt) else {
            unreachable!()
        };
        let past = PastRecord {
            base,
            bytes,
            rows: rows.len() as u64,
            digest,
        };
        Ok(History { past, rows })
    }

    /// Leaves the history, once no thread has a part of its bytes.
    pub fn close<R: Threads>(self, rt: &R) {
        let PastReader {
            cutter: _,
            consumed,
            amounts: _,
        } = self;
        consumed.close(rt);
    }
}
