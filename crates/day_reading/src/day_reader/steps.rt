// Reading a day, tuple by tuple.
ghost use Rattle.std.specs.Prelude.{◌≡◌, ◌≢◌, ◌↔◌, ◌≤◌, ◌+◌, ◌*◌, ◌++◌, ◌∷◌, [], ℕ, List, Option, Some, None, Ok, Err};
ghost use Rattle.std.specs.Prelude.{IfOk, IfNone, IfSome, is_some, length};
ghost use Rattle.road_time.specs.declared.road.Tuple.{Tuple as TupleValue};
ghost use Rattle.road_time.specs.declared.day.Limits.{Limits as LimitsValue};
ghost use Rattle.road_io.specs.Blame.{FaultsByPlan};
ghost use Rattle.road_io.specs.Plans.{NeverFails};
ghost use Rattle.road_io.specs.Cutter.{line_number};
ghost use Rattle.day_reading.specs.Days.{IsDigestOf};
ghost use Rattle.day_reading.specs.Readings.{IsReading, IsGathering, IsGivingOut, GivesTuple, GathersOn, HasTaken};
ghost use Rattle.day_reading.specs.Readings.{HasReadOf, HasReaderFailed, RefusesAfter};
ghost use Rattle.day_reading.specs.declared.ending.Ending.{Ending as EndingValue};
ghost use Rattle.road_time.specs.Reads.{reads};
ghost use Rattle.day_reading.specs.declared.ending.ReadEnd.TheVariants.{ReadFault};
ghost use Rattle.day_reading.specs.declared.ending.Ending.TheVariants.{Stopped};

use super::DayReader;
use crate::consumed::Consumed;
use crate::ending::{Ending, ReadEnd};
use crate::intake::{Intake, refused};
use road_digest::Digest;
use road_io::{LineCutter, LineFault, Source};
use road_time::{Limits, NoMemory, Tuple};
use std::alloc::Global;
use std::thread::Threads;
use tuples_text::Cause;

impl DayReader {
    /// A reader before the first line, with or without the digest. Lines may come late by up to so many seconds.
    pub fn new(
        alloc: Global,
        limits: &Limits,
        late: u8,
        digested: bool,
    ) -> Result<DayReader, NoMemory>
        requires { late ≤ 120 }
        ensures reading { IfOk result (λ r. (bytes : List ℕ) → IsReading r limits.now late (Some bytes) bytes []) }
        ensures gathering { IfOk result (λ r. IsGathering r limits.now late []) }
        ensures read { IfOk result (λ r. (bytes : List ℕ) → HasReadOf r limits.now.lines (Some bytes) bytes) }
        ensures unfailed { IfOk result (λ r. HasReaderFailed r → ⊥) }
        ensures digested { IfOk result (λ r. r.consumed.digested ≡ digested) }
    {
        let cutter = LineCutter::new(alloc)?;
        Ok(DayReader {
            cutter,
            intake: Intake::new(alloc, limits, late),
            consumed: Consumed::new(alloc, digested),
            given: 0,
            end: None,
        })
    }

    /// The number of bytes of the lines that were cut.
    pub fn bytes(&self) -> u64
        ensures length { (bytes : List ℕ) → HasTaken self.now.consumed bytes → result ≡ length bytes }
        ensures few { result ≤ 201 * (self.now.intake.line_limit + 1) }
    {
        self.consumed.bytes
    }

    /// The number of lines that were cut, empty ones included.
    pub fn lines(&self) -> u64
        ensures { result ≡ line_number self.now.cutter }
    {
        self.cutter.number()
    }

    /// The number of tuples that were given.
    pub fn tuples(&self) -> u64
        ensures { result ≡ self.now.given }
    {
        self.given
    }

    /// The digest of the bytes of the lines that were cut, if it was asked.
    pub fn digest<R: Threads>(self, rt: &R) -> Option<Digest>
        ensures exact { (bytes : List ℕ) → HasTaken self.consumed bytes → IsDigestOf result bytes }
        ensures digested { is_some result ≡ self.consumed.digested }
    {
        let DayReader {
            cutter: _,
            intake: _,
            consumed,
            given: _,
            end: _,
        } = self;
        consumed.digest(rt)
    }

    /// Leaves the day, once no thread has a part of its bytes.
    pub fn close<R: Threads>(self, rt: &R) {
        let DayReader {
            cutter: _,
            intake: _,
            consumed,
            given: _,
            end: _,
        } = self;
        consumed.close(rt);
    }

    /// Reads one line more, or says how the reading of lines ends.
    fn read_one<S: Source, R: Threads>(&mut self, rt: &R, source: &mut S) -> Option<Ending>
        requires { self.old.end ≡ None }
        ensures reading { (limits : LimitsValue) (late : ℕ) (bytes : List ℕ) (given : List TupleValue)
            → IsReading self.old limits late (S.left source.old) bytes given
            → IsReading self.new limits late (S.left source.new) bytes given }
        ensures gathering { (limits : LimitsValue) (late : ℕ) (given : List TupleValue)
            → IsGathering self.old limits late given → IsGathering self.new limits late given }
        ensures end { self.new.end ≡ result }
        ensures next { IfNone result (line_number self.new.cutter ≡ line_number self.old.cutter + 1) }
        ensures limit { self.new.intake.line_limit ≡ self.old.intake.line_limit }
        ensures digested { self.new.consumed.digested ≡ self.old.consumed.digested }
        ensures read { (lines : ℕ) (bytes : List ℕ) → HasReadOf self.old lines (S.left source.old) bytes
            → HasReadOf self.new lines (S.left source.new) bytes }
        ensures same { S.name source.new ≡ S.name source.old }
        ensures source { FaultsByPlan (S.faults source.old) (S.faults source.new) (S.plan source.old)
            (result ≡ Some (Stopped ReadFault)) }
        ensures still { NeverFails (S.plan source.old) → NeverFails (S.plan source.new) }
    {
        // Read for the proof alone: it is a number of 32 bits.
        let _limit = self.intake.line_limit;
        match self.cutter.advance(source) {
            Ok(true) => {
                self.consumed.add(rt, self.cutter.rest());
                let end = self.intake.take(self.cutter.number(), self.cutter.line());
                self.end = end;
                end
            }
            Ok(false) => {
                let end = Some(Ending::Whole);
                self.end = end;
                end
            }
            Err(LineFault::LongLine(line)) => {
                let end = Some(refused(line, Cause::Long));
                self.end = end;
                end
            }
            Err(LineFault::ReadFault) => {
                let end = Some(Ending::Stopped(ReadEnd::ReadFault));
                self.end = end;
                end
            }
        }
    }

    /// The next of those that wait, where lines are read no more.
    fn next_out(&mut self) -> Option<Tuple>
        ensures some { IfSome result (λ x. (end : EndingValue) → self.old.end ≡ Some end → IsGivingOut end
            → (limits : LimitsValue) (late : ℕ) (left : Option (List ℕ)) (bytes : List ℕ) (given : List TupleValue)
            → IsReading self.old limits late left bytes given
            → IsReading self.new limits late left bytes (given ++ x ∷ [])) }
        ensures none { IfNone result ((end : EndingValue) → self.old.end ≡ Some end → IsGivingOut end
            → (limits : LimitsValue) (late : ℕ) (left : Option (List ℕ)) (bytes : List ℕ) (given : List TupleValue)
            → IsReading self.old limits late left bytes given
            → IsReading self.new limits late left bytes given × (given ≡ (reads bytes limits late).tuples)) }
        ensures gathers { (end : EndingValue) → self.old.end ≡ Some end → IsGivingOut end
            → (limits : LimitsValue) (late : ℕ) (given : List TupleValue) → IsGathering self.old limits late given
            → GathersOn (Ok result) self.new limits late given }
        ensures end { self.new.end ≡ self.old.end }
        ensures consumed { self.new.consumed ≡ self.old.consumed }
        ensures cutter { self.new.cutter ≡ self.old.cutter }
        ensures read { (lines : ℕ) (left : Option (List ℕ)) (bytes : List ℕ) → HasReadOf self.old lines left bytes
            → HasReadOf self.new lines left bytes }
    {
        // Read for the proof alone: it is a number of 32 bits.
        let _limit = self.intake.line_limit;
        match self.intake.sorter.end() {
            Some(tuple) => {
                self.given = self.given.saturating_add(1);
                Some(tuple)
            }
            None => None,
        }
    }

    /// The next of those that wait, if no line to come can have one before it.
    fn next_on(&mut self) -> Option<Tuple>
        requires { self.old.end ≡ None }
        ensures some { IfSome result (λ x.
            (limits : LimitsValue) (late : ℕ) (left : Option (List ℕ)) (bytes : List ℕ) (given : List TupleValue)
            → IsReading self.old limits late left bytes given
            → IsReading self.new limits late left bytes (given ++ x ∷ [])) }
        ensures none { IfNone result (self.new ≡ self.old) }
        ensures gathers { (limits : LimitsValue) (late : ℕ) (given : List TupleValue)
            → IsGathering self.old limits late given → GathersOn (Ok result) self.new limits late given }
        ensures end { self.new.end ≡ None }
        ensures consumed { self.new.consumed ≡ self.old.consumed }
        ensures read { (lines : ℕ) (left : Option (List ℕ)) (bytes : List ℕ) → HasReadOf self.old lines left bytes
            → HasReadOf self.new lines left bytes }
    {
        // Read for the proof alone: it is a number of 32 bits.
        let _limit = self.intake.line_limit;
        match self.intake.sorter.take() {
            Some(tuple) => {
                self.given = self.given.saturating_add(1);
                Some(tuple)
            }
            None => None,
        }
    }

    /// Gives those that wait, and then the line that was refused; a fault is answered at once.
    fn drain_stopped(&mut self, stop: ReadEnd) -> Result<Option<Tuple>, ReadEnd>
        requires { self.old.end ≡ Some (Stopped stop) }
        ensures gives { (limits : LimitsValue) (late : ℕ) (left : Option (List ℕ)) (bytes : List ℕ)
            (given : List TupleValue) → IsReading self.old limits late left bytes given
            → GivesTuple result self.new limits late left bytes given }
        ensures gathers { (limits : LimitsValue) (late : ℕ) (given : List TupleValue)
            → IsGathering self.old limits late given → GathersOn result self.new limits late given }
        ensures end { self.new.end ≡ self.old.end }
        ensures after { RefusesAfter result (line_number self.new.cutter) }
        ensures fault { result ≡ Err ReadFault ↔ (stop ≡ ReadFault) }
        ensures consumed { self.new.consumed ≡ self.old.consumed }
        ensures read { (lines : ℕ) (left : Option (List ℕ)) (bytes : List ℕ) → HasReadOf self.old lines left bytes
            → HasReadOf self.new lines left bytes }
    {
        match stop {
            ReadEnd::Refused { line, cause } => match self.next_out() {
                Some(tuple) => Ok(Some(tuple)),
                None => Err(ReadEnd::Refused { line, cause }),
            },
            ReadEnd::ReadFault => Err(ReadEnd::ReadFault),
            ReadEnd::NoMemory => Err(ReadEnd::NoMemory),
        }
    }

    /// Gives those that wait, and then the end.
    fn drain(&mut self, end: Ending) -> Result<Option<Tuple>, ReadEnd>
        requires { self.old.end ≡ Some end }
        ensures gives { (limits : LimitsValue) (late : ℕ) (left : Option (List ℕ)) (bytes : List ℕ)
            (given : List TupleValue) → IsReading self.old limits late left bytes given
            → GivesTuple result self.new limits late left bytes given }
        ensures gathers { (limits : LimitsValue) (late : ℕ) (given : List TupleValue)
            → IsGathering self.old limits late given → GathersOn result self.new limits late given }
        ensures end { self.new.end ≡ self.old.end }
        ensures after { RefusesAfter result (line_number self.new.cutter) }
        ensures fault { result ≡ Err ReadFault ↔ (end ≡ Stopped ReadFault) }
        ensures consumed { self.new.consumed ≡ self.old.consumed }
        ensures read { (lines : ℕ) (left : Option (List ℕ)) (bytes : List ℕ) → HasReadOf self.old lines left bytes
            → HasReadOf self.new lines left bytes }
    {
        match end {
            Ending::Whole => match self.next_out() {
                Some(tuple) => Ok(Some(tuple)),
                None => Ok(None),
            },
            Ending::Stopped(stop) => self.drain_stopped(stop),
        }
    }

    /// The next tuple of the day, or none at its end. A refused line is answered after all that was let in before it.
    pub fn next<S: Source, R: Threads>(
        &mut self,
        rt: &R,
        source: &mut S,
    ) -> Result<Option<Tuple>, ReadEnd>
        ensures gives { (limits : LimitsValue) (late : ℕ) (bytes : List ℕ) (given : List TupleValue)
            → IsReading self.old limits late (S.left source.old) bytes given
            → GivesTuple result self.new limits late (S.left source.new) bytes given }
        ensures gathers { (limits : LimitsValue) (late : ℕ) (given : List TupleValue)
            → IsGathering self.old limits late given → GathersOn result self.new limits late given }
        ensures read { (lines : ℕ) (bytes : List ℕ) → HasReadOf self.old lines (S.left source.old) bytes
            → HasReadOf self.new lines (S.left source.new) bytes }
        ensures after { RefusesAfter result (line_number self.new.cutter) }
        ensures same { S.name source.new ≡ S.name source.old }
        ensures source { FaultsByPlan (S.faults source.old) (S.faults source.new) (S.plan source.old)
            ((HasReaderFailed self.old → ⊥) × (result ≡ Err ReadFault)) }
        ensures still { (HasReaderFailed self.old → ⊥) → NeverFails (S.plan source.old) → NeverFails
            (S.plan source.new) }
        ensures unfailed { (HasReaderFailed self.old → ⊥) → result ≢ Err ReadFault → HasReaderFailed self.new → ⊥ }
        ensures digested { self.new.consumed.digested ≡ self.old.consumed.digested }
    {
        if let Some(end) = self.end {
            return self.drain(end);
        }
        loop {
            if let Some(tuple) = self.next_on() {
                return Ok(Some(tuple));
            }
            if let Some(end) = self.read_one(rt, source) {
                return self.drain(end);
            }
        }
    }
}
