// Reading a day one tuple ahead, so that it is known whether another one follows.
ghost use Rattle.std.specs.Prelude.{◌≡◌, ◌≢◌, ◌≤◌, ◌<◌, [], ℕ, List, Option, Some, None, Ok, Err, IfOk};
ghost use Rattle.std.specs.Prelude.{is_some, length, true, false};
ghost use Rattle.road_time.specs.declared.road.Tuple.{Tuple as TupleValue};
ghost use Rattle.road_time.specs.declared.day.Limits.{Limits as LimitsValue};
ghost use Rattle.road_time.specs.declared.day.TheConstants.Limits.{DAY};
ghost use Rattle.road_time.specs.Reads.{reads};
ghost use Rattle.road_io.specs.Blame.{FaultsByPlan};
ghost use Rattle.road_io.specs.Plans.{NeverFails};
ghost use Rattle.road_io.specs.Cutter.{line_number};
ghost use Rattle.day_reading.specs.Lines.{FollowsAfter};
ghost use Rattle.day_reading.specs.Days.{EndsReading, IsDigested, IsShortDay, LeavesBehind, most_of_day};
ghost use Rattle.road_io.specs.Within.{ReadsWithin};
ghost use Rattle.day_reading.specs.Readings.{IsReading, IsGathering, GivesTuple, GathersOn, HasReadOf, HasReaderFailed};
ghost use Rattle.day_reading.specs.Ahead.{answer_of, has_more, is_digested, IsAhead, IsGatheringAhead, HasReadAhead};
ghost use Rattle.day_reading.specs.Ahead.{HasFailedAhead, GivesAhead, GathersAhead};
ghost use Rattle.day_reading.specs.declared.whole_day.ReadStop.TheVariants.{ReadFault};

use super::{DayAhead, Following};
use crate::day_reader::DayReader;
use crate::ending::ReadEnd;
use crate::whole_day::{DayEnd, ReadStop, whole};
use road_io::Source;
use road_time::{Limits, Tuple};
use std::alloc::Global;
use std::thread::Threads;

/// Reads what follows.
#[inline(always)]
fn look<S: Source, R: Threads>(
    rt: &R,
    reader: &mut DayReader,
    source: &mut S,
) -> Result<Following, ReadStop>
    ensures gives { (limits : LimitsValue) (late : ℕ) (bytes : List ℕ) (given : List TupleValue)
        → IsReading reader.old limits late (S.left source.old) bytes given
        → IfOk result (λ f. GivesTuple (answer_of f) reader.new limits late (S.left source.new) bytes given) }
    ensures gathers { (limits : LimitsValue) (late : ℕ) (given : List TupleValue)
        → IsGathering reader.old limits late given
        → IfOk result (λ f. GathersOn (answer_of f) reader.new limits late given) }
    ensures read { (lines : ℕ) (bytes : List ℕ) → HasReadOf reader.old lines (S.left source.old) bytes
        → HasReadOf reader.new lines (S.left source.new) bytes }
    ensures after { IfOk result (λ f. FollowsAfter f (line_number reader.new.cutter)) }
    ensures same { S.name source.new ≡ S.name source.old }
    ensures source { FaultsByPlan (S.faults source.old) (S.faults source.new) (S.plan source.old)
        ((HasReaderFailed reader.old → ⊥) × (result ≡ Err ReadFault)) }
    ensures still { (HasReaderFailed reader.old → ⊥) → NeverFails (S.plan source.old) → NeverFails (S.plan source.new) }
    ensures unfailed { (HasReaderFailed reader.old → ⊥) → result ≢ Err ReadFault → HasReaderFailed reader.new → ⊥ }
    ensures digested { reader.new.consumed.digested ≡ reader.old.consumed.digested }
{
    match reader.next(rt, source) {
        Ok(Some(tuple)) => Ok(Following::Waits(tuple)),
        Ok(None) => Ok(Following::Ends),
        Err(ReadEnd::Refused { line, cause }) => Ok(Following::Stops { line, cause }),
        Err(ReadEnd::ReadFault) => Err(ReadStop::ReadFault),
        Err(ReadEnd::NoMemory) => Err(ReadStop::NoMemory),
    }
}

impl DayAhead {
    /// Reads up to the first tuple, with or without the digest. Lines may come late by up to so many seconds.
    pub fn open<S: Source, R: Threads>(
        rt: &R,
        alloc: Global,
        limits: &Limits,
        late: u8,
        digested: bool,
        source: &mut S,
    ) -> Result<DayAhead, ReadStop>
        requires { late ≤ 120 }
        ensures ahead { (bytes : List ℕ) → S.left source.old ≡ Some bytes
            → IfOk result (λ d. IsAhead d limits.now late (S.left source.new) bytes []) }
        ensures gathering { IfOk result (λ d. IsGatheringAhead d limits.now late []) }
        ensures read { (bytes : List ℕ) → S.left source.old ≡ Some bytes
            → IfOk result (λ d. HasReadAhead d limits.now.lines (S.left source.new) bytes) }
        ensures bounded { ReadsWithin (most_of_day limits.now) (S.left source.old) (S.left source.new) }
        ensures unfailed { IfOk result (λ d. HasFailedAhead d → ⊥) }
        ensures digested { IfOk result (λ d. is_digested d ≡ digested) }
        ensures same { S.name source.new ≡ S.name source.old }
        ensures source { FaultsByPlan (S.faults source.old) (S.faults source.new) (S.plan source.old)
            (result ≡ Err ReadFault) }
        ensures still { NeverFails (S.plan source.old) → NeverFails (S.plan source.new) }
    {
        let Ok(mut reader) = DayReader::new(alloc, limits, late, digested) else {
            return Err(ReadStop::NoMemory);
        };
        match look(rt, &mut reader, source) {
            Ok(following) => Ok(DayAhead { reader, following }),
            Err(stop) => {
                reader.close(rt);
                Err(stop)
            }
        }
    }

    /// Whether a tuple is left.
    pub fn more(&self) -> bool
        ensures exact { result ≡ has_more self.now }
        ensures all { result ≡ false → (limits : LimitsValue) (late : ℕ) (left : Option (List ℕ)) (bytes : List ℕ)
            (given : List TupleValue)
            → IsAhead self.now limits late left bytes given → given ≡ (reads bytes limits late).tuples }
        ensures some { result ≡ true → (limits : LimitsValue) (late : ℕ) (left : Option (List ℕ)) (bytes : List ℕ)
            (given : List TupleValue)
            → IsAhead self.now limits late left bytes given → length given < length (reads bytes limits late).tuples }
    {
        matches!(self.following, Following::Waits(_))
    }

    /// Gives the tuple that waits, and reads what follows it; none where no tuple is left. A fault is answered at once.
    #[inline(always)]
    pub fn next<S: Source, R: Threads>(
        &mut self,
        rt: &R,
        source: &mut S,
    ) -> Result<Option<Tuple>, ReadStop>
        ensures gives { (limits : LimitsValue) (late : ℕ) (bytes : List ℕ) (given : List TupleValue)
            → IsAhead self.old limits late (S.left source.old) bytes given
            → GivesAhead result self.new limits late (S.left source.new) bytes given }
        ensures gathers { (limits : LimitsValue) (late : ℕ) (given : List TupleValue)
            → IsGatheringAhead self.old limits late given
            → GathersAhead result self.new limits late given }
        ensures some { IfOk result (λ given. is_some given ≡ has_more self.old) }
        ensures none { IfOk result (λ given. given ≡ None → self.new ≡ self.old) }
        ensures read { (lines : ℕ) (bytes : List ℕ) → HasReadAhead self.old lines (S.left source.old) bytes
            → HasReadAhead self.new lines (S.left source.new) bytes }
        ensures unfailed { (HasFailedAhead self.old → ⊥) → result ≢ Err ReadFault → HasFailedAhead self.new → ⊥ }
        ensures digested { is_digested self.new ≡ is_digested self.old }
        ensures same { S.name source.new ≡ S.name source.old }
        ensures source { FaultsByPlan (S.faults source.old) (S.faults source.new) (S.plan source.old)
            ((HasFailedAhead self.old → ⊥) × (result ≡ Err ReadFault)) }
        ensures still { (HasFailedAhead self.old → ⊥)
            → NeverFails (S.plan source.old) → NeverFails (S.plan source.new) }
    {
        let Following::Waits(tuple) = self.following else {
            return Ok(None);
        };
        match look(rt, &mut self.reader, source) {
            Ok(following) => {
                self.following = following;
                Ok(Some(tuple))
            }
            Err(stop) => Err(stop),
        }
    }

    /// How the reading ended, where no tuple is left.
    pub fn end<R: Threads>(self, rt: &R) -> DayEnd
        requires { has_more self ≡ false }
        ensures exact { (limits : LimitsValue) (late : ℕ) (left : Option (List ℕ)) (bytes : List ℕ)
            (given : List TupleValue)
            → IsAhead self limits late left bytes given → EndsReading result bytes (reads bytes limits late).refused }
        ensures left { (limits : LimitsValue) (late : ℕ) (left : Option (List ℕ)) (bytes : List ℕ)
            (given : List TupleValue)
            → IsAhead self limits late left bytes given → HasReadAhead self limits.lines left bytes
            → LeavesBehind result bytes left }
        ensures short { (limits : LimitsValue) (late : ℕ) (given : List TupleValue)
            → IsGatheringAhead self limits late given
            → limits.lines ≤ DAY.lines → IsShortDay result }
        ensures digested { IsDigested (is_digested self) result }
    {
        let DayAhead { reader, following } = self;
        match following {
            Following::Stops { line, cause } => {
                reader.close(rt);
                DayEnd::Refused { line, cause }
            }
            Following::Waits(_) | Following::Ends => whole(rt, reader),
        }
    }

    /// Leaves the day, once no thread has a part of its bytes.
    pub fn close<R: Threads>(self, rt: &R) {
        let DayAhead {
            reader,
            following: _,
        } = self;
        reader.close(rt);
    }
}
