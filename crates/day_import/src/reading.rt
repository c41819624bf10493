// The reading of a round or a turn: the next tuples of a day, and whether the source waits with them.
ghost use Rattle.std.specs.Prelude.{◌≡◌, ◌≢◌, ◌≤◌, ◌<◌, ℕ, Bool, List, Option, Some, None, Err, OnOk, length};
ghost use Rattle.std.specs.Prelude.{true, false};
ghost use Rattle.road_time.specs.declared.day.Limits.{Limits as DayLimits};
ghost use Rattle.road_io.specs.Faults.{Rose};
ghost use Rattle.road_io.specs.Plans.{NeverFails};
ghost use Rattle.day_reading.specs.declared.day_ahead.DayAhead.{DayAhead as Ahead};
ghost use Rattle.day_reading.specs.Ahead.{HasReadAhead, HasFailedAhead, has_more};
ghost use Rattle.day_reading.specs.declared.whole_day.ReadStop.TheVariants.{ReadFault};
ghost use Rattle.day_import.specs.Readers.{HasGatheredOn, HasReadOn, HasGiven};

use crate::watching::WatchedSource;
use day_reading::{DayAhead, ReadStop};
use road_io::Source;
use road_time::Tuple;
use std::thread::Threads;

/// Reads the next tuples of a day behind those that are there: up to so many, or as many as are left. Where not the
/// whole of them is asked, it ends where the source waits.
fn gather_watched<'a, S: Source, R: Threads>(
    rt: &R,
    ahead: &mut DayAhead,
    watched: &mut WatchedSource<'a, S>,
    count: usize,
    these: &mut Vec<Tuple>,
    whole: bool,
) -> Result<(), ReadStop>
    requires unfailed { HasFailedAhead ahead.old → ⊥ }
    ensures gathered { OnOk result (HasGatheredOn whole count these.old.items these.new.items ahead.old ahead.new
        (S.left watched.old.source.now) (S.left watched.new.source.now)) }
    ensures read { (lines : ℕ) (bytes : List ℕ) → HasReadAhead ahead.old lines (S.left watched.old.source.now) bytes
        → HasReadAhead ahead.new lines (S.left watched.new.source.now) bytes }
    ensures source_same { S.name watched.new.source.now ≡ S.name watched.old.source.now }
    ensures same { watched.new.source.ghost_name ≡ watched.old.source.ghost_name }
    ensures later { S.faults watched.old.source.now ≤ S.faults watched.new.source.now }
    ensures cause { result ≡ Err ReadFault
        → Rose (S.faults watched.old.source.now) (S.faults watched.new.source.now) }
    ensures stands { result ≢ Err ReadFault
        → S.faults watched.new.source.now ≡ S.faults watched.old.source.now }
    ensures sure { NeverFails (S.plan watched.old.source.now)
        → (result ≢ Err ReadFault) × NeverFails (S.plan watched.new.source.now) }
{
    'gathering: while these.len() < count {
        if watched.waits && !whole {
            return Ok(());
        }
        match ahead.next(rt, watched) {
            Ok(Some(tuple)) => {
                if these.push(tuple).is_err() {
                    return Err(ReadStop::NoMemory);
                }
            }
            Ok(None) => return Ok(()),
            Err(stop) => return Err(stop),
        }
    }
    Ok(())
}

/// Reads the next tuples of a day behind those that are there: up to so many, or as many as are left. Where not the
/// whole of them is asked, it ends where the source waits, which may be at once.
fn gather_on<S: Source, R: Threads>(
    rt: &R,
    ahead: &mut DayAhead,
    source: &mut S,
    waits: &mut bool,
    count: usize,
    these: &mut Vec<Tuple>,
    whole: bool,
) -> Result<(), ReadStop>
    requires unfailed { HasFailedAhead ahead.old → ⊥ }
    ensures gathered { OnOk result (HasGatheredOn whole count these.old.items these.new.items ahead.old ahead.new
        (S.left source.old) (S.left source.new)) }
    ensures read { (lines : ℕ) (bytes : List ℕ) → HasReadAhead ahead.old lines (S.left source.old) bytes
        → HasReadAhead ahead.new lines (S.left source.new) bytes }
    ensures source_same { S.name source.new ≡ S.name source.old }
    ensures later { S.faults source.old ≤ S.faults source.new }
    ensures cause { result ≡ Err ReadFault → Rose (S.faults source.old) (S.faults source.new) }
    ensures stands { result ≢ Err ReadFault → S.faults source.new ≡ S.faults source.old }
    ensures sure { NeverFails (S.plan source.old) → (result ≢ Err ReadFault) × NeverFails (S.plan source.new) }
{
    let mut watched = WatchedSource {
        source,
        waits: *waits,
    };
    let gathered = gather_watched(rt, ahead, &mut watched, count, these, whole);
    *waits = watched.waits;
    match gathered {
        Ok(()) => Ok(()),
        Err(stop) => Err(stop),
    }
}

/// Reads the next tuples of a day, in place of those that were there: so many, or as many as are left.
pub fn gather<S: Source, R: Threads>(
    rt: &R,
    ahead: &mut DayAhead,
    source: &mut S,
    count: usize,
    these: &mut Vec<Tuple>,
) -> Result<(), ReadStop>
    requires unfailed { HasFailedAhead ahead.old → ⊥ }
    ensures given { OnOk result ((limits : DayLimits) (late : ℕ)
        → HasGiven limits late these.new.items ahead.old ahead.new (S.left source.old) (S.left source.new)) }
    ensures few { OnOk result (length these.new.items ≤ count) }
    ensures some { OnOk result (has_more ahead.old ≡ true → 1 ≤ count → 1 ≤ length these.new.items) }
    ensures full { OnOk result (length these.new.items < count → has_more ahead.new ≡ false) }
    ensures read { (lines : ℕ) (bytes : List ℕ) → HasReadAhead ahead.old lines (S.left source.old) bytes
        → HasReadAhead ahead.new lines (S.left source.new) bytes }
    ensures source_same { S.name source.new ≡ S.name source.old }
    ensures unfailed { OnOk result (HasFailedAhead ahead.new → ⊥) }
    ensures later { S.faults source.old ≤ S.faults source.new }
    ensures cause { result ≡ Err ReadFault → Rose (S.faults source.old) (S.faults source.new) }
    ensures stands { result ≢ Err ReadFault → S.faults source.new ≡ S.faults source.old }
    ensures sure { NeverFails (S.plan source.old) → (result ≢ Err ReadFault) × NeverFails (S.plan source.new) }
{
    these.clear();
    let mut waits = false;
    match gather_on(rt, ahead, source, &mut waits, count, these, true) {
        Ok(()) => Ok(()),
        Err(stop) => Err(stop),
    }
}

/// Reads the next tuples of a day, in place of those that were there: so many, or as many as are left; where not the
/// whole of them is asked, only until the source waits. It says why it stopped, if it did.
pub fn read_on<S: Source, R: Threads>(
    rt: &R,
    ahead: &mut DayAhead,
    source: &mut S,
    waits: &mut bool,
    count: usize,
    these: &mut Vec<Tuple>,
    whole: bool,
) -> Option<ReadStop>
    requires unfailed { HasFailedAhead ahead.old → ⊥ }
    ensures read_on { HasReadOn whole result count these.new.items ahead.old ahead.new (S.left source.old)
        (S.left source.new) }
    ensures read { (lines : ℕ) (bytes : List ℕ) → HasReadAhead ahead.old lines (S.left source.old) bytes
        → HasReadAhead ahead.new lines (S.left source.new) bytes }
    ensures source_same { S.name source.new ≡ S.name source.old }
    ensures later { S.faults source.old ≤ S.faults source.new }
    ensures cause { result ≡ Some ReadFault → Rose (S.faults source.old) (S.faults source.new) }
    ensures stands { result ≢ Some ReadFault → S.faults source.new ≡ S.faults source.old }
    ensures sure { NeverFails (S.plan source.old) → (result ≢ Some ReadFault) × NeverFails (S.plan source.new) }
{
    these.clear();
    match gather_on(rt, ahead, source, waits, count, these, whole) {
        Ok(()) => None,
        Err(stop) => Some(stop),
    }
}

/// Reads the rest of the next tuples of a day behind those that were read, unless reading was stopped. It says why it
/// was stopped, if it was.
pub fn read_rest<S: Source, R: Threads>(
    rt: &R,
    ahead: &mut DayAhead,
    source: &mut S,
    waits: &mut bool,
    count: usize,
    these: &mut Vec<Tuple>,
    stop: Option<ReadStop>,
) -> Option<ReadStop>
    requires unfailed { stop ≡ None → HasFailedAhead ahead.old → ⊥ }
    ensures read_on { (first : Ahead) (all : Option (List ℕ))
        → HasReadOn false stop count these.old.items first ahead.old all (S.left source.old)
        → HasReadOn true result count these.new.items first ahead.new all (S.left source.new) }
    ensures read { (lines : ℕ) (bytes : List ℕ) → HasReadAhead ahead.old lines (S.left source.old) bytes
        → HasReadAhead ahead.new lines (S.left source.new) bytes }
    ensures source_same { S.name source.new ≡ S.name source.old }
    ensures later { S.faults source.old ≤ S.faults source.new }
    ensures cause { (before : ℕ) → (stop ≡ Some ReadFault → Rose before (S.faults source.old))
        → before ≤ S.faults source.old → result ≡ Some ReadFault → Rose before (S.faults source.new) }
    ensures stands { result ≢ Some ReadFault
        → (stop ≢ Some ReadFault) × (S.faults source.new ≡ S.faults source.old) }
    ensures sure { stop ≢ Some ReadFault → NeverFails (S.plan source.old)
        → (result ≢ Some ReadFault) × NeverFails (S.plan source.new) }
{
    match stop {
        Some(stop) => Some(stop),
        None => match gather_on(rt, ahead, source, waits, count, these, true) {
            Ok(()) => None,
            Err(stop) => Some(stop),
        },
    }
}
