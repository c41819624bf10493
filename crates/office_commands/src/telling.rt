// The commands `validate DAY` and `audit DAY`: what differs is told before the closing line.
ghost use Rattle.std.specs.Prelude.{◌≡◌, ◌≢◌, [], ℕ, Some, Ok, IsErr};
ghost use Rattle.road_time.specs.Fits.{IsLimits};
ghost use Rattle.road_io.specs.Plans.{NeverFails};
ghost use Rattle.road_io.specs.Blame.{FaultsByRoom};
ghost use Rattle.office_words.specs.Meaning.{IsComparing};
ghost use Rattle.office_words.specs.declared.command.Command.TheVariants.{Compare};
ghost use Rattle.office_commands.specs.declared.closing.Closing.{Closing as ClosingValue};
ghost use Rattle.office_commands.specs.declared.closing.Closing.TheVariants.{ReadFault, NoMemory, Words};
ghost use Rattle.office_commands.specs.Closings.{status_of};
ghost use Rattle.office_commands.specs.Commands.{Answer};
ghost use Rattle.office_commands.specs.Differences.{differences_text};
ghost use Rattle.office_commands.specs.Endings.{Wrote, StandsBefore, code_of};
ghost use Rattle.office_commands.specs.Faults.{ReadFaults, TellsNoOther};
ghost use Rattle.office_commands.specs.Ran.{ReadsSource, ReadsAside, WroteAsked, KeptAsked, WorksAsked};
ghost use Rattle.office_commands.specs.Starts.{SaysCompared, shards_of};

use crate::closing::Closing;
use crate::comparing::compare_source;
use crate::difference::{Difference, differences_text};
use crate::terms::ComparisonTerms;
use keep_office::Keeper;
use road_io::{Failed, Sink, Source, put_all};
use std::alloc::Global;
use std::thread::Threads;
use ways_crews::Crew;

/// Writes the lines of differences, where there are some, and names the closing line of the comparison.
fn tell<O: Sink>(
    alloc: Global,
    closing: Closing,
    shown: &[Difference],
    sink: &mut O,
) -> Result<Option<Closing>, Failed>
    requires none { status_of closing ≢ 7 → shown.now ≡ [] }
    ensures wrote { (a : Answer) → StandsBefore a closing (differences_text shown.now)
        → Wrote a result (O.written sink.old) (O.written sink.new) }
    ensures names { (c : ClosingValue) → c ≢ NoMemory → result ≡ Ok (Some c) → c ≡ closing }
    ensures alone { status_of closing ≢ 7 → result ≡ Ok (Some closing) }
    ensures says { (status : ℕ) → status ≢ 5 → status ≢ 8 → code_of result ≡ status → status_of closing ≡ status }
    ensures sink { FaultsByRoom (O.faults sink.old) (O.faults sink.new) (O.room sink.old) (O.room sink.new)
        (IsErr result) }
{
    if shown.is_empty() {
        return Ok(Some(closing));
    }
    let Ok(text) = differences_text(alloc, shown) else {
        return Ok(Some(Closing::NoMemory));
    };
    match put_all(sink, text.as_slice()) {
        Ok(()) => Ok(Some(closing)),
        Err(failed) => Err(failed),
    }
}

/// Compares the notices of what the source has with the lines of an aside, as `compare_source` does, and tells the
/// first differences, where more than one is asked for. By how many shards the vehicles were seen stands in
/// `shards_seen` where notices were compared.
pub(crate) fn compare_and_tell<
    S: Source,
    A: Source,
    O: Sink,
    K: Keeper,
    C: Crew,
    R: Threads + Sync,
>(
    rt: &R,
    alloc: Global,
    terms: ComparisonTerms,
    source: &mut S,
    aside: &mut A,
    sink: &mut O,
    keeper: &mut K,
    crew: &mut C,
    shards_seen: &mut usize,
) -> Result<Option<Closing>, Failed>
    requires range { IsComparing terms.asked }
    requires within { IsLimits terms.limits }
    requires idle { C.out crew.old ≡ [] }
    ensures said { result ≢ Ok (Some Words) }
    ensures source { ReadsSource S.Source terms.limits (Some (Compare terms.asked)) (K.told keeper.old) (code_of result)
        source.old source.new }
    ensures aside { ReadsAside S.Source A.Source terms.limits (Some (Compare terms.asked)) C.exact (K.told keeper.old)
        (code_of result) source.old source.new aside.old aside.new }
    ensures read { ReadFaults (S.faults source.old) (S.faults source.new) (A.faults aside.old) (A.faults aside.new)
        (NeverFails (S.plan source.old)) (NeverFails (A.plan aside.old)) (result ≡ Ok (Some ReadFault))
        (TellsNoOther result) }
    ensures sink { WroteAsked S.Source A.Source O.Sink K.Keeper terms.limits (Some (Compare terms.asked)) C.exact result
        source.old aside.old keeper.old keeper.new sink.old sink.new }
    ensures keeper { KeptAsked S.Source K.Keeper terms.limits (Some (Compare terms.asked)) C.exact result source.old
        keeper.old keeper.new }
    ensures crew { WorksAsked S.Source C.Crew terms.limits (Some (Compare terms.asked)) (K.told keeper.old)
        (code_of result) source.old crew.old crew.new }
    ensures by { SaysCompared (code_of result) → shards_seen.new ≡ shards_of terms.asked.how }
{
    let mut shown = Vec::new(alloc);
    let compared = compare_source(
        rt,
        alloc,
        terms.asked,
        &terms.limits,
        source,
        aside,
        keeper,
        crew,
        &mut shown,
    );
    *shards_seen = compared.shards;
    tell(alloc, compared.closing, shown.as_slice(), sink)
}
