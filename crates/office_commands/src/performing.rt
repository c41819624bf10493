// A command is done, but for the closing line.
ghost use Rattle.std.specs.Prelude.{◌≡◌, ◌≢◌, [], Some, Ok, true};
ghost use Rattle.road_io.specs.Plans.{NeverFails};
ghost use Rattle.road_time.specs.Fits.{IsLimits};
ghost use Rattle.office_words.specs.Meaning.{IsInRange};
ghost use Rattle.office_commands.specs.Endings.{code_of};
ghost use Rattle.office_commands.specs.declared.closing.Closing.TheVariants.{ReadFault, Words};
ghost use Rattle.office_commands.specs.Uses.{uses_source, uses_aside};
ghost use Rattle.office_commands.specs.Starts.{SeesAsked};
ghost use Rattle.office_commands.specs.Faults.{ReadFaults, TellsNoOther};
ghost use Rattle.office_commands.specs.Ran.{ReadsSource, ReadsAside, WroteAsked, KeptAsked, WorksAsked};

use crate::answers::answers;
use crate::checks::check;
use crate::closing::Closing;
use crate::days::days;
use crate::imports::import;
use crate::mishaps::accidents;
use crate::past::past;
use crate::run_limits::run_limits;
use crate::statements::{charges, day, export, vehicle};
use crate::tariffs::{tariff, tariffs};
use crate::telling::compare_and_tell;
use crate::terms::{CommandTerms, ComparisonTerms};
use crate::traffic::{generate, rehearse};
use keep_office::Keeper;
use office_words::Command;
use road_io::{Failed, Sink, Source};
use std::alloc::Global;
use std::thread::Threads;
use ways_crews::Crew;

/// Does what a command asks, but for the closing line. By how many shards the vehicles of a compared day were seen
/// stands in `shards_seen`.
#[tactic(auto, using(day_reading::proofs::BoundLaws::nothing_read))]
pub(crate) fn perform<S: Source, A: Source, O: Sink, K: Keeper, C: Crew, R: Threads + Sync>(
    rt: &R,
    alloc: Global,
    terms: CommandTerms,
    source: &mut S,
    aside: &mut A,
    sink: &mut O,
    keeper: &mut K,
    crew: &mut C,
    shards_seen: &mut usize,
) -> Result<Option<Closing>, Failed>
    requires limits { IsLimits terms.limits }
    requires range { IsInRange terms.command }
    requires idle { C.out crew.old ≡ [] }
    ensures said { result ≢ Ok (Some Words) }
    ensures source { ReadsSource S.Source terms.limits (Some terms.command) (K.told keeper.old) (code_of result) source.old
        source.new }
    ensures aside { ReadsAside S.Source A.Source terms.limits (Some terms.command) C.exact (K.told keeper.old)
        (code_of result) source.old source.new aside.old aside.new }
    ensures read { ReadFaults (S.faults source.old) (S.faults source.new) (A.faults aside.old) (A.faults aside.new)
        (uses_source (Some terms.command) ≡ true → NeverFails (S.plan source.old))
        (uses_aside (Some terms.command) ≡ true → NeverFails (A.plan aside.old)) (result ≡ Ok (Some ReadFault))
        (TellsNoOther result) }
    ensures sink { WroteAsked S.Source A.Source O.Sink K.Keeper terms.limits (Some terms.command) C.exact result source.old
        aside.old keeper.old keeper.new sink.old sink.new }
    ensures keeper { KeptAsked S.Source K.Keeper terms.limits (Some terms.command) C.exact result source.old keeper.old
        keeper.new }
    ensures crew { WorksAsked S.Source C.Crew terms.limits (Some terms.command) (K.told keeper.old) (code_of result) source.old
        crew.old crew.new }
    ensures by { SeesAsked (Some terms.command) (code_of result) shards_seen.new }
{
    match terms.command {
        Command::Answers(run) => {
            let own = run_limits(&run, &terms.limits);
            answers(rt, alloc, run, &own, source, sink, keeper, crew)
        }
        Command::Import(run) => {
            let own = run_limits(&run, &terms.limits);
            import(rt, alloc, run, &own, source, sink, keeper, crew)
        }
        Command::Compare(asked) => compare_and_tell(
            rt,
            alloc,
            ComparisonTerms {
                asked,
                limits: terms.limits,
            },
            source,
            aside,
            sink,
            keeper,
            crew,
            shards_seen,
        ),
        Command::Past { base } => Ok(Some(past(rt, alloc, base, &terms.limits, source, keeper))),
        Command::Day { day: number } => day(alloc, number, sink, keeper),
        Command::Vehicle { vid, from, to } => vehicle(alloc, vid, from, to, sink, keeper),
        Command::Accidents { late } => accidents(rt, alloc, late, &terms.limits, source, sink),
        Command::Export { day } => export(alloc, day, sink, keeper),
        Command::Tariff {
            xway,
            crowd,
            speed,
            factor,
        } => Ok(Some(tariff(xway, crowd, speed, factor, keeper))),
        Command::Tariffs => tariffs(alloc, sink, keeper),
        Command::Generate { seed, size } => generate(alloc, seed, size, sink),
        Command::Rehearse { seed, size, run } => Ok(Some(rehearse(
            rt, alloc, seed, size, run, crew,
        ))),
        Command::Days => days(alloc, sink, keeper),
        Command::Charges { from, to } => charges(alloc, from, to, sink, keeper),
        Command::Check { day: number, late } => check(
            alloc,
            number,
            late,
            &terms.limits,
            source,
            sink,
        ),
    }
}
