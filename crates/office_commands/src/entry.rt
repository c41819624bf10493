// The top call: words in, a command's text and its closing line out, and a status.
ghost use Rattle.std.specs.Prelude.{◌≡◌, ◌≢◌, ◌↔◌, [], None, true};
ghost use Rattle.road_io.specs.Blame.{FaultsByRoom};
ghost use Rattle.road_io.specs.Plans.{NeverFails};
ghost use Rattle.road_time.specs.Fits.{IsLimits};
ghost use Rattle.office_commands.specs.Closings.{closing_line, status_of};
ghost use Rattle.office_commands.specs.Endings.{Closes, ClosesRun, TakesMemory};
ghost use Rattle.office_commands.specs.Faults.{ReadFaults};
ghost use Rattle.office_commands.specs.Ran.{ReadsSource, ReadsAside, WritesAsked, KeepsAsked, WorksAsked};
ghost use Rattle.office_commands.specs.Uses.{asked, uses_source, uses_aside};

use crate::closing::Closing;
use crate::performing::perform;
use crate::terms::CommandTerms;
use keep_office::Keeper;
use office_words::{WordFault, read_words};
use road_io::{Sink, Source, put_all};
use road_time::Limits;
use std::alloc::Global;
use std::thread::Threads;
use ways_crews::Crew;

/// Writes a closing line.
fn finish<O: Sink>(closing: Closing, line: &[u8], sink: &mut O) -> u8
    requires { line.now ≡ closing_line closing }
    ensures closes { Closes closing result (O.written sink.old) (O.written sink.new) }
    ensures sink { FaultsByRoom (O.faults sink.old) (O.faults sink.new) (O.room sink.old) (O.room sink.new)
        (result ≡ 5) }
    ensures status { result ≢ 5 → result ≡ status_of closing }
{
    match put_all(sink, line) {
        Ok(()) => closing.status(),
        Err(_) => 5,
    }
}

/// Writes the closing line of a run, or that of want of memory where there is none for it. The lines of a fault of the
/// source and of the keeper take no memory, so that no such fault is told as want of it.
fn close<O: Sink>(alloc: Global, closing: Closing, sink: &mut O) -> u8
    ensures closes { ClosesRun closing result (O.written sink.old) (O.written sink.new) }
    ensures sink { FaultsByRoom (O.faults sink.old) (O.faults sink.new) (O.room sink.old) (O.room sink.new)
        (result ≡ 5) }
    ensures status { result ≢ 5 → result ≢ 8 → result ≡ status_of closing }
    ensures memory { result ≡ 8 → TakesMemory closing }
{
    match closing {
        Closing::ReadFault => finish(Closing::ReadFault, b"# read fault\n", sink),
        Closing::KeeperFault => finish(Closing::KeeperFault, b"# keeper fault\n", sink),
        _ => match closing.line(alloc) {
            Ok(line) => finish(closing, line.as_bytes(), sink),
            Err(_) => finish(Closing::NoMemory, b"# no memory\n", sink),
        },
    }
}

/// Does what the words after the program's name ask, ends with a closing line where the command has one, and answers
/// the status. What is kept changes by `import`, `past` and `tariff` alone, and as a whole.
pub fn office<S: Source, A: Source, O: Sink, K: Keeper, C: Crew, R: Threads + Sync>(
    rt: &R,
    alloc: Global,
    words: &[String],
    limits: &Limits,
    source: &mut S,
    aside: &mut A,
    sink: &mut O,
    keeper: &mut K,
    crew: &mut C,
) -> u8
    requires within { IsLimits limits.now }
    requires idle { C.out crew.old ≡ [] }
    ensures words { result ≢ 5 → result ≢ 8 → (result ≡ 1 ↔ (asked words.now ≡ None)) }
    ensures source { ReadsSource S.Source limits.now (asked words.now) (K.told keeper.old) result source.old source.new }
    ensures aside { ReadsAside S.Source A.Source limits.now (asked words.now) C.exact (K.told keeper.old) result
        source.old source.new aside.old aside.new }
    ensures read { ReadFaults (S.faults source.old) (S.faults source.new) (A.faults aside.old) (A.faults aside.new)
        (uses_source (asked words.now) ≡ true → NeverFails (S.plan source.old))
        (uses_aside (asked words.now) ≡ true → NeverFails (A.plan aside.old)) (result ≡ 4)
        ((result ≢ 5) × (result ≢ 6)) }
    ensures sink { WritesAsked S.Source A.Source O.Sink K.Keeper limits.now (asked words.now) C.exact result source.old
        aside.old keeper.old keeper.new sink.old sink.new }
    ensures keeper { KeepsAsked S.Source K.Keeper limits.now (asked words.now) C.exact result source.old keeper.old
        keeper.new }
    ensures crew { WorksAsked S.Source C.Crew limits.now (asked words.now) (K.told keeper.old) result source.old crew.old
        crew.new }
{
    let mut shards_seen = 0;
    match read_words(alloc, words) {
        Ok(command) => match perform(
            rt,
            alloc,
            CommandTerms {
                command,
                limits: *limits,
            },
            source,
            aside,
            sink,
            keeper,
            crew,
            &mut shards_seen,
        ) {
            Ok(Some(closing)) => close(alloc, closing, sink),
            Ok(None) => 0,
            Err(_) => 5,
        },
        Err(WordFault::Words) => close(alloc, Closing::Words, sink),
        Err(WordFault::NoMemory) => close(alloc, Closing::NoMemory, sink),
    }
}
