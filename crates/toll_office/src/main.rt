//! The tolling office of an expressway, over standard input and output and two files.
//!
//! `main` takes `--wait N` off the words, and hands what is left, standard input, the file `ASIDE_FILE`, standard output,
//! what is kept in the file `KEPT_FILE` and standard error to `answered`, beside helpers that take its jobs; then it
//! closes the crew with its helpers and what is kept, and ends with the status. A helper whose thread cannot be had helps
//! with nothing; with none of them the office's own thread runs all jobs.
#![tactic(auto)]

ghost use Rattle.std.specs.Prelude.{◌≡◌, ◌≢◌, ◌↔◌, ℕ, [], Some, None, map};
ghost use Rattle.std.specs.String.{string_bytes};
ghost use Rattle.road_io.specs.Blame.{FaultsByRoom};
ghost use Rattle.road_time.specs.declared.day.TheConstants.Limits.{DAY};
ghost use Rattle.day_import.specs.Faults.{FaultsBeside};
ghost use Rattle.office_commands.specs.Ran.{Ran};
ghost use Rattle.office_commands.specs.Uses.{asked};
ghost use Rattle.office_ends.specs.Anew.{BeginsAnew};
ghost use Rattle.office_ends.specs.Words.{renewal_said, drop_said};
ghost use Rattle.office_words.specs.Meaning.{means};
ghost use Rattle.office_words.specs.Waits.{words_left};

use keep_files::{Cause, KEPT_FILE, SqliteKeeper, close_said};
use keep_office::Keeper;
use office_commands::{ASIDE_FILE, Closing};
use office_ends::answered;
use office_words::{WordsLeft, wait_taken};
use road_io::{FileSource, Sink, Source, StdSink, StdSource, Writing, words_of};
use road_time::Limits;
use std::alloc::Global;
use std::process::ExitCode;
use std::sync::Wait;
use std::thread::Threads;
use ways_crews::{Crew, Crewed, NoGate, StandingCrew, beside, standing};

/// How many jobs may lie ready or be done, each in a cell of its own: one for each of the most workers.
const CELLS: u8 = 64;

/// How many helpers take jobs beside the office.
const HELPERS: u8 = 4;

/// The line of why a call of what is kept failed, none where there is no memory for it.
fn line_of(alloc: Global, cause: Option<Cause>) -> Option<String> {
    match cause {
        Some(cause) => format!(in alloc; "toll_office: {}: {}\n", KEPT_FILE, cause).ok(),
        None => None,
    }
}

/// The status of the office over streams and files that are given, by what it keeps and a crew: all that `answered`
/// promises of them. Why it failed is said to a sink of its own.
fn run_words<S: Source, A: Source, O: Sink, E: Sink, R: Threads + Sync, C: Crew>(
    rt: &HostRuntime,
    threads: &R,
    words: &[String],
    source: &mut S,
    aside: &mut A,
    sink: &mut O,
    keeper: &mut SqliteKeeper,
    err: &mut E,
    crew: &mut C,
) -> u8
    requires { C.out crew.old ≡ [] }
    ensures renewal { (base : ℕ) → renewal_said (map string_bytes words.now) ≡ Some base
        → BeginsAnew O.Sink ⟦<SqliteKeeper as Keeper>⟧ (drop_said (map string_bytes words.now)) base result
        (record { source = source.old; aside = aside.old; sink = sink.old; keeper = keeper.old; crew = crew.old })
        (record { source = source.new; aside = aside.new; sink = sink.new; keeper = keeper.new; crew = crew.new }) }
    ensures office { renewal_said (map string_bytes words.now) ≡ None
        → Ran S.Source A.Source O.Sink ⟦<SqliteKeeper as Keeper>⟧ C.Crew DAY (asked words.now) result
        (record { source = source.old; aside = aside.old; sink = sink.old; keeper = keeper.old; crew = crew.old })
        (record { source = source.new; aside = aside.new; sink = sink.new; keeper = keeper.new; crew = crew.new }) }
    ensures keeper { FaultsBeside (⟦<SqliteKeeper as Keeper>⟧.faults keeper.old)
        (⟦<SqliteKeeper as Keeper>⟧.faults keeper.new) (⟦<SqliteKeeper as Keeper>⟧.plan keeper.old) (result ≡ 6)
        (result ≢ 5) }
    ensures sink { FaultsByRoom (O.faults sink.old) (O.faults sink.new) (O.room sink.old) (O.room sink.new)
        (result ≡ 5) }
    ensures idle { C.out crew.new ≡ [] }
    ensures which { C.which crew.new ≡ C.which crew.old }
{
    let why = |keeper: &SqliteKeeper| line_of(rt.alloc(), keeper.cause());
    answered(
        threads,
        rt.alloc(),
        words,
        &Limits::DAY,
        source,
        aside,
        sink,
        keeper,
        &why,
        err,
        crew,
    )
}

/// The same over standard input, output and error and the two files, by all words: where another program has the file `KEPT_FILE` open, each call waits for
/// it as long as they say, and they are read without that.
fn run_waiting<R: Threads + Sync, C: Crew>(
    rt: &HostRuntime,
    threads: &R,
    words: Vec<String>,
    crew: &mut C,
) -> u8
    requires { C.out crew.old ≡ [] }
    ensures words { renewal_said (words_left (map string_bytes words.items)) ≡ None → result ≢ 5 → result ≢ 8
        → (result ≡ 1 ↔ (means (words_left (map string_bytes words.items)) ≡ None)) }
    ensures idle { C.out crew.new ≡ [] }
    ensures which { C.which crew.new ≡ C.which crew.old }
{
    let WordsLeft { seconds, words } = wait_taken(words);
    let Ok(mut aside) = FileSource::at(rt.alloc(), *rt, ASIDE_FILE) else {
        return Closing::NoMemory.status();
    };
    let Ok(mut keeper) = SqliteKeeper::waiting(rt.alloc(), *rt, KEPT_FILE, seconds) else {
        return Closing::NoMemory.status();
    };
    let mut source = StdSource::new(rt.stdin());
    let mut sink = StdSink::new(rt.stdout());
    let mut err = Writing::new(rt.stderr());
    let status = run_words(
        rt,
        threads,
        words.as_slice(),
        &mut source,
        &mut aside,
        &mut sink,
        &mut keeper,
        &mut err,
        crew,
    );
    close_said(rt, keeper, "toll_office");
    status
}

/// The same by the words that the program is given.
fn run_office<R: Threads + Sync, C: Crew>(rt: &HostRuntime, threads: &R, crew: &mut C) -> u8
    requires { C.out crew.old ≡ [] }
    ensures idle { C.out crew.new ≡ [] }
    ensures which { C.which crew.new ≡ C.which crew.old }
{
    let Ok(words) = words_of(rt) else {
        return Closing::NoMemory.status();
    };
    run_waiting(rt, threads, words, crew)
}

/// The same by a standing crew, which is told to stop then.
fn run_and_stop<R: Threads + Wait + Sync + Drop>(
    rt: &HostRuntime,
    threads: &R,
    crew: StandingCrew<R, NoGate>,
) -> (StandingCrew<R, NoGate>, u8)
    requires { ⟦<StandingCrew<R, NoGate> as Crew>⟧.out crew ≡ [] }
    ensures idle { ⟦<StandingCrew<R, NoGate> as Crew>⟧.out result.0 ≡ [] }
    ensures which { ⟦<StandingCrew<R, NoGate> as Crew>⟧.which result.0
        ≡ ⟦<StandingCrew<R, NoGate> as Crew>⟧.which crew }
{
    let mut crew = crew;
    let status = run_office(rt, threads, &mut crew);
    crew.stop();
    (crew, status)
}

fn main(rt: HostRuntime) -> ExitCode {
    let Ok(crewed) = standing(rt, rt.alloc(), CELLS, HELPERS, false, NoGate) else {
        return ExitCode::from(Closing::NoMemory.status());
    };
    let Crewed { crew, helpers } = crewed;
    let (helpers, (crew, status)) = beside(&rt, &NoGate, helpers, || run_and_stop(&rt, &rt, crew));
    crew.close(helpers);
    ExitCode::from(status)
}
