// The command `answers DAY`: the output of a day.
ghost use Rattle.std.specs.Prelude.{◌≡◌, ◌≢◌, [], Some, Ok, true};
ghost use Rattle.road_time.specs.Fits.{IsLimits};
ghost use Rattle.office_words.specs.Meaning.{IsRun};
ghost use Rattle.office_commands.specs.Commands.{answers_command};
ghost use Rattle.office_commands.specs.DayCommands.{ReadsAnswered, WroteRow, KeptRow, WorkedDay};
ghost use Rattle.office_commands.specs.Endings.{code_of};
ghost use Rattle.office_commands.specs.Starts.{SaysWorked};
ghost use Rattle.office_commands.specs.declared.closing.Closing.TheVariants.{Words};

use crate::closing::Closing;
use crate::outcome::ended;
use day_import::DayTerms;
use keep_office::Keeper;
use office_words::DayRun;
use road_io::{Failed, Sink, Source};
use road_time::Limits;
use std::alloc::Global;
use std::thread::Threads;
use ways_crews::Crew;

/// Answers what the source has, up to the first line that is refused. Nothing is kept.
pub fn answers<S: Source, O: Sink, K: Keeper, C: Crew, R: Threads>(
    rt: &R,
    alloc: Global,
    run: DayRun,
    limits: &Limits,
    source: &mut S,
    sink: &mut O,
    keeper: &mut K,
    crew: &mut C,
) -> Result<Option<Closing>, Failed>
    requires range { IsRun run }
    requires within { IsLimits limits.now }
    requires idle { C.out crew.old ≡ [] }
    ensures said { result ≢ Ok (Some Words) }
    ensures kept { K.told keeper.new ≡ K.told keeper.old }
    ensures source { ReadsAnswered S.Source run limits.now result source.old source.new }
    ensures sink { WroteRow S.Source O.Sink K.Keeper (C.exact ≡ true) (answers_command limits.now run) result source.old
        keeper.old keeper.new sink.old sink.new }
    ensures keeper { KeptRow S.Source K.Keeper (C.exact ≡ true) (answers_command limits.now run) result source.old
        keeper.old keeper.new }
    ensures crew { WorkedDay S.Source C.Crew run limits.now (SaysWorked (code_of result)) source.old crew.old crew.new }
{
    let terms = DayTerms {
        day: run.day,
        plan: run.plan,
        late: run.late,
        limits: *limits,
    };
    let done = day_import::answers(rt, alloc, terms, source, sink, keeper, crew);
    ended(run.day, done)
}
