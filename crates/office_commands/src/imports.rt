// The command `import DAY`: the output of a day, which is kept from then on.
ghost use Rattle.std.specs.Prelude.{◌≡◌, ◌≢◌, [], Some, Ok, true};
ghost use Rattle.keep_office.specs.Office.{Office};
ghost use Rattle.road_time.specs.Fits.{IsLimits};
ghost use Rattle.day_import.specs.Imports.{PutsOnce};
ghost use Rattle.office_words.specs.Meaning.{IsRun};
ghost use Rattle.office_commands.specs.Commands.{import_command};
ghost use Rattle.office_commands.specs.DayCommands.{ReadsImported, WroteRow, KeptRow, WorkedDay};
ghost use Rattle.office_commands.specs.Endings.{HoldsSame, code_of};
ghost use Rattle.office_commands.specs.Starts.{SaysImported};
ghost use Rattle.office_commands.specs.declared.closing.Closing.TheVariants.{Words};

use crate::closing::Closing;
use crate::outcome::ended;
use day_floor::NoPublisher;
use day_import::DayTerms;
use keep_office::Keeper;
use office_words::DayRun;
use road_io::{Failed, Sink, Source};
use road_time::Limits;
use std::alloc::Global;
use std::thread::Threads;
use ways_crews::Crew;

/// Imports what the source has as a day, once.
pub fn import<S: Source, O: Sink, K: Keeper, C: Crew, R: Threads>(
    rt: &R,
    alloc: Global,
    run: DayRun,
    limits: &Limits,
    source: &mut S,
    sink: &mut O,
    keeper: &mut K,
    crew: &mut C,
) -> Result<Option<Closing>, Failed>
    requires range { IsRun run }
    requires within { IsLimits limits.now }
    requires idle { C.out crew.old ≡ [] }
    ensures said { result ≢ Ok (Some Words) }
    ensures held { HoldsSame (code_of result) (K.told keeper.new ≡ K.told keeper.old) }
    ensures puts { (o : Office) → K.told keeper.old ≡ Some o → PutsOnce run.day o (K.told keeper.new) }
    ensures source { ReadsImported S.Source run limits.now (K.told keeper.old) result source.old source.new }
    ensures sink { WroteRow S.Source O.Sink K.Keeper (C.exact ≡ true) (import_command limits.now run) result source.old
        keeper.old keeper.new sink.old sink.new }
    ensures keeper { KeptRow S.Source K.Keeper (C.exact ≡ true) (import_command limits.now run) result source.old
        keeper.old keeper.new }
    ensures crew { WorkedDay S.Source C.Crew run limits.now (SaysImported run.day (K.told keeper.old) (code_of result))
        source.old crew.old crew.new }
{
    let mut publisher = NoPublisher;
    let terms = DayTerms {
        day: run.day,
        plan: run.plan,
        late: run.late,
        limits: *limits,
    };
    let done = day_import::import(rt, alloc, terms, source, sink, keeper, crew, &mut publisher);
    ended(run.day, done)
}
