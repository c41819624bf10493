// What the program does, over given edges.
ghost use Rattle.std.specs.Prelude.{◌≡◌, ◌≢◌, ℕ, [], Some, None, map};
ghost use Rattle.std.specs.String.{string_bytes};
ghost use Rattle.std.specs.Fn.{FnReturnsAt};
ghost use Rattle.road_io.specs.Blame.{FaultsByRoom};
ghost use Rattle.road_time.specs.Fits.{IsLimits};
ghost use Rattle.day_import.specs.Faults.{FaultsBeside};
ghost use Rattle.office_commands.specs.Uses.{asked};
ghost use Rattle.office_ends.specs.Anew.{BeginsAnew};
ghost use Rattle.office_commands.specs.Ran.{Ran};
ghost use Rattle.office_ends.specs.Says.{Said, SaysWhy};
ghost use Rattle.office_ends.specs.Words.{renewal_said, drop_said};

use crate::entry::begin_anew;
use crate::saying::say_why;
use crate::words::{renewal_base, renewal_drop};
use keep_office::Renews;
use office_commands::office;
use road_io::{Sink, Source};
use road_time::Limits;
use std::alloc::Global;
use std::thread::Threads;
use ways_crews::Crew;

/// Begins anew where the words ask for that, and else does what `office` does. Where it failed, says why to a sink of
/// its own. The status is the program's.
pub fn answered<
    S: Source,
    A: Source,
    O: Sink,
    K: Renews,
    E: Sink,
    F: Fn(&K) -> Option<String>,
    C: Crew,
    R: Threads + Sync,
>(
    rt: &R,
    alloc: Global,
    words: &[String],
    limits: &Limits,
    source: &mut S,
    aside: &mut A,
    sink: &mut O,
    keeper: &mut K,
    why: &F,
    err: &mut E,
    crew: &mut C,
) -> u8
    requires within { IsLimits limits.now }
    requires idle { C.out crew.old ≡ [] }
    requires callable { F.IsAlwaysCallable why.now }
    ensures says { SaysWhy result (FnReturnsAt F.Fn why.now keeper.new)
        (Said (E.room err.old) (E.written err.old) (E.written err.new)) (err.new ≡ err.old) }
    ensures renewal { (base : ℕ) → renewal_said (map string_bytes words.now) ≡ Some base
        → BeginsAnew O.Sink K.Keeper (drop_said (map string_bytes words.now)) base result
        (record { source = source.old; aside = aside.old; sink = sink.old; keeper = keeper.old; crew = crew.old })
        (record { source = source.new; aside = aside.new; sink = sink.new; keeper = keeper.new; crew = crew.new }) }
    ensures office { renewal_said (map string_bytes words.now) ≡ None
        → Ran S.Source A.Source O.Sink K.Keeper C.Crew limits.now (asked words.now) result
        (record { source = source.old; aside = aside.old; sink = sink.old; keeper = keeper.old; crew = crew.old })
        (record { source = source.new; aside = aside.new; sink = sink.new; keeper = keeper.new; crew = crew.new }) }
    ensures keeper { FaultsBeside (K.Keeper.faults keeper.old) (K.Keeper.faults keeper.new) (K.Keeper.plan keeper.old)
        (result ≡ 6) (result ≢ 5) }
    ensures sink { FaultsByRoom (O.faults sink.old) (O.faults sink.new) (O.room sink.old) (O.room sink.new)
        (result ≡ 5) }
    ensures idle { C.out crew.new ≡ [] }
    ensures crew { C.which crew.new ≡ C.which crew.old }
{
    let Some(base) = renewal_base(words) else {
        let status = office(rt, alloc, words, limits, source, aside, sink, keeper, crew);
        say_why(status, keeper, why, err);
        return status;
    };
    let status = begin_anew(alloc, base, renewal_drop(words), sink, keeper);
    say_why(status, keeper, why, err);
    status
}
