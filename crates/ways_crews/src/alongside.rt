// Helpers in threads of their own, beside the work of the caller.
ghost use Rattle.std.specs.Prelude.{◌≡◌, length, All};
ghost use denote.Param.Send.{IsSend, IsSync};
ghost use Rattle.ways_crews.specs.Boards.{board_id};
ghost use Rattle.ways_crews.specs.Helpers.{AreHelpersOf, CrewName};

use crate::gate::Gate;
use crate::helper::{Helper, Helpers, help_on};
use std::sync::Wait;
use std::thread;
use std::thread::{Threads, join};

/// Lets each of the helpers help in a thread of its own. One whose thread cannot be had comes after another,
/// sees the stop and is handed back.
fn help_each<R: Threads + Wait + Sync, G: Gate + Sync>(rt: &R, gate: &G, helpers: &mut [Helper])
    ensures { (crew : CrewName) → AreHelpersOf crew helpers.old → AreHelpersOf crew helpers.new }
{
    let threads = helpers.len();
    if threads != 0 {
        thread::for_each_mut(
            rt,
            helpers,
            threads,
            &|_, helper: &mut Helper|
                ensures { board_id helper.exit.now.board ≡ board_id helper.entry.now.board }
            { help_on(rt, helper, gate) },
        );
    }
}

/// Lets helpers help in threads of their own while the caller works. The work is to raise the stop. Where no
/// thread can be had they come after the work, see the stop and are handed back.
pub fn beside<R: Threads + Wait + Sync, G: Gate + Sync, F: FnOnce() -> A, A>(
    rt: &R,
    gate: &G,
    helpers: Helpers,
    work: F,
) -> (Helpers, A)
    requires { F.pre work }
    ensures helpers { (crew : CrewName) → AreHelpersOf crew helpers.items → AreHelpersOf crew result.0.items }
    ensures work { F.post work result.1 }
{
    let mut all = helpers;
    join(
        rt,
        move || -> Helpers
            ensures { (crew : CrewName) → AreHelpersOf crew all.items → AreHelpersOf crew result.items }
        {
            help_each(rt, gate, all.as_mut_slice());
            all
        },
        work,
    )
}
