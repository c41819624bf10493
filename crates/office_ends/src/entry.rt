// The command: the office begins anew, and a closing line is written.
ghost use Rattle.std.specs.Prelude.{◌≡◌, ◌≢◌, ◌≤◌, Some};
ghost use Rattle.road_io.specs.Blame.{FaultsByPlan, FaultsByRoom};
ghost use Rattle.keep_office.specs.Office.{Office};
ghost use Rattle.keep_office.specs.Renewals.{HaltsRenewal, IsRenewedOr, renew_answer};
ghost use Rattle.keep_office.specs.declared.kept.KeepFault.{KeepFault as KeepFaultValue};
ghost use Rattle.day_import.specs.Faults.{FaultsBeside};
ghost use Rattle.office_ends.specs.declared.ending.Ending.{Ending as EndingValue};
ghost use Rattle.office_ends.specs.declared.ending.Ending.TheVariants.{KeeperFault};
ghost use Rattle.office_ends.specs.Drops.{anew, command_answer, DoesCommand, DoesEnding};
ghost use Rattle.office_ends.specs.Endings.{failing, status_of, Closes};

use crate::dropping::{dropped, find_unfit, is_named};
use crate::ending::{Ending, ended};
use keep_office::{KeepFault, Renews, renew};
use road_io::{Sink, put_all};
use std::alloc::Global;

/// Writes the closing line of a run. It takes no memory, so that no ending is told as want of it.
fn close<O: Sink>(ending: Ending, sink: &mut O) -> u8
    ensures closes { Closes ending result (O.written sink.old) (O.written sink.new) }
    ensures sink { FaultsByRoom (O.faults sink.old) (O.faults sink.new) (O.room sink.old) (O.room sink.new)
        (result ≡ 5) }
    ensures status { result ≢ 5 → result ≡ status_of ending }
{
    let line = ending.line();
    match put_all(sink, line.as_str().as_bytes()) {
        Ok(()) => ending.status(),
        Err(_) => 5,
    }
}

/// Begins anew, where so many amounts go, and says how the command ends.
fn begun<K: Renews>(alloc: Global, base: u32, count: u64, keeper: &mut K) -> Ending
    requires { 70 ≤ base }
    ensures does { (o : Office) → K.Keeper.told keeper.old ≡ Some o
        → DoesEnding (anew count base o) (K.Keeper.told keeper.new) result }
    ensures whole { (o : Office) → K.Keeper.told keeper.old ≡ Some o → IsRenewedOr base o (K.Keeper.told keeper.new) }
    ensures halts { (o : Office) (fault : KeepFaultValue) → K.Keeper.told keeper.old ≡ Some o → result ≡ failing fault
        → HaltsRenewal K.Keeper.refuses fault (renew_answer base o) o (K.Keeper.told keeper.new) }
    ensures keeper { FaultsByPlan (K.Keeper.faults keeper.old) (K.Keeper.faults keeper.new) (K.Keeper.plan keeper.old)
        (result ≡ KeeperFault) }
{
    match find_unfit(base, keeper) {
        Ok(unfit) => {
            let done = renew(alloc, base, keeper);
            ended(done, count, unfit)
        }
        Err(KeepFault::Failed) => Ending::KeeperFault,
        Err(KeepFault::NoMemory) => Ending::NoMemory,
    }
}

/// Begins anew, unless amounts would go whose number is not named, and says how the command ends.
fn renewed<K: Renews>(alloc: Global, base: u32, named: Option<u64>, keeper: &mut K) -> Ending
    requires { 70 ≤ base }
    ensures does { (o : Office) → K.Keeper.told keeper.old ≡ Some o
        → DoesEnding (command_answer named base o) (K.Keeper.told keeper.new) result }
    ensures whole { (o : Office) → K.Keeper.told keeper.old ≡ Some o → IsRenewedOr base o (K.Keeper.told keeper.new) }
    ensures halts { (o : Office) (fault : KeepFaultValue) → K.Keeper.told keeper.old ≡ Some o → result ≡ failing fault
        → HaltsRenewal K.Keeper.refuses fault (renew_answer base o) o (K.Keeper.told keeper.new) }
    ensures keeper { FaultsByPlan (K.Keeper.faults keeper.old) (K.Keeper.faults keeper.new) (K.Keeper.plan keeper.old)
        (result ≡ KeeperFault) }
{
    match dropped(base, keeper) {
        Ok(None) => begun(alloc, base, 0, keeper),
        Ok(Some(count)) => {
            if !is_named(named, count) {
                return Ending::Drops { rows: count };
            }
            begun(alloc, base, count, keeper)
        }
        Err(KeepFault::Failed) => Ending::KeeperFault,
        Err(KeepFault::NoMemory) => Ending::NoMemory,
    }
}

/// Begins anew at a base above the last day, ends with a closing line, and answers the status. Where something is kept, a
/// base above the day after the last kept one is refused, unless the number of amounts is named that go and would stay at
/// that day. What is kept changes as a whole.
pub fn begin_anew<O: Sink, K: Renews>(
    alloc: Global,
    base: u32,
    named: Option<u64>,
    sink: &mut O,
    keeper: &mut K,
) -> u8
    requires { 70 ≤ base }
    ensures does { (o : Office) → K.Keeper.told keeper.old ≡ Some o
        → DoesCommand (command_answer named base o) (K.Keeper.told keeper.new) result (O.written sink.old)
        (O.written sink.new) }
    ensures says { (e : EndingValue) × Closes e result (O.written sink.old) (O.written sink.new) }
    ensures whole { (o : Office) → K.Keeper.told keeper.old ≡ Some o → IsRenewedOr base o (K.Keeper.told keeper.new) }
    ensures halts { (o : Office) (fault : KeepFaultValue) → K.Keeper.told keeper.old ≡ Some o
        → result ≡ status_of (failing fault)
        → HaltsRenewal K.Keeper.refuses fault (renew_answer base o) o (K.Keeper.told keeper.new) }
    ensures sink { FaultsByRoom (O.faults sink.old) (O.faults sink.new) (O.room sink.old) (O.room sink.new)
        (result ≡ 5) }
    ensures keeper { FaultsBeside (K.Keeper.faults keeper.old) (K.Keeper.faults keeper.new) (K.Keeper.plan keeper.old)
        (result ≡ 6) (result ≢ 5) }
{
    let ending = renewed(alloc, base, named, keeper);
    close(ending, sink)
}
