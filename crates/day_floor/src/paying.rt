// What was paid on an earlier day.
ghost use Rattle.std.specs.Prelude.{◌≡◌, false, IfOk};
ghost use Rattle.day_floor.specs.Answers.{IsPaid, history_of};
ghost use Rattle.day_floor.specs.Asking.{AsksOnce};
ghost use Rattle.day_floor.specs.Faults.{KeeperFaults, write_failed};

use crate::fault::SettleFault;
use keep_office::{KeepFault, Keeper};

/// What a vehicle paid on an expressway on a day, as the keeper has it.
pub fn paid_on<K: Keeper>(keeper: &mut K, day: u32, vid: u32, xway: u8) -> Result<u64, SettleFault>
    ensures paid { IfOk result (λ amount. IsPaid (history_of (K.told keeper.old)) day vid xway amount) }
    ensures same { K.told keeper.new ≡ K.told keeper.old }
    ensures once { AsksOnce result (K.plan keeper.old) (K.plan keeper.new) }
    ensures faults { KeeperFaults (K.faults keeper.old) (K.faults keeper.new) (K.plan keeper.old) (K.plan keeper.new)
        result }
    ensures other { write_failed result ≡ false }
{
    match keeper.spent(day, vid, xway) {
        Ok(amount) => Ok(amount),
        Err(KeepFault::Failed) => Err(SettleFault::KeeperFault),
        Err(KeepFault::NoMemory) => Err(SettleFault::NoMemory),
    }
}
