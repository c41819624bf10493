// Keepers that may begin anew.
ghost use Rattle.keep_office.specs.Kept.{IsPastPut};
ghost use Rattle.keep_office.specs.Calls.{SoundIfTold, Puts, PutsAsPlanned, CountsFaults};
ghost use Rattle.keep_office.specs.Renewed.{anew};

use crate::calls::Keeper;
use crate::kept::{KeepFault, PastRecord};
use road_time::SpentRow;

/// A keeper that may begin anew.
pub trait Renews: Keeper {
    /// Lets go of all days, of all amounts and of the history, and keeps this history with its amounts: all of it, or
    /// none. The tariffs stay.
    fn put_anew(&mut self, kept: &PastRecord, rows: &[SpentRow]) -> Result<(), KeepFault>
        requires fits { IsPastPut kept.now rows.now }
        ensures state { Puts Self.Keeper.refuses (Self.Keeper.told self.old) (Self.Keeper.told self.new) result
            (anew kept.now rows.now) }
        ensures sound { SoundIfTold (Self.Keeper.told self.new) }
        ensures planned { PutsAsPlanned Self.Keeper.refuses (Self.Keeper.plan self.old) (Self.Keeper.plan self.new)
            result }
        ensures cause { CountsFaults (Self.Keeper.faults self.old) (Self.Keeper.faults self.new) result };
}
