// Whoever publishes a day's accounts.
ghost use Rattle.std.specs.Prelude.{◌≡◌, IsOk, OnOk, OnErr, map};
ghost use Rattle.std.specs.Option.{option_map};
ghost use Rattle.day_floor.specs.Operations.{Begin, Step, charge_of, posted_with, IsRefused};
ghost use Rattle.day_floor.specs.Boards.{FitsBoard};

use road_time::NoMemory;

/// A toll that a vehicle was charged for a stay on an expressway.
#[derive(Clone, Copy, Debug, PartialEq, Eq)]
pub struct Charged {
    pub vid: u32,
    pub xway: u8,
    pub toll: u64,
}

/// Takes what is charged as operations: a day begins, and steps of charges up to a mark.
/// `posted` has the operations that are published and queued, where the publisher tells that, and `which` the numbers
/// that tell which publisher it is.
pub trait Publisher {
    ghost use Rattle.std.specs.Prelude.{ℕ, List, Option};
    ghost use Rattle.day_floor.specs.Operations.{Posted};

    ghost posted: { Self → Option Posted };

    ghost which: { Self → List ℕ };

    /// Publishes what is queued, and that a day begins. The one error is want of memory, and then nothing is published.
    fn begin(&mut self, day: u32) -> Result<(), NoMemory>
        ensures which { which self.new ≡ which self.old }
        ensures ok { OnOk result (posted self.new ≡ option_map (posted_with (Begin day)) (posted self.old)) }
        ensures err { OnErr result (IsRefused (Begin day) (posted self.old) (posted self.new)) };

    /// Publishes what is queued, and the charges up to a mark. It asks that the tolls since the day began sum up to
    /// less than 2^63. The one error is want of memory, and then nothing is published.
    fn publish(&mut self, charges: &[Charged], mark: u64) -> Result<(), NoMemory>
        requires { FitsBoard (Step (map charge_of charges.now) mark) (posted self.old) }
        ensures which { which self.new ≡ which self.old }
        ensures ok { OnOk result (posted self.new
            ≡ option_map (posted_with (Step (map charge_of charges.now) mark)) (posted self.old)) }
        ensures err { OnErr result (IsRefused (Step (map charge_of charges.now) mark) (posted self.old)
            (posted self.new)) };
}

/// Publishes nothing, keeps nothing and is never refused.
#[derive(Clone, Copy, Debug, PartialEq, Eq)]
pub struct NoPublisher;

impl Publisher for NoPublisher {
    ghost use Rattle.std.specs.Prelude.{[], None};

    ghost posted = { λ _. None };

    ghost which = { λ _. [] };

    fn begin(&mut self, _day: u32) -> Result<(), NoMemory>
        ensures taken { IsOk result }
    {
        Ok(())
    }

    fn publish(&mut self, _charges: &[Charged], _mark: u64) -> Result<(), NoMemory>
        ensures taken { IsOk result }
    {
        Ok(())
    }
}
