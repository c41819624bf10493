// Why settling is stopped.
ghost use Rattle.std.specs.Prelude.{◌≡◌};

use road_time::NoMemory;
use thiserror::Error;

/// Why settling is stopped.
#[derive(Clone, Copy, Debug, PartialEq, Eq, Error)]
pub enum SettleFault {
    /// The keeper failed, and counted it.
    #[error("the keeper failed")]
    KeeperFault,
    /// The sink failed, and counted it.
    #[error("a write failed")]
    WriteFault,
    #[error("no memory")]
    NoMemory,
}

impl From<NoMemory> for SettleFault {
    ghost use Rattle.day_floor.specs.declared.fault.SettleFault.TheVariants.{NoMemory};

    ghost from_gives = { λ _ fault. fault ≡ NoMemory };

    fn from(_error: NoMemory) -> Self {
        SettleFault::NoMemory
    }
}
