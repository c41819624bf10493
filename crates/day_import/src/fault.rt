// Why a day is stopped.
ghost use Rattle.std.specs.Prelude.{◌≡◌};
ghost use Rattle.day_import.specs.DayFaults.{of_settling, of_reading, of_round};

use day_floor::SettleFault;
use day_reading::ReadStop;
use thiserror::Error;

/// Why a day is stopped.
#[derive(Clone, Copy, Debug, PartialEq, Eq, Error)]
pub enum DayFault {
    /// The source failed, and counted it.
    #[error("a read failed")]
    ReadFault,
    /// The sink failed, and counted it.
    #[error("a write failed")]
    WriteFault,
    /// The keeper failed, and counted it.
    #[error("the keeper failed")]
    KeeperFault,
    #[error("no memory")]
    NoMemory,
}

/// Settling was stopped.
pub(crate) fn settling_stopped(fault: SettleFault) -> DayFault
    ensures { result ≡ of_settling fault }
{
    match fault {
        SettleFault::KeeperFault => DayFault::KeeperFault,
        SettleFault::WriteFault => DayFault::WriteFault,
        SettleFault::NoMemory => DayFault::NoMemory,
    }
}

/// Reading was stopped.
pub(crate) fn reading_stopped(stop: ReadStop) -> DayFault
    ensures { result ≡ of_reading stop }
{
    match stop {
        ReadStop::ReadFault => DayFault::ReadFault,
        ReadStop::NoMemory => DayFault::NoMemory,
    }
}

/// A round was stopped by its settling. Where memory ran out after a read had failed, the read is to blame.
pub(crate) fn round_stopped(fault: SettleFault, stop: Option<ReadStop>) -> DayFault
    ensures { result ≡ of_round fault stop }
{
    match fault {
        SettleFault::KeeperFault => DayFault::KeeperFault,
        SettleFault::WriteFault => DayFault::WriteFault,
        SettleFault::NoMemory => match stop {
            Some(stop) => reading_stopped(stop),
            None => DayFault::NoMemory,
        },
    }
}
