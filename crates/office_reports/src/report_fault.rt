// How a report fails.
ghost use Rattle.std.specs.Prelude.{◌≡◌};
ghost use Rattle.office_reports.specs.Endings.{refused_as};

use keep_office::KeepFault;
use thiserror::Error;

/// The day is not kept, the keeper failed, the amounts of this kept day do not come to its total, the sink failed, or
/// memory ran out.
#[derive(Clone, Copy, Debug, PartialEq, Eq, Error)]
pub enum ReportFault {
    #[error("the day is not kept")]
    NoDay,
    #[error("the keeper failed")]
    KeeperFault,
    #[error("the amounts of day {day} do not come to its total")]
    Unsound { day: u32 },
    #[error("a write failed")]
    WriteFault,
    #[error("no memory")]
    NoMemory,
}

/// The fault of a report whose keeper refused.
pub(crate) fn refused(fault: KeepFault) -> ReportFault
    ensures { result ≡ refused_as fault }
{
    match fault {
        KeepFault::Failed => ReportFault::KeeperFault,
        KeepFault::NoMemory => ReportFault::NoMemory,
    }
}
