// What a keeper that refuses makes of a command.
ghost use Rattle.std.specs.Prelude.{◌≡◌};
ghost use Rattle.office_commands.specs.Endings.{refusing};

use crate::closing::Closing;
use keep_office::KeepFault;

/// The closing of a command whose keeper refused.
pub fn refused(fault: KeepFault) -> Closing
    ensures { result ≡ refusing fault }
{
    match fault {
        KeepFault::Failed => Closing::KeeperFault,
        KeepFault::NoMemory => Closing::NoMemory,
    }
}
