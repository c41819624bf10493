// The count of faults.
ghost use Rattle.std.specs.Prelude.{◌≡◌};
ghost use Rattle.keep_office.specs.Calls.{CountsFaults};

use crate::kept::KeepFault;

/// Hands an answer on, and counts it where it is a failure.
pub fn count<T>(faults: &mut u64, answer: Result<T, KeepFault>) -> Result<T, KeepFault>
    ensures same { result ≡ answer }
    ensures cause { CountsFaults faults.old faults.new answer }
{
    if let Err(KeepFault::Failed) = &answer {
        *faults = faults.saturating_add(1);
    }
    answer
}
