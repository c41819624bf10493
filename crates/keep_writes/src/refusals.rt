// What a refusal of the database is to a keeper, and the count of faults.
ghost use Rattle.std.specs.Prelude.{◌≡◌, ◌↔◌, Some};
ghost use Rattle.keep_office.specs.Calls.{CountsFaults};
ghost use Rattle.keep_office.specs.declared.kept.KeepFault.TheVariants.{NoMemory};
ghost use Rattle.sqlite.specs.declared.error.Error.TheVariants.{SqliteFailure};
ghost use Rattle.sqlite.specs.declared.error.ErrorCode.TheVariants.{OutOfMemory};
ghost use Rattle.keep_writes.specs.Counts.{faults_after};

use keep_office::KeepFault;
use sqlite::{Error, ErrorCode};

/// Want of memory is want of memory, each other refusal a failure.
pub fn refusal(error: Error) -> KeepFault
    ensures { (result ≡ NoMemory) ↔ (error ≡ SqliteFailure OutOfMemory) }
{
    match error {
        Error::SqliteFailure(ErrorCode::OutOfMemory) => KeepFault::NoMemory,
        _ => KeepFault::Failed,
    }
}

/// The same, and the database's own error is told.
pub fn refusal_told(error: Error, why: &mut Option<Error>) -> KeepFault
    ensures fault { (result ≡ NoMemory) ↔ (error ≡ SqliteFailure OutOfMemory) }
    ensures says { why.new ≡ Some error }
{
    *why = Some(error);
    refusal(error)
}

/// Hands an answer on, and counts it where it is a failure.
pub fn count<T>(faults: &mut u64, answer: Result<T, KeepFault>) -> Result<T, KeepFault>
    ensures same { result ≡ answer }
    ensures counted { faults.new ≡ faults_after faults.old answer }
    ensures cause { CountsFaults faults.old faults.new answer }
{
    if let Err(KeepFault::Failed) = &answer {
        *faults = faults.saturating_add(1);
    }
    answer
}
