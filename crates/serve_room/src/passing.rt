// Faults of accept that pass.
ghost use Rattle.std.specs.Prelude.{◌≡◌};
ghost use Rattle.std.specs.IoError.{raw_os_error};
ghost use Rattle.serve_room.specs.Passing.{is_passing};

use std::io;

/// Linux's numbers of the faults of accept after which it has programs try again.
const PASSING: [i32; 17] = [
    1, 11, 12, 23, 24, 64, 71, 92, 95, 100, 101, 103, 104, 105, 110, 112, 113,
];

/// Whether a fault of accept passes: where it has a number, and Linux has programs try again after it.
pub(crate) fn passes(fault: &io::Error) -> bool
    ensures { result ≡ is_passing (raw_os_error fault.now) }
{
    match fault.raw_os_error() {
        Some(number) => PASSING.contains(&number),
        None => false,
    }
}
