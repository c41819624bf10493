// What ears counted.
ghost use Rattle.std.specs.Prelude.{◌≡◌, ◌<◌, ◌^◌};
ghost use Rattle.serve_top.specs.Doors.{accepted_in, has_fault, counted_where};

use crate::ear::Ear;

/// How many connections ears accepted in all.
pub fn accepted_by_all<N: Ear>(ears: &[N]) -> u64
    requires { accepted_in N.Listener.accepted ears.now < 2 ^ 64 }
    ensures { result ≡ accepted_in N.Listener.accepted ears.now }
{
    let mut accepted = 0;
    for ear in ears {
        accepted += ear.accepted();
    }
    accepted
}

/// Whether an ear failed.
pub fn any_failed<N: Ear>(ears: &[N]) -> bool
    ensures { result ≡ has_fault N.Listener.faults ears.now }
{
    ears.iter().any(|ear| ear.faults() > 0)
}

/// A count, one more where something is to be counted.
pub fn counted(count: u64, here: bool) -> u64
    ensures { result ≡ counted_where here count }
{
    if here { count.saturating_add(1) } else { count }
}
