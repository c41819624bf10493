// A listener that tells its counts.
ghost use Rattle.std.specs.Prelude.{◌≡◌};
ghost use Rattle.serve_loops.specs.MemListeners.{accepted_by, faults_of};

use serve_loops::{Listener, MemListener};

/// A listener that tells its counts.
pub trait Ear: Listener {
    /// How many connections it accepted.
    fn accepted(&self) -> u64
        ensures { result ≡ Self.Listener.accepted self.now };

    /// How many of its calls failed.
    fn faults(&self) -> u64
        ensures { result ≡ Self.Listener.faults self.now };
}

impl Ear for MemListener {
    fn accepted(&self) -> u64 {
        self.accepted()
    }

    fn faults(&self) -> u64 {
        self.faults()
    }
}
