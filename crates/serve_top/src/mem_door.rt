// A door in memory.
ghost use Rattle.std.specs.Prelude.{◌≡◌, All};
ghost use Rattle.serve_loops.specs.MemListeners.{accepted_by, faults_of};

use serve_loops::MemListener;

/// Has listeners in memory, which it gives in their order. It refuses an opening where it is told to, and where fewer
/// listeners are left than asked.
#[derive(Drop)]
pub struct MemDoor {
    pub(crate) ears: Vec<MemListener>,
    pub(crate) refuses: bool,
    pub(crate) refused: u64,
    pub(crate) faults: u64,
    pub(crate) accepted: u64,
    ghost fresh: { All (λ ear. (accepted_by ear ≡ 0) × (faults_of ear ≡ 0)) ears.items },
}
