// What a server opens to hear connections.
ghost use Rattle.std.specs.Prelude.{ℕ, ◌≡◌, ◌≢◌, ◌≤◌, ◌<◌, ◌^◌, ◌+◌, All, Err, IfOk, length};
ghost use Rattle.road_io.specs.Faults.{Rose};
ghost use Rattle.serve_top.specs.Doors.{accepted_in, has_fault, counted_where};
ghost use Rattle.serve_top.specs.declared.door.DoorFault.TheVariants.{Failed};

use crate::ears::Ears;
use serve_loops::Listener;
use std::alloc::Global;
use thiserror::Error;

/// Why a door was not opened.
#[derive(Clone, Copy, Debug, PartialEq, Eq, Error)]
pub enum DoorFault {
    /// The opening was refused.
    #[error("the port was refused")]
    Failed,
    /// Memory ran out.
    #[error("no memory")]
    NoMemory,
}

/// Opens ears on a port, and closes them. `refused` counts the openings that were refused, `faults` the closings of
/// ears of which one had failed, and `accepted` the connections that closed ears had accepted. None of them falls.
/// `acceptors_for` is how many ears serve so many readers, and `hears` what is so of an ear on a port.
pub trait Door {
    type Ear: Listener + Send + Drop;

    ghost refused: { Self → ℕ };

    ghost faults: { Self → ℕ };

    ghost accepted: { Self → ℕ };

    ghost acceptors_for: { ℕ → ℕ };

    ghost hears: { Self.Ear → ℕ → Type 0 };

    /// How many ears are opened for so many readers.
    fn acceptors(&self, readers: u8) -> u8
        requires some { 1 ≤ readers }
        requires few { readers ≤ 64 }
        ensures exact { result ≡ acceptors_for readers }
        ensures enough { readers ≤ result }
        ensures few { result ≤ 64 };

    /// Opens 1 to 64 ears on a port, which have accepted nothing.
    fn open(&mut self, alloc: Global, port: u16, ears: u8) -> Result<Ears<Self::Ear>, DoorFault>
        requires some { 1 ≤ ears }
        requires few { ears ≤ 64 }
        ensures count { IfOk result (λ opened. length opened ≡ ears) }
        ensures fresh { IfOk result (All (λ ear. (Self.Ear.accepted ear ≡ 0) × (Self.Ear.faults ear ≡ 0))) }
        ensures hears { IfOk result (All (λ ear. hears ear port)) }
        ensures cause { result ≡ Err Failed → Rose (refused self.old) (refused self.new) }
        ensures still { result ≢ Err Failed → refused self.new ≡ refused self.old }
        ensures later { refused self.old ≤ refused self.new }
        ensures faults { faults self.new ≡ faults self.old }
        ensures accepted { accepted self.new ≡ accepted self.old };

    /// Closes ears, and counts what they accepted and whether one of them failed.
    fn close(&mut self, ears: Ears<Self::Ear>)
        requires room { accepted self.old + accepted_in Self.Ear.accepted ears < 2 ^ 64 }
        ensures accepted { accepted self.new ≡ accepted self.old + accepted_in Self.Ear.accepted ears }
        ensures faults { faults self.new ≡ counted_where (has_fault Self.Ear.faults ears) (faults self.old) }
        ensures later { faults self.old ≤ faults self.new }
        ensures refused { refused self.new ≡ refused self.old };
}
