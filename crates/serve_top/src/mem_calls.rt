// What a door in memory does.
ghost use Rattle.std.specs.Prelude.{◌≡◌, ◌≢◌, ◌↔◌, ◌≤◌, ◌<◌, ◌^◌, ◌+◌, ◌++◌, true, All, Err, IfOk, OnErr, length};
ghost use Rattle.road_io.specs.Faults.{Rose};
ghost use Rattle.serve_loops.specs.MemListeners.{accepted_by, faults_of};
ghost use Rattle.serve_top.specs.Doors.{accepted_in, has_fault, counted_where};
ghost use Rattle.serve_top.specs.MemDoors.{ears_of, refuses_of, refused_by, faults_at, accepted_at, is_refused};
ghost use Rattle.serve_top.specs.declared.door.DoorFault.TheVariants.{Failed};

use crate::counting::{accepted_by_all, any_failed, counted};
use crate::door::{Door, DoorFault};
use crate::ears::Ears;
use crate::mem_door::MemDoor;
use serve_loops::MemListener;
use std::alloc::Global;
use std::mem::replace;

impl MemDoor {
    /// Has these listeners, which have accepted nothing and have no fault, and refuses each opening where it is told
    /// to.
    pub fn new(ears: Vec<MemListener>, refuses: bool) -> MemDoor
        requires { All (λ ear. (accepted_by ear ≡ 0) × (faults_of ear ≡ 0)) ears.items }
        ensures ears { ears_of result ≡ ears.items }
        ensures refuses { refuses_of result ≡ refuses }
        ensures unused { (refused_by result ≡ 0) × (faults_at result ≡ 0) × (accepted_at result ≡ 0) }
    {
        MemDoor {
            ears,
            refuses,
            refused: 0,
            faults: 0,
            accepted: 0,
        }
    }
}

impl Door for MemDoor {
    type Ear = MemListener;

    ghost refused = { refused_by };

    ghost faults = { faults_at };

    ghost accepted = { accepted_at };

    ghost acceptors_for = { λ readers. readers };

    ghost hears = { λ ear port. Unit {0} };

    fn acceptors(&self, readers: u8) -> u8 {
        readers
    }

    fn open(&mut self, _alloc: Global, _port: u16, ears: u8) -> Result<Ears<MemListener>, DoorFault>
        ensures count { IfOk result (λ opened. length opened ≡ ears) }
        ensures fresh { IfOk result (All (λ ear. (accepted_by ear ≡ 0) × (faults_of ear ≡ 0))) }
        ensures hears { IfOk result (All (λ ear. Unit {0})) }
        ensures cause { result ≡ Err Failed → Rose (refused_by self.old) (refused_by self.new) }
        ensures still { result ≢ Err Failed → refused_by self.new ≡ refused_by self.old }
        ensures later { refused_by self.old ≤ refused_by self.new }
        ensures faults { faults_at self.new ≡ faults_at self.old }
        ensures accepted { accepted_at self.new ≡ accepted_at self.old }
        ensures exact { result ≡ Err Failed ↔ is_refused self.old ears ≡ true }
        ensures refused { refused_by self.new ≡ counted_where (is_refused self.old ears) (refused_by self.old) }
        ensures given { IfOk result (λ opened. ears_of self.old ≡ opened ++ ears_of self.new) }
        ensures kept { OnErr result (ears_of self.new ≡ ears_of self.old) }
        ensures told { refuses_of self.new ≡ refuses_of self.old }
    {
        if self.refuses || self.ears.len() < ears as usize {
            self.refused = counted(self.refused, true);
            return Err(DoorFault::Failed);
        }
        match self.ears.split_off(ears as usize) {
            Ok(rest) => Ok(Ears::from_vec(replace(&mut self.ears, rest))),
            Err(_) => Err(DoorFault::NoMemory),
        }
    }

    fn close(&mut self, ears: Ears<MemListener>)
        requires room { accepted_at self.old + accepted_in accepted_by ears < 2 ^ 64 }
        ensures accepted { accepted_at self.new ≡ accepted_at self.old + accepted_in accepted_by ears }
        ensures faults { faults_at self.new ≡ counted_where (has_fault faults_of ears) (faults_at self.old) }
        ensures later { faults_at self.old ≤ faults_at self.new }
        ensures refused { refused_by self.new ≡ refused_by self.old }
        ensures left { ears_of self.new ≡ ears_of self.old }
        ensures told { refuses_of self.new ≡ refuses_of self.old }
    {
        self.accepted += accepted_by_all(ears.items());
        self.faults = counted(self.faults, any_failed(ears.items()));
    }
}
