// A listener on a port of this machine.
ghost use Rattle.std.specs.Prelude.{◌≡◌};
ghost use Rattle.serve_top.specs.TcpDoors.{accepted_by, faults_of, address_of};

use crate::ear::Ear;
use crate::shared_room::SharedRoom;
use crate::tcp_turn::TcpTurn;
use road_io::Failed;
use serve_loops::Listener;
use serve_room::RoomLink;
use std::alloc::Global;
use std::sync::Wait;

/// One of the ears of a waiting room. It tells nothing of who connects, or of what is said. Where it gives up no ear of
/// the room hears any more.
#[derive(Drop)]
pub struct TcpEar<R> {
    pub(crate) rt: R,
    pub(crate) room: SharedRoom,
    pub(crate) alloc: Global,
    pub(crate) faults: u64,
    pub(crate) accepted: u64,
}

impl<R> TcpEar<R> {
    /// Has accepted nothing.
    pub fn new(rt: R, alloc: Global, room: SharedRoom) -> TcpEar<R>
        ensures accepted { accepted_by result ≡ 0 }
        ensures faults { faults_of result ≡ 0 }
        ensures address { address_of result ≡ room.at }
    {
        TcpEar {
            rt,
            room,
            alloc,
            faults: 0,
            accepted: 0,
        }
    }
}

impl<R: Wait + Copy + Drop + Send> Listener for TcpEar<R> {
    type Line = RoomLink;

    type Pass = TcpTurn<R>;

    ghost faults = { faults_of };

    ghost accepted = { accepted_by };

    ghost gives = { λ _ new line. Unit {0} };

    ghost takes = { λ _ new line. Unit {0} };

    fn accept(&mut self) -> Result<RoomLink, Failed> {
        match self.room.next(&self.rt, self.alloc) {
            Ok(line) => {
                self.accepted += 1;
                Ok(line)
            }
            Err(Failed) => {
                self.faults = self.faults.saturating_add(1);
                Err(Failed)
            }
        }
    }

    fn pass(&self, line: &mut RoomLink) -> TcpTurn<R> {
        TcpTurn {
            rt: self.rt,
            own: self.room.turn(line),
        }
    }

    fn end(&mut self, line: RoomLink) {
        self.room.end(&self.rt, line);
    }

    fn give_up(&mut self) {
        self.room.close();
        self.faults = self.faults.saturating_add(1);
    }
}

impl<R: Wait + Copy + Drop + Send> Ear for TcpEar<R> {
    fn accepted(&self) -> u64 {
        self.accepted
    }

    fn faults(&self) -> u64 {
        self.faults
    }
}
