// A waiting room that many ears hear in.
ghost use Rattle.std.specs.Prelude.{◌≡◌, IfOk};
ghost use Rattle.serve_room.specs.Addresses.{address_of};

use road_io::Failed;
use road_time::NoMemory;
use serve_room::{RoomLink, RoomTurn, Threshold, WaitingRoom};
use std::alloc::Global;
use std::net::SocketAddr;
use std::sync::{Arc, Mutex, Wait};

/// A waiting room under a lock, and its threshold beside it: who gives a connection back does not wait for the lock.
#[derive(Drop)]
pub struct SharedRoom {
    room: Arc<Mutex<WaitingRoom>, Global>,
    threshold: Arc<Threshold, Global>,
    pub(crate) at: SocketAddr,
}

impl SharedRoom {
    pub(crate) fn new(alloc: Global, room: WaitingRoom) -> Result<SharedRoom, NoMemory>
        ensures { IfOk result (λ shared. shared.at ≡ address_of room) }
    {
        let at = room.address();
        let Ok(threshold) = room.threshold() else {
            return Err(NoMemory);
        };
        let Ok(room) = Arc::new(alloc, Mutex::new(room)) else {
            return Err(NoMemory);
        };
        Ok(SharedRoom {
            room,
            threshold,
            at,
        })
    }

    /// The same room, for another ear.
    pub(crate) fn again(&self) -> Result<SharedRoom, NoMemory>
        ensures { IfOk result (λ shared. shared.at ≡ self.now.at) }
    {
        let Ok(room) = Arc::try_clone(&self.room) else {
            return Err(NoMemory);
        };
        let Ok(threshold) = Arc::try_clone(&self.threshold) else {
            return Err(NoMemory);
        };
        Ok(SharedRoom {
            room,
            threshold,
            at: self.at,
        })
    }

    /// The next connection that is to wait no more. While one ear waits for it the others wait for the room.
    pub(crate) fn next<R: Wait>(&self, rt: &R, alloc: Global) -> Result<RoomLink, Failed> {
        let mut room = self.room.lock(rt);
        room.next(rt, alloc)
    }

    /// The pass of a connection, if it has that. Where it cannot be taken out it comes back with the connection.
    pub(crate) fn turn(&self, line: &mut RoomLink) -> Option<RoomTurn> {
        match Arc::try_clone(&self.threshold) {
            Ok(threshold) => line.turn(threshold),
            Err(_) => None,
        }
    }

    /// Gives a connection back to the room.
    pub(crate) fn end<R: Wait>(&self, rt: &R, line: RoomLink) {
        line.leave(rt, &self.threshold);
    }

    /// Drops what still comes of the connections that were answered, for as long as their time is not over.
    pub(crate) fn drain_all<R: Wait>(&self, rt: &R) {
        let mut room = self.room.lock(rt);
        room.drain_all(rt);
    }

    /// Has no ear hear any more.
    pub(crate) fn close(&self) {
        self.threshold.close();
    }
}
