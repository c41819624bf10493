// A connection that waited, whose outward direction can be taken out of it.
ghost use Rattle.std.specs.Prelude.{◌≡◌, true, IfSome};

use crate::front_link::FrontLink;
use crate::room_link::{Kept, RoomEnds};
use road_io::{Linking, Outward, TwoWay, Writing};
use std::net::TcpStream;

/// Where the bytes of a connection go out: by a second handle of it.
pub type Handle = Outward<Writing<TcpStream>>;

/// A second handle of a connection, if the system gives one.
fn handle_of(again: &Option<TcpStream>) -> Option<Handle>
    ensures { IfSome result (λ o. o.faults ≡ 0) }
{
    match again {
        Some(stream) => match stream.try_clone() {
            Ok(handle) => Some(Outward::to(Writing::new(handle))),
            Err(_) => None,
        },
        None => None,
    }
}

impl TwoWay for FrontLink<Linking<RoomEnds>, Kept> {
    type Out = Handle;

    ghost lends = { true };

    fn outward(&mut self) -> Option<Handle> {
        handle_of(&self.keep.again)
    }

    fn put_back(&mut self, out: Handle) {
        if out.faults > 0 {
            self.faults = self.faults.saturating_add(1);
        }
    }
}
