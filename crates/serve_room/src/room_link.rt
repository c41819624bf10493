// A connection that waited.
ghost use Rattle.std.specs.Prelude.{◌≡◌, refl};
ghost use Rattle.serve_room.specs.Streams.{with_stream};

use crate::front_link::FrontLink;
use crate::patience::PORTION_SECONDS;
use crate::patient::Patient;
use crate::posts::Kind;
use crate::threshold::Threshold;
use crate::turns::{OwnTurn, Pass};
use road_io::{Linking, TwoEnds};
use std::alloc::Global;
use std::net::{Shutdown, TcpStream};
use std::rt::HostRuntime;
use std::sync::{Arc, Wait};
use std::time::Duration;

/// The ends of a connection, which are one.
#[derive(Drop)]
pub struct RoomEnds {
    stream: Patient<TcpStream>,
}

impl TwoEnds for RoomEnds {
    type In = Patient<TcpStream>;

    type Out = Patient<TcpStream>;

    ghost inward = { λ e. e.stream };

    ghost outward = { λ e. e.stream };

    ghost with_inward = { with_stream };

    ghost with_outward = { with_stream };

    ghost in_is = { λ s end. refl };

    ghost in_keeps = { λ s end. refl };

    ghost out_is = { λ s end. refl };

    ghost out_keeps = { λ s end. refl };

    fn inward(&mut self) -> &mut Patient<TcpStream> {
        &mut self.stream
    }

    fn outward(&mut self) -> &mut Patient<TcpStream> {
        &mut self.stream
    }

    fn shut(&mut self) -> bool {
        let _ = self.stream.stream.shutdown(Shutdown::Write);
        false
    }
}

/// What is kept of a connection that left the room: the same connection again, for the room to drain, what it asks for,
/// and the pass of one that posts a day.
#[derive(Drop)]
pub struct Kept {
    pub(crate) again: Option<TcpStream>,
    pub(crate) kind: Kind,
    pub(crate) pass: Option<Pass>,
}

/// The pass that a connection took out of the room, and where it comes back. It cannot be let go but by `end`.
pub struct RoomTurn {
    pass: Pass,
    threshold: Arc<Threshold, Global>,
}

impl RoomTurn {
    /// Gives the pass back: the next connection that posts a day may leave the room, and this one is waited for no longer
    /// than its last portion.
    pub fn end<R: Wait>(self, rt: &R) {
        let RoomTurn { pass, threshold } = self;
        pass.end();
        threshold.give_back(rt, None, Some(pass), Kind::Free);
    }
}

/// A connection that waited for its head: what it sent meanwhile is read first. Reads then wait for it 30 seconds for
/// each 64 KiB, and once its turn is over 30 seconds in all; a write waits as long. Where the system gives no second handle
/// of a connection, it is not drained.
pub type RoomLink = FrontLink<Linking<RoomEnds>, Kept>;

/// The turn that begins with a pass, where there is one.
fn turn_of(pass: &Option<Pass>) -> Option<OwnTurn> {
    match pass {
        Some(pass) => pass.begin(),
        None => None,
    }
}

/// A link to a connection that left the room.
pub(crate) fn link_to(
    rt: HostRuntime,
    stream: TcpStream,
    front: Vec<u8>,
    kind: Kind,
    pass: Option<Pass>,
) -> RoomLink
    ensures front { result.front ≡ front }
    ensures at { result.at ≡ 0 }
    ensures kind { result.keep.kind ≡ kind }
    ensures pass { result.keep.pass ≡ pass }
{
    let _ = stream.set_nonblocking(false);
    let _ = stream.set_write_timeout(Some(Duration::from_secs(PORTION_SECONDS)));
    let again = stream.try_clone().ok();
    let ends = RoomEnds {
        stream: Patient::new(rt, stream, turn_of(&pass)),
    };
    FrontLink::over(front, Linking::over(rt, ends), Kept { again, kind, pass })
}

impl FrontLink<Linking<RoomEnds>, Kept> {
    /// The pass that it took out of the room, if it has that.
    pub fn turn(&mut self, threshold: Arc<Threshold, Global>) -> Option<RoomTurn> {
        let pass = self.keep.pass.take()?;
        Some(RoomTurn { pass, threshold })
    }

    /// Ends the connection: no more is written, and what still comes is left to the room, which drops it. Nobody waits
    /// for that.
    pub fn leave<R: Wait>(self, rt: &R, threshold: &Threshold) {
        let (link, kept) = self.into_parts();
        let Kept { again, kind, pass } = kept;
        drop(link);
        threshold.give_back(rt, again, pass, kind);
    }
}
