// Links in memory.
ghost use Rattle.std.specs.Prelude.{◌≡◌, ◌<◌, ◌≤◌, Some, None, true, false, length, IfOk, OnErr, IfSome};
ghost use Rattle.std.specs.Io.KnownBytes.{WriteAppends};
ghost use Rattle.road_io.specs.Links.{left_of, plan_of};
ghost use Rattle.road_io.specs.Portions.{AnyPart};
ghost use Rattle.road_io.specs.Rooms.{Takes, Refuses};
ghost use Rattle.road_io.specs.Outwards.{written_there, room_there};

use crate::lending::TwoWay;
use crate::link::Link;
use crate::memory::{MemLink, MemSink};
use crate::outward::Outward;
use crate::sink::{Sink, VoidSink};
use crate::source::Failed;

/// A link in memory: it is read from one, and written to a sink that can be taken out.
#[derive(Drop)]
pub struct BothWays {
    input: MemLink,
    out: Option<Outward<MemSink>>,
    faults: u64,
}

impl BothWays {
    /// Gives what the link has, and takes what the sink does.
    pub fn new(input: MemLink, output: MemSink) -> BothWays {
        BothWays {
            input,
            out: Some(Outward::to(output)),
            faults: 0,
        }
    }

    /// What was written to it, unless its outward direction is out.
    pub fn bytes(&self) -> &[u8] {
        match &self.out {
            Some(out) => out.sink.bytes(),
            None => b"",
        }
    }
}

/// Writes once, where the bytes still go out.
fn write_there(out: &mut Option<Outward<MemSink>>, piece: &[u8]) -> Result<usize, Failed>
    requires { 0 < length piece.now }
    ensures prefix { IfOk result (λ n. (0 < n) × (n ≤ length piece.now)) }
    ensures bytes { WriteAppends (written_there out.old) (written_there out.new) result piece.now }
    ensures took { IfOk result (λ n. Takes (room_there out.old) (room_there out.new) n) }
    ensures full { OnErr result (Refuses (room_there out.old) (room_there out.new) 1) }
{
    match out {
        Some(out) => match out.write(piece) {
            Ok(count) => Ok(count),
            Err(failed) => Err(failed),
        },
        None => Err(Failed),
    }
}

/// Takes out where bytes go, with no fault counted.
fn take_out(out: &mut Option<Outward<MemSink>>) -> Option<Outward<MemSink>>
    ensures written { IfSome result (λ o. written_there (Some o) ≡ written_there out.old) }
    ensures room { IfSome result (λ o. room_there (Some o) ≡ room_there out.old) }
    ensures faultless { IfSome result (λ o. o.faults ≡ 0) }
    ensures none { result ≡ None → out.new ≡ out.old }
{
    match out.take() {
        Some(taken) => Some(Outward::to(taken.sink)),
        None => None,
    }
}

impl Link for BothWays {
    ghost left = { λ l. Some (left_of l.input) };

    ghost plan = { λ l. Some (plan_of l.input) };

    ghost written = { λ l. written_there l.out };

    ghost room = { λ l. room_there l.out };

    ghost faults = { λ l. l.faults };

    ghost most = { λ l. AnyPart };

    fn read(&mut self, buf: &mut [u8]) -> Result<usize, Failed> {
        match self.input.read(buf) {
            Ok(count) => Ok(count),
            Err(failed) => {
                self.faults = self.faults.saturating_add(1);
                Err(failed)
            }
        }
    }

    fn write(&mut self, piece: &[u8]) -> Result<usize, Failed> {
        match write_there(&mut self.out, piece) {
            Ok(count) => Ok(count),
            Err(failed) => {
                self.faults = self.faults.saturating_add(1);
                Err(failed)
            }
        }
    }

    fn finish(&mut self) {}
}

impl TwoWay for BothWays {
    type Out = Outward<MemSink>;

    ghost lends = { true };

    fn outward(&mut self) -> Option<Outward<MemSink>> {
        take_out(&mut self.out)
    }

    fn put_back(&mut self, out: Outward<MemSink>) {
        if out.faults > 0 {
            self.faults = self.faults.saturating_add(1);
        }
        self.out = Some(out);
    }
}

/// A link in memory whose outward direction stays in it.
impl TwoWay for MemLink {
    type Out = VoidSink;

    ghost lends = { false };

    fn outward(&mut self) -> Option<VoidSink> {
        None
    }

    fn put_back(&mut self, _out: VoidSink) {}
}
