// Reading the head of a request.
ghost use Rattle.std.specs.Prelude.{◌≡◌, ◌≢◌, ◌≤◌, ◌<◌, ◌+◌, ℕ, List, length, take, drop, Some, IfOk};
ghost use Rattle.std.specs.Io.KnownBytes.{ReadConsumes};
ghost use Rattle.road_io.specs.Faults.{Rose, HasCause};
ghost use Rattle.road_io.specs.Plans.{AsPlanned, NeverFails};
ghost use Rattle.road_io.specs.Portions.{Moves, UpTo};
ghost use Rattle.road_io.specs.Within.{ReadsWithin};
ghost use Rattle.serve_requests.specs.Asks.{IsLook, IsHeld, IsLinkFront};
ghost use Rattle.serve_requests.specs.Fronts.{ReadsSoon};
ghost use Rattle.serve_requests.specs.declared.fronts.Front.TheVariants.{LinkFault};

use super::{Front, Look};
use httparse::Status;
use httparse::spans::{HeaderSpan, parse_request};
use road_io::{Failed, Link};

/// What stands first in some bytes.
fn look(buf: &[u8], headers: &mut [HeaderSpan]) -> Look
    requires { length headers.old ≡ 64 }
    ensures look { IsLook buf.now headers.new result }
    ensures room { length headers.new ≡ 64 }
{
    match parse_request(buf, headers) {
        Ok(Status::Complete(spans)) => Look::Whole(spans),
        Ok(Status::Partial) => Look::Open,
        Err(_) => Look::Never,
    }
}

/// Reads behind the bytes that a buffer holds.
fn read_behind<L: Link>(link: &mut L, buffer: &mut [u8], held: usize) -> Result<usize, Failed>
    requires { held < length buffer.old }
    ensures len { length buffer.new ≡ length buffer.old }
    ensures kept { take held buffer.new ≡ take held buffer.old }
    ensures count { IfOk result (λ n. held + n ≤ length buffer.old) }
    ensures bytes { ReadConsumes (L.left link.old) (L.left link.new) result (drop held buffer.new) }
    ensures planned { AsPlanned (L.plan link.old) (L.plan link.new) result }
    ensures portion { IfOk result (λ n. Moves (L.most link.old) (length (drop held buffer.old)) n) }
    ensures most_kept { L.most link.new ≡ L.most link.old }
    ensures unwritten { L.written link.new ≡ L.written link.old }
    ensures room_kept { L.room link.new ≡ L.room link.old }
    ensures cause { HasCause (L.faults link.old) (L.faults link.new) result }
{
    link.read(&mut buffer[held..])
}

/// Reads the head of a request, and no more than the buffer takes.
pub fn read_front<L: Link>(link: &mut L, buffer: &mut [u8], headers: &mut [HeaderSpan]) -> Front
    requires size { length buffer.old ≡ 8192 }
    requires fields { length headers.old ≡ 64 }
    ensures front { (bytes : List ℕ) → L.left link.old ≡ Some bytes
        → IsLinkFront bytes buffer.new headers.new (L.left link.new) result }
    ensures bounded { ReadsWithin 8192 (L.left link.old) (L.left link.new) }
    ensures soon { (bytes : List ℕ) (most : ℕ) → L.left link.old ≡ Some bytes → L.most link.old ≡ UpTo most
        → ReadsSoon most bytes (L.left link.new) }
    ensures held { IsHeld buffer.new headers.new result }
    ensures size { length buffer.new ≡ 8192 }
    ensures unwritten { L.written link.new ≡ L.written link.old }
    ensures room_kept { L.room link.new ≡ L.room link.old }
    ensures cause { result ≡ LinkFault → Rose (L.faults link.old) (L.faults link.new) }
    ensures later { L.faults link.old ≤ L.faults link.new }
    ensures sure { NeverFails (L.plan link.old) → result ≢ LinkFault }
    ensures still { NeverFails (L.plan link.old) → NeverFails (L.plan link.new) }
{
    let mut held: usize = 0;
    while held < 8192 {
        match look(&buffer[..held], headers) {
            Look::Whole(spans) => return Front::Head(held, spans),
            Look::Never => return Front::Bad,
            Look::Open => match read_behind(link, buffer, held) {
                Ok(0) => return Front::Cut,
                Ok(count) => held += count,
                Err(_) => return Front::LinkFault,
            },
        }
    }
    match look(&buffer[..held], headers) {
        Look::Whole(spans) => Front::Head(held, spans),
        Look::Open => Front::Bad,
        Look::Never => Front::Bad,
    }
}
