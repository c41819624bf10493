// Whether a connection's first bytes are all that is waited for.
ghost use Rattle.std.specs.Prelude.{◌≡◌, true, false};
ghost use Rattle.serve_room.specs.Heads.{NeedsNoMore, WaitsOn};

use httparse::Status;
use httparse::spans::{EMPTY_HEADER_SPAN, parse_request};

/// How many bytes a head has at most.
pub(crate) const FRONT: usize = 8192;

/// Whether nothing more is needed to tell the head: it is whole, or whatever follows is none.
pub(crate) fn is_told(held: &[u8]) -> bool
    ensures told { result ≡ true → NeedsNoMore held.now }
    ensures waits { result ≡ false → WaitsOn held.now }
{
    let mut headers = [EMPTY_HEADER_SPAN; 64];
    match parse_request(held, &mut headers) {
        Ok(Status::Complete(_)) => true,
        Ok(Status::Partial) => false,
        Err(_) => true,
    }
}
