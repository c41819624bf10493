// The answers of requests that are refused at once.
ghost use Rattle.std.specs.Prelude.{◌≡◌, ◌≢◌, ◌≤◌};
ghost use Rattle.road_io.specs.Faults.{Rose};
ghost use Rattle.serve_requests.specs.Replies.{reply_bytes};
ghost use Rattle.serve_requests.specs.Sends.{SendsReply, HasRoom, refusal_reply, refusal_room};
ghost use Rattle.serve_requests.specs.declared.session_end.SessionEnd.TheVariants.{LinkFault};

use crate::sending::send_bytes;
use crate::session_end::SessionEnd;
use crate::wanted::Refusal;
use road_io::Link;

/// The status of a refusal's answer.
fn refusal_status(refusal: Refusal) -> u16
    ensures { result ≡ (refusal_reply refusal).status }
{
    match refusal {
        Refusal::BadHead => 400,
        Refusal::BadOrigin => 403,
        Refusal::NoPath => 404,
        Refusal::BadMethod => 405,
        Refusal::BadLength => 400,
        Refusal::LengthNeeded => 411,
        Refusal::TooLong => 413,
    }
}

/// All the bytes of a refusal's answer, which take no memory.
fn refusal_text(refusal: Refusal) -> &'static [u8]
    ensures { result.now ≡ reply_bytes (refusal_reply refusal) }
{
    match refusal {
        Refusal::BadHead => {
            b"HTTP/1.1 400 Bad Request\r\nContent-Length: 16\r\nContent-Type: application/json\r\n\
                Connection: close\r\n\r\n{\"error\":\"head\"}"
        }
        Refusal::BadOrigin => {
            b"HTTP/1.1 403 Forbidden\r\nContent-Length: 18\r\nContent-Type: application/json\r\n\
                Connection: close\r\n\r\n{\"error\":\"origin\"}"
        }
        Refusal::NoPath => {
            b"HTTP/1.1 404 Not Found\r\nContent-Length: 19\r\nContent-Type: application/json\r\n\
                Connection: close\r\n\r\n{\"error\":\"no path\"}"
        }
        Refusal::BadMethod => {
            b"HTTP/1.1 405 Method Not Allowed\r\nContent-Length: 18\r\nContent-Type: application/json\r\n\
                Connection: close\r\n\r\n{\"error\":\"method\"}"
        }
        Refusal::BadLength => {
            b"HTTP/1.1 400 Bad Request\r\nContent-Length: 18\r\nContent-Type: application/json\r\n\
                Connection: close\r\n\r\n{\"error\":\"length\"}"
        }
        Refusal::LengthNeeded => {
            b"HTTP/1.1 411 Length Required\r\nContent-Length: 25\r\nContent-Type: application/json\r\n\
                Connection: close\r\n\r\n{\"error\":\"length needed\"}"
        }
        Refusal::TooLong => {
            b"HTTP/1.1 413 Payload Too Large\r\nContent-Length: 20\r\nContent-Type: application/json\r\n\
                Connection: close\r\n\r\n{\"error\":\"too long\"}"
        }
    }
}

/// Sends the answer of a request that is refused at once.
pub fn refuse<L: Link>(link: &mut L, refusal: Refusal) -> SessionEnd
    ensures sent { SendsReply (refusal_reply refusal) (L.written link.old) (L.written link.new) result }
    ensures unread { L.left link.new ≡ L.left link.old }
    ensures plan_kept { L.plan link.new ≡ L.plan link.old }
    ensures cause { result ≡ LinkFault → Rose (L.faults link.old) (L.faults link.new) }
    ensures sure { HasRoom (L.room link.old) refusal_room → result ≢ LinkFault }
    ensures later { L.faults link.old ≤ L.faults link.new }
{
    send_bytes(link, refusal_status(refusal), refusal_text(refusal))
}
