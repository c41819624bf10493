// Sending an answer.
ghost use Rattle.std.specs.Prelude.{◌≡◌, ◌≢◌, ◌≤◌, length};
ghost use Rattle.road_io.specs.Faults.{Rose};
ghost use Rattle.serve_requests.specs.Replies.{no_memory_reply};
ghost use Rattle.serve_requests.specs.Sends.{Sends, SendsReply, Replies, HasRoom, HasRoomFor};
ghost use Rattle.serve_requests.specs.Sends.{SendsPage, HasRoomForPage};
ghost use Rattle.serve_requests.specs.declared.session_end.SessionEnd.TheVariants.{LinkFault};

use crate::page::page_text;
use crate::replies::{no_memory_text, reply_text};
use crate::session_end::SessionEnd;
use http::StatusCode;
use road_io::{Link, send_all};
use std::alloc::Global;

/// Sends bytes whose session ends with a status.
pub fn send_bytes<L: Link>(link: &mut L, status: u16, bytes: &[u8]) -> SessionEnd
    ensures sent { Sends status bytes.now (L.written link.old) (L.written link.new) result }
    ensures unread { L.left link.new ≡ L.left link.old }
    ensures plan_kept { L.plan link.new ≡ L.plan link.old }
    ensures cause { result ≡ LinkFault → Rose (L.faults link.old) (L.faults link.new) }
    ensures sure { HasRoom (L.room link.old) (length bytes.now) → result ≢ LinkFault }
    ensures later { L.faults link.old ≤ L.faults link.new }
{
    match send_all(link, bytes) {
        Ok(()) => SessionEnd::Answered(status),
        Err(_) => SessionEnd::LinkFault,
    }
}

/// Sends the answer for want of memory.
pub fn send_no_memory<L: Link>(link: &mut L) -> SessionEnd
    ensures sent { SendsReply no_memory_reply (L.written link.old) (L.written link.new) result }
    ensures unread { L.left link.new ≡ L.left link.old }
    ensures plan_kept { L.plan link.new ≡ L.plan link.old }
    ensures cause { result ≡ LinkFault → Rose (L.faults link.old) (L.faults link.new) }
    ensures sure { HasRoomFor (L.room link.old) no_memory_reply → result ≢ LinkFault }
    ensures later { L.faults link.old ≤ L.faults link.new }
{
    send_bytes(link, 500, no_memory_text())
}

/// Sends an answer with a body.
pub fn send_reply<L: Link>(
    alloc: Global,
    link: &mut L,
    status: StatusCode,
    body: &str,
) -> SessionEnd
    ensures sent { Replies (record { status = status; body = body.now }) (L.written link.old)
        (L.written link.new) result }
    ensures unread { L.left link.new ≡ L.left link.old }
    ensures plan_kept { L.plan link.new ≡ L.plan link.old }
    ensures cause { result ≡ LinkFault → Rose (L.faults link.old) (L.faults link.new) }
    ensures sure { HasRoomFor (L.room link.old) (record { status = status; body = body.now }) → result ≢ LinkFault }
    ensures later { L.faults link.old ≤ L.faults link.new }
{
    match reply_text(alloc, status, body) {
        Ok(text) => send_bytes(link, status.as_u16(), text.as_bytes()),
        Err(_) => send_no_memory(link),
    }
}

/// Sends the page to watch the day by.
pub fn send_page<L: Link>(alloc: Global, link: &mut L) -> SessionEnd
    ensures sent { SendsPage (L.written link.old) (L.written link.new) result }
    ensures unread { L.left link.new ≡ L.left link.old }
    ensures plan_kept { L.plan link.new ≡ L.plan link.old }
    ensures cause { result ≡ LinkFault → Rose (L.faults link.old) (L.faults link.new) }
    ensures sure { HasRoomForPage (L.room link.old) → result ≢ LinkFault }
    ensures later { L.faults link.old ≤ L.faults link.new }
{
    match page_text(alloc) {
        Ok(text) => send_bytes(link, 200, text.as_bytes()),
        Err(_) => send_no_memory(link),
    }
}
