// The bytes of an answer.
ghost use Rattle.std.specs.Prelude.{◌≡◌, codes, string_bytes, IfOk};
ghost use Rattle.serve_requests.specs.Replies as replies;

use http::StatusCode;
use road_time::NoMemory;
use std::alloc::Global;

/// The standard phrase of a status.
fn phrase_of(status: StatusCode) -> &'static str
    ensures { result.now ≡ replies.phrase_of status }
{
    match status.canonical_reason() {
        Some(phrase) => phrase,
        None => "",
    }
}

/// The status line, without its end.
pub(crate) fn status_line(alloc: Global, status: StatusCode) -> Result<String, NoMemory>
    ensures { IfOk result (λ s. string_bytes s ≡ replies.status_line status) }
{
    let code = status.as_u16();
    let phrase = phrase_of(status);
    Ok(format!(in alloc; "HTTP/1.1 {code} {phrase}")?)
}

/// The length of a body and what stands between it and the body.
pub(crate) fn length_field(alloc: Global, body: &str) -> Result<String, NoMemory>
    ensures { IfOk result (λ s. string_bytes s ≡ replies.length_field body.now) }
{
    let count = body.len();
    Ok(format!(in alloc; "Content-Length: {count}")?)
}

/// All the bytes of an answer.
pub fn reply_text(alloc: Global, status: StatusCode, body: &str) -> Result<String, NoMemory>
    ensures { IfOk result (λ s. string_bytes s ≡ replies.reply_bytes (record { status = status; body = body.now })) }
{
    let line = status_line(alloc, status)?;
    let length = length_field(alloc, body)?;
    Ok(format!(in alloc;
        "{line}\r\n{length}\r\nContent-Type: application/json\r\nConnection: close\r\n\r\n{body}"
    )?)
}

/// The answer for want of memory, which takes none.
pub fn no_memory_text() -> &'static [u8]
    ensures { result.now ≡ replies.reply_bytes replies.no_memory_reply }
{
    b"HTTP/1.1 500 Internal Server Error\r\nContent-Length: 18\r\nContent-Type: application/json\r\n\
        Connection: close\r\n\r\n{\"error\":\"memory\"}"
}

/// The answer where the keeper failed, which takes no memory.
pub fn keeper_text() -> &'static [u8]
    ensures { result.now ≡ replies.reply_bytes (replies.error_reply 503 (codes "keeper")) }
{
    b"HTTP/1.1 503 Service Unavailable\r\nContent-Length: 18\r\nContent-Type: application/json\r\n\
        Connection: close\r\n\r\n{\"error\":\"keeper\"}"
}

/// The answer where a day is not kept, which takes no memory.
pub fn no_day_text() -> &'static [u8]
    ensures { result.now ≡ replies.reply_bytes (replies.error_reply 404 (codes "no day")) }
{
    b"HTTP/1.1 404 Not Found\r\nContent-Length: 18\r\nContent-Type: application/json\r\n\
        Connection: close\r\n\r\n{\"error\":\"no day\"}"
}
