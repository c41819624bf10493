// What a head asks for.
ghost use Rattle.std.specs.Prelude.{◌≡◌, ◌≤◌, IfOk, All, map, length};
ghost use Rattle.httparse.specs.Grammar.{RequestHead};
ghost use Rattle.httparse.specs.Spans.{IsRequestAt, IsRequestWithin, name_and_value, IsHeaderWithin, header_bytes};
ghost use Rattle.serve_requests.specs.Paths.{path_of as path_of_target, path_place};
ghost use Rattle.serve_requests.specs.Requests.{wanted_of as wanted_of_head, asked_at as asked_at_place};
ghost use Rattle.serve_requests.specs.Requests.{only_get as only_get_of, only_post as only_post_of, answers_of};
ghost use Rattle.serve_requests.specs.Requests.{body_length as body_length_of};
ghost use Rattle.serve_requests.specs.Asks.{IsWanted};

use crate::fields::body_length;
use crate::origins::is_foreign;
use crate::paths::path_of;
use crate::place::DeskPlace;
use crate::routing::Routes;
use crate::wanted::{Refusal, Wanted};
use httparse::spans::{HeaderSpan, RequestSpans};

/// What only a GET asks for.
fn only_get(method: &[u8], wanted: Wanted) -> Result<Wanted, Refusal>
    ensures wanted { result ≡ only_get_of method.now wanted }
    ensures ranges { IsWanted wanted → IfOk result IsWanted }
{
    if method == b"GET".as_slice() {
        Ok(wanted)
    } else {
        Err(Refusal::BadMethod)
    }
}

/// What only a POST asks for: the notices of a day, whose body is as long as its fields say.
fn only_post(method: &[u8], day: u32, buf: &[u8], fields: &[HeaderSpan]) -> Result<Wanted, Refusal>
    requires within { All (IsHeaderWithin (length buf.now)) fields.now }
    requires day { (70 ≤ day) × (day ≤ 1000000) }
    ensures wanted { result ≡ only_post_of method.now (answers_of day
        (body_length_of (map (header_bytes buf.now) fields.now))) }
    ensures ranges { IfOk result IsWanted }
{
    if method == b"POST".as_slice() {
        let length = body_length(buf, fields)?;
        Ok(Wanted::Answers(day, length))
    } else {
        Err(Refusal::BadMethod)
    }
}

/// What is asked for at the place of a head's path.
fn asked_at(
    routes: &Routes,
    buf: &[u8],
    spans: &RequestSpans,
    headers: &[HeaderSpan],
) -> Result<Wanted, Refusal>
    requires { IsRequestWithin buf.now headers.now spans.now }
    ensures wanted { (h : RequestHead) → IsRequestAt buf.now headers.now spans.now h
        → result ≡ asked_at_place (path_place (path_of_target h.target)) h.method (map name_and_value h.fields) }
    ensures ranges { IfOk result IsWanted }
{
    let method = spans.method.of(buf);
    match routes.place(path_of(spans.path.of(buf))) {
        None => Err(Refusal::NoPath),
        Some(DeskPlace::DayPlace(day)) => {
            if method == b"POST".as_slice() {
                let length = body_length(buf, &headers[..spans.headers])?;
                Ok(Wanted::Import(day, length))
            } else {
                only_get(method, Wanted::Day(day))
            }
        }
        Some(DeskPlace::SpentPlace(day, xway, vid)) => only_get(
            method,
            Wanted::Spent(day, xway, vid),
        ),
        Some(DeskPlace::LivePlace(vid)) => only_get(method, Wanted::Live(vid)),
        Some(DeskPlace::TotalPlace) => only_get(method, Wanted::LiveTotal),
        Some(DeskPlace::VehiclePlace(vid, from, to)) => {
            only_get(method, Wanted::Vehicle(vid, from, to))
        }
        Some(DeskPlace::DaysPlace) => only_get(method, Wanted::Days),
        Some(DeskPlace::PagePlace) => only_get(method, Wanted::Page),
        Some(DeskPlace::HealthPlace) => only_get(method, Wanted::Health),
        Some(DeskPlace::AnswersPlace(day)) => {
            only_post(method, day, buf, &headers[..spans.headers])
        }
    }
}

/// What a head asks for, or why it is refused.
pub fn wanted_of(
    routes: &Routes,
    buf: &[u8],
    spans: &RequestSpans,
    headers: &[HeaderSpan],
) -> Result<Wanted, Refusal>
    requires { IsRequestWithin buf.now headers.now spans.now }
    ensures wanted { (h : RequestHead) → IsRequestAt buf.now headers.now spans.now h → result ≡ wanted_of_head h }
    ensures ranges { IfOk result IsWanted }
{
    if is_foreign(buf, &headers[..spans.headers]) {
        return Err(Refusal::BadOrigin);
    }
    asked_at(routes, buf, spans, headers)
}
