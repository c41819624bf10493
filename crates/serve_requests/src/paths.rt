// What a path is, and what is read from one behind each of the fronts.
ghost use Rattle.std.specs.Prelude.{◌≡◌, ◌≤◌, option_map, Some, IfSome};
ghost use Rattle.serve_requests.specs.Paths.{path_of as path_of_target, spent_path, parts_of, CutsAt, IsPlace};
ghost use Rattle.serve_requests.specs.Paths.{day_at as day_at_path, live_at as live_at_path};
ghost use Rattle.serve_requests.specs.Paths.{total_at as total_at_path, spent_at as spent_at_path};
ghost use Rattle.serve_requests.specs.Paths.{vehicle_place, vehicle_path};
ghost use Rattle.serve_requests.specs.Paths.{vehicle_at as vehicle_at_path, days_at as days_at_path};
ghost use Rattle.serve_requests.specs.Paths.{page_at as page_at_path, answers_at as answers_at_path};
ghost use Rattle.serve_requests.specs.Paths.{health_at as health_at_path};

use crate::numbers::number_in;
use crate::place::DeskPlace;
use memchr::memchr;

/// The first part of a text, and what comes behind the byte that ends it, if one does.
fn cut(byte: u8, text: &[u8]) -> (&[u8], Option<&[u8]>)
    ensures { CutsAt byte text.now result.0.now (option_map (λ rest. rest.now) result.1) }
{
    match memchr(byte, text) {
        Some(at) => (&text[..at], Some(&text[at + 1..])),
        None => (text, None),
    }
}

/// The path of a target: what stands before its first question mark.
pub(crate) fn path_of(target: &[u8]) -> &[u8]
    ensures { result.now ≡ path_of_target target.now }
{
    cut(b'?', target).0
}

/// The place that a day, an expressway and a vehicle name.
fn spent_of_text(text: &[u8]) -> Option<DeskPlace>
    ensures place { result ≡ spent_path (parts_of text.now) }
    ensures within { IfSome result IsPlace }
{
    let (day, Some(rest)) = cut(b'/', text) else {
        return None;
    };
    let (xway, Some(rest)) = cut(b'/', rest) else {
        return None;
    };
    let (vid, more) = cut(b'/', rest);
    match more {
        Some(_) => None,
        None => {
            let day = number_in(1, 1_000_000, day)?;
            let xway = number_in(0, 255, xway)?;
            let vid = number_in(0, 2_147_483_647, vid)?;
            Some(DeskPlace::SpentPlace(day, xway as u8, vid))
        }
    }
}

/// The place of a vehicle's statement from a day to a day that is not before it.
fn vehicle_of(vid: u32, from: u32, to: u32) -> Option<DeskPlace>
    requires { (vid ≤ 2147483647) × (1 ≤ from) × (to ≤ 1000000) }
    ensures place { result ≡ vehicle_place (Some vid) (Some from) (Some to) }
    ensures within { IfSome result IsPlace }
{
    if from <= to {
        Some(DeskPlace::VehiclePlace(vid, from, to))
    } else {
        None
    }
}

/// The place that a vehicle, a first and a last day name.
fn vehicle_of_text(text: &[u8]) -> Option<DeskPlace>
    ensures place { result ≡ vehicle_path (parts_of text.now) }
    ensures within { IfSome result IsPlace }
{
    let (vid, Some(rest)) = cut(b'/', text) else {
        return None;
    };
    let (from, Some(rest)) = cut(b'/', rest) else {
        return None;
    };
    let (to, more) = cut(b'/', rest);
    match more {
        Some(_) => None,
        None => {
            let vid = number_in(0, 2_147_483_647, vid)?;
            let from = number_in(1, 1_000_000, from)?;
            let to = number_in(1, 1_000_000, to)?;
            vehicle_of(vid, from, to)
        }
    }
}

/// The place of a day that a path names.
pub(crate) fn day_at(path: &[u8]) -> Option<DeskPlace>
    ensures place { result ≡ day_at_path path.now }
    ensures within { IfSome result IsPlace }
{
    match path.strip_prefix(b"/days/") {
        Some(day) => {
            let day = number_in(70, 1_000_000, day)?;
            Some(DeskPlace::DayPlace(day))
        }
        None => None,
    }
}

/// The place of a vehicle on the live board that a path names.
pub(crate) fn live_at(path: &[u8]) -> Option<DeskPlace>
    ensures place { result ≡ live_at_path path.now }
    ensures within { IfSome result IsPlace }
{
    match path.strip_prefix(b"/live/") {
        Some(vid) => {
            let vid = number_in(0, 2_147_483_647, vid)?;
            Some(DeskPlace::LivePlace(vid))
        }
        None => None,
    }
}

/// The place of the live board's total, if a path is its.
pub(crate) fn total_at(path: &[u8]) -> Option<DeskPlace>
    ensures place { result ≡ total_at_path path.now }
    ensures within { IfSome result IsPlace }
{
    if path == b"/live".as_slice() {
        Some(DeskPlace::TotalPlace)
    } else {
        None
    }
}

/// The place of an amount that a path names.
pub(crate) fn spent_at(path: &[u8]) -> Option<DeskPlace>
    ensures place { result ≡ spent_at_path path.now }
    ensures within { IfSome result IsPlace }
{
    match path.strip_prefix(b"/spent/") {
        Some(text) => spent_of_text(text),
        None => None,
    }
}

/// The place of a vehicle's statement that a path names.
pub(crate) fn vehicle_at(path: &[u8]) -> Option<DeskPlace>
    ensures place { result ≡ vehicle_at_path path.now }
    ensures within { IfSome result IsPlace }
{
    match path.strip_prefix(b"/vehicles/") {
        Some(text) => vehicle_of_text(text),
        None => None,
    }
}

/// The place of the notices of a day that a path names.
pub(crate) fn answers_at(path: &[u8]) -> Option<DeskPlace>
    ensures place { result ≡ answers_at_path path.now }
    ensures within { IfSome result IsPlace }
{
    match path.strip_prefix(b"/answers/") {
        Some(number) => {
            let day = number_in(70, 1_000_000, number)?;
            Some(DeskPlace::AnswersPlace(day))
        }
        None => None,
    }
}

/// The place of all kept days, if a path is its.
pub(crate) fn days_at(path: &[u8]) -> Option<DeskPlace>
    ensures place { result ≡ days_at_path path.now }
    ensures within { IfSome result IsPlace }
{
    if path == b"/days".as_slice() {
        Some(DeskPlace::DaysPlace)
    } else {
        None
    }
}

/// The place of the page, if a path is its.
pub(crate) fn page_at(path: &[u8]) -> Option<DeskPlace>
    ensures place { result ≡ page_at_path path.now }
    ensures within { IfSome result IsPlace }
{
    if path == b"/".as_slice() {
        Some(DeskPlace::PagePlace)
    } else {
        None
    }
}

/// The place of the keeper's health, if a path is its.
pub(crate) fn health_at(path: &[u8]) -> Option<DeskPlace>
    ensures place { result ≡ health_at_path path.now }
    ensures within { IfSome result IsPlace }
{
    if path == b"/health".as_slice() {
        Some(DeskPlace::HealthPlace)
    } else {
        None
    }
}
