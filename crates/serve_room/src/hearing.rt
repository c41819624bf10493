// What happens to connections in their seats.
ghost use Rattle.std.specs.Prelude.{◌≡◌};
ghost use Rattle.serve_room.specs.Judged.{is_late, judged, AreJudged};

use crate::draining::Drain;
use crate::seat::Seat;
use mio::Events;
use std::time::Instant;

/// How many connections wait at once. With those that are drained they leave 176 of the 1,024 file handles that a process
/// usually has: two for each of 64 acceptors, and some for the database, its log, the listener and the poll.
pub(crate) const SEATS: usize = 720;

/// How many connections that were answered are drained at once.
pub(crate) const DRAINS: usize = 128;

/// The first token of a connection that is drained, behind those of the seats, of the listener and of the waker.
pub(crate) const FIRST_DRAIN: usize = SEATS + 2;

/// Hears a connection in a seat, and says whether it keeps that.
fn keeps(place: &mut Option<Seat>) -> bool {
    match place {
        Some(seat) => seat.hear(),
        None => false,
    }
}

/// Hears a connection in a seat, which it leaves where nothing can be answered. Whoever only ends what it sends is still
/// answered.
fn hear_seat(seats: &mut [Option<Seat>], at: usize, fails: bool) {
    if let Some(place) = seats.get_mut(at) {
        if fails || !keeps(place) {
            *place = None;
        }
    }
}

/// Hears a connection that is drained, and says whether it stays.
fn goes_on(place: &mut Option<Drain>) -> bool {
    match place {
        Some(drain) => drain.hear(),
        None => false,
    }
}

/// Hears a connection that is drained, and lets it go where no more is to come.
fn hear_drain(place: &mut Option<Drain>) {
    if !goes_on(place) {
        *place = None;
    }
}

/// Hears the connections that are ready.
pub(crate) fn hear_ready(
    events: &Events,
    seats: &mut [Option<Seat>],
    drains: &mut [Option<Drain>],
) {
    for event in events.iter() {
        let at = event.token().0;
        match at.checked_sub(FIRST_DRAIN) {
            Some(at) => {
                if let Some(place) = drains.get_mut(at) {
                    hear_drain(place);
                }
            }
            None => hear_seat(seats, at, event.is_error() || event.is_write_closed()),
        }
    }
}

/// Whether more of a connection that is drained is there at once.
fn has_more(place: &Option<Drain>) -> bool {
    match place {
        Some(drain) => drain.more,
        None => false,
    }
}

/// Whether more of some connection that is drained is there at once.
pub(crate) fn any_has_more(drains: &[Option<Drain>]) -> bool {
    drains.iter().any(|place| has_more(place))
}

/// Hears the connections that are drained and of which more is there.
pub(crate) fn hear_more(drains: &mut [Option<Drain>]) {
    for place in drains.iter_mut() {
        if has_more(place) {
            hear_drain(place);
        }
    }
}

/// Whether a connection in a place waits for its head and its time for that is over.
fn is_late(place: &Option<Seat>, now: Instant) -> bool
    ensures { result ≡ is_late now place.now }
{
    match place {
        Some(seat) => seat.is_late(now),
        None => false,
    }
}

/// Has whoever is late leave its place.
fn judge_place(place: &mut Option<Seat>, now: Instant)
    ensures { place.new ≡ judged now place.old }
{
    if is_late(place, now) {
        *place = None;
    }
}

/// Has the connections leave whose time for a head is over.
pub(crate) fn judge_all(seats: &mut [Option<Seat>], now: Instant)
    ensures { AreJudged now seats.old seats.new }
{
    for place in seats.iter_mut() {
        judge_place(place, now);
    }
}

/// Whether a connection was drained long enough.
fn is_over(place: &Option<Drain>, now: Instant) -> bool {
    match place {
        Some(drain) => drain.is_over(now),
        None => false,
    }
}

/// Lets the connections go that were drained long enough.
pub(crate) fn end_drains(drains: &mut [Option<Drain>], now: Instant) {
    for place in drains.iter_mut() {
        if is_over(place, now) {
            *place = None;
        }
    }
}

/// Whether no place is taken.
pub(crate) fn is_empty<T>(places: &[Option<T>]) -> bool {
    places.iter().all(|place| place.is_none())
}
