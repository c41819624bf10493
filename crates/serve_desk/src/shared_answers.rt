// Answers of a keeper that others may call between.
ghost use Rattle.std.specs.Prelude.{◌≡◌, ◌≢◌, ◌≤◌, ◌<◌, ℕ, List};
ghost use Rattle.road_io.specs.Faults.{Rose};
ghost use Rattle.road_io.specs.Rooms.{Endless};
ghost use Rattle.road_time.specs.declared.day.SpentRow.{SpentRow as TheRow};
ghost use Rattle.keep_office.specs.Office.{record_of};
ghost use Rattle.serve_requests.specs.Bodies.{spent_body as body_of_spent, health_body as body_of_health};
ghost use Rattle.serve_requests.specs.Lists.{vehicle_body as body_of_vehicle};
ghost use Rattle.serve_requests.specs.declared.session_end.SessionEnd.TheVariants.{Answered, LinkFault};
ghost use Rattle.serve_desk.specs.Answers.{day_reply, spent_reply, vehicle_reply, health_reply, good, wire_of};
ghost use Rattle.serve_desk.specs.Answers.{TellsFault};
ghost use Rattle.serve_desk.specs.Shared.{AnswersOf, AnswersSome};

use crate::answers::{send_day, send_made, send_refusal};
use crate::history::Naming;
use crate::shared::SharedKeeper;
use http::StatusCode;
use keep_office::Keeper;
use road_io::Link;
use serve_requests::{SessionEnd, health_body, spent_body, vehicle_body};
use std::alloc::Global;
use std::sync::Wait;

/// Answers a day, if it is kept.
pub fn share_day<'a, L: Link, J: Naming, K: Keeper, R: Wait>(
    alloc: Global,
    day: u32,
    keeper: &mut SharedKeeper<'a, J, K, R>,
    link: &mut L,
) -> SessionEnd
    ensures shared { AnswersOf K.told K.faults (λ o. day_reply (record_of o day))
        (wire_of (L.left link.old) (L.plan link.old) (L.written link.old) (L.room link.old))
        (wire_of (L.left link.new) (L.plan link.new) (L.written link.new) (L.room link.new)) result }
    ensures some { AnswersSome K.faults day_reply
        (wire_of (L.left link.old) (L.plan link.old) (L.written link.old) (L.room link.old))
        (wire_of (L.left link.new) (L.plan link.new) (L.written link.new) (L.room link.new)) result }
    ensures unavailable { result ≡ Answered 503
        → Rose (⟦<SharedKeeper<'a, J, K, R> as Keeper>⟧.faults keeper.old)
        (⟦<SharedKeeper<'a, J, K, R> as Keeper>⟧.faults keeper.new) }
    ensures failed { ⟦<SharedKeeper<'a, J, K, R> as Keeper>⟧.faults keeper.old
        < ⟦<SharedKeeper<'a, J, K, R> as Keeper>⟧.faults keeper.new
        → TellsFault result }
    ensures unread { L.left link.new ≡ L.left link.old }
    ensures sure { L.room link.old ≡ Endless → result ≢ LinkFault }
    ensures cause { result ≡ LinkFault → Rose (L.faults link.old) (L.faults link.new) }
    ensures later { L.faults link.old ≤ L.faults link.new }
{
    match keeper.day(day) {
        Ok(kept) => send_day(alloc, kept, link),
        Err(fault) => send_refusal(fault, link),
    }
}

/// Answers what a vehicle was charged on an expressway on a day.
pub fn share_spent<'a, L: Link, J: Naming, K: Keeper, R: Wait>(
    alloc: Global,
    day: u32,
    xway: u8,
    vid: u32,
    keeper: &mut SharedKeeper<'a, J, K, R>,
    link: &mut L,
) -> SessionEnd
    ensures shared { AnswersOf K.told K.faults (λ o. spent_reply o day xway vid)
        (wire_of (L.left link.old) (L.plan link.old) (L.written link.old) (L.room link.old))
        (wire_of (L.left link.new) (L.plan link.new) (L.written link.new) (L.room link.new)) result }
    ensures some { AnswersSome {T = ℕ} K.faults (λ n. good (body_of_spent n))
        (wire_of (L.left link.old) (L.plan link.old) (L.written link.old) (L.room link.old))
        (wire_of (L.left link.new) (L.plan link.new) (L.written link.new) (L.room link.new)) result }
    ensures unavailable { result ≡ Answered 503
        → Rose (⟦<SharedKeeper<'a, J, K, R> as Keeper>⟧.faults keeper.old)
        (⟦<SharedKeeper<'a, J, K, R> as Keeper>⟧.faults keeper.new) }
    ensures failed { ⟦<SharedKeeper<'a, J, K, R> as Keeper>⟧.faults keeper.old
        < ⟦<SharedKeeper<'a, J, K, R> as Keeper>⟧.faults keeper.new
        → TellsFault result }
    ensures unread { L.left link.new ≡ L.left link.old }
    ensures sure { L.room link.old ≡ Endless → result ≢ LinkFault }
    ensures cause { result ≡ LinkFault → Rose (L.faults link.old) (L.faults link.new) }
    ensures later { L.faults link.old ≤ L.faults link.new }
{
    match keeper.spent(day, vid, xway) {
        Ok(amount) => send_made(alloc, link, StatusCode::OK, spent_body(alloc, amount)),
        Err(fault) => send_refusal(fault, link),
    }
}

/// Answers the last day that is kept, for which the keeper is asked.
pub fn share_health<'a, L: Link, J: Naming, K: Keeper, R: Wait>(
    alloc: Global,
    keeper: &mut SharedKeeper<'a, J, K, R>,
    link: &mut L,
) -> SessionEnd
    ensures shared { AnswersOf K.told K.faults health_reply
        (wire_of (L.left link.old) (L.plan link.old) (L.written link.old) (L.room link.old))
        (wire_of (L.left link.new) (L.plan link.new) (L.written link.new) (L.room link.new)) result }
    ensures some { AnswersSome {T = ℕ} K.faults (λ n. good (body_of_health n))
        (wire_of (L.left link.old) (L.plan link.old) (L.written link.old) (L.room link.old))
        (wire_of (L.left link.new) (L.plan link.new) (L.written link.new) (L.room link.new)) result }
    ensures unavailable { result ≡ Answered 503
        → Rose (⟦<SharedKeeper<'a, J, K, R> as Keeper>⟧.faults keeper.old)
        (⟦<SharedKeeper<'a, J, K, R> as Keeper>⟧.faults keeper.new) }
    ensures failed { ⟦<SharedKeeper<'a, J, K, R> as Keeper>⟧.faults keeper.old
        < ⟦<SharedKeeper<'a, J, K, R> as Keeper>⟧.faults keeper.new
        → TellsFault result }
    ensures unread { L.left link.new ≡ L.left link.old }
    ensures sure { L.room link.old ≡ Endless → result ≢ LinkFault }
    ensures cause { result ≡ LinkFault → Rose (L.faults link.old) (L.faults link.new) }
    ensures later { L.faults link.old ≤ L.faults link.new }
{
    match keeper.last_day() {
        Ok(last) => send_made(alloc, link, StatusCode::OK, health_body(alloc, last)),
        Err(fault) => send_refusal(fault, link),
    }
}

/// Answers what a vehicle was charged on the days `from` to `to`, both included.
pub fn share_vehicle<'a, L: Link, J: Naming, K: Keeper, R: Wait>(
    alloc: Global,
    vid: u32,
    from: u32,
    to: u32,
    keeper: &mut SharedKeeper<'a, J, K, R>,
    link: &mut L,
) -> SessionEnd
    ensures shared { AnswersOf K.told K.faults (λ o. vehicle_reply o vid from to)
        (wire_of (L.left link.old) (L.plan link.old) (L.written link.old) (L.room link.old))
        (wire_of (L.left link.new) (L.plan link.new) (L.written link.new) (L.room link.new)) result }
    ensures some { AnswersSome {T = List TheRow} K.faults (λ rows. good (body_of_vehicle vid from to rows))
        (wire_of (L.left link.old) (L.plan link.old) (L.written link.old) (L.room link.old))
        (wire_of (L.left link.new) (L.plan link.new) (L.written link.new) (L.room link.new)) result }
    ensures unavailable { result ≡ Answered 503
        → Rose (⟦<SharedKeeper<'a, J, K, R> as Keeper>⟧.faults keeper.old)
        (⟦<SharedKeeper<'a, J, K, R> as Keeper>⟧.faults keeper.new) }
    ensures failed { ⟦<SharedKeeper<'a, J, K, R> as Keeper>⟧.faults keeper.old
        < ⟦<SharedKeeper<'a, J, K, R> as Keeper>⟧.faults keeper.new
        → TellsFault result }
    ensures unread { L.left link.new ≡ L.left link.old }
    ensures sure { L.room link.old ≡ Endless → result ≢ LinkFault }
    ensures cause { result ≡ LinkFault → Rose (L.faults link.old) (L.faults link.new) }
    ensures later { L.faults link.old ≤ L.faults link.new }
{
    match keeper.vehicle_rows(vid, from, to) {
        Ok(rows) => {
            let body = vehicle_body(alloc, vid, from, to, rows.as_slice());
            send_made(alloc, link, StatusCode::OK, body)
        }
        Err(fault) => send_refusal(fault, link),
    }
}
