// Answers of what is kept.
ghost use Rattle.std.specs.Prelude.{◌≡◌, ◌≢◌, ◌≤◌, ◌<◌, ℕ, List, Some, IfOk, string_bytes};
ghost use Rattle.road_io.specs.Faults.{Rose};
ghost use Rattle.road_io.specs.Rooms.{Endless};
ghost use Rattle.keep_office.specs.declared.kept.KeepFault.TheVariants as keep_fault;
ghost use Rattle.keep_office.specs.Office.{Office, record_of};
ghost use Rattle.serve_requests.specs.Replies.{Reply as ReplyValue};
ghost use Rattle.serve_requests.specs.Lists.{days_body as body_of_days};
ghost use Rattle.keep_office.specs.declared.kept.DayRecord.{DayRecord as TheDay};
ghost use Rattle.serve_requests.specs.declared.session_end.SessionEnd.TheVariants.{Answered, LinkFault};
ghost use Rattle.serve_desk.specs.Answers.{AnswersReply, AnswersUnlessFailed, day_reply, spent_reply, keeper_reply};
ghost use Rattle.serve_desk.specs.Answers.{days_reply, vehicle_reply, health_reply, AnswersExactly, TellsFault};
ghost use Rattle.serve_desk.specs.Answers.{good, wire_of};
ghost use Rattle.serve_desk.specs.Pages.{AnswersPage};
ghost use Rattle.serve_desk.specs.Shared.{AnswersSome};

use crate::kept_days::kept_days;
use http::StatusCode;
use keep_office::{DayRecord, KeepFault, Keeper};
use road_io::Link;
use road_time::NoMemory;
use serve_requests::{
    SessionEnd, day_body, days_body, health_body, keeper_text, no_day_text, send_bytes,
    send_no_memory, send_page, send_reply, spent_body, vehicle_body,
};
use std::alloc::Global;

/// Sends an answer whose body may have found no memory.
pub fn send_made<L: Link>(
    alloc: Global,
    link: &mut L,
    status: StatusCode,
    body: Result<String, NoMemory>,
) -> SessionEnd
    ensures sent { (text : List ℕ) → IfOk body (λ s. string_bytes s ≡ text)
        → AnswersReply (record { status = status; body = text })
        (L.room link.old) (L.written link.old) (L.written link.new) result }
    ensures unavailable { status ≢ 503 → result ≢ Answered 503 }
    ensures unread { L.left link.new ≡ L.left link.old }
    ensures sure { L.room link.old ≡ Endless → result ≢ LinkFault }
    ensures cause { result ≡ LinkFault → Rose (L.faults link.old) (L.faults link.new) }
    ensures later { L.faults link.old ≤ L.faults link.new }
{
    match body {
        Ok(text) => send_reply(alloc, link, status, text.as_str()),
        Err(_) => send_no_memory(link),
    }
}

/// Answers that the keeper failed.
pub fn send_keeper_fault<L: Link>(link: &mut L) -> SessionEnd
    ensures sent { AnswersExactly keeper_reply (L.room link.old) (L.written link.old) (L.written link.new) result }
    ensures told { TellsFault result }
    ensures unread { L.left link.new ≡ L.left link.old }
    ensures sure { L.room link.old ≡ Endless → result ≢ LinkFault }
    ensures cause { result ≡ LinkFault → Rose (L.faults link.old) (L.faults link.new) }
    ensures later { L.faults link.old ≤ L.faults link.new }
{
    send_bytes(link, 503, keeper_text())
}

/// Answers that the keeper failed, or that it found no memory.
pub(crate) fn send_refusal<L: Link>(fault: KeepFault, link: &mut L) -> SessionEnd
    ensures sent { (reply : ReplyValue) (before now : ℕ) → (fault ≡ keep_fault.Failed → Rose before now)
        → (fault ≡ keep_fault.NoMemory → now ≡ before)
        → AnswersUnlessFailed reply before now (L.room link.old) (L.written link.old) (L.written link.new) result }
    ensures unavailable { result ≡ Answered 503 → fault ≡ keep_fault.Failed }
    ensures told { fault ≡ keep_fault.Failed → TellsFault result }
    ensures unread { L.left link.new ≡ L.left link.old }
    ensures sure { L.room link.old ≡ Endless → result ≢ LinkFault }
    ensures cause { result ≡ LinkFault → Rose (L.faults link.old) (L.faults link.new) }
    ensures later { L.faults link.old ≤ L.faults link.new }
{
    match fault {
        KeepFault::Failed => send_keeper_fault(link),
        KeepFault::NoMemory => send_no_memory(link),
    }
}

/// Answers a day, if it is kept.
pub(crate) fn send_day<L: Link>(alloc: Global, kept: Option<DayRecord>, link: &mut L) -> SessionEnd
    ensures sent { AnswersReply (day_reply kept) (L.room link.old) (L.written link.old) (L.written link.new) result }
    ensures unavailable { result ≢ Answered 503 }
    ensures unread { L.left link.new ≡ L.left link.old }
    ensures sure { L.room link.old ≡ Endless → result ≢ LinkFault }
    ensures cause { result ≡ LinkFault → Rose (L.faults link.old) (L.faults link.new) }
    ensures later { L.faults link.old ≤ L.faults link.new }
{
    match kept {
        Some(kept) => send_made(alloc, link, StatusCode::OK, day_body(alloc, &kept)),
        None => send_bytes(link, 404, no_day_text()),
    }
}

/// Answers a day, if it is kept.
pub fn answer_day<L: Link, K: Keeper>(
    alloc: Global,
    day: u32,
    keeper: &mut K,
    link: &mut L,
) -> SessionEnd
    ensures sent { (o : Office) → K.told keeper.old ≡ Some o → AnswersUnlessFailed (day_reply (record_of o day))
        (K.faults keeper.old) (K.faults keeper.new) (L.room link.old) (L.written link.old) (L.written link.new) result }
    ensures told { (o : Office) → K.told keeper.old ≡ Some o → K.told keeper.new ≡ Some o }
    ensures unavailable { result ≡ Answered 503 → Rose (K.faults keeper.old) (K.faults keeper.new) }
    ensures failed { K.faults keeper.old < K.faults keeper.new → TellsFault result }
    ensures unread { L.left link.new ≡ L.left link.old }
    ensures sure { L.room link.old ≡ Endless → result ≢ LinkFault }
    ensures cause { result ≡ LinkFault → Rose (L.faults link.old) (L.faults link.new) }
    ensures later { L.faults link.old ≤ L.faults link.new }
    ensures keeper_later { K.faults keeper.old ≤ K.faults keeper.new }
{
    match keeper.day(day) {
        Ok(kept) => send_day(alloc, kept, link),
        Err(fault) => send_refusal(fault, link),
    }
}

/// Answers what a vehicle was charged on an expressway on a day.
pub fn answer_spent<L: Link, K: Keeper>(
    alloc: Global,
    day: u32,
    xway: u8,
    vid: u32,
    keeper: &mut K,
    link: &mut L,
) -> SessionEnd
    ensures sent { (o : Office) → K.told keeper.old ≡ Some o → AnswersUnlessFailed (spent_reply o day xway vid)
        (K.faults keeper.old) (K.faults keeper.new) (L.room link.old) (L.written link.old) (L.written link.new) result }
    ensures told { (o : Office) → K.told keeper.old ≡ Some o → K.told keeper.new ≡ Some o }
    ensures unavailable { result ≡ Answered 503 → Rose (K.faults keeper.old) (K.faults keeper.new) }
    ensures failed { K.faults keeper.old < K.faults keeper.new → TellsFault result }
    ensures unread { L.left link.new ≡ L.left link.old }
    ensures sure { L.room link.old ≡ Endless → result ≢ LinkFault }
    ensures cause { result ≡ LinkFault → Rose (L.faults link.old) (L.faults link.new) }
    ensures later { L.faults link.old ≤ L.faults link.new }
    ensures keeper_later { K.faults keeper.old ≤ K.faults keeper.new }
{
    match keeper.spent(day, vid, xway) {
        Ok(amount) => send_made(alloc, link, StatusCode::OK, spent_body(alloc, amount)),
        Err(fault) => send_refusal(fault, link),
    }
}

/// Answers the last day that is kept, for which the keeper is asked.
pub fn answer_health<L: Link, K: Keeper>(alloc: Global, keeper: &mut K, link: &mut L) -> SessionEnd
    ensures sent { (o : Office) → K.told keeper.old ≡ Some o → AnswersUnlessFailed (health_reply o)
        (K.faults keeper.old) (K.faults keeper.new) (L.room link.old) (L.written link.old) (L.written link.new) result }
    ensures told { (o : Office) → K.told keeper.old ≡ Some o → K.told keeper.new ≡ Some o }
    ensures unavailable { result ≡ Answered 503 → Rose (K.faults keeper.old) (K.faults keeper.new) }
    ensures failed { K.faults keeper.old < K.faults keeper.new → TellsFault result }
    ensures unread { L.left link.new ≡ L.left link.old }
    ensures sure { L.room link.old ≡ Endless → result ≢ LinkFault }
    ensures cause { result ≡ LinkFault → Rose (L.faults link.old) (L.faults link.new) }
    ensures later { L.faults link.old ≤ L.faults link.new }
    ensures keeper_later { K.faults keeper.old ≤ K.faults keeper.new }
{
    match keeper.last_day() {
        Ok(last) => send_made(alloc, link, StatusCode::OK, health_body(alloc, last)),
        Err(fault) => send_refusal(fault, link),
    }
}

/// Answers all kept days.
pub fn answer_days<L: Link, K: Keeper>(alloc: Global, keeper: &mut K, link: &mut L) -> SessionEnd
    ensures sent { (o : Office) → K.told keeper.old ≡ Some o → AnswersUnlessFailed (days_reply o)
        (K.faults keeper.old) (K.faults keeper.new) (L.room link.old) (L.written link.old) (L.written link.new) result }
    ensures some { AnswersSome {T = List TheDay} K.faults (λ days. good (body_of_days days))
        (wire_of (L.left link.old) (L.plan link.old) (L.written link.old) (L.room link.old))
        (wire_of (L.left link.new) (L.plan link.new) (L.written link.new) (L.room link.new)) result }
    ensures told { (o : Office) → K.told keeper.old ≡ Some o → K.told keeper.new ≡ Some o }
    ensures unavailable { result ≡ Answered 503 → Rose (K.faults keeper.old) (K.faults keeper.new) }
    ensures failed { K.faults keeper.old < K.faults keeper.new → TellsFault result }
    ensures unread { L.left link.new ≡ L.left link.old }
    ensures sure { L.room link.old ≡ Endless → result ≢ LinkFault }
    ensures cause { result ≡ LinkFault → Rose (L.faults link.old) (L.faults link.new) }
    ensures later { L.faults link.old ≤ L.faults link.new }
    ensures keeper_later { K.faults keeper.old ≤ K.faults keeper.new }
{
    match kept_days(alloc, keeper) {
        Ok(days) => send_made(
            alloc,
            link,
            StatusCode::OK,
            days_body(alloc, days.as_slice()),
        ),
        Err(fault) => send_refusal(fault, link),
    }
}

/// Answers what a vehicle was charged on the days `from` to `to`, both included.
pub fn answer_vehicle<L: Link, K: Keeper>(
    alloc: Global,
    vid: u32,
    from: u32,
    to: u32,
    keeper: &mut K,
    link: &mut L,
) -> SessionEnd
    ensures sent { (o : Office) → K.told keeper.old ≡ Some o → AnswersUnlessFailed (vehicle_reply o vid from to)
        (K.faults keeper.old) (K.faults keeper.new) (L.room link.old) (L.written link.old) (L.written link.new) result }
    ensures told { (o : Office) → K.told keeper.old ≡ Some o → K.told keeper.new ≡ Some o }
    ensures unavailable { result ≡ Answered 503 → Rose (K.faults keeper.old) (K.faults keeper.new) }
    ensures failed { K.faults keeper.old < K.faults keeper.new → TellsFault result }
    ensures unread { L.left link.new ≡ L.left link.old }
    ensures sure { L.room link.old ≡ Endless → result ≢ LinkFault }
    ensures cause { result ≡ LinkFault → Rose (L.faults link.old) (L.faults link.new) }
    ensures later { L.faults link.old ≤ L.faults link.new }
    ensures keeper_later { K.faults keeper.old ≤ K.faults keeper.new }
{
    match keeper.vehicle_rows(vid, from, to) {
        Ok(rows) => {
            let body = vehicle_body(alloc, vid, from, to, rows.as_slice());
            send_made(alloc, link, StatusCode::OK, body)
        }
        Err(fault) => send_refusal(fault, link),
    }
}

/// Answers the page to watch the day by.
pub fn answer_page<L: Link>(alloc: Global, link: &mut L) -> SessionEnd
    ensures sent { AnswersPage (L.room link.old) (L.written link.old) (L.written link.new) result }
    ensures unavailable { result ≢ Answered 503 }
    ensures unread { L.left link.new ≡ L.left link.old }
    ensures sure { L.room link.old ≡ Endless → result ≢ LinkFault }
    ensures cause { result ≡ LinkFault → Rose (L.faults link.old) (L.faults link.new) }
    ensures later { L.faults link.old ≤ L.faults link.new }
{
    send_page(alloc, link)
}
