// The accounts and notices of a day, in one pass at its end.
ghost use Rattle.std.specs.Prelude.{◌≡◌, ◌≤◌, ◌<◌, ◌-◌, ◌++◌, ◌∷◌, [], ℕ, List, Some, OnOk, IfOk, All, length};
ghost use Rattle.std.specs.Prelude.{slice_index_or};
ghost use Rattle.road_time.specs.declared.tariff.TheConstants.{GREATEST_TOLL};
ghost use Rattle.road_time.specs.declared.road.Tuple.{Tuple as TupleValue};
ghost use Rattle.road_time.specs.declared.road.Tuple.TheVariants.{Report as ReportTuple};
ghost use Rattle.road_time.specs.declared.road.Notice.{Notice as NoticeValue};
ghost use Rattle.road_time.specs.declared.road.Report.{Report};
ghost use Rattle.road_time.specs.Day.{notices_by, given, HasFewTolls};
ghost use Rattle.road_time.specs.Sights.{Sight, moments};
ghost use Rattle.road_time.specs.Tolls.{StretchTold as FindingValue};
ghost use Rattle.day_floor.specs.Answers.{alert_to, told_notices, IsSaid};
ghost use Rattle.day_floor.specs.SettlingBooks.{WasTold, CanSettle, charges_for, charged_with, told_with, book_after};
ghost use Rattle.day_floor.specs.Slots.{slot_of, found_of};
ghost use Rattle.ways_audit.specs.Seen.{tracked_by, tracked_after};
ghost use Rattle.ways_audit.specs.Closing.{IsPlaced};
ghost use Rattle.ways_audit.specs.Payments.{amounts_of};

use crate::payments::Payments;
use day_floor::{Book, Charge, Due, Found, Slot, Tracked};
use road_time::{NoMemory, Notice, Tuple};
use std::alloc::Global;

/// Charges the stay that a vehicle leaves, if it leaves one.
fn charge_stay(book: &mut Book, vid: u32, charge: Charge) -> Result<(), NoMemory>
    requires told { WasTold charge vid book.old }
    requires few { book.old.made < 16000000 }
    ensures { OnOk result (book.new ≡ charged_with (charges_for charge vid book.old) book.old) }
{
    match charge {
        Charge::No => Ok(()),
        Charge::Last(xway) => {
            book.charge(vid, xway)?;
            Ok(())
        }
    }
}

/// Says an alert, where there is an accident.
fn say_alert(
    notices: &mut Vec<Notice>,
    time: u32,
    vid: u32,
    alert: Option<u8>,
) -> Result<(), NoMemory>
    ensures { OnOk result (notices.new.items ≡ notices.old.items ++ alert_to time vid alert) }
{
    if let Some(seg) = alert {
        notices.push(Notice::Alert { time, vid, seg })?;
    }
    Ok(())
}

/// Tells a report what was found, if it is told.
fn tell(
    book: &mut Book,
    notices: &mut Vec<Notice>,
    time: u32,
    vid: u32,
    told: bool,
    found: Found,
) -> Result<(), NoMemory>
    requires { found.toll ≤ GREATEST_TOLL }
    ensures booked { OnOk result (book.new ≡ told_with told vid found.toll book.old) }
    ensures said { OnOk result (notices.new.items ≡ notices.old.items ++ told_notices told time vid found) }
{
    if told {
        book.notify(vid, found.toll)?;
        say_alert(notices, time, vid, found.alert)?;
        notices.push(Notice::Toll {
            vid,
            time,
            lav: found.lav,
            toll: found.toll,
        })?;
    }
    Ok(())
}

/// Closes a position: it books, tells and answers as the slot says.
fn close_slot(
    book: &mut Book,
    notices: &mut Vec<Notice>,
    slot: Slot,
    number: u32,
    payments: &Payments,
) -> Result<(), NoMemory>
    requires told { CanSettle slot.due book.old }
    requires few { book.old.made < 16000000 }
    requires toll { slot.found.toll ≤ GREATEST_TOLL }
    ensures booked { OnOk result (book.new ≡ book_after slot.due slot.found.toll book.old) }
    ensures said { OnOk result ((said : List NoticeValue)
        × IsSaid (Some (amounts_of payments.now.amounts.entries)) number slot.due slot.found book.old said
        × (notices.new.items ≡ notices.old.items ++ said)) }
{
    match slot.due {
        Due::Nothing => Ok(()),
        Due::Report {
            time,
            vid,
            charge,
            told,
        } => {
            charge_stay(book, vid, charge)?;
            tell(book, notices, time, vid, told, slot.found)?;
            Ok(())
        }
        Due::Balance { time, vid, qid } => {
            let amount = book.balance(vid);
            notices.push(Notice::Balance { time, qid, amount })?;
            Ok(())
        }
        Due::Spent {
            time,
            vid,
            qid,
            xway,
            day,
        } => {
            let amount = payments.paid(number.saturating_sub(u32::from(day)), vid, xway);
            notices.push(Notice::Spent { time, qid, amount })?;
            Ok(())
        }
    }
}

/// The slot of a tuple, by what it told and what was found for its position.
fn slot_for(tuple: &Tuple, tracked: Option<Tracked>, found: Found) -> Slot
    ensures { (finding : Sight → FindingValue) (before : List TupleValue) → tracked ≡ tracked_by (before, tuple.now)
        → ((r : Report) → found ≡ found_of (finding (length before, r)))
        → result ≡ slot_of finding (before, tuple.now) }
{
    match tuple {
        Tuple::Report(report) => match tracked {
            Some(told) => Slot {
                due: Slot::of_report(report, &told).due,
                found,
            },
            None => Slot::of_request(tuple),
        },
        request => Slot::of_request(request),
    }
}

/// How many notices a position has at most, by what was told and found there.
fn notices_at(told: Option<Tracked>, found: Found) -> usize {
    match told {
        Some(told) => {
            if !told.begins {
                0
            } else if found.alert.is_some() {
                2
            } else {
                1
            }
        }
        None => 1,
    }
}

/// How many notices a day has at most, so that room for them is made once.
fn count_notices(tracked: &[Option<Tracked>], places: &[Found]) -> usize
    requires { length places.now ≡ length tracked.now }
{
    let mut count = 0usize;
    for at in 0..tracked.len() {
        count = count.saturating_add(notices_at(tracked[at], places[at]));
    }
    count
}

/// The notices of a day, by what was told and found at its positions.
pub(crate) fn close(
    alloc: Global,
    tuples: &[Tuple],
    tracked: &[Option<Tracked>],
    places: &[Found],
    number: u32,
    payments: &Payments,
) -> Result<Vec<Notice>, NoMemory>
    requires few { length tuples.now ≤ 16000000 }
    requires tracked { tracked.now ≡ tracked_after [] tuples.now }
    requires len { length tracked.now ≡ length tuples.now }
    requires places { length places.now ≡ length tuples.now }
    requires found { (found : List (ℕ × FindingValue)) × IsPlaced places.now found × HasFewTolls (given found) }
    ensures { IfOk result (λ notices. (found : List (ℕ × FindingValue)) → IsPlaced places.now found
        → HasFewTolls (given found) → notices.items
        ≡ notices_by (given found) number (amounts_of payments.now.amounts.entries) (moments tuples.now)) }
{
    let mut book = Book::new(alloc);
    let mut notices = Vec::with_capacity(alloc, count_notices(tracked, places))?;
    for at in 0..tuples.len() {
        let slot = slot_for(&tuples[at], tracked[at], places[at]);
        close_slot(&mut book, &mut notices, slot, number, payments)?;
    }
    Ok(notices)
}
