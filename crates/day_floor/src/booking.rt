// What a report changes in the book.
ghost use Rattle.std.specs.Prelude.{◌≡◌, ◌<◌, ◌≤◌, ◌++◌, Some, IsSome, IfOk, OnOk, map};
ghost use Rattle.std.specs.FinMap.{get};
ghost use Rattle.road_time.specs.declared.tariff.TheConstants.{GREATEST_TOLL};
ghost use Rattle.day_floor.specs.Operations.{charge_of};
ghost use Rattle.day_floor.specs.declared.tracked.Charge.TheVariants.{Last};
ghost use Rattle.day_floor.specs.SettlingBooks.{WasTold, charges_for, charged_with, told_with};

use crate::book::Book;
use crate::publisher::Charged;
use crate::tracked::Charge;
use road_time::NoMemory;

/// Keeps the toll that a report is told, if it is told one.
#[inline(always)]
fn notify(book: &mut Book, vid: u32, told: bool, toll: u64) -> Result<(), NoMemory>
    requires { toll ≤ GREATEST_TOLL }
    ensures { OnOk result (book.new ≡ told_with told vid toll book.old) }
{
    if !told {
        return Ok(());
    }
    match book.notify(vid, toll) {
        Ok(()) => Ok(()),
        Err(refused) => Err(refused),
    }
}

/// Charges a stay on an expressway, and keeps the toll that a report is told, if it is told one.
#[inline(always)]
fn charge(book: &mut Book, vid: u32, xway: u8, told: bool, toll: u64) -> Result<u64, NoMemory>
    requires was { IsSome (get book.old.told vid) }
    requires few { book.old.made < 16000000 }
    requires toll { toll ≤ GREATEST_TOLL }
    ensures owed { IfOk result (λ owed. Some owed ≡ get book.old.told vid) }
    ensures booked { OnOk result (book.new
        ≡ told_with told vid toll (charged_with (charges_for (Last xway) vid book.old) book.old)) }
{
    if !told {
        return match book.charge(vid, xway) {
            Ok(owed) => Ok(owed),
            Err(refused) => Err(refused),
        };
    }
    match book.charge_and_notify(vid, xway, toll) {
        Ok(owed) => Ok(owed),
        Err(refused) => Err(refused),
    }
}

/// Charges the stay that a report leaves, if it leaves one, the toll that was told last, and lists the charge. Only
/// then the toll that the report is told is kept, if it is told one.
pub fn book_report(
    book: &mut Book,
    charges: &mut Vec<Charged>,
    vid: u32,
    stay: Charge,
    told: bool,
    toll: u64,
) -> Result<(), NoMemory>
    requires was { WasTold stay vid book.old }
    requires few { book.old.made < 16000000 }
    requires toll { toll ≤ GREATEST_TOLL }
    ensures booked { OnOk result (book.new
        ≡ told_with told vid toll (charged_with (charges_for stay vid book.old) book.old)) }
    ensures listed { OnOk result (map charge_of charges.new.items
        ≡ map charge_of charges.old.items ++ charges_for stay vid book.old) }
{
    match stay {
        Charge::No => match notify(book, vid, told, toll) {
            Ok(()) => Ok(()),
            Err(refused) => Err(refused),
        },
        Charge::Last(xway) => {
            let toll = charge(book, vid, xway, told, toll)?;
            charges.push(Charged { vid, xway, toll })?;
            Ok(())
        }
    }
}
