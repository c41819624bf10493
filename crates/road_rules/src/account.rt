// What is kept of a vehicle as the list goes on.
ghost use Rattle.std.specs.Prelude.{◌≡◌, ◌+◌, ◌++◌, ◌<◌, ◌^◌, OnOk, map};
ghost use Rattle.road_rules.specs.Accounts.{newest_of, toll_kept, owed_kept, account_after, charge_after, shown_charge};

use crate::found::SpotFound;
use crate::owed::leaves_stay;
use road_time::{NoMemory, Report};

/// A vehicle's newest report, the toll that it was told last, and what it owes.
#[derive(Clone, Copy, Debug, PartialEq, Eq)]
pub struct Account {
    pub newest: Report,
    pub toll: u64,
    pub owed: u64,
}

pub fn newest(last: Option<Account>) -> Option<Report>
    ensures { result ≡ newest_of last }
{
    match last {
        None => None,
        Some(account) => Some(account.newest),
    }
}

fn last_toll(last: Option<Account>) -> u64
    ensures { result ≡ toll_kept last }
{
    match last {
        None => 0,
        Some(account) => account.toll,
    }
}

pub fn owed(last: Option<Account>) -> u64
    ensures { result ≡ owed_kept last }
{
    match last {
        None => 0,
        Some(account) => account.owed,
    }
}

/// What is kept after one more report, and what it was told.
pub fn after(last: Option<Account>, r: &Report, told: Option<SpotFound>) -> Account
    requires fits { owed_kept last + toll_kept last < 2 ^ 64 }
    ensures { result ≡ account_after last r.now told }
{
    let charge = if leaves_stay(newest(last), r) {
        last_toll(last)
    } else {
        0
    };
    let toll = match told {
        None => last_toll(last),
        Some(found) => found.toll,
    };
    Account {
        newest: *r,
        toll,
        owed: owed(last) + charge,
    }
}

/// A toll that a vehicle owes for a stay on an expressway.
#[derive(Clone, Copy, Debug, PartialEq, Eq)]
pub struct StayCharge {
    pub vid: u32,
    pub xway: u8,
    pub toll: u64,
}

/// Adds what the report charges.
pub fn add_charge(
    charges: &mut Vec<StayCharge>,
    last: Option<Account>,
    r: &Report,
) -> Result<(), NoMemory>
    ensures { OnOk result (map shown_charge charges.new.items
        ≡ map shown_charge charges.old.items ++ charge_after last r.now) }
{
    if let Some(account) = last {
        if leaves_stay(Some(account.newest), r) {
            charges.push(StayCharge {
                vid: r.vid,
                xway: account.newest.xway,
                toll: account.toll,
            })?;
        }
    }
    Ok(())
}
