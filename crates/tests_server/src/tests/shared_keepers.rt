// A keeper that two share.
ghost use Rattle.std.specs.Prelude.{◌≡◌};

use super::keepers::{kept_as, new_keeper};
use keep_office::{DayRecord, KeepFault, Keeper, MemKeeper, PastRecord};
use road_digest::{Digest, Digester};
use road_time::Tariff;
use serve_desk::{Kept, Naming, Opened, SharedKeeper};
use std::marker::Brand;
use std::sync::{Mutex, Wait};

/// A history of no amounts before day 100.
fn history(digest: Digest) -> PastRecord
    ensures { result ≡ record { base = 100; digest = digest; bytes = 0; rows = 0 } }
{
    PastRecord {
        base: 100,
        digest,
        bytes: 0,
        rows: 0,
    }
}

/// Day 100 without a tuple.
fn empty_day(digest: Digest) -> DayRecord
    ensures { result
        ≡ record {
          day = 100;
          digest = digest;
          bytes = 0;
          tuples = 0;
          notices = 0;
          notices_digest = digest;
          tariffs = digest;
          total = 0;
        } }
{
    DayRecord {
        day: 100,
        digest,
        bytes: 0,
        tuples: 0,
        notices: 0,
        notices_digest: digest,
        tariffs: digest,
        total: 0,
    }
}

/// What one puts the other has: a history, a day, a tariff.
fn puts_reach<J: Naming, K: Keeper, R: Wait>(
    rt: &R,
    keeper: &Mutex<Kept<J, K>>,
) -> Result<bool, KeepFault> {
    let digest = Digester::new().finish();
    let mut one = SharedKeeper::new(rt, keeper);
    let mut other = SharedKeeper::new(rt, keeper);
    one.put_past(&history(digest), &[])?;
    let past = other.past()? == Some(history(digest)) && other.last_day()? == 99;
    other.put_day(&empty_day(digest), &[])?;
    let day = one.day(100)? == Some(empty_day(digest)) && one.last_day()? == 100;
    let tariff = Tariff {
        crowd: 50,
        speed: 40,
        factor: 5,
    };
    one.put_tariff(0, &tariff)?;
    let amounts = one.rows(0, 100)?.is_empty() && one.vehicle_rows(7, 0, 100)?.is_empty();
    let none = amounts && one.spent(100, 7, 0)? == 0;
    Ok(past && day && none && other.tariffs()?.of(0) == tariff)
}

/// What may not be put any more is refused, and nothing changes.
fn refuses<J: Naming, K: Keeper, R: Wait>(
    rt: &R,
    keeper: &Mutex<Kept<J, K>>,
) -> Result<bool, KeepFault> {
    let digest = Digester::new().finish();
    let mut one = SharedKeeper::new(rt, keeper);
    let day = one.put_day(&empty_day(digest), &[]) == Err(KeepFault::Failed);
    let past = one.put_past(&history(digest), &[]) == Err(KeepFault::Failed);
    Ok(day && past && one.last_day()? == 100)
}

/// What one puts is refused to the other then.
fn share<J: Naming, R: Wait>(rt: &R, opened: Opened<MemKeeper>) -> Result<bool, KeepFault>
    requires { opened.seen.book ≡ J.book }
{
    let keeper = Mutex::new(kept_as::<J>(opened));
    let reach = puts_reach(rt, &keeper)?;
    Ok(reach && refuses(rt, &keeper)?)
}

/// The first call of a keeper fails, and the second does not.
fn fails_once<J: Naming, R: Wait>(rt: &R, opened: Opened<MemKeeper>) -> bool
    requires { opened.seen.book ≡ J.book }
{
    let keeper = Mutex::new(kept_as::<J>(opened));
    let mut one = SharedKeeper::new(rt, &keeper);
    let first = one.day(100);
    first == Err(KeepFault::Failed) && one.day(100) == Ok(None)
}

/// Two share a keeper: what one puts the other has, and no day is put twice.
#[test]
fn two_share_a_keeper(rt: HostRuntime) -> Result<(), KeepFault> {
    let alloc = rt.alloc();
    let sound = new_keeper(alloc, &[])?;
    assert!(rt; share::<Brand, _>(&rt, sound)?);
    let failing = new_keeper(alloc, &[0])?;
    assert!(rt; fails_once::<Brand, _>(&rt, failing));
    Ok(())
}
