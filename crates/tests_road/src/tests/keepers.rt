// What the keepers in memory answer, from the worked rows, and that they may move between threads.
ghost use Rattle.std.specs.Prelude.{◌≡◌};

use super::records::{amount, are_amounts, has_text, past_of};
use keep_office::{KeepFault, Keeper, LateKeeper, MemKeeper, OldRecord, seal};
use road_digest::{Digest, Digester};
use road_time::{Tariff, Tariffs};
use std::alloc::Global;

/// Takes what may move between threads.
fn moves<T: Send>(_value: &T) {}

/// Day 100 without a tuple.
fn empty_day(digest: Digest) -> OldRecord
    ensures { result
        ≡ record {
          day = 100;
          digest = digest;
          bytes = 0;
          tuples = 0;
          notices = 0;
          notices_digest = digest;
          total = 0;
        } }
{
    OldRecord {
        day: 100,
        digest,
        bytes: 0,
        tuples: 0,
        notices: 0,
        notices_digest: digest,
        total: 0,
    }
}

/// Whether this is the tariff of a keeper's first expressway.
fn has_tariff(keeper: &mut MemKeeper, tariff: Tariff) -> bool {
    match keeper.tariffs() {
        Ok(tariffs) => tariffs.of(0) == tariff,
        Err(_) => false,
    }
}

/// Whether a keeper has no day, no history, no amount and no tariff.
fn has_nothing(keeper: &mut MemKeeper) -> bool {
    let none = keeper.last_day() == Ok(0)
        && keeper.day(100) == Ok(None)
        && keeper.past() == Ok(None);
    let spent = keeper.spent(31, 7, 0) == Ok(0) && are_amounts(keeper.rows(0, 100), &[]);
    none && spent && has_tariff(keeper, Tariff::BENCHMARK)
}

/// Nothing is kept at first.
fn nothing_at_first(alloc: Global) -> bool {
    let Ok(mut keeper) = MemKeeper::new(alloc, &[]) else {
        return false;
    };
    moves(&keeper);
    has_nothing(&mut keeper)
}

/// Whether a keeper has the history's two amounts by days: both, and the last day.
fn has_both(keeper: &mut MemKeeper, digest: Digest) -> bool {
    let last = keeper.last_day() == Ok(99) && keeper.past() == Ok(Some(past_of(digest)));
    let spent = [keeper.spent(31, 7, 0), keeper.spent(98, 7, 0)] == [Ok(28), Ok(0)];
    let both = [amount(31, 7, 28), amount(99, 7, 5)];
    last && spent && are_amounts(keeper.rows(31, 99), &both)
}

/// Whether a keeper has them by vehicle: one on the first day, and none of another vehicle.
fn has_one(keeper: &mut MemKeeper) -> bool {
    let one = are_amounts(keeper.vehicle_rows(7, 31, 31), &[amount(31, 7, 28)]);
    one && are_amounts(keeper.vehicle_rows(8, 31, 99), &[])
}

/// The history's amounts, by days and by vehicle.
fn after_a_history(alloc: Global) -> bool {
    let digest = Digester::new().finish();
    let Ok(mut keeper) = MemKeeper::new(alloc, &[]) else {
        return false;
    };
    keeper.put_past(&past_of(digest), &[amount(31, 7, 28), amount(99, 7, 5)]) == Ok(())
        && has_both(&mut keeper, digest)
        && has_one(&mut keeper)
}

/// Whether these are a tariff's and have another seal than none.
fn are_sealed(alloc: Global, tariffs: &Tariffs, tariff: Tariff, none: Digest) -> bool {
    match seal(alloc, tariffs) {
        Ok(found) => tariffs.of(0) == tariff && found != none,
        Err(_) => false,
    }
}

/// Whether a keeper takes a tariff, which has another seal than none, and takes it away for the benchmark's.
fn takes_a_tariff(keeper: &mut MemKeeper, alloc: Global, none: Digest) -> bool {
    let tariff = Tariff {
        crowd: 50,
        speed: 40,
        factor: 5,
    };
    let put = keeper.put_tariff(0, &tariff) == Ok(());
    let Ok(kept) = keeper.tariffs() else {
        return false;
    };
    let taken = keeper.put_tariff(0, &Tariff::BENCHMARK) == Ok(());
    put && are_sealed(alloc, &kept, tariff, none) && taken && has_tariff(keeper, Tariff::BENCHMARK)
}

/// A day is kept, and then a tariff.
fn after_a_day(alloc: Global) -> bool {
    let digest = Digester::new().finish();
    let day = empty_day(digest).seal(digest);
    let Ok(mut keeper) = MemKeeper::new(alloc, &[]) else {
        return false;
    };
    keeper.put_day(&day, &[]) == Ok(())
        && keeper.last_day() == Ok(100)
        && keeper.day(100) == Ok(Some(day))
        && takes_a_tariff(&mut keeper, alloc, digest)
}

/// The digest of no byte, as a text.
const OF_NOTHING: &str = "e3b0c44298fc1c149afbf4c8996fb92427ae41e4649b934ca495991b7852b855";

/// Whether a keeper has no tariff of its own.
fn has_no_tariff(keeper: &mut MemKeeper, alloc: Global) -> bool {
    let mut lines = Vec::new(alloc);
    match keeper.tariffs() {
        Ok(tariffs) => tariffs.lines(alloc, &mut lines).is_ok() && lines.is_empty(),
        Err(_) => false,
    }
}

/// A day that was kept before tariffs were.
fn from_before(alloc: Global) -> bool {
    let digest = Digester::new().finish();
    let Ok(mut keeper) = MemKeeper::from_old(alloc, &[empty_day(digest)], &[], None, &[]) else {
        return false;
    };
    let Ok(Some(day)) = keeper.day(100) else {
        return false;
    };
    has_no_tariff(&mut keeper, alloc)
        && day == empty_day(digest).seal(digest)
        && has_text(alloc, &day.tariffs, OF_NOTHING)
}

/// Calls fail where they are told to.
fn fails_once(alloc: Global) -> bool {
    let Ok(mut keeper) = MemKeeper::new(alloc, &[1]) else {
        return false;
    };
    let days = [keeper.last_day(), keeper.last_day(), keeper.last_day()];
    days == [Ok(0), Err(KeepFault::Failed), Ok(0)]
}

/// A put that fails late is done.
fn fails_late(alloc: Global) -> bool {
    let digest = Digester::new().finish();
    let day = empty_day(digest).seal(digest);
    let Ok(mut late) = LateKeeper::new(alloc, &[0]) else {
        return false;
    };
    moves(&late);
    late.put_day(&day, &[]) == Err(KeepFault::Failed) && late.day(100) == Ok(Some(day))
}

#[test]
fn keepers_in_memory(rt: HostRuntime) {
    let alloc = rt.alloc();
    let rows = [
        nothing_at_first(alloc),
        after_a_history(alloc),
        after_a_day(alloc),
        from_before(alloc),
        fails_once(alloc),
        fails_late(alloc),
    ];
    assert_eq!(rt; rows, [true; 6]);
}
