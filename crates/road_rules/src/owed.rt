// Stays and charges, recomputed over the whole list.
ghost use Rattle.std.specs.Prelude.{◌≡◌, ◌≤◌, ◌<◌, ◌^◌, IfOk, ℕ, length, take, Some, slice_get};
ghost use Rattle.road_time.specs.declared.road.Frac.{Frac};
ghost use Rattle.road_time.specs.Tuples.{reports};
ghost use Rattle.road_time.specs.Rates.{IsTariff, is_slow as defined_is_slow, toll_of as defined_toll_of};
ghost use Rattle.road_time.specs.Tolls.{toll_at};
ghost use Rattle.road_time.specs.Sights.{sight_of as defined_sight_of, sights as defined_sights};
ghost use Rattle.road_time.specs.Sights.{sights_of as defined_sights_of, previous as defined_previous};
ghost use Rattle.road_time.specs.Stays.{begins as defined_begins, is_charged, stay_start as defined_stay_start};
ghost use Rattle.road_time.specs.Day.{owed_amount};
ghost use Rattle.road_time.specs.declared.road.Tuple.{Tuple as TupleValue};
ghost use Rattle.road_time.specs.Fits.{IsDay};

use crate::cars::plain_cars;
use crate::flows::plain_lav;
use crate::near::plain_near;
use crate::places::report_of;
use road_time::{
    EXIT_LANE, Frac, GREATEST_TOLL, NoMemory, Report, Stretch, Tariff, Tariffs, Tuple, minute,
};
use std::alloc::Global;

/// The newest of a vehicle's reports.
fn previous(own: &[(usize, Report)]) -> Option<Report>
    ensures { result ≡ defined_previous own.now }
{
    match own.split_first() {
        None => None,
        Some((newest, _)) => Some(newest.1),
    }
}

/// The report begins a stay, after its vehicle's previous report.
pub fn begins(prev: Option<Report>, r: &Report) -> bool
    ensures { result ≡ defined_begins prev r.now }
{
    match prev {
        None => true,
        Some(prev) => prev.stretch() != r.stretch()
            || prev.lane == EXIT_LANE && r.lane != EXIT_LANE,
    }
}

/// Of a vehicle's reports, the newest first, the one that began the stay of the newest.
fn stay_start(own: &[(usize, Report)]) -> Option<(usize, Report)>
    ensures { result ≡ defined_stay_start own.now }
{
    let mut rest = own;
    while let Some((newest, older)) = rest.split_first() {
        if begins(previous(older), &newest.1) {
            return Some(*newest);
        }
        rest = older;
    }
    None
}

fn is_slow(speed: u8, average: Option<Frac>) -> bool
    requires speed { speed ≤ 100 }
    requires fits { (f : Frac) → average ≡ Some f → f.den < 2 ^ 120 }
    ensures { result ≡ defined_is_slow speed average }
{
    match average {
        None => false,
        Some(f) => f.num < u128::from(speed) * f.den,
    }
}

pub fn toll_of(tariff: Tariff, count: u32, average: Option<Frac>, blocked: bool) -> u64
    requires valid { IsTariff tariff }
    requires few { count ≤ 500000 }
    requires fits { (f : Frac) → average ≡ Some f → f.den < 2 ^ 120 }
    ensures { result ≡ defined_toll_of tariff count average blocked }
{
    if count > tariff.crowd && is_slow(tariff.speed, average) && !blocked {
        let over = u64::from(count - tariff.crowd);
        (u64::from(tariff.factor) * (over * over)).min(GREATEST_TOLL)
    } else {
        0
    }
}

/// The toll of the stretch in the minute.
pub fn plain_toll(
    alloc: Global,
    tuples: &[Tuple],
    tariffs: &Tariffs,
    in_minute: u32,
    stretch: Stretch,
) -> Result<u64, NoMemory>
    requires { IsDay tuples.now }
    ensures { IfOk result (λ n. n ≡ toll_at (reports tuples.now) tariffs.now in_minute stretch) }
{
    let count = plain_cars(alloc, tuples, in_minute, stretch)?;
    let average = plain_lav(alloc, tuples, in_minute, stretch)?;
    let nearest = plain_near(alloc, tuples, in_minute, stretch)?;
    Ok(toll_of(tariffs.of(stretch.xway), count, average, nearest.is_some()))
}

/// The report that a tuple is, with the tuple's position.
fn sight_of(at: usize, tuple: &Tuple) -> Option<(usize, Report)>
    ensures { result ≡ defined_sight_of (at, tuple.now) }
{
    match tuple {
        Tuple::Report(r) => Some((at, *r)),
        _ => None,
    }
}

fn sights(alloc: Global, tuples: &[Tuple]) -> Result<Vec<(usize, Report)>, NoMemory>
    ensures { IfOk result (λ all. all.items ≡ defined_sights tuples.now) }
{
    Ok(
        tuples
            .iter()
            .enumerate()
            .filter_map(|(at, tuple)| sight_of(at, tuple))
            .collect(alloc)?,
    )
}

/// The vehicle's reports, the newest first.
fn sights_of(alloc: Global, tuples: &[Tuple], vid: u32) -> Result<Vec<(usize, Report)>, NoMemory>
    ensures { IfOk result (λ own. own.items ≡ defined_sights_of tuples.now vid) }
{
    let all = sights(alloc, tuples)?;
    Ok(
        all.iter()
            .rev()
            .filter(|s| s.1.vid == vid)
            .copied()
            .collect(alloc)?,
    )
}

/// A report leaves a stay that is charged, after its vehicle's previous report.
pub fn leaves_stay(prev: Option<Report>, r: &Report) -> bool
    ensures { result ≡ is_charged prev r.now }
{
    match prev {
        None => false,
        Some(newest) => begins(prev, r) && newest.lane != 4,
    }
}

/// The charge that the tuple at the position causes, 0 for none.
pub fn plain_owed(
    alloc: Global,
    tuples: &[Tuple],
    tariffs: &Tariffs,
    position: usize,
) -> Result<u64, NoMemory>
    requires fit { IsDay tuples.now }
    requires inside { position < length tuples.now }
    ensures { IfOk result (λ n. (x : TupleValue) → slice_get tuples.now position ≡ Some x
        → n ≡ owed_amount tuples.now tariffs.now (take position tuples.now, x)) }
{
    let Some(r) = report_of(&tuples[position]) else {
        return Ok(0);
    };
    let own = sights_of(alloc, &tuples[..position], r.vid)?;
    if !leaves_stay(previous(own.as_slice()), &r) {
        return Ok(0);
    }
    let Some(start) = stay_start(own.as_slice()) else {
        return Ok(0);
    };
    let toll = plain_toll(
        alloc,
        tuples,
        tariffs,
        minute(start.1.time),
        start.1.stretch(),
    )?;
    Ok(toll)
}
