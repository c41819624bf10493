// The example day by the plain rules: its notices and its accident log.
ghost use Rattle.std.specs.Prelude.{◌≡◌, ◌≤◌, [], IfOk};
ghost use Rattle.road_time.specs.Fits.{IsDay};
ghost use Rattle.road_time.specs.Day.{notices as notices_of};
ghost use Rattle.road_time.specs.Text.{out};
ghost use Rattle.road_time.specs.History.{paid, KeysDiffer};

use crate::reading::read_day;
use office_reports::accident_log;
use road_io::{StdSink, StdSource, put_all};
use road_rules::plain_notices;
use road_time::{NoMemory, Notice, SpentRow, Tariffs, Tuple};
use std::alloc::Global;
use std::rt::HostRuntime;
use std::thread::Threads;
use tuples_text::put_notice;

/// The number of the example day.
const EXAMPLE_DAY: u32 = 100;

/// The text of notices, a line each.
fn text_of(alloc: Global, notices: &[Notice]) -> Result<Vec<u8>, NoMemory>
    ensures { IfOk result (λ text. text.items ≡ out notices.now) }
{
    let mut text = Vec::new(alloc);
    for notice in notices {
        put_notice(&mut text, notice)?;
    }
    Ok(text)
}

/// The text of all notices of a day with this number.
fn notices_text(
    alloc: Global,
    tuples: &[Tuple],
    day: u32,
    history: &[SpentRow],
) -> Result<Vec<u8>, NoMemory>
    requires fit { IsDay tuples.now }
    requires low { 70 ≤ day }
    requires high { day ≤ 1000000 }
    requires keys { KeysDiffer history.now }
    ensures { IfOk result (λ text. text.items ≡ out (notices_of tuples.now [] day (paid history.now))) }
{
    let tariffs = Tariffs::new(alloc);
    let told = plain_notices(alloc, tuples, &tariffs, day, history)?;
    let text = text_of(alloc, told.as_slice())?;
    Ok(text)
}

/// Reads the day from standard input, and writes its notices and its accident log. The day is day 100, and the history
/// is that of the example.
pub(crate) fn show_example_day<R: Threads>(rt: HostRuntime, threads: &R) -> bool {
    let mut source = StdSource::new(rt.stdin());
    let mut sink = StdSink::new(rt.stdout());
    let history = [
        SpentRow {
            day: 31,
            vid: 7,
            xway: 0,
            tolls: 28,
        },
        SpentRow {
            day: 98,
            vid: 105,
            xway: 0,
            tolls: 1250,
        },
        SpentRow {
            day: 98,
            vid: 105,
            xway: 1,
            tolls: 75,
        },
        SpentRow {
            day: 99,
            vid: 7,
            xway: 0,
            tolls: 5,
        },
        SpentRow {
            day: 99,
            vid: 101,
            xway: 0,
            tolls: 450,
        },
    ];
    let Some(day) = read_day(threads, rt.alloc(), &mut source) else {
        return false;
    };
    let Ok(text) = notices_text(rt.alloc(), day.as_slice(), EXAMPLE_DAY, &history) else {
        return false;
    };
    let Ok(()) = put_all(&mut sink, text.as_slice()) else {
        return false;
    };
    accident_log(rt.alloc(), day.as_slice(), &mut sink).is_ok()
}
