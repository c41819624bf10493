// A day's tuples, from its lines.
ghost use Rattle.std.specs.Prelude.{IfSome};
ghost use Rattle.road_time.specs.Fits.{Fit};
ghost use Rattle.road_time.specs.declared.day.TheConstants.Limits.{DAY};

use day_reading::DayReader;
use road_io::Source;
use road_time::{Limits, Tuple};
use std::alloc::Global;
use std::thread::Threads;

/// All tuples of a day, none where a line is refused, a read fails or memory ends.
pub(crate) fn read_day<S: Source, R: Threads>(
    rt: &R,
    alloc: Global,
    source: &mut S,
) -> Option<Vec<Tuple>>
    ensures { IfSome result (λ d. Fit d.items DAY) }
{
    let limits = Limits::DAY;
    let Ok(mut reader) = DayReader::new(alloc, &limits, 0, false) else {
        return None;
    };
    let mut tuples = Vec::new(alloc);
    'reading: loop {
        match reader.next(rt, source) {
            Ok(Some(tuple)) => {
                if tuples.push(tuple).is_err() {
                    reader.close(rt);
                    return None;
                }
            }
            Ok(None) => {
                reader.close(rt);
                return Some(tuples);
            }
            Err(_) => {
                reader.close(rt);
                return None;
            }
        }
    }
}
