// Which lists are days that the limits allow: a test asks before it calls.
ghost use Rattle.std.specs.Prelude.{◌≡◌, true};
ghost use Rattle.road_time.specs.Fits.{IsDay, IsValid};

use road_time::{Limits, Tuple};
use std::alloc::Global;
use tuples_text::Gatekeeper;

/// The numbers of the tuple are in their ranges.
fn is_valid(tuple: &Tuple) -> bool
    ensures { result ≡ true → IsValid tuple.now }
{
    match *tuple {
        Tuple::Report(r) => {
            r.time <= 86399
                && r.vid <= 2147483647
                && r.spd <= 100
                && r.lane <= 4
                && r.dir <= 1
                && r.seg <= 99
                && r.pos <= 527999
        }
        Tuple::Balance { time, vid, qid } => {
            time <= 86399 && vid <= 2147483647 && qid <= 2147483647
        }
        Tuple::Spent {
            time,
            vid,
            xway,
            qid,
            day,
        } => {
            time <= 86399
                && vid <= 2147483647
                && u16::from(xway) <= 255
                && qid <= 2147483647
                && day >= 1
                && day <= 69
        }
        Tuple::Travel { time } => time <= 86399,
    }
}

/// The tuples are a day that the limits allow, by a gatekeeper that waits for none.
pub fn is_day(alloc: Global, tuples: &[Tuple]) -> bool
    ensures { result ≡ true → IsDay tuples.now }
{
    if tuples.len() > 1000 {
        return false;
    }
    let mut gatekeeper = Gatekeeper::new(alloc, &Limits::DAY, 0);
    for tuple in tuples {
        if !is_valid(tuple) {
            return false;
        }
        match gatekeeper.admit(tuple) {
            Ok(()) => {}
            Err(_) => return false,
        }
    }
    true
}
