// The report of a tuple.
ghost use Rattle.std.specs.Prelude.{◌≡◌};
ghost use Rattle.road_time.specs.Tuples.{report_of as defined_report_of};

use road_time::{Report, Tuple};

pub fn report_of(tuple: &Tuple) -> Option<Report>
    ensures { result ≡ defined_report_of tuple.now }
{
    match tuple {
        Tuple::Report(r) => Some(*r),
        _ => None,
    }
}
