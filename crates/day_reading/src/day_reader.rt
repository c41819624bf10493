// Reading a day: the type.
ghost use Rattle.std.specs.Prelude.{◌≡◌, ◌≤◌, ◌+◌, ◌*◌, None};
ghost use Rattle.road_io.specs.Cutter.{line_number, fault_of};
ghost use Rattle.day_reading.specs.Lines.{StopsAfter};

use crate::consumed::Consumed;
use crate::ending::Ending;
use crate::intake::Intake;
use road_io::LineCutter;

mod steps;

/// Reads the tuples of a day one by one, in the order of Time. It cannot be dropped: `digest` and `close` end it, once
/// no thread has a part of its bytes.
pub struct DayReader {
    cutter: LineCutter,
    intake: Intake,
    consumed: Consumed,
    given: u64,
    end: Option<Ending>,
    ghost few_lines: { line_number cutter ≤ intake.line_limit + 1 },
    ghost goes_on: { end ≡ None → line_number cutter ≤ intake.line_limit },
    ghost unbroken: { end ≡ None → fault_of cutter ≡ None },
    ghost stops: { StopsAfter end (line_number cutter) },
    ghost few_bytes: { consumed.bytes ≤ 201 * line_number cutter },
}
