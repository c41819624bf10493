// Reading a history: the type.
ghost use Rattle.std.specs.Prelude.{◌≡◌, ◌≤◌, ◌*◌, true};
ghost use Rattle.road_io.specs.Cutter.{line_number};

use crate::amounts::Amounts;
use day_reading::Consumed;
use road_io::LineCutter;

mod steps;

/// Reads the lines of a history one by one, and keeps their amounts. It cannot be dropped: `kept` and `close` end it,
/// once no thread has a part of its bytes.
pub struct PastReader {
    cutter: LineCutter,
    consumed: Consumed,
    amounts: Amounts,
    ghost digested: { consumed.digested ≡ true },
    ghost few_bytes: { consumed.bytes ≤ 201 * line_number cutter },
}
