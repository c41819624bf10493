// Reading a line.
ghost use Rattle.std.specs.Prelude.{◌≡◌, ◌≤◌, ◌≢◌, [], ◌==◌, count_by, length};
ghost use Rattle.road_time.specs.Lines.{without_cr};
ghost use Rattle.road_time.specs.Form.{form};
ghost use Rattle.tuples_text.specs.Causes.{reader_answer};

use crate::cause::Cause;
use crate::fields::{count_fields, numbers};
use crate::plain::plain_report;
use crate::tuples::tuple;
use road_time::Tuple;

/// The line without one last CR.
#[inline(always)]
pub fn trimmed(line: &[u8]) -> &[u8]
    ensures { result.now ≡ without_cr line.now }
{
    let count = line.len();
    if count > 0 && line[count - 1] == b'\r' {
        &line[..count - 1]
    } else {
        line
    }
}

/// The tuple of a text by its fields.
#[cold]
#[inline(never)]
fn read_text(text: &[u8]) -> Result<Option<Tuple>, Cause>
    requires { length text.now ≤ 200 }
    ensures { result ≡ reader_answer (form text.now) }
{
    if text.is_empty() {
        return Ok(None);
    }
    let count = count_fields(text);
    if count != 15 {
        return Err(Cause::Fields(count as u32));
    }
    match numbers(text) {
        Err(cause) => Err(cause),
        Ok(numbers) => tuple(&numbers),
    }
}

/// The tuple of a line, no tuple for an empty line, or why there is none.
pub fn read_line(line: &[u8]) -> Result<Option<Tuple>, Cause>
    requires { length line.now ≤ 200 }
    ensures { result ≡ reader_answer (form (without_cr line.now)) }
{
    let text = trimmed(line);
    match plain_report(text) {
        Some(report) => Ok(Some(Tuple::Report(report))),
        // Not the answer as it came: what is given out by a pointer would keep the other arm's report in memory.
        None => match read_text(text) {
            Ok(tuple) => Ok(tuple),
            Err(cause) => Err(cause),
        },
    }
}
