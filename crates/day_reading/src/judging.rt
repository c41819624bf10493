// One line of a day, judged by the good lines before it.
ghost use Rattle.std.specs.Prelude.{◌≡◌, ◌≤◌, ℕ, List, IfOk, length};
ghost use Rattle.road_time.specs.declared.road.Tuple.{Tuple as TupleValue};
ghost use Rattle.road_time.specs.declared.day.Limits.{Limits as LimitsValue};
ghost use Rattle.road_time.specs.Reads.{tuples_of};
ghost use Rattle.tuples_text.specs.Gates.{StandsFor};
ghost use Rattle.day_reading.specs.Checked.{Checked};
ghost use Rattle.day_reading.specs.Checking.{Admits, Judged};

use road_time::{NoMemory, Tuple};
use tuples_text::{AdmitFault, Cause, Gatekeeper, read_line};

/// Lets a tuple in, or answers why not.
fn admit(gate: &mut Gatekeeper, tuple: &Tuple) -> Result<Option<Cause>, NoMemory>
    ensures { (limits : LimitsValue) (late : ℕ) (before : List TupleValue) → StandsFor gate.old limits late before
        → IfOk result (λ cause. Admits limits late before tuple.now cause gate.new) }
{
    match gate.admit(tuple) {
        Ok(()) => Ok(None),
        Err(AdmitFault::Refused(cause)) => Ok(Some(cause)),
        Err(AdmitFault::NoMemory) => Err(NoMemory),
    }
}

/// Lets in the tuple of a line that follows so many good ones, or answers why it is refused. Of a line that is too long
/// some bytes more than 200 suffice.
pub fn judge(
    gate: &mut Gatekeeper,
    line_limit: u32,
    good: u64,
    text: &[u8],
) -> Result<Option<Cause>, NoMemory>
    ensures { (limits : LimitsValue) (late : ℕ) (c : Checked) → line_limit ≡ limits.lines → good ≡ length c.kept
        → StandsFor gate.old limits late (tuples_of c.kept)
        → IfOk result (λ cause. Judged limits late c text.now cause gate.new) }
{
    if text.len() > 200 {
        return Ok(Some(Cause::Long));
    }
    if good >= u64::from(line_limit) {
        return Ok(Some(Cause::Many(line_limit)));
    }
    match read_line(text) {
        Ok(Some(tuple)) => admit(gate, &tuple),
        Ok(None) => Ok(None),
        Err(cause) => Ok(Some(cause)),
    }
}
