// Why something is not had of what it was looked for in.
use crate::cause::Cause;

/// Why something is not had: it was looked for, and is not there, so what it was looked for in is given back; or the look
/// failed for a cause, and that is let go.
pub enum Missed<T> {
    Foreign(T),
    Failed(Cause),
}
