// Why a line is refused.
ghost use Rattle.std.specs.Prelude.{Some};
ghost use Rattle.tuples_text.specs.Causes.{cause_text};

use std::fmt;

/// Why a line is refused, and with it the rest of the input.
#[derive(Clone, Copy, Debug, PartialEq, Eq)]
pub enum Cause {
    /// The line has more than 200 bytes.
    Long,
    /// The line's number is above this limit of lines.
    Many(u32),
    /// The line has so many fields.
    Fields(u32),
    /// This field, counted from 1, is no number.
    Number(u8),
    /// This field, counted from 1, is out of its range.
    Range(u8),
    /// The greatest Time before, and the tuple's own, which is too long before it.
    Late(u32, u32),
    /// The vehicle, and the minute in which it has four reports already.
    TooOften(u32, u32),
    /// A report of a new vehicle, where as many as this limit have reported.
    Vehicles(u32),
}

impl fmt::Display for Cause {
    ghost output = { λ cause. Some (cause_text cause) };

    fn fmt<W: fmt::Write>(&self, f: &mut fmt::Formatter<W>) -> fmt::Result {
        match *self {
            Cause::Long => f.write_str("long"),
            Cause::Many(limit) => write!(f, "many {limit}"),
            Cause::Fields(count) => write!(f, "fields {count}"),
            Cause::Number(field) => write!(f, "number {field}"),
            Cause::Range(field) => write!(f, "range {field}"),
            Cause::Late(previous, now) => write!(f, "late {previous} {now}"),
            Cause::TooOften(vid, minute) => write!(f, "too-often {vid} {minute}"),
            Cause::Vehicles(limit) => write!(f, "vehicles {limit}"),
        }
    }
}
