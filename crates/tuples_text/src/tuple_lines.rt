// Writing a tuple's line, from its end to its front.
ghost use Rattle.std.specs.Prelude.{◌≡◌, ◌+◌, ◌<◌, ◌≤◌, [], ◌∷◌, ◌++◌, length, drop, map, pos, negsuc, OnOk, OnErr};
ghost use Rattle.std.specs.Prelude.{vec_len, vec_capacity};
ghost use Rattle.std.specs.Fmt.{signed_decimal};
ghost use Rattle.road_time.specs.Text.{tuple_text};
ghost use Rattle.tuples_text.specs.Ends.{fields_then, field_number};

use crate::ends::{put_byte, put_field};
use road_time::{NoMemory, Tuple};

// The bytes that hold the longest line.
const ROOM: usize = 320;

/// A comma and -1 before what stands from `end` on.
#[inline(always)]
fn put_none(line: &mut [u8], end: usize) -> usize
    requires some { 21 ≤ end }
    requires inside { end ≤ length line.old }
    ensures low { end ≤ result + 21 }
    ensures high { result ≤ end }
    ensures written { drop result line.new ≡ 44 ∷ (signed_decimal (negsuc 0) ++ drop end line.old) }
{
    let at = put_byte(b'1', line, end);
    let at = put_byte(b'-', line, at);
    put_byte(b',', line, at)
}

/// A comma and a field's number before what stands from `end` on.
#[inline(always)]
fn put_number(field: Option<u32>, line: &mut [u8], end: usize) -> usize
    requires some { 21 ≤ end }
    requires inside { end ≤ length line.old }
    ensures low { end ≤ result + 21 }
    ensures high { result ≤ end }
    ensures written { drop result line.new ≡ 44 ∷ (signed_decimal (field_number field) ++ drop end line.old) }
{
    match field {
        Some(n) => put_field(u64::from(n), line, end),
        None => put_none(line, end),
    }
}

/// The line of a kind and the fields after it.
fn put_fields(kind: u8, fields: &[Option<u32>; 14], line: &mut [u8; ROOM]) -> usize
    requires { kind < 10 }
    ensures inside { result ≤ length line.new }
    ensures written { drop result line.new ≡ fields_then (pos kind) (map field_number fields.now) }
{
    let mut at = put_byte(b'\n', line, ROOM);
    let mut left = 14usize;
    while left > 0 {
        left -= 1;
        at = put_number(fields[left], line, at);
    }
    put_byte(b'0' + kind, line, at)
}

/// The kind of a tuple's line and its fields.
fn fields_of(tuple: &Tuple) -> (u8, [Option<u32>; 14])
    ensures kind { result.0 < 10 }
    ensures fields { fields_then (pos result.0) (map field_number result.1) ≡ tuple_text tuple.now ++ 10 ∷ [] }
{
    let mut fields = [None; 14];
    match *tuple {
        Tuple::Report(r) => {
            fields[0] = Some(r.time);
            fields[1] = Some(r.vid);
            fields[2] = Some(u32::from(r.spd));
            fields[3] = Some(u32::from(r.xway));
            fields[4] = Some(u32::from(r.lane));
            fields[5] = Some(u32::from(r.dir));
            fields[6] = Some(u32::from(r.seg));
            fields[7] = Some(r.pos);
            (0, fields)
        }
        Tuple::Balance { time, vid, qid } => {
            fields[0] = Some(time);
            fields[1] = Some(vid);
            fields[8] = Some(qid);
            (2, fields)
        }
        Tuple::Spent {
            time,
            vid,
            xway,
            qid,
            day,
        } => {
            fields[0] = Some(time);
            fields[1] = Some(vid);
            fields[3] = Some(u32::from(xway));
            fields[8] = Some(qid);
            fields[13] = Some(u32::from(day));
            (3, fields)
        }
        Tuple::Travel { time } => {
            fields[0] = Some(time);
            (4, fields)
        }
    }
}

/// Appends a tuple's line with its LF, whole or not at all.
pub fn put_tuple(out: &mut Vec<u8>, tuple: &Tuple) -> Result<(), NoMemory>
    ensures ok { OnOk result (out.new.items ≡ out.old.items ++ (tuple_text tuple.now ++ 10 ∷ [])) }
    ensures err { OnErr result (out.new.items ≡ out.old.items) }
    ensures full { OnErr result (vec_capacity out.old < vec_len out.old + length (tuple_text tuple.now ++ 10 ∷ [])) }
{
    let (kind, fields) = fields_of(tuple);
    let mut line = [0u8; ROOM];
    let start = put_fields(kind, &fields, &mut line);
    out.extend_from_slice(&line[start..])?;
    Ok(())
}
