// Writing a notice's line, from its end to its front.
ghost use Rattle.std.specs.Prelude.{◌≡◌, ◌+◌, ◌<◌, ◌≤◌, [], ◌∷◌, ◌++◌, length, drop, pos, OnOk, OnErr, vec_len};
ghost use Rattle.std.specs.Prelude.{vec_capacity};
ghost use Rattle.std.specs.Fmt.{signed_decimal};
ghost use Rattle.road_time.specs.Text.{notice_text, notice_numbers};
ghost use Rattle.tuples_text.specs.Ends.{fields_then};

use crate::ends::{put_byte, put_field, put_signed};
use road_time::{NoMemory, Notice};

/// The bytes that hold the longest line.
pub const ROOM: usize = 96;

/// The line of a kind and three numbers.
#[inline(always)]
fn put_short(kind: u8, a: u32, b: u32, c: u64, line: &mut [u8; ROOM]) -> usize
    requires { kind < 10 }
    ensures inside { result ≤ length line.new }
    ensures written { drop result line.new ≡ fields_then (pos kind) (pos a ∷ pos b ∷ pos c ∷ []) }
{
    let at = put_byte(b'\n', line, ROOM);
    let at = put_field(c, line, at);
    let at = put_field(u64::from(b), line, at);
    let at = put_field(u64::from(a), line, at);
    put_byte(b'0' + kind, line, at)
}

/// The line of a toll.
#[inline(always)]
fn put_toll(vid: u32, time: u32, lav: i16, toll: u64, line: &mut [u8; ROOM]) -> usize
    ensures inside { result ≤ length line.new }
    ensures written { drop result line.new ≡ fields_then (pos 0) (pos vid ∷ pos time ∷ lav ∷ pos toll ∷ []) }
{
    let at = put_byte(b'\n', line, ROOM);
    let at = put_field(toll, line, at);
    let at = put_signed(lav, line, at);
    let at = put_field(u64::from(time), line, at);
    let at = put_field(u64::from(vid), line, at);
    put_byte(b'0', line, at)
}

/// The line of a notice.
#[inline(always)]
pub fn put_line(notice: &Notice, line: &mut [u8; ROOM]) -> usize
    ensures inside { result ≤ length line.new }
    ensures written { drop result line.new ≡ notice_text notice.now ++ 10 ∷ [] }
{
    match *notice {
        Notice::Toll {
            vid,
            time,
            lav,
            toll,
        } => put_toll(vid, time, lav, toll, line),
        Notice::Alert { time, vid, seg } => put_short(1, time, vid, u64::from(seg), line),
        Notice::Balance { time, qid, amount } => put_short(2, time, qid, amount, line),
        Notice::Spent { time, qid, amount } => put_short(3, time, qid, amount, line),
    }
}

/// Appends a notice's line with its LF, whole or not at all.
pub fn put_notice(out: &mut Vec<u8>, notice: &Notice) -> Result<(), NoMemory>
    ensures ok { OnOk result (out.new.items ≡ out.old.items ++ (notice_text notice.now ++ 10 ∷ [])) }
    ensures err { OnErr result (out.new.items ≡ out.old.items) }
    ensures full { OnErr result (vec_capacity out.old < vec_len out.old + length (notice_text notice.now ++ 10 ∷ [])) }
{
    let mut line = [0u8; ROOM];
    let start = put_line(notice, &mut line);
    out.extend_from_slice(&line[start..])?;
    Ok(())
}
