// The plain form of a report line, read in one pass.
ghost use Rattle.std.specs.Prelude.{◌≡◌, ◌≤◌, ◌+◌, IfSome, Some, Ok, true};
ghost use Rattle.road_time.specs.declared.road.Tuple.TheVariants.{Report as ReportTuple};
ghost use Rattle.road_time.specs.Form.{form};
ghost use Rattle.tuples_text.specs.Fields.{IsField, unused_text};

use crate::ranges::{
    LAST_DIRECTION, LAST_LANE, LAST_NAME, LAST_POSITION, LAST_SECOND, LAST_SEGMENT, LAST_XWAY,
    TOP_SPEED,
};
use road_time::Report;

// The eight bytes `-1,-1,-1`, and the eight bytes `,-1,-1,-`, the first byte lowest.
const FRONT: u64 = 0x312d_2c31_2d2c_312d;

const BACK: u64 = 0x2d2c_312d_2c31_2d2c;

/// Whether a text is six fields of -1, by two comparisons of eight bytes.
#[inline(always)]
fn is_unused(text: &[u8]) -> bool
    ensures { result ≡ true → text.now ≡ unused_text }
{
    if text.len() != 17 || text[16] != b'1' {
        return false;
    }
    let Some((front, rest)) = text.split_first_chunk::<8>() else {
        return false;
    };
    let Some((back, _)) = rest.split_first_chunk::<8>() else {
        return false;
    };
    let first = u64::from_le_bytes(*front);
    let second = u64::from_le_bytes(*back);
    if first != FRONT || second != BACK {
        return false;
    }
    true
}

/// The value of a digit, and more than 9 for any other byte: one comparison tells both.
#[inline(always)]
fn digit_or_more(b: u8) -> u64
    ensures { result ≤ 9 → result + 48 ≡ b }
{
    u64::from(b).wrapping_sub(48)
}

/// A field of one to ten digits, and what follows its comma.
#[inline(always)]
fn digits(text: &[u8]) -> Option<(u64, &[u8])>
    ensures { IfSome result (λ p. IsField text.now p.0 p.1.now) }
{
    let (head, _) = text.split_first_chunk::<11>()?;
    let mut value: u64 = 0;
    for i in 0..11usize {
        let b = head[i];
        let d = digit_or_more(b);
        if d > 9 {
            if b != b',' || i == 0 {
                return None;
            }
            return Some((value, &text[i + 1..]));
        }
        value = 10 * value + d;
    }
    None
}

/// A field of one digit, and what follows its comma.
#[inline(always)]
fn digit(text: &[u8]) -> Option<(u64, &[u8])>
    ensures { IfSome result (λ p. IsField text.now p.0 p.1.now) }
{
    if text.len() < 2 {
        return None;
    }
    let d = digit_or_more(text[0]);
    if d > 9 || text[1] != b',' {
        return None;
    }
    Some((d, &text[2..]))
}

/// The report of a text in the plain form; what it leaves, the general reader takes.
#[inline(always)]
pub fn plain_report(text: &[u8]) -> Option<Report>
    ensures { IfSome result (λ r. form text.now ≡ Ok (Some (ReportTuple r))) }
{
    let (kind, rest) = digit(text)?;
    let (time, rest) = digits(rest)?;
    let (vid, rest) = digits(rest)?;
    let (spd, rest) = digits(rest)?;
    let (xway, rest) = digits(rest)?;
    let (lane, rest) = digit(rest)?;
    let (dir, rest) = digit(rest)?;
    let (seg, rest) = digits(rest)?;
    let (pos, rest) = digits(rest)?;
    if !is_unused(rest) || kind != 0 {
        return None;
    }
    if time > u64::from(LAST_SECOND) || vid > u64::from(LAST_NAME) || spd > u64::from(TOP_SPEED) {
        return None;
    }
    if xway > u64::from(LAST_XWAY) || lane > u64::from(LAST_LANE) {
        return None;
    }
    if dir > u64::from(LAST_DIRECTION) || seg > u64::from(LAST_SEGMENT) {
        return None;
    }
    if pos > u64::from(LAST_POSITION) {
        return None;
    }
    Some(Report {
        time: time as u32,
        vid: vid as u32,
        spd: spd as u8,
        xway: xway as u8,
        lane: lane as u8,
        dir: dir as u8,
        seg: seg as u8,
        pos: pos as u32,
    })
}
