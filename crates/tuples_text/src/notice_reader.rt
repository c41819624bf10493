// Reading a notice's line: which notice it may be, and whether it is that notice's text.
ghost use Rattle.std.specs.Prelude.{◌≡◌, ◌≢◌, ◌∷◌, [], Some, true, IfSome, IfNone, map};
ghost use Rattle.std.specs.Str.{bytes_eq};
ghost use Rattle.std.specs.Fmt.{signed_decimal};
ghost use Rattle.road_time.specs.declared.road.Notice.{Notice as NoticeValue};
ghost use Rattle.road_time.specs.Text.{is_lav, is_notice, notice_numbers, notice_text};
ghost use Rattle.road_time.specs.Text.{read_notice as defined_read_notice};
ghost use Rattle.tuples_text.specs.Candidates.{IsNatural, IsLav, short_candidate};

use crate::fields::split_field;
use crate::notices::{ROOM, put_line};
use crate::ranges::{LAST_NAME, LAST_SECOND, LAST_SEGMENT};
use road_time::Notice;
use std::str;

/// The number of 64 bits whose text a field is, 0 if it is none's.
fn amount(field: &[u8]) -> u64
    ensures { IsNatural 64 field.now result }
{
    let Ok(text) = str::from_utf8(field) else {
        return 0;
    };
    text.parse().unwrap_or(0)
}

/// The same of 32 bits.
fn word(field: &[u8]) -> u32
    ensures { IsNatural 32 field.now result }
{
    let Ok(text) = str::from_utf8(field) else {
        return 0;
    };
    text.parse().unwrap_or(0)
}

/// The average whose text a field is, 0 if it is none's.
fn lav(field: &[u8]) -> i16
    ensures { IsLav field.now result }
{
    let Ok(text) = str::from_utf8(field) else {
        return 0;
    };
    text.parse().unwrap_or(0)
}

/// The notice of a kind and three numbers.
fn short(kind: u32, a: u32, b: u32, c: u64) -> Option<Notice>
    ensures { result ≡ short_candidate kind a b c }
{
    match kind {
        1 if c <= 99 => Some(Notice::Alert {
            time: a,
            vid: b,
            seg: c as u8,
        }),
        2 => Some(Notice::Balance {
            time: a,
            qid: b,
            amount: c,
        }),
        3 => Some(Notice::Spent {
            time: a,
            qid: b,
            amount: c,
        }),
        _ => None,
    }
}

/// The one notice that a line can be the text of.
fn candidate(line: &[u8]) -> Option<Notice>
    ensures { (n : NoticeValue) → is_notice n ≡ true → notice_text n ≡ line.now → result ≡ Some n }
{
    let (kind, rest) = split_field(line);
    let (first, rest) = split_field(rest?);
    let (second, rest) = split_field(rest?);
    let (third, rest) = split_field(rest?);
    match rest {
        None => short(word(kind), word(first), word(second), amount(third)),
        Some(rest) => {
            let (last, _) = split_field(rest);
            Some(Notice::Toll {
                vid: word(first),
                time: word(second),
                lav: lav(third),
                toll: amount(last),
            })
        }
    }
}

/// Whether an average is -1, for none, or at most 100.
fn is_average(lav: i16) -> bool
    ensures { result ≡ is_lav lav }
{
    lav >= -1 && lav <= 100
}

/// Whether a notice's numbers are in their ranges.
fn is_valid(notice: Notice) -> bool
    ensures { result ≡ is_notice notice }
{
    match notice {
        Notice::Toll { vid, time, lav, .. } => {
            vid <= LAST_NAME && time <= LAST_SECOND && is_average(lav)
        }
        Notice::Alert { time, vid, seg } => time <= LAST_SECOND
            && vid <= LAST_NAME
            && u32::from(seg) <= LAST_SEGMENT,
        Notice::Balance { time, qid, .. } => time <= LAST_SECOND && qid <= LAST_NAME,
        Notice::Spent { time, qid, .. } => time <= LAST_SECOND && qid <= LAST_NAME,
    }
}

/// Whether a line is a notice's text.
fn is_text(notice: &Notice, line: &[u8]) -> bool
    ensures { result ≡ bytes_eq (notice_text notice.now) line.now }
{
    let mut room = [0u8; ROOM];
    let start = put_line(notice, &mut room);
    &room[start..ROOM - 1] == line
}

/// The notice whose text the line is, without its LF. A notice has one text alone.
pub fn read_notice(line: &[u8]) -> Option<Notice>
    ensures read { result ≡ defined_read_notice line.now }
    ensures some { IfSome result (λ n. (is_notice n ≡ true) × (notice_text n ≡ line.now)) }
    ensures none { IfNone result ((n : NoticeValue) → is_notice n ≡ true → notice_text n ≢ line.now) }
{
    let notice = candidate(line)?;
    if is_valid(notice) && is_text(&notice, line) {
        Some(notice)
    } else {
        None
    }
}
