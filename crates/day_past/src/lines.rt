// One line of a history: its four numbers, and the amount that they are.
ghost use Rattle.std.specs.Prelude.{◌≡◌, ◌≤◌, ℕ, ◌∷◌, [], length, pos, MatchOption, IfOk, false, option_copied, Some};
ghost use Rattle.std.specs.Prelude.{None};
ghost use Rattle.std.specs.List.{filter_map};
ghost use Rattle.road_time.specs.Lines.{without_cr};
ghost use Rattle.road_time.specs.Numbers.{number_of, fields_of_text};
ghost use Rattle.road_time.specs.Form.{first_odd, first_out, is_allowed, From};
ghost use Rattle.keep_office.specs.PastReads.{past_form, past_in_ranges, past_uses};
ghost use Rattle.day_past.specs.Causes.{ReadsRow, four_numbers};
ghost use Rattle.day_past.specs.Rows.{IsPastRow, IfAny};

use crate::outcomes::PastCause;
use road_time::SpentRow;
use tuples_text::{count_fields, number, split_field, trimmed};

/// The four numbers of a text of four fields, or the first field that is none.
fn numbers(text: &[u8]) -> Result<[i64; 4], PastCause>
    requires { length (fields_of_text text.now) ≡ 4 }
    ensures { result ≡ four_numbers (first_odd (fields_of_text text.now))
        (filter_map (number_of 10) (fields_of_text text.now)) }
{
    let mut numbers = [0i64; 4];
    let mut rest = Some(text);
    for i in 0..4usize {
        let Some(text) = rest else {
            unreachable!();
        };
        let (field, more) = split_field(text);
        let Some(z) = number(field) else {
            return Err(PastCause::Number(i as u8 + 1));
        };
        numbers[i] = z;
        rest = more;
    }
    Ok(numbers)
}

/// A number, if it is from the first to the last.
fn within(z: i64, low: u32, high: u64) -> Option<u64>
    requires { high ≤ 9999999999 }
    ensures { MatchOption result (is_allowed (From low high) z ≡ false) (λ n. (z ≡ pos n) × (low ≤ n) × (n ≤ high)) }
{
    if z < 0 {
        return None;
    }
    let n = z as u64;
    if n < u64::from(low) || n > high {
        return None;
    }
    Some(n)
}

/// The amount that four numbers are, the days counted back from a base.
fn row(base: u32, vid: i64, day: i64, xway: i64, tolls: i64) -> Result<Option<SpentRow>, PastCause>
    requires { 70 ≤ base }
    ensures reads { let zs = vid ∷ day ∷ xway ∷ tolls ∷ [] in ReadsRow
        (past_in_ranges base zs (first_out 1 past_uses zs)) result }
    ensures valid { IfOk result (IfAny (IsPastRow base)) }
{
    let Some(vid) = within(vid, 0, 2_147_483_647) else {
        return Err(PastCause::Range(1));
    };
    let Some(day) = within(day, 1, 69) else {
        return Err(PastCause::Range(2));
    };
    let Some(xway) = within(xway, 0, 255) else {
        return Err(PastCause::Range(3));
    };
    let Some(tolls) = within(tolls, 0, 9_999_999_999) else {
        return Err(PastCause::Range(4));
    };
    Ok(Some(SpentRow {
        day: base - day as u32,
        vid: vid as u32,
        xway: xway as u8,
        tolls,
    }))
}

/// The amount that the four numbers of a line are.
fn row_of(base: u32, n: &[i64; 4]) -> Result<Option<SpentRow>, PastCause>
    requires { 70 ≤ base }
    ensures reads { ReadsRow (past_in_ranges base n.now (first_out 1 past_uses n.now)) result }
    ensures valid { IfOk result (IfAny (IsPastRow base)) }
{
    row(base, n[0], n[1], n[2], n[3])
}

/// The amount of a text by its fields.
fn read_text(base: u32, text: &[u8]) -> Result<Option<SpentRow>, PastCause>
    requires few { length text.now ≤ 200 }
    requires based { 70 ≤ base }
    ensures reads { ReadsRow (past_form base text.now) result }
    ensures valid { IfOk result (IfAny (IsPastRow base)) }
{
    if text.is_empty() {
        return Ok(None);
    }
    let count = count_fields(text);
    if count != 4 {
        return Err(PastCause::Fields(count as u32));
    }
    match numbers(text) {
        Err(cause) => Err(cause),
        Ok(numbers) => row_of(base, &numbers),
    }
}

/// The amount of a line, none for an empty line, or why there is none. The days are counted back from a base.
pub fn read_row(base: u32, line: &[u8]) -> Result<Option<SpentRow>, PastCause>
    requires few { length line.now ≤ 200 }
    requires based { 70 ≤ base }
    ensures reads { ReadsRow (past_form base (without_cr line.now)) result }
    ensures valid { IfOk result (IfAny (IsPastRow base)) }
{
    read_text(base, trimmed(line))
}
