// A closing line, which lies in the value itself, so that it takes no memory.
ghost use Rattle.std.specs.Prelude.{◌≡◌, ◌≤◌, ◌+◌, ◌++◌, length, codes};
ghost use Rattle.std.specs.Fmt.{decimal};
ghost use Rattle.arrayvec.specs.ArrayString.{array_string_len};
ghost use Rattle.office_ends.specs.Endings.{begun_line, early_line, drops_line, unfit_line};

use arrayvec::ArrayString;
use itoa::Buffer;
use road_time::SpentRow;

/// A closing line has at most so many bytes.
pub(crate) type Line = ArrayString<128>;

/// Appends a word and a number.
fn put(line: &mut Line, word: &str, number: u64)
    requires { array_string_len line.old + (length word.now + 20) ≤ 128 }
    ensures written { line.new.bytes ≡ (line.old.bytes ++ word.now) ++ decimal number }
    ensures len { array_string_len line.new ≤ array_string_len line.old + (length word.now + 20) }
{
    let mut digits = Buffer::new();
    line.push_str(word);
    line.push_str(digits.format(number));
}

/// The line of an office that began anew.
pub(crate) fn begun_line(base: u32, rows: u64, dropped: u64) -> Line
    ensures { result.bytes ≡ begun_line base rows dropped }
{
    let mut line = Line::new();
    put(&mut line, "# renewed base ", u64::from(base));
    put(&mut line, " rows ", rows);
    put(&mut line, " dropped ", dropped);
    line.push_str("\n");
    line
}

/// The line of a base that is not above the last day.
pub(crate) fn early_line(last: u32) -> Line
    ensures { result.bytes ≡ early_line last }
{
    let mut line = Line::new();
    put(&mut line, "# renew early last ", u64::from(last));
    line.push_str("\n");
    line
}

/// The line of amounts that would go.
pub(crate) fn drops_line(rows: u64) -> Line
    ensures { result.bytes ≡ drops_line rows }
{
    let mut line = Line::new();
    put(&mut line, "# renew drops rows ", rows);
    line.push_str("\n");
    line
}

/// The line of an amount that no history may have.
pub(crate) fn unfit_line(row: &SpentRow) -> Line
    ensures { result.bytes ≡ unfit_line row.now }
{
    let mut line = Line::new();
    put(&mut line, "# renew unfit day ", u64::from(row.day));
    put(&mut line, " vid ", u64::from(row.vid));
    put(&mut line, " xway ", u64::from(row.xway));
    put(&mut line, " tolls ", row.tolls);
    line.push_str("\n");
    line
}

/// A line that has no number.
pub(crate) fn plain_line(text: &str) -> Line
    requires { length text.now ≤ 128 }
    ensures { result.bytes ≡ text.now }
{
    let mut line = Line::new();
    line.push_str(text);
    line
}
