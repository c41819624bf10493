// Numbers among the words.
ghost use Rattle.std.specs.Prelude.{◌≡◌, ◌≤◌, ◌<◌, ◌^◌, IfSome, option_map, Some, None, length, true, cond, nat_lt};
ghost use Rattle.std.specs.Char.{is_ascii_digit};
ghost use Rattle.std.specs.List.{list_all};
ghost use Rattle.std.specs.Str.Parse.{digits_value};
ghost use Rattle.clap.specs.Words.{first_value, found_of};
ghost use Rattle.office_words.specs.Meaning.{number, needed, optional, chosen};

use clap::ArgMatches;

/// Whether each byte is a digit.
fn is_digits(text: &str) -> bool
    ensures { result ≡ list_all is_ascii_digit text.now }
{
    text.as_bytes().iter().all(|b| b.is_ascii_digit())
}

/// The number that digits write, where it is below 2^64.
fn value_of(text: &str) -> Option<u64>
    requires some { 0 < length text.now }
    requires digits { list_all is_ascii_digit text.now ≡ true }
    ensures { result ≡ cond (nat_lt (digits_value 10 text.now) (2 ^ 64)) (Some (digits_value 10 text.now)) None }
{
    text.parse::<u64>().ok()
}

/// The number that the text writes in 1 to 20 digits, where it lies in the range.
pub fn number(text: &str, low: u64, high: u64) -> Option<u64>
    ensures value { result ≡ number low high text.now }
    ensures within { IfSome result (λ n. (low ≤ n) × (n ≤ high)) }
{
    if text.is_empty() || text.len() > 20 || !is_digits(text) {
        return None;
    }
    let n = value_of(text)?;
    if low <= n && n <= high { Some(n) } else { None }
}

/// The number in a place.
pub fn needed(matches: &ArgMatches<'_>, id: &str, low: u64, high: u64) -> Option<u64>
    ensures value { result ≡ needed low high (first_value (found_of matches.now) id.now) }
    ensures within { IfSome result (λ n. (low ≤ n) × (n ≤ high)) }
{
    number(matches.get_str(id)?, low, high)
}

/// The number of an option.
pub fn optional(
    matches: &ArgMatches<'_>,
    id: &str,
    low: u64,
    high: u64,
    default: u64,
) -> Option<u64>
    requires least { low ≤ default }
    requires most { default ≤ high }
    ensures value { result ≡ optional low high default (first_value (found_of matches.now) id.now) }
    ensures within { IfSome result (λ n. (low ≤ n) × (n ≤ high)) }
{
    match matches.get_str(id) {
        Some(text) => number(text, low, high),
        None => Some(default),
    }
}

/// The number of an option that has no default.
pub fn chosen(matches: &ArgMatches<'_>, id: &str, low: u64, high: u64) -> Option<Option<u64>>
    ensures { result ≡ chosen low high (first_value (found_of matches.now) id.now) }
{
    match matches.get_str(id) {
        Some(text) => Some(Some(number(text, low, high)?)),
        None => Some(None),
    }
}
