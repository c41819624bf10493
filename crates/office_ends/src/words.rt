// The words that ask for it.
ghost use Rattle.std.specs.Prelude.{◌≡◌, ◌≤◌, ◌<◌, ◌^◌, IfSome, Some, None, length, true, cond, nat_lt, map};
ghost use Rattle.std.specs.Prelude.{string_bytes};
ghost use Rattle.std.specs.Char.{is_ascii_digit};
ghost use Rattle.std.specs.List.{list_all};
ghost use Rattle.std.specs.Str.Parse.{digits_value};
ghost use Rattle.office_ends.specs.Words.{base_of, said_beside, said_after, renewal_said, count_of};
ghost use Rattle.office_ends.specs.Words.{base_beside, said_naming, count_named, drop_after, drop_said};

/// Whether each byte is a digit.
fn is_digits(text: &str) -> bool
    ensures { result ≡ list_all is_ascii_digit text.now }
{
    text.as_bytes().iter().all(|b| b.is_ascii_digit())
}

/// The number that digits write, where it is below 2^64.
fn value_of(text: &str) -> Option<u64>
    requires some { 0 < length text.now }
    requires digits { list_all is_ascii_digit text.now ≡ true }
    ensures { result ≡ cond (nat_lt (digits_value 10 text.now) (2 ^ 64)) (Some (digits_value 10 text.now)) None }
{
    text.parse::<u64>().ok()
}

/// The day that a word is.
fn base_in(text: &str) -> Option<u32>
    ensures value { result ≡ base_of text.now }
    ensures within { IfSome result (λ n. (70 ≤ n) × (n ≤ 1000000)) }
{
    if text.is_empty() || text.len() > 20 || !is_digits(text) {
        return None;
    }
    let n = value_of(text)?;
    if 70 <= n && n <= 1_000_000 {
        Some(n as u32)
    } else {
        None
    }
}

/// The day that a word is beside another, which is `--`.
fn beside(first: &str, second: &str) -> Option<u32>
    ensures value { result ≡ said_beside first.now second.now }
    ensures within { IfSome result (λ n. (70 ≤ n) × (n ≤ 1000000)) }
{
    if first == "--" {
        return base_in(second);
    }
    if second == "--" {
        return base_in(first);
    }
    None
}

/// The number of amounts that a word is.
fn count_in(text: &str) -> Option<u64>
    ensures { result ≡ count_of text.now }
{
    if text.is_empty() || text.len() > 20 || !is_digits(text) {
        return None;
    }
    value_of(text)
}

/// The day that a word is, beside one that has to be a number of amounts.
fn base_beside(count: Option<u64>, base: &str) -> Option<u32>
    ensures value { result ≡ base_beside count base.now }
    ensures within { IfSome result (λ n. (70 ≤ n) × (n ≤ 1000000)) }
{
    match count {
        Some(_) => base_in(base),
        None => None,
    }
}

/// The day of three words, two of which are `--drop` and a number of amounts.
fn naming(first: &str, second: &str, third: &str) -> Option<u32>
    ensures value { result ≡ said_naming first.now second.now third.now }
    ensures within { IfSome result (λ n. (70 ≤ n) × (n ≤ 1000000)) }
{
    if first == "--drop" {
        return base_beside(count_in(second), third);
    }
    if second == "--drop" {
        return base_beside(count_in(third), first);
    }
    None
}

/// The number of amounts that they name.
fn named(first: &str, second: &str, third: &str) -> Option<u64>
    ensures { result ≡ count_named first.now second.now third.now }
{
    if first == "--drop" {
        return count_in(second);
    }
    if second == "--drop" {
        return count_in(third);
    }
    None
}

/// The number of amounts that the words after the command's name name.
fn drop_after(words: &[String]) -> Option<u64>
    ensures { result ≡ drop_after (map string_bytes words.now) }
{
    match words {
        [first, second, third] => named(first.as_str(), second.as_str(), third.as_str()),
        _ => None,
    }
}

/// The number of amounts that may go, where words name it: `renew BASE --drop N`.
pub fn renewal_drop(words: &[String]) -> Option<u64>
    ensures { result ≡ drop_said (map string_bytes words.now) }
{
    let Some((_name, rest)) = words.split_first() else {
        return None;
    };
    drop_after(rest)
}

/// The day that the words after the command's name say.
fn base_said(words: &[String]) -> Option<u32>
    ensures value { result ≡ said_after (map string_bytes words.now) }
    ensures within { IfSome result (λ n. (70 ≤ n) × (n ≤ 1000000)) }
{
    match words {
        [base] => base_in(base.as_str()),
        [first, second] => beside(first.as_str(), second.as_str()),
        [first, second, third] => naming(first.as_str(), second.as_str(), third.as_str()),
        _ => None,
    }
}

/// The day that the office is to begin anew at, where words ask for that: `renew BASE`.
pub fn renewal_base(words: &[String]) -> Option<u32>
    ensures value { result ≡ renewal_said (map string_bytes words.now) }
    ensures within { IfSome result (λ n. (70 ≤ n) × (n ≤ 1000000)) }
{
    let Some((name, rest)) = words.split_first() else {
        return None;
    };
    if name.as_str() != "renew" {
        return None;
    }
    base_said(rest)
}
