// Numbers as a request writes them.
ghost use Rattle.std.specs.Prelude.{◌≡◌, ◌≤◌, ◌<◌, ◌^◌, Some, None, IfSome};
ghost use Rattle.serve_requests.specs.Numbers.{short_number as number_of_text, number_in as number_in_range};

/// The number that a text of 1 to 10 digits is.
pub fn number_of(digits: &[u8]) -> Option<u64>
    ensures { result ≡ number_of_text digits.now }
{
    if digits.is_empty() || digits.len() > 10 {
        return None;
    }
    let mut value: u64 = 0;
    for b in digits {
        if *b < b'0' || *b > b'9' {
            return None;
        }
        value = 10 * value + u64::from(*b - b'0');
    }
    Some(value)
}

/// The number of 1 to 10 digits in a range that a text is.
pub fn number_in(low: u32, high: u32, text: &[u8]) -> Option<u32>
    ensures value { result ≡ number_in_range low high text.now }
    ensures within { IfSome result (λ n. (low ≤ n) × (n ≤ high)) }
{
    let n = number_of(text)?;
    if u64::from(low) <= n && n <= u64::from(high) {
        Some(n as u32)
    } else {
        None
    }
}
