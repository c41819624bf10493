// The fields of a text, and the numbers that they are.
ghost use Rattle.std.specs.Prelude.{◌≡◌, ◌≤◌, ◌+◌, ◌==◌, ◌∷◌, count_by, length, option_copied, Some, None, pos};
ghost use Rattle.std.specs.Prelude.{if◌then◌else◌};
ghost use Rattle.std.specs.List.{filter_map};
ghost use Rattle.std.specs.Str.Parse.{digits_value};
ghost use Rattle.road_time.specs.Numbers.{are_digits, number_of, fields_of_text};
ghost use Rattle.road_time.specs.Form.{first_odd};
ghost use Rattle.tuples_text.specs.Causes.{numbered};
ghost use Rattle.tuples_text.specs.Fields.{fields_after};

use crate::cause::Cause;

/// The first field of a text, and what follows its comma, if it has one.
pub fn split_field(text: &[u8]) -> (&[u8], Option<&[u8]>)
    ensures { fields_of_text text.now ≡ result.0.now ∷ fields_after (option_copied result.1) }
{
    for (at, b) in text.iter().enumerate() {
        if *b == b',' {
            return (&text[..at], Some(&text[at + 1..]));
        }
    }
    (text, None)
}

/// The number of commas in a text.
fn count_commas(text: &[u8]) -> usize
    ensures { result ≡ count_by (λ b. b == 44) text.now }
{
    text.iter().filter(|b| **b == b',').count()
}

/// How many fields a text has: one more than its commas.
pub fn count_fields(text: &[u8]) -> usize
    ensures count { result ≡ length (fields_of_text text.now) }
    ensures few { result ≤ length text.now + 1 }
{
    count_commas(text) + 1
}

/// The value of one to ten digits.
fn unsigned(digits: &[u8]) -> Option<i64>
    ensures { result ≡ (if are_digits 10 digits.now then Some (pos (digits_value 10 digits.now)) else None) }
{
    if digits.is_empty() || digits.len() > 10 {
        return None;
    }
    let mut value: u64 = 0;
    for b in digits {
        if *b < b'0' || *b > b'9' {
            return None;
        }
        value = 10 * value + u64::from(*b - b'0');
    }
    Some(value as i64)
}

/// The number that a field is: a minus or none, and one to ten digits; leading zeros and `-0` are accepted.
pub fn number(field: &[u8]) -> Option<i64>
    ensures { result ≡ number_of 10 field.now }
{
    match field {
        [b'-', digits @ ..] => {
            let value = unsigned(digits)?;
            Some(-value)
        }
        _ => unsigned(field),
    }
}

/// The numbers of a text of fifteen fields, or the first field that is none.
pub fn numbers(text: &[u8]) -> Result<[i64; 15], Cause>
    requires { length (fields_of_text text.now) ≡ 15 }
    ensures { result
        ≡ numbered (first_odd (fields_of_text text.now)) (filter_map (number_of 10) (fields_of_text text.now)) }
{
    let mut numbers = [0i64; 15];
    let mut rest = Some(text);
    for i in 0..15usize {
        let Some(text) = rest else {
            unreachable!();
        };
        let (field, more) = split_field(text);
        let Some(z) = number(field) else {
            return Err(Cause::Number(i as u8 + 1));
        };
        numbers[i] = z;
        rest = more;
    }
    Ok(numbers)
}
