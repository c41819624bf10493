// The length of a body, by the fields of a head.
ghost use Rattle.std.specs.Prelude.{◌≡◌, ◌++◌, [], ◌∷◌, ℕ, Bool, List, All, map, option_map, length, IfSome, IfOk, ◌≤◌};
ghost use Rattle.std.specs.Str.{str_eq_ignore_ascii_case};
ghost use Rattle.httparse.specs.Spans.{IsHeaderWithin, IsWithin, header_bytes, span_bytes};
ghost use Rattle.serve_requests.specs.Requests.{values_of, value_if, body_length as body_length_of};
ghost use Rattle.serve_requests.specs.Fields.{Finds};

use crate::numbers::number_of;
use crate::wanted::Refusal;
use httparse::spans::{HeaderSpan, Span};

/// Whether a field's name is this one, whatever the case of its letters.
pub(crate) fn is_named(key: &[u8], name: &[u8]) -> bool
    ensures { result ≡ str_eq_ignore_ascii_case key.now name.now }
{
    key.eq_ignore_ascii_case(name)
}

/// The first of some values and one more, and whether there are several.
fn with_value(first: Option<Span>, value: Span) -> (Option<Span>, bool)
    ensures within { (n : ℕ) → IfSome first (IsWithin n) → IsWithin n value → IfSome result.0 (IsWithin n) }
    ensures found { (buf : List ℕ) (values : List (List ℕ)) (several : Bool)
        → Finds values (option_map (span_bytes buf) first) several
        → Finds (values ++ span_bytes buf value ∷ []) (option_map (span_bytes buf) result.0) result.1 }
{
    match first {
        Some(one) => (Some(one), true),
        None => (Some(value), false),
    }
}

/// One field more is looked at, after some whose values were found.
fn look_at(
    buf: &[u8],
    field: &HeaderSpan,
    name: &[u8],
    first: Option<Span>,
    several: bool,
) -> (Option<Span>, bool)
    requires inside { IsHeaderWithin (length buf.now) field.now }
    requires first_inside { IfSome first (IsWithin (length buf.now)) }
    ensures found { (values : List (List ℕ)) → Finds values (option_map (span_bytes buf.now) first) several
        → Finds (values ++ value_if name.now (header_bytes buf.now field.now) [])
        (option_map (span_bytes buf.now) result.0) result.1 }
    ensures within { IfSome result.0 (IsWithin (length buf.now)) }
{
    if is_named(field.name.of(buf), name) {
        with_value(first, field.value)
    } else {
        (first, several)
    }
}

/// The first value of the fields with a name, and whether there are several.
fn find_field(buf: &[u8], fields: &[HeaderSpan], name: &[u8]) -> (Option<Span>, bool)
    requires { All (IsHeaderWithin (length buf.now)) fields.now }
    ensures found { Finds (values_of name.now (map (header_bytes buf.now) fields.now))
        (option_map (span_bytes buf.now) result.0) result.1 }
    ensures within { IfSome result.0 (IsWithin (length buf.now)) }
{
    let mut first: Option<Span> = None;
    let mut several = false;
    for field in fields {
        (first, several) = look_at(buf, field, name, first, several);
    }
    (first, several)
}

/// The length of a body, by the fields of its head.
pub fn body_length(buf: &[u8], fields: &[HeaderSpan]) -> Result<u64, Refusal>
    requires { All (IsHeaderWithin (length buf.now)) fields.now }
    ensures few { IfOk result (λ n. n ≤ 4000000000) }
    ensures length { result ≡ body_length_of (map (header_bytes buf.now) fields.now) }
{
    let (length, several) = find_field(buf, fields, b"Content-Length");
    let (coding, _) = find_field(buf, fields, b"Transfer-Encoding");
    if several {
        return Err(Refusal::BadLength);
    }
    let Some(length) = length else {
        return Err(Refusal::LengthNeeded);
    };
    let Some(count) = number_of(length.of(buf)) else {
        return Err(Refusal::BadLength);
    };
    if coding.is_some() {
        return Err(Refusal::LengthNeeded);
    }
    if count <= 4_000_000_000 {
        Ok(count)
    } else {
        Err(Refusal::TooLong)
    }
}
