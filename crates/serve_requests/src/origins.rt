// Whether a page of the web may have sent a request.
ghost use Rattle.std.specs.Prelude.{◌≡◌, map, length, All};
ghost use Rattle.std.specs.Char.{is_ascii_digit};
ghost use Rattle.std.specs.List.{list_all};
ghost use Rattle.httparse.specs.Spans.{IsHeaderWithin, header_bytes};
ghost use Rattle.serve_requests.specs.Origins.{is_port as is_port_text, is_host_of as is_host_of_name};
ghost use Rattle.serve_requests.specs.Origins.{is_own_host as is_own_host_text, is_own_site as is_own_site_text};
ghost use Rattle.serve_requests.specs.Origins.{is_foreign_field as is_foreign_field_of};
ghost use Rattle.serve_requests.specs.Origins.{is_foreign as are_foreign};

use crate::fields::is_named;
use httparse::spans::HeaderSpan;

/// Whether each byte is a digit.
fn are_digits(text: &[u8]) -> bool
    ensures { result ≡ list_all is_ascii_digit text.now }
{
    text.iter().all(|b| b.is_ascii_digit())
}

/// Whether this may stand behind the name of a host.
fn is_port(text: &[u8]) -> bool
    ensures { result ≡ is_port_text text.now }
{
    match text.split_first() {
        None => true,
        Some((first, digits)) => *first == b':' && are_digits(digits),
    }
}

/// Whether a host is of this name.
fn is_host_of(name: &[u8], host: &[u8]) -> bool
    ensures { result ≡ is_host_of_name name.now host.now }
{
    let count = name.len().min(host.len());
    is_named(&host[..count], name) && is_port(&host[count..])
}

/// Whether a host is this machine.
fn is_own_host(host: &[u8]) -> bool
    ensures { result ≡ is_own_host_text host.now }
{
    is_host_of(b"127.0.0.1", host) || is_host_of(b"localhost", host) || is_host_of(b"[::1]", host)
}

/// Whether a browser tells of a request that a page of this server asked for it, or none did.
fn is_own_site(site: &[u8]) -> bool
    ensures { result ≡ is_own_site_text site.now }
{
    is_named(site, b"same-origin") || is_named(site, b"none")
}

/// Whether a field names the page's origin, another host than this machine, or the page of another site.
fn is_foreign_field(buf: &[u8], field: &HeaderSpan) -> bool
    requires { IsHeaderWithin (length buf.now) field.now }
    ensures { result ≡ is_foreign_field_of (header_bytes buf.now field.now) }
{
    let name = field.name.of(buf);
    is_named(name, b"Origin")
        || is_named(name, b"Host") && !is_own_host(field.value.of(buf))
        || is_named(name, b"Sec-Fetch-Site") && !is_own_site(field.value.of(buf))
}

/// Whether a page of the web may have sent a request with these fields.
pub(crate) fn is_foreign(buf: &[u8], fields: &[HeaderSpan]) -> bool
    requires { All (IsHeaderWithin (length buf.now)) fields.now }
    ensures { result ≡ are_foreign (map (header_bytes buf.now) fields.now) }
{
    for field in fields {
        if is_foreign_field(buf, field) {
            return true;
        }
    }
    false
}
