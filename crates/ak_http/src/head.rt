//! Heads: where they end, where their parts are, and how long the body is.
ghost use Rattle.std.specs.Prelude.{◌≡◌, ◌≤◌, ◌↔◌, length, map, All, IfSome, IsTrue, MatchOption};
ghost use Rattle.std.specs.List.{list_any};
ghost use Rattle.httparse.specs.Grammar.{RequestHead};
ghost use Rattle.httparse.specs.Spans.{IsHeaderWithin, IsRequestAt, IsRequestWithin, header_bytes, span_bytes};
ghost use Rattle.ak_http.specs.Head.{EndsInMark, IsHead, IsNoHead, agreed, body_length, differs, length_of, lengths, names_and_values, same_name};

use httparse::Status;
use httparse::spans::{HeaderSpan, RequestSpans, parse_request};

/// The most header lines of a head.
pub const MAX_HEADERS: usize = 32;

/// The greatest length of a body, in bytes.
pub const MAX_BODY: usize = 65_536;

/// The most digits of a body's length.
pub const MAX_LENGTH_DIGITS: usize = 10;

/// Whether the last bytes are the end mark of a head: an empty line behind a line.
pub fn ends_in_mark(bytes: &[u8]) -> bool
    ensures { IsTrue result ↔ EndsInMark bytes.now }
{
    bytes.ends_with(b"\n\n") || bytes.ends_with(b"\n\r\n")
}

/// Where the parts of a head are. None where the bytes are no head.
pub fn read_head(head: &[u8], headers: &mut [HeaderSpan; MAX_HEADERS]) -> Option<RequestSpans>
    ensures within { IfSome result (IsRequestWithin head.now headers.new) }
    ensures exact { MatchOption result (IsNoHead head.now)
        (λ r. (h : RequestHead) × IsHead head.now h × IsRequestAt head.now headers.new r h) }
{
    match parse_request(head, headers) {
        Ok(Status::Complete(spans)) => {
            if spans.len == head.len() {
                Some(spans)
            } else {
                None
            }
        }
        _ => None,
    }
}

/// Whether two names are alike, without regard to ASCII case.
fn same_name(a: &[u8], b: &[u8]) -> bool
    ensures { result ≡ same_name a.now b.now }
{
    a.eq_ignore_ascii_case(b)
}

/// Whether a header has this name.
fn has_name(head: &[u8], headers: &[HeaderSpan], name: &[u8]) -> bool
    requires { All (IsHeaderWithin (length head.now)) headers.now }
    ensures { result ≡ list_any (λ h. same_name (span_bytes head.now h.name) name.now) headers.now }
{
    for header in headers {
        if same_name(header.name.of(head), name) {
            return true;
        }
    }
    false
}

/// The number of 1 to 10 digits, where it is at most 65,536.
fn read_length(text: &[u8]) -> Option<usize>
    ensures { result ≡ length_of text.now }
{
    if text.is_empty() || text.len() > MAX_LENGTH_DIGITS {
        return None;
    }
    let mut length: usize = 0;
    for byte in text {
        if !byte.is_ascii_digit() {
            return None;
        }
        length = length * 10 + usize::from(*byte - b'0');
        if length > MAX_BODY {
            return None;
        }
    }
    Some(length)
}

/// Whether a known length is another than this one.
fn differs(known: Option<usize>, length: usize) -> bool
    ensures { result ≡ differs known length }
{
    match known {
        Some(other) => other != length,
        None => false,
    }
}

/// The length on which all headers that tell one agree; 0 where there is none.
fn agreed_length(head: &[u8], headers: &[HeaderSpan]) -> Option<usize>
    requires { All (IsHeaderWithin (length head.now)) headers.now }
    ensures { result ≡ agreed (lengths (map (header_bytes head.now) headers.now)) }
{
    let mut known: Option<usize> = None;
    for header in headers {
        if !same_name(header.name.of(head), b"content-length") {
            continue;
        }
        let length = read_length(header.value.of(head))?;
        if differs(known, length) {
            return None;
        }
        known = Some(length);
    }
    Some(known.unwrap_or(0))
}

/// The length of the body behind a head. None where the head gives none.
pub fn body_length(
    head: &[u8],
    headers: &[HeaderSpan; MAX_HEADERS],
    spans: &RequestSpans,
) -> Option<usize>
    requires { IsRequestWithin head.now headers.now spans.now }
    ensures { (h : RequestHead) → IsRequestAt head.now headers.now spans.now h → result ≡ body_length (names_and_values h) }
{
    let written = &headers[..spans.headers];
    if has_name(head, written, b"transfer-encoding") {
        None
    } else {
        agreed_length(head, written)
    }
}
