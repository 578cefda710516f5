//! Where within a request a reader is.
ghost use Rattle.std.specs.Prelude.{◌≡◌, ◌≤◌, ◌++◌, List, ℕ, length, max, IfOk};
ghost use Rattle.ak_http.specs.Head.{EndsHead};
ghost use Rattle.ak_http.specs.Standing.{ComesTo, StandsAt, most_bytes};

use crate::head::{MAX_HEADERS, body_length, ends_in_mark, read_head};
use crate::request::{HttpError, Request};
use ak_base::Bytes;
use httparse::spans::EMPTY_HEADER_SPAN;
use std::alloc::{AllocError, Global};

/// The most bytes of a head.
pub const MAX_HEAD: usize = 8192;

/// Where within a request a reader is.
#[derive(Drop)]
pub enum Stage {
    /// Within a head, of which these bytes are read.
    Head { head: Bytes },
    /// Within a body, of which so many bytes are to come, at least one.
    Body { request: Request, left: usize },
}

/// What bytes make of a stage.
#[derive(Drop)]
pub enum Outcome {
    /// The request goes on.
    Going(Stage),
    /// The request is whole.
    Whole(Request),
    /// The head is faulty.
    Refused(HttpError),
}

impl Stage {
    /// How many bytes the stage takes at most, which is at least one: one of a head, all that are to come of a body.
    pub fn most_bytes(&self) -> usize
        ensures { result ≡ most_bytes self.now }
    {
        match self {
            Stage::Head { .. } => 1,
            Stage::Body { left, .. } => (*left).max(1),
        }
    }

    /// Reads at least one byte, and at most those that the stage takes.
    pub fn read(self, alloc: Global, bytes: &[u8]) -> Result<Outcome, AllocError>
        requires some { 1 ≤ length bytes.now }
        requires few { length bytes.now ≤ most_bytes self }
        ensures { IfOk result (λ o. (rest : List ℕ) → StandsAt self rest → ComesTo (rest ++ bytes.now) o) }
    {
        match self {
            Stage::Head { head } => read_head_byte(alloc, head, bytes),
            Stage::Body { request, left } => read_body(alloc, request, left, bytes),
        }
    }
}

fn read_head_byte(alloc: Global, head: Bytes, byte: &[u8]) -> Result<Outcome, AllocError>
    requires { length byte.now ≡ 1 }
    ensures { IfOk result (λ o. (rest : List ℕ) → StandsAt (Stage.Head head) rest → ComesTo (rest ++ byte.now) o) }
{
    let mut head = head;
    head.extend(alloc, byte)?;
    let bytes = head.as_slice();
    if ends_in_mark(bytes) {
        judge(alloc, bytes)
    } else if bytes.len() >= MAX_HEAD {
        Ok(Outcome::Refused(HttpError::BadHead))
    } else {
        Ok(Outcome::Going(Stage::Head { head }))
    }
}

/// What a head makes that has come to its end.
fn judge(alloc: Global, head: &[u8]) -> Result<Outcome, AllocError>
    ensures { EndsHead head.now → IfOk result (ComesTo head.now) }
{
    let mut headers = [EMPTY_HEADER_SPAN; MAX_HEADERS];
    let spans = match read_head(head, &mut headers) {
        Some(spans) => spans,
        None => return Ok(Outcome::Refused(HttpError::BadHead)),
    };
    let left = match body_length(head, &headers, &spans) {
        Some(left) => left,
        None => return Ok(Outcome::Refused(HttpError::BadLength)),
    };
    let mut method = Bytes::new(alloc);
    method.extend(alloc, spans.method.of(head))?;
    let mut target = Bytes::new(alloc);
    target.extend(alloc, spans.path.of(head))?;
    let request = Request {
        method,
        target,
        body: Bytes::new(alloc),
    };
    if left == 0 {
        Ok(Outcome::Whole(request))
    } else {
        Ok(Outcome::Going(Stage::Body { request, left }))
    }
}

fn read_body(
    alloc: Global,
    request: Request,
    left: usize,
    bytes: &[u8],
) -> Result<Outcome, AllocError>
    requires { length bytes.now ≤ max left 1 }
    ensures { IfOk result (λ o. (rest : List ℕ) → StandsAt (Stage.Body request left) rest → ComesTo (rest ++ bytes.now) o) }
{
    let mut request = request;
    request.body.extend(alloc, bytes)?;
    if bytes.len() >= left {
        Ok(Outcome::Whole(request))
    } else {
        Ok(Outcome::Going(Stage::Body {
            request,
            left: left - bytes.len(),
        }))
    }
}
