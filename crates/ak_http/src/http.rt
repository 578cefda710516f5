//! The reader.
ghost use Rattle.std.specs.Prelude.{◌≡◌, ◌≢◌, ◌+◌, ◌++◌, ◌≤◌, ◌<◌, ◌↔◌, [], List, ℕ, length, take, IsTrue, IfOk, Err, Some, None};
ghost use Rattle.ak_http.specs.Grammar.{Spells, Splits, HasFaultAt};
ghost use Rattle.ak_http.specs.Standing.{StandsFor, StandsAfter, TellsFault, OnNone, OnRequest, HasFaultLast, Takes, fault_of, most_bytes};

use crate::request::{HttpError, Request};
use crate::stage::{Outcome, Stage};
use ak_base::Bytes;
use std::alloc::{AllocError, Global};
use std::mem;

/// A reader of a stream of requests, which comes in pieces. It keeps nothing of the stream but the request in hand.
#[derive(Drop)]
pub struct Http {
    stage: Stage,
    fault: Option<HttpError>,
}

/// The start of a request.
fn start(alloc: Global) -> Stage
    ensures { result ≡ Stage.Head [] }
{
    Stage::Head {
        head: Bytes::new(alloc),
    }
}

impl Http {
    /// A reader at the start of a stream. It takes no memory.
    pub fn new(alloc: Global) -> Result<Http, AllocError>
        ensures stands { IfOk result (λ r. StandsFor r [] []) }
        ensures sound { IfOk result (λ r. fault_of r ≡ None) }
    {
        Ok(Http {
            stage: start(alloc),
            fault: None,
        })
    }

    /// Reads at least one byte, and at most those that the stage takes.
    fn take(&mut self, alloc: Global, bytes: &[u8]) -> Result<Option<Request>, HttpError>
        requires sound { fault_of self.old ≡ None }
        requires some { 1 ≤ length bytes.now }
        requires few { length bytes.now ≤ most_bytes self.old.stage }
        ensures { Takes self.old bytes.now self.new result }
    {
        let stage = mem::replace(&mut self.stage, start(alloc));
        match stage.read(alloc, bytes)? {
            Outcome::Going(stage) => {
                self.stage = stage;
                Ok(None)
            }
            Outcome::Whole(request) => Ok(Some(request)),
            Outcome::Refused(error) => {
                self.fault = Some(error);
                Err(error)
            }
        }
    }

    /// The next request. `at` moves past what was read; None where the piece is used up. The answer depends on the
    /// bytes since the stream's start alone, however they were cut. A fault is told at the byte that ends the faulty
    /// head, or at the 8192nd of one that has no end, and again at each later call, which reads nothing.
    pub fn feed(
        &mut self,
        alloc: Global,
        piece: &[u8],
        at: &mut usize,
    ) -> Result<Option<Request>, HttpError>
        requires { at.old ≤ length piece.now }
        ensures within { (at.old ≤ at.new) × (at.new ≤ length piece.now) }
        ensures none { OnNone result (at.new ≡ length piece.now) }
        ensures moves { OnRequest result (at.old < at.new) }
        ensures stands { (row : List ℕ) (requests : List Request) → StandsFor self.old (row ++ take at.old piece.now) requests
            → StandsAfter self.new (row ++ take at.new piece.now) requests result }
        ensures fault { TellsFault self.new result }
        // The fault is at the last byte read.
        ensures place { fault_of self.old ≡ None → (row : List ℕ) (requests : List Request)
            → StandsFor self.old (row ++ take at.old piece.now) requests → HasFaultLast (row ++ take at.new piece.now) result }
        ensures kept { (error : HttpError) → fault_of self.old ≡ Some error → (result ≡ Err error) × (self.new ≡ self.old) × (at.new ≡ at.old) }
    {
        if let Some(error) = self.fault {
            return Err(error);
        }
        while *at < piece.len() {
            let end = *at + self.stage.most_bytes().min(piece.len() - *at);
            let bytes = &piece[*at..end];
            *at = end;
            match self.take(alloc, bytes) {
                Ok(None) => {}
                Ok(Some(request)) => return Ok(Some(request)),
                Err(error) => return Err(error),
            }
        }
        Ok(None)
    }

    /// Whether a request has begun. Of a reader with a fault nothing is said.
    pub fn inside(&self) -> bool
        ensures { (row : List ℕ) (requests : List Request) (s : StandsFor self.now row requests)
            → fault_of self.now ≡ None → (IsTrue result ↔ (s.rest ≢ [])) }
    {
        match &self.stage {
            Stage::Head { head } => !head.as_slice().is_empty(),
            Stage::Body { .. } => true,
        }
    }
}

/// After a fault a reader stands for whatever follows.
pub fn fault_stays()
    ensures { (r : Http) (row more : List ℕ) (requests : List Request) (error : HttpError) → fault_of r ≡ Some error
        → StandsFor r row requests → StandsFor r (row ++ more) requests }
{}

/// No spelling of a request begins another, and each spells one request.
pub fn one_spelling()
    ensures { (a b x y : List ℕ) (m n : Request) → Spells a m → Spells b n → a ++ x ≡ b ++ y → (a ≡ b) × (m ≡ n) }
{}

/// A stream splits in one way, and has one fault, at one place.
pub fn one_reading()
    ensures split { (row : List ℕ) (ms ns : List Request) (rest end : List ℕ) → Splits row ms rest → Splits row ns end → (ms ≡ ns) × (rest ≡ end) }
    ensures fault { (row : List ℕ) (p q : ℕ) (e f : HttpError) → HasFaultAt row p e → HasFaultAt row q f → (p ≡ q) × (e ≡ f) }
{}
