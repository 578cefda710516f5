//! The reader.
ghost use Rattle.std.specs.Prelude.{◌≡◌, ◌≢◌, ◌+◌, ◌++◌, ◌∷◌, ◌≤◌, ◌<◌, ◌↔◌, [], List, ℕ, true, false, length, take, drop, IsTrue, IfOk, OnOk, Some, None, Err, IfSome, IfNone};
ghost use Rattle.ak_resp.specs.Puts.{IsPutOf, IsTimed};
ghost use Rattle.ak_resp.specs.Grammar.{Spells, Splits, HasFaultAt};
ghost use Rattle.ak_resp.specs.Standing.{HasRefusal, StandsFor, passed, StandsAfter, TellsFault, OnNone, OnMessage, OnFault, Starts, Continues, refusal_of, is_faulted};
ghost use Rattle.ak_resp.specs.Machine.{extended, IsRun};
ghost use Rattle.ak_resp.specs.Rows.{next_reader, said_by, after, said, FeedsOn, Answers};

use crate::message::{Message, RespError};
use crate::puts::{WholePut, whole_put};
use crate::spot::{Spot, SpotError};
use ak_base::Refusal;
use std::alloc::{AllocError, Global};

/// A reader of a session's stream, which comes in pieces. It keeps nothing of the stream but the message in hand.
#[derive(Drop)]
pub struct Resp {
    spot: Spot,
    /// How many bytes are read, at most 2^64 - 1.
    place: u64,
    /// What the stream is refused by, if it has a fault.
    refusal: Option<Refusal>,
}

impl Resp {
    /// A reader at the start of a stream. It takes no memory.
    pub fn new(alloc: Global) -> Result<Resp, AllocError>
        ensures stands { IfOk result (λ r. StandsFor r [] []) }
        ensures sound { IfOk result (λ r. is_faulted r ≡ false) }
    {
        Ok(Resp {
            spot: Spot::new(alloc),
            place: 0,
            refusal: None,
        })
    }

    /// Reads a byte.
    fn take_byte(&mut self, alloc: Global, byte: u8) -> Result<Option<Message>, RespError>
        requires { refusal_of self.old ≡ None }
        ensures { Answers (said_by self.old byte) (next_reader self.old byte) result self.new }
    {
        match self.spot.step(alloc, byte) {
            Ok(message) => {
                self.place = self.place.saturating_add(1);
                Ok(message)
            }
            Err(SpotError::Refused(fault)) => {
                let refusal = fault.told(self.place);
                self.refusal = Some(refusal);
                Err(RespError::Refused(refusal))
            }
            Err(SpotError::Memory) => Err(RespError::Memory),
        }
    }

    /// Takes content, more than one byte at a time.
    fn take_run(&mut self, alloc: Global, bytes: &[u8]) -> Result<(), AllocError>
        requires sound { refusal_of self.old ≡ None }
        requires run { IsRun self.old.spot bytes.now }
        ensures { OnOk result ((self.new ≡ after self.old bytes.now) × (said self.old bytes.now ≡ []) × (refusal_of self.new ≡ None)) }
    {
        let place = self.place;
        self.spot.extend(alloc, bytes)?;
        self.place = place.saturating_add(bytes.len() as u64);
        Ok(())
    }

    /// Reads a run of content, or a byte.
    fn advance(
        &mut self,
        alloc: Global,
        piece: &[u8],
        at: &mut usize,
    ) -> Result<Option<Message>, RespError>
        requires sound { refusal_of self.old ≡ None }
        requires within { at.old < length piece.now }
        ensures least { at.old ≤ at.new }
        ensures moves { OnOk result (at.old < at.new) }
        ensures within { at.new ≤ length piece.now }
        ensures reads { FeedsOn self.old self.new (drop at.old piece.now) (drop at.new piece.now) result }
    {
        let rest = &piece[*at..];
        let run = self.spot.run_length(rest);
        if run > 0 {
            self.take_run(alloc, &rest[..run])?;
            *at += run;
            Ok(None)
        } else {
            let byte = piece[*at];
            *at += 1;
            self.take_byte(alloc, byte)
        }
    }

    /// Reads to the end of a message or of the piece.
    fn next(
        &mut self,
        alloc: Global,
        piece: &[u8],
        at: &mut usize,
    ) -> Result<Option<Message>, RespError>
        requires sound { refusal_of self.old ≡ None }
        requires within { at.old ≤ length piece.now }
        ensures within { (at.old ≤ at.new) × (at.new ≤ length piece.now) }
        ensures reads { FeedsOn self.old self.new (drop at.old piece.now) (drop at.new piece.now) result }
        ensures none { OnNone result (at.new ≡ length piece.now) }
        ensures moves { OnMessage result (at.old < at.new) }
    {
        while *at < piece.len() {
            match self.advance(alloc, piece, at) {
                Ok(None) => {}
                Ok(Some(message)) => return Ok(Some(message)),
                Err(error) => return Err(error),
            }
        }
        Ok(None)
    }

    /// The next message. `at` moves past what was read; None where the piece is used up. The answer depends on the
    /// bytes since the stream's start alone, however they were cut. A fault is told at the first byte after which no
    /// row of messages begins with the bytes read, and again at each later call, which reads nothing.
    pub fn feed(
        &mut self,
        alloc: Global,
        piece: &[u8],
        at: &mut usize,
    ) -> Result<Option<Message>, RespError>
        requires { at.old ≤ length piece.now }
        ensures within { (at.old ≤ at.new) × (at.new ≤ length piece.now) }
        ensures none { OnNone result (at.new ≡ length piece.now) }
        ensures moves { OnMessage result (at.old < at.new) }
        ensures stands { (row : List ℕ) (messages : List Message) → StandsFor self.old (row ++ take at.old piece.now) messages
            → StandsAfter self.new (row ++ take at.new piece.now) messages result }
        ensures fault { TellsFault self.new result }
        // The fault is at the last byte read. The refusal has its kind and its place.
        ensures place { is_faulted self.old ≡ false → OnFault result (λ f. (row : List ℕ) (messages : List Message)
            → StandsFor self.old (row ++ take at.old piece.now) messages
            → (place : ℕ) × (place + 1 ≡ length (row ++ take at.new piece.now)) × HasRefusal (row ++ take at.new piece.now) place f) }
        ensures kept { (f : Refusal) → refusal_of self.old ≡ Some f → (result ≡ Err (RespError.Refused f)) × (self.new ≡ self.old) × (at.new ≡ at.old) }
    {
        match self.refusal {
            Some(refusal) => Err(RespError::Refused(refusal)),
            None => self.next(alloc, piece, at),
        }
    }

    /// The put that stands whole in the piece from `at` on, where no message has begun and no fault was met. It takes no memory, and
    /// changes nothing: `pass` passes it, and `feed` reads it too. None may come anywhere: it says nothing of the bytes.
    pub fn whole<'a>(&self, piece: &'a [u8], at: usize) -> Option<WholePut<'a>>
        requires { at ≤ length piece.now }
        ensures within { IfSome result (λ put. at + put.length ≤ length piece.now) }
        ensures moves { IfSome result (λ put. 0 < put.length) }
        ensures time { IfSome result IsTimed }
        ensures sound { IfSome result (λ put. is_faulted self.now ≡ false) }
        ensures stands { IfSome result (λ put. (m : Message) × IsPutOf put m × ((row : List ℕ) (messages : List Message) → StandsFor self.now (row ++ take at piece.now) messages
            → StandsFor (passed self.now put.length) (row ++ take (at + put.length) piece.now) (messages ++ m ∷ []))) }
    {
        if self.refusal.is_some() || Spot::is_inside(&self.spot) {
            return None;
        }
        whole_put(&piece[at..])
    }

    /// Passes so many bytes, which a message spells that stands whole.
    pub fn pass(&mut self, length: usize)
        ensures { self.new ≡ passed self.old length }
    {
        self.place = self.place.saturating_add(length as u64);
    }

    /// Whether a message has begun. Of a reader with a fault nothing is said.
    pub fn inside(&self) -> bool
        ensures { (row : List ℕ) (messages : List Message) (s : StandsFor self.now row messages)
            → is_faulted self.now ≡ false → (IsTrue result ↔ (s.rest ≢ [])) }
    {
        self.spot.is_inside()
    }
}

/// After a fault a reader stands for whatever follows.
pub fn fault_stays()
    ensures { (r : Resp) (row more : List ℕ) (messages : List Message) → is_faulted r ≡ true → StandsFor r row messages
        → StandsFor r (row ++ more) messages }
{}

/// No spelling of a message begins another, and each spells one message.
pub fn one_spelling()
    ensures { (a b x y : List ℕ) (m n : Message) → Spells a m → Spells b n → a ++ x ≡ b ++ y → (a ≡ b) × (m ≡ n) }
{}

/// A stream splits in one way, has its fault at one place, and is refused by one refusal.
pub fn one_reading()
    ensures split { (row : List ℕ) (ms ns : List Message) (rest end : List ℕ) → Splits row ms rest → Splits row ns end → (ms ≡ ns) × (rest ≡ end) }
    ensures place { (row : List ℕ) (p q : ℕ) → HasFaultAt row p → HasFaultAt row q → p ≡ q }
    ensures refusal { (row : List ℕ) (p q : ℕ) (f g : Refusal) → HasRefusal row p f → HasRefusal row q g → (p ≡ q) × (f ≡ g) }
{}

/// Every stream is read by some reader: one stands for the empty row, and whatever bytes come behind a row that one
/// stands for, one stands for the longer row.
pub fn every_reading()
    ensures starts { Starts }
    ensures continues { (r : Resp) (row bytes : List ℕ) (messages : List Message) → StandsFor r row messages → Continues row messages bytes }
{}
