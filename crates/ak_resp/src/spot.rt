//! Where within a message a reader is.
ghost use Rattle.std.specs.Prelude.{get_or, ◌≡◌, ◌++◌, ◌∷◌, ◌<◌, ◌≤◌, [], length, take, All, OnOk, ◌↔◌, IsTrue, MatchResult, IfOk, ◌^◌};
ghost use Rattle.std.specs.List.{list_any};
ghost use Rattle.ak_resp.specs.Machine.{opening, begin, simple, integer, bulk_head, array_head, bulk_head_end, content, array_head_end, part_end, finish, finish_name, step, extended, IsRun, is_control, head, first, Gives, Finishes, GivesName};
ghost use Rattle.ak_resp.specs.Kinds.{allows, is_digit, goes_on};
ghost use Rattle.ak_resp.specs.Grammar.{IsLineByte};
ghost use Rattle.ak_resp.specs.Standing.{IsInside};

use crate::fault::Fault;
use crate::message::{Message, Part, PartKind, Parts};
use ak_base::Bytes;
use memchr::memchr2;
use std::alloc::{AllocError, Global};
use std::mem;

/// The most bytes of a line.
pub const MAX_LINE: usize = 4096;

/// The most digits of a length.
pub const MAX_DIGITS: u16 = 4096;

/// The most bytes of a bulk.
pub const MAX_BULK: u32 = 65_536;

/// The most values of an array.
pub const MAX_ITEMS: u32 = 64;

/// The parts of a message that are read, which tell what part comes next.
#[derive(Drop)]
pub enum Progress {
    /// None: the name of a put or of a control comes.
    Name,
    /// The time of a put comes.
    Time {
        name: Part,
    },
    /// The value of a put comes, or the head of an array.
    Value {
        name: Part,
        time: Part,
    },
    /// A value of an array comes, of which this many are left.
    Item {
        name: Part,
        time: Part,
        values: Parts,
        left: u32,
    },
    /// The JSON of a query comes.
    Json,
}

/// What byte of a part comes next.
#[derive(Clone, Copy)]
pub enum Within {
    /// The type byte.
    Start,
    /// A byte of a simple part's line, or its CR.
    Simple,
    /// A byte of an integer's line, or its CR.
    Integer,
    /// A digit of a bulk's length, or its CR, behind so many digits of this value.
    BulkHead { digits: u16, value: u32 },
    /// A digit of an array's length, or its CR, behind so many digits of this value.
    ArrayHead { digits: u16, value: u32 },
    /// The LF of a bulk's length.
    BulkHeadEnd { value: u32 },
    /// The LF of an array's length.
    ArrayHeadEnd { value: u32 },
    /// A byte of a bulk, of which this many are left, or the CR behind them.
    Content { left: u32 },
    /// The LF of a part.
    PartEnd(PartKind),
}

/// Where within a message a reader is: the parts read, and the content of the part begun.
#[derive(Drop)]
pub struct Spot {
    pub progress: Progress,
    pub within: Within,
    pub bytes: Bytes,
}

/// Why a byte was not read.
#[derive(Drop)]
pub enum SpotError {
    Refused(Fault),
    Memory,
}

impl From<AllocError> for SpotError {
    ghost from_gives = { λ _ e. e ≡ Memory };

    ghost use Rattle.ak_resp.specs.declared.spot.SpotError.TheVariants.{Memory};

    fn from(_error: AllocError) -> Self {
        SpotError::Memory
    }
}

impl Progress {
    /// Whether a part that begins with this type byte may come next.
    fn allows(&self, type_byte: u8) -> bool
        ensures { result ≡ allows self.now type_byte }
    {
        match self {
            Progress::Name => type_byte == b'+' || type_byte == b'$',
            Progress::Time { .. } => type_byte != b'*',
            Progress::Value { .. } => true,
            Progress::Item { .. } => type_byte == b'+' || type_byte == b':',
            Progress::Json => type_byte == b'+' || type_byte == b'$',
        }
    }
}

/// What comes after a type byte.
fn opening(type_byte: u8) -> Option<Within>
    ensures { result ≡ opening type_byte }
{
    match type_byte {
        b'+' => Some(Within::Simple),
        b':' => Some(Within::Integer),
        b'$' => Some(Within::BulkHead {
            digits: 0,
            value: 0,
        }),
        b'*' => Some(Within::ArrayHead {
            digits: 0,
            value: 0,
        }),
        _ => None,
    }
}

impl Spot {
    /// Where a message begins.
    pub fn new(alloc: Global) -> Self
        ensures { result ≡ first }
    {
        Spot {
            progress: Progress::Name,
            within: Within::Start,
            bytes: Bytes::new(alloc),
        }
    }

    /// Whether a message has begun.
    pub fn is_inside(&self) -> bool
        ensures { IsTrue result ↔ IsInside self.now }
    {
        match (&self.progress, self.within) {
            (Progress::Name, Within::Start) => false,
            _ => true,
        }
    }

    /// Reads a byte.
    pub fn step(&mut self, alloc: Global, byte: u8) -> Result<Option<Message>, SpotError>
        ensures { Gives (step self.old byte) result self.old self.new }
    {
        match self.within {
            Within::Start => self.begin(byte),
            Within::Simple => self.simple(alloc, byte),
            Within::Integer => self.integer(alloc, byte),
            Within::BulkHead { digits, value } => self.bulk_head(digits, value, byte),
            Within::ArrayHead { digits, value } => self.array_head(digits, value, byte),
            Within::BulkHeadEnd { value } => self.bulk_head_end(value, byte),
            Within::ArrayHeadEnd { value } => self.array_head_end(alloc, value, byte),
            Within::Content { left } => self.content(alloc, left, byte),
            Within::PartEnd(kind) => self.part_end(alloc, kind, byte),
        }
    }

    /// How many bytes at the front are sure to be content, and can be taken together.
    pub fn run_length(&self, bytes: &[u8]) -> usize
        ensures within { result ≤ length bytes.now }
        ensures plain { IsRun self.now (take result bytes.now) }
    {
        match self.within {
            Within::Simple => line_length(
                bytes,
                MAX_LINE.saturating_sub(self.bytes.as_slice().len()),
            ),
            Within::Content { left } => bytes.len().min(left as usize),
            _ => 0,
        }
    }

    /// Takes content.
    pub fn extend(&mut self, alloc: Global, bytes: &[u8]) -> Result<(), AllocError>
        requires { IsRun self.old bytes.now }
        ensures { OnOk result (self.new ≡ extended self.old bytes.now) }
    {
        self.bytes.extend(alloc, bytes)?;
        if let Within::Content { left } = self.within {
            self.within = Within::Content {
                left: left - bytes.len() as u32,
            };
        }
        Ok(())
    }

    /// Reads the first byte of a part.
    fn begin(&mut self, byte: u8) -> Result<Option<Message>, SpotError>
        ensures { Gives (begin self.old byte) result self.old self.new }
    {
        match opening(byte) {
            Some(within) => {
                if self.progress.allows(byte) {
                    self.within = within;
                    Ok(None)
                } else {
                    Err(SpotError::Refused(Fault::BadShape))
                }
            }
            None => {
                if byte == b'\n' {
                    Err(SpotError::Refused(Fault::BadEnd))
                } else {
                    Err(SpotError::Refused(Fault::BadKind))
                }
            }
        }
    }

    /// Reads a byte of a simple part's line.
    fn simple(&mut self, alloc: Global, byte: u8) -> Result<Option<Message>, SpotError>
        ensures { Gives (simple self.old byte) result self.old self.new }
    {
        if byte == b'\n' {
            Err(SpotError::Refused(Fault::BadEnd))
        } else if byte == b'\r' {
            self.within = Within::PartEnd(PartKind::Simple);
            Ok(None)
        } else if self.bytes.as_slice().len() >= MAX_LINE {
            Err(SpotError::Refused(Fault::LongLine))
        } else {
            self.bytes.push(alloc, byte)?;
            Ok(None)
        }
    }

    /// Reads a byte of an integer part's line.
    fn integer(&mut self, alloc: Global, byte: u8) -> Result<Option<Message>, SpotError>
        ensures { Gives (integer self.old byte) result self.old self.new }
    {
        if byte == b'\n' {
            Err(SpotError::Refused(Fault::BadEnd))
        } else if byte == b'\r' {
            if has_digit(self.bytes.as_slice()) {
                self.within = Within::PartEnd(PartKind::Integer);
                Ok(None)
            } else {
                Err(SpotError::Refused(Fault::BadNumber))
            }
        } else if self.bytes.as_slice().len() >= MAX_LINE {
            Err(SpotError::Refused(Fault::LongLine))
        } else if goes_on(self.bytes.as_slice(), byte) {
            self.bytes.push(alloc, byte)?;
            Ok(None)
        } else {
            Err(SpotError::Refused(Fault::BadNumber))
        }
    }

    /// Reads a byte of a bulk's length.
    fn bulk_head(&mut self, digits: u16, value: u32, byte: u8) -> Result<Option<Message>, SpotError>
        ensures { Gives (bulk_head self.old digits value byte) result self.old self.new }
    {
        match head(digits, value, byte, MAX_BULK, Fault::LongBulk) {
            Ok(Some((digits, value))) => {
                self.within = Within::BulkHead { digits, value };
                Ok(None)
            }
            Ok(None) => {
                self.within = Within::BulkHeadEnd { value };
                Ok(None)
            }
            Err(fault) => Err(SpotError::Refused(fault)),
        }
    }

    /// Reads a byte of an array's length.
    fn array_head(
        &mut self,
        digits: u16,
        value: u32,
        byte: u8,
    ) -> Result<Option<Message>, SpotError>
        ensures { Gives (array_head self.old digits value byte) result self.old self.new }
    {
        match head(digits, value, byte, MAX_ITEMS, Fault::BadShape) {
            Ok(Some((digits, value))) => {
                self.within = Within::ArrayHead { digits, value };
                Ok(None)
            }
            Ok(None) => {
                self.within = Within::ArrayHeadEnd { value };
                Ok(None)
            }
            Err(fault) => Err(SpotError::Refused(fault)),
        }
    }

    /// Reads the last byte of a bulk's head.
    fn bulk_head_end(&mut self, value: u32, byte: u8) -> Result<Option<Message>, SpotError>
        ensures { Gives (bulk_head_end self.old value byte) result self.old self.new }
    {
        if byte == b'\n' {
            self.within = Within::Content { left: value };
            Ok(None)
        } else {
            Err(SpotError::Refused(Fault::BadEnd))
        }
    }

    /// Reads a byte of a bulk's content, or the CR after it.
    fn content(&mut self, alloc: Global, left: u32, byte: u8) -> Result<Option<Message>, SpotError>
        ensures { Gives (content self.old left byte) result self.old self.new }
    {
        if left > 0 {
            self.bytes.push(alloc, byte)?;
            self.within = Within::Content { left: left - 1 };
            Ok(None)
        } else if byte == b'\r' {
            self.within = Within::PartEnd(PartKind::Bulk);
            Ok(None)
        } else {
            Err(SpotError::Refused(Fault::BadEnd))
        }
    }

    /// Reads the last byte of an array's head.
    fn array_head_end(
        &mut self,
        alloc: Global,
        value: u32,
        byte: u8,
    ) -> Result<Option<Message>, SpotError>
        ensures { Gives (array_head_end self.old value byte) result self.old self.new }
    {
        if byte != b'\n' {
            return Err(SpotError::Refused(Fault::BadEnd));
        }
        match mem::replace(&mut self.progress, Progress::Name) {
            Progress::Value { name, time } => {
                self.within = Within::Start;
                self.bytes = Bytes::new(alloc);
                let values = Parts::new(alloc);
                if value == 0 {
                    Ok(Some(Message::Put { name, time, values }))
                } else {
                    self.progress = Progress::Item {
                        name,
                        time,
                        values,
                        left: value,
                    };
                    Ok(None)
                }
            }
            other => {
                self.progress = other;
                Err(SpotError::Refused(Fault::BadShape))
            }
        }
    }

    /// Reads the last byte of a part.
    fn part_end(
        &mut self,
        alloc: Global,
        kind: PartKind,
        byte: u8,
    ) -> Result<Option<Message>, SpotError>
        ensures { Gives (part_end self.old kind byte) result self.old self.new }
    {
        if byte != b'\n' {
            return Err(SpotError::Refused(Fault::BadEnd));
        }
        self.within = Within::Start;
        let bytes = mem::replace(&mut self.bytes, Bytes::new(alloc));
        self.finish(alloc, Part { kind, bytes })
    }

    /// Adds a whole part.
    fn finish(&mut self, alloc: Global, part: Part) -> Result<Option<Message>, SpotError>
        requires within { self.old.within ≡ Within.Start }
        requires bytes { self.old.bytes ≡ [] }
        ensures { Finishes (finish self.old.progress part) result self.new }
    {
        match mem::replace(&mut self.progress, Progress::Name) {
            Progress::Name => Ok(self.finish_name(part)),
            Progress::Time { name } => {
                self.progress = Progress::Value { name, time: part };
                Ok(None)
            }
            Progress::Value { name, time } => {
                let mut values = Parts::new(alloc);
                values.push(alloc, part)?;
                Ok(Some(Message::Put { name, time, values }))
            }
            Progress::Item {
                name,
                time,
                mut values,
                left,
            } => {
                values.push(alloc, part)?;
                if left <= 1 {
                    Ok(Some(Message::Put { name, time, values }))
                } else {
                    self.progress = Progress::Item {
                        name,
                        time,
                        values,
                        left: left - 1,
                    };
                    Ok(None)
                }
            }
            Progress::Json => Ok(Some(Message::Query(part))),
        }
    }

    /// Adds a name part.
    fn finish_name(&mut self, name: Part) -> Option<Message>
        requires progress { self.old.progress ≡ Progress.Name }
        requires within { self.old.within ≡ Within.Start }
        requires bytes { self.old.bytes ≡ [] }
        ensures { GivesName (finish_name name) result self.new }
    {
        let text = name.bytes.as_slice();
        if !is_control(text) {
            self.progress = Progress::Time { name };
            None
        } else if text == b"!query".as_slice() {
            self.progress = Progress::Json;
            None
        } else if text == b"!flush".as_slice() {
            Some(Message::Flush)
        } else {
            Some(Message::Unknown)
        }
    }
}

/// How many bytes at the front, of at most `most`, are content of a line.
pub(crate) fn line_length(bytes: &[u8], most: usize) -> usize
    ensures within { result ≤ length bytes.now }
    ensures most { result ≤ most }
    ensures content { All IsLineByte (take result bytes.now) }
    ensures stops { result < length bytes.now → result < most → ¬ (IsLineByte (get_or bytes.now result 0)) }
{
    let front = &bytes[..bytes.len().min(most)];
    memchr2(b'\r', b'\n', front).unwrap_or(front.len())
}

/// Whether a name is that of a control.
pub(crate) fn is_control(name: &[u8]) -> bool
    ensures { result ≡ is_control name.now }
{
    match name.first() {
        Some(byte) => *byte == b'!',
        None => false,
    }
}

/// Whether a byte is a digit.
pub(crate) fn is_digit(byte: u8) -> bool
    ensures { result ≡ is_digit byte }
{
    byte >= b'0' && byte <= b'9'
}

/// Whether a digit is among the bytes.
fn has_digit(bytes: &[u8]) -> bool
    ensures { result ≡ list_any is_digit bytes.now }
{
    bytes.iter().any(|byte| is_digit(*byte))
}

/// Whether a number that begins with these bytes may go on with this one.
fn goes_on(bytes: &[u8], byte: u8) -> bool
    ensures { result ≡ goes_on bytes.now byte }
{
    is_digit(byte) || (bytes.is_empty() && (byte == b'+' || byte == b'-'))
}

/// Reads a byte of a number of at most `most`: how many digits and what value there are now, or None at its CR.
fn head(
    digits: u16,
    value: u32,
    byte: u8,
    most: u32,
    above: Fault,
) -> Result<Option<(u16, u32)>, Fault>
    requires { most < 2 ^ 31 }
    ensures { result ≡ head digits value byte most above }
{
    if byte == b'\n' {
        return Err(Fault::BadEnd);
    }
    if byte == b'\r' {
        return if digits == 0 {
            Err(Fault::BadNumber)
        } else {
            Ok(None)
        };
    }
    if digits >= MAX_DIGITS {
        return Err(Fault::LongLine);
    }
    if !is_digit(byte) {
        return Err(Fault::BadNumber);
    }
    let next = u64::from(value) * 10 + u64::from(byte - b'0');
    if next > u64::from(most) {
        return Err(above);
    }
    Ok(Some((digits + 1, next as u32)))
}
