//! Puts that stand whole in a piece.
ghost use Rattle.std.specs.Prelude.{ℕ, List, ◌∷◌, ◌++◌, ◌⊎◌, ◌≡◌, ◌≢◌, ◌+◌, ◌≤◌, ◌<◌, ◌-◌, ◌↔◌, [], Some, length, take, drop, get_or, All, IfSome, IsTrue, MatchOption};
ghost use Rattle.ak_resp.specs.Grammar.{crlf, IsLine, IsInteger, IsDigit, IsItem, IsText, IsName, Spells};
ghost use Rattle.ak_resp.specs.Puts.{lent, part_as, AreParts, IsCount, IsEnd, IsIntegerText, IsSign, IsTimed, IsTimeFront, IsValuesFront, IsPutOf, SpellsFront};
ghost use Rattle.ak_resp.specs.declared.message.Message.{Message};
ghost use Rattle.ak_resp.specs.declared.message.Part.{Part};

use crate::message::PartKind;
use crate::spot::{MAX_BULK, MAX_ITEMS, MAX_LINE, is_control, is_digit, line_length};

/// The most digits whose number fits 64 bits, whatever they are.
const MAX_NUMBER: usize = 19;

/// The most bytes of a bulk.
const MAX_CONTENT: u64 = MAX_BULK as u64;

/// The most values of an array.
const MAX_VALUES: u64 = MAX_ITEMS as u64;

/// A part as it stands in a piece.
#[derive(Clone, Copy, Drop)]
pub struct Lent<'a> {
    pub kind: PartKind,
    pub text: &'a [u8],
}

/// The parts of an array as they stand in a piece: so many, one behind the other.
#[derive(Clone, Copy, Drop)]
pub struct LentParts<'a> {
    pub count: usize,
    pub spelled: &'a [u8],
}

impl<'a> LentParts<'a> {
    /// The first part and the others; None where there is none.
    pub fn split(self) -> Option<(Lent<'a>, LentParts<'a>)>
        ensures { (parts : List Part) → AreParts self.entry.count self.entry.spelled.now parts
            → MatchOption result (parts ≡ []) (λ r. (others : List Part) × (parts ≡ lent r.0 ∷ others) × AreParts r.1.count r.1.spelled.now others) }
    {
        if self.count == 0 {
            return None;
        }
        if self.spelled.is_empty() {
            return None;
        }
        let kind = item_kind(self.spelled[0]);
        let rest = &self.spelled[1..];
        let end = line_end(rest)?;
        let first = Lent {
            kind,
            text: &rest[..end],
        };
        let others = LentParts {
            count: self.count - 1,
            spelled: &rest[end + 2..],
        };
        Some((first, others))
    }
}

/// How an item of an array with this type byte is written.
fn item_kind(type_byte: u8) -> PartKind
    ensures simple { type_byte ≡ 43 → result ≡ PartKind.Simple }
    ensures integer { type_byte ≡ 58 → result ≡ PartKind.Integer }
{
    if type_byte == b'+' {
        PartKind::Simple
    } else {
        PartKind::Integer
    }
}

/// The values of a put as they stand in a piece.
#[derive(Clone, Copy, Drop)]
pub enum LentValues<'a> {
    One(Lent<'a>),
    Array(LentParts<'a>),
}

/// A put as it stands in a piece. Its time is 1 to 19 digits without a sign, and `ts` is their number. `length` is how many bytes
/// spell it.
#[derive(Clone, Copy, Drop)]
pub struct WholePut<'a> {
    pub name: Lent<'a>,
    pub time: Lent<'a>,
    pub ts: u64,
    pub values: LentValues<'a>,
    pub length: usize,
}

/// Whether CR LF stands in a place.
fn is_end(bytes: &[u8], at: usize) -> bool
    ensures { IsTrue result ↔ IsEnd bytes.now at }
{
    at < bytes.len() && bytes.len() - at >= 2 && bytes[at] == b'\r' && bytes[at + 1] == b'\n'
}

/// Where the line at the front ends: the bytes before it are content, and CR LF stands there.
fn line_end(bytes: &[u8]) -> Option<usize>
    ensures content { IfSome result (λ n. IsLine (take n bytes.now)) }
    ensures end { IfSome result (IsEnd bytes.now) }
    ensures found { (line back : List ℕ) → IsLine line → bytes.now ≡ line ++ (crlf ++ back) → result ≡ Some (length line) }
{
    let end = line_length(bytes, MAX_LINE);
    if is_end(bytes, end) { Some(end) } else { None }
}

/// So many digits at the front, and their number.
#[derive(Clone, Copy, Drop)]
pub struct Count {
    pub digits: usize,
    pub number: u64,
}

/// The digits at the front, at most 19, behind some that are read.
fn digits_from(bytes: &[u8], read: Count) -> Count
    requires { IsCount bytes.now read.digits read.number }
    ensures { IsCount bytes.now result.digits result.number }
{
    let mut digits = read.digits;
    let mut number = read.number;
    'digits: while digits < MAX_NUMBER && digits < bytes.len() && is_digit(bytes[digits]) {
        number = number * 10 + u64::from(bytes[digits] - b'0');
        digits += 1;
    }
    Count { digits, number }
}

/// What a digit stands for.
fn digit(byte: u8) -> u64
    requires { IsDigit byte }
    ensures is { result ≡ byte - 48 }
    ensures most { result ≤ 9 }
{
    u64::from(byte - b'0')
}

/// The number of eight digits at the front.
fn eight_digits(bytes: &[u8]) -> Option<u64>
    ensures { IfSome result (IsCount bytes.now 8) }
{
    if bytes.len() < 8 {
        return None;
    }
    let each = is_digit(bytes[0])
        & is_digit(bytes[1])
        & is_digit(bytes[2])
        & is_digit(bytes[3])
        & is_digit(bytes[4])
        & is_digit(bytes[5])
        & is_digit(bytes[6])
        & is_digit(bytes[7]);
    if each {
        let front = digit(bytes[0]) * 1000
            + digit(bytes[1]) * 100
            + digit(bytes[2]) * 10
            + digit(bytes[3]);
        let back = digit(bytes[4]) * 1000
            + digit(bytes[5]) * 100
            + digit(bytes[6]) * 10
            + digit(bytes[7]);
        Some(front * 10000 + back)
    } else {
        None
    }
}

/// The digits at the front, at most 19.
#[tactic(auto, using(crate::proofs::Numbers::count_none, crate::proofs::Numbers::counts_joined))]
fn digits_at_front(bytes: &[u8]) -> Count
    ensures { IsCount bytes.now result.digits result.number }
{
    let Some(front) = eight_digits(bytes) else {
        return digits_from(
            bytes,
            Count {
                digits: 0,
                number: 0,
            },
        );
    };
    let Some(back) = eight_digits(&bytes[8..]) else {
        return digits_from(
            bytes,
            Count {
                digits: 8,
                number: front,
            },
        );
    };
    digits_from(
        bytes,
        Count {
            digits: 16,
            number: front * 100_000_000 + back,
        },
    )
}

/// The number in a line at the front: 1 to 19 digits, and CR LF behind them.
fn number_at_front(bytes: &[u8]) -> Option<Count>
    ensures some { IfSome result (λ c. 0 < c.digits) }
    ensures is { IfSome result (λ c. IsCount bytes.now c.digits c.number) }
    ensures end { IfSome result (λ c. IsEnd bytes.now c.digits) }
{
    let count = digits_at_front(bytes);
    if count.digits > 0 && is_end(bytes, count.digits) {
        Some(count)
    } else {
        None
    }
}

/// Where the number behind a sign at the front ends.
#[tactic(auto, using(crate::proofs::Texts::signed_text))]
fn signed_end(bytes: &[u8]) -> Option<usize>
    requires some { 0 < length bytes.now }
    requires sign { IsSign (get_or bytes.now 0 0) }
    ensures content { IfSome result (λ n. IsIntegerText (take n bytes.now)) }
    ensures end { IfSome result (IsEnd bytes.now) }
{
    let count = number_at_front(&bytes[1..])?;
    Some(count.digits + 1)
}

/// Where the integer at the front ends: the bytes before it are at most 19 digits behind a sign or none, and CR LF stands there.
#[tactic(auto, using(crate::proofs::Texts::digits_text))]
fn integer_end(bytes: &[u8]) -> Option<usize>
    ensures content { IfSome result (λ n. IsIntegerText (take n bytes.now)) }
    ensures end { IfSome result (IsEnd bytes.now) }
{
    if bytes.is_empty() {
        return None;
    }
    if bytes[0] == b'-' {
        return signed_end(bytes);
    }
    if bytes[0] == b'+' {
        return signed_end(bytes);
    }
    let count = number_at_front(bytes)?;
    Some(count.digits)
}

/// A part at the front, and how many bytes spell it.
#[derive(Clone, Copy, Drop)]
pub struct Front<'a> {
    pub kind: PartKind,
    pub text: &'a [u8],
    pub length: usize,
}

/// The simple part at the front.
#[tactic(auto, using(crate::proofs::Texts::line_part, crate::proofs::Texts::part_within))]
fn simple_at_front(bytes: &[u8]) -> Option<Front<'_>>
    requires some { 0 < length bytes.now }
    requires is { get_or bytes.now 0 0 ≡ 43 }
    ensures spells { IfSome result (λ f. SpellsFront bytes.now f) }
    ensures within { IfSome result (λ f. f.length ≤ length bytes.now) }
    ensures kind { IfSome result (λ f. f.kind ≡ PartKind.Simple) }
    ensures more { IfSome result (λ f. 0 < f.length) }
{
    let rest = &bytes[1..];
    let end = line_end(rest)?;
    Some(Front {
        kind: PartKind::Simple,
        text: &rest[..end],
        length: end + 3,
    })
}

/// The integer part at the front.
#[tactic(auto, using(crate::proofs::Texts::integer_part, crate::proofs::Texts::part_within))]
fn integer_at_front(bytes: &[u8]) -> Option<Front<'_>>
    requires some { 0 < length bytes.now }
    requires is { get_or bytes.now 0 0 ≡ 58 }
    ensures spells { IfSome result (λ f. SpellsFront bytes.now f) }
    ensures within { IfSome result (λ f. f.length ≤ length bytes.now) }
    ensures kind { IfSome result (λ f. f.kind ≡ PartKind.Integer) }
{
    let rest = &bytes[1..];
    let end = integer_end(rest)?;
    Some(Front {
        kind: PartKind::Integer,
        text: &rest[..end],
        length: end + 3,
    })
}

/// The bulk at the front.
fn bulk_at_front(bytes: &[u8]) -> Option<Front<'_>>
    requires some { 0 < length bytes.now }
    requires is { get_or bytes.now 0 0 ≡ 36 }
    ensures spells { IfSome result (λ f. SpellsFront bytes.now f) }
    ensures within { IfSome result (λ f. f.length ≤ length bytes.now) }
    ensures kind { IfSome result (λ f. f.kind ≡ PartKind.Bulk) }
    ensures more { IfSome result (λ f. 0 < f.length) }
{
    let count = number_at_front(&bytes[1..])?;
    if count.number > MAX_CONTENT {
        return None;
    }
    let content = &bytes[count.digits + 3..];
    let size = count.number as usize;
    if !is_end(content, size) {
        return None;
    }
    Some(Front {
        kind: PartKind::Bulk,
        text: &content[..size],
        length: count.digits + size + 5,
    })
}

/// The simple or integer part at the front.
fn item_at_front(bytes: &[u8]) -> Option<Front<'_>>
    ensures spells { IfSome result (λ f. SpellsFront bytes.now f) }
    ensures within { IfSome result (λ f. f.length ≤ length bytes.now) }
    ensures item { IfSome result (λ f. IsItem f.kind) }
{
    if bytes.is_empty() {
        return None;
    }
    if bytes[0] == b'+' {
        return simple_at_front(bytes);
    }
    if bytes[0] == b':' {
        return integer_at_front(bytes);
    }
    None
}

/// The name at the front, which is simple or bulk and no control.
fn name_at_front(bytes: &[u8]) -> Option<Front<'_>>
    ensures spells { IfSome result (λ f. SpellsFront bytes.now f) }
    ensures within { IfSome result (λ f. f.length ≤ length bytes.now) }
    ensures more { IfSome result (λ f. 0 < f.length) }
    ensures name { IfSome result (λ f. IsName (part_as f.kind f.text.now)) }
{
    let name = text_at_front(bytes)?;
    if is_control(name.text) {
        None
    } else {
        Some(name)
    }
}

/// The simple part or the bulk at the front.
fn text_at_front(bytes: &[u8]) -> Option<Front<'_>>
    ensures spells { IfSome result (λ f. SpellsFront bytes.now f) }
    ensures within { IfSome result (λ f. f.length ≤ length bytes.now) }
    ensures more { IfSome result (λ f. 0 < f.length) }
    ensures text { IfSome result (λ f. IsText f.kind) }
{
    if bytes.is_empty() {
        return None;
    }
    if bytes[0] == b'+' {
        return simple_at_front(bytes);
    }
    if bytes[0] == b'$' {
        return bulk_at_front(bytes);
    }
    None
}

/// A time at the front: its part, and its number.
#[derive(Clone, Copy, Drop)]
pub struct TimeFront<'a> {
    pub part: Front<'a>,
    pub ts: u64,
}

/// The time at the front behind `:`.
fn integer_time(bytes: &[u8]) -> Option<TimeFront<'_>>
    requires some { 0 < length bytes.now }
    requires is { get_or bytes.now 0 0 ≡ 58 }
    ensures { IfSome result (λ t. IsTimeFront bytes.now t) }
{
    let rest = &bytes[1..];
    let count = number_at_front(rest)?;
    let part = Front {
        kind: PartKind::Integer,
        text: &rest[..count.digits],
        length: count.digits + 3,
    };
    Some(TimeFront {
        part,
        ts: count.number,
    })
}

/// The time at the front behind `+`.
fn simple_time(bytes: &[u8]) -> Option<TimeFront<'_>>
    requires some { 0 < length bytes.now }
    requires is { get_or bytes.now 0 0 ≡ 43 }
    ensures { IfSome result (λ t. IsTimeFront bytes.now t) }
{
    let rest = &bytes[1..];
    let count = number_at_front(rest)?;
    let part = Front {
        kind: PartKind::Simple,
        text: &rest[..count.digits],
        length: count.digits + 3,
    };
    Some(TimeFront {
        part,
        ts: count.number,
    })
}

/// The time at the front in a bulk.
fn bulk_time(bytes: &[u8]) -> Option<TimeFront<'_>>
    requires some { 0 < length bytes.now }
    requires is { get_or bytes.now 0 0 ≡ 36 }
    ensures { IfSome result (λ t. IsTimeFront bytes.now t) }
{
    let part = bulk_at_front(bytes)?;
    let count = digits_at_front(part.text);
    if count.digits == 0 || count.digits < part.text.len() {
        return None;
    }
    Some(TimeFront {
        part,
        ts: count.number,
    })
}

/// The time at the front: 1 to 19 digits without a sign.
fn time_at_front(bytes: &[u8]) -> Option<TimeFront<'_>>
    ensures { IfSome result (λ t. IsTimeFront bytes.now t) }
{
    if bytes.is_empty() {
        return None;
    }
    if bytes[0] == b':' {
        return integer_time(bytes);
    }
    if bytes[0] == b'+' {
        return simple_time(bytes);
    }
    if bytes[0] == b'$' {
        return bulk_time(bytes);
    }
    None
}

/// The values at the front, and how many bytes spell them.
#[derive(Clone, Copy, Drop)]
pub struct ValuesFront<'a> {
    pub values: LentValues<'a>,
    pub length: usize,
}

/// How many bytes spell so many items at the front.
fn items_length(bytes: &[u8], count: usize) -> Option<usize>
    ensures within { IfSome result (λ n. n ≤ length bytes.now) }
    ensures are { IfSome result (λ n. (parts : List Part) × AreParts count (take n bytes.now) parts) }
{
    let mut items = 0;
    let mut at = 0;
    'items: while items < count {
        let item = item_at_front(&bytes[at..])?;
        at += item.length;
        items += 1;
    }
    Some(at)
}

/// The array at the front, of at most 64 items.
fn array_at_front(bytes: &[u8]) -> Option<ValuesFront<'_>>
    requires some { 0 < length bytes.now }
    requires is { get_or bytes.now 0 0 ≡ 42 }
    ensures { IfSome result (λ v. IsValuesFront bytes.now v) }
{
    let head = number_at_front(&bytes[1..])?;
    if head.number > MAX_VALUES {
        return None;
    }
    let rest = &bytes[head.digits + 3..];
    let count = head.number as usize;
    let length = items_length(rest, count)?;
    let parts = LentParts {
        count,
        spelled: &rest[..length],
    };
    Some(ValuesFront {
        values: LentValues::Array(parts),
        length: head.digits + 3 + length,
    })
}

/// The one value at the front, of any kind.
fn value_at_front(bytes: &[u8]) -> Option<Front<'_>>
    ensures spells { IfSome result (λ f. SpellsFront bytes.now f) }
    ensures within { IfSome result (λ f. f.length ≤ length bytes.now) }
{
    if bytes.is_empty() {
        return None;
    }
    if bytes[0] == b'$' {
        return bulk_at_front(bytes);
    }
    let item = item_at_front(bytes)?;
    Some(item)
}

/// The value or the array of values at the front.
fn values_at_front(bytes: &[u8]) -> Option<ValuesFront<'_>>
    ensures { IfSome result (λ v. IsValuesFront bytes.now v) }
{
    if bytes.is_empty() {
        return None;
    }
    if bytes[0] == b'*' {
        return array_at_front(bytes);
    }
    let value = value_at_front(bytes)?;
    let one = Lent {
        kind: value.kind,
        text: value.text,
    };
    Some(ValuesFront {
        values: LentValues::One(one),
        length: value.length,
    })
}

/// The put that stands at the front of the bytes. It has a name that is no control, a time of 1 to 19 digits without a sign,
/// and a value or an array of values, integers of at most 19 digits. None says nothing of the bytes.
pub fn whole_put(bytes: &[u8]) -> Option<WholePut<'_>>
    ensures spells { IfSome result (λ put. (m : Message) × IsPutOf put m × Spells (take put.length bytes.now) m) }
    ensures time { IfSome result IsTimed }
    ensures within { IfSome result (λ put. put.length ≤ length bytes.now) }
    ensures some { IfSome result (λ put. 0 < put.length) }
{
    let name = name_at_front(bytes)?;
    let time = time_at_front(&bytes[name.length..])?;
    let values = values_at_front(&bytes[name.length + time.part.length..])?;
    Some(WholePut {
        name: Lent {
            kind: name.kind,
            text: name.text,
        },
        time: Lent {
            kind: time.part.kind,
            text: time.part.text,
        },
        ts: time.ts,
        values: values.values,
        length: name.length + time.part.length + values.length,
    })
}
