//! Numbers below 2^70 as groups of seven bits, the lowest first.
ghost use Rattle.std.specs.Prelude.{◌⊎◌, ◌*◌, get_or, ◌≡◌, ℕ, ◌+◌, ◌<◌, ◌≤◌, ◌^◌, ◌↔◌, List, ◌++◌, length, take, drop, IfSome, IfNone};
ghost use Rattle.ak_bytes.specs.Fields.{IsPut};
ghost use Rattle.ak_bytes.specs.Uvar.{IsUvar, uvar};

/// The most bytes of a spelling.
const LONGEST: usize = 10;

/// How many bytes the spelling of a number has.
pub fn uvar_length(v: u128) -> u32
    requires { v < 2 ^ 70 }
    ensures whole { result ≡ length (uvar v) }
    ensures some { 1 ≤ result }
    ensures longest { result ≤ 10 }
{
    if v < 128 {
        return 1;
    }
    // Behind the first byte the number is below 2^63.
    let mut rest = (v / 128) as u64;
    let mut length = 2;
    while rest >= 128 {
        rest /= 128;
        length += 1;
    }
    length
}

/// Writes the spelling of a number at a place, and gives its end. None where it doesn't fit; then the bytes from the
/// place on may be anything.
pub fn put_uvar(buf: &mut [u8], at: usize, v: u128) -> Option<usize>
    requires place { at ≤ length buf.old }
    requires small { v < 2 ^ 70 }
    ensures some { IfSome result (λ end. (end ≡ at + length (uvar v)) × (end ≤ length buf.old) × IsPut buf.old buf.new at end (uvar v)) }
    ensures none { IfNone result ((length buf.old < at + length (uvar v)) × (take at buf.new ≡ take at buf.old)) }
{
    if at == buf.len() {
        return None;
    }
    if v < 128 {
        buf[at] = v as u8;
        return Some(at + 1);
    }
    buf[at] = (v % 128) as u8 + 128;
    let mut rest = (v / 128) as u64;
    let mut end = at + 1;
    while rest >= 128 {
        if end == buf.len() {
            return None;
        }
        buf[end] = (rest % 128) as u8 + 128;
        rest /= 128;
        end += 1;
    }
    if end == buf.len() {
        return None;
    }
    buf[end] = rest as u8;
    Some(end + 1)
}

/// Reads the tenth byte of a number, of which the others gave this value.
fn read_last(buf: &[u8], end: usize, value: u64, scale: u64) -> Option<(u128, usize)>
    requires { end < 2 ^ 63 }
    ensures some { IfSome result (λ found. (end < length buf.now) × (0 < get_or buf.now end 0) × (get_or buf.now end 0 < 128)
        × (found.0 ≡ value + get_or buf.now end 0 * scale) × (found.1 ≡ end + 1)) }
    ensures none { IfNone result ((length buf.now ≤ end) ⊎ ((end < length buf.now) × ((get_or buf.now end 0 ≡ 0) ⊎ (128 ≤ get_or buf.now end 0)))) }
{
    if end >= buf.len() {
        return None;
    }
    let byte = buf[end];
    if byte == 0 {
        return None;
    }
    if byte >= 128 {
        return None;
    }
    let found = u128::from(value) + u128::from(byte) * u128::from(scale);
    Some((found, end + 1))
}

/// Reads the number that is spelled at a place, and gives the spelling's end. None where no number below 2^70 is spelled
/// there.
pub fn get_uvar(buf: &[u8], at: usize) -> Option<(u128, usize)>
    requires { at ≤ length buf.now }
    ensures some { IfSome result (λ found. (found.0 < 2 ^ 70) × (at < found.1) × (found.1 ≤ length buf.now) × (drop at buf.now ≡ uvar found.0 ++ drop found.1 buf.now)) }
    ensures none { IfNone result ((n : ℕ) (rest : List ℕ) → n < 2 ^ 70 → drop at buf.now ≡ uvar n ++ rest → ⊥) }
{
    let mut value: u64 = 0;
    let mut scale: u64 = 1;
    for i in 0..LONGEST - 1 {
        if at + i >= buf.len() {
            return None;
        }
        let byte = buf[at + i];
        if byte < 128 {
            if byte == 0 && i > 0 {
                return None;
            }
            return Some((u128::from(value + u64::from(byte) * scale), at + i + 1));
        }
        value += u64::from(byte - 128) * scale;
        scale *= 128;
    }
    read_last(buf, at + LONGEST - 1, value, scale)
}

/// The spelling of a number is the only row of bytes that the grammar has for it.
pub fn spellings_are_the_grammar()
    ensures { (bytes : List ℕ) (n : ℕ) → n < 2 ^ 70 → IsUvar bytes n ↔ (bytes ≡ uvar n) }
{}

/// No spelling begins another.
pub fn no_spelling_begins_another()
    ensures { (a b x y : List ℕ) (m n : ℕ) → IsUvar a m → IsUvar b n → a ++ x ≡ b ++ y → (a ≡ b) × (m ≡ n) }
{}
