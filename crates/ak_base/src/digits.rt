//! The digits at the front of a text.
ghost use Rattle.std.specs.Prelude.{◌≡◌, ◌⊎◌, ◌-◌, ◌^◌, ◌<◌, ◌≤◌, min, length, take, slice_index, IfSome, IfNone};
ghost use Rattle.std.specs.Char.{digit_value};
ghost use Rattle.std.specs.Str.Parse.{AllDigits, digits_value_after};

/// The digits at the front of a text: how many they are, and the number that they write, which is 2^64 - 1 where it
/// would be larger.
#[derive(Drop)]
pub(crate) struct Front {
    pub(crate) count: usize,
    pub(crate) number: u64,
}

/// The digits at the front of a text, behind others that write the number `before`.
pub(crate) fn digits_at_front(before: u64, text: &[u8]) -> Front
    ensures within { result.count ≤ length text.now }
    ensures digits { AllDigits 10 (take result.count text.now) }
    ensures end { result.count < length text.now → 10 ≤ digit_value (slice_index text.now result.count) }
    ensures number { result.number ≡ min (digits_value_after 10 before (take result.count text.now)) (2 ^ 64 - 1) }
{
    let mut number = before;
    for (count, byte) in text.iter().enumerate() {
        if !byte.is_ascii_digit() {
            return Front { count, number };
        }
        number = number
            .saturating_mul(10)
            .saturating_add((*byte - b'0') as u64);
    }
    Front {
        count: text.len(),
        number,
    }
}

/// The most digits whose number is below 2^64, whatever they are.
const SHORT: usize = 19;

/// The number that 1 to 19 digits write. None for any other text.
pub(crate) fn short_number(text: &[u8]) -> Option<u64>
    ensures some { IfSome result (λ n. (0 < length text.now) × AllDigits 10 text.now × (n ≡ digits_value_after 10 0 text.now)) }
    ensures none { IfNone result ((length text.now ≡ 0) ⊎ (19 < length text.now) ⊎ ¬ (AllDigits 10 text.now)) }
{
    if text.is_empty() || text.len() > SHORT {
        return None;
    }
    let mut number = 0;
    for byte in text {
        if !byte.is_ascii_digit() {
            return None;
        }
        number = number * 10 + (*byte - b'0') as u64;
    }
    Some(number)
}
