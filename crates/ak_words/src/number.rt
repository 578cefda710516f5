//! Reads numbers.
ghost use Rattle.std.specs.Prelude.{ℕ, MatchOption};
ghost use Rattle.ak_words.specs.Words.{IsNumber};

// The most digits of a number.
const MAX_DIGITS: usize = 10;

/// The number that the text is, where it is 1 to 10 digits.
pub fn read_number(text: &str) -> Option<u64>
    ensures { MatchOption result ((n : ℕ) → IsNumber text.now n → ⊥) (λ n. IsNumber text.now n) }
{
    if text.len() > MAX_DIGITS || text.starts_with('+') {
        return None;
    }
    text.parse::<u64>().ok()
}
