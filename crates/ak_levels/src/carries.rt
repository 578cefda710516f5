//! How many levels a leaf fills.
ghost use Rattle.std.specs.Prelude.{◌≡◌, ℕ, ◌+◌, ◌%◌, ◌^◌, ◌<◌, ◌≤◌, ◌↔◌};
ghost use Rattle.ak_levels.specs.Carries.{carry_of};

/// How many references fill a level.
const FULL: u64 = 32;

/// The highest level.
const TOP: u32 = 10;

/// How many levels leaf number `m` fills: how many of the powers of 32 from the first to the tenth divide `m + 1`.
pub fn carry(m: u64) -> u32
    requires { m < 2 ^ 53 }
    ensures carry { result ≡ carry_of m }
    ensures most { result ≤ 10 }
    ensures divides { (k : ℕ) → k ≤ 10 → (k ≤ result ↔ ((m + 1) % 32 ^ k ≡ 0)) }
{
    let mut left = m + 1;
    let mut levels = 0;
    while levels < TOP && left % FULL == 0 {
        left /= FULL;
        levels += 1;
    }
    levels
}
