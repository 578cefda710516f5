//! Differences as numbers, which are small where the difference is.
ghost use Rattle.std.specs.Prelude.{◌≡◌, ◌<◌, ◌^◌, ℤ};
ghost use Rattle.ak_bytes.specs.Zigzag.{IsDifference, zigzag_of};

/// The number of a difference: `2 * d`, or `-2 * d - 1` where `d` is below 0.
pub fn zigzag(d: i128) -> u128
    requires { IsDifference d }
    ensures { result ≡ zigzag_of d }
{
    if d >= 0 {
        (d * 2) as u128
    } else {
        (-(d * 2) - 1) as u128
    }
}

/// The number of a difference of 64 bits, as `zigzag` gives it.
pub fn zigzag_i64(d: i64) -> u64
    ensures { result ≡ zigzag_of d }
{
    if d >= 0 {
        d as u64 * 2
    } else {
        (-(d + 1)) as u64 * 2 + 1
    }
}

/// The difference that has this number.
pub fn unzigzag(z: u128) -> i128
    requires { z < 2 ^ 65 }
    ensures { zigzag_of result ≡ z }
{
    let half = (z / 2) as i128;
    if z % 2 == 0 { half } else { -half - 1 }
}

/// No two differences have one number.
pub fn one_difference()
    ensures { (c d : ℤ) → zigzag_of c ≡ zigzag_of d → c ≡ d }
{}
