//! How many nodes a series has.
ghost use Rattle.std.specs.Prelude.{◌≡◌, ◌/◌, ◌^◌, ◌≤◌};

/// How many nodes of a level there are in a series of so many leaves.
pub fn made(leaves: u64, level: u32) -> u64
    requires { level ≤ 10 }
    ensures { result ≡ leaves / 32 ^ level }
{
    leaves >> (5 * level)
}
