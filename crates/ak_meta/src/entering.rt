//! Enters a leaf of a series.
ghost use Rattle.std.specs.Prelude.{◌≡◌, ◌+◌, ◌<◌, ◌≤◌, ◌^◌, length};
ghost use Rattle.ak_levels.specs.Carries.{carry_of};
ghost use Rattle.ak_meta.specs.Leaves.{with_leaf, rescued};

use crate::meta::SeriesMeta;
use ak_base::Addr;
use ak_levels::carry;

/// 32^10: numbers that differ by a multiple of it fill as many levels.
const PERIOD: u64 = 1 << 50;

/// Enters a leaf of a series, whose group stands at an address.
pub fn close_leaf(series: &mut SeriesMeta, last: u64, at: Addr)
    requires count { series.old.leaves + 1 < 2 ^ 64 }
    requires room { at.0 + carry_of series.old.leaves < 2 ^ 64 }
    ensures { series.new ≡ with_leaf series.old last at.0 }
{
    let top = levels(series.leaves);
    rescue_levels(&mut series.rescue, top, at);
    series.leaves += 1;
    series.last = last;
}

/// How many levels above that of the leaves get a new node with the leaf behind so many others.
pub fn levels(leaves: u64) -> usize
    ensures count { result ≡ carry_of leaves }
    ensures most { result ≤ 10 }
{
    carry(leaves % PERIOD) as usize
}

/// Gives the levels up to `top` the addresses of a group in order.
fn rescue_levels(rescue: &mut [Addr], top: usize, at: Addr)
    requires within { top < length rescue.old }
    requires room { at.0 + top < 2 ^ 64 }
    ensures { rescue.new ≡ rescued rescue.old top at.0 }
{
    for level in 0..top + 1 {
        rescue[level] = Addr(at.0 + level as u64);
    }
}
