//! Where the live leaves of a series stand.
ghost use Rattle.std.specs.Prelude.{◌≡◌, ◌+◌, ◌≤◌, length, IfOk, IfErr};
ghost use Rattle.std.specs.List.{AllByRecursion};
ghost use Rattle.ak_base.specs.declared.point.Addr.{Addr};
ghost use Rattle.ak_cache.specs.Leaves.{KeepsReach};
ghost use Rattle.ak_image.specs.Blocks.{seen_in, AreThere};
ghost use Rattle.ak_meta.specs.Contents.{rescue_at};
ghost use Rattle.ak_repair.specs.Reads.{OnlyReads, IsReadStop};
ghost use Rattle.ak_repair.specs.Walks.{AreWalked, IsBroken};
ghost use Rattle.ak_volumes.specs.Ordinals.{IsLive};

use ak_base::{Addr, Stop};
use ak_cache::Reach;
use ak_host::Disk;
use ak_meta::SeriesMeta;
use std::alloc::Global;

/// The addresses of the live leaves of a series, the newest first: from that of its last leaf back along elder links, to an
/// address that is none or dead.
pub fn live_leaves<D: Disk>(
    alloc: Global,
    reach: &mut Reach<D>,
    series: u32,
    known: &SeriesMeta,
) -> Result<Vec<Addr>, Stop>
    requires there { AreThere reach.old.volumes.now (D.state reach.old.disk.now) }
    ensures keeps { KeepsReach reach.old reach.new }
    ensures cache { reach.new.cache.now ≡ reach.old.cache.now }
    ensures reads { OnlyReads D.tells (D.state reach.old.disk.now) (D.state reach.new.disk.now) }
    ensures stops { IfErr result (IsReadStop
        (λ file block. D.tells → IsBroken (seen_in reach.old.volumes.now.volumes (D.state reach.old.disk.now).files) reach.old.volumes.now series known.now.leaves (rescue_at known.now.rescue 0) file block)
        (D.state reach.old.disk.now) (D.state reach.new.disk.now)) }
    ensures count { D.tells → (D.state reach.new.disk.now).reads ≤ (D.state reach.old.disk.now).reads + known.now.leaves }
    ensures live { IfOk result (λ addresses. AllByRecursion (λ (a : Addr). IsLive reach.old.volumes.now a.0) addresses.items) }
    ensures few { IfOk result (λ addresses. length addresses.items ≤ known.now.leaves) }
    ensures walked { D.tells → IfOk result (λ addresses.
        AreWalked (seen_in reach.old.volumes.now.volumes (D.state reach.old.disk.now).files) reach.old.volumes.now series known.now.leaves (rescue_at known.now.rescue 0) addresses.items) }
{
    let mut addresses = Vec::new(alloc);
    let mut a = known.rescue[0];
    let mut number = known.leaves;
    while number > 0 && reach.volumes.live(a) {
        number -= 1;
        let head = reach.leaf(a, series, number)?;
        if addresses.push(a).is_err() {
            return Err(Stop::Memory);
        }
        a = head.elder;
    }
    Ok(addresses)
}
