//! A cache of blocks.
ghost use Rattle.std.specs.Prelude.{◌≡◌, ◌≤◌, [], IfOk, OnOk};
ghost use Rattle.ak_host.specs.Calls.{CountsOne};
ghost use Rattle.ak_host.specs.Causes.{HasCause};
ghost use Rattle.ak_host.specs.Moments.{LeavesNow, DiskPasses};
ghost use Rattle.ak_image.specs.Blocks.{seen_in, AreThere};
ghost use Rattle.ak_volumes.specs.Ordinals.{IsLive};

use crate::place::{file, index};
use ak_base::{Addr, Block};
use ak_host::{Disk, Failed};
use ak_volumes::Volumes;
use std::alloc::{AllocError, Global};
use std::marker::Model;

/// A cache of blocks by address. It keeps no block yet.
#[derive(Drop)]
pub struct Cached {
    blocks: u32,
}

impl Model for Cached {
    ghost use Rattle.std.specs.Prelude.{[]};
    ghost use Rattle.ak_cache.specs.Kept.{Cache};

    ghost Value = { Cache };

    ghost view = { λ c. record { kept = []; blocks = c.blocks } };
}

impl Cached {
    /// An empty cache for so many blocks.
    pub fn new(alloc: Global, blocks: u32) -> Result<Cached, AllocError>
        requires { 1 ≤ blocks }
        ensures kept { IfOk result (λ cache. cache.kept ≡ []) }
        ensures blocks { IfOk result (λ cache. cache.blocks ≡ blocks) }
    {
        let _ = alloc;
        Ok(Cached { blocks })
    }

    /// Reads the block at a live address.
    pub fn read<D: Disk>(
        &mut self,
        d: &mut D,
        volumes: &Volumes,
        a: Addr,
        into: &mut Block,
    ) -> Result<(), Failed>
        requires live { IsLive volumes.now a.0 }
        requires there { AreThere volumes.now (D.state d.old) }
        ensures kept { self.new ≡ self.old }
        ensures block { D.tells → OnOk result (into.new ≡ seen_in volumes.now.volumes (D.state d.old).files a.0) }
        ensures cause { HasCause (D.state d.old).disk_faults (D.state d.new).disk_faults result }
        ensures sizes { (D.state d.new).sizes ≡ (D.state d.old).sizes }
        ensures port_faults { (D.state d.new).port_faults ≡ (D.state d.old).port_faults }
        ensures files { D.tells → (D.state d.new).files ≡ (D.state d.old).files }
        ensures reads { D.tells → CountsOne (D.state d.old).reads (D.state d.new).reads result }
        ensures writes { D.tells → (D.state d.new).writes ≡ (D.state d.old).writes }
        ensures moments { D.tells → DiskPasses (LeavesNow (D.state d.old)) (D.state d.old) (D.state d.new) }
    {
        d.read(file(volumes, a), index(a), into)
    }
}
