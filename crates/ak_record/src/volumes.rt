//! The files of the volumes.
ghost use Rattle.std.specs.Prelude.{◌≡◌, ◌<◌, slice_index, MatchOption};
ghost use Rattle.ak_base.specs.Ranges.{AreLimits};
ghost use Rattle.ak_record.specs.Volumes.{AreThere, IsShort};

use ak_base::Limits;
use ak_host::Disk;

/// The file of a volume that has too few blocks, and how many it has: 0 where it is not there.
#[derive(Clone, Copy, Drop)]
pub(crate) struct Short {
    pub file: u32,
    pub blocks: u32,
}

// How many blocks a file has, and 0 where it is not there.
fn blocks_of<D: Disk>(disk: &D, file: u32) -> u32
    ensures { result ≡ slice_index (D.state disk.now).sizes file }
{
    if file < disk.files() {
        return disk.blocks(file);
    }
    0
}

/// The first volume whose file is missing or has fewer blocks than a volume.
pub(crate) fn first_short<D: Disk>(disk: &D, limits: &Limits) -> Option<Short>
    requires { AreLimits limits.now }
    ensures { MatchOption result (AreThere limits.now (D.state disk.now).sizes) (λ short. IsShort limits.now (D.state disk.now).sizes short.file short.blocks) }
{
    for file in 1..limits.volumes + 1 {
        let blocks = blocks_of(disk, file);
        if blocks < limits.blocks {
            return Some(Short { file, blocks });
        }
    }
    None
}
