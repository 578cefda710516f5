//! Files and blocks of a disk, where they are there.
ghost use Rattle.std.specs.Prelude.{◌≡◌, ◌<◌, true, length, slice_index};

use ak_host::{Block, Disk};

// Tests ask first whether a block is there, so that no fact of the sizes has to last from call to call.
fn is_there<D: Disk>(disk: &D, file: u32, index: u32) -> bool
    ensures { result ≡ true → (file < length (D.state disk.now).sizes) × (index < slice_index (D.state disk.now).sizes file) }
{
    file < disk.files() && index < disk.blocks(file)
}

// Writes a block. Whether it was written.
pub(crate) fn put<D: Disk>(disk: &mut D, file: u32, index: u32, block: &Block) -> bool {
    is_there(disk, file, index) && disk.write(file, index, block).is_ok()
}

// Makes a file, which is the next one or is there. Whether it was made.
pub(crate) fn make<D: Disk>(disk: &mut D, file: u32, blocks: u32) -> bool {
    file <= disk.files() && file < 9 && 1 <= blocks && disk.make(file, blocks).is_ok()
}
