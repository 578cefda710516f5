//! Where the block of an address stands.
ghost use Rattle.std.specs.Prelude.{◌≡◌};
ghost use Rattle.ak_volumes.specs.Ordinals.{AreOrdinals, ordinal_of, index_of, IsLive, file_of};

use ak_base::Addr;
use ak_volumes::Volumes;

/// How many indexes an ordinal has in addresses.
const INDEXES: u64 = 1 << 32;

/// The file of the block at a live address.
pub fn file(volumes: &Volumes, a: Addr) -> u32
    requires live { IsLive volumes.now a.0 }
    ensures file { result ≡ file_of volumes.now (ordinal_of a.0) }
    ensures valid { AreOrdinals volumes.now }
{
    // the ordinals keep their rules
    let _fills = volumes.fills();
    volumes.file_of(a).unwrap()
}

/// The index of an address's block in its file.
pub fn index(a: Addr) -> u32
    ensures { result ≡ index_of a.0 }
{
    (a.0 % INDEXES) as u32
}
