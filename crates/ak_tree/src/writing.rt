//! Writes groups of blocks.
ghost use Rattle.std.specs.Prelude.{◌≡◌, ℕ, suc, ◌+◌, ◌*◌, ◌^◌, ◌<◌, ◌≤◌, ◌++◌, ◌∷◌, [], length, slice_index, IfOk, OnOk};
ghost use Rattle.std.specs.List.{AllByRecursion};
ghost use Rattle.ak_bytes.specs.Head.{IsHead};
ghost use Rattle.ak_bytes.specs.declared.head.Head.{Head};
ghost use Rattle.ak_host.specs.Causes.{HasCause};
ghost use Rattle.ak_host.specs.Moments.{DiskPasses};
ghost use Rattle.ak_inner.specs.Nodes.{SpellsInner};
ghost use Rattle.ak_inner.specs.References.{AreRefs};
ghost use Rattle.ak_levels.specs.Closes.{node_ref, raised, emptied};
ghost use Rattle.ak_levels.specs.Entries.{AreLawful, IsTally};
ghost use Rattle.ak_levels.specs.Pending.{HasRoom, pending_at, with_pending};
ghost use Rattle.ak_meta.specs.Contents.{rescue_at};
ghost use Rattle.ak_tree.specs.Writing.{IsOutside, AreNodeBlocks, IsGroup, LeavesOutside, head_above};

use ak_base::{Addr, Block};
use ak_bytes::Head;
use ak_host::{Disk, Failed};
use ak_inner::{Inner, Ref};
use ak_levels::{Levels, lift};

/// The group of a leaf that is closed: the series, the number of the leaf, the last node of each level, the reference to the
/// leaf, and how many levels it fills.
#[derive(Clone, Copy, Debug, PartialEq, Eq, Drop)]
pub struct Group {
    pub series: u32,
    pub number: u64,
    pub elders: [Addr; 11],
    pub leaf: Ref,
    pub others: u32,
}

/// How many references fill a level.
const FULL: u64 = 32;

/// How many bytes a reference takes in a block.
const REF_SIZE: u32 = 104;

/// Lets what waits at a level, and a reference behind it, go into a node of the level above, which is the one of this number.
/// Gives the reference to it. It stands one address behind what this reference names.
fn raise(
    levels: &mut Levels,
    level: u32,
    r: Ref,
    number: u64,
    group: &Group,
    block: &mut Block,
) -> Ref
    requires level { level ≤ 9 }
    requires room { HasRoom levels.old level }
    requires tallies { AllByRecursion (IsTally level) (pending_at levels.old level ++ r ∷ []) }
    requires addr { r.addr.0 + 1 < 2 ^ 64 }
    ensures raised { result ≡ node_ref (r.addr.0 + 1) (pending_at levels.old level ++ r ∷ []) }
    ensures empty { levels.new ≡ with_pending levels.old level [] }
    ensures tally { IsTally (suc level) result }
    ensures block { IsHead (head_above group.now level number result.addr.0 (pending_at levels.old level ++ r ∷ []))
        → AreRefs (suc level) (pending_at levels.old level ++ r ∷ [])
        → SpellsInner block.new (head_above group.now level number result.addr.0 (pending_at levels.old level ++ r ∷ [])) (pending_at levels.old level ++ r ∷ []) }
{
    let mut node = Inner::new();
    let above = lift(levels, level, r, &mut node);
    let count = node.refs().len() as u32;
    let head = Head {
        kind: Head::INNER,
        level: level as u8 + 1,
        count: count as u16,
        series: group.series,
        number,
        addr: above.addr,
        elder: group.elders[level as usize + 1],
        length: REF_SIZE * count,
    };
    node.encode(&head, block);
    above
}

/// Writes the inner nodes of a group of a file, from an index on: what waited goes into them, level by level. Gives the reference
/// that comes to the level above them.
fn write_nodes<D: Disk>(
    disk: &mut D,
    file: u32,
    index: u32,
    levels: &mut Levels,
    group: &Group,
) -> Result<Ref, Failed>
    requires file { file < length (D.state disk.old).sizes }
    requires index { index + group.now.others ≤ slice_index (D.state disk.old).sizes file }
    requires small { index + group.now.others < 2 ^ 32 }
    requires most { group.now.others ≤ 10 }
    requires lawful { AreLawful group.now.number levels.old }
    requires room { (k : ℕ) → k ≤ group.now.others → HasRoom levels.old k }
    requires leaf { IsTally 0 group.now.leaf }
    requires addr { group.now.leaf.addr.0 + group.now.others < 2 ^ 64 }
    ensures sizes { (D.state disk.new).sizes ≡ (D.state disk.old).sizes }
    ensures cause { HasCause (D.state disk.old).disk_faults (D.state disk.new).disk_faults result }
    ensures port_faults { (D.state disk.new).port_faults ≡ (D.state disk.old).port_faults }
    // What waits is lawful also where a write failed.
    ensures lawful { AreLawful group.now.number levels.new }
    ensures emptied { OnOk result (levels.new ≡ emptied levels.old group.now.others) }
    ensures raised { IfOk result (λ r. r ≡ raised levels.old group.now.leaf group.now.others) }
    ensures tally { IfOk result (λ r. IsTally group.now.others r) }
    ensures nodes { D.tells → OnOk result (AreNodeBlocks group.now levels.old group.now.others file index (D.state disk.new).files) }
    ensures outside { D.tells → OnOk result (IsOutside file index group.now.others (D.state disk.old).files (D.state disk.new).files) }
    ensures reads { D.tells → (D.state disk.new).reads ≡ (D.state disk.old).reads }
    ensures writes { D.tells → OnOk result ((D.state disk.new).writes ≡ (D.state disk.old).writes + group.now.others) }
    ensures passes { D.tells → DiskPasses (λ left. Unit {0}) (D.state disk.old) (D.state disk.new) }
    ensures moments { D.tells → DiskPasses (LeavesOutside file index group.now.others (D.state disk.old)) (D.state disk.old) (D.state disk.new) }
{
    let mut block = [0; 4096];
    let mut above = group.leaf;
    let mut number = group.number;
    for level in 0..group.others {
        number /= FULL;
        above = raise(levels, level, above, number, group, &mut block);
        disk.write(file, index + level, &block)?;
    }
    Ok(above)
}

/// Writes a group of a file: the block of the leaf, and its inner nodes behind it. Gives the reference that comes to the level
/// above them.
pub fn write_group<D: Disk>(
    disk: &mut D,
    file: u32,
    index: u32,
    first: &Block,
    levels: &mut Levels,
    group: &Group,
) -> Result<Ref, Failed>
    requires file { file < length (D.state disk.old).sizes }
    requires index { index + (1 + group.now.others) ≤ slice_index (D.state disk.old).sizes file }
    requires small { index + (1 + group.now.others) < 2 ^ 32 }
    requires most { group.now.others ≤ 10 }
    requires lawful { AreLawful group.now.number levels.old }
    requires room { (k : ℕ) → k ≤ group.now.others → HasRoom levels.old k }
    requires leaf { IsTally 0 group.now.leaf }
    requires addr { group.now.leaf.addr.0 + group.now.others < 2 ^ 64 }
    ensures sizes { (D.state disk.new).sizes ≡ (D.state disk.old).sizes }
    ensures cause { HasCause (D.state disk.old).disk_faults (D.state disk.new).disk_faults result }
    ensures port_faults { (D.state disk.new).port_faults ≡ (D.state disk.old).port_faults }
    ensures lawful { AreLawful group.now.number levels.new }
    ensures emptied { OnOk result (levels.new ≡ emptied levels.old group.now.others) }
    ensures raised { IfOk result (λ r. r ≡ raised levels.old group.now.leaf group.now.others) }
    ensures tally { IfOk result (λ r. IsTally group.now.others r) }
    ensures files { D.tells → OnOk result (IsGroup file index group.now levels.old first.now (D.state disk.old).files (D.state disk.new).files) }
    ensures reads { D.tells → (D.state disk.new).reads ≡ (D.state disk.old).reads }
    ensures writes { D.tells → OnOk result ((D.state disk.new).writes ≡ (D.state disk.old).writes + (1 + group.now.others)) }
    ensures passes { D.tells → DiskPasses (λ left. Unit {0}) (D.state disk.old) (D.state disk.new) }
    ensures moments { D.tells → DiskPasses (LeavesOutside file index (1 + group.now.others) (D.state disk.old)) (D.state disk.old) (D.state disk.new) }
{
    disk.write(file, index, first)?;
    write_nodes(disk, file, index + 1, levels, group)
}
