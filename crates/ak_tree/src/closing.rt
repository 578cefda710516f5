//! Closes leaves.
ghost use Rattle.std.specs.Prelude.{◌≡◌, ◌≢◌, ◌+◌, ◌<◌, ◌≤◌, ◌++◌, ◌∷◌, [], suc, ℕ, length, get_or, slice_set, true, None, Some, OnOk, OnErr, IfErr};
ghost use Rattle.ak_host.specs.Moments.{DiskPasses};
ghost use Rattle.ak_bytes.specs.declared.head.Head.{Head};
ghost use Rattle.ak_image.specs.Laid.{spot, rescue_in, series_in};
ghost use Rattle.ak_leaf.specs.Leaf.{SpellsLeaf};
ghost use Rattle.ak_levels.specs.Carries.{carry_of};
ghost use Rattle.ak_levels.specs.Closes.{leaf_ref};
ghost use Rattle.ak_levels.specs.Entries.{AreLawful, IsTally};
ghost use Rattle.ak_levels.specs.Pending.{AreLists, HasRoom, pending_at, with_pending, with_places};
ghost use Rattle.ak_base.specs.Points.{last_ts_from};
ghost use Rattle.ak_meta.specs.Contents.{names_of};
ghost use Rattle.ak_meta.specs.Leaves.{closed_in, leaves_at};
ghost use Rattle.ak_pool.specs.Frames.{frames_of, leaf_of, without};
ghost use Rattle.ak_tree.specs.Later.{KeepsOrigins};
ghost use Rattle.ak_tree.specs.Standing.{Holds, KeepsWorn, IsReady, HasPlaces, IsSameButPlaces, OpensLevel, levels_at, last_known};
ghost use Rattle.ak_tree.specs.Stops.{HasTreeStops, OnMemory, OnWorn, IsWornBy};
ghost use Rattle.ak_tree.specs.Storing.{LeavesView};
ghost use Rattle.ak_volumes.specs.Ordinals.{filled, newest_fill};
ghost use Rattle.ak_world.specs.Steps.{closed, closed_from, group_of, with_room};
ghost use Rattle.ak_world.specs.Worlds.{World};

use crate::forest::{Forest, last_of};
use crate::writing::{Group, write_group};
use ak_base::{Addr, Block, Stop};
use ak_bytes::Head;
use ak_host::Disk;
use ak_inner::Ref;
use ak_levels::{carry, refer};
use ak_pool::Frame;
use ak_volumes::Place;
use std::alloc::Global;

/// How many indexes an ordinal has in addresses.
const INDEXES: u64 = 1 << 32;

impl Forest {
    /// Where the next group is to stand.
    fn spot(&self) -> Addr
        ensures { result.0 ≡ spot self.now.meta.ordinals }
    {
        let volumes = self.meta.volumes();
        Addr(u64::from(volumes.q()) * INDEXES + u64::from(volumes.n()))
    }

    /// Sees that so many blocks have room in the newest ordinal, of which one begins where they have none.
    fn make_place<D: Disk>(&mut self, disk: &mut D, blocks: u32) -> Result<(), Stop>
        requires ready { IsReady D.tells self.old (D.state disk.old) }
        requires few { blocks ≤ 11 }
        ensures stops { HasTreeStops (D.state disk.old) (D.state disk.new) result }
        ensures no_memory { OnMemory result ⊥ }
        ensures ready { OnOk result (IsReady D.tells self.new (D.state disk.new)) }
        ensures names { names_of self.new.meta.series ≡ names_of self.old.meta.series }
        ensures limits { self.new.meta.limits ≡ self.old.meta.limits }
        ensures becomes { D.tells → OnOk result (KeepsOrigins (D.state disk.old) (D.state disk.new) self.old.meta self.new.meta) }
        ensures same { OnOk result (self.new ≡ record self.old { meta = record self.old.meta { ordinals = self.new.meta.ordinals }; check = self.new.check; since = self.new.since }) }
        ensures since { OnOk result (self.new.since ≤ self.old.since) }
        ensures room { OnOk result (newest_fill self.new.meta.ordinals + blocks ≤ self.new.meta.ordinals.blocks) }
        ensures reads { D.tells → (D.state disk.new).reads ≡ (D.state disk.old).reads }
        ensures worn { D.tells → (w : World) → Holds w self.old (D.state disk.old) → OnWorn result (IsWornBy (with_room w blocks)) }
        // The steps that came before it stand.
        ensures left { D.tells → (w : World) → Holds w self.old (D.state disk.old) → OnWorn result (λ stop. KeepsWorn (with_room w blocks) self.new) }
        ensures after { D.tells → (w : World) → Holds w self.old (D.state disk.old) → OnOk result (Holds (with_room w blocks) self.new (D.state disk.new)) }
        ensures passes { D.tells → DiskPasses (λ left. Unit {0}) (D.state disk.old) (D.state disk.new) }
        ensures moments { D.tells → (w : World) → Holds w self.old (D.state disk.old)
            → DiskPasses (LeavesView w (with_room w blocks)) (D.state disk.old) (D.state disk.new) }
    {
        match self.meta.volumes().place(blocks) {
            Place::Here(_) => Ok(()),
            Place::Switch => self.switch(disk),
            Place::Worn => Err(self.worn()),
        }
    }

    /// The block of the open leaf of a series in this frame, as it is to stand where the next group is.
    fn leaf_block(&self, series: u32, frame: Frame) -> Block
        requires known { series < length self.now.meta.series }
        requires framed { get_or self.now.frames series None ≡ Some frame }
        ensures { (head : Head) × SpellsLeaf result head (leaf_of self.now.pool.used frame.0) × (head.series ≡ series) × (head.number ≡ leaves_at self.now.meta.series series)
            × (head.addr.0 ≡ spot self.now.meta.ordinals) × (head.elder.0 ≡ rescue_in self.now.meta.series series) }
    {
        let known = &self.meta.series()[series as usize];
        let leaf = self.pool.leaf(frame);
        let head = Head {
            kind: Head::LEAF,
            level: 0,
            count: leaf.points().len() as u16,
            series,
            number: known.leaves,
            addr: self.spot(),
            elder: known.rescue[0],
            length: leaf.size(),
        };
        let mut block = [0; 4096];
        leaf.encode(&head, &mut block);
        block
    }

    /// The group of the open leaf of a series in this frame, which fills so many levels, as it is to stand where the next group is.
    fn group(&self, series: u32, frame: Frame, others: u32) -> Group
        requires known { series < length self.now.meta.series }
        requires framed { get_or self.now.frames series None ≡ Some frame }
        ensures series { result.series ≡ series }
        ensures number { result.number ≡ leaves_at self.now.meta.series series }
        ensures elders { result.elders ≡ (series_in self.now.meta.series series).rescue }
        ensures leaf { result.leaf ≡ leaf_ref (spot self.now.meta.ordinals) (leaf_of self.now.pool.used frame.0) }
        ensures tally { IsTally 0 result.leaf }
        ensures others { result.others ≡ others }
    {
        let known = &self.meta.series()[series as usize];
        Group {
            series,
            number: known.leaves,
            elders: known.rescue,
            leaf: refer(self.spot(), self.pool.leaf(frame).points()),
            others,
        }
    }

    /// Enters the open leaf of a series, whose group was written where the next one was to stand, and the reference that comes to the
    /// level above it.
    fn enter(&mut self, series: u32, frame: Frame, above: Ref, others: u32)
        requires known { series < length self.old.meta.series }
        requires framed { get_or self.old.frames series None ≡ Some frame }
        requires others { others ≡ carry_of (leaves_at self.old.meta.series series) }
        requires room { newest_fill self.old.meta.ordinals + (1 + others) ≤ self.old.meta.ordinals.blocks }
        requires place { HasRoom (levels_at self.old series) others }
        requires lawful { AreLawful (leaves_at self.old.meta.series series + 1) (with_pending (levels_at self.old series) others (pending_at (levels_at self.old series) others ++ above ∷ [])) }
        ensures meta { self.new.meta ≡ closed_in (record self.old.meta { ordinals = filled self.old.meta.ordinals (1 + others) }) series
            (last_ts_from 0 (leaf_of self.old.pool.used frame.0)) (spot self.old.meta.ordinals) }
        ensures pool { self.new.pool ≡ frames_of self.old.pool.count (without self.old.pool.used frame.0) }
        ensures frames { self.new.frames ≡ slice_set self.old.frames series None }
        ensures levels { self.new.levels ≡ slice_set self.old.levels series
            (with_pending (levels_at self.old series) others (pending_at (levels_at self.old series) others ++ above ∷ [])) }
        ensures valid { AreLists (levels_at self.new series) }
        ensures check { self.new.check ≡ self.old.check }
        ensures since { self.new.since ≡ self.old.since + 1 }
    {
        let at = self.spot();
        let last = last_of(self.pool.leaf(frame).points());
        self.meta.volumes_mut().fill(1 + others);
        self.meta.closed(series, last, at);
        self.levels.get_mut(series).push(others, above);
        self.pool.give(frame);
        self.frames[series as usize] = None;
        self.since += 1;
    }

    /// Sees that the levels which closing the open leaf of a series pushes to have places.
    fn reserve(&mut self, alloc: Global, series: u32) -> Result<(), Stop>
        requires known { series < length self.old.meta.series }
        ensures same { OnOk result (self.new ≡ record self.old {
          levels = slice_set self.old.levels series (with_places (levels_at self.old series) (carry_of (leaves_at self.old.meta.series series) + 1));
        }) }
        ensures places { OnOk result (HasPlaces self.new series) }
        ensures err { OnErr result (self.new ≡ self.old) }
        ensures why { IfErr result (λ stop. stop ≡ Stop.Memory) }
        ensures memory { OnMemory result (HasPlaces self.old series → ⊥) }
    {
        let number = self.meta.series()[series as usize].leaves;
        match self.levels.get_mut(series).reserve(alloc, number) {
            Ok(()) => Ok(()),
            Err(_) => Err(Stop::Memory),
        }
    }

    /// The same for all open leaves.
    fn reserve_all(&mut self, alloc: Global) -> Result<(), Stop>
        ensures same { IsSameButPlaces self.old self.new }
        ensures places { OnOk result ((n : ℕ) → get_or self.new.frames n None ≢ None → HasPlaces self.new n) }
        ensures why { IfErr result (λ stop. stop ≡ Stop.Memory) }
        ensures memory { OnMemory result ((n : ℕ) × (get_or self.old.frames n None ≢ None) × (HasPlaces self.old n → ⊥)) }
        ensures opens { OnMemory result ((n : ℕ) × (get_or self.old.frames n None ≢ None) × OpensLevel (leaves_at self.old.meta.series n)) }
    {
        for n in 0..self.meta.series().len() as u32 {
            if self.frames[n as usize].is_some() {
                self.reserve(alloc, n)?;
            }
        }
        Ok(())
    }

    /// Closes the open leaf of a series: its group is written where the next one is to stand, and entered. Memory is asked for before
    /// anything is done, and only where the leaf opens a level; where there is none, nothing has changed.
    pub fn close_leaf<D: Disk>(
        &mut self,
        alloc: Global,
        disk: &mut D,
        series: u32,
    ) -> Result<(), Stop>
        requires ready { IsReady D.tells self.old (D.state disk.old) }
        requires known { series < length self.old.meta.series }
        requires opened { get_or self.old.frames series None ≢ None }
        ensures stops { HasTreeStops (D.state disk.old) (D.state disk.new) result }
        ensures memory { OnMemory result (OpensLevel (leaves_at self.old.meta.series series)) }
        ensures placed { OnMemory result (HasPlaces self.old series → ⊥) }
        ensures kept { OnMemory result ((self.new ≡ self.old) × (disk.new ≡ disk.old)) }
        ensures levels { (n : ℕ) → n ≢ series → OnOk result (levels_at self.new n ≡ levels_at self.old n) }
        ensures counts { (n : ℕ) → n ≢ series → OnOk result (leaves_at self.new.meta.series n ≡ leaves_at self.old.meta.series n) }
        ensures ready { OnOk result (IsReady D.tells self.new (D.state disk.new)) }
        ensures names { names_of self.new.meta.series ≡ names_of self.old.meta.series }
        ensures limits { self.new.meta.limits ≡ self.old.meta.limits }
        ensures becomes { D.tells → OnOk result (KeepsOrigins (D.state disk.old) (D.state disk.new) self.old.meta self.new.meta) }
        ensures frames { OnOk result (self.new.frames ≡ slice_set self.old.frames series None) }
        ensures fewer { OnOk result (suc (length self.new.pool.used) ≡ length self.old.pool.used) }
        ensures last { (n : ℕ) → OnOk result (last_known self.new n ≡ last_known self.old n) }
        ensures reads { D.tells → (D.state disk.new).reads ≡ (D.state disk.old).reads }
        ensures worn { D.tells → (w : World) → Holds w self.old (D.state disk.old) → OnWorn result (IsWornBy (closed w series)) }
        // The steps that came before it stand.
        ensures left { D.tells → (w : World) → Holds w self.old (D.state disk.old) → OnWorn result (λ stop. KeepsWorn (closed w series) self.new) }
        ensures after { D.tells → (w : World) → Holds w self.old (D.state disk.old) → OnOk result (Holds (closed w series) self.new (D.state disk.new)) }
        ensures passes { D.tells → DiskPasses (λ left. Unit {0}) (D.state disk.old) (D.state disk.new) }
        ensures moments { D.tells → (w : World) → Holds w self.old (D.state disk.old)
            → DiskPasses (LeavesView w (closed w series)) (D.state disk.old) (D.state disk.new) }
    {
        let Some(frame) = self.frames[series as usize] else {
            return Ok(());
        };
        self.reserve(alloc, series)?;
        let others = carry(self.meta.series()[series as usize].leaves);
        self.make_place(disk, 1 + others)?;
        let block = self.leaf_block(series, frame);
        let group = self.group(series, frame, others);
        let file = self.newest_file();
        let index = self.meta.volumes().n();
        let levels = self.levels.get_mut(series);
        match write_group(disk, file, index, &block, levels, &group) {
            Ok(above) => {
                self.enter(series, frame, above, others);
                Ok(())
            }
            Err(_) => Err(Stop::Disk),
        }
    }

    /// Closes the open leaves of all series, by rising number. Memory is asked for before the first is closed; where there is none,
    /// nothing has changed but which levels have places.
    pub fn close_all<D: Disk>(&mut self, alloc: Global, disk: &mut D) -> Result<(), Stop>
        requires ready { IsReady D.tells self.old (D.state disk.old) }
        ensures stops { HasTreeStops (D.state disk.old) (D.state disk.new) result }
        ensures memory { OnMemory result ((n : ℕ) × (get_or self.old.frames n None ≢ None) × OpensLevel (leaves_at self.old.meta.series n)) }
        ensures kept { OnMemory result (IsSameButPlaces self.old self.new × (disk.new ≡ disk.old)) }
        ensures ready { OnOk result (IsReady D.tells self.new (D.state disk.new)) }
        ensures names { names_of self.new.meta.series ≡ names_of self.old.meta.series }
        ensures limits { self.new.meta.limits ≡ self.old.meta.limits }
        ensures becomes { D.tells → OnOk result (KeepsOrigins (D.state disk.old) (D.state disk.new) self.old.meta self.new.meta) }
        ensures none_open { OnOk result (self.new.pool.used ≡ []) }
        ensures reads { D.tells → (D.state disk.new).reads ≡ (D.state disk.old).reads }
        ensures worn { D.tells → (w : World) → Holds w self.old (D.state disk.old) → OnWorn result (IsWornBy (closed_from (length w.series) 0 w)) }
        // The steps that came before it stand.
        ensures left { D.tells → (w : World) → Holds w self.old (D.state disk.old) → OnWorn result (λ stop. KeepsWorn (closed_from (length w.series) 0 w) self.new) }
        ensures after { D.tells → (w : World) → Holds w self.old (D.state disk.old) → OnOk result (Holds (closed_from (length w.series) 0 w) self.new (D.state disk.new)) }
        ensures passes { D.tells → DiskPasses (λ left. Unit {0}) (D.state disk.old) (D.state disk.new) }
        ensures moments { D.tells → (w : World) → Holds w self.old (D.state disk.old)
            → DiskPasses (LeavesView w (closed_from (length w.series) 0 w)) (D.state disk.old) (D.state disk.new) }
    {
        self.reserve_all(alloc)?;
        for series in 0..self.meta.series().len() as u32 {
            if self.frames[series as usize].is_some() {
                self.close_leaf(alloc, disk, series)?;
            }
        }
        // No series has a frame, so none is used.
        let _ = &self.pool;
        Ok(())
    }
}
