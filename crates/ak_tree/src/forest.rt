//! The series of a store.
ghost use Rattle.std.specs.Prelude.{◌≡◌, ◌+◌, ◌-◌, ◌*◌, ◌<◌, ◌≤◌, ◌^◌, ◌++◌, ◌∷◌, [], ℕ, false, true, length, get_or, None, bytes_eq, IfOk, OnOk, OnErr, IfErr, MatchOption};
ghost use Rattle.std.specs.List.{list_any};
ghost use Rattle.ak_base.specs.Points.{last_ts_from};
ghost use Rattle.ak_meta.specs.Contents.{Content, IsMeta, IsCanonical, size_of, names_of};
ghost use Rattle.ak_image.specs.Blocks.{Seen};
ghost use Rattle.ak_image.specs.Planted.{AreAllLawful};
ghost use Rattle.ak_levels.specs.Entries.{AreLawful};
ghost use Rattle.ak_levels.specs.Pending.{no_lists};
ghost use Rattle.ak_meta.specs.Leaves.{with_series, leaves_at};
ghost use Rattle.ak_pool.specs.Frames.{frames_of};
ghost use Rattle.ak_tree.specs.Adding.{IsAddError};
ghost use Rattle.ak_tree.specs.Later.{Becomes};
ghost use Rattle.ak_tree.specs.Standing.{AreTrees, Keeps, levels_at, last_known, leaf_in};
ghost use Rattle.ak_world.specs.Valid.{AreOpenable};
ghost use Rattle.ak_world.specs.Puts.{with_name};
ghost use Rattle.ak_world.specs.Steps.{last_at, written_in};
ghost use Rattle.ak_world.specs.Views.{View};
ghost use Rattle.ak_world.specs.Worlds.{World, world_of};

use ak_base::{Point, Text};
use ak_checkpoint::Checkpoint;
use ak_leaf::LeafBuf;
use ak_levels::{Entry, Levels, LevelsList};
use ak_meta::Meta;
use ak_pool::{Frame, Pool};
use ak_volumes::Volumes;
use std::alloc::{AllocError, Global};
use std::marker::Model;

/// How many bytes a series takes in the record beside its name.
const SERIES_SIZE: u64 = 106;

/// How many bytes of a slot stand before the record.
const FRAME_SIZE: u64 = 16;

/// Why no series can be added.
#[derive(Clone, Copy, Debug, PartialEq, Eq, Drop)]
pub enum AddError {
    /// There is no memory.
    Memory,
    /// With it the record is longer than a slot: the bytes that it needs, and those that a slot has.
    Full { need: u64, room: u64 },
}

/// The series of a store: what a view says of them, and their open leaves.
#[derive(Drop)]
pub struct Forest {
    pub(crate) meta: Meta,
    pub(crate) pool: Pool,
    pub(crate) frames: Vec<Option<Frame>>,
    pub(crate) levels: LevelsList,
    pub(crate) check: Checkpoint,
    pub(crate) since: u64,
}

impl Model for Forest {
    ghost use Rattle.ak_tree.specs.Standing.{Trees, AreTrees, trees};

    ghost Value = { Trees };

    ghost view = { λ f. trees f.meta f.pool f.frames.items f.levels f.check f.since };

    ghost invariant = { λ f. AreTrees (trees f.meta f.pool f.frames.items f.levels f.check f.since) };
}

/// The time of the last of these points; 0 where there are none.
pub(crate) fn last_of(points: &[Point]) -> u64
    ensures { result ≡ last_ts_from 0 points.now }
{
    match points.last() {
        Some(point) => point.ts,
        None => 0,
    }
}

impl Forest {
    /// The forest of a view, with all its frames, and what waits of each series. No series has an open leaf.
    pub fn new(
        alloc: Global,
        meta: Meta,
        levels: LevelsList,
        check: Checkpoint,
    ) -> Result<Forest, AllocError>
        requires rules { IsMeta meta }
        requires room { 16 + size_of meta ≤ 4096 * meta.limits.slot }
        requires slot { check.gate.slot ≡ meta.limits.slot }
        requires lawful { AreAllLawful meta.series levels }
        ensures meta { IfOk result (λ f. f.meta ≡ meta) }
        ensures levels { IfOk result (λ f. f.levels ≡ levels) }
        ensures check { IfOk result (λ f. f.check ≡ check) }
        ensures since { IfOk result (λ f. f.since ≡ 0) }
        ensures pool { IfOk result (λ f. f.pool ≡ frames_of meta.limits.pool []) }
        ensures keeps { (view : View) → view.content ≡ meta → view.number ≡ check.number → AreOpenable meta.ordinals.lo meta.series view.kept
            → IfOk result (λ f. Keeps (world_of view) f) }
    {
        let count = meta.series().len();
        let mut frames = Vec::with_capacity(alloc, count)?;
        for _ in 0..count {
            frames.push(None)?;
        }
        let pool = Pool::new(alloc, meta.limits().pool)?;
        Ok(Forest {
            meta,
            pool,
            frames,
            levels,
            check,
            since: 0,
        })
    }

    /// Adds a series without leaves, whose name is canonical and new, and gives its number. Full comes exactly where the record
    /// would be longer than a slot. After an `Err` nothing has changed.
    pub fn add(&mut self, alloc: Global, name: &Text) -> Result<u32, AddError>
        requires canonical { IsCanonical name.now }
        requires new { list_any (λ n. bytes_eq name.now n) (names_of self.old.meta.series) ≡ false }
        ensures ok { OnOk result (self.new ≡ record self.old { meta = with_series self.old.meta name.now; frames = self.old.frames ++ None ∷ []; levels = self.old.levels ++ no_lists ∷ [] }) }
        ensures becomes { (seen : Seen) (found : Content) → Becomes seen found self.old.meta → OnOk result (Becomes seen found self.new.meta) }
        ensures number { IfOk result (λ n. n ≡ length self.old.meta.series) }
        ensures few { IfOk result (λ n. n < 2 ^ 32 - 1) }
        ensures room { OnOk result (16 + size_of (with_series self.old.meta name.now) ≤ 4096 * self.old.meta.limits.slot) }
        ensures err { OnErr result (self.new ≡ self.old) }
        ensures why { IfErr result (IsAddError (16 + size_of (with_series self.old.meta name.now)) (4096 * self.old.meta.limits.slot)) }
        ensures keeps { (w : World) → Keeps w self.old → OnOk result (Keeps (record w { series = with_name w.series name.now }) self.new) }
    {
        let need = self.need(SERIES_SIZE + name.as_str().len() as u64);
        let room = self.room();
        if need > room {
            return Err(AddError::Full { need, room });
        }
        if self.frames.try_reserve(1).is_err() || self.levels.push(alloc, Levels::new()).is_err() {
            return Err(AddError::Memory);
        }
        match self.meta.add(alloc, name) {
            Ok(number) => {
                self.frames.push(None).unwrap();
                Ok(number)
            }
            Err(_) => {
                self.levels.pop();
                Err(AddError::Memory)
            }
        }
    }

    /// How many bytes of a slot the record takes, with so many more.
    pub fn need(&self, extra: u64) -> u64
        requires { extra < 2 ^ 32 }
        ensures { result ≡ 16 + size_of self.now.meta + extra }
    {
        FRAME_SIZE + self.meta.size() + extra
    }

    /// How many bytes a slot has. The record is lawful and fits it.
    pub fn room(&self) -> u64
        ensures room { result ≡ 4096 * self.now.meta.limits.slot }
        ensures rules { AreTrees self.now }
    {
        self.check.room()
    }

    /// The time of the last point of a series. None where it never had a leaf and has no open one.
    pub fn last(&self, series: u32) -> Option<u64>
        requires { series < length self.now.meta.series }
        ensures known { result ≡ last_known self.now series }
        ensures last { (w : World) → Keeps w self.now → result ≡ last_at w.series series }
    {
        if let Some(frame) = self.frames[series as usize] {
            return Some(last_of(self.pool.leaf(frame).points()));
        }
        let known = &self.meta.series()[series as usize];
        if known.leaves == 0 {
            None
        } else {
            Some(known.last)
        }
    }

    /// The open leaf of a series.
    pub fn open_leaf(&self, series: u32) -> Option<&LeafBuf>
        requires { series < length self.now.meta.series }
        ensures leaf { MatchOption result (get_or self.now.frames series None ≡ None) (λ leaf. leaf.now ≡ leaf_in self.now.pool (get_or self.now.frames series None)) }
        ensures points { (w : World) → Keeps w self.now → MatchOption result (written_in w.series series ≡ []) (λ leaf. leaf.now ≡ written_in w.series series) }
    {
        match self.frames[series as usize] {
            Some(frame) => Some(self.pool.leaf(frame)),
            None => None,
        }
    }

    /// What a query sees of a series.
    pub fn entry(&self, series: u32) -> Entry<'_>
        requires { series < length self.now.meta.series }
        ensures series { result.series ≡ series }
        ensures leaves { result.leaves ≡ leaves_at self.now.meta.series series }
        ensures levels { result.levels.now ≡ levels_at self.now series }
        ensures tail { MatchOption result.tail (get_or self.now.frames series None ≡ None) (λ leaf. leaf.now ≡ leaf_in self.now.pool (get_or self.now.frames series None)) }
        ensures lawful { AreLawful (leaves_at self.now.meta.series series) (levels_at self.now series) }
    {
        Entry {
            series,
            leaves: self.meta.series()[series as usize].leaves,
            levels: &self.levels.as_slice()[series as usize],
            tail: self.open_leaf(series),
        }
    }

    /// The live ordinals.
    pub fn volumes(&self) -> &Volumes
        ensures { result.now ≡ self.now.meta.ordinals }
    {
        self.meta.volumes()
    }

    /// What a view would say now.
    pub fn meta(&self) -> &Meta
        ensures { result.now ≡ self.now.meta }
    {
        &self.meta
    }

    /// The scale of the values: their unit is 10^-scale.
    pub fn scale(&self) -> u32
        ensures is { result ≡ self.now.meta.limits.scale }
        ensures most { result ≤ 9 }
    {
        self.meta.limits().scale
    }

    /// How many series there are.
    pub fn count(&self) -> u32
        ensures { result ≡ length self.now.meta.series }
    {
        self.meta.series().len() as u32
    }
}
