//! What a view holds.
ghost use Rattle.std.specs.Prelude.{◌≡◌, ◌+◌, ◌*◌, ◌<◌, ◌≤◌, ◌^◌, List, ℕ, length, map, sum, bytes_eq, false, IfOk, IfErr, OnOk, OnErr};
ghost use Rattle.std.specs.List.{list_any};
ghost use Rattle.std.specs.Borrow.{sem};
ghost use Rattle.ak_base.specs.Ranges.{AreLimits};
ghost use Rattle.ak_levels.specs.Carries.{carry_of};
ghost use Rattle.ak_meta.specs.Contents.{Content, content, meta_bytes, size_of, IsCanonical, IsMeta, Spells, names_of, leaves_of, room_of};
ghost use Rattle.ak_meta.specs.Leaves.{first_content, with_series, closed_in, leaves_at, IsEntered};
ghost use Rattle.ak_meta.specs.Lending.{LendsVolumes};
ghost use Rattle.ak_meta.specs.declared.error.MetaError.TheVariants.{Bad};

use crate::entering::close_leaf;
use crate::error::MetaError;
use crate::putting::{put_all, put_fills, put_front};
use crate::reading::read_meta;
use ak_base::{Addr, Limits, Text};
use ak_volumes::Volumes;
use std::alloc::{AllocError, Global};
use std::marker::Model;

/// The levels that a series has: that of its leaves and ten above.
pub const LEVELS: usize = 11;

/// What is known of a series.
#[derive(Drop)]
pub struct SeriesMeta {
    /// Its canonical name.
    pub name: Text,
    /// How many leaves it has.
    pub leaves: u64,
    /// The time of the last point in them; 0 where there are none.
    pub last: u64,
    /// The address of the newest node of each level, that of the leaves first; none where there is no such node.
    pub rescue: [Addr; 11],
}

/// What a view holds: the limits, the live ordinals, and what is known of each series.
#[derive(Drop)]
pub struct Meta {
    limits: Limits,
    volumes: Volumes,
    series: Vec<SeriesMeta>,
    /// How many bytes the spellings of the series have.
    bytes: u64,
}

impl Model for Meta {
    ghost use Rattle.std.specs.Prelude.{◌<◌, ◌^◌, ◌≡◌, ◌+◌, sum, map, length};
    ghost use Rattle.ak_base.specs.Ranges.{AreLimits};
    ghost use Rattle.ak_meta.specs.Contents.{Content, content, size_of};

    ghost Value = { Content };

    ghost view = { λ m. content m.limits m.volumes m.series.items };

    ghost invariant = { λ m. AreLimits m.limits × (size_of (content m.limits m.volumes m.series.items) < 2 ^ 64)
        × (m.bytes ≡ sum (map (λ s. 106 + length s.name) m.series.items)) };
}

impl Meta {
    /// The content of the first view: ordinal 0 is live and empty, and there is no series.
    pub fn new(alloc: Global, limits: Limits) -> Result<Meta, AllocError>
        requires { AreLimits limits }
        ensures { IfOk result (λ m. m ≡ first_content limits) }
    {
        Ok(Meta {
            limits,
            volumes: Volumes::new(alloc, limits.volumes, limits.blocks, 0, &[0])?,
            series: Vec::new(alloc),
            bytes: 0,
        })
    }

    /// The content of these parts.
    pub(crate) fn from_parts(limits: Limits, volumes: Volumes, series: Vec<SeriesMeta>) -> Meta
        requires limits { AreLimits limits }
        requires size { size_of (content limits volumes series.items) < 2 ^ 64 }
        ensures { result ≡ content limits volumes series.items }
    {
        let bytes = size_of_all(series.as_slice());
        Meta {
            limits,
            volumes,
            series,
            bytes,
        }
    }

    /// The content that the bytes spell. `Bad` comes only where they are no spelling.
    pub fn decode(alloc: Global, from: &[u8]) -> Result<Meta, MetaError>
        ensures ok { IfOk result (λ m. Spells from.now m) }
        ensures bad { IfErr result (λ error. error ≡ Bad → (c : Content) → Spells from.now c → ⊥) }
    {
        read_meta(alloc, from)
    }

    /// Writes the spelling over the bytes.
    pub fn encode(&self, into: &mut [u8])
        requires rules { IsMeta self.now }
        requires size { length into.old ≡ size_of self.now }
        ensures { into.new ≡ meta_bytes self.now }
    {
        put_front(
            into,
            &self.limits,
            self.volumes.lo(),
            self.volumes.fills().len() as u32,
            self.series.len() as u32,
        );
        let end = put_fills(into, self.limits.volumes, self.volumes.fills());
        let _ = put_all(into, end, self.series.as_slice());
    }

    /// How many bytes the spelling has.
    pub fn size(&self) -> u64
        ensures { result ≡ size_of self.now }
    {
        40 + 4 * u64::from(self.limits.volumes) + self.bytes
    }

    /// Adds a series without leaves, whose name is canonical and new, and gives its number, which is how many there were.
    /// The spelling with it has to fit a slot, whose blocks have 4096 bytes each. After an `Err` the content is as it was.
    pub fn add(&mut self, alloc: Global, name: &Text) -> Result<u32, AllocError>
        requires canonical { IsCanonical name.now }
        requires new { list_any (λ n. bytes_eq name.now n) (names_of self.old.series) ≡ false }
        requires room { size_of (with_series self.old name.now) ≤ 4096 * self.old.limits.slot }
        ensures ok { OnOk result (self.new ≡ with_series self.old name.now) }
        ensures number { IfOk result (λ n. n ≡ length self.old.series) }
        ensures err { OnErr result (self.new ≡ self.old) }
    {
        let number = self.series.len();
        let mut own = Text::new(alloc);
        own.push(alloc, name.as_str())?;
        self.series.push(SeriesMeta {
            name: own,
            leaves: 0,
            last: 0,
            rescue: [Addr(u64::MAX); LEVELS],
        })?;
        self.bytes += 106 + name.as_str().len() as u64;
        Ok(number as u32)
    }

    /// What is known of each series, by number.
    pub fn series(&self) -> &[SeriesMeta]
        ensures { result.now ≡ self.now.series }
    {
        self.series.as_slice()
    }

    /// The live ordinals.
    pub fn volumes(&self) -> &Volumes
        ensures { result.now ≡ self.now.ordinals }
    {
        &self.volumes
    }

    /// The live ordinals, to be changed. All else stays.
    pub fn volumes_mut(&mut self) -> &mut Volumes
        ensures value { result.now ≡ self.old.ordinals }
        ensures* writes_back { sem 𝓛 (LendsVolumes self.entry result) }
    {
        &mut self.volumes
    }

    /// The limits.
    pub fn limits(&self) -> Limits
        ensures { result ≡ self.now.limits }
    {
        self.limits
    }

    /// Enters a leaf of a series: its last time, and its group, which stands at an address. The levels that get a new
    /// node get their address of the group as rescue address.
    pub fn closed(&mut self, series: u32, last: u64, at: Addr)
        requires known { series < length self.old.series }
        requires entered { IsEntered self.old.ordinals at.0 (carry_of (leaves_at self.old.series series)) }
        requires room { leaves_of self.old.series < room_of self.old.ordinals }
        ensures { self.new ≡ closed_in self.old series last at.0 }
    {
        let _ = self.volumes.fills();
        close_leaf(&mut self.series[series as usize], last, at);
    }
}

/// How many bytes the spellings of series have.
fn size_of_all(series: &[SeriesMeta]) -> u64
    requires { sum (map (λ s. 106 + length s.name) series.now) < 2 ^ 64 }
    ensures { result ≡ sum (map (λ s. 106 + length s.name) series.now) }
{
    let mut size: u64 = 0;
    for s in series {
        size += 106 + s.name.as_str().len() as u64;
    }
    size
}
