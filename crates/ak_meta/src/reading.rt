//! Reads the spelling.
ghost use Rattle.std.specs.Prelude.{◌≡◌, ◌+◌, ◌-◌, ◌*◌, ◌<◌, ◌≤◌, ◌^◌, ◌↔◌, ◌++◌, ◌∷◌, [], List, ℕ, length, take, map, sum, replicate, bytes_eq, IfOk, IfErr, IsTrue, OnOk};
ghost use Rattle.std.specs.List.{flat_map, list_any, AllByRecursion, IsDistinct};
ghost use Rattle.byteorder.specs.Endian.{little_bytes};
ghost use Rattle.ak_base.specs.Ranges.{AreLimits};
ghost use Rattle.ak_base.specs.declared.limits.Limits.{Limits};
ghost use Rattle.ak_volumes.specs.Ordinals.{Ordinals, ordinals, AreOrdinals};
ghost use Rattle.ak_meta.specs.Contents.{Content, front_bytes, limits_bytes, fills_bytes, series_bytes, rescue_bytes, rescue_at, names_of, leaves_of, room_of, IsCanonical, IsSeries, Spells};
ghost use Rattle.ak_meta.specs.declared.meta.SeriesMeta.{SeriesMeta};
ghost use Rattle.ak_meta.specs.declared.error.MetaError.TheVariants.{Bad};

use crate::error::MetaError;
use crate::meta::{LEVELS, Meta, SeriesMeta};
use crate::putting::{FORMAT, FRONT};
use ak_base::{Addr, Limits, Text};
use ak_bytes::{get_u16, get_u32, get_u64, is_zero};
use ak_names::{Index, NameError, read_names};
use ak_volumes::Volumes;
use std::alloc::{AllocError, Global};

/// The content that the bytes spell. `Bad` comes only where they are no spelling.
pub fn read_meta(alloc: Global, from: &[u8]) -> Result<Meta, MetaError>
    ensures ok { IfOk result (λ m. Spells from.now m) }
    ensures bad { IfErr result (λ error. error ≡ Bad → (c : Content) → Spells from.now c → ⊥) }
{
    let front = read_front(from)?;
    let volumes = read_volumes(alloc, from, &front)?;
    let start = FRONT + 4 * front.limits.volumes as usize;
    let series = read_all(alloc, from, start, front.series)?;
    if !has_room(&volumes, front.limits.blocks, series.as_slice()) {
        return Err(MetaError::Bad);
    }
    Ok(Meta::from_parts(front.limits, volumes, series))
}

/// What stands before the fills.
#[derive(Clone, Copy, Drop)]
struct Front {
    limits: Limits,
    lo: u32,
    live: u32,
    series: u32,
}

/// What the first 40 bytes spell. `Bad` comes only where they spell no limits in their ranges and three numbers.
fn read_front(from: &[u8]) -> Result<Front, MetaError>
    ensures limits { IfOk result (λ front. AreLimits front.limits) }
    ensures bytes { IfOk result (λ front. (40 ≤ length from.now) × (take 40 from.now ≡ front_bytes front.limits front.lo front.live front.series)) }
    ensures bad { IfErr result (λ error. (limits : Limits) (lo live series : ℕ) → AreLimits limits → take 40 from.now ≡ front_bytes limits lo live series → ⊥) }
{
    if from.len() < FRONT {
        return Err(MetaError::Bad);
    }
    let front = get_front(from);
    if get_u32(from, 0) != FORMAT || !are_limits(&front.limits) {
        return Err(MetaError::Bad);
    }
    Ok(front)
}

/// What stands behind the format.
fn get_front(from: &[u8]) -> Front
    requires { 40 ≤ length from.now }
    ensures { take 40 from.now ≡ take 4 from.now ++ limits_bytes result.limits ++ little_bytes 4 result.lo ++ little_bytes 4 result.live ++ little_bytes 4 result.series }
{
    Front {
        limits: get_limits(from),
        lo: get_u32(from, 28),
        live: get_u32(from, 32),
        series: get_u32(from, 36),
    }
}

/// The six numbers behind the format.
fn get_limits(from: &[u8]) -> Limits
    requires { 28 ≤ length from.now }
    ensures { take 28 from.now ≡ take 4 from.now ++ limits_bytes result }
{
    Limits {
        volumes: get_u32(from, 4),
        blocks: get_u32(from, 8),
        slot: get_u32(from, 12),
        pool: get_u32(from, 16),
        every: get_u32(from, 20),
        scale: get_u32(from, 24),
    }
}

/// Whether the limits are in their ranges.
fn are_limits(limits: &Limits) -> bool
    ensures { IsTrue result ↔ AreLimits limits.now }
{
    is_within(limits.volumes, 2, 64)
        && is_within(limits.blocks, 16, 1_048_576)
        && is_within(limits.slot, 1, 4096)
        && is_within(limits.pool, 1, 4096)
        && is_within(limits.every, 1, 65_536)
        && limits.scale <= 9
}

/// Whether a number is in a range.
fn is_within(number: u32, least: u32, most: u32) -> bool
    ensures { IsTrue result ↔ ((least ≤ number) × (number ≤ most)) }
{
    least <= number && number <= most
}

/// The live ordinals that the bytes behind the front spell. `Bad` comes only where they spell none that keep the rules.
fn read_volumes(alloc: Global, from: &[u8], front: &Front) -> Result<Volumes, MetaError>
    requires limits { AreLimits front.now.limits }
    requires front { 40 ≤ length from.now }
    ensures ok { IfOk result (λ v. AreOrdinals v × (v ≡ ordinals front.now.limits.volumes front.now.limits.blocks front.now.lo v.fills) × (length v.fills ≡ front.now.live) × (0 < v.lo → length v.fills ≡ front.now.limits.volumes)) }
    ensures bytes { IfOk result (λ v. (40 + 4 * front.now.limits.volumes ≤ length from.now) × (take (40 + 4 * front.now.limits.volumes) from.now ≡ take 40 from.now ++ fills_bytes front.now.limits.volumes v.fills)) }
    ensures bad { IfErr result (λ error. error ≡ Bad → (fills : List ℕ) → AreOrdinals (ordinals front.now.limits.volumes front.now.limits.blocks front.now.lo fills) → length fills ≡ front.now.live
        → (0 < front.now.lo → length fills ≡ front.now.limits.volumes) → 40 + 4 * front.now.limits.volumes ≤ length from.now → take (40 + 4 * front.now.limits.volumes) from.now ≡ take 40 from.now ++ fills_bytes front.now.limits.volumes fills → ⊥) }
{
    let end = FRONT + 4 * front.limits.volumes as usize;
    if !is_run(front) || from.len() < end {
        return Err(MetaError::Bad);
    }
    let live = front.live as usize;
    let fills = get_fills(alloc, from, live)?;
    if !are_fills(fills.as_slice(), front.limits.blocks) || !is_zero(&from[FRONT + 4 * live..end]) {
        return Err(MetaError::Bad);
    }
    let volumes = Volumes::new(
        alloc,
        front.limits.volumes,
        front.limits.blocks,
        front.lo,
        fills.as_slice(),
    )?;
    Ok(volumes)
}

/// Whether so many ordinals from the oldest on can be live.
fn is_run(front: &Front) -> bool
    ensures { IsTrue result ↔ ((1 ≤ front.now.live) × (front.now.live ≤ front.now.limits.volumes) × (0 < front.now.lo → front.now.live ≡ front.now.limits.volumes) × (front.now.lo + front.now.live ≤ 2 ^ 32)) }
{
    is_within(front.live, 1, front.limits.volumes)
        && (front.lo == 0 || front.live == front.limits.volumes)
        && u64::from(front.lo) + u64::from(front.live) <= 1 << 32
}

/// So many fills behind the front.
fn get_fills(alloc: Global, from: &[u8], count: usize) -> Result<Vec<u32>, AllocError>
    requires { 40 + 4 * count ≤ length from.now }
    ensures bytes { IfOk result (λ fills. (length fills.items ≡ count) × (take (40 + 4 * count) from.now ≡ take 40 from.now ++ flat_map (little_bytes 4) fills.items)) }
    ensures fits { IfOk result (λ fills. AllByRecursion (λ fill. fill < 2 ^ 32) fills.items) }
{
    let mut fills = Vec::new(alloc);
    for index in 0..count {
        fills.push(get_u32(from, FRONT + 4 * index))?;
    }
    Ok(fills)
}

/// Whether no fill is over the blocks of a volume.
fn are_fills(fills: &[u32], blocks: u32) -> bool
    ensures { IsTrue result ↔ AllByRecursion (λ fill. fill ≤ blocks) fills.now }
{
    fills.iter().all(|fill| *fill <= blocks)
}

/// Whether each leaf has a block.
fn has_room(volumes: &Volumes, blocks: u32, series: &[SeriesMeta]) -> bool
    requires each { AllByRecursion IsSeries series.now }
    requires blocks { volumes.now.blocks ≡ blocks }
    ensures { IsTrue result ↔ (leaves_of series.now ≤ room_of volumes.now) }
{
    let mut left = u64::from(volumes.q()) * u64::from(blocks) + u64::from(volumes.n());
    for s in series {
        if left < s.leaves {
            return false;
        }
        left -= s.leaves;
    }
    true
}

/// So many series from a place to the end, of which no two have one name. `Bad` comes only where no such series are
/// spelled there.
fn read_all(
    alloc: Global,
    from: &[u8],
    start: usize,
    count: u32,
) -> Result<Vec<SeriesMeta>, MetaError>
    requires { start ≤ length from.now }
    ensures rules { IfOk result (λ all. AllByRecursion IsSeries all.items × IsDistinct bytes_eq (names_of all.items) × (length all.items ≡ count)) }
    ensures bytes { IfOk result (λ all. from.now ≡ take start from.now ++ flat_map series_bytes all.items) }
    ensures bad { IfErr result (λ error. error ≡ Bad → (all : List SeriesMeta) → AllByRecursion IsSeries all → IsDistinct bytes_eq (names_of all) → length all ≡ count → from.now ≡ take start from.now ++ flat_map series_bytes all → ⊥) }
{
    let mut names = Index::new(alloc)?;
    let mut all = Vec::new(alloc);
    let mut at = start;
    for _ in 0..count {
        let (series, end) = read_series(alloc, from, at)?;
        if has_name(&names, &series.name) {
            return Err(MetaError::Bad);
        }
        let _ = names.add(alloc, &series.name)?;
        keep(&mut all, series)?;
        at = end;
    }
    if at < from.len() {
        return Err(MetaError::Bad);
    }
    Ok(all)
}

/// Whether a name is among these.
#[tactic(auto, using(crate::proofs::Apart::some_passes))]
fn has_name(names: &Index, name: &Text) -> bool
    ensures { result ≡ list_any (λ n. bytes_eq name.now n) names.now }
{
    names.id(name).is_some()
}

/// Appends a series. After an `Err` the list is as it was.
fn keep(all: &mut Vec<SeriesMeta>, series: SeriesMeta) -> Result<(), AllocError>
    ensures { OnOk result (all.new.items ≡ all.old.items ++ series ∷ []) }
{
    all.push(series)?;
    Ok(())
}

/// A series at a place, and its end. `Bad` comes only where no series is spelled there.
fn read_series(alloc: Global, from: &[u8], at: usize) -> Result<(SeriesMeta, usize), MetaError>
    requires { at ≤ length from.now }
    ensures ok { IfOk result (λ found. IsSeries found.0 × (found.1 ≤ length from.now) × (take found.1 from.now ≡ take at from.now ++ series_bytes found.0)) }
    ensures bad { IfErr result (λ error. error ≡ Bad → (series : SeriesMeta) (rest : List ℕ) → IsSeries series → from.now ≡ take at from.now ++ series_bytes series ++ rest → ⊥) }
{
    let left = from.len() - at;
    if left < 2 {
        return Err(MetaError::Bad);
    }
    let long = get_u16(from, at) as usize;
    if left < 106 + long {
        return Err(MetaError::Bad);
    }
    let middle = at + 2 + long;
    let series = SeriesMeta {
        name: read_name(alloc, &from[at + 2..middle])?,
        leaves: get_u64(from, middle),
        last: get_u64(from, middle + 8),
        rescue: get_rescue(from, middle + 16),
    };
    if !is_series(&series) {
        return Err(MetaError::Bad);
    }
    Ok((series, middle + 104))
}

/// The name that the bytes are. `Bad` comes only where they are no canonical one.
pub fn read_name(alloc: Global, bytes: &[u8]) -> Result<Text, MetaError>
    ensures ok { IfOk result (λ name. (name ≡ bytes.now) × IsCanonical bytes.now) }
    ensures bad { IfErr result (λ error. error ≡ Bad → IsCanonical bytes.now → ⊥) }
{
    let names = match read_names(alloc, bytes) {
        Ok(names) => names,
        Err(NameError::Bad) => return Err(MetaError::Bad),
        Err(NameError::Memory) => return Err(MetaError::Memory),
    };
    let [name] = names.as_slice() else {
        return Err(MetaError::Bad);
    };
    if name.as_str().as_bytes() != bytes {
        return Err(MetaError::Bad);
    }
    let mut own = Text::new(alloc);
    own.push(alloc, name.as_str())?;
    Ok(own)
}

/// The rescue addresses at a place.
fn get_rescue(from: &[u8], at: usize) -> [Addr; 11]
    requires { at + 88 ≤ length from.now }
    ensures bytes { take (at + 88) from.now ≡ take at from.now ++ rescue_bytes result }
    ensures fits { AllByRecursion (λ a. a.0 < 2 ^ 64) result }
{
    let mut rescue = [Addr(0); LEVELS];
    for level in 0..LEVELS {
        rescue[level] = Addr(get_u64(from, at + 8 * level));
    }
    rescue
}

/// Whether a series without a leaf has no last time, and a level has no rescue address exactly where there are too few
/// leaves for a node of it.
fn is_series(series: &SeriesMeta) -> bool
    ensures { IsTrue result ↔ ((series.now.leaves ≡ 0 → series.now.last ≡ 0) × ((level : ℕ) → level ≤ 10 → (rescue_at series.now.rescue level ≡ 2 ^ 64 - 1) ↔ (series.now.leaves < 32 ^ level))) }
{
    (series.leaves != 0 || series.last == 0) && are_rescues(&series.rescue, series.leaves)
}

/// Whether a level has no rescue address exactly where there are too few leaves for a node of it.
fn are_rescues(rescue: &[Addr; 11], leaves: u64) -> bool
    ensures { IsTrue result ↔ ((level : ℕ) → level ≤ 10 → (rescue_at rescue.now level ≡ 2 ^ 64 - 1) ↔ (leaves < 32 ^ level)) }
{
    let mut least: u64 = 1;
    for level in 0..LEVELS {
        if !is_rescue(rescue[level], leaves, least) {
            return false;
        }
        least *= 32;
    }
    true
}

/// Whether an address is none exactly where there are fewer leaves than this.
fn is_rescue(address: Addr, leaves: u64, least: u64) -> bool
    ensures { IsTrue result ↔ ((address.0 ≡ 2 ^ 64 - 1) ↔ (leaves < least)) }
{
    (address.0 == u64::MAX) == (leaves < least)
}
