//! Puts that stand whole in a piece, each of one point of a known series.
ghost use Rattle.std.specs.Prelude.{ℕ, List, ◌≡◌, ◌≤◌, ◌<◌, ◌↔◌, ◌∷◌, [], length, Some, IfSome, IsTrue, OnOk, IfErr, bytes_eq};
ghost use Rattle.std.specs.List.{AllByRecursion, IsDistinct};
ghost use Rattle.ak_host.specs.Moments.{Passes, mark_now};
ghost use Rattle.ak_meta.specs.Contents.{IsCanonical, names_of};
ghost use Rattle.ak_run.specs.declared.asked.Asked.{Asked};
ghost use Rattle.ak_run.specs.Contents.{after};
ghost use Rattle.ak_run.specs.Replies.{reply_to};
ghost use Rattle.ak_node.specs.Calls.{HasStops, IsSilent, IsSoundStop, Told};
ghost use Rattle.ak_node.specs.Names.{place_in};
ghost use Rattle.ak_node.specs.Pieces.{InAnswer, LeavesInAnswer};
ghost use Rattle.ak_node.specs.Standing.{IsReady, Holds};
ghost use Rattle.ak_node.specs.Taken.{NamesOne, IsInTime, IsKnownPut};
ghost use Rattle.ak_tree.specs.Later.{KeepsOrigins};
ghost use Rattle.ak_tree.specs.Stops.{OnWorn, IsWornBy};
ghost use Rattle.ak_world.specs.Worlds.{World as Store};

use crate::keeper::Keeper;
use ak_base::{Point, Stop};
use ak_host::Host;
use ak_names::Index;
use ak_resp::Resp;
use ak_run::ask_known;
use ak_tree::Forest;
use std::alloc::Global;

/// A put of one point of a known series.
#[derive(Clone, Copy, Drop)]
pub struct KnownPut {
    /// The number of the series.
    pub series: u32,
    pub point: Point,
    /// How many bytes spell the put.
    pub length: usize,
}

/// The number of the one name that was kept with a text.
fn kept_one(index: &Index, text: &[u8]) -> Option<u32>
    requires { IsDistinct bytes_eq index.now }
    ensures { IfSome result (λ series. NamesOne index.now text.now series) }
{
    match index.known(text)? {
        [series] => Some(*series),
        _ => None,
    }
}

/// The number of the one series that a text names, where the text is its name, or was read before.
fn named_one(index: &Index, text: &[u8]) -> Option<u32>
    requires canonical { AllByRecursion IsCanonical index.now }
    requires apart { IsDistinct bytes_eq index.now }
    ensures { IfSome result (λ series. NamesOne index.now text.now series) }
{
    match index.id_of(text) {
        Some(series) => Some(series),
        None => kept_one(index, text),
    }
}

/// Whether a series takes points of this time.
fn takes(forest: &Forest, series: u32, time: u64) -> bool
    requires { series < length forest.now.meta.series }
    ensures { IsTrue result ↔ IsInTime forest.now series time }
{
    match forest.last(series) {
        Some(last) => last <= time,
        None => true,
    }
}

/// The put that stands whole in the piece from `at` on, where it is one point of a known series that takes it. None says nothing.
pub fn known_put(keeper: &Keeper, reader: &Resp, piece: &[u8], at: usize) -> Option<KnownPut>
    requires at { at ≤ length piece.now }
    requires index { keeper.now.names ≡ names_of keeper.now.forest.meta.series }
    ensures { IfSome result (λ known. IsKnownPut keeper.now reader.now piece.now at known) }
{
    // The record is lawful: its names are canonical, and no two are alike.
    keeper.forest.room();
    let put = reader.whole(piece, at)?;
    let series = named_one(&keeper.names, put.name.text)?;
    let point = ask_known(&put, keeper.forest.scale())?;
    if !takes(&keeper.forest, series, point.ts) {
        return None;
    }
    Some(KnownPut {
        series,
        point,
        length: put.length,
    })
}

/// Accepts a point of a known series that takes it, as a put of it asks for. Nothing is told.
pub fn accept_known<H: Host>(
    alloc: Global,
    host: &mut H,
    keeper: &mut Keeper,
    series: u32,
    point: Point,
) -> Result<(), Stop>
    requires ready { IsReady H.tells keeper.old (H.state host.old) }
    requires known { series < length keeper.old.names }
    requires in_time { IsInTime keeper.old.forest series point.ts }
    ensures stops { HasStops H.tells keeper.old.forest.meta (H.state host.old) (H.state host.new) result }
    ensures becomes { H.tells → OnOk result (KeepsOrigins (H.state host.old) (H.state host.new) keeper.old.forest.meta keeper.new.forest.meta) }
    ensures silent { H.tells → IsSilent (H.state host.old) (H.state host.new) }
    ensures turns { H.tells → (mark_now (H.state host.new)).turns ≡ (mark_now (H.state host.old)).turns }
    ensures sound { IfErr result IsSoundStop }
    ensures ready { OnOk result (IsReady H.tells keeper.new (H.state host.new)) }
    ensures reads { H.tells → (H.state host.new).reads ≡ (H.state host.old).reads }
    ensures worn { H.tells → (content : Store) (name : List ℕ) → Holds content keeper.old (H.state host.old) → place_in keeper.old.names name ≡ Some series
        → OnWorn result (IsWornBy (after content (Asked.Points (name ∷ []) point.ts (point.value ∷ [])))) }
    ensures after { H.tells → (content : Store) (name : List ℕ) → Holds content keeper.old (H.state host.old) → place_in keeper.old.names name ≡ Some series
        → OnOk result (Holds (after content (Asked.Points (name ∷ []) point.ts (point.value ∷ []))) keeper.new (H.state host.new)) }
    ensures told { H.tells → (content : Store) (name : List ℕ) (port : ℕ) → Holds content keeper.old (H.state host.old) → place_in keeper.old.names name ≡ Some series
        → OnOk result (Told (mark_now (H.state host.old)) (mark_now (H.state host.new)) port (reply_to port content (Asked.Points (name ∷ []) point.ts (point.value ∷ []))).bytes) }
    ensures moments { H.tells → (content : Store) (name : List ℕ) (port : ℕ) → Holds content keeper.old (H.state host.old) → place_in keeper.old.names name ≡ Some series
        → Passes (InAnswer port content (Asked.Points (name ∷ []) point.ts (point.value ∷ [])) (mark_now (H.state host.old)))
        (LeavesInAnswer port content (Asked.Points (name ∷ []) point.ts (point.value ∷ [])) (mark_now (H.state host.old))) (H.state host.old) (H.state host.new) }
{
    // The record fits its slot, so that nothing is refused.
    keeper.forest.room();
    keeper.forest.append(alloc, host, series, point)
}
