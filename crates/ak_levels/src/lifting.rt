//! What the close of a leaf makes of what waits at one level.
ghost use Rattle.std.specs.Prelude.{◌≡◌, suc, ◌+◌, ◌^◌, ◌<◌, ◌≤◌, ◌++◌, ◌∷◌, [], length, slice_index_or};
ghost use Rattle.std.specs.List.{AllByRecursion};
ghost use Rattle.ak_inner.specs.References.{AreRefs};
ghost use Rattle.ak_summary.specs.Summaries.{IsBounded, IsOrderly};
ghost use Rattle.ak_levels.specs.Closes.{node_ref};
ghost use Rattle.ak_levels.specs.Entries.{IsTally};
ghost use Rattle.ak_levels.specs.Joins.{joined_refs};
ghost use Rattle.ak_levels.specs.Pending.{AreLists, HasRoom, pending_at, with_pending};

use crate::levels::Levels;
use ak_base::Addr;
use ak_inner::{Inner, Ref};
use ak_summary::{Fold, Summary};

/// Puts a reference behind those that wait at a level, moves all of them into a node, and gives the reference to this
/// node, which stands one address behind that of the last of them.
pub fn lift(levels: &mut Levels, level: u32, r: Ref, node: &mut Inner) -> Ref
    requires level { level ≤ 9 }
    requires room { HasRoom levels.old level }
    requires tallies { AllByRecursion (IsTally level) (pending_at levels.old level ++ r ∷ []) }
    requires addr { r.addr.0 + 1 < 2 ^ 64 }
    ensures taken { node.new ≡ pending_at levels.old level ++ r ∷ [] }
    ensures empty { levels.new ≡ with_pending levels.old level [] }
    ensures valid { AreLists levels.new }
    ensures addr { result.addr.0 ≡ r.addr.0 + 1 }
    ensures first_leaf { result.first_leaf ≡ (slice_index_or (pending_at levels.old level) 0 r).first_leaf }
    ensures summary { result.summary ≡ joined_refs (pending_at levels.old level ++ r ∷ []) }
    ensures tally { IsTally (suc level) result }
    ensures orderly { AreRefs (suc level) (pending_at levels.old level ++ r ∷ []) → IsOrderly result.summary }
{
    levels.push(level, r);
    levels.take(level, node);
    let refs = node.refs();
    Ref {
        addr: Addr(r.addr.0 + 1),
        first_leaf: refs[0].first_leaf,
        summary: joined_summary(refs),
    }
}

/// The reference to a node at an address, by its references.
pub fn refer_node(at: Addr, children: &[Ref]) -> Ref
    requires some { 1 ≤ length children.now }
    requires few { (joined_refs children.now).count < 2 ^ 63 }
    requires bounded { AllByRecursion (λ r. IsBounded r.summary) children.now }
    ensures { result ≡ node_ref at.0 children.now }
{
    Ref {
        addr: at,
        first_leaf: children[0].first_leaf,
        summary: joined_summary(children),
    }
}

/// The join of the summaries of references that aren't too many points.
fn joined_summary(refs: &[Ref]) -> Summary
    requires some { 1 ≤ length refs.now }
    requires few { (joined_refs refs.now).count < 2 ^ 63 }
    requires bounded { AllByRecursion (λ r. IsBounded r.summary) refs.now }
    ensures { result ≡ joined_refs refs.now }
{
    let mut whole = refs[0].summary;
    for r in &refs[1..] {
        whole = whole.join(r.summary);
    }
    whole
}
