//! A list of references.
ghost use Rattle.std.specs.Prelude.{◌≡◌, ◌+◌, ◌*◌, ◌≤◌, ◌++◌, ◌↔◌, length, take, IsTrue};
ghost use Rattle.std.specs.List.{flat_map};
ghost use Rattle.ak_inner.specs.References.{AreRefs, ref_bytes};

use crate::reference::{Ref, SIZE, is_ref, put_ref};

/// Writes references from a place on, and gives their end.
pub fn put_refs(into: &mut [u8], at: usize, refs: &[Ref]) -> usize
    requires { at + 104 * length refs.now ≤ length into.old }
    ensures end { result ≡ at + 104 * length refs.now }
    ensures front { take result into.new ≡ take at into.old ++ flat_map ref_bytes refs.now }
{
    let mut end = at;
    for r in refs {
        put_ref(&mut into[end..end + SIZE], *r);
        end += SIZE;
    }
    end
}

/// Whether references keep the rules of a node of this level.
pub fn are_refs(refs: &[Ref], level: u8) -> bool
    requires above { 1 ≤ level }
    requires most { level ≤ 10 }
    ensures { IsTrue result ↔ AreRefs level refs.now }
{
    let mut end = 0;
    for r in refs {
        if r.summary.begin < end || !is_ref(*r, level) {
            return false;
        }
        end = r.summary.end;
    }
    true
}
