//! The references of one inner node.
ghost use Rattle.std.specs.Prelude.{◌≡◌, ◌+◌, ◌*◌, ◌<◌, ◌≤◌, ◌++◌, ◌∷◌, ◌↔◌, [], List, ℕ, length, take, IfSome, IfNone, IsTrue, IsFalse};
ghost use Rattle.std.specs.List.{AllByRecursion, flat_map};
ghost use Rattle.ak_bytes.specs.Head.{IsHead, IsInnerHead, head_bytes};
ghost use Rattle.ak_bytes.specs.declared.head.Head.{Head};
ghost use Rattle.ak_inner.specs.Nodes.{IsHeadOf, SpellsInner, inner_bytes};
ghost use Rattle.ak_inner.specs.References.{AreRefs, FitsRef, ref_bytes};
ghost use Rattle.ak_inner.specs.declared.reference.Ref.{Ref};

use crate::reference::{Ref, SIZE, get_ref};
use crate::references::{are_refs, put_refs};
use ak_base::{Addr, Block};
use ak_bytes::{Head, clear, get_head, is_zero, put_head};
use ak_summary::Summary;
use std::marker::Model;

/// The most references of a node.
const MOST: usize = 32;

/// Where the references begin in a block.
const BODY: usize = 64;

/// What stands in an unused place.
const BLANK: Ref = Ref {
    addr: Addr(u64::MAX),
    first_leaf: Addr(u64::MAX),
    summary: Summary {
        count: 0,
        begin: 0,
        end: 0,
        first: 0,
        last: 0,
        min: 0,
        min_ts: 0,
        max: 0,
        max_ts: 0,
        sum: 0,
    },
};

/// The references of an inner node, seen as their list. They lie in the value itself.
#[derive(Drop)]
pub struct Inner {
    refs: [Ref; 32],
    count: usize,
}

impl Model for Inner {
    ghost use Rattle.std.specs.Prelude.{List, ◌≤◌, take};
    ghost use Rattle.std.specs.List.{AllByRecursion};
    ghost use Rattle.ak_inner.specs.References.{FitsRef};
    ghost use Rattle.ak_inner.specs.declared.reference.Ref.{Ref};

    ghost Value = { List Ref };

    ghost view = { λ n. take n.count n.refs };

    ghost invariant = { λ n. (n.count ≤ 32) × AllByRecursion FitsRef (take n.count n.refs) };
}

impl Inner {
    /// A node with no references. No call takes memory.
    pub fn new() -> Inner
        ensures { result ≡ [] }
    {
        Inner {
            refs: [BLANK; MOST],
            count: 0,
        }
    }

    /// Puts a reference behind the others.
    pub fn push(&mut self, r: Ref)
        requires { length self.old < 32 }
        ensures { self.new ≡ self.old ++ r ∷ [] }
    {
        self.refs[self.count] = r;
        self.count += 1;
    }

    /// The references, in order.
    pub fn refs(&self) -> &[Ref]
        ensures refs { result.now ≡ self.now }
        ensures fits { AllByRecursion FitsRef self.now }
        ensures most { length self.now ≤ 32 }
    {
        &self.refs[..self.count]
    }

    /// Takes all references out.
    pub fn clear(&mut self)
        ensures { self.new ≡ [] }
    {
        self.count = 0;
    }

    /// Writes the node's whole block. It spells the node where the head and the references keep the rules.
    pub fn encode(&self, head: &Head, into: &mut Block)
        requires { IsHeadOf head.now self.now }
        ensures bytes { into.new ≡ inner_bytes head.now self.now }
        ensures spells { IsHead head.now → AreRefs head.now.level self.now → SpellsInner into.new head.now self.now }
    {
        put_head(head, into);
        let end = put_refs(into, BODY, self.refs());
        clear(&mut into[end..]);
    }

    /// Takes over the references of the block of a series' inner node with this level, number and address, and gives its
    /// head. None where the block spells no such node; then there are no references.
    pub fn decode(
        &mut self,
        from: &Block,
        level: u8,
        series: u32,
        number: u64,
        addr: Addr,
    ) -> Option<Head>
        ensures some { IfSome result (λ head. SpellsInner from.now head self.new × (head.level ≡ level) × (head.series ≡ series) × (head.number ≡ number) × (head.addr ≡ addr)) }
        ensures none { IfNone result ((head : Head) (rs : List Ref) → SpellsInner from.now head rs → head.level ≡ level → head.series ≡ series → head.number ≡ number → head.addr ≡ addr → ⊥) }
        ensures empty { IfNone result (self.new ≡ []) }
    {
        self.clear();
        let head = get_head(from)?;
        if is_asked(&head, level, series, number, addr) && self.read(&head, from) {
            Some(head)
        } else {
            None
        }
    }

    /// Reads the references of a block with this head.
    fn read(&mut self, head: &Head, from: &Block) -> bool
        requires empty { self.old ≡ [] }
        requires head { IsHead head.now }
        requires front { take 64 from.now ≡ head_bytes head.now }
        requires kind { head.now.kind ≡ 2 }
        ensures found { IsTrue result → SpellsInner from.now head.now self.new }
        ensures none { IsFalse result → (rs : List Ref) → SpellsInner from.now head.now rs → ⊥ }
        ensures empty { IsFalse result → self.new ≡ [] }
    {
        let end = self.get_refs(from, head.count as usize);
        if are_refs(self.refs(), head.level) && is_zero(&from[end..]) {
            return true;
        }
        self.clear();
        false
    }

    /// Reads so many references, and gives their end.
    fn get_refs(&mut self, from: &Block, count: usize) -> usize
        requires empty { self.old ≡ [] }
        requires most { count ≤ 32 }
        ensures count { length self.new ≡ count }
        ensures end { result ≡ 64 + 104 * count }
        ensures front { take result from.now ≡ take 64 from.now ++ flat_map ref_bytes self.new }
    {
        let mut end = BODY;
        for _ in 0..count {
            self.push(get_ref(&from[end..end + SIZE]));
            end += SIZE;
        }
        end
    }
}

/// Whether the head is that of an inner node of a series with this level, this number and this address.
fn is_asked(head: &Head, level: u8, series: u32, number: u64, addr: Addr) -> bool
    ensures { IsTrue result ↔ ((head.now.kind ≡ 2) × (head.now.level ≡ level) × (head.now.series ≡ series) × (head.now.number ≡ number) × (head.now.addr ≡ addr)) }
{
    head.kind == Head::INNER
        && head.level == level
        && head.series == series
        && head.number == number
        && head.addr == addr
}

/// A block spells one node: no other head and no other references.
pub fn one_node()
    ensures { (block : List ℕ) (g h : Head) (rs ss : List Ref) → SpellsInner block g rs → SpellsInner block h ss → (g ≡ h) × (rs ≡ ss) }
{}
