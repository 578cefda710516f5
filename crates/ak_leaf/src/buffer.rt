//! The points of one leaf.
ghost use Rattle.std.specs.Prelude.{◌≡◌, ◌+◌, ◌<◌, ◌≤◌, ◌++◌, ◌∷◌, ◌↔◌, [], List, ℕ, length, IfOk, IfSome, IfNone, IsTrue, IsFalse, take};
ghost use Rattle.std.specs.List.{AllByRecursion};
ghost use Rattle.ak_base.specs.Points.{IsPoint, IsHistory, last_ts_from};
ghost use Rattle.ak_base.specs.declared.point.Point.{Point};
ghost use Rattle.ak_bytes.specs.Head.{IsHead, head_bytes};
ghost use Rattle.ak_bytes.specs.declared.head.Head.{Head};
ghost use Rattle.ak_leaf.specs.Leaf.{IsHeadOf, SpellsLeaf};
ghost use Rattle.ak_leaf.specs.Spelling.{leaf_size};

use crate::point::{Before, point_size};
use crate::points::{get_points, put_points};
use ak_base::{Addr, Block, Point};
use ak_bytes::{Head, clear, get_head, is_zero, put_head};
use std::alloc::{AllocError, Global};
use std::marker::Model;

/// The most points of a leaf.
const MOST_POINTS: usize = 2016;

/// The most bytes of a leaf's points.
const MOST_BYTES: u32 = 4032;

/// Where the points begin in a block.
const BODY: usize = 64;

/// The points of a leaf, seen as their list. How many bytes they take is kept, so that a push takes the same time
/// whatever their number.
#[derive(Drop)]
pub struct LeafBuf {
    points: Vec<Point>,
    size: u32,
    last: Before,
}

impl Model for LeafBuf {
    ghost use Rattle.std.specs.Prelude.{List, ◌≤◌, vec_capacity};
    ghost use Rattle.ak_base.specs.declared.point.Point.{Point};
    ghost use Rattle.ak_leaf.specs.Leaf.{Keeps};

    ghost Value = { List Point };

    ghost view = { λ l. l.points.items };

    ghost invariant = { λ l. Keeps l.points.items l.size l.last × (2016 ≤ vec_capacity l.points) };
}

impl LeafBuf {
    /// An empty leaf, with room for 2016 points. No other call takes memory.
    pub fn new(alloc: Global) -> Result<LeafBuf, AllocError>
        ensures { IfOk result (λ leaf. leaf ≡ []) }
    {
        Ok(LeafBuf {
            points: Vec::with_capacity(alloc, MOST_POINTS)?,
            size: 0,
            last: Before::START,
        })
    }

    /// Puts a point behind the others. False where they would take more than 4032 bytes with it; then nothing changes.
    pub fn push(&mut self, p: Point) -> bool
        requires { last_ts_from 0 self.old ≤ p.ts }
        ensures fits { IsTrue result ↔ (leaf_size (self.old ++ p ∷ []) ≤ 4032) }
        ensures pushed { IsTrue result → self.new ≡ self.old ++ p ∷ [] }
        ensures last { IsTrue result → last_ts_from 0 self.new ≡ p.ts }
        ensures full { IsFalse result → self.new ≡ self.old }
    {
        let size = self.size + point_size(self.last, p);
        if size > MOST_BYTES {
            return false;
        }
        self.points.push(p).unwrap();
        self.size = size;
        self.last = self.last.after(p);
        true
    }

    /// Takes all points out.
    pub fn clear(&mut self)
        ensures { self.new ≡ [] }
    {
        self.points.clear();
        self.size = 0;
        self.last = Before::START;
    }

    /// The points, in order.
    pub fn points(&self) -> &[Point]
        ensures points { result.now ≡ self.now }
        ensures history { IsHistory self.now }
        ensures each { AllByRecursion IsPoint self.now }
        ensures most { length self.now ≤ 2016 }
    {
        self.points.as_slice()
    }

    /// How many bytes the points take.
    pub fn size(&self) -> u32
        ensures { result ≡ leaf_size self.now }
    {
        self.size
    }

    /// Writes the leaf's whole block.
    pub fn encode(&self, head: &Head, into: &mut Block)
        requires { IsHeadOf head.now self.now }
        ensures { SpellsLeaf into.new head.now self.now }
    {
        put_head(head, into);
        let end = put_points(into, BODY, self.points.as_slice());
        clear(&mut into[end..]);
    }

    /// Takes over the points of the block of a series' leaf with this number and address, and gives its head. None where the
    /// block spells no such leaf; then there are no points.
    pub fn decode(&mut self, from: &Block, series: u32, number: u64, addr: Addr) -> Option<Head>
        ensures some { IfSome result (λ head. SpellsLeaf from.now head self.new × (head.series ≡ series) × (head.number ≡ number) × (head.addr ≡ addr)) }
        ensures none { IfNone result ((head : Head) (ps : List Point) → SpellsLeaf from.now head ps → head.series ≡ series → head.number ≡ number → head.addr ≡ addr → ⊥) }
        ensures empty { IfNone result (self.new ≡ []) }
    {
        self.clear();
        let head = get_head(from)?;
        if is_asked(&head, series, number, addr) && self.read(&head, from) {
            Some(head)
        } else {
            None
        }
    }

    /// Reads the points of a block with this head.
    fn read(&mut self, head: &Head, from: &Block) -> bool
        requires empty { self.old ≡ [] }
        requires head { IsHead head.now }
        requires front { take 64 from.now ≡ head_bytes head.now }
        requires kind { head.now.kind ≡ 1 }
        ensures found { IsTrue result → SpellsLeaf from.now head.now self.new }
        ensures none { IsFalse result → (ps : List Point) → SpellsLeaf from.now head.now ps → ⊥ }
        ensures empty { IsFalse result → self.new ≡ [] }
    {
        let end = BODY + head.length as usize;
        let Some(last) = get_points(&from[BODY..end], head.count, &mut self.points) else {
            self.points.clear();
            return false;
        };
        if !is_zero(&from[end..]) {
            self.points.clear();
            return false;
        }
        self.size = head.length;
        self.last = last;
        true
    }
}

/// Whether the head is that of a leaf of a series with this number and this address.
fn is_asked(head: &Head, series: u32, number: u64, addr: Addr) -> bool
    ensures { IsTrue result ↔ ((head.now.kind ≡ 1) × (head.now.series ≡ series) × (head.now.number ≡ number) × (head.now.addr ≡ addr)) }
{
    head.kind == Head::LEAF && head.series == series && head.number == number && head.addr == addr
}

/// A block spells one leaf: no other head and no other points.
pub fn one_leaf()
    ensures { (block : List ℕ) (g h : Head) (ps qs : List Point) → SpellsLeaf block g ps → SpellsLeaf block h qs → (g ≡ h) × (ps ≡ qs) }
{}
