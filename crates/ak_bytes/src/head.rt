//! The head of a block.
ghost use Rattle.std.specs.Prelude.{◌≡◌, ◌≤◌, ◌++◌, ◌↔◌, length, drop, take, IfSome, IfNone, IsTrue, replicate};
ghost use Rattle.ak_bytes.specs.declared.head.Head.{Head};
ghost use Rattle.ak_bytes.specs.Head.{head_fields, head_bytes, FitsHead, IsLeafHead, IsInnerHead, IsHead};

use crate::fields::{get_u8, get_u16, get_u32, get_u64, put_u8, put_u16, put_u32, put_u64};
use ak_base::{Addr, Block};

/// What stands at the front of a node's block.
#[derive(Clone, Copy, Debug, PartialEq, Eq, Drop)]
pub struct Head {
    /// `Head::LEAF` or `Head::INNER`.
    pub kind: u8,
    /// 0 for a leaf, 1 to 10 for an inner node.
    pub level: u8,
    /// Points of a leaf, 1 to 2016, or references of an inner node, 1 to 32.
    pub count: u16,
    /// The series that the node belongs to.
    pub series: u32,
    /// The number of the node on its level.
    pub number: u64,
    /// The block's own address.
    pub addr: Addr,
    /// The address of the node before this one on its level; none for the first.
    pub elder: Addr,
    /// Bytes in use behind the head: at most 4032 for a leaf, 104 for each reference of an inner node.
    pub length: u32,
}

impl Head {
    /// The kind of a leaf.
    pub const LEAF: u8 = 1;

    /// The kind of an inner node.
    pub const INNER: u8 = 2;
}

/// Writes a head over the first 64 bytes of a block.
pub fn put_head(head: &Head, into: &mut Block)
    ensures { into.new ≡ head_bytes head.now ++ drop 64 into.old }
{
    put_fields(head, into);
    clear(&mut into[36..64]);
}

/// The head that the first 64 bytes of a block are. None where they are no head.
pub fn get_head(from: &Block) -> Option<Head>
    ensures some { IfSome result (λ head. IsHead head × (take 64 from.now ≡ head_bytes head)) }
    ensures none { IfNone result ((head : Head) → IsHead head → take 64 from.now ≡ head_bytes head → ⊥) }
{
    let head = get_fields(from);
    if is_head(&head) && is_zero(&from[36..64]) {
        Some(head)
    } else {
        None
    }
}

/// Writes the fields at the front.
fn put_fields(head: &Head, into: &mut [u8])
    requires { 64 ≤ length into.old }
    ensures front { take 36 into.new ≡ head_fields head.now }
    ensures back { drop 36 into.new ≡ drop 36 into.old }
{
    put_u8(into, 0, head.kind);
    put_u8(into, 1, head.level);
    put_u16(into, 2, head.count);
    put_u32(into, 4, head.series);
    put_u64(into, 8, head.number);
    put_u64(into, 16, head.addr.0);
    put_u64(into, 24, head.elder.0);
    put_u32(into, 32, head.length);
}

/// The fields at the front.
fn get_fields(from: &[u8]) -> Head
    requires { 64 ≤ length from.now }
    ensures fields { take 36 from.now ≡ head_fields result }
    ensures fits { FitsHead result }
{
    Head {
        kind: get_u8(from, 0),
        level: get_u8(from, 1),
        count: get_u16(from, 2),
        series: get_u32(from, 4),
        number: get_u64(from, 8),
        addr: Addr(get_u64(from, 16)),
        elder: Addr(get_u64(from, 24)),
        length: get_u32(from, 32),
    }
}

/// Whether the fields keep the rules.
fn is_head(head: &Head) -> bool
    requires { FitsHead head.now }
    ensures { IsTrue result ↔ IsHead head.now }
{
    (is_leaf_head(head) || is_inner_head(head)) && (head.elder.0 == u64::MAX) == (head.number == 0)
}

/// Whether the fields are those of a leaf.
fn is_leaf_head(head: &Head) -> bool
    ensures { IsTrue result ↔ IsLeafHead head.now }
{
    head.kind == Head::LEAF
        && head.level == 0
        && head.count >= 1
        && head.count <= 2016
        && head.length <= 4032
}

/// Whether the fields are those of an inner block.
fn is_inner_head(head: &Head) -> bool
    ensures { IsTrue result ↔ IsInnerHead head.now }
{
    head.kind == Head::INNER
        && head.level >= 1
        && head.level <= 10
        && head.count >= 1
        && head.count <= 32
        && head.length == 104 * u32::from(head.count)
}

/// Makes each byte zero.
pub fn clear(bytes: &mut [u8])
    ensures { bytes.new ≡ replicate (length bytes.old) 0 }
{
    for byte in bytes.iter_mut() {
        *byte = 0;
    }
}

/// Whether each byte is zero.
pub fn is_zero(bytes: &[u8]) -> bool
    ensures { IsTrue result ↔ (bytes.now ≡ replicate (length bytes.now) 0) }
{
    bytes.iter().all(|byte| *byte == 0)
}

/// No two heads have the same bytes.
pub fn one_head()
    ensures { (g h : Head) → IsHead g → IsHead h → head_bytes g ≡ head_bytes h → g ≡ h }
{}
