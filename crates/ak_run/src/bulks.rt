//! Bulks whose texts are written before their heads, in one buffer.
ghost use Rattle.std.specs.Prelude.{◌≡◌, ◌++◌, ◌∷◌, ◌≤◌, [], length, drop, OnOk, IfOk};
ghost use Rattle.std.specs.Fmt.{decimal};
ghost use Rattle.ak_run.specs.Bulks.{head_room, IsBulkFrom};
ghost use Rattle.ak_run.specs.Replies.{crlf};

use ak_base::Bytes;
use itoa::Buffer;
use std::alloc::{AllocError, Global};

/// How many bytes the head of a bulk has at most: `$`, 20 digits and CR LF.
const HEAD_ROOM: usize = 23;

/// Leaves room for the head of a bulk, whose text comes behind it.
pub fn begin_bulk(alloc: Global, reply: &mut Bytes) -> Result<(), AllocError>
    requires { reply.old ≡ [] }
    ensures { OnOk result (length reply.new ≡ head_room) }
{
    let room = [b' '; HEAD_ROOM];
    reply.extend(alloc, &room)
}

// Writes the head of a bulk of so many bytes, so that it ends where its room ends. Where it begins.
fn write_head(reply: &mut Bytes, count: u64) -> usize
    requires { head_room ≤ length reply.old }
    ensures within { result ≤ head_room }
    ensures long { length reply.new ≡ length reply.old }
    ensures is { drop result reply.new ≡ 36 ∷ (decimal count ++ (crlf ++ drop head_room reply.old)) }
{
    let mut buffer = Buffer::new();
    let digits = buffer.format(count).as_bytes();
    let start = HEAD_ROOM - 3 - digits.len();
    reply.overwrite(start, b"$");
    reply.overwrite(start + 1, digits);
    reply.overwrite(HEAD_ROOM - 2, b"\r\n");
    start
}

/// Ends a bulk whose text stands behind the room for its head: the head is written at the end of that room. Where it begins.
pub fn end_bulk(alloc: Global, reply: &mut Bytes) -> Result<usize, AllocError>
    requires { head_room ≤ length reply.old }
    ensures { IfOk result (λ start. IsBulkFrom reply.new start (drop head_room reply.old)) }
{
    let count = reply.as_slice().len() - HEAD_ROOM;
    reply.extend(alloc, b"\r\n")?;
    Ok(write_head(reply, count as u64))
}
