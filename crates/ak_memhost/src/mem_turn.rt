//! Turns that a host in memory gives.
ghost use Rattle.std.specs.Prelude.{◌≡◌, ◌+◌, ◌≤◌, All, IfOk, length, min, slice_get, take};
ghost use Rattle.ak_host.specs.Marks.{taken, IsTurn};
ghost use Rattle.ak_memhost.specs.Turns.{IsMemTurn, turn_or_done};

use crate::call::copy_bytes;
use ak_base::{Block, Bytes};
use ak_host::Turn;
use std::alloc::{AllocError, Global};

/// A turn that a host in memory gives.
#[derive(Drop)]
pub enum MemTurn {
    /// A piece of a port's session: 1 to 4096 bytes.
    Bytes { port: u32, bytes: Bytes },
    /// The end of a port's session.
    End { port: u32 },
    /// Nothing came.
    Idle,
    /// Nothing more will come.
    Done,
}

impl MemTurn {
    /// Another turn that is the same.
    pub fn copy(&self, alloc: Global) -> Result<MemTurn, AllocError>
        ensures { IfOk result (λ turn. turn ≡ self.now) }
    {
        Ok(match self {
            MemTurn::Bytes { port, bytes } => MemTurn::Bytes {
                port: *port,
                bytes: copy_bytes(alloc, bytes.as_slice())?,
            },
            MemTurn::End { port } => MemTurn::End { port: *port },
            MemTurn::Idle => MemTurn::Idle,
            MemTurn::Done => MemTurn::Done,
        })
    }

    /// Other turns that are the same.
    pub fn copy_all(alloc: Global, turns: &[MemTurn]) -> Result<Vec<MemTurn>, AllocError>
        ensures { IfOk result (λ out. out.items ≡ turns.now) }
    {
        let mut out = Vec::new(alloc);
        for turn in turns {
            out.push(turn.copy(alloc)?)?;
        }
        Ok(out)
    }

    /// Gives the turn of this number, with its bytes at the front of the block. Past the list each turn is `Done`.
    pub fn give(turns: &[MemTurn], number: usize, into: &mut Block) -> Turn
        requires { All IsMemTurn turns.now }
        ensures given { taken result into.new ≡ turn_or_done (slice_get turns.now number) }
        ensures turn { IsTurn result }
    {
        match turns.get(number) {
            Some(MemTurn::Bytes { port, bytes }) => {
                let bytes = bytes.as_slice();
                copy_to_front(bytes, into);
                Turn::Bytes {
                    port: *port,
                    n: bytes.len() as u32,
                }
            }
            Some(MemTurn::End { port }) => Turn::End { port: *port },
            Some(MemTurn::Idle) => Turn::Idle,
            Some(MemTurn::Done) => Turn::Done,
            None => Turn::Done,
        }
    }
}

// Copies bytes to the front of a block.
fn copy_to_front(bytes: &[u8], into: &mut Block)
    requires { length bytes.now ≤ 4096 }
    ensures { take (length bytes.now) into.new ≡ bytes.now }
{
    into[..bytes.len()].copy_from_slice(bytes);
}
