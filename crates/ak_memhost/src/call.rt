//! Calls as they are recorded.
ghost use Rattle.std.specs.Prelude.{◌≡◌, IfOk};
ghost use Rattle.ak_host.specs.Files.{IsBlock};

use ak_base::{Block, Bytes};
use std::alloc::{AllocError, Global};
use std::boxed::Box;
use std::marker::Model;

/// A block of its own on the heap, seen as the list of its bytes.
#[derive(Drop)]
pub struct SavedBlock {
    block: Box<Block>,
}

impl Model for SavedBlock {
    ghost use Rattle.std.specs.Prelude.{List, ℕ};

    ghost Value = { List ℕ };

    ghost view = { λ b. b.block.value };
}

impl SavedBlock {
    /// A copy of a block.
    pub fn of(alloc: Global, from: &Block) -> Result<SavedBlock, AllocError>
        ensures same { IfOk result (λ saved. saved ≡ from.now) }
        ensures block { IsBlock from.now }
    {
        Ok(SavedBlock {
            block: Box::new(alloc, *from)?,
        })
    }

    /// The block.
    pub fn get(&self) -> Block
        ensures { result ≡ self.now }
    {
        *self.block
    }
}

/// A call as it was recorded. One that failed and changed nothing is a `Failure`.
#[derive(Drop)]
pub enum Call {
    Make {
        file: u32,
        blocks: u32,
    },
    Read,
    Write {
        file: u32,
        index: u32,
        block: SavedBlock,
    },
    Sync {
        file: u32,
    },
    Turn,
    Reply {
        port: u32,
        bytes: Bytes,
    },
    Failure,
}

/// A copy of bytes.
pub(crate) fn copy_bytes(alloc: Global, bytes: &[u8]) -> Result<Bytes, AllocError>
    ensures { IfOk result (λ copy. copy ≡ bytes.now) }
{
    let mut copy = Bytes::new(alloc);
    copy.extend(alloc, bytes)?;
    Ok(copy)
}
