//! Files of blocks in memory.
ghost use Rattle.std.specs.Prelude.{◌≡◌, ◌↔◌, ◌<◌, [], length, IsOk, IfOk, OnOk, OnErr};
ghost use Rattle.ak_host.specs.Files.{file_at, block_at, with_block, with_item, zero_blocks};

use super::items::put_item;
use ak_host::Block;
use std::alloc::{AllocError, Global};
use std::io;
use std::io::ErrorKind;
use std::marker::Model;

/// Files of blocks in memory, which contracts see as the list of the files, each a list of blocks.
#[derive(Drop)]
pub struct Memory {
    alloc: Global,
    files: Vec<Vec<Block>>,
}

impl Model for Memory {
    ghost use Rattle.std.specs.Prelude.{map};
    ghost use Rattle.ak_host.specs.Files.{Files};

    ghost Value = { Files };

    ghost view = { λ m. map (λ f. f.items) m.files.items };
}

// The blocks of a new file.
fn zeros(alloc: Global, blocks: u32) -> Result<Vec<Block>, AllocError>
    ensures { IfOk result (λ file. file.items ≡ zero_blocks blocks) }
{
    let mut file = Vec::with_capacity(alloc, blocks as usize)?;
    for _made in 0..blocks {
        file.push([0; 4096])?;
    }
    Ok(file)
}

impl Memory {
    /// No files. It takes no memory.
    pub fn new(alloc: Global) -> Memory
        ensures { result ≡ [] }
    {
        Memory {
            alloc,
            files: Vec::new(alloc),
        }
    }

    /// Makes a file of zero blocks, the next one or in the place of one that is there.
    pub fn make(&mut self, file: u32, blocks: u32) -> Result<(), AllocError>
        ensures ok { OnOk result (self.new ≡ with_item self.old file (zero_blocks blocks)) }
        ensures err { OnErr result (self.new ≡ self.old) }
    {
        let new = zeros(self.alloc, blocks)?;
        put_item(&mut self.files, file, new)?;
        Ok(())
    }

    /// Reads a block. It fails where there is none, and nowhere else.
    pub fn read(&self, file: u32, index: u32, into: &mut Block) -> io::Result<()>
        ensures block { OnOk result (into.new ≡ block_at self.now file index) }
        ensures succeeds { IsOk result ↔ (index < length (file_at self.now file)) }
    {
        if (file as usize) < self.files.len() {
            let blocks = &self.files[file as usize];
            if (index as usize) < blocks.len() {
                *into = blocks[index as usize];
                return Ok(());
            }
        }
        Err(io::Error::from(ErrorKind::NotFound))
    }

    /// Writes a block. It fails where there is none, and nowhere else.
    pub fn write(&mut self, file: u32, index: u32, from: &Block) -> io::Result<()>
        ensures ok { OnOk result (self.new ≡ with_block self.old file index from.now) }
        ensures err { OnErr result (self.new ≡ self.old) }
        ensures succeeds { IsOk result ↔ (index < length (file_at self.old file)) }
    {
        if (file as usize) < self.files.len() {
            let blocks = &mut self.files[file as usize];
            if (index as usize) < blocks.len() {
                blocks[index as usize] = *from;
                return Ok(());
            }
        }
        Err(io::Error::from(ErrorKind::NotFound))
    }
}
