//! Files in memory.
ghost use Rattle.std.specs.Prelude.{◌≡◌, ◌⊎◌, ◌<◌, ◌≤◌, ◌^◌, length, slice_set, slice_get, map, take, replicate, true, IfOk, OnOk, OnErr};
ghost use Rattle.ak_host.specs.Files.{IsBlock};
ghost use Rattle.ak_memhost.specs.Drive.{zero_cell, settle_cell, file_contents, contents, IsCellImage, IsFileImage, IsImage};
ghost use Rattle.ak_memhost.specs.Torn.{tear_at, torn_cell, torn_cells, torn};

use ak_host::Block;
use std::alloc::{AllocError, Global};
use std::marker::Model;

/// A block as a read gives it, and whether it was synced since it was written.
#[derive(Clone, Copy, Drop)]
pub struct Cell {
    pub block: Block,
    pub synced: bool,
}

/// The bytes that a stop leaves in a block that was not synced.
#[derive(Clone, Copy, Drop)]
pub struct Tear {
    pub file: u32,
    pub index: u32,
    pub block: Block,
}

/// A file in memory, which contracts see as the list of its cells.
#[derive(Drop)]
pub struct MemFile {
    cells: Vec<Cell>,
}

impl Model for MemFile {
    ghost use Rattle.std.specs.Prelude.{List};
    ghost use Rattle.ak_memhost.specs.declared.drive.Cell.{Cell};

    ghost Value = { List Cell };

    ghost view = { λ f. f.cells.items };
}

impl MemFile {
    /// A file of zero blocks.
    pub fn zeros(alloc: Global, blocks: u32) -> Result<MemFile, AllocError>
        ensures { IfOk result (λ file. file ≡ replicate blocks zero_cell) }
    {
        let mut cells = Vec::new(alloc);
        for _made in 0..blocks {
            cells.push(Cell {
                block: [0; 4096],
                synced: true,
            })?;
        }
        Ok(MemFile { cells })
    }

    pub fn len(&self) -> usize
        ensures { result ≡ length self.now }
    {
        self.cells.len()
    }

    pub fn get(&self, index: usize) -> Cell
        requires { index < length self.now }
        ensures { slice_get self.now index ≡ Some result }
    {
        self.cells[index]
    }

    /// Changes a cell that is there.
    pub fn put(&mut self, index: usize, cell: Cell)
        ensures { self.new ≡ slice_set self.old index cell }
    {
        if index < self.cells.len() {
            self.cells[index] = cell;
        }
    }

    /// The file as a stop leaves it with these tears.
    pub fn torn(&self, alloc: Global, number: usize, tears: &[Tear]) -> Result<MemFile, AllocError>
        ensures torn { IfOk result (λ file. file ≡ torn_cells tears.now number 0 self.now) }
        ensures allowed { IfOk result (λ file. IsFileImage self.now (file_contents file)) }
    {
        let cells = torn_copy(alloc, &self.cells, number, tears)?;
        Ok(MemFile { cells })
    }

    /// Another file that is the same.
    pub fn copy(&self, alloc: Global) -> Result<MemFile, AllocError>
        ensures { IfOk result (λ file. file ≡ self.now) }
    {
        let cells = self.cells.to_vec(alloc)?;
        Ok(MemFile { cells })
    }

    /// What was written is synced.
    pub fn settle(&mut self)
        ensures { self.new ≡ map settle_cell self.old }
    {
        settle_cells(&mut self.cells);
    }
}

fn settle_cells(cells: &mut [Cell])
    ensures { cells.new ≡ map settle_cell cells.old }
{
    for cell in cells.iter_mut() {
        cell.synced = true;
    }
}

/// A block, which has 4096 bytes.
pub(crate) fn block_of(block: &Block) -> Block
    ensures same { result ≡ block.now }
    ensures block { IsBlock block.now }
{
    copied(block)
}

// The same block.
fn copied(block: &Block) -> Block
    ensures { result ≡ block.now }
{
    *block
}

// The block of the first tear that names this place, and else this one.
fn tear_at(tears: &[Tear], file: usize, index: usize, own: &Block) -> Block
    ensures torn { result ≡ tear_at tears.now file index own.now }
    ensures allowed { (result ≡ own.now) ⊎ IsBlock result }
{
    for tear in tears {
        if tear.file as usize == file && tear.index as usize == index {
            return block_of(&tear.block);
        }
    }
    *own
}

fn torn_cell(tears: &[Tear], file: usize, index: usize, cell: &Cell) -> Cell
    ensures torn { result ≡ torn_cell tears.now file index cell.now }
    ensures allowed { IsCellImage cell.now result.block }
{
    if cell.synced {
        return *cell;
    }
    Cell {
        block: tear_at(tears, file, index, &cell.block),
        synced: true,
    }
}

fn torn_copy(
    alloc: Global,
    cells: &[Cell],
    file: usize,
    tears: &[Tear],
) -> Result<Vec<Cell>, AllocError>
    ensures torn { IfOk result (λ out. out.items ≡ torn_cells tears.now file 0 cells.now) }
    ensures allowed { IfOk result (λ out. IsFileImage cells.now (file_contents out.items)) }
{
    let mut out = Vec::new(alloc);
    for (index, cell) in cells.iter().enumerate() {
        out.push(torn_cell(tears, file, index, cell))?;
    }
    Ok(out)
}

/// The files as a stop leaves them with these tears.
pub(crate) fn torn_files(
    alloc: Global,
    files: &[MemFile],
    tears: &[Tear],
) -> Result<Vec<MemFile>, AllocError>
    ensures torn { IfOk result (λ out. out.items ≡ torn tears.now files.now) }
    ensures allowed { IfOk result (λ out. IsImage files.now (contents out.items)) }
{
    let mut out = Vec::new(alloc);
    for (number, file) in files.iter().enumerate() {
        out.push(file.torn(alloc, number, tears)?)?;
    }
    Ok(out)
}

pub(crate) fn copy_files(alloc: Global, files: &[MemFile]) -> Result<Vec<MemFile>, AllocError>
    ensures { IfOk result (λ out. out.items ≡ files.now) }
{
    let mut out = Vec::new(alloc);
    for file in files {
        out.push(file.copy(alloc)?)?;
    }
    Ok(out)
}
