//! What a stop leaves of a host in memory.
ghost use Rattle.std.specs.Prelude.{◌≡◌, ◌<◌, ◌≤◌, ◌^◌, ◌↔◌, [], true, length, IfOk, OnOk, OnErr};
ghost use Rattle.ak_host.specs.Files.{Files, AreBlocks};
ghost use Rattle.ak_host.specs.Moments.{LeavesNow};
ghost use Rattle.ak_memhost.specs.Drive.{AllFit, IsImage, contents, sizes};
ghost use Rattle.ak_memhost.specs.Fresh.{IsFresh};
ghost use Rattle.ak_memhost.specs.Host.{host_state, turns_of, numbers_of, image_of, drive_at_moment, IsOver};
ghost use Rattle.ak_memhost.specs.Torn.{torn, drive_within};

use super::{ImageError, MemHost, replay, replay_all};
use crate::drive::{copy_files, torn_files};
use crate::{Call, Heard, MemFile, Tear};
use std::alloc::{AllocError, Global};

// Makes a recorded call again, as far as a stop within it finds it made.
fn replay_within(alloc: Global, files: &mut Vec<MemFile>, call: &Call) -> Result<(), AllocError>
    ensures { OnOk result (files.new.items ≡ drive_within files.old.items call.now) }
{
    match call {
        Call::Write {
            file: _,
            index: _,
            block: _,
        } => replay(alloc, files, call),
        Call::Make { file: _, blocks: _ } => Ok(()),
        Call::Sync { file: _ } => Ok(()),
        Call::Read => Ok(()),
        Call::Turn => Ok(()),
        Call::Reply { port: _, bytes: _ } => Ok(()),
        Call::Failure => Ok(()),
    }
}

impl MemHost {
    // The files of which a stop at a moment leaves an image.
    fn files_at(&self, alloc: Global, moment: u64) -> Result<Vec<MemFile>, AllocError>
        requires { moment ≤ (host_state self.now).moment }
        ensures { IfOk result (λ files. files.items ≡ drive_at_moment self.now moment) }
    {
        let number = (moment / 2) as usize;
        let mut files = replay_all(alloc, &self.base, &self.calls[..number])?;
        if moment % 2 == 0 {
            return Ok(files);
        }
        replay_within(alloc, &mut files, &self.calls[number])?;
        Ok(files)
    }

    /// The disk that a stop leaves at a moment. A block that was not synced holds the bytes of the first tear that
    /// names it, and else those last written.
    pub fn image(&self, alloc: Global, moment: u64, tears: &[Tear]) -> Result<MemHost, ImageError>
        ensures no_moment { (result ≡ Err ImageError.NoMoment) ↔ ((host_state self.now).moment < moment) }
        ensures files { IfOk result (λ image. (host_state image).files ≡ image_of self.now tears.now moment) }
        // It is one of the disks that a stop then may leave.
        ensures left { IfOk result (λ image. (host_state self.now).leaves moment (host_state image).files) }
        // Nothing is unsynced in it, and nothing was done to it.
        ensures settled { IfOk result (λ image. (disk : Files) → LeavesNow (host_state image) disk → disk ≡ (host_state image).files) }
        ensures fresh { IfOk result (λ image. IsFresh (host_state image)) }
        ensures turns { IfOk result (λ image. turns_of image ≡ []) }
        ensures numbers { IfOk result (λ image. numbers_of image ≡ record { fails = []; next = 0; refused = 0 }) }
    {
        if moment >= self.moments() {
            return Err(ImageError::NoMoment);
        }
        match self.torn_at(alloc, moment, tears) {
            Ok((base, files)) => MemHost::over(alloc, base, files),
            Err(_) => Err(ImageError::Memory),
        }
    }

    // Two copies of the files at a moment with these tears.
    fn torn_at(
        &self,
        alloc: Global,
        moment: u64,
        tears: &[Tear],
    ) -> Result<(Vec<MemFile>, Vec<MemFile>), AllocError>
        requires { moment ≤ (host_state self.now).moment }
        ensures base { IfOk result (λ copies. copies.0.items ≡ torn tears.now (drive_at_moment self.now moment)) }
        ensures same { IfOk result (λ copies. copies.1.items ≡ copies.0.items) }
        ensures allowed { IfOk result (λ copies. IsImage (drive_at_moment self.now moment) (contents copies.0.items)) }
        ensures blocks { IfOk result (λ copies. AreBlocks (contents copies.0.items)) }
    {
        let files = self.files_at(alloc, moment)?;
        let base = torn_files(alloc, &files, tears)?;
        let copy = copy_files(alloc, &base)?;
        Ok((base, copy))
    }

    // A host over these files, of which there are two copies.
    fn over(alloc: Global, base: Vec<MemFile>, files: Vec<MemFile>) -> Result<MemHost, ImageError>
        requires same { files.items ≡ base.items }
        requires blocks { AreBlocks (contents base.items) }
        ensures over { IfOk result (IsOver base.items) }
        ensures err { OnErr result (result ≡ Err ImageError.Memory) }
    {
        if !are_few(&files) {
            return Err(ImageError::Memory);
        }
        Ok(MemHost {
            alloc,
            base,
            files,
            calls: Vec::new(alloc),
            turns: Vec::new(alloc),
            next: 0,
            fails: Vec::new(alloc),
            heard: Heard::new(alloc),
            disk_faults: 0,
            port_faults: 0,
            refused: 0,
        })
    }
}

// Whether a u32 tells the number of files and the size of each. No call makes more.
fn are_few(files: &[MemFile]) -> bool
    ensures number { result ≡ true → length (sizes files.now) < 2 ^ 32 }
    ensures each { result ≡ true → AllFit (sizes files.now) }
{
    if files.len() >= MANY {
        return false;
    }
    for file in files {
        if file.len() >= MANY {
            return false;
        }
    }
    true
}

const MANY: usize = 1 << 32;
