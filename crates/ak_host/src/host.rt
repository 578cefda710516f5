ghost use Rattle.std.specs.Prelude.{◌≡◌, ◌⊎◌, ℕ, ◌+◌, ◌-◌, ◌^◌, ◌<◌, ◌≤◌, length, map, slice_index, OnOk, OnErr, IfOk};
ghost use Rattle.ak_host.specs.Causes.{HasCause};
ghost use Rattle.ak_host.specs.Files.{Files, block_at, with_block, with_item, zero_blocks, AreBlocks, MayBeTorn, Made};
ghost use Rattle.ak_host.specs.Marks.{taken, IsTurn, after_turn, after_reply};
ghost use Rattle.ak_host.specs.Moments.{HostState, mark_now, LeavesNow, IsStable, DiskPasses, PortPasses};
ghost use Rattle.ak_host.specs.Calls.{Follows, CountsOne, SameDisk};

use ak_base::Block;

/// A call of the outside failed.
#[derive(Clone, Copy, Debug, PartialEq, Eq, Drop)]
pub struct Failed;

/// What clauses say of a host: its files, its moments and its counts. It has no calls.
pub trait Outside {
    /// That the host tells its contents. Where it does not, only its sizes and its counts of faults mean something.
    ghost tells: { Type 0 };

    ghost state: { Self → HostState };
}

/// Files of blocks. No call of it changes what the ports have given and were told.
pub trait Disk: Outside {
    /// The number of files.
    fn files(&self) -> u32
        ensures { result ≡ length (Self.state self.now).sizes };

    /// The number of blocks of a file.
    fn blocks(&self, file: u32) -> u32
        requires { file < length (Self.state self.now).sizes }
        ensures { result ≡ slice_index (Self.state self.now).sizes file };

    /// Makes a file of zero blocks, the next one or in the place of one that is there. It needs no sync.
    fn make(&mut self, file: u32, blocks: u32) -> Result<(), Failed>
        requires next { file ≤ length (Self.state self.old).sizes }
        requires room { file < 2 ^ 32 - 1 }
        requires some { 1 ≤ blocks }
        ensures sizes { OnOk result ((Self.state self.new).sizes ≡ with_item (Self.state self.old).sizes file blocks) }
        ensures sizes_err { OnErr result (((Self.state self.new).sizes ≡ (Self.state self.old).sizes)
            ⊎ ((Self.state self.new).sizes ≡ with_item (Self.state self.old).sizes file blocks)) }
        ensures cause { HasCause (Self.state self.old).disk_faults (Self.state self.new).disk_faults result }
        ensures port_faults { (Self.state self.new).port_faults ≡ (Self.state self.old).port_faults }
        ensures files { Self.tells → OnOk result
            ((Self.state self.new).files ≡ with_item (Self.state self.old).files file (zero_blocks blocks)) }
        ensures files_err { Self.tells → OnErr result
            (Made file blocks (Self.state self.old).files (Self.state self.new).files) }
        ensures reads { Self.tells → (Self.state self.new).reads ≡ (Self.state self.old).reads }
        ensures writes { Self.tells → (Self.state self.new).writes ≡ (Self.state self.old).writes }
        ensures stable { Self.tells → OnOk result (IsStable file (Self.state self.new)) }
        // Until it is done, a stop leaves the file as it was or the whole new one.
        ensures moments { Self.tells →
            DiskPasses (Follows (Made file blocks) (Self.state self.old)) (Self.state self.old) (Self.state self.new) };

    /// Reads a block.
    fn read(&mut self, file: u32, index: u32, into: &mut Block) -> Result<(), Failed>
        requires file { file < length (Self.state self.old).sizes }
        requires index { index < slice_index (Self.state self.old).sizes file }
        ensures sizes { (Self.state self.new).sizes ≡ (Self.state self.old).sizes }
        ensures cause { HasCause (Self.state self.old).disk_faults (Self.state self.new).disk_faults result }
        ensures port_faults { (Self.state self.new).port_faults ≡ (Self.state self.old).port_faults }
        ensures block { Self.tells → OnOk result (into.new ≡ block_at (Self.state self.old).files file index) }
        ensures files { Self.tells → (Self.state self.new).files ≡ (Self.state self.old).files }
        ensures reads { Self.tells → CountsOne (Self.state self.old).reads (Self.state self.new).reads result }
        ensures writes { Self.tells → (Self.state self.new).writes ≡ (Self.state self.old).writes }
        ensures moments { Self.tells →
            DiskPasses (LeavesNow (Self.state self.old)) (Self.state self.old) (Self.state self.new) };

    /// Writes a block. Until the file is synced, a stop may leave any bytes in it, also where the write failed.
    fn write(&mut self, file: u32, index: u32, from: &Block) -> Result<(), Failed>
        requires file { file < length (Self.state self.old).sizes }
        requires index { index < slice_index (Self.state self.old).sizes file }
        ensures sizes { (Self.state self.new).sizes ≡ (Self.state self.old).sizes }
        ensures cause { HasCause (Self.state self.old).disk_faults (Self.state self.new).disk_faults result }
        ensures port_faults { (Self.state self.new).port_faults ≡ (Self.state self.old).port_faults }
        ensures files { Self.tells → OnOk result
            ((Self.state self.new).files ≡ with_block (Self.state self.old).files file index from.now) }
        ensures files_err { Self.tells → OnErr result
            (MayBeTorn file index (Self.state self.old).files (Self.state self.new).files) }
        ensures reads { Self.tells → (Self.state self.new).reads ≡ (Self.state self.old).reads }
        ensures writes { Self.tells → CountsOne (Self.state self.old).writes (Self.state self.new).writes result }
        ensures moments { Self.tells →
            DiskPasses (Follows (MayBeTorn file index) (Self.state self.old)) (Self.state self.old) (Self.state self.new) };

    /// Makes what was written to a file last: after it, a stop leaves of the file what a read gives.
    fn sync(&mut self, file: u32) -> Result<(), Failed>
        requires { file < length (Self.state self.old).sizes }
        ensures sizes { (Self.state self.new).sizes ≡ (Self.state self.old).sizes }
        ensures cause { HasCause (Self.state self.old).disk_faults (Self.state self.new).disk_faults result }
        ensures port_faults { (Self.state self.new).port_faults ≡ (Self.state self.old).port_faults }
        ensures disk { Self.tells → SameDisk (Self.state self.old) (Self.state self.new) }
        ensures stable { Self.tells → OnOk result (IsStable file (Self.state self.new)) }
        ensures moments { Self.tells →
            DiskPasses (LeavesNow (Self.state self.old)) (Self.state self.old) (Self.state self.new) };

    /// A stop now may leave the disk as it reads.
    ghost leaves_files: { Self.tells → (host : Self) → LeavesNow (Self.state host) (Self.state host).files };

    /// A stop now leaves a disk of blocks of 4096 bytes.
    ghost leaves_blocks: { Self.tells → (host : Self) (disk : Files) → LeavesNow (Self.state host) disk → AreBlocks disk };

    /// The files have the blocks that they are said to have.
    ghost sized: { Self.tells → (host : Self) → map length (Self.state host).files ≡ (Self.state host).sizes };
}

/// What a port gives in a turn. The bytes stand at the front of the block that was lent.
#[derive(Clone, Copy, Debug, PartialEq, Eq, Drop)]
pub enum Turn {
    Bytes { port: u32, n: u32 },
    End { port: u32 },
    Idle,
    Done,
}

/// Ports, which give turns in the order that the host chooses and are told bytes. No call of it changes the disk.
pub trait Ports: Outside {
    /// The next turn.
    fn turn(&mut self, into: &mut Block) -> Result<Turn, Failed>
        ensures sizes { (Self.state self.new).sizes ≡ (Self.state self.old).sizes }
        ensures cause { HasCause (Self.state self.old).port_faults (Self.state self.new).port_faults result }
        ensures disk_faults { (Self.state self.new).disk_faults ≡ (Self.state self.old).disk_faults }
        ensures turn { IfOk result IsTurn }
        ensures given { Self.tells → IfOk result (λ turn. mark_now (Self.state self.new)
            ≡ after_turn (mark_now (Self.state self.old)) (taken turn into.new)) }
        ensures given_err { Self.tells → OnErr result (mark_now (Self.state self.new) ≡ mark_now (Self.state self.old)) }
        ensures disk { Self.tells → SameDisk (Self.state self.old) (Self.state self.new) }
        ensures moments { Self.tells →
            PortPasses (λ mark. (mark ≡ mark_now (Self.state self.old)) ⊎ (mark ≡ mark_now (Self.state self.new)))
            (Self.state self.old) (Self.state self.new) };

    /// Tells a port these bytes.
    fn reply(&mut self, port: u32, bytes: &[u8]) -> Result<(), Failed>
        ensures sizes { (Self.state self.new).sizes ≡ (Self.state self.old).sizes }
        ensures cause { HasCause (Self.state self.old).port_faults (Self.state self.new).port_faults result }
        ensures disk_faults { (Self.state self.new).disk_faults ≡ (Self.state self.old).disk_faults }
        ensures told { Self.tells → OnOk result (mark_now (Self.state self.new)
            ≡ after_reply (mark_now (Self.state self.old)) port bytes.now) }
        ensures told_err { Self.tells → OnErr result (mark_now (Self.state self.new) ≡ mark_now (Self.state self.old)) }
        ensures disk { Self.tells → SameDisk (Self.state self.old) (Self.state self.new) }
        ensures moments { Self.tells →
            PortPasses (λ mark. (mark ≡ mark_now (Self.state self.old)) ⊎ (mark ≡ mark_now (Self.state self.new)))
            (Self.state self.old) (Self.state self.new) };
}

/// A disk and ports in one.
pub trait Host: Disk + Ports {}
