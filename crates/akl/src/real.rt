//! A host over the real outside: files in a directory or in memory, and standard input and output.
ghost use Rattle.std.specs.Prelude.{◌≡◌, ◌⊎◌, ◌≤◌, ◌<◌, ◌-◌, ◌^◌, [], ◌∷◌, true, false, length, Ok, IfOk, OnOk, OnErr, IsSome, IfSome};
ghost use Rattle.akl.specs.Calls.{making, EndsWith, IsReadSettled, IsSynced, are_names_settled, is_in_doubt};
ghost use Rattle.akl.specs.Media.{calls_of};
ghost use Rattle.ak_host.specs.Causes.{HasCause, Rose};
ghost use Rattle.ak_host.specs.Files.{with_item};

mod console;
mod directory;
mod failure;
mod items;
mod memory;
mod system;

use ak_host::{Block, Disk, Failed, Host, Outside, Ports, Turn};
use console::Console;
use directory::Directory;
pub use failure::{Call, Failure};
use items::put_item;
use memory::Memory;
use std::alloc::{AllocError, Global};
use std::io;
use std::io::{Read, Write};
use system::SystemCall;

// What the files stand on.
#[derive(Drop)]
enum Medium {
    Directory(Directory),
    Memory(Memory),
}

impl Medium {
    fn make(&mut self, file: u32, blocks: u32) -> io::Result<()>
        ensures made { OnOk result (IfSome (calls_of self.new) (EndsWith (making file))) }
    {
        match self {
            Medium::Directory(directory) => directory.make(file, blocks),
            Medium::Memory(memory) => Ok(memory.make(file, blocks)?),
        }
    }

    fn read(&mut self, file: u32, index: u32, into: &mut Block) -> io::Result<()>
        ensures read { OnOk result (IfSome (calls_of self.new) (IsReadSettled file)) }
    {
        match self {
            Medium::Directory(directory) => directory.read(file, index, into),
            Medium::Memory(memory) => memory.read(file, index, into),
        }
    }

    fn write(&mut self, file: u32, index: u32, from: &Block) -> io::Result<()>
        ensures written { OnOk result (IfSome (calls_of self.new) (EndsWith ((SystemCall.Written file, true) ∷ []))) }
    {
        match self {
            Medium::Directory(directory) => directory.write(file, index, from),
            Medium::Memory(memory) => memory.write(file, index, from),
        }
    }

    // Files in memory outlast no stop, so there is nothing to be done for them.
    fn sync(&mut self, file: u32) -> io::Result<()>
        ensures synced { OnOk result (IfSome (calls_of self.new) (IsSynced file)) }
        ensures names { OnOk result (IfSome (calls_of self.new) (λ calls. are_names_settled calls ≡ true)) }
        ensures certain { OnOk result (IfSome (calls_of self.new) (λ calls. is_in_doubt file calls ≡ false)) }
    {
        match self {
            Medium::Directory(directory) => directory.sync(file),
            Medium::Memory(_) => Ok(()),
        }
    }

    // The directory in which nothing more can be made or synced, and why.
    fn fault(&self) -> Option<(&str, io::Error)> {
        match self {
            Medium::Directory(directory) => directory.fault(),
            Medium::Memory(_) => None,
        }
    }

    // The path of a file, where it has one.
    fn path_of(&self, file: u32) -> Result<Option<String>, AllocError> {
        match self {
            Medium::Directory(directory) => Ok(Some(directory.path_of(file)?)),
            Medium::Memory(_) => Ok(None),
        }
    }
}

/// A host over files in a directory or in memory, and over one input, which is port 1, and one output, which is told what
/// ports 0 and 1 are told.
///
/// It tells nothing of content: it is the edge that is trusted. A call that fails is a fault of the disk or of the ports,
/// also where it fails for want of memory.
#[derive(Drop)]
pub struct RealHost<R: Read + Drop, W: Write + Drop> {
    medium: Medium,
    sizes: Vec<u32>,
    console: Console<R, W>,
    disk_faults: u64,
    port_faults: u64,
    disk_failure: Option<Failure>,
    port_failure: Option<Failure>,
    ghost few: { length sizes.items < 2 ^ 32 },
}

impl<R: Read + Drop, W: Write + Drop> RealHost<R, W> {
    /// A host over the files of a directory, without faults so far.
    pub fn in_directory(
        rt: HostRuntime,
        path: &str,
        input: R,
        output: W,
    ) -> Result<RealHost<R, W>, AllocError>
        ensures disk_faults { IfOk result (λ host. host.disk_faults ≡ 0) }
        ensures port_faults { IfOk result (λ host. host.port_faults ≡ 0) }
    {
        let (directory, sizes) = Directory::open(rt, path)?;
        let medium = Medium::Directory(directory);
        Ok(RealHost::over(medium, sizes, input, output))
    }

    /// A host over files in memory, of which there are none yet, without faults so far. It takes no memory.
    pub fn in_memory(alloc: Global, input: R, output: W) -> RealHost<R, W>
        ensures sizes { result.sizes.items ≡ [] }
        ensures disk_faults { result.disk_faults ≡ 0 }
        ensures port_faults { result.port_faults ≡ 0 }
    {
        let medium = Medium::Memory(Memory::new(alloc));
        RealHost::over(medium, Vec::new(alloc), input, output)
    }

    // A host whose files have these blocks, without faults so far.
    fn over(medium: Medium, sizes: Vec<u32>, input: R, output: W) -> RealHost<R, W>
        requires { length sizes.items < 2 ^ 32 }
        ensures sizes { result.sizes.items ≡ sizes.items }
        ensures disk_faults { result.disk_faults ≡ 0 }
        ensures port_faults { result.port_faults ≡ 0 }
    {
        RealHost {
            medium,
            sizes,
            console: Console::new(input, output),
            disk_faults: 0,
            port_faults: 0,
            disk_failure: None,
            port_failure: None,
        }
    }

    /// The first call of the disk that failed.
    pub fn disk_failure(&self) -> Option<Failure> {
        self.disk_failure
    }

    /// The first call of the ports that failed.
    pub fn port_failure(&self) -> Option<Failure> {
        self.port_failure
    }

    /// The directory in which nothing more can be made or synced, and why.
    pub fn directory_fault(&self) -> Option<(&str, io::Error)> {
        self.medium.fault()
    }

    /// The path of a file, where it has one.
    pub fn path_of(&self, file: u32) -> Result<Option<String>, AllocError> {
        self.medium.path_of(file)
    }
}

impl<R: Read + Drop, W: Write + Drop> Outside for RealHost<R, W> {
    ghost tells = { ⊥ };

    ghost state = { λ host. record {
      sizes = host.sizes.items;
      files = [];
      moment = 0;
      mark = λ t. record { turns = []; tellings = [] };
      leaves = λ t disk. ⊥;
      disk_faults = host.disk_faults;
      port_faults = host.port_faults;
      reads = 0;
      writes = 0;
    } };
}

// Counts a fault.
fn fault(faults: &mut u64) -> Failed
    ensures later { faults.old ≤ faults.new }
    ensures rose { Rose faults.old faults.new }
{
    *faults = faults.saturating_add(1);
    Failed
}

// What a call answers, where a failure is counted, and the first is kept.
fn counted<T>(
    outcome: io::Result<T>,
    call: Call,
    faults: &mut u64,
    first: &mut Option<Failure>,
) -> Result<T, Failed>
    ensures cause { HasCause faults.old faults.new result }
    ensures same { OnOk result (faults.new ≡ faults.old) }
    ensures value { IfOk result (λ value. outcome ≡ Ok value) }
    ensures kept { OnErr result (IsSome first.new) }
{
    match outcome {
        Ok(value) => Ok(value),
        Err(error) => {
            if first.is_none() {
                *first = Some(Failure { call, error });
            }
            Err(fault(faults))
        }
    }
}

impl<R: Read + Drop, W: Write + Drop> Disk for RealHost<R, W> {
    ghost leaves_files = { λ told host. absurd told };

    ghost leaves_blocks = { λ told host disk left. absurd told };

    ghost sized = { λ told host. absurd told };

    fn files(&self) -> u32 {
        self.sizes.len() as u32
    }

    fn blocks(&self, file: u32) -> u32 {
        self.sizes[file as usize]
    }

    fn make(&mut self, file: u32, blocks: u32) -> Result<(), Failed>
        requires room { file < 2 ^ 32 - 1 }
        ensures sizes { OnOk result (self.new.sizes.items ≡ with_item self.old.sizes.items file blocks) }
        ensures sizes_err { OnErr result ((self.new.sizes.items ≡ self.old.sizes.items)
            ⊎ (self.new.sizes.items ≡ with_item self.old.sizes.items file blocks)) }
        ensures cause { HasCause self.old.disk_faults self.new.disk_faults result }
        ensures port_faults { self.new.port_faults ≡ self.old.port_faults }
        ensures made { OnOk result (IfSome (calls_of self.new.medium) (EndsWith (making file))) }
    {
        let made = self.medium.make(file, blocks);
        counted(
            made,
            Call::Make(file),
            &mut self.disk_faults,
            &mut self.disk_failure,
        )?;
        counted(
            put_item(&mut self.sizes, file, blocks).map_err(io::Error::from),
            Call::Make(file),
            &mut self.disk_faults,
            &mut self.disk_failure,
        )
    }

    fn read(&mut self, file: u32, index: u32, into: &mut Block) -> Result<(), Failed>
        ensures sizes { self.new.sizes.items ≡ self.old.sizes.items }
        ensures cause { HasCause self.old.disk_faults self.new.disk_faults result }
        ensures port_faults { self.new.port_faults ≡ self.old.port_faults }
        ensures read { OnOk result (IfSome (calls_of self.new.medium) (IsReadSettled file)) }
    {
        counted(
            self.medium.read(file, index, into),
            Call::Read(file, index),
            &mut self.disk_faults,
            &mut self.disk_failure,
        )
    }

    fn write(&mut self, file: u32, index: u32, from: &Block) -> Result<(), Failed>
        ensures sizes { self.new.sizes.items ≡ self.old.sizes.items }
        ensures cause { HasCause self.old.disk_faults self.new.disk_faults result }
        ensures port_faults { self.new.port_faults ≡ self.old.port_faults }
        ensures written { OnOk result (IfSome (calls_of self.new.medium) (EndsWith ((SystemCall.Written file, true) ∷ []))) }
    {
        counted(
            self.medium.write(file, index, from),
            Call::Write(file, index),
            &mut self.disk_faults,
            &mut self.disk_failure,
        )
    }

    fn sync(&mut self, file: u32) -> Result<(), Failed>
        ensures sizes { self.new.sizes.items ≡ self.old.sizes.items }
        ensures cause { HasCause self.old.disk_faults self.new.disk_faults result }
        ensures port_faults { self.new.port_faults ≡ self.old.port_faults }
        ensures synced { OnOk result (IfSome (calls_of self.new.medium) (IsSynced file)) }
        ensures names { OnOk result (IfSome (calls_of self.new.medium) (λ calls. are_names_settled calls ≡ true)) }
        ensures certain { OnOk result (IfSome (calls_of self.new.medium) (λ calls. is_in_doubt file calls ≡ false)) }
    {
        counted(
            self.medium.sync(file),
            Call::Sync(file),
            &mut self.disk_faults,
            &mut self.disk_failure,
        )
    }
}

impl<R: Read + Drop, W: Write + Drop> Ports for RealHost<R, W> {
    fn turn(&mut self, into: &mut Block) -> Result<Turn, Failed> {
        counted(
            self.console.turn(into),
            Call::Input,
            &mut self.port_faults,
            &mut self.port_failure,
        )
    }

    fn reply(&mut self, port: u32, bytes: &[u8]) -> Result<(), Failed> {
        counted(
            self.console.reply(port, bytes),
            Call::Output,
            &mut self.port_faults,
            &mut self.port_failure,
        )
    }
}

impl<R: Read + Drop, W: Write + Drop> Host for RealHost<R, W> {}
