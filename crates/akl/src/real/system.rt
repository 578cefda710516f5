//! Calls of the system on a directory and its files.
//!
//! Each function notes what it does, in a list that only clauses read. That it does what it notes is trusted.
ghost use Rattle.std.specs.Prelude.{◌≡◌, ◌*◌};
ghost use Rattle.std.specs.Result.{is_ok};
ghost use Rattle.akl.specs.Calls.{noted};

use ak_host::Block;
use http_server::Log;
use std::collections::BTreeSet;
use std::fs::{File, OpenOptions, TryLockError};
use std::io::ErrorKind;
use std::os::fd::AsRawFd;
use std::os::unix::fs::{FileExt, OpenOptionsExt};
use std::{fs, io};

/// A call of the system.
#[derive(Clone, Copy)]
pub enum SystemCall {
    /// The directory is locked.
    Locked,
    /// The names in the directory are listed.
    Listed,
    /// The directory that has its name is synced.
    OwnNameSynced,
    /// The directory is synced.
    NamesSynced,
    /// A new file is filled with zeros, under the name with `.tmp`.
    Zeroed(u32),
    /// The new file is synced.
    ZerosSynced(u32),
    /// The new file gets its name.
    Renamed(u32),
    /// A file is synced.
    Synced(u32),
    /// The system's copies of a file's blocks are given up.
    Dropped(u32),
    /// A block of a file is read.
    Read(u32),
    /// A block of a file is written.
    Written(u32),
}

/// The calls that were made, in their order, each with whether it succeeded. It takes no memory.
pub type Calls = Log<SystemCall, bool>;

// Notes a call with whether it succeeded.
fn note<T>(calls: &mut Calls, call: SystemCall, outcome: io::Result<T>) -> io::Result<T>
    ensures same { result ≡ outcome }
    ensures noted { calls.new.items ≡ noted calls.old.items call (is_ok outcome) }
{
    *calls = calls.and(&call, &outcome.is_ok());
    outcome
}

// The place of a block in its file.
fn offset_of(index: u32) -> u64
    ensures { result ≡ index * 4096 }
{
    u64::from(index) * 4096
}

// Opens a directory, and locks it until it is closed, which a kill does too.
fn open_locked(rt: &HostRuntime, path: &str) -> io::Result<File> {
    if path.is_empty() {
        return Err(io::Error::from(ErrorKind::NotFound));
    }
    // By the dot a file in its place is refused, and not waited for.
    let dot = format!(in rt.alloc(); "{path}/.")?;
    let held = File::open(rt, dot.as_str())?;
    match held.try_lock() {
        Ok(()) => Ok(held),
        Err(TryLockError::WouldBlock) => Err(io::Error::new(
            ErrorKind::ResourceBusy,
            "another process is at work in it",
        )),
        Err(TryLockError::Error(error)) => Err(error),
    }
}

/// Opens a directory, and locks it until it is closed.
pub fn lock(calls: &mut Calls, rt: &HostRuntime, path: &str) -> io::Result<File>
    ensures { calls.new.items ≡ noted calls.old.items SystemCall.Locked (is_ok result) }
{
    note(calls, SystemCall::Locked, open_locked(rt, path))
}

// The names in a directory, but for those that aren't UTF-8.
fn names_in(rt: &HostRuntime, path: &str) -> io::Result<BTreeSet<String>> {
    let mut names = BTreeSet::new(rt.alloc());
    for entry in fs::read_dir(rt, path)? {
        match entry {
            Ok(entry) => {
                let name = String::from_str(rt.alloc(), entry.file_name())?;
                names.insert(name)?;
            }
            Err(error) => {
                if error.kind() != ErrorKind::InvalidFilename {
                    return Err(error);
                }
            }
        }
    }
    Ok(names)
}

/// The names in a directory, but for those that aren't UTF-8.
pub fn list(calls: &mut Calls, rt: &HostRuntime, path: &str) -> io::Result<BTreeSet<String>>
    ensures { calls.new.items ≡ noted calls.old.items SystemCall.Listed (is_ok result) }
{
    note(calls, SystemCall::Listed, names_in(rt, path))
}

// Syncs the directory in which a directory has its name.
fn sync_parent(rt: &HostRuntime, path: &str) -> io::Result<()> {
    let parent = format!(in rt.alloc(); "{path}/..")?;
    File::open(rt, parent.as_str())?.sync_all()
}

/// Makes a directory's own name last over a power cut.
pub fn sync_own_name(calls: &mut Calls, rt: &HostRuntime, path: &str) -> io::Result<()>
    ensures { calls.new.items ≡ noted calls.old.items SystemCall.OwnNameSynced (is_ok result) }
{
    note(calls, SystemCall::OwnNameSynced, sync_parent(rt, path))
}

/// Makes the names in a directory last over a power cut.
pub fn sync_names(calls: &mut Calls, directory: &File) -> io::Result<()>
    ensures { calls.new.items ≡ noted calls.old.items SystemCall.NamesSynced (is_ok result) }
{
    note(calls, SystemCall::NamesSynced, directory.sync_all())
}

/// Takes a name away, where it is there.
pub fn remove_left_over(rt: &HostRuntime, path: &str) -> io::Result<()> {
    match fs::remove_file(rt, path) {
        Ok(()) => Ok(()),
        Err(error) => {
            if error.kind() == ErrorKind::NotFound {
                return Ok(());
            }
            Err(error)
        }
    }
}

// Makes a file of zero blocks. What has the name is taken away first, so that no link is followed. Where it fails, as for want
// of room, it leaves no part of the file.
fn make_zeros(rt: &HostRuntime, path: &str, blocks: u32) -> io::Result<File> {
    remove_left_over(rt, path)?;
    let file = OpenOptions::new()
        .read(true)
        .write(true)
        .create_new(true)
        .mode(0o600)
        .open(rt, path)?;
    let zeros = [0; 4096];
    for index in 0..blocks {
        if let Err(error) = file.write_all_at(&zeros, offset_of(index)) {
            let _ = remove_left_over(rt, path);
            return Err(error);
        }
    }
    Ok(file)
}

/// Makes a file of zero blocks, which are not yet made to last.
pub fn zero(
    calls: &mut Calls,
    file: u32,
    rt: &HostRuntime,
    path: &str,
    blocks: u32,
) -> io::Result<File>
    ensures { calls.new.items ≡ noted calls.old.items (SystemCall.Zeroed file) (is_ok result) }
{
    note(
        calls,
        SystemCall::Zeroed(file),
        make_zeros(rt, path, blocks),
    )
}

/// Makes the zeros of a new file last over a power cut.
pub fn sync_zeros(calls: &mut Calls, file: u32, made: &File) -> io::Result<()>
    ensures { calls.new.items ≡ noted calls.old.items (SystemCall.ZerosSynced file) (is_ok result) }
{
    note(calls, SystemCall::ZerosSynced(file), made.sync_all())
}

/// Gives a new file its name, in the place of one that has it.
pub fn rename(
    calls: &mut Calls,
    file: u32,
    rt: &HostRuntime,
    from: &str,
    to: &str,
) -> io::Result<()>
    ensures { calls.new.items ≡ noted calls.old.items (SystemCall.Renamed file) (is_ok result) }
{
    note(calls, SystemCall::Renamed(file), fs::rename(rt, from, to))
}

/// Makes what was written to a file last over a power cut.
pub fn sync(calls: &mut Calls, file: u32, opened: &File) -> io::Result<()>
    ensures { calls.new.items ≡ noted calls.old.items (SystemCall.Synced file) (is_ok result) }
{
    note(calls, SystemCall::Synced(file), opened.sync_all())
}

// Has the system give up its copies of a file's blocks, as far as they were written to the disk.
fn give_up_copies(file: &File) -> io::Result<()> {
    let advised = libc::posix_fadvise(file.as_raw_fd(), 0, 0, libc::POSIX_FADV_DONTNEED);
    if advised == 0 {
        Ok(())
    } else {
        Err(io::Error::from_raw_os_error(advised))
    }
}

/// Has the system give up its copies of a file's blocks, so that reads come from the disk.
pub fn drop_copies(calls: &mut Calls, file: u32, opened: &File) -> io::Result<()>
    ensures { calls.new.items ≡ noted calls.old.items (SystemCall.Dropped file) (is_ok result) }
{
    note(calls, SystemCall::Dropped(file), give_up_copies(opened))
}

/// Reads a block. It fails where the file ends before the block does.
pub fn read(
    calls: &mut Calls,
    file: u32,
    opened: &File,
    index: u32,
    into: &mut Block,
) -> io::Result<()>
    ensures { calls.new.items ≡ noted calls.old.items (SystemCall.Read file) (is_ok result) }
{
    note(
        calls,
        SystemCall::Read(file),
        opened.read_exact_at(into, offset_of(index)),
    )
}

/// Writes a block.
pub fn write(
    calls: &mut Calls,
    file: u32,
    opened: &File,
    index: u32,
    from: &Block,
) -> io::Result<()>
    ensures { calls.new.items ≡ noted calls.old.items (SystemCall.Written file) (is_ok result) }
{
    note(
        calls,
        SystemCall::Written(file),
        opened.write_all_at(from, offset_of(index)),
    )
}
