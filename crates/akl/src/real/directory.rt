//! Files of blocks in a directory.
ghost use Rattle.std.specs.Prelude.{◌≡◌, ◌/◌, ◌-◌, ◌^◌, ◌<◌, ◌≤◌, ◌++◌, [], true, false, min, length, Some, Ok, IfOk, OnOk, OnErr, slice_get};
ghost use Rattle.akl.specs.Calls.{noted, holding, zeroing, making, settling, EndsWith, HasFailedToSettle, IsReadSettled, IsSynced, are_names_settled, is_in_doubt};
ghost use Rattle.akl.specs.Opens.{given_up, with_mark, marked, is_marked, is_refused, settles, IsKept};

use super::items::put_item;
use super::system;
use super::system::{Calls, SystemCall};
use ak_host::Block;
use std::alloc::{AllocError, Global};
use std::collections::BTreeSet;
use std::fs::{DirBuilder, File, OpenOptions};
use std::io::ErrorKind;
use std::os::unix::fs::DirBuilderExt;
use std::{fs, io};

// The blocks that a file counts with whose length isn't told.
const UNTOLD: u32 = 4;

// What can be done in the directory.
#[derive(Clone, Copy)]
enum State {
    // It isn't there, and may be made.
    Absent,
    // It is held, and files may be made in it.
    Usable,
    // No file may be made or synced in it, for this cause.
    Unusable(io::Error),
}

/// Files of blocks in a directory. File 0 is `meta`, file 1 is `vol0001`, and so on.
///
/// The directory is locked for as long as this lasts, so that no other process is at work in it. The files are kept open.
/// One that can't be used has the cause in its place, and each call on it fails.
#[derive(Drop)]
pub struct Directory {
    rt: HostRuntime,
    path: String,
    state: State,
    // The directory itself, locked.
    held: Option<File>,
    // Whether the names up to here were made to last.
    settled: bool,
    files: Vec<io::Result<Opened>>,
    calls: Calls,
    ghost kept: { IsKept settled files.items calls.items },
}

// An open file.
#[derive(Drop)]
struct Opened {
    file: File,
    // Whether a read gives what a stop would leave, as far as nothing was written since.
    settled: bool,
}

// A file that is there, and the blocks that it counts with.
#[derive(Drop)]
struct Found {
    file: io::Result<Opened>,
    blocks: u32,
}

// The cause of a call on a file that isn't there.
fn no_file() -> io::Error {
    io::Error::new(ErrorKind::NotFound, "no such file is open")
}

// The cause of a call on a file whose name may be that of another.
fn in_doubt() -> io::Error {
    io::Error::new(ErrorKind::Other, "it is in doubt which file has the name")
}

fn name_of(alloc: Global, file: u32) -> Result<String, AllocError> {
    if file == 0 {
        String::from_str(alloc, "meta")
    } else {
        format!(in alloc; "vol{file:04}")
    }
}

// The blocks of a file of this length.
fn blocks_in(length: u64) -> u32
    ensures { result ≡ min (length / 4096) (2 ^ 32 - 1) }
{
    u32::try_from(length / 4096).unwrap_or(u32::MAX)
}

// Whether a name is one of a volume's file.
fn is_volume(name: &str) -> bool {
    match name.strip_prefix("vol") {
        Some(number) => number.len() >= 4 && number.bytes().all(|byte| byte.is_ascii_digit()),
        None => false,
    }
}

// Fails where volumes are there without `meta`: a store that lost it, or what is none of ours.
fn check_names(names: &BTreeSet<String>) -> io::Result<()> {
    if names.contains("meta") {
        return Ok(());
    }
    for name in names.iter() {
        if is_volume(name.as_str()) {
            let cause = "it holds files of volumes without meta";
            return Err(io::Error::new(ErrorKind::AlreadyExists, cause));
        }
    }
    Ok(())
}

// Opens a file that is there, for reading and writing.
fn open_file(rt: &HostRuntime, path: &str) -> io::Result<(Opened, u32)>
    ensures { IfOk result (λ found. found.0.settled ≡ false) }
{
    let file = OpenOptions::new().read(true).write(true).open(rt, path)?;
    let blocks = blocks_in(file.metadata()?.len());
    Ok((
        Opened {
            file,
            settled: false,
        },
        blocks,
    ))
}

// Opens a file that is there, or tells why it can't be used.
fn find_file(rt: &HostRuntime, path: &str) -> Found
    ensures { settles result.file ≡ false }
{
    match open_file(rt, path) {
        Ok((opened, blocks)) => Found {
            file: Ok(opened),
            blocks,
        },
        Err(error) => {
            let blocks = match fs::metadata(rt, path) {
                Ok(metadata) => blocks_in(metadata.len()),
                Err(_) => UNTOLD,
            };
            Found {
                file: Err(error),
                blocks,
            }
        }
    }
}

// The open file of this number.
fn find_open(files: &[io::Result<Opened>], file: u32) -> io::Result<&Opened>
    ensures { IfOk result (λ opened. slice_get files.now file ≡ Some (Ok opened.now)) }
{
    match files.get(file as usize) {
        Some(Ok(opened)) => Ok(opened),
        Some(Err(error)) => Err(*error),
        None => Err(no_file()),
    }
}

// Closes a file that is open, and keeps the cause.
fn give_up(files: &mut Vec<io::Result<Opened>>, file: u32, cause: io::Error)
    ensures { files.new.items ≡ given_up files.old.items file cause }
{
    if (file as usize) < files.len() {
        files[file as usize] = Err(cause);
    }
}

// Notes of a file that it is settled, where it is open.
fn mark_item(item: &mut io::Result<Opened>)
    ensures { item.new ≡ with_mark item.old }
{
    if let Ok(opened) = item {
        opened.settled = true;
    }
}

// Notes of a file in the list that it is settled, where it is open.
fn mark(files: &mut Vec<io::Result<Opened>>, file: u32)
    ensures { files.new.items ≡ marked files.old.items file }
{
    if (file as usize) < files.len() {
        mark_item(&mut files[file as usize]);
    }
}

// Syncs a file, and has the system give up its copies of `meta`.
fn settle(calls: &mut Calls, file: u32, opened: &File) -> io::Result<()>
    ensures ok { OnOk result (calls.new.items ≡ calls.old.items ++ settling file) }
    ensures err { OnErr result (HasFailedToSettle file calls.old.items calls.new.items) }
{
    system::sync(calls, file, opened)?;
    if file == 0 {
        system::drop_copies(calls, file, opened)?;
    }
    Ok(())
}

impl Directory {
    /// The directory of this path, and the blocks of its files. It makes nothing.
    ///
    /// The files are those up to the first gap. Where the directory is there and can't be held or listed, they are a file 0
    /// of 4 blocks that can't be used.
    pub fn open(rt: HostRuntime, path: &str) -> Result<(Directory, Vec<u32>), AllocError>
        ensures { IfOk result (λ found. length found.1.items < 2 ^ 32) }
    {
        let alloc = rt.alloc();
        let mut directory = Directory {
            rt,
            path: String::from_str(alloc, path)?,
            state: State::Usable,
            held: None,
            settled: false,
            files: Vec::new(alloc),
            calls: Calls::new(),
        };
        let mut sizes = Vec::new(alloc);
        directory.open_all(&mut sizes)?;
        Ok((directory, sizes))
    }

    // Holds the directory, and opens its files. It tells the blocks of each.
    fn open_all(&mut self, sizes: &mut Vec<u32>) -> Result<(), AllocError>
        requires { sizes.old.items ≡ [] }
        ensures { length sizes.new.items < 2 ^ 32 }
    {
        match self.hold_and_list() {
            Ok(names) => {
                if let Err(error) = check_names(&names) {
                    self.state = State::Unusable(error);
                }
                self.open_files(&names, sizes)
            }
            Err(error) => match error.kind() {
                ErrorKind::OutOfMemory => Err(AllocError),
                ErrorKind::NotFound => {
                    self.state = State::Absent;
                    Ok(())
                }
                _ => {
                    self.state = State::Unusable(error);
                    self.files.push(Err(error))?;
                    sizes.push(UNTOLD)?;
                    Ok(())
                }
            },
        }
    }

    /// Why nothing more can be made or synced in the directory, and its path.
    pub fn fault(&self) -> Option<(&str, io::Error)> {
        match self.state {
            State::Unusable(error) => Some((self.path.as_str(), error)),
            _ => None,
        }
    }

    // Locks the directory, and then lists it, so that nobody changes it in between.
    fn hold_and_list(&mut self) -> io::Result<BTreeSet<String>>
        ensures calls { OnOk result (self.new.calls.items ≡ self.old.calls.items ++ holding) }
    {
        let held = system::lock(&mut self.calls, &self.rt, self.path.as_str())?;
        let names = system::list(&mut self.calls, &self.rt, self.path.as_str())?;
        self.held = Some(held);
        Ok(names)
    }

    // Opens the files of these names, up to the first gap.
    fn open_files(
        &mut self,
        names: &BTreeSet<String>,
        sizes: &mut Vec<u32>,
    ) -> Result<(), AllocError>
        requires { sizes.old.items ≡ [] }
        ensures { length sizes.new.items < 2 ^ 32 }
    {
        let alloc = self.rt.alloc();
        for file in 0..u32::MAX {
            let name = name_of(alloc, file)?;
            if !names.contains(name.as_str()) {
                break;
            }
            let path = self.path_of(file)?;
            let found = find_file(&self.rt, path.as_str());
            self.files.push(found.file)?;
            sizes.push(found.blocks)?;
        }
        Ok(())
    }

    /// The path of a file.
    pub fn path_of(&self, file: u32) -> Result<String, AllocError> {
        let alloc = self.rt.alloc();
        let path = self.path.as_str();
        let name = name_of(alloc, file)?;
        format!(in alloc; "{path}/{name}")
    }

    // Makes the directory, for its owner alone, and holds it. Another process may have come between, so it must be empty.
    fn make_and_hold(&mut self) -> io::Result<()> {
        let made = DirBuilder::new()
            .mode(0o700)
            .create(&self.rt, self.path.as_str());
        if let Err(error) = made {
            self.state = State::Unusable(error);
            return Err(error);
        }
        self.state = State::Unusable(in_doubt());
        let names = self.hold_and_list()?;
        if !names.is_empty() {
            let cause = "another process made files in it";
            return Err(io::Error::new(ErrorKind::ResourceBusy, cause));
        }
        self.state = State::Usable;
        Ok(())
    }

    // Makes the directory where it isn't there. It makes no parent of it.
    fn make_directory(&mut self) -> io::Result<()> {
        match self.state {
            State::Usable => Ok(()),
            State::Unusable(error) => Err(error),
            State::Absent => self.make_and_hold(),
        }
    }

    // Makes the names in the directory last over a power cut. After a failure nothing more is made or synced.
    fn sync_names(&mut self) -> io::Result<()>
        ensures calls { OnOk result (self.new.calls.items ≡ noted self.old.calls.items SystemCall.NamesSynced true) }
        ensures files { self.new.files ≡ self.old.files }
    {
        let Some(held) = &self.held else {
            return Err(no_file());
        };
        let synced = system::sync_names(&mut self.calls, held);
        if let Err(error) = synced {
            self.state = State::Unusable(error);
        }
        synced
    }

    // Makes the directory's own name last over a power cut.
    fn sync_own_name(&mut self) -> io::Result<()>
        ensures calls { OnOk result (self.new.calls.items ≡ noted self.old.calls.items SystemCall.OwnNameSynced true) }
        ensures files { self.new.files ≡ self.old.files }
    {
        let synced = system::sync_own_name(&mut self.calls, &self.rt, self.path.as_str());
        if let Err(error) = synced {
            self.state = State::Unusable(error);
        }
        synced
    }

    // Makes all names last over a power cut, before the first file is made or synced: the process that made them may have
    // been stopped before it did so.
    fn settle_names(&mut self) -> io::Result<()>
        ensures settled { OnOk result (self.new.settled ≡ true) }
        ensures files { self.new.files ≡ self.old.files }
    {
        if let State::Unusable(error) = self.state {
            return Err(error);
        }
        if !self.settled {
            self.sync_own_name()?;
            self.sync_names()?;
            self.settled = true;
        }
        Ok(())
    }

    // Fails at a file that is there and can't be used, and past the next one.
    fn check_usable(&self, file: u32) -> io::Result<()>
        ensures next { OnOk result (file ≤ length self.now.files.items) }
        ensures usable { OnOk result (is_refused self.now.files.items file ≡ false) }
    {
        match self.files.get(file as usize) {
            Some(Ok(_)) => Ok(()),
            Some(Err(error)) => Err(*error),
            None => {
                if file as usize > self.files.len() {
                    return Err(no_file());
                }
                Ok(())
            }
        }
    }

    // Makes a new file of zeros under this name, which a power cut leaves. Where it fails, it leaves no part of the file.
    fn make_zeros(&mut self, file: u32, path: &str, blocks: u32) -> io::Result<File>
        ensures calls { OnOk result (self.new.calls.items ≡ self.old.calls.items ++ zeroing file) }
        ensures files { self.new.files ≡ self.old.files }
    {
        let made = system::zero(&mut self.calls, file, &self.rt, path, blocks)?;
        if let Err(error) = system::sync_zeros(&mut self.calls, file, &made) {
            let _ = system::remove_left_over(&self.rt, path);
            return Err(error);
        }
        Ok(made)
    }

    /// Makes a file of zero blocks, the next one or in the place of one that is there.
    ///
    /// Where it fails from the renaming on, it isn't known which file has the name. So a file that was there is given up,
    /// and each later call on it fails.
    pub fn make(&mut self, file: u32, blocks: u32) -> io::Result<()>
        ensures made { OnOk result (EndsWith (making file) self.new.calls.items) }
    {
        self.make_directory()?;
        self.settle_names()?;
        self.check_usable(file)?;
        let alloc = self.rt.alloc();
        let path = self.path_of(file)?;
        let temporary = format!(in alloc; "{path}.tmp")?;
        self.files.reserve(1)?;
        let made = self.make_zeros(file, temporary.as_str(), blocks)?;
        give_up(&mut self.files, file, in_doubt());
        system::rename(
            &mut self.calls,
            file,
            &self.rt,
            temporary.as_str(),
            path.as_str(),
        )?;
        self.sync_names()?;
        let opened = Opened {
            file: made,
            settled: true,
        };
        put_item(&mut self.files, file, Ok(opened))?;
        Ok(())
    }

    // Syncs a file that was there, and all names, before its first read or sync. Answers whether that was so already. After a
    // failure each later call on the file fails.
    //
    // `meta` is read from the disk then: where a sync failed in an earlier process, the system keeps what it couldn't write,
    // takes it for written, and lets the next sync succeed. Of a volume that isn't needed: what is read there is named by a
    // view, and its blocks were synced by the process that took the view, before it opened the gate.
    fn settle_file(&mut self, file: u32) -> io::Result<bool>
        ensures names { OnOk result (are_names_settled self.new.calls.items ≡ true) }
        ensures settled { OnOk result (is_marked self.new.files.items file ≡ true) }
        ensures synced { result ≡ Ok false → EndsWith (settling file) self.new.calls.items }
    {
        self.settle_names()?;
        let opened = find_open(&self.files, file)?;
        if opened.settled {
            return Ok(true);
        }
        let settled = settle(&mut self.calls, file, &opened.file);
        if let Err(error) = settled {
            give_up(&mut self.files, file, error);
            return Err(error);
        }
        mark(&mut self.files, file);
        Ok(false)
    }

    /// Reads a block. It fails where the file ends before the block does.
    pub fn read(&mut self, file: u32, index: u32, into: &mut Block) -> io::Result<()>
        ensures read { OnOk result (IsReadSettled file self.new.calls.items) }
    {
        self.settle_file(file)?;
        let opened = find_open(&self.files, file)?;
        system::read(&mut self.calls, file, &opened.file, index, into)
    }

    /// Writes a block.
    pub fn write(&mut self, file: u32, index: u32, from: &Block) -> io::Result<()>
        ensures written { OnOk result (self.new.calls.items ≡ noted self.old.calls.items (SystemCall.Written file) true) }
    {
        let opened = find_open(&self.files, file)?;
        system::write(&mut self.calls, file, &opened.file, index, from)
    }

    /// Makes what was written to a file last over a power cut, and with the first call all names.
    ///
    /// After a failure the system may take for written what isn't, and a second sync would succeed. So each later call on
    /// the file fails.
    pub fn sync(&mut self, file: u32) -> io::Result<()>
        ensures synced { OnOk result (IsSynced file self.new.calls.items) }
        ensures names { OnOk result (are_names_settled self.new.calls.items ≡ true) }
        ensures certain { OnOk result (is_in_doubt file self.new.calls.items ≡ false) }
    {
        if !self.settle_file(file)? {
            return Ok(());
        }
        let opened = find_open(&self.files, file)?;
        let synced = system::sync(&mut self.calls, file, &opened.file);
        if let Err(error) = synced {
            give_up(&mut self.files, file, error);
        }
        synced
    }
}
