ghost use Rattle.std.specs.Prelude.{◌≡◌, ◌<◌, true, length, slice_index};

use crate::real::RealHost;
use ak_host::{Block, Disk, Failed, Ports, Turn};
use std::alloc::AllocError;
use std::fs;
use std::io::{Error, ErrorKind, Read, Result, Write};
use std::os::unix::fs::symlink;
use std::process::Abort;
use std::test::Fail;

// An input of one piece whose second read fails, and an output that fails.
#[derive(Drop)]
struct Broken {
    reads: u32,
}

impl Read for Broken {
    fn read(&mut self, buf: &mut [u8]) -> Result<usize> {
        self.reads = self.reads.saturating_add(1);
        if self.reads > 1 || buf.is_empty() {
            return Err(Error::from(ErrorKind::Other));
        }
        buf[0] = b'+';
        Ok(1)
    }
}

impl Write for Broken {
    fn write(&mut self, _buf: &[u8]) -> Result<usize> {
        Err(Error::from(ErrorKind::BrokenPipe))
    }

    fn flush(&mut self) -> Result<()> {
        Ok(())
    }
}

#[test]
fn gives_the_input_its_end_and_done(rt: HostRuntime) -> std::result::Result<(), Fail> {
    let input: &[u8] = b"+a";
    let alloc = rt.alloc();
    let mut host = RealHost::in_memory(alloc, input, Vec::new(alloc));
    let mut block = [0; 4096];
    assert_eq!(rt; host.turn(&mut block), Ok(Turn::Bytes { port: 1, n: 2 }));
    assert_eq!(rt; block[..2], *b"+a".as_slice());
    assert_eq!(rt; host.turn(&mut block), Ok(Turn::End { port: 1 }));
    assert_eq!(rt; host.turn(&mut block), Ok(Turn::Done));
    assert_eq!(rt; host.reply(1, b"x"), Ok(()));
    Ok(())
}

#[test]
fn faults_are_failed_calls(rt: HostRuntime) -> std::result::Result<(), Fail> {
    let mut host = RealHost::in_memory(rt.alloc(), Broken { reads: 0 }, Broken { reads: 0 });
    let mut block = [0; 4096];
    assert_eq!(rt; host.turn(&mut block), Ok(Turn::Bytes { port: 1, n: 1 }));
    assert_eq!(rt; host.turn(&mut block), Err(Failed));
    assert_eq!(rt; host.reply(1, b"x"), Err(Failed));
    assert_eq!(rt; host.reply(0, b"x"), Err(Failed));
    Ok(())
}

type Fake = RealHost<&'static [u8], Vec<u8>>;

// A host over a directory, without input.
fn open(rt: HostRuntime, path: &str) -> std::result::Result<Fake, AllocError> {
    let input: &'static [u8] = b"";
    RealHost::in_directory(rt, path, input, Vec::new(rt.alloc()))
}

// Tests ask first whether a file or a block is there, so that no fact of the sizes has to last from call to call.
fn is_there<D: Disk>(disk: &D, file: u32, index: u32) -> bool
    ensures { result ≡ true → (file < length (D.state disk.now).sizes) × (index < slice_index (D.state disk.now).sizes file) }
{
    file < disk.files() && index < disk.blocks(file)
}

fn make<D: Disk>(disk: &mut D, file: u32, blocks: u32) -> bool {
    file <= disk.files() && file < u32::MAX && blocks > 0 && disk.make(file, blocks).is_ok()
}

// Writes a block of one byte throughout.
fn write<D: Disk>(disk: &mut D, file: u32, index: u32, byte: u8) -> bool {
    let block: Block = [byte; 4096];
    is_there(disk, file, index) && disk.write(file, index, &block).is_ok()
}

fn sync<D: Disk>(disk: &mut D, file: u32) -> bool {
    file < disk.files() && disk.sync(file).is_ok()
}

// The last byte of a block.
fn last_byte<D: Disk>(disk: &mut D, file: u32, index: u32) -> Option<u8> {
    let mut block = [9; 4096];
    if is_there(disk, file, index) && disk.read(file, index, &mut block).is_ok() {
        Some(block[4095])
    } else {
        None
    }
}

// The blocks of a file that is there.
fn blocks<D: Disk>(disk: &D, file: u32) -> Option<u32> {
    if file < disk.files() {
        Some(disk.blocks(file))
    } else {
        None
    }
}

// Makes two files, and writes and reads back in them.
fn fill<D: Disk>(rt: &impl Abort, disk: &mut D) {
    assert_eq!(rt; disk.files(), 0);
    assert!(rt; make(disk, 0, 1));
    assert!(rt; make(disk, 1, 3));
    assert!(rt; write(disk, 0, 0, 5));
    assert!(rt; write(disk, 1, 1, 7));
    assert!(rt; write(disk, 1, 2, 8));
    assert!(rt; sync(disk, 0));
    assert!(rt; sync(disk, 1));
    check_filled(rt, disk);
}

fn check_filled<D: Disk>(rt: &impl Abort, disk: &mut D) {
    assert_eq!(rt;
        (blocks(disk, 0), blocks(disk, 1), blocks(disk, 2)),
        (Some(1), Some(3), None)
    );
    assert_eq!(rt; last_byte(disk, 0, 0), Some(5));
    assert_eq!(rt; last_byte(disk, 1, 0), Some(0));
    assert_eq!(rt; last_byte(disk, 1, 1), Some(7));
    assert_eq!(rt; last_byte(disk, 1, 2), Some(8));
    assert_eq!(rt; last_byte(disk, 1, 3), None);
}

// Makes a file in the place of one that is there.
fn make_anew<D: Disk>(rt: &impl Abort, disk: &mut D) {
    assert!(rt; make(disk, 0, 2));
    assert_eq!(rt;
        (blocks(disk, 0), blocks(disk, 1), blocks(disk, 2)),
        (Some(2), Some(3), None)
    );
    assert_eq!(rt;
        (last_byte(disk, 0, 0), last_byte(disk, 0, 1)),
        (Some(0), Some(0))
    );
    assert!(rt; write(disk, 0, 1, 6));
    assert_eq!(rt;
        (last_byte(disk, 0, 1), last_byte(disk, 1, 1)),
        (Some(6), Some(7))
    );
}

#[test]
fn files_in_memory(rt: HostRuntime) -> std::result::Result<(), Fail> {
    let alloc = rt.alloc();
    let input: &[u8] = b"";
    let mut host = RealHost::in_memory(alloc, input, Vec::new(alloc));
    fill(&rt, &mut host);
    make_anew(&rt, &mut host);
    Ok(())
}

// A second host on the directory finds what the first made, once that is gone. The first `make` makes the directory.
#[test]
fn files_in_a_directory(rt: HostRuntime) -> std::result::Result<(), Fail> {
    let _ = fs::remove_dir_all(&rt, "akl_filled");
    let mut host = open(rt, "akl_filled")?;
    assert!(rt; !fs::exists(&rt, "akl_filled")?);
    fill(&rt, &mut host);
    let mut early = open(rt, "akl_filled")?;
    assert_eq!(rt; (blocks(&early, 0), blocks(&early, 1)), (Some(4), None));
    assert_eq!(rt; last_byte(&mut early, 0, 0), None);
    assert!(rt; !make(&mut early, 1, 1));
    drop(early);
    check_filled(&rt, &mut host);
    drop(host);
    let mut host = open(rt, "akl_filled")?;
    check_filled(&rt, &mut host);
    assert_eq!(rt; fs::metadata(&rt, "akl_filled/meta")?.len(), 4096);
    assert_eq!(rt; fs::metadata(&rt, "akl_filled/vol0001")?.len(), 12288);
    make_anew(&rt, &mut host);
    drop(host);
    let mut second = open(rt, "akl_filled")?;
    assert_eq!(rt;
        (blocks(&second, 0), last_byte(&mut second, 0, 1)),
        (Some(2), Some(6))
    );
    fs::remove_dir_all(&rt, "akl_filled")?;
    Ok(())
}

// Left over files that are no store's are no files, nor are those past a gap. A part of a block is no block.
#[test]
fn files_up_to_a_gap(rt: HostRuntime) -> std::result::Result<(), Fail> {
    let _ = fs::remove_dir_all(&rt, "akl_gap");
    fs::create_dir(&rt, "akl_gap")?;
    fs::write(&rt, "akl_gap/meta.tmp", "left over")?;
    assert_eq!(rt; open(rt, "akl_gap")?.files(), 0);
    fs::write(&rt, "akl_gap/meta", [1; 4097].as_slice())?;
    fs::write(&rt, "akl_gap/vol0001", "short")?;
    fs::write(&rt, "akl_gap/vol0003", [3; 4096].as_slice())?;
    let mut host = open(rt, "akl_gap")?;
    assert_eq!(rt;
        (blocks(&host, 0), blocks(&host, 1), blocks(&host, 2)),
        (Some(1), Some(0), None)
    );
    assert_eq!(rt; last_byte(&mut host, 0, 0), Some(1));
    assert!(rt; make(&mut host, 0, 1));
    assert_eq!(rt; last_byte(&mut host, 0, 0), Some(0));
    assert!(rt; !fs::exists(&rt, "akl_gap/meta.tmp")?);
    assert!(rt; make(&mut host, 2, 1));
    drop(host);
    let mut host = open(rt, "akl_gap")?;
    assert_eq!(rt; host.files(), 4);
    fs::write(&rt, "akl_gap/meta", [2; 4095].as_slice())?;
    assert_eq!(rt; last_byte(&mut host, 0, 0), None);
    fs::remove_dir_all(&rt, "akl_gap")?;
    Ok(())
}

// Volumes without `meta` aren't written over, and a link in the place of a new file isn't followed.
#[test]
fn what_is_there_stays(rt: HostRuntime) -> std::result::Result<(), Fail> {
    let _ = fs::remove_dir_all(&rt, "akl_stays");
    fs::create_dir(&rt, "akl_stays")?;
    fs::write(&rt, "akl_stays/vol0002", "kept")?;
    let mut host = open(rt, "akl_stays")?;
    assert_eq!(rt; host.files(), 0);
    assert!(rt; !make(&mut host, 0, 1));
    drop(host);
    fs::remove_file(&rt, "akl_stays/vol0002")?;
    fs::write(&rt, "akl_stays/other", "kept")?;
    symlink(&rt, "other", "akl_stays/meta.tmp")?;
    let mut host = open(rt, "akl_stays")?;
    assert!(rt; make(&mut host, 0, 1));
    assert_eq!(rt; fs::metadata(&rt, "akl_stays/other")?.len(), 4);
    assert_eq!(rt; fs::metadata(&rt, "akl_stays/meta")?.len(), 4096);
    drop(host);
    fs::remove_dir_all(&rt, "akl_stays")?;
    Ok(())
}

// A make that fails before the renaming leaves the file, and one that fails in it gives the file up.
#[test]
fn failed_makes(rt: HostRuntime) -> std::result::Result<(), Fail> {
    let _ = fs::remove_dir_all(&rt, "akl_failed");
    let mut host = open(rt, "akl_failed")?;
    fill(&rt, &mut host);
    fs::create_dir(&rt, "akl_failed/meta.tmp")?;
    assert!(rt; !make(&mut host, 0, 2));
    check_filled(&rt, &mut host);
    fs::remove_dir(&rt, "akl_failed/meta.tmp")?;
    fs::create_dir(&rt, "akl_failed/vol0002")?;
    assert!(rt; !make(&mut host, 2, 1));
    check_filled(&rt, &mut host);
    fs::remove_dir(&rt, "akl_failed/vol0002")?;
    assert!(rt; make(&mut host, 2, 1));
    fs::remove_file(&rt, "akl_failed/meta")?;
    fs::create_dir(&rt, "akl_failed/meta")?;
    assert!(rt; !make(&mut host, 0, 2));
    assert_eq!(rt; blocks(&host, 0), Some(1));
    assert_eq!(rt; last_byte(&mut host, 0, 0), None);
    assert!(rt; !make(&mut host, 0, 1));
    assert_eq!(rt; last_byte(&mut host, 1, 1), Some(7));
    fs::remove_dir_all(&rt, "akl_failed")?;
    Ok(())
}

// What is there and can't be used counts, and each call on it fails.
#[test]
fn files_that_cant_be_used(rt: HostRuntime) -> std::result::Result<(), Fail> {
    let _ = fs::remove_dir_all(&rt, "akl_unusable");
    fs::create_dir(&rt, "akl_unusable")?;
    fs::create_dir(&rt, "akl_unusable/meta")?;
    fs::write(&rt, "akl_unusable/file", "no directory")?;
    symlink(&rt, "nowhere", "akl_unusable/vol0001")?;
    let mut host = open(rt, "akl_unusable")?;
    assert_eq!(rt; host.files(), 2);
    // A link to nowhere tells no length.
    assert_eq!(rt;
        (blocks(&host, 1), last_byte(&mut host, 1, 3)),
        (Some(4), None)
    );
    assert!(rt; !make(&mut host, 1, 1));
    assert!(rt; !make(&mut host, 0, 1));
    assert!(rt; !sync(&mut host, 0));
    for path in ["akl_unusable/file", "akl_unusable/file/below"] {
        let mut host = open(rt, path)?;
        assert_eq!(rt;
            (blocks(&host, 0), blocks(&host, 1)),
            (Some(4), None),
            "at {path}"
        );
        assert_eq!(rt; last_byte(&mut host, 0, 3), None, "at {path}");
        assert!(rt; !write(&mut host, 0, 3, 1), "at {path}");
        assert!(rt; !make(&mut host, 1, 1), "at {path}");
    }
    // The empty word is no directory, and no parent is made.
    for path in ["", "akl_unusable/absent/below"] {
        let mut host = open(rt, path)?;
        assert_eq!(rt; host.files(), 0, "at {path}");
        assert!(rt; !make(&mut host, 0, 1), "at {path}");
        assert_eq!(rt; host.files(), 0, "at {path}");
    }
    fs::remove_dir_all(&rt, "akl_unusable")?;
    Ok(())
}
