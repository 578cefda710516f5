//! The places of standard input, standard output and standard error.
use std::alloc::AllocError;
use std::fs::File;
use std::io;
use std::os::fd::AsRawFd;

/// Holds the places of the standard streams that aren't open, so that no file of a store gets one of them.
///
/// What holds a place can neither be read nor written: it is a directory.
#[derive(Drop)]
pub struct Held {
    files: Vec<File>,
}

impl Held {
    /// Takes the places. The system gives the lowest that is free, so it opens until that is past them.
    pub fn take(rt: &HostRuntime) -> io::Result<Held> {
        let mut files = Vec::new(rt.alloc());
        for _ in 0..3 {
            let file = File::open(rt, "/")?;
            if file.as_raw_fd() > 2 {
                break;
            }
            files.push(file)?;
        }
        Ok(Held { files })
    }

    /// Whether the place is held, since the stream isn't open.
    pub fn holds(&self, place: i32) -> bool {
        for file in self.files.iter() {
            if file.as_raw_fd() == place {
                return true;
            }
        }
        false
    }
}
