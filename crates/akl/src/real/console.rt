//! Ports over one input and one output.
ghost use Rattle.std.specs.Prelude.{IfOk};
ghost use Rattle.ak_host.specs.Marks.{IsTurn};

use ak_host::{Block, Turn};
use std::io;
use std::io::{ErrorKind, Read, Write};

/// One input, which is port 1, and one output, which is told what ports 0 and 1 are told.
///
/// The input is given in turns of up to 4096 bytes, then its end, and then `Done`.
#[derive(Drop)]
pub struct Console<R: Read + Drop, W: Write + Drop> {
    input: R,
    output: W,
    ended: bool,
}

impl<R: Read + Drop, W: Write + Drop> Console<R, W> {
    /// Ports over this input and output.
    pub fn new(input: R, output: W) -> Console<R, W> {
        Console {
            input,
            output,
            ended: false,
        }
    }

    /// The next turn. A read that was interrupted is an idle turn.
    pub fn turn(&mut self, into: &mut Block) -> io::Result<Turn>
        ensures { IfOk result IsTurn }
    {
        if self.ended {
            return Ok(Turn::Done);
        }
        match self.input.read(into) {
            Ok(0) => {
                self.ended = true;
                Ok(Turn::End { port: 1 })
            }
            Ok(n) => Ok(Turn::Bytes {
                port: 1,
                n: n as u32,
            }),
            Err(error) => {
                if error.kind() == ErrorKind::Interrupted {
                    return Ok(Turn::Idle);
                }
                Err(error)
            }
        }
    }

    /// Tells a port bytes. Ports from 2 on have nobody to hear them.
    pub fn reply(&mut self, port: u32, bytes: &[u8]) -> io::Result<()> {
        if port > 1 {
            return Ok(());
        }
        self.output.write_all(bytes)
    }
}
