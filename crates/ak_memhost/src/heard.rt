//! What ports were told, in a buffer for each.
ghost use Rattle.std.specs.Prelude.{◌≡◌, ◌≢◌, ◌<◌, ◌≤◌, ◌++◌, [], ℕ, if◌then◌else◌, ◌==◌, OnOk, OnErr, MatchOption, length};
ghost use Rattle.ak_memhost.specs.Heard.{heard_by, IsNotBefore, IsFirstAt};

use crate::call::copy_bytes;
use ak_base::Bytes;
use std::alloc::{AllocError, Global};
use std::marker::Model;

/// The bytes that a port was told.
#[derive(Drop)]
pub struct PortBytes {
    pub port: u32,
    pub bytes: Bytes,
}

/// The bytes that each port was told, seen as a list of ports with their bytes. A port that was told nothing may stand
/// in it or not.
#[derive(Drop)]
pub struct Heard {
    ports: Vec<PortBytes>,
}

impl Model for Heard {
    ghost use Rattle.std.specs.Prelude.{List};
    ghost use Rattle.ak_memhost.specs.declared.heard.PortBytes.{PortBytes};

    ghost Value = { List PortBytes };

    ghost view = { λ h. h.ports.items };
}

// Where a port's buffer stands.
fn index_of(ports: &[PortBytes], port: u32) -> Option<usize>
    ensures { MatchOption result (IsNotBefore port ports.now (length ports.now)) (λ i. IsFirstAt port ports.now i) }
{
    for (i, told) in ports.iter().enumerate() {
        if told.port == port {
            return Some(i);
        }
    }
    None
}

impl Heard {
    /// No port was told anything. It takes no memory.
    pub fn new(alloc: Global) -> Self
        ensures { result ≡ [] }
    {
        Heard {
            ports: Vec::new(alloc),
        }
    }

    /// All the bytes that a port was told.
    pub fn by(&self, port: u32) -> &[u8]
        ensures { result.now ≡ heard_by port self.now }
    {
        for told in &self.ports {
            if told.port == port {
                return told.bytes.as_slice();
            }
        }
        &[]
    }

    /// Tells a port bytes. After an `Err` each port was told what it was before.
    pub fn tell(&mut self, alloc: Global, port: u32, bytes: &[u8]) -> Result<(), AllocError>
        ensures ok { OnOk result ((p : ℕ) → heard_by p self.new ≡ heard_by p self.old ++ (if port == p then bytes.now else [])) }
        ensures err { OnErr result (self.new ≡ self.old) }
    {
        match index_of(&self.ports, port) {
            Some(i) => {
                let told = &mut self.ports[i];
                told.bytes.extend(alloc, bytes)
            }
            None => {
                let bytes = copy_bytes(alloc, bytes)?;
                self.ports.push(PortBytes { port, bytes })?;
                Ok(())
            }
        }
    }
}
