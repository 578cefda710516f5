//! Sessions.
ghost use Rattle.std.specs.Prelude.{◌≡◌, ◌↔◌, [], List, ℕ, IfOk, IsTrue};
ghost use Rattle.ak_run.specs.Run.{IsCut};
ghost use Rattle.ak_node.specs.Standing.{HasRead, place_of};

use ak_resp::Resp;
use std::alloc::{AllocError, Global};

/// A session: its port, its reader, and whether its fault was told.
#[derive(Drop)]
pub struct Session {
    pub port: u32,
    pub reader: Resp,
    pub faulted: bool,
}

impl Session {
    /// A session that begins.
    pub fn new(alloc: Global, port: u32) -> Result<Session, AllocError>
        ensures port { IfOk result (λ session. session.port ≡ port) }
        ensures reads { IfOk result (λ session. HasRead session []) }
    {
        Ok(Session {
            port,
            reader: Resp::new(alloc)?,
            faulted: false,
        })
    }

    /// Whether its end is inside a message.
    pub fn is_cut(&self) -> bool
        ensures { (stream : List ℕ) → HasRead self.now stream → (IsTrue result ↔ IsCut stream) }
    {
        !self.faulted && self.reader.inside()
    }
}

/// Where the first session is whose port isn't below this one.
pub fn place(sessions: &[Session], port: u32) -> usize
    ensures { result ≡ place_of sessions.now port }
{
    for at in 0..sessions.len() {
        if sessions[at].port >= port {
            return at;
        }
    }
    sessions.len()
}
