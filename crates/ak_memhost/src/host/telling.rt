//! What a host in memory tells of itself.
ghost use Rattle.std.specs.Prelude.{◌≡◌, ◌<◌, ◌≤◌, ◌+◌, ◌^◌, ◌∷◌, [], length};
ghost use Rattle.ak_host.specs.Marks.{told_to};
ghost use Rattle.ak_host.specs.Moments.{mark_now};
ghost use Rattle.ak_memhost.specs.Host.{host_state, numbers_of};
ghost use Rattle.ak_memhost.specs.State.{reads_in, writes_in, told_by, told_in};

use super::MemHost;
use crate::Call;

impl MemHost {
    /// The number of moments: one before each call, one within it, and one after all. Moment `2i` is before call `i`, and
    /// `2i + 1` within it.
    pub fn moments(&self) -> u64
        ensures { result ≡ (host_state self.now).moment + 1 }
    {
        2 * self.calls.len() as u64 + 1
    }

    /// The bytes that a port was told.
    pub fn told(&self, port: u32) -> &[u8]
        ensures { result.now ≡ told_to port (mark_now (host_state self.now)).tellings }
    {
        self.heard.by(port)
    }

    /// How many bytes a port was told by a moment.
    pub fn told_at(&self, port: u32, moment: u64) -> u64
        ensures { result ≡ length (told_to port ((host_state self.now).mark moment).tellings) }
    {
        let all = self.told(port).len() as u64;
        let number = moment / 2;
        if number >= self.calls.len() as u64 {
            return all;
        }
        count_told(&self.calls[..number as usize], port)
    }

    /// How many calls failed for want of memory.
    pub fn refused(&self) -> u64
        ensures { result ≡ (numbers_of self.now).refused }
    {
        self.refused
    }

    /// How many blocks were read.
    pub fn reads(&self) -> u64
        ensures { result ≡ (host_state self.now).reads }
    {
        count_reads(&self.calls)
    }

    /// How many blocks were written.
    pub fn writes(&self) -> u64
        ensures { result ≡ (host_state self.now).writes }
    {
        count_writes(&self.calls)
    }
}

// 1 where a call read a block, and else 0.
fn read_by(call: &Call) -> u64
    ensures is { result ≡ reads_in (call.now ∷ []) }
    ensures few { result ≤ 1 }
{
    match call {
        Call::Read => 1,
        _ => 0,
    }
}

// 1 where a call wrote a block, and else 0.
fn written_by(call: &Call) -> u64
    ensures is { result ≡ writes_in (call.now ∷ []) }
    ensures few { result ≤ 1 }
{
    match call {
        Call::Write { .. } => 1,
        _ => 0,
    }
}

// How many bytes a call told a port.
fn told_by(call: &Call, port: u32) -> u64
    ensures { result ≡ told_by port call.now }
{
    match call {
        Call::Reply { port: own, bytes } => {
            if *own == port {
                bytes.as_slice().len() as u64
            } else {
                0
            }
        }
        _ => 0,
    }
}

fn count_reads(calls: &[Call]) -> u64
    ensures { result ≡ reads_in calls.now }
{
    let mut count = 0;
    for call in calls {
        count += read_by(call);
    }
    count
}

fn count_writes(calls: &[Call]) -> u64
    ensures { result ≡ writes_in calls.now }
{
    let mut count = 0;
    for call in calls {
        count += written_by(call);
    }
    count
}

fn count_told(calls: &[Call], port: u32) -> u64
    requires { told_in port calls.now < 2 ^ 64 }
    ensures { result ≡ told_in port calls.now }
{
    let mut count = 0;
    for call in calls {
        count += told_by(call, port);
    }
    count
}
