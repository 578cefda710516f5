//! The node: the store, the open sessions, and what one turn makes of them.
ghost use Rattle.std.specs.Prelude.{◌≡◌, ◌⊎◌, ◌≤◌, ◌<◌, ◌↔◌, ℕ, List, length, Some, None, Err, OnOk, IfOk, IfErr, IfSome, IsTrue, MatchOption};
ghost use Rattle.std.specs.List.{AllByRecursion};
ghost use Rattle.ak_host.specs.Files.{Files};
ghost use Rattle.ak_host.specs.Marks.{taken, piece, ended, done, IsTurn};
ghost use Rattle.ak_host.specs.Moments.{Passes, PortPasses, LeavesNow, mark_now};
ghost use Rattle.ak_run.specs.Run.{World, IsOneTooMany, bytes_of};
ghost use Rattle.ak_run.specs.Sessions.{Session as Stream, stream_at, with_session};
ghost use Rattle.ak_meta.specs.Contents.{Content};
ghost use Rattle.ak_node.specs.Calls.{HasStops, IsSilent, IsSoundStop, IsOutside};
ghost use Rattle.ak_node.specs.Queries.{HasNoQueries, OnTurn};
ghost use Rattle.ak_node.specs.Standing.{CanServe, Stands, HasRead, AreSessions, place_of, InAct, LeavesInAct, AfterAct, Wears, InEnd, AfterEnd, InEnds, AfterEnds, InTurn, LeavesInTurn, LeavesLast, AfterTaken, AfterTurn, WearsIn, went_after, TakesOne, TakesTurn};
ghost use Rattle.ak_tree.specs.Later.{KeepsOrigins};
ghost use Rattle.ak_tree.specs.Stops.{OnWorn};

use crate::answers::refuse;
use crate::keeper::Keeper;
use crate::reading::read;
use crate::session::{Session, place};
use ak_base::{Block, Refusal, Stop};
use ak_host::{Host, Turn};
use std::alloc::{AllocError, Global};

/// A store that is open, the open sessions by rising port, and the stop after which nothing is done any more.
#[derive(Drop)]
pub struct Node {
    pub keeper: Keeper,
    pub sessions: Vec<Session>,
    pub stop: Option<Stop>,
}

/// Whether more turns may come.
#[derive(Clone, Copy, Debug, PartialEq, Eq, Drop)]
pub enum Went {
    More,
    Done,
}

// The most sessions that are open at once.
const MOST_SESSIONS: usize = 1024;

// Whether the session in this place is that of the port.
fn is_open(sessions: &[Session], at: usize, port: u32) -> bool
    requires { at ≡ place_of sessions.now port }
    ensures opened { (streams : List Stream) → AreSessions sessions.now streams → (IsTrue result ↔ ((bytes : List ℕ) × (stream_at streams port ≡ Some bytes))) }
    ensures within { IsTrue result → at < length sessions.now }
{
    at < sessions.len() && sessions[at].port == port
}

// Where the session of a port stands, which is opened where none is. None where as many are open as may be.
fn open_session(
    alloc: Global,
    sessions: &mut Vec<Session>,
    port: u32,
) -> Result<Option<usize>, AllocError>
    requires ports { AllByRecursion (λ s. 1 ≤ s.port) sessions.old.items }
    requires some { 1 ≤ port }
    ensures ports { OnOk result (AllByRecursion (λ s. 1 ≤ s.port) sessions.new.items) }
    ensures within { IfOk result (λ found. MatchOption found (Unit {0}) (λ at. (at ≡ place_of sessions.new.items port) × (at < length sessions.new.items))) }
    ensures opened { (world : World) → AreSessions sessions.old.items world.sessions → IfOk result (λ found. MatchOption found
        (IsOneTooMany world port × AreSessions sessions.new.items world.sessions)
        (λ at. ¬ (IsOneTooMany world port)
        × AreSessions sessions.new.items (with_session world.sessions (record { port = port; stream = bytes_of (stream_at world.sessions port) })))) }
{
    let at = place(sessions.as_slice(), port);
    if is_open(sessions.as_slice(), at, port) {
        return Ok(Some(at));
    }
    if sessions.len() >= MOST_SESSIONS {
        return Ok(None);
    }
    sessions.insert(at, Session::new(alloc, port)?)?;
    Ok(Some(at))
}

/// Tells the end of a session, where it is inside a message.
fn tell_end<H: Host>(alloc: Global, host: &mut H, session: &Session) -> Result<(), Stop>
    ensures stops { (was : Content) → HasStops H.tells was (H.state host.old) (H.state host.new) result }
    ensures silent { H.tells → 1 ≤ session.now.port → IsSilent (H.state host.old) (H.state host.new) }
    ensures turns { H.tells → (mark_now (H.state host.new)).turns ≡ (mark_now (H.state host.old)).turns }
    ensures stop { IfErr result IsOutside }
    ensures reads { H.tells → (H.state host.new).reads ≡ (H.state host.old).reads }
    ensures files { H.tells → (H.state host.new).files ≡ (H.state host.old).files }
    ensures leaves { H.tells → (disk : Files) → LeavesNow (H.state host.new) disk → LeavesNow (H.state host.old) disk }
    ensures after { H.tells → (stream : List ℕ) → HasRead session.now stream
        → OnOk result (AfterEnd session.now.port stream (mark_now (H.state host.old)) (mark_now (H.state host.new))) }
    ensures moments { H.tells → (stream : List ℕ) → HasRead session.now stream
        → PortPasses (InEnd session.now.port stream (mark_now (H.state host.old))) (H.state host.old) (H.state host.new) }
{
    if session.is_cut() {
        refuse(alloc, host, session.port, Refusal::Cut)
    } else {
        Ok(())
    }
}

/// Tells the ends of these sessions, in order.
fn tell_ends<H: Host>(alloc: Global, host: &mut H, sessions: &[Session]) -> Result<(), Stop>
    requires { AllByRecursion (λ s. 1 ≤ s.port) sessions.now }
    ensures stops { (was : Content) → HasStops H.tells was (H.state host.old) (H.state host.new) result }
    ensures silent { H.tells → IsSilent (H.state host.old) (H.state host.new) }
    ensures turns { H.tells → (mark_now (H.state host.new)).turns ≡ (mark_now (H.state host.old)).turns }
    ensures stop { IfErr result IsOutside }
    ensures reads { H.tells → (H.state host.new).reads ≡ (H.state host.old).reads }
    ensures files { H.tells → (H.state host.new).files ≡ (H.state host.old).files }
    ensures leaves { H.tells → (disk : Files) → LeavesNow (H.state host.new) disk → LeavesNow (H.state host.old) disk }
    ensures after { H.tells → (streams : List Stream) → AreSessions sessions.now streams
        → OnOk result (AfterEnds streams (mark_now (H.state host.old)) (mark_now (H.state host.new))) }
    ensures moments { H.tells → (streams : List Stream) → AreSessions sessions.now streams
        → PortPasses (InEnds streams (mark_now (H.state host.old))) (H.state host.old) (H.state host.new) }
{
    for session in sessions {
        tell_end(alloc, host, session)?;
    }
    Ok(())
}

/// Whether more turns may come after this one.
fn more_after(turn: Turn) -> Went
    ensures { result ≡ went_after turn }
{
    match turn {
        Turn::Done => Went::Done,
        _ => Went::More,
    }
}

impl Node {
    /// A piece on a port: of the session that is open there, or of one that opens with it.
    fn piece<H: Host>(
        &mut self,
        alloc: Global,
        host: &mut H,
        port: u32,
        bytes: &[u8],
    ) -> Result<(), Stop>
        requires port { 1 ≤ port }
        requires ready { CanServe H.tells self.old (H.state host.old) }
        ensures stop { self.new.stop ≡ self.old.stop }
        ensures stops { HasStops H.tells self.old.keeper.forest.meta (H.state host.old) (H.state host.new) result }
        ensures becomes { H.tells → OnOk result (KeepsOrigins (H.state host.old) (H.state host.new) self.old.keeper.forest.meta self.new.keeper.forest.meta) }
        ensures silent { H.tells → IsSilent (H.state host.old) (H.state host.new) }
        ensures turns { H.tells → (mark_now (H.state host.new)).turns ≡ (mark_now (H.state host.old)).turns }
        ensures sound { H.tells → (world : World) → Stands self.old world (H.state host.old) → IfErr result IsSoundStop }
        ensures reads { H.tells → (world : World) → Stands self.old world (H.state host.old) → HasNoQueries world (piece port bytes.now)
            → (H.state host.new).reads ≡ (H.state host.old).reads }
        ensures ready { OnOk result (CanServe H.tells self.new (H.state host.new)) }
        ensures worn { H.tells → (world : World) → Stands self.old world (H.state host.old) → OnWorn result (Wears world (piece port bytes.now)) }
        ensures after { H.tells → (world : World) → Stands self.old world (H.state host.old)
            → OnOk result (AfterAct world (piece port bytes.now) (mark_now (H.state host.old)) (mark_now (H.state host.new)) self.new (H.state host.new)) }
        ensures moments { H.tells → (world : World) → Stands self.old world (H.state host.old)
            → Passes (InAct world (piece port bytes.now) (mark_now (H.state host.old)))
            (LeavesInAct world (piece port bytes.now) (mark_now (H.state host.old))) (H.state host.old) (H.state host.new) }
    {
        match open_session(alloc, &mut self.sessions, port) {
            Ok(Some(at)) => read(alloc, host, &mut self.keeper, &mut self.sessions[at], bytes),
            Ok(None) => refuse(alloc, host, port, Refusal::TooMany),
            Err(_) => Err(Stop::Memory),
        }
    }

    /// The end of the session of a port, where one is open.
    fn end<H: Host>(&mut self, alloc: Global, host: &mut H, port: u32) -> Result<(), Stop>
        requires ready { CanServe H.tells self.old (H.state host.old) }
        ensures stop { self.new.stop ≡ self.old.stop }
        ensures keeper { self.new.keeper ≡ self.old.keeper }
        ensures stops { (was : Content) → HasStops H.tells was (H.state host.old) (H.state host.new) result }
        ensures silent { H.tells → IsSilent (H.state host.old) (H.state host.new) }
        ensures turns { H.tells → (mark_now (H.state host.new)).turns ≡ (mark_now (H.state host.old)).turns }
        ensures outside { IfErr result IsOutside }
        ensures reads { H.tells → (H.state host.new).reads ≡ (H.state host.old).reads }
        ensures files { H.tells → (H.state host.new).files ≡ (H.state host.old).files }
        ensures ready { OnOk result (CanServe H.tells self.new (H.state host.new)) }
        ensures after { H.tells → (world : World) → Stands self.old world (H.state host.old)
            → OnOk result (AfterAct world (ended port) (mark_now (H.state host.old)) (mark_now (H.state host.new)) self.new (H.state host.new)) }
        ensures moments { H.tells → (world : World) → Stands self.old world (H.state host.old)
            → Passes (InAct world (ended port) (mark_now (H.state host.old)))
            (LeavesInAct world (ended port) (mark_now (H.state host.old))) (H.state host.old) (H.state host.new) }
    {
        let at = place(self.sessions.as_slice(), port);
        if !is_open(self.sessions.as_slice(), at, port) {
            return Ok(());
        }
        let session = self.sessions.remove(at);
        tell_end(alloc, host, &session)
    }

    /// Ends all sessions by rising port, and does a flush.
    fn finish_all<H: Host>(&mut self, alloc: Global, host: &mut H) -> Result<(), Stop>
        requires ready { CanServe H.tells self.old (H.state host.old) }
        ensures stop { self.new.stop ≡ self.old.stop }
        ensures stops { HasStops H.tells self.old.keeper.forest.meta (H.state host.old) (H.state host.new) result }
        ensures becomes { H.tells → OnOk result (KeepsOrigins (H.state host.old) (H.state host.new) self.old.keeper.forest.meta self.new.keeper.forest.meta) }
        ensures silent { H.tells → IsSilent (H.state host.old) (H.state host.new) }
        ensures turns { H.tells → (mark_now (H.state host.new)).turns ≡ (mark_now (H.state host.old)).turns }
        ensures sound { IfErr result IsSoundStop }
        ensures reads { H.tells → (H.state host.new).reads ≡ (H.state host.old).reads }
        ensures ready { OnOk result (CanServe H.tells self.new (H.state host.new)) }
        ensures worn { H.tells → (world : World) → Stands self.old world (H.state host.old) → OnWorn result (Wears world done) }
        ensures after { H.tells → (world : World) → Stands self.old world (H.state host.old)
            → OnOk result (AfterAct world done (mark_now (H.state host.old)) (mark_now (H.state host.new)) self.new (H.state host.new)) }
        ensures moments { H.tells → (world : World) → Stands self.old world (H.state host.old)
            → Passes (InAct world done (mark_now (H.state host.old)))
            (LeavesInAct world done (mark_now (H.state host.old))) (H.state host.old) (H.state host.new) }
    {
        tell_ends(alloc, host, self.sessions.as_slice())?;
        self.sessions.clear();
        self.keeper.flush(alloc, host)
    }

    /// Acts on a turn, where no stop is kept. `Done` does nothing yet.
    fn act_on<H: Host>(
        &mut self,
        alloc: Global,
        host: &mut H,
        turn: Turn,
        from: &Block,
    ) -> Result<(), Stop>
        requires turn { IsTurn turn }
        requires ready { CanServe H.tells self.old (H.state host.old) }
        ensures stop { self.new.stop ≡ self.old.stop }
        ensures stops { HasStops H.tells self.old.keeper.forest.meta (H.state host.old) (H.state host.new) result }
        ensures becomes { H.tells → OnOk result (KeepsOrigins (H.state host.old) (H.state host.new) self.old.keeper.forest.meta self.new.keeper.forest.meta) }
        ensures silent { H.tells → IsSilent (H.state host.old) (H.state host.new) }
        ensures turns { H.tells → (mark_now (H.state host.new)).turns ≡ (mark_now (H.state host.old)).turns }
        ensures sound { H.tells → (world : World) → Stands self.old world (H.state host.old) → IfErr result IsSoundStop }
        ensures reads { H.tells → (world : World) → Stands self.old world (H.state host.old) → HasNoQueries world (taken turn from.now)
            → (H.state host.new).reads ≡ (H.state host.old).reads }
        ensures ready { OnOk result (CanServe H.tells self.new (H.state host.new)) }
        ensures worn { H.tells → (world : World) → Stands self.old world (H.state host.old) → OnWorn result (Wears world (taken turn from.now)) }
        ensures after { H.tells → (world : World) → Stands self.old world (H.state host.old)
            → OnOk result (AfterTaken world (taken turn from.now) (mark_now (H.state host.old)) (mark_now (H.state host.new)) self.new (H.state host.new)) }
        ensures moments { H.tells → (world : World) → Stands self.old world (H.state host.old)
            → Passes (InAct world (taken turn from.now) (mark_now (H.state host.old)))
            (LeavesInAct world (taken turn from.now) (mark_now (H.state host.old))) (H.state host.old) (H.state host.new) }
    {
        match turn {
            Turn::Bytes { port, n } => self.piece(alloc, host, port, &from[..n as usize]),
            Turn::End { port } => self.end(alloc, host, port),
            Turn::Idle => Ok(()),
            Turn::Done => Ok(()),
        }
    }

    /// Acts on a turn that the caller gives, of which the bytes are the first of a block, and tells its answers. `Done` is
    /// acted on by `finish`.
    ///
    /// # Errors
    ///
    /// `Disk` or `Port` where a call of the disk or of the ports failed. `Damaged` where a live block doesn't spell the leaf
    /// that is named to stand there, with its file and its place. `Worn` where the world is worn by the turn, with its newest
    /// ordinal, the fill of that and the number of its last view. `Memory`. The node keeps a stop, and answers it again at each
    /// later call, which then does nothing.
    pub fn act<H: Host>(
        &mut self,
        alloc: Global,
        host: &mut H,
        turn: Turn,
        from: &Block,
    ) -> Result<Went, Stop>
        requires turn { IsTurn turn }
        requires ready { self.old.stop ≡ None → CanServe H.tells self.old (H.state host.old) }
        ensures kept { IfSome self.old.stop (λ stop. (result ≡ Err stop) × (self.new ≡ self.old) × (host.new ≡ host.old)) }
        ensures keeps { IfErr result (λ stop. self.new.stop ≡ Some stop) }
        ensures fresh { OnOk result (self.new.stop ≡ None) }
        ensures stops { self.old.stop ≡ None → HasStops H.tells self.old.keeper.forest.meta (H.state host.old) (H.state host.new) result }
        ensures becomes { H.tells → OnOk result (KeepsOrigins (H.state host.old) (H.state host.new) self.old.keeper.forest.meta self.new.keeper.forest.meta) }
        ensures silent { H.tells → IsSilent (H.state host.old) (H.state host.new) }
        ensures turns { H.tells → (mark_now (H.state host.new)).turns ≡ (mark_now (H.state host.old)).turns }
        ensures went { IfOk result (λ went. went ≡ went_after turn) }
        ensures sound { H.tells → (world : World) → Stands self.old world (H.state host.old) → IfErr result IsSoundStop }
        // Puts and flushes read nothing.
        ensures reads { H.tells → (world : World) → Stands self.old world (H.state host.old) → HasNoQueries world (taken turn from.now)
            → (H.state host.new).reads ≡ (H.state host.old).reads }
        ensures ready { OnOk result (CanServe H.tells self.new (H.state host.new)) }
        ensures worn { H.tells → (world : World) → Stands self.old world (H.state host.old) → OnWorn result (Wears world (taken turn from.now)) }
        ensures after { H.tells → (world : World) → Stands self.old world (H.state host.old)
            → OnOk result (AfterTaken world (taken turn from.now) (mark_now (H.state host.old)) (mark_now (H.state host.new)) self.new (H.state host.new)) }
        ensures moments { H.tells → (world : World) → Stands self.old world (H.state host.old)
            → Passes (InAct world (taken turn from.now) (mark_now (H.state host.old)))
            (LeavesInAct world (taken turn from.now) (mark_now (H.state host.old))) (H.state host.old) (H.state host.new) }
    {
        if let Some(stop) = self.stop {
            return Err(stop);
        }
        match self.act_on(alloc, host, turn, from) {
            Ok(()) => Ok(more_after(turn)),
            Err(stop) => {
                self.stop = Some(stop);
                Err(stop)
            }
        }
    }

    /// Takes one turn of the host, and acts on it. `Done` is acted on by `finish`.
    ///
    /// # Errors
    ///
    /// As of `act`.
    pub fn turn<H: Host>(&mut self, alloc: Global, host: &mut H) -> Result<Went, Stop>
        requires ready { self.old.stop ≡ None → CanServe H.tells self.old (H.state host.old) }
        ensures kept { IfSome self.old.stop (λ stop. (result ≡ Err stop) × (self.new ≡ self.old) × (host.new ≡ host.old)) }
        ensures keeps { IfErr result (λ stop. self.new.stop ≡ Some stop) }
        ensures fresh { OnOk result (self.new.stop ≡ None) }
        ensures stops { self.old.stop ≡ None → HasStops H.tells self.old.keeper.forest.meta (H.state host.old) (H.state host.new) result }
        ensures becomes { H.tells → OnOk result (KeepsOrigins (H.state host.old) (H.state host.new) self.old.keeper.forest.meta self.new.keeper.forest.meta) }
        ensures silent { H.tells → IsSilent (H.state host.old) (H.state host.new) }
        // It takes one turn, or none where the ports failed.
        ensures taken { H.tells → self.old.stop ≡ None → IfOk result (TakesTurn (mark_now (H.state host.old)) (mark_now (H.state host.new))) }
        ensures stopped { H.tells → self.old.stop ≡ None → IfErr result (λ stop. ((stop ≡ Stop.Port) × (mark_now (H.state host.new) ≡ mark_now (H.state host.old)))
            ⊎ TakesOne (mark_now (H.state host.old)) (mark_now (H.state host.new))) }
        ensures sound { H.tells → (world : World) → Stands self.old world (H.state host.old) → IfErr result IsSoundStop }
        // Puts and flushes read nothing.
        ensures reads { H.tells → (world : World) → Stands self.old world (H.state host.old) → OnTurn (mark_now (H.state host.old)) (mark_now (H.state host.new)) (HasNoQueries world)
            → (H.state host.new).reads ≡ (H.state host.old).reads }
        ensures ready { OnOk result (CanServe H.tells self.new (H.state host.new)) }
        ensures worn { H.tells → (world : World) → Stands self.old world (H.state host.old)
            → OnWorn result (WearsIn world (mark_now (H.state host.old)) (mark_now (H.state host.new))) }
        ensures after { H.tells → (world : World) → Stands self.old world (H.state host.old)
            → IfOk result (λ went. AfterTurn world (mark_now (H.state host.old)) (mark_now (H.state host.new)) self.new (H.state host.new) went) }
        ensures moments { H.tells → (world : World) → Stands self.old world (H.state host.old)
            → Passes (λ mark. (mark ≡ mark_now (H.state host.old)) ⊎ InTurn world (mark_now (H.state host.old)) mark)
            (λ mark disk. ((mark ≡ mark_now (H.state host.old)) × LeavesLast world.content disk)
            ⊎ LeavesInTurn world (mark_now (H.state host.old)) mark disk)
            (H.state host.old) (H.state host.new) }
    {
        if let Some(kept) = self.stop {
            return Err(kept);
        }
        let mut block = [0; 4096];
        match host.turn(&mut block) {
            Ok(turn) => self.act(alloc, host, turn, &block),
            Err(_) => {
                self.stop = Some(Stop::Port);
                Err(Stop::Port)
            }
        }
    }

    /// Does what `Done` asks for: ends all sessions by rising port, closes all open leaves, and takes a view.
    ///
    /// # Errors
    ///
    /// As of `act`, but for `Damaged`.
    pub fn finish<H: Host>(&mut self, alloc: Global, host: &mut H) -> Result<(), Stop>
        requires ready { self.old.stop ≡ None → CanServe H.tells self.old (H.state host.old) }
        ensures kept { IfSome self.old.stop (λ stop. (result ≡ Err stop) × (self.new ≡ self.old) × (host.new ≡ host.old)) }
        ensures keeps { IfErr result (λ stop. self.new.stop ≡ Some stop) }
        ensures fresh { OnOk result (self.new.stop ≡ None) }
        ensures stops { self.old.stop ≡ None → HasStops H.tells self.old.keeper.forest.meta (H.state host.old) (H.state host.new) result }
        ensures becomes { H.tells → OnOk result (KeepsOrigins (H.state host.old) (H.state host.new) self.old.keeper.forest.meta self.new.keeper.forest.meta) }
        ensures sound { self.old.stop ≡ None → IfErr result IsSoundStop }
        ensures silent { H.tells → IsSilent (H.state host.old) (H.state host.new) }
        ensures turns { H.tells → (mark_now (H.state host.new)).turns ≡ (mark_now (H.state host.old)).turns }
        ensures reads { H.tells → (H.state host.new).reads ≡ (H.state host.old).reads }
        ensures ready { OnOk result (CanServe H.tells self.new (H.state host.new)) }
        ensures worn { H.tells → (world : World) → Stands self.old world (H.state host.old) → OnWorn result (Wears world done) }
        ensures after { H.tells → (world : World) → Stands self.old world (H.state host.old)
            → OnOk result (AfterAct world done (mark_now (H.state host.old)) (mark_now (H.state host.new)) self.new (H.state host.new)) }
        ensures moments { H.tells → (world : World) → Stands self.old world (H.state host.old)
            → Passes (InAct world done (mark_now (H.state host.old)))
            (LeavesInAct world done (mark_now (H.state host.old))) (H.state host.old) (H.state host.new) }
    {
        if let Some(stop) = self.stop {
            return Err(stop);
        }
        match self.finish_all(alloc, host) {
            Ok(()) => Ok(()),
            Err(stop) => {
                self.stop = Some(stop);
                Err(stop)
            }
        }
    }
}
