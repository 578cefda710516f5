//! A piece of a session is read, and its messages answered.
ghost use Rattle.std.specs.Prelude.{◌≡◌, ◌≤◌, ◌<◌, ◌++◌, length, OnOk, IfOk, IfErr, IsTrue, true, false, take};
ghost use Rattle.ak_host.specs.Moments.{Passes, mark_now};
ghost use Rattle.ak_run.specs.declared.asked.Asked.{Asked};
ghost use Rattle.ak_run.specs.Asking.{Asks};
ghost use Rattle.ak_run.specs.Contents.{after};
ghost use Rattle.ak_run.specs.Replies.{reply_to};
ghost use Rattle.ak_node.specs.Calls.{HasStops, IsSilent, IsSoundStop, Told};
ghost use Rattle.ak_node.specs.Pieces.{InAnswer, LeavesInAnswer, Begun, ReadsOn, InPiece, LeavesInPiece, AfterPiece, WearsPiece};
ghost use Rattle.ak_node.specs.Queries.{IsNoQuery, AreNoQueries};
ghost use Rattle.ak_node.specs.Standing.{IsReady, Holds};
ghost use Rattle.ak_tree.specs.Later.{KeepsOrigins};
ghost use Rattle.ak_tree.specs.Stops.{OnWorn, IsWornBy};
ghost use Rattle.ak_world.specs.Worlds.{World as Store, limits_of};

use crate::answers::{answer, refuse};
use crate::keeper::Keeper;
use crate::kept::keep_put;
use crate::session::Session;
use crate::taken::{accept_known, known_put};
use ak_base::Stop;
use ak_host::Host;
use ak_resp::{Message, RespError};
use ak_run::ask;
use std::alloc::Global;

/// Does what a message asks for, and tells the answer.
fn act<H: Host>(
    alloc: Global,
    host: &mut H,
    keeper: &mut Keeper,
    port: u32,
    message: &Message,
) -> Result<(), Stop>
    requires ready { IsReady H.tells keeper.old (H.state host.old) }
    ensures stops { HasStops H.tells keeper.old.forest.meta (H.state host.old) (H.state host.new) result }
    ensures becomes { H.tells → OnOk result (KeepsOrigins (H.state host.old) (H.state host.new) keeper.old.forest.meta keeper.new.forest.meta) }
    ensures silent { H.tells → 1 ≤ port → IsSilent (H.state host.old) (H.state host.new) }
    ensures turns { H.tells → (mark_now (H.state host.new)).turns ≡ (mark_now (H.state host.old)).turns }
    ensures sound { H.tells → (content : Store) → Holds content keeper.old (H.state host.old) → IfErr result IsSoundStop }
    ensures reads { H.tells → IsNoQuery message.now → (H.state host.new).reads ≡ (H.state host.old).reads }
    ensures ready { OnOk result (IsReady H.tells keeper.new (H.state host.new)) }
    ensures worn { H.tells → (content : Store) (asked : Asked) → Holds content keeper.old (H.state host.old) → Asks (limits_of content).scale message.now asked
        → OnWorn result (IsWornBy (after content asked)) }
    ensures after { H.tells → (content : Store) (asked : Asked) → Holds content keeper.old (H.state host.old) → Asks (limits_of content).scale message.now asked
        → OnOk result (Holds (after content asked) keeper.new (H.state host.new)) }
    ensures told { H.tells → (content : Store) (asked : Asked) → Holds content keeper.old (H.state host.old) → Asks (limits_of content).scale message.now asked
        → OnOk result (Told (mark_now (H.state host.old)) (mark_now (H.state host.new)) port (reply_to port content asked).bytes) }
    ensures moments { H.tells → (content : Store) (asked : Asked) → Holds content keeper.old (H.state host.old) → Asks (limits_of content).scale message.now asked
        → Passes (InAnswer port content asked (mark_now (H.state host.old)))
        (LeavesInAnswer port content asked (mark_now (H.state host.old))) (H.state host.old) (H.state host.new) }
{
    match ask(alloc, message, keeper.forest.scale()) {
        Ok(asked) => answer(alloc, host, keeper, port, asked),
        Err(_) => Err(Stop::Memory),
    }
}

/// Reads byte by byte to the end of the next message of the piece, and answers it. Whether there was one.
fn read_on<H: Host>(
    alloc: Global,
    host: &mut H,
    keeper: &mut Keeper,
    session: &mut Session,
    piece: &[u8],
    at: &mut usize,
) -> Result<bool, Stop>
    requires at { at.old ≤ length piece.now }
    requires ready { IsReady H.tells keeper.old (H.state host.old) }
    requires port { 1 ≤ session.old.port }
    ensures port { session.new.port ≡ session.old.port }
    ensures within { at.new ≤ length piece.now }
    ensures moves { IfOk result (λ more. IsTrue more → at.old < at.new) }
    ensures stops { HasStops H.tells keeper.old.forest.meta (H.state host.old) (H.state host.new) result }
    ensures becomes { H.tells → OnOk result (KeepsOrigins (H.state host.old) (H.state host.new) keeper.old.forest.meta keeper.new.forest.meta) }
    ensures silent { H.tells → IsSilent (H.state host.old) (H.state host.new) }
    ensures turns { H.tells → (mark_now (H.state host.new)).turns ≡ (mark_now (H.state host.old)).turns }
    ensures sound { H.tells → (begun : Begun) → ReadsOn begun keeper.old session.old (begun.stream ++ take at.old piece.now) (mark_now (H.state host.old)) (H.state host.old) → IfErr result IsSoundStop }
    ensures reads { H.tells → (begun : Begun) → ReadsOn begun keeper.old session.old (begun.stream ++ take at.old piece.now) (mark_now (H.state host.old)) (H.state host.old)
        → AreNoQueries begun.stream piece.now → (H.state host.new).reads ≡ (H.state host.old).reads }
    ensures ready { OnOk result (IsReady H.tells keeper.new (H.state host.new)) }
    ensures worn { H.tells → (begun : Begun) → ReadsOn begun keeper.old session.old (begun.stream ++ take at.old piece.now) (mark_now (H.state host.old)) (H.state host.old)
        → OnWorn result (WearsPiece begun piece.now) }
    ensures more { H.tells → (begun : Begun) → ReadsOn begun keeper.old session.old (begun.stream ++ take at.old piece.now) (mark_now (H.state host.old)) (H.state host.old)
        → IfOk result (λ more. more ≡ true → ReadsOn begun keeper.new session.new (begun.stream ++ take at.new piece.now) (mark_now (H.state host.new)) (H.state host.new)) }
    ensures last { H.tells → (begun : Begun) → ReadsOn begun keeper.old session.old (begun.stream ++ take at.old piece.now) (mark_now (H.state host.old)) (H.state host.old)
        → IfOk result (λ more. more ≡ false → AfterPiece begun piece.now keeper.new session.new (mark_now (H.state host.new)) (H.state host.new)) }
    ensures moments { H.tells → (begun : Begun) → ReadsOn begun keeper.old session.old (begun.stream ++ take at.old piece.now) (mark_now (H.state host.old)) (H.state host.old)
        → Passes (InPiece begun piece.now) (LeavesInPiece begun piece.now) (H.state host.old) (H.state host.new) }
{
    match session.reader.feed(alloc, piece, at) {
        Ok(Some(message)) => {
            act(alloc, host, keeper, session.port, &message)?;
            keep_put(alloc, keeper, &message);
            Ok(true)
        }
        Ok(None) => Ok(false),
        Err(RespError::Memory) => Err(Stop::Memory),
        Err(RespError::Refused(refusal)) => {
            if session.faulted {
                return Ok(false);
            }
            session.faulted = true;
            refuse(alloc, host, session.port, refusal)?;
            Ok(false)
        }
    }
}

/// Reads on to the next message of the piece, and answers it. Whether there was one.
fn advance<H: Host>(
    alloc: Global,
    host: &mut H,
    keeper: &mut Keeper,
    session: &mut Session,
    piece: &[u8],
    at: &mut usize,
) -> Result<bool, Stop>
    requires at { at.old ≤ length piece.now }
    requires ready { IsReady H.tells keeper.old (H.state host.old) }
    requires port { 1 ≤ session.old.port }
    ensures port { session.new.port ≡ session.old.port }
    ensures within { at.new ≤ length piece.now }
    ensures moves { IfOk result (λ more. IsTrue more → at.old < at.new) }
    ensures stops { HasStops H.tells keeper.old.forest.meta (H.state host.old) (H.state host.new) result }
    ensures becomes { H.tells → OnOk result (KeepsOrigins (H.state host.old) (H.state host.new) keeper.old.forest.meta keeper.new.forest.meta) }
    ensures silent { H.tells → IsSilent (H.state host.old) (H.state host.new) }
    ensures turns { H.tells → (mark_now (H.state host.new)).turns ≡ (mark_now (H.state host.old)).turns }
    ensures sound { H.tells → (begun : Begun) → ReadsOn begun keeper.old session.old (begun.stream ++ take at.old piece.now) (mark_now (H.state host.old)) (H.state host.old) → IfErr result IsSoundStop }
    ensures reads { H.tells → (begun : Begun) → ReadsOn begun keeper.old session.old (begun.stream ++ take at.old piece.now) (mark_now (H.state host.old)) (H.state host.old)
        → AreNoQueries begun.stream piece.now → (H.state host.new).reads ≡ (H.state host.old).reads }
    ensures ready { OnOk result (IsReady H.tells keeper.new (H.state host.new)) }
    ensures worn { H.tells → (begun : Begun) → ReadsOn begun keeper.old session.old (begun.stream ++ take at.old piece.now) (mark_now (H.state host.old)) (H.state host.old)
        → OnWorn result (WearsPiece begun piece.now) }
    ensures more { H.tells → (begun : Begun) → ReadsOn begun keeper.old session.old (begun.stream ++ take at.old piece.now) (mark_now (H.state host.old)) (H.state host.old)
        → IfOk result (λ more. more ≡ true → ReadsOn begun keeper.new session.new (begun.stream ++ take at.new piece.now) (mark_now (H.state host.new)) (H.state host.new)) }
    ensures last { H.tells → (begun : Begun) → ReadsOn begun keeper.old session.old (begun.stream ++ take at.old piece.now) (mark_now (H.state host.old)) (H.state host.old)
        → IfOk result (λ more. more ≡ false → AfterPiece begun piece.now keeper.new session.new (mark_now (H.state host.new)) (H.state host.new)) }
    ensures moments { H.tells → (begun : Begun) → ReadsOn begun keeper.old session.old (begun.stream ++ take at.old piece.now) (mark_now (H.state host.old)) (H.state host.old)
        → Passes (InPiece begun piece.now) (LeavesInPiece begun piece.now) (H.state host.old) (H.state host.new) }
{
    if let Some(known) = known_put(keeper, &session.reader, piece, *at) {
        session.reader.pass(known.length);
        *at += known.length;
        accept_known(alloc, host, keeper, known.series, known.point)?;
        return Ok(true);
    }
    read_on(alloc, host, keeper, session, piece, at)
}

/// Reads a piece, and answers its messages and its fault.
pub fn read<H: Host>(
    alloc: Global,
    host: &mut H,
    keeper: &mut Keeper,
    session: &mut Session,
    piece: &[u8],
) -> Result<(), Stop>
    requires ready { IsReady H.tells keeper.old (H.state host.old) }
    requires port { 1 ≤ session.old.port }
    ensures port { session.new.port ≡ session.old.port }
    ensures stops { HasStops H.tells keeper.old.forest.meta (H.state host.old) (H.state host.new) result }
    ensures becomes { H.tells → OnOk result (KeepsOrigins (H.state host.old) (H.state host.new) keeper.old.forest.meta keeper.new.forest.meta) }
    ensures silent { H.tells → IsSilent (H.state host.old) (H.state host.new) }
    ensures turns { H.tells → (mark_now (H.state host.new)).turns ≡ (mark_now (H.state host.old)).turns }
    ensures sound { H.tells → (begun : Begun) → ReadsOn begun keeper.old session.old begun.stream (mark_now (H.state host.old)) (H.state host.old) → IfErr result IsSoundStop }
    ensures reads { H.tells → (begun : Begun) → ReadsOn begun keeper.old session.old begun.stream (mark_now (H.state host.old)) (H.state host.old)
        → AreNoQueries begun.stream piece.now → (H.state host.new).reads ≡ (H.state host.old).reads }
    ensures ready { OnOk result (IsReady H.tells keeper.new (H.state host.new)) }
    ensures worn { H.tells → (begun : Begun) → ReadsOn begun keeper.old session.old begun.stream (mark_now (H.state host.old)) (H.state host.old)
        → OnWorn result (WearsPiece begun piece.now) }
    ensures after { H.tells → (begun : Begun) → ReadsOn begun keeper.old session.old begun.stream (mark_now (H.state host.old)) (H.state host.old)
        → OnOk result (AfterPiece begun piece.now keeper.new session.new (mark_now (H.state host.new)) (H.state host.new)) }
    ensures moments { H.tells → (begun : Begun) → ReadsOn begun keeper.old session.old begun.stream (mark_now (H.state host.old)) (H.state host.old)
        → Passes (InPiece begun piece.now) (LeavesInPiece begun piece.now) (H.state host.old) (H.state host.new) }
{
    let mut at = 0;
    loop {
        if !advance(alloc, host, keeper, session, piece, &mut at)? {
            return Ok(());
        }
    }
}
