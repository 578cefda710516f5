//! What is asked is done, and its answer told.
ghost use Rattle.std.specs.Prelude.{◌≡◌, ◌⊎◌, ◌≤◌, length, OnOk, IfErr};
ghost use Rattle.std.specs.List.{AllByRecursion};
ghost use Rattle.ak_host.specs.Files.{Files};
ghost use Rattle.ak_host.specs.Moments.{Passes, PortPasses, LeavesNow, mark_now};
ghost use Rattle.ak_meta.specs.Contents.{Content, IsCanonical};
ghost use Rattle.ak_run.specs.declared.asked.Asked.{Asked};
ghost use Rattle.ak_run.specs.Contents.{after};
ghost use Rattle.ak_run.specs.Fitting.{IsAllowed};
ghost use Rattle.ak_run.specs.Replies.{refusal_reply, reply_to};
ghost use Rattle.ak_node.specs.Calls.{HasStops, IsSilent, IsSoundStop, IsOutside, Told};
ghost use Rattle.ak_node.specs.Pieces.{InAnswer, LeavesInAnswer};
ghost use Rattle.ak_node.specs.Queries.{IsNoRows};
ghost use Rattle.ak_node.specs.Standing.{IsReady, Holds};
ghost use Rattle.ak_tree.specs.Later.{KeepsOrigins};
ghost use Rattle.ak_tree.specs.Stops.{OnWorn, IsWornBy};
ghost use Rattle.ak_world.specs.Worlds.{World as Store};

use crate::keeper::Keeper;
use crate::puts::put;
use crate::rows::write_metric;
use ak_base::{Bytes, Refusal, Stop, Text};
use ak_host::Host;
use ak_run::{Asked, begin_bulk, end_bulk, write_refusal};
use std::alloc::Global;

/// Tells a port these bytes, where there are any.
fn tell<H: Host>(host: &mut H, port: u32, bytes: &[u8]) -> Result<(), Stop>
    ensures stops { (was : Content) → HasStops H.tells was (H.state host.old) (H.state host.new) result }
    ensures silent { H.tells → 1 ≤ port → IsSilent (H.state host.old) (H.state host.new) }
    ensures turns { H.tells → (mark_now (H.state host.new)).turns ≡ (mark_now (H.state host.old)).turns }
    ensures stop { IfErr result (λ stop. stop ≡ Stop.Port) }
    ensures told { H.tells → OnOk result (Told (mark_now (H.state host.old)) (mark_now (H.state host.new)) port bytes.now) }
    ensures reads { H.tells → (H.state host.new).reads ≡ (H.state host.old).reads }
    ensures files { H.tells → (H.state host.new).files ≡ (H.state host.old).files }
    ensures moments { H.tells → PortPasses (λ mark. (mark ≡ mark_now (H.state host.old))
        ⊎ Told (mark_now (H.state host.old)) mark port bytes.now) (H.state host.old) (H.state host.new) }
{
    if bytes.is_empty() {
        return Ok(());
    }
    match host.reply(port, bytes) {
        Ok(()) => Ok(()),
        Err(_) => Err(Stop::Port),
    }
}

/// Tells a port that it is refused by this.
pub fn refuse<H: Host>(alloc: Global, host: &mut H, port: u32, refusal: Refusal) -> Result<(), Stop>
    ensures stops { (was : Content) → HasStops H.tells was (H.state host.old) (H.state host.new) result }
    ensures silent { H.tells → 1 ≤ port → IsSilent (H.state host.old) (H.state host.new) }
    ensures turns { H.tells → (mark_now (H.state host.new)).turns ≡ (mark_now (H.state host.old)).turns }
    ensures stop { IfErr result IsOutside }
    ensures told { H.tells → OnOk result (Told (mark_now (H.state host.old)) (mark_now (H.state host.new)) port (refusal_reply refusal)) }
    ensures reads { H.tells → (H.state host.new).reads ≡ (H.state host.old).reads }
    ensures files { H.tells → (H.state host.new).files ≡ (H.state host.old).files }
    ensures moments { H.tells → PortPasses (λ mark. (mark ≡ mark_now (H.state host.old))
        ⊎ Told (mark_now (H.state host.old)) mark port (refusal_reply refusal)) (H.state host.old) (H.state host.new) }
{
    let mut reply = Bytes::new(alloc);
    match write_refusal(alloc, refusal, &mut reply) {
        Ok(()) => tell(host, port, reply.as_slice()),
        Err(_) => Err(Stop::Memory),
    }
}

/// Accepts points of one time or refuses them, and tells the answer.
fn points<H: Host>(
    alloc: Global,
    host: &mut H,
    keeper: &mut Keeper,
    port: u32,
    names: &[Text],
    time: u64,
    values: &[i64],
) -> Result<(), Stop>
    requires ready { IsReady H.tells keeper.old (H.state host.old) }
    requires alike { length values.now ≡ length names.now }
    requires canonical { AllByRecursion IsCanonical names.now }
    ensures stops { HasStops H.tells keeper.old.forest.meta (H.state host.old) (H.state host.new) result }
    ensures becomes { H.tells → OnOk result (KeepsOrigins (H.state host.old) (H.state host.new) keeper.old.forest.meta keeper.new.forest.meta) }
    ensures silent { H.tells → 1 ≤ port → IsSilent (H.state host.old) (H.state host.new) }
    ensures turns { H.tells → (mark_now (H.state host.new)).turns ≡ (mark_now (H.state host.old)).turns }
    ensures sound { IfErr result IsSoundStop }
    ensures ready { OnOk result (IsReady H.tells keeper.new (H.state host.new)) }
    ensures reads { H.tells → (H.state host.new).reads ≡ (H.state host.old).reads }
    ensures worn { H.tells → (content : Store) → Holds content keeper.old (H.state host.old)
        → OnWorn result (IsWornBy (after content (Asked.Points names.now time values.now))) }
    ensures after { H.tells → (content : Store) → Holds content keeper.old (H.state host.old)
        → OnOk result (Holds (after content (Asked.Points names.now time values.now)) keeper.new (H.state host.new)) }
    ensures told { H.tells → (content : Store) → Holds content keeper.old (H.state host.old)
        → OnOk result (Told (mark_now (H.state host.old)) (mark_now (H.state host.new)) port (reply_to port content (Asked.Points names.now time values.now)).bytes) }
    ensures moments { H.tells → (content : Store) → Holds content keeper.old (H.state host.old)
        → Passes (InAnswer port content (Asked.Points names.now time values.now) (mark_now (H.state host.old)))
        (LeavesInAnswer port content (Asked.Points names.now time values.now) (mark_now (H.state host.old))) (H.state host.old) (H.state host.new) }
{
    match put(alloc, host, keeper, names, time, values)? {
        Some(refusal) => refuse(alloc, host, port, refusal),
        None => Ok(()),
    }
}

/// Tells the rows of a metric.
fn rows<H: Host>(
    alloc: Global,
    host: &mut H,
    keeper: &mut Keeper,
    port: u32,
    metric: &[u8],
) -> Result<(), Stop>
    requires ready { IsReady H.tells keeper.old (H.state host.old) }
    ensures stops { HasStops H.tells keeper.old.forest.meta (H.state host.old) (H.state host.new) result }
    ensures becomes { H.tells → OnOk result (KeepsOrigins (H.state host.old) (H.state host.new) keeper.old.forest.meta keeper.new.forest.meta) }
    ensures silent { H.tells → 1 ≤ port → IsSilent (H.state host.old) (H.state host.new) }
    ensures turns { H.tells → (mark_now (H.state host.new)).turns ≡ (mark_now (H.state host.old)).turns }
    ensures not_worn { OnWorn result (λ stop. ⊥) }
    ensures sound { H.tells → (content : Store) → Holds content keeper.old (H.state host.old) → IfErr result IsSoundStop }
    ensures ready { OnOk result (IsReady H.tells keeper.new (H.state host.new)) }
    ensures after { H.tells → (content : Store) → Holds content keeper.old (H.state host.old)
        → OnOk result (Holds (after content (Asked.Rows metric.now)) keeper.new (H.state host.new)) }
    ensures told { H.tells → (content : Store) → Holds content keeper.old (H.state host.old)
        → OnOk result (Told (mark_now (H.state host.old)) (mark_now (H.state host.new)) port (reply_to port content (Asked.Rows metric.now)).bytes) }
    ensures moments { H.tells → (content : Store) → Holds content keeper.old (H.state host.old)
        → Passes (InAnswer port content (Asked.Rows metric.now) (mark_now (H.state host.old)))
        (LeavesInAnswer port content (Asked.Rows metric.now) (mark_now (H.state host.old))) (H.state host.old) (H.state host.new) }
{
    let mut reply = Bytes::new(alloc);
    if begin_bulk(alloc, &mut reply).is_err() {
        return Err(Stop::Memory);
    }
    write_metric(alloc, host, keeper, metric, &mut reply)?;
    match end_bulk(alloc, &mut reply) {
        Ok(start) => tell(host, port, &reply.as_slice()[start..]),
        Err(_) => Err(Stop::Memory),
    }
}

/// Closes all open leaves, takes a view, and confirms it.
fn flush<H: Host>(alloc: Global, host: &mut H, keeper: &mut Keeper, port: u32) -> Result<(), Stop>
    requires ready { IsReady H.tells keeper.old (H.state host.old) }
    ensures stops { HasStops H.tells keeper.old.forest.meta (H.state host.old) (H.state host.new) result }
    ensures becomes { H.tells → OnOk result (KeepsOrigins (H.state host.old) (H.state host.new) keeper.old.forest.meta keeper.new.forest.meta) }
    ensures silent { H.tells → 1 ≤ port → IsSilent (H.state host.old) (H.state host.new) }
    ensures turns { H.tells → (mark_now (H.state host.new)).turns ≡ (mark_now (H.state host.old)).turns }
    ensures sound { IfErr result IsSoundStop }
    ensures reads { H.tells → (H.state host.new).reads ≡ (H.state host.old).reads }
    ensures ready { OnOk result (IsReady H.tells keeper.new (H.state host.new)) }
    ensures worn { H.tells → (content : Store) → Holds content keeper.old (H.state host.old) → OnWorn result (IsWornBy (after content Asked.Flush)) }
    ensures after { H.tells → (content : Store) → Holds content keeper.old (H.state host.old)
        → OnOk result (Holds (after content Asked.Flush) keeper.new (H.state host.new)) }
    ensures told { H.tells → (content : Store) → Holds content keeper.old (H.state host.old)
        → OnOk result (Told (mark_now (H.state host.old)) (mark_now (H.state host.new)) port (reply_to port content Asked.Flush).bytes) }
    ensures moments { H.tells → (content : Store) → Holds content keeper.old (H.state host.old)
        → Passes (InAnswer port content Asked.Flush (mark_now (H.state host.old)))
        (LeavesInAnswer port content Asked.Flush (mark_now (H.state host.old))) (H.state host.old) (H.state host.new) }
{
    keeper.flush(alloc, host)?;
    tell(host, port, b"+OK\r\n")
}

/// Does what is asked at a port, and tells the answer.
pub fn answer<H: Host>(
    alloc: Global,
    host: &mut H,
    keeper: &mut Keeper,
    port: u32,
    asked: Asked,
) -> Result<(), Stop>
    requires ready { IsReady H.tells keeper.old (H.state host.old) }
    requires allowed { IsAllowed asked }
    ensures stops { HasStops H.tells keeper.old.forest.meta (H.state host.old) (H.state host.new) result }
    ensures becomes { H.tells → OnOk result (KeepsOrigins (H.state host.old) (H.state host.new) keeper.old.forest.meta keeper.new.forest.meta) }
    ensures silent { H.tells → 1 ≤ port → IsSilent (H.state host.old) (H.state host.new) }
    ensures turns { H.tells → (mark_now (H.state host.new)).turns ≡ (mark_now (H.state host.old)).turns }
    ensures sound { H.tells → (content : Store) → Holds content keeper.old (H.state host.old) → IfErr result IsSoundStop }
    ensures reads { H.tells → IsNoRows asked → (H.state host.new).reads ≡ (H.state host.old).reads }
    ensures ready { OnOk result (IsReady H.tells keeper.new (H.state host.new)) }
    ensures worn { H.tells → (content : Store) → Holds content keeper.old (H.state host.old) → OnWorn result (IsWornBy (after content asked)) }
    ensures after { H.tells → (content : Store) → Holds content keeper.old (H.state host.old)
        → OnOk result (Holds (after content asked) keeper.new (H.state host.new)) }
    ensures told { H.tells → (content : Store) → Holds content keeper.old (H.state host.old)
        → OnOk result (Told (mark_now (H.state host.old)) (mark_now (H.state host.new)) port (reply_to port content asked).bytes) }
    ensures moments { H.tells → (content : Store) → Holds content keeper.old (H.state host.old)
        → Passes (InAnswer port content asked (mark_now (H.state host.old)))
        (LeavesInAnswer port content asked (mark_now (H.state host.old))) (H.state host.old) (H.state host.new) }
{
    match asked {
        Asked::Refused(refusal) => refuse(alloc, host, port, refusal),
        Asked::Points {
            names,
            time,
            values,
        } => points(
            alloc,
            host,
            keeper,
            port,
            names.as_slice(),
            time,
            values.as_slice(),
        ),
        Asked::Rows(metric) => rows(alloc, host, keeper, port, metric.as_slice()),
        Asked::Flush => flush(alloc, host, keeper, port),
    }
}
