//! The top call.
ghost use Rattle.std.specs.Prelude.{◌≡◌, ◌≢◌, ◌⊎◌, ◌↔◌, ◌≤◌, [], map, string_bytes, None, OnOk, IfOk, IfErr};
ghost use Rattle.ak_base.specs.declared.limits.Limits.{Limits};
ghost use Rattle.ak_base.specs.Ranges.{AreLimits};
ghost use Rattle.ak_base.specs.Stops.{status_of};
ghost use Rattle.ak_checkpoint.specs.Making.{KeepsDisk, made_sizes};
ghost use Rattle.ak_host.specs.Causes.{Rose};
ghost use Rattle.ak_host.specs.Files.{Files};
ghost use Rattle.ak_host.specs.Moments.{Passes, PortPasses, DiskPasses, HoldsFrom, LeavesNow, mark_now};
ghost use Rattle.ak_image.specs.Images.{IsSound, StandsFor};
ghost use Rattle.ak_node.specs.Calls.{HasStops, IsSilent, IsSoundStop, Told};
ghost use Rattle.ak_node.specs.Opening.{IsFirst};
ghost use Rattle.ak_record.specs.Stops.{IsNoStore, IsTaken, IsMakeStop};
ghost use Rattle.ak_tree.specs.Later.{KeepsOrigins};
ghost use Rattle.ak_tree.specs.Stops.{OnWorn};
ghost use Rattle.ak_world.specs.Views.{View, first_view};
ghost use Rattle.ak_words.specs.Words.{IsCommand};
ghost use Rattle.ak_top.specs.Calls.{HasServeStops, HasTold, OnStop, IsBudget, AfterWhole};
ghost use Rattle.ak_top.specs.Commands.{IsRun, Creates, Makes, Serves, Opens, AreFree, IsMaking, LeavesBefore, scratch_limits};
ghost use Rattle.ak_top.specs.Ends.{EndsBy, IsEnd, IsOneOf, IsOwn, IsRunStop, IsScratchStop, OnlyBy, IsMissing, IsThere, IsRefused, IsServing, IsServingOrThere, IsExists, HasServed, HasOpened, IsOpenedBy, IsFinished};
ghost use Rattle.ak_top.specs.Kept.{IsKept, KeepsFrom, KeepsLast};
ghost use Rattle.ak_run.specs.Run.{World, world_of};
ghost use Rattle.ak_node.specs.Standing.{CanServe, Stands, InTurn, LeavesInTurn, LeavesLast, WearsIn, TakesOne, TakesTurn};
ghost use Rattle.ak_top.specs.Turns.{IsIdle, AreDone, AreAll, AreSome, TurnsSince, IsUntouched, IsRefusal, IsDamage};
ghost use Rattle.ak_top.specs.Told.{IsComplete, EndsDone, AreSpent, IsWorn, HasWorn, IsTold, line_of, IsQuiet};

use ak_base::{Limits, Stop};
use ak_checkpoint::make_store;
use ak_host::{Disk, Host, Ports};
use ak_node::{Node, Went};
use ak_words::{Command, WordsError, read_words};
use std::alloc::Global;

// How many turns a call takes at most.
const TURNS: u64 = 1 << 32;

/// Takes a turn, and does what `Done` asks for.
fn take_turn<H: Host>(alloc: Global, host: &mut H, node: &mut Node) -> Result<Went, Stop>
    requires free { node.old.stop ≡ None }
    requires ready { CanServe H.tells node.old (H.state host.old) }
    ensures free { OnOk result (node.new.stop ≡ None) }
    ensures stops { HasStops H.tells node.old.keeper.forest.meta (H.state host.old) (H.state host.new) result }
    ensures becomes { H.tells → OnOk result (KeepsOrigins (H.state host.old) (H.state host.new) node.old.keeper.forest.meta node.new.keeper.forest.meta) }
    ensures silent { H.tells → IsSilent (H.state host.old) (H.state host.new) }
    ensures taken { H.tells → IfOk result (TakesTurn (mark_now (H.state host.old)) (mark_now (H.state host.new))) }
    ensures stopped { H.tells → IfErr result (λ stop. (stop ≡ Stop.Port) ⊎ TakesOne (mark_now (H.state host.old)) (mark_now (H.state host.new))) }
    ensures sound { H.tells → (world : World) → Stands node.old world (H.state host.old) → IfErr result IsSoundStop }
    ensures ready { OnOk result (CanServe H.tells node.new (H.state host.new)) }
    ensures worn { H.tells → (world : World) → Stands node.old world (H.state host.old)
        → OnWorn result (WearsIn world (mark_now (H.state host.old)) (mark_now (H.state host.new))) }
    ensures after { H.tells → (world : World) → Stands node.old world (H.state host.old)
        → IfOk result (λ went. AfterWhole world (mark_now (H.state host.old)) (mark_now (H.state host.new)) node.new (H.state host.new) went) }
    ensures moments { H.tells → (world : World) → Stands node.old world (H.state host.old)
        → Passes (λ mark. (mark ≡ mark_now (H.state host.old)) ⊎ InTurn world (mark_now (H.state host.old)) mark)
        (λ mark disk. ((mark ≡ mark_now (H.state host.old)) × LeavesLast world.content disk)
        ⊎ LeavesInTurn world (mark_now (H.state host.old)) mark disk)
        (H.state host.old) (H.state host.new) }
{
    match node.turn(alloc, host)? {
        Went::More => Ok(Went::More),
        Went::Done => {
            node.finish(alloc, host)?;
            Ok(Went::Done)
        }
    }
}

/// Takes turns up to the last, and answers each.
fn serve<H: Host>(alloc: Global, host: &mut H, node: Node) -> Result<(), Stop>
    requires free { node.stop ≡ None }
    requires ready { CanServe H.tells node (H.state host.old) }
    ensures cause { HasServeStops H.tells node.keeper.forest.meta (H.state host.old) (H.state host.new) result }
    ensures sound { H.tells → (view : View) → Stands node (world_of view) (H.state host.old) → IfErr result IsSoundStop }
    ensures silent { H.tells → IsSilent (H.state host.old) (H.state host.new) }
    ensures sizes { (H.state host.new).sizes ≡ (H.state host.old).sizes }
    ensures finished { H.tells → OnOk result (TurnsSince AreDone (mark_now (H.state host.old)) (mark_now (H.state host.new))) }
    ensures all { H.tells → OnStop IsBudget result (TurnsSince AreAll (mark_now (H.state host.old)) (mark_now (H.state host.new))) }
    ensures damaged { H.tells → OnStop IsDamage result (TurnsSince AreSome (mark_now (H.state host.old)) (mark_now (H.state host.new))) }
    ensures spent { H.tells → (view : View) → Stands node (world_of view) (H.state host.old)
        → OnStop IsBudget result (AreSpent (mark_now (H.state host.old)) (mark_now (H.state host.new))) }
    ensures done { H.tells → (view : View) → Stands node (world_of view) (H.state host.old)
        → OnOk result (EndsDone view (mark_now (H.state host.old)) (mark_now (H.state host.new))) }
    ensures kept { H.tells → (view : View) → Stands node (world_of view) (H.state host.old)
        → OnOk result (KeepsLast view (mark_now (H.state host.old)) (mark_now (H.state host.new)) (H.state host.new)) }
    ensures complete { H.tells → (view : View) → Stands node (world_of view) (H.state host.old)
        → OnStop IsBudget result (IsComplete view (mark_now (H.state host.old)) (mark_now (H.state host.new))) }
    ensures worn { H.tells → (view : View) → Stands node (world_of view) (H.state host.old)
        → OnWorn result (HasWorn view (mark_now (H.state host.old)) (mark_now (H.state host.new))) }
    ensures fresh { H.tells → (view : View) → Stands node (world_of view) (H.state host.old)
        → OnOk result (¬ (IsWorn view (mark_now (H.state host.old)) (mark_now (H.state host.new)))) }
    ensures fresh_spent { H.tells → (view : View) → Stands node (world_of view) (H.state host.old)
        → OnStop IsBudget result (¬ (IsWorn view (mark_now (H.state host.old)) (mark_now (H.state host.new)))) }
    ensures moments { H.tells → (view : View) → Stands node (world_of view) (H.state host.old)
        → Passes (IsQuiet view (mark_now (H.state host.old))) (IsKept view (mark_now (H.state host.old))) (H.state host.old) (H.state host.new) }
{
    let mut node = node;
    for _turn in 0..TURNS {
        match take_turn(alloc, host, &mut node) {
            Ok(Went::More) => {}
            Ok(Went::Done) => return Ok(()),
            Err(stop) => return Err(stop),
        }
    }
    Err(Stop::Budget)
}

/// Opens the store, and serves it.
fn run<H: Host>(alloc: Global, host: &mut H) -> Result<(), Stop>
    ensures cause { IfErr result (IsRunStop H.tells (H.state host.old) (H.state host.new)) }
    ensures disk_later { (H.state host.old).disk_faults ≤ (H.state host.new).disk_faults }
    ensures port_later { (H.state host.old).port_faults ≤ (H.state host.new).port_faults }
    ensures no_store { H.tells → IsNoStore (H.state host.old).files → OnlyBy IsMissing result }
    ensures silent { H.tells → IsSilent (H.state host.old) (H.state host.new) }
    ensures sizes { (H.state host.new).sizes ≡ (H.state host.old).sizes }
    ensures refused { H.tells → OnStop IsRefusal result (IsUntouched (H.state host.old) (H.state host.new)) }
    ensures damaged { H.tells → IsIdle (mark_now (H.state host.old)) (mark_now (H.state host.new)) → OnStop IsDamage result (IsUntouched (H.state host.old) (H.state host.new)) }
    ensures finished { H.tells → OnOk result (TurnsSince AreDone (mark_now (H.state host.old)) (mark_now (H.state host.new))) }
    ensures all { H.tells → OnStop IsBudget result (TurnsSince AreAll (mark_now (H.state host.old)) (mark_now (H.state host.new))) }
    ensures quiet { H.tells → (view : View) → IsSound (H.state host.old).files → StandsFor view (H.state host.old).files
        → Passes (IsQuiet view (mark_now (H.state host.old))) (λ mark disk. Unit {0}) (H.state host.old) (H.state host.new) }
    ensures served { H.tells → (view : View) → IsSound (H.state host.old).files → StandsFor view (H.state host.old).files → HasServed view (mark_now (H.state host.old)) (H.state host.new) result }
    ensures sound { H.tells → (view : View) → IsSound (H.state host.old).files → StandsFor view (H.state host.old).files → IfErr result IsServing }
    ensures stands { H.tells → (view : View) → IsSound (H.state host.old).files → StandsFor view (H.state host.old).files
        → KeepsFrom view (LeavesNow (H.state host.old)) (HasOpened result) (H.state host.old) (H.state host.new) }
{
    let node = Node::open(alloc, host)?;
    serve(alloc, host, node)
}

/// Makes a store, and serves it.
fn scratch<H: Host>(alloc: Global, host: &mut H) -> Result<(), Stop>
    ensures cause { IfErr result (IsScratchStop H.tells (H.state host.old) (H.state host.new)) }
    ensures disk_later { (H.state host.old).disk_faults ≤ (H.state host.new).disk_faults }
    ensures port_later { (H.state host.old).port_faults ≤ (H.state host.new).port_faults }
    ensures exists { H.tells → IsTaken (H.state host.old).files → OnlyBy IsThere result }
    ensures silent { H.tells → IsSilent (H.state host.old) (H.state host.new) }
    ensures sizes { OnOk result ((H.state host.new).sizes ≡ made_sizes scratch_limits (H.state host.old).sizes) }
    ensures refused { H.tells → OnStop IsRefusal result (IsUntouched (H.state host.old) (H.state host.new)) }
    ensures damaged { H.tells → IsIdle (mark_now (H.state host.old)) (mark_now (H.state host.new)) → OnStop IsDamage result (IsUntouched (H.state host.old) (H.state host.new)) }
    ensures finished { H.tells → OnOk result (TurnsSince AreDone (mark_now (H.state host.old)) (mark_now (H.state host.new))) }
    ensures all { H.tells → OnStop IsBudget result (TurnsSince AreAll (mark_now (H.state host.old)) (mark_now (H.state host.new))) }
    ensures quiet { H.tells → Passes (IsQuiet (first_view scratch_limits) (mark_now (H.state host.old))) (λ mark disk. Unit {0}) (H.state host.old) (H.state host.new) }
    ensures there { H.tells → OnStop IsExists result (mark_now (H.state host.new) ≡ mark_now (H.state host.old)) }
    ensures served { H.tells → HasServed (first_view scratch_limits) (mark_now (H.state host.old)) (H.state host.new) result }
    ensures sound { H.tells → IfErr result IsServingOrThere }
    ensures stands { H.tells → KeepsFrom (first_view scratch_limits) (λ disk. AreFree (H.state host.old) → IsMaking scratch_limits disk)
        (HasOpened result) (H.state host.old) (H.state host.new) }
{
    let node = Node::make(alloc, host, &Limits::SCRATCH)?;
    serve(alloc, host, node)
}

/// Makes a store.
fn create<D: Disk>(alloc: Global, disk: &mut D, limits: Limits) -> Result<(), Stop>
    requires { AreLimits limits }
    ensures err { IfErr result (IsMakeStop D.tells (D.state disk.old) (D.state disk.new)) }
    ensures exists { D.tells → IsTaken (D.state disk.old).files → OnlyBy IsThere result }
    ensures moments { D.tells → AreFree (D.state disk.old) → DiskPasses (IsMaking limits) (D.state disk.old) (D.state disk.new) }
    ensures mark { D.tells → DiskPasses (λ left. Unit {0}) (D.state disk.old) (D.state disk.new) }
    ensures made { D.tells → OnOk result ((left : Files) → LeavesNow (D.state disk.new) left → IsFirst limits left) }
    ensures sizes { OnOk result ((D.state disk.new).sizes ≡ made_sizes limits (D.state disk.old).sizes) }
    ensures kept { D.tells → IsTaken (D.state disk.old).files → KeepsDisk (D.state disk.old) (D.state disk.new) }
    ensures disk_later { (D.state disk.old).disk_faults ≤ (D.state disk.new).disk_faults }
    ensures port_faults { (D.state disk.new).port_faults ≡ (D.state disk.old).port_faults }
{
    make_store(alloc, disk, &limits)?;
    Ok(())
}

/// Does what the words ask for.
fn perform<H: Host>(alloc: Global, words: &[String], host: &mut H) -> Result<(), Stop>
    ensures cause { IfErr result (IsEnd (map string_bytes words.now) H.tells (H.state host.old) (H.state host.new)) }
    ensures disk_later { (H.state host.old).disk_faults ≤ (H.state host.new).disk_faults }
    ensures port_later { (H.state host.old).port_faults ≤ (H.state host.new).port_faults }
    ensures usage { ¬ (IsCommand (map string_bytes words.now)) → OnlyBy IsRefused result }
    ensures no_store { H.tells → IsRun (map string_bytes words.now) → IsNoStore (H.state host.old).files → OnlyBy IsMissing result }
    ensures exists { H.tells → (limits : Limits) → Makes (map string_bytes words.now) limits → IsTaken (H.state host.old).files → OnlyBy IsThere result }
    ensures silent { H.tells → IsSilent (H.state host.old) (H.state host.new) }
    ensures sizes { IsRun (map string_bytes words.now) → (H.state host.new).sizes ≡ (H.state host.old).sizes }
    ensures sizes_made { (limits : Limits) → Makes (map string_bytes words.now) limits → OnOk result ((H.state host.new).sizes ≡ made_sizes limits (H.state host.old).sizes) }
    ensures refused { H.tells → OnStop IsRefusal result (IsUntouched (H.state host.old) (H.state host.new)) }
    ensures damaged { H.tells → IsIdle (mark_now (H.state host.old)) (mark_now (H.state host.new)) → OnStop IsDamage result (IsUntouched (H.state host.old) (H.state host.new)) }
    ensures finished { H.tells → Serves (map string_bytes words.now) → OnOk result (TurnsSince AreDone (mark_now (H.state host.old)) (mark_now (H.state host.new))) }
    ensures all { H.tells → OnStop IsBudget result (TurnsSince AreAll (mark_now (H.state host.old)) (mark_now (H.state host.new))) }
    ensures quiet { H.tells → (view : View) → Opens (map string_bytes words.now) (H.state host.old) view
        → Passes (IsQuiet view (mark_now (H.state host.old))) (λ mark disk. Unit {0}) (H.state host.old) (H.state host.new) }
    ensures idle { H.tells → ¬ (Serves (map string_bytes words.now)) → mark_now (H.state host.new) ≡ mark_now (H.state host.old) }
    ensures there { H.tells → OnStop IsExists result (mark_now (H.state host.new) ≡ mark_now (H.state host.old)) }
    ensures served { H.tells → (view : View) → Opens (map string_bytes words.now) (H.state host.old) view → Serves (map string_bytes words.now)
        → HasServed view (mark_now (H.state host.old)) (H.state host.new) result }
    ensures sound { H.tells → (view : View) → Opens (map string_bytes words.now) (H.state host.old) view → Serves (map string_bytes words.now)
        → IfErr result IsServingOrThere }
    ensures stands { H.tells → (view : View) → Opens (map string_bytes words.now) (H.state host.old) view → Serves (map string_bytes words.now)
        → KeepsFrom view (LeavesBefore (map string_bytes words.now) (H.state host.old)) (HasOpened result) (H.state host.old) (H.state host.new) }
    ensures creating { H.tells → (limits : Limits) → Creates (map string_bytes words.now) limits → AreFree (H.state host.old)
        → DiskPasses (IsMaking limits) (H.state host.old) (H.state host.new) }
    ensures created { H.tells → (limits : Limits) → Creates (map string_bytes words.now) limits
        → OnOk result ((left : Files) → LeavesNow (H.state host.new) left → IsFirst limits left) }
    ensures making { (limits : Limits) → Creates (map string_bytes words.now) limits → IfErr result IsThere }
{
    match read_words(alloc, words) {
        Ok(job) => match job.command {
            Command::Create(limits) => create(alloc, host, limits),
            Command::Run => run(alloc, host),
            Command::Scratch => scratch(alloc, host),
        },
        Err(WordsError::Usage) => Err(Stop::Usage),
        Err(WordsError::Memory) => Err(Stop::Memory),
    }
}

/// Tells the console the line of a stop, and gives its status. A failure of this telling is ignored.
fn fail<P: Ports>(ports: &mut P, stop: Stop) -> u8
    ensures status { result ≡ status_of stop }
    ensures later { (P.state ports.old).port_faults ≤ (P.state ports.new).port_faults }
    ensures disk_faults { (P.state ports.new).disk_faults ≡ (P.state ports.old).disk_faults }
    ensures files { P.tells → (P.state ports.new).files ≡ (P.state ports.old).files }
    ensures sizes { (P.state ports.new).sizes ≡ (P.state ports.old).sizes }
    ensures told { P.tells → HasTold (P.state ports.old).port_faults (P.state ports.new).port_faults
        (mark_now (P.state ports.old)) (mark_now (P.state ports.new)) (line_of stop) }
    ensures moments { P.tells → PortPasses (λ mark. (mark ≡ mark_now (P.state ports.old))
        ⊎ Told (mark_now (P.state ports.old)) mark 0 (line_of stop)) (P.state ports.old) (P.state ports.new) }
{
    let line = stop.line();
    let _ = ports.reply(0, line.as_bytes());
    stop.status()
}

/// Reads the words, does the command, and answers the status.
///
/// `create DIR` with pairs `--x N` makes a store, `run DIR` serves one, and with no words one is made with the limits of a
/// store in memory and served: 2^32 turns are answered at most, up to `Done`. The status is 0 where the command was done,
/// 1 where the words are no command, 2 where the store is damaged, 3 where a call of the disk failed, 4 where one of the
/// ports failed, 5 where there is no memory, 6 where all turns are spent, 7 where the store is worn, 8 where there is no
/// store, and 9 where there is one already. Port 0 is told the line of a status other than 0.
pub fn akl<H: Host>(alloc: Global, words: &[String], host: &mut H) -> u8
    ensures ends { EndsBy (map string_bytes words.now) H.tells (H.state host.old) (H.state host.new) result }
    ensures disk_later { (H.state host.old).disk_faults ≤ (H.state host.new).disk_faults }
    ensures port_later { (H.state host.old).port_faults ≤ (H.state host.new).port_faults }
    ensures usage { ¬ (IsCommand (map string_bytes words.now)) → (result ≡ 1) ⊎ (result ≡ 5) }
    ensures no_store { H.tells → IsRun (map string_bytes words.now) → IsNoStore (H.state host.old).files → IsOneOf 8 3 5 result }
    ensures exists { H.tells → (limits : Limits) → Makes (map string_bytes words.now) limits → IsTaken (H.state host.old).files → IsOneOf 9 3 5 result }
    // A store that is sound is never damaged.
    ensures undamaged { H.tells → (view : View) → Opens (map string_bytes words.now) (H.state host.old) view → Serves (map string_bytes words.now) → result ≢ 2 }

    // At each moment of the call, what was told are the answers to the turns so far.
    ensures told { H.tells → (view : View) → Opens (map string_bytes words.now) (H.state host.old) view
        → HoldsFrom (H.state host.old).moment (IsTold result view (mark_now (H.state host.old))) (λ mark disk. Unit {0}) (H.state host.new) }
    ensures done { H.tells → (view : View) → Opens (map string_bytes words.now) (H.state host.old) view → Serves (map string_bytes words.now)
        → result ≡ 0 → EndsDone view (mark_now (H.state host.old)) (mark_now (H.state host.new)) }
    ensures spent { H.tells → (view : View) → Opens (map string_bytes words.now) (H.state host.old) view
        → result ≡ 6 → IsComplete view (mark_now (H.state host.old)) (mark_now (H.state host.new)) }
    ensures budget { H.tells → (view : View) → Opens (map string_bytes words.now) (H.state host.old) view
        → (result ≡ 6) ↔ (AreSpent (mark_now (H.state host.old)) (mark_now (H.state host.new)) × IsOwn result × (result ≢ 7)) }
    ensures worn { H.tells → (view : View) → Opens (map string_bytes words.now) (H.state host.old) view
        → (result ≡ 7) ↔ (Serves (map string_bytes words.now) × IsWorn view (mark_now (H.state host.old)) (mark_now (H.state host.new)) × IsOwn result) }

    // On any disk: what is refused leaves it alone, and so does one that is found damaged before a turn is taken.
    ensures refused { H.tells → (result ≡ 1) ⊎ ((result ≡ 8) ⊎ (result ≡ 9)) → IsUntouched (H.state host.old) (H.state host.new) }
    ensures damaged { H.tells → result ≡ 2 → IsIdle (mark_now (H.state host.old)) (mark_now (H.state host.new)) → IsUntouched (H.state host.old) (H.state host.new) }
    // Only a command that serves takes turns, up to `Done` or up to the last.
    ensures idle { H.tells → ¬ (Serves (map string_bytes words.now)) → IsIdle (mark_now (H.state host.old)) (mark_now (H.state host.new)) }
    ensures finished { H.tells → Serves (map string_bytes words.now) → result ≡ 0 → TurnsSince AreDone (mark_now (H.state host.old)) (mark_now (H.state host.new)) }
    ensures all { H.tells → (result ≡ 6) ↔ (TurnsSince AreAll (mark_now (H.state host.old)) (mark_now (H.state host.new)) × IsOwn result × (result ≢ 2) × (result ≢ 7)) }
    // The files are as large as the words say, and a run keeps them so.
    ensures sizes { IsRun (map string_bytes words.now) → (H.state host.new).sizes ≡ (H.state host.old).sizes }
    ensures sizes_made { (limits : Limits) → Makes (map string_bytes words.now) limits → result ≡ 0 → (H.state host.new).sizes ≡ made_sizes limits (H.state host.old).sizes }

    // At each moment from the opening on, each disk that a stop leaves is sound and stands for a view of the run.
    ensures stands { H.tells → (view : View) → Opens (map string_bytes words.now) (H.state host.old) view → Serves (map string_bytes words.now)
        → KeepsFrom view (LeavesBefore (map string_bytes words.now) (H.state host.old)) (IsOpenedBy result) (H.state host.old) (H.state host.new) }
    ensures last { H.tells → (view : View) → Opens (map string_bytes words.now) (H.state host.old) view → Serves (map string_bytes words.now)
        → result ≡ 0 → KeepsLast view (mark_now (H.state host.old)) (mark_now (H.state host.new)) (H.state host.new) }
    // While a store is made, a stop leaves none, or its first view.
    ensures creating { H.tells → (limits : Limits) → Creates (map string_bytes words.now) limits → AreFree (H.state host.old)
        → HoldsFrom (H.state host.old).moment (λ mark. Unit {0}) (λ mark disk. IsMaking limits disk) (H.state host.new) }
    ensures created { H.tells → (limits : Limits) → Creates (map string_bytes words.now) limits → result ≡ 0
        → (left : Files) → LeavesNow (H.state host.new) left → IsFirst limits left }

    // Where no call of the outside failed, the command is done.
    ensures complete { H.tells → (view : View) → Opens (map string_bytes words.now) (H.state host.old) view → Serves (map string_bytes words.now)
        → (map string_bytes words.now ≡ [] → ¬ (IsTaken (H.state host.old).files))
        → ¬ (Rose (H.state host.old).disk_faults (H.state host.new).disk_faults) → ¬ (Rose (H.state host.old).port_faults (H.state host.new).port_faults)
        → IsFinished result view (mark_now (H.state host.old)) (mark_now (H.state host.new)) }
    ensures complete_create { H.tells → (limits : Limits) → Creates (map string_bytes words.now) limits → ¬ (IsTaken (H.state host.old).files)
        → ¬ (Rose (H.state host.old).disk_faults (H.state host.new).disk_faults) → (result ≡ 0) ⊎ (result ≡ 5) }
{
    match perform(alloc, words, host) {
        Ok(()) => 0,
        Err(stop) => fail(host, stop),
    }
}
