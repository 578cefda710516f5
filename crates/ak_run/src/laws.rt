//! Laws of what messages ask for, and of runs.
ghost use Rattle.std.specs.Prelude.{◌≡◌, ℕ, List};
ghost use Rattle.std.specs.List.{AllByRecursion};
ghost use Rattle.ak_host.specs.Marks.{Taken};
ghost use Rattle.ak_meta.specs.Contents.{IsMeta};
ghost use Rattle.ak_resp.specs.declared.message.Message.{Message};
ghost use Rattle.ak_run.specs.declared.asked.Asked.{Asked};
ghost use Rattle.ak_run.specs.Asking.{Asks};
ghost use Rattle.ak_run.specs.Replies.{Reply};
ghost use Rattle.ak_run.specs.Run.{World, world_of, accepted_in, given_in, AllHoldFirst, RunsFrom, AreAnswers};
ghost use Rattle.ak_world.specs.Accepted.{accepted_of, Gains};
ghost use Rattle.ak_world.specs.Valid.{AreOpenable, Goes, IsPrefix};
ghost use Rattle.ak_world.specs.Views.{View};
ghost use Rattle.ak_world.specs.Worlds.{views_of};

/// A message asks for one thing at most.
pub fn one_asking()
    ensures { (scale : ℕ) (m : Message) (a b : Asked) → Asks scale m a → Asks scale m b → a ≡ b }
{}

/// Every message has what it asks for, which may be a refusal.
pub fn every_asking()
    ensures { (scale : ℕ) (m : Message) → (a : Asked) × Asks scale m a }
{}

/// From one view on, turns lead to one world, and are answered in one way.
pub fn one_run()
    ensures worlds { (view : View) (turns : List Taken) (v w : World) (a b : List Reply) → RunsFrom (world_of view) turns v a → RunsFrom (world_of view) turns w b → (v ≡ w) × (a ≡ b) }
    ensures answers { (view : View) (turns : List Taken) (port : ℕ) (a b : List ℕ) → AreAnswers view turns port a → AreAnswers view turns port b → a ≡ b }
{}

/// From each view on, each list of turns has answers.
pub fn every_run()
    ensures { (view : View) (turns : List Taken) → (last : World) × (replies : List Reply) × RunsFrom (world_of view) turns last replies }
{}

/// Each view that a run takes or opens holds, for each series, the live ones of the first leaves that it had: those of the
/// opening view, and then those closed since.
pub fn views_hold_prefixes()
    ensures { (view : View) (turns : List Taken) (last : World) (replies : List Reply) → IsMeta view.content → AreOpenable view.content.ordinals.lo view.content.series view.kept
        → RunsFrom (world_of view) turns last replies → AllByRecursion (IsPrefix last.content.series) (views_of last.content) }
{}

/// A run keeps the views that were taken, and takes others with greater numbers alone.
pub fn views_go_on()
    ensures { (world last : World) (turns : List Taken) (replies : List Reply) → RunsFrom world turns last replies → Goes world.content last.content }
{}

/// Over a run the points of each name that were accepted get more at their end alone: those that are put and not refused, in
/// order. Where the store gets worn these may be the first of them alone.
pub fn points_come_in_order()
    ensures { (world last : World) (turns : List Taken) (replies : List Reply) (run : RunsFrom world turns last replies) (name : List ℕ)
        → Gains last.content.worn (given_in name turns world last replies run) (accepted_of world.content name) (accepted_of last.content name) }
{}

/// Each view that a run takes or opens holds, for each series, the live ones of the leaves that it had, and the points of those
/// are a prefix of the points that were accepted: those of the opening view, and then those that were put.
pub fn views_hold_accepted_points()
    ensures { (view : View) (turns : List Taken) (last : World) (replies : List Reply) → IsMeta view.content → AreOpenable view.content.ordinals.lo view.content.series view.kept
        → (run : RunsFrom (world_of view) turns last replies)
        → AllByRecursion (λ v. AllHoldFirst v.content.ordinals.lo (λ name. accepted_in name view turns last replies run) v.content.series v.kept) (views_of last.content) }
{}
