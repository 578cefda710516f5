//! Laws that carry what a call leaves over to the next one.
ghost use Rattle.std.specs.Prelude.{ℕ, List};
ghost use Rattle.ak_host.specs.Files.{Files};
ghost use Rattle.ak_host.specs.Marks.{Mark};
ghost use Rattle.ak_image.specs.Images.{IsSound, StandsFor};
ghost use Rattle.ak_top.specs.Again.{IsNoOlder};
ghost use Rattle.ak_top.specs.Commands.{IsRun, OpensFiles};
ghost use Rattle.ak_top.specs.Kept.{IsKept};
ghost use Rattle.ak_world.specs.Views.{View};

/// Files that are sound and stand for a view are opened with it by `run`: so are those that a command which made a store, or
/// served one up to its end, has left.
pub fn sound_disks_open()
    ensures { (words : List (List ℕ)) (files : Files) (view : View) → IsRun words → IsSound files → StandsFor view files → OpensFiles words files view }
{}

/// What a crash leaves at a moment of a run from its barrier on, is opened by `run` with the view that was left.
pub fn kept_disks_open()
    ensures { (words : List (List ℕ)) (opening : View) (start mark : Mark) (files : Files) → IsRun words
        → (left : IsKept opening start mark files) → OpensFiles words files left.view }
{}

/// Over a crash and the next call: what a crash leaves of that one too stands for a view that is no older than any whose flush
/// the first call confirmed.
pub fn flushes_stay()
    ensures { (opening : View) (start mark : Mark) (files : Files) (left : IsKept opening start mark files) (next_start next_mark : Mark) (next_files : Files)
        → (again : IsKept left.view next_start next_mark next_files) → IsNoOlder opening start mark files left again.view }
{}
