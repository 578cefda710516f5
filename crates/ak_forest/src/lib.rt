//! The trees of a store: what stands at which address, and what an opening finds.
//!
//! Each function here is a law about the definitions in specs/. It does nothing.
#![tactic(auto)]

ghost use Rattle.ak_forest.specs.Forest.{Added, Born, Closed, Computed, Opened, Stands, Turned, Widened};
ghost use Rattle.ak_forest.specs.Laws.{Agree, Carried, DeadBelow, FewReads, Found, OlderKept, Placed, Rescued, Switched};
ghost use Rattle.ak_forest.specs.Written.{RowsAreWhole, SameSaid, WholeAreRows};

/// Closing leaf m empties each level below carry m, pushes one at that level and leaves those above.
pub fn carry_counts()
    ensures { Carried }
{}

/// What isn't live doesn't count: two images that agree at the live addresses are both sound or both not.
pub fn agreement_holds()
    ensures { Agree }
{}

/// The live leaves under what an opening finds pending are the scan.
pub fn rescue_finds_all()
    ensures { Rescued }
{}

/// What an opening finds at a level are its pending nodes, in order.
pub fn rescue_finds_pending()
    ensures { Found }
{}

/// A dead node has no live leaf.
pub fn dead_has_no_live_leaf()
    ensures { DeadBelow }
{}

/// A switch that gives up the least ordinal keeps an image sound.
pub fn switch_keeps_sound()
    ensures { Switched }
{}

/// Closing a leaf keeps an image sound.
pub fn close_keeps_sound()
    ensures { Placed }
{}

/// A new store is a forest.
pub fn birth_gives_forest()
    ensures { Born }
{}

/// A new series keeps the forest.
pub fn series_keeps_forest()
    ensures { Added }
{}

/// Closing a leaf keeps the forest.
pub fn close_keeps_forest()
    ensures { Closed }
{}

/// A switch that gives up the least ordinal keeps the forest.
pub fn switch_keeps_forest()
    ensures { Turned }
{}

/// A switch that gives up no ordinal keeps the forest.
pub fn widening_keeps_forest()
    ensures { Widened }
{}

/// An opening of a sound image gives a forest.
pub fn opening_gives_forest()
    ensures { Opened }
{}

/// A forest stands on a sound image.
pub fn forest_is_sound()
    ensures { Stands }
{}

/// The step as it is computed is a step.
pub fn step_is_computed()
    ensures { Computed }
{}

/// What the blocks of a series say and what is said of it by numbers is one thing.
pub fn readings_agree()
    ensures { SameSaid }
{}

/// An opening reads at most one node less than the fan-out at a level.
pub fn rescue_reads_few()
    ensures { FewReads }
{}

/// A group keeps the image of an older record sound.
pub fn close_keeps_older_sound()
    ensures { OlderKept }
{}

/// Where each live ordinal is a row of whole groups, each block is of a group.
pub fn rows_give_groups()
    ensures { RowsAreWhole }
{}

/// Where each live block is of a group, each live ordinal is a row of whole groups.
pub fn groups_give_rows()
    ensures { WholeAreRows }
{}
