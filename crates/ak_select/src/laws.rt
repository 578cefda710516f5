//! What a selection of points is by parts.
ghost use Rattle.std.specs.Prelude.{◌≡◌, ◌+◌, ◌<◌, ◌≤◌, ◌++◌, ◌^◌, ℕ, List};
ghost use Rattle.std.specs.List.{AllByRecursion};
ghost use Rattle.ak_base.specs.Points.{IsHistory};
ghost use Rattle.ak_base.specs.Selections.{selected, range_has, IsOpen};
ghost use Rattle.ak_base.specs.declared.filter.Filter.{Filter};
ghost use Rattle.ak_base.specs.declared.point.Point.{Point};
ghost use Rattle.ak_base.specs.declared.range.Range.{Range};
ghost use Rattle.ak_select.specs.Costs.{borders};
ghost use Rattle.ak_select.specs.Stretches.{AreStretches};
ghost use Rattle.ak_select.specs.Windows.{chosen, summed, combined, is_within};
ghost use Rattle.ak_select.specs.declared.window.Window.{Window};
ghost use Rattle.ak_summary.specs.Folds.{summary_of};

/// Where a window has the times of a range, both select the same points.
pub fn selected_is_chosen()
    ensures { (w : Window) (r : Range) (f : Filter) (ps : List Point) → ((ts : ℕ) → ts < 2 ^ 64 → is_within w ts ≡ range_has r ts)
        → AllByRecursion (λ p. p.ts < 2 ^ 64) ps → chosen w f ps ≡ selected r f ps }
{}

/// What is selected of two lists is selected of each.
pub fn chosen_parts()
    ensures { (w : Window) (f : Filter) (ps qs : List Point) → chosen w f (ps ++ qs) ≡ chosen w f ps ++ chosen w f qs }
{}

/// Where a history begins and ends within a window and there is no filter, all of it is selected.
pub fn chosen_whole()
    ensures { (w : Window) (f : Filter) (ps : List Point) → IsOpen f → IsHistory ps → w.least ≤ (summary_of ps).begin → (summary_of ps).end ≤ w.most
        → chosen w f ps ≡ ps }
{}

/// The summary of lists that are put together is that of each, put together.
pub fn summed_parts()
    ensures { (ps qs : List Point) → summed (ps ++ qs) ≡ combined (summed ps) (summed qs) }
{}

/// What borders run through two neighbouring stretches of leaves run through both together.
pub fn borders_part()
    ensures { (w : Window) (low leaves : ℕ) (stretch : ℕ → ℕ → List Point) → AreStretches low leaves stretch
        → (i j k : ℕ) → i ≤ j → j ≤ k → borders w low stretch i j + borders w low stretch j k ≤ borders w low stretch i k }
{}

/// There are three.
pub fn borders_are_few()
    ensures { (w : Window) (low : ℕ) (stretch : ℕ → ℕ → List Point) (i j : ℕ) → borders w low stretch i j ≤ 3 }
{}
