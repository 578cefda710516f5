//! How much of a part of a tree is selected.
ghost use Rattle.std.specs.Prelude.{◌≡◌, ◌⊎◌, ◌+◌, ◌<◌, ◌≤◌, ◌↔◌, true, IsTrue, IsFalse};
ghost use Rattle.ak_select.specs.declared.part.Part.{Part};

use crate::window::Window;
use ak_summary::Summary;

/// How much of the points under a reference is selected.
#[derive(Clone, Copy, Debug, PartialEq, Eq)]
pub enum Part {
    /// None of them.
    Out,
    /// All of them, and the summary is theirs.
    Whole,
    /// That can't be told without them.
    Across,
}

/// How much is selected under a reference with this summary. Where its first leaf is dead, only its end is that of its points.
pub fn part_of(window: Window, is_open: bool, first_live: bool, s: Summary) -> Part
    ensures out { result ≡ Part.Out → (s.end < window.least) ⊎ (IsTrue first_live × (window.most < s.begin)) }
    ensures whole { result ≡ Part.Whole → IsTrue is_open × IsTrue first_live × (window.least ≤ s.begin) × (s.end ≤ window.most) }
    ensures across { result ≡ Part.Across → IsTrue first_live → IsTrue is_open
        → ((s.begin < window.least) × (window.least ≤ s.end)) ⊎ ((s.begin ≤ window.most) × (window.most < s.end)) }
{
    if s.end < window.least {
        return Part::Out;
    }
    if !first_live {
        return Part::Across;
    }
    if window.most < s.begin {
        return Part::Out;
    }
    if is_open && window.least <= s.begin && s.end <= window.most {
        return Part::Whole;
    }
    Part::Across
}
