//! What the definition of a summary says of itself.
ghost use Rattle.std.specs.Prelude.{◌≡◌, ◌≢◌, ◌++◌, [], List};
ghost use Rattle.ak_base.specs.declared.point.Point.{Point};
ghost use Rattle.ak_base.specs.Points.{IsHistory};
ghost use Rattle.ak_summary.specs.declared.summary.Summary.{Summary};
ghost use Rattle.ak_summary.specs.Folds.{summary_of};
ghost use Rattle.ak_summary.specs.Summaries.{IsSummary, IsBounded, IsOrderly, joined};

/// A list has one summary.
pub fn one_summary()
    ensures { (ps : List Point) (a b : Summary) → IsSummary ps a → IsSummary ps b → a ≡ b }
{}

/// The summary of a list has a bounded sum, and that of a history is orderly.
pub fn summaries_keep_rules()
    ensures bounded { (ps : List Point) (s : Summary) → IsSummary ps s → IsBounded s }
    ensures orderly { (ps : List Point) (s : Summary) → IsHistory ps → IsSummary ps s → IsOrderly s }
{}

/// Joins can be taken from either end.
pub fn joins_associate()
    ensures { (a b c : Summary) → joined (joined a b) c ≡ joined a (joined b c) }
{}

/// The summary of one list followed by another is the join of theirs.
pub fn joins_summarize()
    ensures { (ps qs : List Point) → ps ≢ [] → qs ≢ [] → summary_of (ps ++ qs) ≡ joined (summary_of ps) (summary_of qs) }
{}

/// The computed summary of a history is its summary.
pub fn computed_summary()
    ensures is { (ps : List Point) → ps ≢ [] → IsHistory ps → IsSummary ps (summary_of ps) }
    ensures only { (ps : List Point) (s : Summary) → IsHistory ps → IsSummary ps s → s ≡ summary_of ps }
{}
