//! What the definitions say of one another.
ghost use Rattle.std.specs.Prelude.{◌≡◌, ◌⊎◌, ℕ, Bool, false, List, Vec};
ghost use Rattle.std.specs.declared.alloc.Global.{Global};
ghost use Rattle.ak_base.specs.declared.point.Point.{Point};
ghost use Rattle.ak_names.specs.declared.tracks.Track.{Track};
ghost use Rattle.ak_query.specs.declared.query.Kind.TheVariants.{Select, Join};
ghost use Rattle.ak_query.specs.declared.query.Query.{Query};
ghost use Rattle.ak_rows.specs.Ahead.{IsInOrder};
ghost use Rattle.ak_rows.specs.Answers.{paged, rows_of};
ghost use Rattle.ak_rows.specs.Feeds.{Bucket};
ghost use Rattle.ak_rows.specs.Sorted.{turned};
ghost use Rattle.ak_rows.specs.Starts.{lanes_in, lists};
ghost use Rattle.ak_rows.specs.ToCome.{at_first, to_come, CanAnswer};
ghost use Rattle.ak_rows.specs.Tracks.{select_rows, AreAllApart, AreAllHad, AreAllInOrder};
ghost use Rattle.ak_rows.specs.declared.points.Lane.{Lane};
ghost use Rattle.ak_rows.specs.declared.rows.Plan.TheVariants.{Select as SelectPlan};
ghost use Rattle.ak_rows.specs.declared.rows.Rows.{Rows};

/// What is to come at first of a query for points are its rows, where each series has its selected points in the order in
/// which they come.
pub fn first_are_all()
    ensures { (q : Query) (tracks : List Track) (selected : ℕ → List Point) (buckets : ℕ → List Bucket) → ((q.kind ≡ Select) ⊎ (q.kind ≡ Join))
        → at_first q tracks (λ s. turned q.range.back (selected s)) buckets ≡ rows_of q tracks selected }
{}

/// The members that a query's tracks begin with are apart, and what they have comes in order, as the points of the series do.
pub fn members_begin()
    ensures apart { (q : Query) (tracks : List Track) → CanAnswer q tracks → AreAllApart (lanes_in tracks) }
    ensures order { (back : Bool) (points : ℕ → List Point) (tracks : List Track) → AreAllHad (λ s. IsInOrder back (points s)) (lanes_in tracks)
        → AreAllInOrder back points (lanes_in tracks) }
{}

/// What is to come of a select by series are the rows that its page leaves of what its tracks still have.
pub fn select_comes()
    ensures { (points : ℕ → List Point) (buckets : ℕ → List Bucket) (rows : Rows) (tracks : Vec (Vec Lane Global) Global) → rows.plan ≡ SelectPlan tracks → rows.by_time ≡ false
        → to_come points buckets rows ≡ paged rows.skip rows.keep (select_rows rows.back points (lists tracks)) }
{}
