//! The rows of a query, one after the other.
ghost use Rattle.std.specs.Prelude.{◌≡◌, ℕ, List, map, IfOk};
ghost use Rattle.ak_base.specs.declared.point.Point.{Point};
ghost use Rattle.ak_rows.specs.Feeds.{Bucket};
ghost use Rattle.ak_rows.specs.Starts.{lane_of, lode_of, lists, lanes_in, lodes_in};
ghost use Rattle.ak_rows.specs.ToCome.{to_come, at_first, CanAnswer, PlanIs};

use crate::buckets::Lode;
use crate::points::Lane;
use ak_names::Tracks;
use ak_query::{Func, Kind, Query};
use std::alloc::{AllocError, Global};

// What is made from a track.
#[derive(Drop)]
enum Plan {
    Select(Vec<Vec<Lane>>),
    Join(Vec<Vec<Lane>>),
    Aggregate(Func, Vec<Vec<Lode>>),
    Group(Vec<Func>, Vec<Vec<Lode>>),
}

/// The rows of a query that are still to come.
#[derive(Drop)]
pub struct Rows {
    plan: Plan,
    back: bool,
    by_time: bool,
    // Of rows by series the track that is at hand, and of rows by time the tracks that have been asked.
    at: usize,
    // Of rows by time the time of each track's next row.
    times: Vec<Option<u64>>,
    // Of rows by time the track that gave the last row, while it hasn't been asked again.
    waiting: Option<usize>,
    skip: u64,
    keep: Option<u64>,
}

impl Rows {
    /// All rows of a query.
    pub fn new(alloc: Global, query: &Query, tracks: &Tracks) -> Result<Rows, AllocError>
        requires { CanAnswer query.now tracks.now }
        ensures { IfOk result (λ rows. (points : ℕ → List Point) (buckets : ℕ → List Bucket) → to_come points buckets rows ≡ at_first query.now tracks.now points buckets) }
    {
        let plan = plan_of(alloc, &query.kind, tracks)?;
        Ok(Rows {
            plan,
            back: query.range.back,
            by_time: query.by_time,
            at: 0,
            times: Vec::new(alloc),
            waiting: None,
            skip: query.offset,
            keep: query.limit,
        })
    }
}

// A copy of functions.
fn copied(alloc: Global, funcs: &[Func]) -> Result<Vec<Func>, AllocError>
    ensures { IfOk result (λ v. v.items ≡ funcs.now) }
{
    let mut list = Vec::new(alloc);
    list.extend_from_slice(funcs)?;
    Ok(list)
}

// A plan in which nothing has been asked.
fn plan_of(alloc: Global, kind: &Kind, tracks: &Tracks) -> Result<Plan, AllocError>
    ensures { IfOk result (PlanIs kind.now tracks.now) }
{
    match kind {
        Kind::Select => Ok(Plan::Select(lanes_of(alloc, tracks)?)),
        Kind::Join => Ok(Plan::Join(lanes_of(alloc, tracks)?)),
        Kind::Aggregate(f) => Ok(Plan::Aggregate(*f, lodes_of(alloc, tracks)?)),
        Kind::Group { funcs, .. } => {
            let list = copied(alloc, funcs.as_slice())?;
            Ok(Plan::Group(list, lodes_of(alloc, tracks)?))
        }
    }
}

// The members of a track, by their points.
fn lanes_of_track(alloc: Global, members: &[u32]) -> Result<Vec<Lane>, AllocError>
    ensures { IfOk result (λ v. v.items ≡ map lane_of members.now) }
{
    let mut lanes = Vec::new(alloc);
    for series in members {
        lanes.push(Lane::new(*series))?;
    }
    Ok(lanes)
}

// The members of all tracks, by their points.
fn lanes_of(alloc: Global, tracks: &Tracks) -> Result<Vec<Vec<Lane>>, AllocError>
    ensures { IfOk result (λ v. lists v ≡ lanes_in tracks.now) }
{
    let mut all = Vec::new(alloc);
    for track in tracks.as_slice() {
        all.push(lanes_of_track(alloc, track.members.as_slice())?)?;
    }
    Ok(all)
}

// The members of a track, by their buckets.
fn lodes_of_track(alloc: Global, members: &[u32]) -> Result<Vec<Lode>, AllocError>
    ensures { IfOk result (λ v. v.items ≡ map lode_of members.now) }
{
    let mut lodes = Vec::new(alloc);
    for series in members {
        lodes.push(Lode::new(*series))?;
    }
    Ok(lodes)
}

// The members of all tracks, by their buckets.
fn lodes_of(alloc: Global, tracks: &Tracks) -> Result<Vec<Vec<Lode>>, AllocError>
    ensures { IfOk result (λ v. lists v ≡ lodes_in tracks.now) }
{
    let mut all = Vec::new(alloc);
    for track in tracks.as_slice() {
        all.push(lodes_of_track(alloc, track.members.as_slice())?)?;
    }
    Ok(all)
}
