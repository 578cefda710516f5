//! The tracks of a join: series of several metrics with the same tags.
ghost use Rattle.std.specs.Prelude.{◌≡◌, ◌++◌, map, Some, not, string_bytes, IfOk, OnOk};
ghost use Rattle.ak_names.specs.Tracks.{joined_in, once, joining, is_among, joined_track as track_of, bars, barred, behind, member as member_of};

use crate::asked::{admits, has_text, metric, rest};
use crate::index::Index;
use crate::tracks::{Track, Tracks};
use crate::wheres::Wheres;
use ak_base::{Ids, Text, Texts};
use indexmap::IndexSet;
use std::alloc::{AllocError, Global};

// A space and tags more, where there are any.
fn with_tags(alloc: Global, text: &mut Text, tags: &str) -> Result<(), AllocError>
    ensures { OnOk result (text.new ≡ text.old ++ behind tags.now) }
{
    if tags.is_empty() {
        return Ok(());
    }
    text.push(alloc, " ")?;
    text.push(alloc, tags)
}

// The name of a metric with these tags.
fn full_name(alloc: Global, of: &Text, tags: &str) -> Result<Text, AllocError>
    ensures { IfOk result (λ name. name ≡ of.now ++ behind tags.now) }
{
    let mut name = Text::new(alloc);
    name.push(alloc, of.as_str())?;
    with_tags(alloc, &mut name, tags)?;
    Ok(name)
}

// A `|` and a metric more, of each.
fn push_bars(alloc: Global, name: &mut Text, metrics: &[Text]) -> Result<(), AllocError>
    ensures { OnOk result (name.new ≡ name.old ++ bars metrics.now) }
{
    for m in metrics {
        name.push(alloc, "|")?;
        name.push(alloc, m.as_str())?;
    }
    Ok(())
}

// The metrics with `|` between them.
fn barred_name(alloc: Global, metrics: &Texts) -> Result<Text, AllocError>
    ensures { IfOk result (λ name. name ≡ barred metrics.now) }
{
    let mut name = Text::new(alloc);
    if let Some((first, others)) = metrics.as_slice().split_first() {
        name.push(alloc, first.as_str())?;
        push_bars(alloc, &mut name, others)?;
    }
    Ok(name)
}

// The name of a track of a join.
fn joined_name(alloc: Global, metrics: &Texts, tags: &str) -> Result<Text, AllocError>
    ensures { IfOk result (λ name. name ≡ barred metrics.now ++ behind tags.now) }
{
    let mut name = barred_name(alloc, metrics)?;
    with_tags(alloc, &mut name, tags)?;
    Ok(name)
}

// Puts tags in, and says whether they are new.
fn enter(alloc: Global, seen: &mut IndexSet<String>, tags: &str) -> Result<bool, AllocError>
    ensures seen { OnOk result (map string_bytes seen.new.keys ≡ once (map string_bytes seen.old.keys) (Some tags.now)) }
    ensures new { IfOk result (λ new. new ≡ not (is_among tags.now (map string_bytes seen.old.keys))) }
{
    let (_, is_new) = seen.insert_full(String::from_str(alloc, tags)?)?;
    Ok(is_new)
}

impl Index {
    /// The tracks of a join of metrics.
    pub fn joined(
        &self,
        alloc: Global,
        metrics: &Texts,
        wheres: &Wheres,
    ) -> Result<Tracks, AllocError>
        ensures { IfOk result (λ tracks. tracks ≡ joined_in self.now metrics.now wheres.now) }
    {
        let mut seen = IndexSet::new(alloc);
        let mut tracks = Tracks::new(alloc);
        for name in self.texts() {
            self.join(
                alloc,
                metrics,
                wheres,
                name.as_str(),
                &mut seen,
                &mut tracks,
            )?;
        }
        Ok(tracks)
    }

    // The track of a series in a join, where it is the first of its tags.
    fn join(
        &self,
        alloc: Global,
        metrics: &Texts,
        wheres: &Wheres,
        name: &str,
        seen: &mut IndexSet<String>,
        tracks: &mut Tracks,
    ) -> Result<(), AllocError>
        ensures seen { OnOk result (map string_bytes seen.new.keys ≡ once (map string_bytes seen.old.keys) (joining metrics.now wheres.now name.now)) }
        ensures tracks { OnOk result (tracks.old ≡ map (track_of self.now metrics.now) (map string_bytes seen.old.keys) → tracks.new ≡ map (track_of self.now metrics.now) (map string_bytes seen.new.keys)) }
    {
        let tags = rest(name);
        if !has_text(metrics, metric(name)) || !admits(wheres, tags) {
            return Ok(());
        }
        let is_new = enter(alloc, seen, tags)?;
        if !is_new {
            return Ok(());
        }
        let track = self.joined_track(alloc, metrics, tags)?;
        tracks.push(alloc, track)
    }

    // The track of a join with these tags.
    fn joined_track(&self, alloc: Global, metrics: &Texts, tags: &str) -> Result<Track, AllocError>
        ensures { IfOk result (λ track. track ≡ track_of self.now metrics.now tags.now) }
    {
        let name = joined_name(alloc, metrics, tags)?;
        let members = self.members(alloc, metrics.as_slice(), tags)?;
        Ok(Track { name, members })
    }

    // Of each metric the series with these tags, or the greatest number.
    fn members(&self, alloc: Global, metrics: &[Text], tags: &str) -> Result<Ids, AllocError>
        ensures { IfOk result (λ ids. ids ≡ map (λ metric. member_of self.now (metric ++ behind tags.now)) metrics.now) }
    {
        let mut members = Ids::new(alloc);
        for m in metrics {
            let member = self.member(alloc, m, tags)?;
            members.push(alloc, member)?;
        }
        Ok(members)
    }

    // The series of a metric with these tags, or the greatest number.
    fn member(&self, alloc: Global, of: &Text, tags: &str) -> Result<u32, AllocError>
        ensures { IfOk result (λ n. n ≡ member_of self.now (of.now ++ behind tags.now)) }
    {
        let name = full_name(alloc, of, tags)?;
        Ok(self.number(&name))
    }

    // The series with a name, or the greatest number.
    fn number(&self, name: &Text) -> u32
        ensures { result ≡ member_of self.now name.now }
    {
        match self.id(name) {
            Some(number) => number,
            None => u32::MAX,
        }
    }
}
