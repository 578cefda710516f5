//! Series that are grouped into tracks by the names of their tracks.
ghost use Rattle.std.specs.Prelude.{◌≡◌, ◌++◌, ◌∷◌, ◌<◌, ◌&&◌, ℕ, List, [], length, map, Option, Some, None, string_bytes, slice_index_or, bytes_eq, IfOk, OnOk, MatchOption};
ghost use Rattle.ak_names.specs.Tracks.{admits as tags_admit, metric_of, rest_of, tracked, tracks_in};
ghost use Rattle.ak_names.specs.Groups.{AreGrouped, with_member};
ghost use Rattle.ak_names.specs.declared.tracks.Track.{Track};
ghost use Rattle.std.proofs.Math.ListN.{set};

use crate::asked::{admits, metric, rest};
use crate::index::Index;
use crate::naming::track_name;
use crate::tracks::{Track, Tracks};
use crate::wheres::Wheres;
use ak_base::{Ids, Text, Texts};
use indexmap::IndexSet;
use std::alloc::{AllocError, Global};

// Tracks, and the set of their names, each at the place of its track.
#[derive(Drop)]
struct Groups {
    names: IndexSet<String>,
    tracks: Vec<Track>,
}

// Whether a series has this metric, and its tags are those that are asked for.
fn is_selected(of: &Text, wheres: &Wheres, name: &str) -> bool
    ensures { result ≡ (bytes_eq (metric_of name.now) of.now && tags_admit wheres.now (rest_of name.now)) }
{
    metric(name) == of.as_str() && admits(wheres, rest(name))
}

// A track with one series.
fn track_of_one(alloc: Global, name: &str, series: u32) -> Result<Track, AllocError>
    ensures { IfOk result (λ track. (track.name ≡ name.now) × (track.members ≡ series ∷ [])) }
{
    let mut text = Text::new(alloc);
    text.push(alloc, name)?;
    let mut members = Ids::new(alloc);
    members.push(alloc, series)?;
    Ok(Track {
        name: text,
        members,
    })
}

// A series more in the track at a place.
fn push_member(
    alloc: Global,
    tracks: &mut Vec<Track>,
    at: usize,
    series: u32,
) -> Result<(), AllocError>
    ensures { (d : Track) → at < length tracks.old.items → OnOk result (tracks.new.items ≡ set tracks.old.items at (with_member series (slice_index_or tracks.old.items at d))) }
{
    match tracks.get_mut(at) {
        Some(track) => track.members.push(alloc, series),
        None => Ok(()),
    }
}

impl Groups {
    // A series more, under the name of its track.
    fn add(&mut self, alloc: Global, name: String, series: u32) -> Result<(), AllocError>
        ensures { (named : List (Option (List ℕ))) → AreGrouped named (map string_bytes self.old.names.keys) self.old.tracks.items
            → series ≡ length named → OnOk result (AreGrouped (named ++ Some (string_bytes name) ∷ []) (map string_bytes self.new.names.keys) self.new.tracks.items) }
    {
        if let Some(at) = self.names.get_index_of(name.as_str()) {
            return push_member(alloc, &mut self.tracks, at, series);
        }
        self.tracks
            .push(track_of_one(alloc, name.as_str(), series)?)?;
        self.names.insert(name)?;
        Ok(())
    }

    // A series more, where it is selected.
    fn take(
        &mut self,
        alloc: Global,
        of: &Text,
        wheres: &Wheres,
        tags: Option<&Texts>,
        name: &str,
        series: u32,
    ) -> Result<(), AllocError>
        ensures { (keys : Option (List (List ℕ))) → MatchOption tags.entry (keys ≡ None) (λ t. keys ≡ Some t.now)
            → (named : List (Option (List ℕ))) → AreGrouped named (map string_bytes self.old.names.keys) self.old.tracks.items → series ≡ length named
            → OnOk result (AreGrouped (named ++ tracked of.now wheres.now keys name.now ∷ []) (map string_bytes self.new.names.keys) self.new.tracks.items) }
    {
        if !is_selected(of, wheres, name) {
            return Ok(());
        }
        let track = track_name(alloc, name, tags)?;
        self.add(alloc, track, series)
    }

    // The tracks.
    fn into_tracks(self, alloc: Global) -> Result<Tracks, AllocError>
        ensures { IfOk result (λ tracks. tracks ≡ self.tracks.items) }
    {
        let mut tracks = Tracks::new(alloc);
        for track in self.tracks {
            tracks.push(alloc, track)?;
        }
        Ok(tracks)
    }
}

impl Index {
    /// The tracks of a metric.
    pub fn tracks(
        &self,
        alloc: Global,
        of: &Text,
        wheres: &Wheres,
        tags: Option<&Texts>,
    ) -> Result<Tracks, AllocError>
        ensures { (keys : Option (List (List ℕ))) → MatchOption tags.entry (keys ≡ None) (λ t. keys ≡ Some t.now)
            → IfOk result (λ tracks. tracks ≡ tracks_in self.now of.now wheres.now keys) }
    {
        let mut groups = Groups {
            names: IndexSet::new(alloc),
            tracks: Vec::new(alloc),
        };
        for (n, name) in self.texts().iter().enumerate() {
            groups.take(alloc, of, wheres, tags, name.as_str(), n as u32)?;
        }
        groups.into_tracks(alloc)
    }
}
