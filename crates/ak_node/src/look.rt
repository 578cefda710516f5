//! Looks at points before they are accepted.
ghost use Rattle.std.specs.Prelude.{ℕ, ◌≡◌, ◌+◌, ◌-◌, ◌^◌, ◌<◌, ◌⊎◌, ◌||◌, min, length, get_or, Some, None, if◌then◌else◌};
ghost use Rattle.std.specs.List.{list_any};
ghost use Rattle.std.specs.Str.{bytes_eq};
ghost use Rattle.ak_meta.specs.Contents.{names_of, size_of};
ghost use Rattle.ak_node.specs.Names.{place_in, last_in_place, late_known, with_all, ArePlaces};
ghost use Rattle.ak_world.specs.Puts.{late_behind, first_of};

use ak_base::Text;
use ak_names::Index;
use ak_tree::Forest;

/// How many bytes a series takes in the record beside its name.
const SERIES_SIZE: u64 = 106;

/// How many places of a message's names are kept.
const KEPT_PLACES: usize = 32;

/// The last timestamp, where this one is before it.
fn behind(last: Option<u64>, time: u64) -> Option<u64>
    ensures { result ≡ late_behind last time }
{
    match last {
        Some(last) => { if time < last { Some(last) } else { None } }
        None => None,
    }
}

/// The last timestamp of the series in this place, where this one is before it.
fn late_at(forest: &Forest, place: Option<u32>, time: u64) -> Option<u64>
    requires { (n : ℕ) → place ≡ Some n → n < length forest.now.meta.series }
    ensures { result ≡ late_behind (last_in_place forest.now place) time }
{
    match place {
        Some(place) => behind(forest.last(place), time),
        None => None,
    }
}

/// The first where there is one, and the other elsewhere.
fn first_late(late: Option<u64>, next: Option<u64>) -> Option<u64>
    ensures { result ≡ first_of late next }
{
    match late {
        Some(last) => Some(last),
        None => next,
    }
}

/// Whether the name is one of these.
fn is_among(names: &[Text], name: &Text) -> bool
    ensures { result ≡ list_any (λ n. bytes_eq n name.now) names.now }
{
    let text = name.as_str();
    names.iter().any(|other| other.as_str() == text)
}

/// How many bytes more the record takes with a name: none where it is known or came before.
fn size_with(known: bool, before: &[Text], name: &Text) -> u64
    ensures { result ≡ (if (known || list_any (λ n. bytes_eq n name.now) before.now) then 0 else 106 + length name.now) }
{
    if known || is_among(before, name) {
        return 0;
    }
    SERIES_SIZE + name.as_str().len() as u64
}

/// What a look at points of one time finds: the bytes of a slot that the record takes with their names, or the greatest number
/// where they are more, the last timestamp of the first name that is late, and the places of the first names.
pub struct Look {
    pub need: u64,
    pub late: Option<u64>,
    pub places: [Option<u32>; KEPT_PLACES],
}

/// Keeps the place of the name that stands here in its message, where there is room for it.
fn keep_place(places: &mut [Option<u32>], at: usize, place: Option<u32>)
    ensures { (i found : ℕ) → get_or places.new i None ≡ Some found → ((i ≡ at) × (place ≡ Some found)) ⊎ (get_or places.old i None ≡ Some found) }
{
    if at < places.len() {
        places[at] = place;
    }
}

/// Looks at points of one time, one for each name.
pub fn look_at(forest: &Forest, index: &Index, names: &[Text], time: u64) -> Look
    requires { index.now ≡ names_of forest.now.meta.series }
    ensures late { result.late ≡ late_known forest.now index.now names.now time }
    ensures need { result.need ≡ min (16 + size_of (with_all forest.now.meta names.now)) (2 ^ 64 - 1) }
    ensures places { ArePlaces result.places names.now index.now }
{
    let mut need = forest.need(0);
    let mut late = None;
    let mut places = [None; KEPT_PLACES];
    for (at, name) in names.iter().enumerate() {
        let place = index.id(name);
        keep_place(&mut places, at, place);
        late = first_late(late, late_at(forest, place, time));
        need = need.saturating_add(size_with(place.is_some(), &names[..at], name));
    }
    Look { need, late, places }
}

/// The place of a name that stands in this place of its message, whose places were kept before names were added.
pub fn place_of(places: &[Option<u32>], at: usize, index: &Index, name: &Text) -> Option<u32>
    requires { (place : ℕ) → get_or places.now at None ≡ Some place → Some place ≡ place_in index.now name.now }
    ensures { result ≡ place_in index.now name.now }
{
    match places.get(at) {
        Some(Some(place)) => Some(*place),
        _ => index.id(name),
    }
}
