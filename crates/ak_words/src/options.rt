//! Reads the options of `create`.
ghost use Rattle.std.specs.Prelude.{◌≡◌, ◌↔◌, ◌%◌, ◌+◌, ◌<◌, ℕ, [], ◌∷◌, map, drop, length, slice_index_or, string_bytes, IsTrue, MatchOption};
ghost use Rattle.std.specs.List.{AllByRecursion};
ghost use Rattle.ak_base.specs.declared.limits.Limits.{Limits};
ghost use Rattle.ak_words.specs.Words.{Pair, behind, IsName, IsLimit, AreOptions};
ghost use Rattle.ak_words.specs.Pairs.{pairs_of, Finds};

use crate::number::read_number;
use ak_base::Limits;

/// Whether an option has this name.
fn is_name(word: &str) -> bool
    ensures { IsTrue result ↔ IsName word.now }
{
    matches!(
        word,
        "--volumes" | "--blocks" | "--slot" | "--pool" | "--every" | "--scale"
    )
}

/// Whether each pair has the name of an option.
fn are_named(words: &[String]) -> bool
    requires { length words.now % 2 ≡ 0 }
    ensures { IsTrue result ↔ AllByRecursion (λ p. IsName p.name) (pairs_of (map string_bytes words.now)) }
{
    let mut at = 0;
    while at < words.len() {
        if !is_name(words[at].as_str()) {
            return false;
        }
        at += 2;
    }
    true
}

/// Where this name stands first.
fn find(words: &[String], name: &str) -> Option<usize>
    requires { length words.now % 2 ≡ 0 }
    ensures { MatchOption result (behind name.now (pairs_of (map string_bytes words.now)) ≡ [])
        (λ at. Finds name.now (map string_bytes words.now) at) }
{
    let mut at = 0;
    while at < words.len() {
        if words[at].as_str() == name {
            return Some(at);
        }
        at += 2;
    }
    None
}

/// The limit of this name: the number behind it, or the default where the name doesn't stand. `None` where it stands
/// twice, or where no number in the range is behind it.
fn read_limit(words: &[String], name: &str, least: u32, most: u32, default: u32) -> Option<u32>
    requires { length words.now % 2 ≡ 0 }
    ensures { MatchOption result
        ((n : ℕ) → IsLimit name.now least most default (pairs_of (map string_bytes words.now)) n → ⊥)
        (λ n. IsLimit name.now least most default (pairs_of (map string_bytes words.now)) n) }
{
    let Some(at) = find(words, name) else {
        return Some(default);
    };
    if find(&words[at + 2..], name).is_some() {
        return None;
    }
    let number = read_number(words[at + 1].as_str())?;
    if number < u64::from(least) || u64::from(most) < number {
        return None;
    }
    Some(number as u32)
}

/// The limits that the options give. `None` where the words are no options.
pub fn read_limits(words: &[String]) -> Option<Limits>
    ensures { MatchOption result
        ((limits : Limits) → AreOptions (map string_bytes words.now) limits → ⊥)
        (λ limits. AreOptions (map string_bytes words.now) limits) }
{
    if words.len() % 2 != 0 || !are_named(words) {
        return None;
    }
    let default = Limits::DEFAULT;
    let volumes = read_limit(words, "--volumes", 2, 64, default.volumes)?;
    let blocks = read_limit(words, "--blocks", 16, 1_048_576, default.blocks)?;
    let slot = read_limit(words, "--slot", 1, 4096, default.slot)?;
    let pool = read_limit(words, "--pool", 1, 4096, default.pool)?;
    let every = read_limit(words, "--every", 1, 65_536, default.every)?;
    let scale = read_limit(words, "--scale", 0, 9, default.scale)?;
    Some(Limits {
        volumes,
        blocks,
        slot,
        pool,
        every,
        scale,
    })
}
