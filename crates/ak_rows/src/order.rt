//! Tracks in order of the times of their next rows.
ghost use Rattle.std.specs.Prelude.{◌≡◌, length};
ghost use Rattle.ak_rows.specs.Orders.{sooner_of, sooner_with, IsFirstTrack};

/// A track, and the time of its next row.
#[derive(Clone, Copy, Debug, PartialEq, Eq, Drop)]
pub struct First {
    /// The place of the track.
    pub at: usize,
    /// The time.
    pub time: u64,
}

// Of what came next so far and one more time, that which comes next.
fn sooner(best: Option<First>, at: usize, time: u64, back: bool) -> Option<First>
    ensures { result ≡ sooner_of back best at time }
{
    let new = First { at, time };
    match best {
        None => Some(new),
        Some(b) => {
            if back {
                if b.time <= time { Some(new) } else { Some(b) }
            } else {
                if time < b.time { Some(new) } else { Some(b) }
            }
        }
    }
}

// The same where the track may have no row.
fn sooner_time(best: Option<First>, at: usize, time: Option<u64>, back: bool) -> Option<First>
    ensures { result ≡ sooner_with back best at time }
{
    match time {
        Some(t) => sooner(best, at, t, back),
        None => best,
    }
}

/// The track whose row comes next: the first with the least time, or for a backward range the last with the greatest.
pub fn first_track(times: &[Option<u64>], back: bool) -> Option<First>
    ensures { IsFirstTrack back times.now (length times.now) result }
{
    let mut best = None;
    for i in 0..times.len() {
        best = sooner_time(best, i, times[i], back);
    }
    best
}
