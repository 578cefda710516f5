//! The rows of series.
ghost use Rattle.std.specs.Prelude.{◌≡◌, ◌≤◌, ◌++◌, ◌==◌, position, OnOk};
ghost use Rattle.std.specs.List.{flat_map};
ghost use Rattle.std.specs.Str.{bytes_eq};
ghost use Rattle.ak_run.specs.Replies.{metric_of, row_text};

use crate::replies::{is_quoted, write_row};
use ak_base::{Bytes, Point};
use std::alloc::{AllocError, Global};

// The place of the first space.
fn space_in(name: &[u8]) -> Option<usize>
    ensures { result ≡ position (λ b. b == 32) name.now }
{
    name.iter().position(|b| *b == b' ')
}

// The bytes before the first space.
fn before_space(name: &[u8]) -> &[u8]
    ensures { result.now ≡ metric_of name.now }
{
    match space_in(name) {
        Some(space) => &name[..space],
        None => name,
    }
}

/// Whether a name is of the metric.
pub fn is_of(name: &[u8], metric: &[u8]) -> bool
    ensures { result ≡ bytes_eq (metric_of name.now) metric.now }
{
    before_space(name) == metric
}

/// Appends a row for each point of a series of this name, with values of this scale.
pub fn write_rows(
    alloc: Global,
    scale: u32,
    name: &[u8],
    points: &[Point],
    text: &mut Bytes,
) -> Result<(), AllocError>
    requires { scale ≤ 9 }
    ensures { OnOk result (text.new ≡ text.old ++ flat_map (row_text scale name.now) points.now) }
{
    let quoted = is_quoted(name);
    for point in points {
        write_row(alloc, scale, name, quoted, *point, text)?;
    }
    Ok(())
}
