//! The values of puts.
ghost use Rattle.std.specs.Prelude.{◌≤◌, map, IfOk};
ghost use Rattle.ak_run.specs.Asking.{ValuesGive};

use crate::asked::Values;
use ak_base::{Refusal, read_value};
use ak_resp::Part;
use std::alloc::{AllocError, Global};

/// The values that the texts give in units of 10^-scale, or why they give none: `BadValue` where one has no value, and
/// otherwise `ValueRange` where one has no 64 bits.
pub fn read_values(
    alloc: Global,
    texts: &[Part],
    scale: u32,
) -> Result<Result<Values, Refusal>, AllocError>
    requires { scale ≤ 9 }
    ensures { IfOk result (λ values. ValuesGive scale (map (λ v. v.bytes) texts.now) values) }
{
    let mut values = Values::new(alloc);
    let mut in_range = true;
    for text in texts {
        match read_value(text.bytes.as_slice(), scale) {
            Ok(value) => values.push(alloc, value)?,
            Err(refusal) => match refusal {
                Refusal::ValueRange => in_range = false,
                _ => return Ok(Err(refusal)),
            },
        }
    }
    if in_range {
        Ok(Ok(values))
    } else {
        Ok(Err(Refusal::ValueRange))
    }
}
