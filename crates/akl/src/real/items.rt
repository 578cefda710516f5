//! Lists with a place for each file.
ghost use Rattle.std.specs.Prelude.{◌≡◌, ◌<◌, ◌-◌, ◌^◌, length, OnOk, OnErr};
ghost use Rattle.ak_host.specs.Files.{with_item};

use std::alloc::AllocError;

/// Puts an item in its place, or at the end where that place is past the end. After an `Err` the list is as it was.
pub fn put_item<T: Drop>(items: &mut Vec<T>, at: u32, item: T) -> Result<(), AllocError>
    ensures ok { OnOk result (items.new.items ≡ with_item items.old.items at item) }
    ensures err { OnErr result (items.new.items ≡ items.old.items) }
    ensures few { at < 2 ^ 32 - 1 → length items.old.items < 2 ^ 32 → length items.new.items < 2 ^ 32 }
{
    if (at as usize) < items.len() {
        items[at as usize] = item;
    } else {
        items.push(item)?;
    }
    Ok(())
}
