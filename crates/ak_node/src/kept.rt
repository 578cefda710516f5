//! Texts of names that were read, kept with the numbers of their series.
ghost use Rattle.std.specs.Prelude.{◌≡◌, IfSome};
ghost use Rattle.ak_names.specs.Known.{AreNumbers, names_at};

use crate::keeper::Keeper;
use ak_base::Text;
use ak_names::{Index, read_names};
use ak_resp::Message;
use std::alloc::Global;

/// The numbers of names, in order, where all are known and there is memory.
fn numbers_of(alloc: Global, index: &Index, names: &[Text]) -> Option<Vec<u32>>
    ensures known { IfSome result (λ numbers. AreNumbers index.now numbers.items) }
    ensures names { IfSome result (λ numbers. names_at index.now numbers.items ≡ names.now) }
{
    let mut numbers = Vec::new(alloc);
    for name in names {
        let number = index.id(name)?;
        if numbers.push(number).is_err() {
            return None;
        }
    }
    Some(numbers)
}

/// Keeps a text that names known series with their numbers.
fn keep_text(alloc: Global, index: &mut Index, text: &[u8])
    ensures { index.new ≡ index.old }
{
    if index.id_of(text).is_some() || index.known(text).is_some() {
        return;
    }
    let Ok(names) = read_names(alloc, text) else {
        return;
    };
    if let Some(numbers) = numbers_of(alloc, index, names.as_slice()) {
        index.keep(alloc, text, numbers.as_slice());
    }
}

/// Keeps the text of a put that was read, so that the same text needn't be read again. It may do nothing.
pub fn keep_put(alloc: Global, keeper: &mut Keeper, message: &Message)
    ensures { keeper.new ≡ keeper.old }
{
    if let Message::Put { name, .. } = message {
        keep_text(alloc, &mut keeper.names, name.bytes.as_slice());
    }
}
