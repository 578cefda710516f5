//! Spellings of numbers, fields of fixed width, and the head of a block.
#![tactic(auto)]

mod difference;
mod fields;
mod head;
#[cfg(test)]
mod tests;
mod uvar;

pub use difference::{one_difference, unzigzag, zigzag, zigzag_i64};
pub use fields::{
    get_i64, get_i128, get_u8, get_u16, get_u32, get_u64, put_i64, put_i128, put_u8, put_u16,
    put_u32, put_u64,
};
pub use head::{Head, clear, get_head, is_zero, one_head, put_head};
pub use uvar::{
    get_uvar, no_spelling_begins_another, put_uvar, spellings_are_the_grammar, uvar_length,
};
