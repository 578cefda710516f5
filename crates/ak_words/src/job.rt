//! What the words of the command line ask for.
use ak_base::{Limits, Text, Texts};
use std::alloc::AllocError;
use thiserror::Error;

/// What is to be done.
#[derive(Clone, Copy, Debug, PartialEq, Eq, Drop)]
pub enum Command {
    /// Make a store with these limits.
    Create(Limits),
    /// Serve a store.
    Run,
    /// Make a store in memory, and serve it.
    Scratch,
}

/// A command, and what it is done with.
#[derive(Drop)]
pub struct Job {
    pub command: Command,
    /// The directory of the store, and no text where the store is in memory.
    pub dir: Text,
    /// The files that are read as sessions.
    pub files: Texts,
}

/// Why there is no job.
#[derive(Clone, Copy, Debug, PartialEq, Eq, Drop, Error)]
pub enum WordsError {
    /// The words are no command.
    #[error("the words are no command")]
    Usage,
    /// There is no memory.
    #[error("no memory for the words")]
    Memory,
}

impl From<AllocError> for WordsError {
    ghost from_gives = { λ _ e. e ≡ Memory };

    ghost use Rattle.std.specs.Prelude.{◌≡◌};
    ghost use Rattle.ak_words.specs.declared.job.WordsError.TheVariants.{Memory};

    fn from(_error: AllocError) -> Self {
        WordsError::Memory
    }
}
