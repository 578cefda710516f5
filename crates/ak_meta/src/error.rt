//! Why there is no metadata.
use std::alloc::AllocError;
use thiserror::Error;

/// Why there is no metadata.
#[derive(Clone, Copy, Debug, PartialEq, Eq, Drop, Error)]
pub enum MetaError {
    /// There is no memory.
    #[error("no memory for the metadata")]
    Memory,
    /// The bytes are no metadata.
    #[error("the bytes are no metadata")]
    Bad,
}

impl From<AllocError> for MetaError {
    ghost from_gives = { λ _ e. e ≡ Memory };

    ghost use Rattle.std.specs.Prelude.{◌≡◌};
    ghost use Rattle.ak_meta.specs.declared.error.MetaError.TheVariants.{Memory};

    fn from(_error: AllocError) -> Self {
        MetaError::Memory
    }
}
