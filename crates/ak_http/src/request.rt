//! What a client asks.
use ak_base::Bytes;
use std::alloc::AllocError;
use thiserror::Error;

/// A request, as it stands in the stream.
#[derive(Drop)]
pub struct Request {
    /// The word before the target, such as `POST`.
    pub method: Bytes,
    /// The target, such as `/api/query`. It is text in UTF-8.
    pub target: Bytes,
    /// At most 65,536 bytes.
    pub body: Bytes,
}

/// Why no request was read. After the first two no further request of the stream is read.
#[derive(Clone, Copy, Debug, PartialEq, Eq, Drop, Error)]
pub enum HttpError {
    /// The head is none of a request with at most 32 header lines, or doesn't end within 8192 bytes.
    #[error("bad head")]
    BadHead,
    /// The head has a transfer encoding, or a length that is bad, is over 65,536, or differs from another.
    #[error("bad length")]
    BadLength,
    /// There is no memory. The reader is given up.
    #[error("out of memory")]
    Memory,
}

impl From<AllocError> for HttpError {
    ghost from_gives = { λ _ e. e ≡ Memory };

    ghost use Rattle.std.specs.Prelude.{◌≡◌};
    ghost use Rattle.ak_http.specs.declared.request.HttpError.TheVariants.{Memory};

    fn from(_error: AllocError) -> Self {
        HttpError::Memory
    }
}
