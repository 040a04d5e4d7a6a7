// Why bytes have no tokens.
ghost use Rattle.std.specs.Prelude.{◌≡◌};
ghost use Rattle.lgc_lexer.specs.declared.fault.LexFault.TheVariants.{Memory};

use std::alloc::{AllocError, AllocFailed};
use thiserror::Error;

/// Why bytes have no tokens: their first fault, or want of memory. Offsets are in bytes from 0.
#[derive(Clone, Copy, Debug, PartialEq, Eq, Error)]
pub enum LexFault {
    /// The offset of the first byte that no form takes.
    ///
    /// It begins no token, blank or comment; or it stands in a Quoted that isn't closed yet, and is
    /// outside 32 to 126 or the second quote of `''`.
    #[error("bad byte at {0}")]
    BadByte(u32),
    /// The offset of the first byte of a Quoted, a Text or a comment in `/*` and `*/` that isn't
    /// closed before the end of the bytes.
    #[error("open quote at {0}")]
    OpenQuote(u32),
    /// Memory ran out.
    #[error("out of memory")]
    Memory,
}

impl From<AllocError> for LexFault {
    ghost from_gives = { λ _ e. e ≡ Memory };

    fn from(_e: AllocError) -> LexFault {
        LexFault::Memory
    }
}

impl<T: Drop> From<AllocFailed<T>> for LexFault {
    ghost from_gives = { λ _ e. e ≡ Memory };

    fn from(_e: AllocFailed<T>) -> LexFault {
        LexFault::Memory
    }
}
