// Why tokens have no tree.
use thiserror::Error;

/// Why tokens have no tree: the first one that can't stand where it does, or want of memory.
#[derive(Clone, Copy, Debug, PartialEq, Eq, Error)]
pub enum SyntaxFault {
    /// The offset of the first token behind which no text of the grammar goes on, or that of the end where the text
    /// stops too early.
    #[error("unexpected at {0}")]
    Unexpected(u32),
    /// Memory ran out.
    #[error("out of memory")]
    Memory,
}
