// The faults of input texts, and their numbers.
ghost use Rattle.std.specs.Prelude.{◌≡◌};
ghost use Rattle.lgc_syntax.specs.declared.fault.InputFault.TheVariants.{Memory};

use std::alloc::{AllocError, AllocFailed};
use thiserror::Error;

/// The text is longer than its limit: at the limit.
pub const FILE_TOO_LONG: u8 = 1;

/// No token, blank or comment takes a byte: at that byte.
pub const BAD_BYTE: u8 = 2;

/// A Quoted, a Text or a comment isn't closed: at its first byte.
pub const OPEN_QUOTE: u8 = 3;

/// No text of the grammar goes on with a token: at that token, or at the end of the bytes where that comes too early.
pub const UNEXPECTED: u8 = 4;

/// A name is that of no operator and of no quantifier: at the name.
pub const UNKNOWN_NAME: u8 = 5;

/// The number of arguments isn't the operator's: at the token that shows it.
pub const WRONG_ARITY: u8 = 6;

/// A free variable's name is `B` and digits, as bound variables are written: at the variable.
pub const RESERVED_NAME: u8 = 7;

/// A node of a formula or of a term stands at depth 101: at its first token.
pub const TOO_DEEP: u8 = 8;

/// A query, or elsewhere a formula or a term, has more than 1,000 nodes: at the first token of the node beyond the 1,000th. Where formulas are numbered,
/// also a name of more than 64 bytes: at the name.
pub const TOO_LARGE: u8 = 9;

/// A value is no truth value of the logic: at the value.
pub const UNKNOWN_VALUE: u8 = 10;

/// The number of an argument is 0 or greater than the arity, or it doesn't rise over that of the literal before: at the number.
pub const BAD_ARGUMENT: u8 = 11;

/// The number of the k-th rule, counted from 1, isn't k: at the number.
pub const MISNUMBERED: u8 = 12;

/// A quantifier stands where only propositional formulas are read, which have none: at the quantifier's name.
pub const NOT_PROPOSITIONAL: u8 = 13;

/// A query has more than 4,096 goals: at the token behind it.
pub const TOO_MANY_GOALS: u8 = 14;

/// The number behind a `#` stands for no formula: at the number.
pub const UNKNOWN_NUMBER: u8 = 15;

/// Why a text isn't read.
#[derive(Clone, Copy, Debug, PartialEq, Eq, Error)]
pub enum InputFault {
    /// The first fault: its number, which is one of the constants, and its offset in bytes from 0.
    #[error("input fault {number} at {offset}")]
    Fault { number: u8, offset: u32 },
    /// Memory ran out.
    #[error("out of memory")]
    Memory,
}

impl From<AllocError> for InputFault {
    ghost from_gives = { λ _ e. e ≡ Memory };

    fn from(_e: AllocError) -> InputFault {
        InputFault::Memory
    }
}

impl<T: Drop> From<AllocFailed<T>> for InputFault {
    ghost from_gives = { λ _ e. e ≡ Memory };

    fn from(_e: AllocFailed<T>) -> InputFault {
        InputFault::Memory
    }
}
