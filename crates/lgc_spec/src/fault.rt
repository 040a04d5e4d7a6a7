// The faults of specifications.
ghost use Rattle.std.specs.Prelude.{◌≡◌};
ghost use Rattle.lgc_spec.specs.declared.fault.SpecFault.TheVariants.{Memory};
ghost use Rattle.lgc_spec.specs.Faults.{fault_at, keeping};

use lgc_values::{List, Name};
use std::alloc::{AllocError, AllocFailed};

pub(crate) const BAD_BYTE: u8 = 1;

pub(crate) const OPEN_QUOTE: u8 = 2;

pub(crate) const UNEXPECTED: u8 = 3;

pub(crate) const DUPLICATE_STATEMENT: u8 = 4;

pub(crate) const MISSING_STATEMENT: u8 = 5;

pub(crate) const TOO_FEW_VALUES: u8 = 6;

pub(crate) const TOO_MANY_VALUES: u8 = 7;

pub(crate) const DUPLICATE_VALUE: u8 = 8;

pub(crate) const UNKNOWN_VALUE: u8 = 9;

pub(crate) const DUPLICATE_NAME: u8 = 10;

pub(crate) const ARITY_TOO_LARGE: u8 = 11;

pub(crate) const TOO_MANY_SYMBOLS: u8 = 12;

pub(crate) const ROW_WIDTH: u8 = 13;

pub(crate) const DUPLICATE_ROW: u8 = 14;

pub(crate) const MISSING_ROW: u8 = 15;

pub(crate) const TABLE_SHAPE: u8 = 16;

pub(crate) const TABLE_HEADER: u8 = 17;

pub(crate) const UNKNOWN_ORDERING: u8 = 18;

pub(crate) const CYCLE: u8 = 19;

pub(crate) const NO_BOUND: u8 = 20;

pub(crate) const UNKNOWN_OPERATOR: u8 = 21;

pub(crate) const NOT_SEMILATTICE: u8 = 22;

pub(crate) const EMPTY_DISTRIBUTION: u8 = 23;

pub(crate) const DUPLICATE_DISTRIBUTION: u8 = 24;

pub(crate) const MISSING_DISTRIBUTION: u8 = 25;

/// The number of the fault of a file that is too long.
pub const FILE_TOO_LONG: u8 = 26;

/// A law that an operator may break.
#[derive(Clone, Copy, Debug, PartialEq, Eq)]
pub enum Law {
    Idempotent,
    Commutative,
    Associative,
}

/// What a fault keeps beside its number and its place: names of values, in the order in which its line writes them.
#[derive(Debug, Drop)]
pub enum Kept {
    Nothing,
    /// The arguments of a row.
    Values(List<Name>),
    /// A law, and arguments at which it fails.
    Broken(Law, List<Name>),
    /// The members of a set.
    Set(List<Name>),
}

/// Why bytes are no specification.
#[derive(Debug, Drop)]
pub enum SpecFault {
    /// The first fault: its number, its offset in bytes from 0, and what it keeps.
    Fault { number: u8, offset: u32, kept: Kept },
    /// Memory ran out.
    Memory,
}

impl From<AllocError> for SpecFault {
    ghost from_gives = { λ _ e. e ≡ Memory };

    fn from(_e: AllocError) -> SpecFault {
        SpecFault::Memory
    }
}

impl<T: Drop> From<AllocFailed<T>> for SpecFault {
    ghost from_gives = { λ _ e. e ≡ Memory };

    fn from(_e: AllocFailed<T>) -> SpecFault {
        SpecFault::Memory
    }
}

pub(crate) fn fault_at(number: u8, offset: u32) -> SpecFault
    ensures { result ≡ fault_at number offset }
{
    SpecFault::Fault {
        number,
        offset,
        kept: Kept::Nothing,
    }
}

pub(crate) fn keeping(number: u8, offset: u32, names: List<Name>) -> SpecFault
    ensures { result ≡ keeping number offset names }
{
    SpecFault::Fault {
        number,
        offset,
        kept: Kept::Values(names),
    }
}
