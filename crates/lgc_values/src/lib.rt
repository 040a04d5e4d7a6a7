//! Finite-valued logics as data: names, lists, sets of truth values, and matrices.
//!
//! - [`List`] is a list, seen by contracts as its items; [`Name`] is a name, seen as its bytes.
//! - [`ValueSet`] is a set of truth values below `N`, kept as a mask and seen as the rising list of
//!   its members.
//! - [`Matrix`] is a logic with `N` truth values: their names, the designated ones, and the tables
//!   of its operators and quantifiers. Each matrix meets `IsLogic` of `specs/Logic.antt`.
//! - [`argument_at`] tells the arguments of a row, which is given by its index.
//!
//! Every call's contract gives its result exactly, and none but `push` and `of_bytes` takes memory.
#![tactic(auto)]

mod list;
mod matrix;
mod name;
mod rows;
mod value_set;

pub use list::List;
pub use matrix::{Matrix, Operator, Quantifier};
pub use name::Name;
pub use rows::argument_at;
pub use value_set::ValueSet;

/// The greatest number of truth values of a logic.
pub const MOST_VALUES: usize = 12;

/// The greatest number of arguments of an operator.
pub const MOST_ARGUMENTS: u8 = 4;

/// The greatest number of rows of an operator's table.
pub const MOST_ROWS: usize = 4096;

/// The greatest number of operators and quantifiers of a matrix together.
pub const MOST_SYMBOLS: usize = 4096;

/// The single quote, which stands around names and in none.
pub const QUOTE: u8 = b'\'';
