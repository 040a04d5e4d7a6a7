//! Sequents over numbers of formulas.
//!
//! - [`Packed`] is a sequent whose formulas are numbers, which rise. Its sets of values have members, so sequents that include each
//!   other are equal as lists.
//! - [`without_pair`] leaves a pair out, and [`with_clause`] and [`keep_besides`] join clauses at arguments and what a sequent has
//!   besides one.
//! - [`pack`] makes one of a sequent, by the numbers of its formulas, and [`unpack`] the sequent of one.
//! - [`included_in`] compares two sequents, [`sign_of`] tells the sign of a formula, and [`full_at`] looks for one that carries all truth
//!   values.
#![tactic(auto)]

mod clauses;
mod inclusion;
mod packed;
mod packing;

pub use clauses::{keep_besides, with_clause};
pub use inclusion::{full_at, included_in, sign_of};
pub use packed::{Packed, without_pair};
pub use packing::{pack, unpack};
