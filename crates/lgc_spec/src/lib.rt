//! The logic of a specification's bytes, or the first reason why there is none.
//!
//! - [`read_spec`] answers the logic of the bytes ([`Spec`]), or their first fault ([`SpecFault`]).
//! - [`matrix_of`] is the matrix of this logic, whose number of truth values is known when it is called.
//!
//! `specs/Specification.antt` says what the bytes give, by steps in the order of refusals. Each step has a definition of
//! its own, which says its first fault or what it gives of the logic, and one private function.
//!
//! A quantifier has a value for each nonempty set of truth values. It is written row by row, or it is the bound of the set in
//! an ordering, or the fold of an operator over the set. Such an operator is idempotent, commutative and associative, and
//! `proofs/SemilatticeLaws.antt` proves that the order of the values then doesn't matter.
#![tactic(auto)]

mod bounds;
mod distribution;
mod fault;
mod induced;
mod mapping;
mod matrix;
mod operators;
mod orderings;
mod quantifiers;
mod reading;
mod sets;
mod spec;
mod statements;
mod table;
mod texts;
mod values;
mod words;

pub use fault::{FILE_TOO_LONG, Kept, Law, SpecFault};
pub use matrix::matrix_of;
pub use reading::{LONGEST_FILE, read_spec};
pub use spec::Spec;
