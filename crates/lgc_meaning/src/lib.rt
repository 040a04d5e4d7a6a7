//! Queries about a finite-valued logic, and what formulas and queries without quantifiers mean under a valuation.
//!
//! - [`Valuation`] lists truth values of atoms. An atom that isn't listed takes the value 0.
//! - [`value_of`] is the truth value of a formula under a valuation.
//! - [`Query`] is a mixed entailment, an equation or a quasi-equation, and a [`Pair`] has the sides of an equation. [`satisfies`] tells
//!   whether a valuation satisfies a query.
//! - [`atoms_of`] lists the atoms of a query.
//!
//! Every call's contract gives its result exactly. `specs/Queries.antt` says when a query is satisfied where formulas have some values:
//! those under a valuation, or those in a structure under an assignment. None but `set` and `atoms_of` takes memory. A call on formulas
//! goes as deep as they are.
#![tactic(auto)]

mod atoms;
mod query;
mod satisfaction;
mod valuation;
mod value;

pub use atoms::atoms_of;
pub use query::{Pair, Query};
pub use satisfaction::satisfies;
pub use valuation::Valuation;
pub use value::value_of;
