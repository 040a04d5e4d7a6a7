//! Clauses over a list of atoms, and reduced sets of them.
//!
//! - A [`ClauseRow`] is a clause: one set of truth values for each atom, empty where the clause doesn't speak of the atom. It is true where some
//!   atom has a value in its set. One clause *subsumes* another where each of its sets lies in the other's; then it is true at fewer values.
//! - A [`ClauseSet`] has clauses none of which is always true, and none of which another one subsumes. What is added to it is left out where it is
//!   always true or something that is kept subsumes it, and takes the place of what it subsumes.
//!
//! [`is_full`] tells whether a set has all truth values.
//!
//! A join keeps what is subsumed, and what is always true stays so. So it doesn't matter at which step a clause is left out, and the products of
//! reduced sets are reduced to what the products of all clauses are.
//!
//! `specs/AtomClauses.antt` says what clauses are, when one subsumes another and what a join is, `specs/LeastClauses.antt` which clauses of a list
//! are left at last, and `specs/Reductions.antt` what each step keeps. Adding takes time by the number of clauses kept, most of which are told apart
//! by their marks. Signed clauses and their subsumption are treated by R. Hähnle, "Automated Deduction in Multiple-valued Logics" (1993).
#![tactic(auto)]

mod row;
mod set;

pub use row::{ClauseRow, is_full};
pub use set::ClauseSet;
