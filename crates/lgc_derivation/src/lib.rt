//! The derivation of exact and irredundant clauses from a table of rows.
//!
//! A rule for an operator or a quantifier at a sign is a conjunctive normal form: at every row of the
//! table all its clauses are true exactly where the table's value lies in the sign. This crate derives
//! such clauses once for all kinds of rules. A clause is a list of sets of truth values.
//!
//! - [`Table`] is what is asked of a table: its rows, which of them are inside the target, and where a
//!   clause is true. [`PrimeClauses`] adds a prime clause for each row outside the target. A clause is
//!   prime if it is true at all rows of the target, and isn't without any one value of any one set.
//! - [`shrink`] makes a clause prime that is true at all rows of the target.
//! - [`derive_clauses`] answers the clauses. They are exact and irredundant: without any one clause, or
//!   any one value of any one set, they aren't exact. They rise by the lists of their masks.
//!
//! `specs/Tables.antt` says what exact and irredundant mean over a table, `specs/Derived.antt` the rest.
//! Calls fail only for want of memory. The order of steps is this, and its reasons stand in the files:
//! make each clause prime first (`shrinking.rt`), sort while collecting (`rising.rt`, `derive.rt`), and
//! take out clauses that the others cover at the end (`covering.rt`).
//!
//! On rules as normal forms see G. Salzer, "Optimal axiomatizations of finitely valued logics",
//! Information and Computation 162 (2000), 185-205, and M. Baaz, C. G. Fermüller, G. Salzer and R. Zach,
//! "MUltlog 1.0: towards an expert system for many-valued logics", CADE-13 (1996). Prime clauses and
//! irredundant forms go back to W. V. Quine, "The problem of simplifying truth functions" (1952). An
//! irredundant form need not be one with the fewest clauses.
#![tactic(auto)]

mod covering;
mod derive;
mod rising;
mod shrinking;
mod table;

pub use derive::derive_clauses;
pub use shrinking::shrink;
pub use table::{PrimeClauses, Table};
