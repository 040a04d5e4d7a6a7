//! Clauses and rules of operators and of quantifiers: where they hold, whether a rule is exact, and whether it is irredundant.
//!
//! - A [`Clause`] has a set of truth values for each argument of an operator. It is true at a row of
//!   arguments where some argument lies in its set: [`clause_true_at`].
//! - A [`QClause`] of a quantifier has `all` sets and a `some` set. It is true at a nonempty set of truth
//!   values, those of the quantified formula's instances, where some value lies in the `some` set or all
//!   of them in one of the `all` sets: [`qclause_true_at`].
//! - An [`OpRule`] or a [`QRule`] is a list of clauses for an operator or a quantifier and a sign, which is
//!   a set of truth values. Read as an introduction rule it has one premise for each clause. A [`Rule`] is
//!   a rule of any kind, and a [`Numbered`] one with a number before it.
//! - [`rule_exact`] tells whether a rule is exact: at every row, and for a quantifier at every nonempty set,
//!   the value lies in the sign exactly when every clause is true. Else it gives the least row at which
//!   that fails.
//! - [`rule_irredundant`] tells whether a rule is irredundant: it isn't exact without any one of its
//!   clauses, nor without any one value of any one set. Else it gives the first [`Droppable`] [`Part`].
//!
//! No call takes memory. `specs/Rules.antt` has the definitions of clauses and rules, `specs/Exactness.antt`
//! those of exactness, and `specs/Irredundance.antt` those of irredundance. The mathematics is that of
//! M. Baaz, C. G. Fermüller and R. Zach, "Elimination of cuts in first-order finite-valued logics"
//! (1993), and of G. Salzer, "Optimal axiomatizations of finitely valued logics" (2000).
#![tactic(auto)]

mod clause;
mod exactness;
mod irredundance;
mod rule;
mod table;

pub use clause::{Clause, QClause, clause_true_at, qclause_true_at};
pub use exactness::rule_exact;
pub use irredundance::{Droppable, Part, rule_irredundant};
pub use rule::{Numbered, OpRule, QRule, Rule};
