//! Exact and irredundant rules of operators, derived from their tables.
//!
//! [`operator_rule`] answers the rule for an operator of a matrix at a sign, which is a set of truth
//! values. At every row of arguments the operator's value lies in the sign exactly where all clauses of
//! the rule are true. Without any one clause, or any one value of any one set, that isn't so. The clauses
//! rise by the lists of their masks. The call fails only for want of memory.
//!
//! This crate has only what is peculiar to operators: their tables, the truth of a clause at a row, and
//! the clause that is false at one row alone, from which a prime clause is made. The derivation itself
//! is that of `lgc_derivation`, whose files say how it goes and what it costs.
//!
//! Such rules are due to G. Salzer, "Optimal axiomatizations of finitely valued logics", Information and
//! Computation 162 (2000), 185-205, and to M. Baaz, C. G. Fermüller, G. Salzer and R. Zach, "MUltlog 1.0:
//! towards an expert system for many-valued logics", CADE-13 (1996). Those with the fewest clauses aren't
//! promised here.
#![tactic(auto)]

mod rule;
mod table;

pub use rule::operator_rule;
