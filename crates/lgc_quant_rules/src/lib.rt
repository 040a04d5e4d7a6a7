//! Exact and irredundant rules of quantifiers, derived from their tables.
//!
//! [`quantifier_rule`] answers the rule for a quantifier of a matrix at a sign, which is a set of truth
//! values. At every nonempty set of truth values the quantifier's value lies in the sign exactly where all
//! clauses of the rule are true. Without any one clause, or any one value of any one set, that isn't so. The
//! clauses rise by the lists of their masks, of which that of the `some` set is the first, and so do the
//! masks of the `all` sets of each clause. The call fails only for want of memory.
//!
//! This crate has only what is peculiar to quantifiers: their tables, the truth of a clause at a set, and the
//! clause that is false at one set alone, from which a prime clause is made. The derivation itself is that of
//! `lgc_derivation`, whose files say how it goes and what it costs.
//!
//! Two `all` sets of a clause can't be joined: a set of values may lie in their union and in neither of them.
//! An `all` set that lies in another one needs no step of its own, since each of its values can be taken away.
//!
//! Such rules are due to M. Baaz, C. G. Fermüller, G. Salzer and R. Zach, "MUltlog 1.0: towards an expert
//! system for many-valued logics", CADE-13 (1996), and to G. Salzer, "Optimal axiomatizations of finitely
//! valued logics", Information and Computation 162 (2000), 185-205. Those with the fewest clauses aren't
//! promised here.
#![tactic(auto)]

mod order;
mod rule;
mod start;
mod table;

pub use rule::quantifier_rule;
