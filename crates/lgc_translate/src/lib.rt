//! Signed clauses of formulas without quantifiers, by the rules of a book.
//!
//! [`to_clauses`] makes clauses of a formula at a sign: lists of signed atoms, each an [`AtomClause`], which are all true under a valuation exactly
//! where the formula's value lies in the sign. They are those to which the rules lead: the formula is replaced by the clauses of the rule of its
//! operator at this sign, its arguments by theirs, and so on down to the atoms. What is always true or subsumed by another clause is left out.
//!
//! The rules that are asked for are derived first, in a walk of its own, and the clauses are made by a book that stays as it is. They are reduced
//! where they are made, so formulas with few clauses take little on the way to them; but the number of clauses can grow exponentially.
//!
//! `specs/Translation.antt` says to which clauses rules lead, `specs/Covering.antt` which rules are asked for, and `specs/SignedClauses.antt` what
//! is promised of the clauses. Translations to signed clauses by rules with sets as signs are treated by M. Baaz, C. G. Fermüller and G. Salzer,
//! "Automated deduction for many-valued logics", in the Handbook of Automated Reasoning (2001).
#![tactic(auto)]

mod atom_clause;
mod covering;
mod rows;
mod translation;

pub use atom_clause::AtomClause;
pub use translation::to_clauses;
