//! Terms and formulas of first-order languages over a finite-valued logic, and the faults of texts that are read against a logic:
//! formulas, queries, rules and reports.
//!
//! - [`Term`] and [`Formula`] have bound variables without names, counted from the innermost quantifier.
//! - [`same_term`] and [`same_formula`] tell whether two are equal, [`copy_term`] and [`copy_formula`] copy one.
//! - [`has_free`] tells whether a variable occurs free in a formula. Where it doesn't, the formula has one value in each structure, whatever element the
//!   variable is given.
//! - [`instance`] puts a term for the variable of a quantifier's body, and [`is_instance`] tells such an instance. It has in each structure the value
//!   that the body has at the term's element: the law of substitution.
//! - [`nodes_left`], [`is_within`] and [`has_quantifier`] tell how large and how deep a formula is, and whether it has a quantifier.
//! - [`InputFault`] is the first fault of a text, a number and a place, or want of memory. The constants are the numbers of the faults.
//!
//! Every call's contract gives its result exactly. What the value of a formula is, under a valuation and in a finite structure, is said in
//! `specs/Values.antt` and `specs/Structures.antt`. No counter overflows, however deep a formula is; each call goes as deep as the formula that it walks.
#![tactic(auto)]

mod copy;
mod equality;
mod fault;
mod formula;
mod instances;
mod names;
mod sizes;
mod substitution;
mod variables;

pub use copy::{copy_formula, copy_term};
pub use equality::{same_formula, same_term};
pub use fault::{
    BAD_ARGUMENT, BAD_BYTE, FILE_TOO_LONG, InputFault, MISNUMBERED, NOT_PROPOSITIONAL, OPEN_QUOTE,
    RESERVED_NAME, TOO_DEEP, TOO_LARGE, TOO_MANY_GOALS, UNEXPECTED, UNKNOWN_NAME, UNKNOWN_NUMBER,
    UNKNOWN_VALUE, WRONG_ARITY,
};
pub use formula::{Formula, Term};
pub use instances::is_instance;
pub use sizes::{has_quantifier, is_within, nodes_left};
pub use substitution::instance;
pub use variables::has_free;
