//! The text of signed clauses.
//!
//! [`clauses_text`] has a line for each item of each goal of some queries: under a valuation a goal is false just where none of its formulas takes a
//! value in its sign, so the line tells clauses of the formula at the other values.
//!
//! `specs/Items.antt` says of which items and with which numbers, and `specs/ClausesText.antt` what the lines are and that their clauses are those to
//! which the rules of one book lead.
#![tactic(auto)]

mod line;
mod text;

pub use text::clauses_text;
