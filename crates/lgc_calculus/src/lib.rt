//! The calculus of a logic, and rules of operators at any signs.
//!
//! - [`derive_calculus`] makes the calculus: a [`Calculus`] has one rule for each operator and truth value, and then one for each
//!   quantifier and truth value. `specs/Calculus.antt` says what is promised of it: the premises of each rule hold exactly when its
//!   conclusion does, and no premise and no truth value of a set can be taken away.
//! - A [`RuleBook`] has rules of operators, which it derives as they are asked for. Each has a number, and there is one for an operator
//!   and a sign. `specs/RuleBook.antt` says when a book is right for a logic, which each call keeps up, and `specs/Arguments.antt` what
//!   its rules say of the values of formulas.
#![tactic(auto)]

mod book;
mod calculus;

pub use book::RuleBook;
pub use calculus::{Calculus, derive_calculus};
