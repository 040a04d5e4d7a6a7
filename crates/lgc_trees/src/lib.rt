//! Derivations of goals, as trees.
//!
//! [`search`] answers a goal that is a sequent without quantifiers: [`Outcome::Derived`] with a derivation of it, and then it is true under every
//! valuation; or [`Outcome::Refuted`] with a valuation under which it is false. `specs/Outcome.antt` says what that means.
#![tactic(auto)]

mod outcome;
mod searching;
mod unfolding;

pub use outcome::Outcome;
pub use searching::search;
