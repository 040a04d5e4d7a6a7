//! What is decided of a goal: by lemmas that a search finds, or by a valuation.
//!
//! [`decide`] answers a goal that is a sequent without quantifiers: [`Decided::Proved`] with lemmas of which the goal includes one, and then it is
//! true under every valuation; or [`Decided::Refuted`] with a valuation under which it is false. `specs/Decided.antt` says what that means.
#![tactic(auto)]

mod decided;
mod deciding;

pub use decided::Decided;
pub use deciding::decide;
