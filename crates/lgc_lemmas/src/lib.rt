//! Lemmas: packed sequents that hold by rules of operators.
//!
//! - [`Lemma`] is a packed sequent with its [`Reason`], and [`Lemmas`] are lemmas in order.
//! - [`axiom_at`] makes the lemma of a formula that carries all truth values, [`compound_at`] looks for a compound in a goal, [`is_compound_at`] at one place, and
//!   [`refute`] makes values under which a goal without compounds is false.
//!
//! `specs/Steps.antt` says when lemmas are steps by rules. Where the rules are exact, such lemmas are true at all values that go by the
//! tables.
#![tactic(auto)]

mod atoms;
mod lemma;
mod lemmas;

pub use atoms::{compound_at, is_compound_at, refute};
pub use lemma::{Lemma, Reason};
pub use lemmas::{Lemmas, axiom_at};
