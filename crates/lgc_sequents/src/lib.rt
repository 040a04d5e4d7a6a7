//! Signed formulas and sequents of a finite-valued logic, and lines of derivations.
//!
//! - [`Signed`] is a formula with a sign, a set of truth values.
//! - [`Sequent`] is a list of signed formulas of which one holds: it is true where the value of some formula lies in the formula's sign.
//!   No formula stands twice, and each sign has members.
//! - [`Line`] is a line of a derivation, a sequent with the [`Reason`] for which it stands. A rule's premises are [`Cited`] by their positions.
//!
//! Every call's contract gives its result exactly. Those of `add`, `included_in` and `is_axiom` say besides what the call means for truth,
//! whatever the values of formulas are: they may be those under a valuation, or those in a structure under an assignment. None but `add`
//! and [`copy_sequent`] takes memory. `specs/Sequents.antt` has the definitions.
//!
//! `specs/Steps.antt` defines when a line is a step, given the rules and the lines before it, for rules of operators and of quantifiers.
//! `specs/Rests.antt` defines on which lines a line rests.
#![tactic(auto)]

mod line;
mod sequent;
mod signed;

pub use line::{Cited, Line, Reason};
pub use sequent::{Sequent, copy_sequent};
pub use signed::Signed;
