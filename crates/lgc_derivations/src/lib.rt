//! Derivations as trees, and as lines.
//!
//! - [`Derivation`] is a tree of sequents: an axiom, or a step by a rule with a derivation of each premise.
//! - [`flatten`] appends the lines of a derivation to others, premises first.
//!
//! `specs/Derivations.antt` defines when a derivation is right for a list of rules. The lines of a right one are steps by these rules.
#![tactic(auto)]

mod derivation;
mod flattening;

pub use derivation::Derivation;
pub use flattening::flatten;
