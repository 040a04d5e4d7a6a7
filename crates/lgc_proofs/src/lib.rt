//! Lines that prove goals.
//!
//! - [`Proofs`] keeps lines of which no two say the same. [`Proofs::prove`] answers a goal: [`Found::Line`] with the position of its line, or
//!   [`Found::Refuted`] with a valuation under which it is false.
#![tactic(auto)]

mod found;
mod keys;
mod proofs;
mod prove;
mod writing;

pub use found::Found;
pub use proofs::Proofs;
