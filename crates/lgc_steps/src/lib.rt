//! Whether lines are steps.
//!
//! - [`step_fault`] tells whether a line is a step by the rules and the lines before it, or the first [`StepFault`]: the first part in which
//!   it isn't one. It takes no memory.
//! - [`is_position`] tells whether a line stands at a position, and [`are_included`] whether items are included in a sequent.
//!
//! `specs/StepFaults.antt` says which parts a step of each kind has, and in which order they are asked. A step, as `lgc_sequents` defines it,
//! is a line of which all parts hold.
#![tactic(auto)]

mod fault;
mod near;
mod premises;
mod standing;
mod step;

pub use fault::StepFault;
pub use near::are_included;
pub use premises::is_position;
pub use step::step_fault;
