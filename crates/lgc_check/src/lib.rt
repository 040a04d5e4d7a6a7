//! Whether a report is valid.
//!
//! - [`check_report`] gives the [`Verdict`] on a report: it is accepted, or a rule, a line or a claim is the first that has a [`Cause`] not
//!   to be.
//! - [`write_verdict`] is the line that tells a verdict, and [`tell_verdict`] checks a report and tells the verdict on it.
//!
//! `specs/Causes.antt` says which causes an item may have, and in which order they are asked; `specs/Verdicts.antt` what a verdict means,
//! and `specs/VerdictText.antt` how it is told.
//! A report is accepted exactly if it is valid as `lgc_report` defines it, and what it derives then holds in every finite structure of the
//! logic, as `lgc_soundness` says.
#![tactic(auto)]

mod check;
mod claims;
mod derivation;
mod pending;
mod refutation;
mod text;
mod verdict;

pub use check::check_report;
pub use text::{Told, tell_verdict, write_verdict};
pub use verdict::{Cause, Place, Verdict};
