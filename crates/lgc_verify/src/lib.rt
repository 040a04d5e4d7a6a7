//! Whether the rules of a logic are right, and the lines that tell it.
//!
//! - [`judge`] is the [`Verdict`] on a rule: where it isn't exact, what of it is superfluous, or that it is right.
//! - [`judge_rules`] makes the lines that tell the verdicts on rules, numbered from 1, and says whether all rules are right.
//! - [`put_row`] puts a row of a rule's table, as these lines have it.
//!
//! `specs/Verdicts.antt` defines the verdicts by exactness and irredundance, and the spelling of the lines.
#![tactic(auto)]

mod text;
mod verdict;

pub use text::{Judged, judge_rules, put_row};
pub use verdict::{Verdict, judge};
