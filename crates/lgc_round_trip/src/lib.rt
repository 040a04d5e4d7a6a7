//! The text of a calculus is read back as its rules.
//!
//! - [`text_of_rules`] is the text of rules, as `lgc_print` writes it. The grammar of rule files in `lgc_rules` derives the same
//!   rules from it, and so `read_rules` reads them there.
//! - [`have_signs`] tests what that needs: each sign has members. [`see_sets_of_rule`] tells what is true of the sets of each rule.
#![tactic(auto)]

mod signs;
mod text;

pub use signs::{have_signs, see_sets_of_rule};
pub use text::text_of_rules;
