//! Reports on queries about a finite-valued logic, and their text.
//!
//! - [`Report`] has numbered rules, the lines of a derivation by these rules, and claims that cite the lines.
//! - A [`Claim`] answers a query by [`Evidence`], or says that a sequent holds.
//! - [`write_report`] is the text of a report. [`put_item`], [`put_sequent`] and [`put_entries`] put the parts of it that other texts share.
//!
//! `specs/ReportText.antt` is the one spelling of reports. `specs/Valid.antt` defines when a report is valid: its rules are exact, its lines
//! are steps by them, and its claims follow from the lines that they cite.
#![tactic(auto)]

mod report;
mod text;

pub use lgc_clauses::Numbered;
pub use report::{Claim, Evidence, Report};
pub use text::{put_entries, put_item, put_sequent, write_report};
