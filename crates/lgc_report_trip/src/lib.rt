//! The text of a report is read back as the same.
//!
//! - [`text_of_report`] is the text that `lgc_report` writes. Where it isn't longer than what is read, the grammar of reports in
//!   `lgc_report_reader` derives the same report from it, and so `read_report` reads it there.
//!
//! `specs/Writable.antt` of `lgc_report` says what that needs of a report, and `specs/WellFormed.antt` what holds of each report by the types
//! of its parts. `proofs/Printed.antt` has texts that are printed for trees of a grammar whose tokens say what is behind them, and
//! `proofs/ReportTexts.antt` the law.
#![tactic(auto)]

mod facts;
mod text;

pub use text::text_of_report;
