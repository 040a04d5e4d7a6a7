//! Reading reports against a logic.
//!
//! - [`read_report`] reads the bytes of a report: the report, or its first fault.
//! - [`LONGEST_REPORT`] is the limit of reports.
//!
//! `specs/ReportGrammar.antt` is the grammar of reports over those of rules, formulas, terms and queries. It says which trees the texts
//! have that break no rule, and which rule a token breaks; `specs/PlainReports.antt` has the same lines without rules. The grammar speaks
//! of tokens with what stands behind them where that counts, by `specs/Reported.antt`. The readers, in `specs/ReportReading.antt`, follow
//! the grammar line by line, and `proofs/ReportReads.antt` proves that they read it; each function that reads is proved to be one of them.
//! `specs/ReportFile.antt` says what the bytes of a report give.
#![tactic(auto)]

// What is read, or the caller stops too. `?` gets no proof where a `ValueSet` stands beside a reference.
macro_rules! tried {
    ($read:expr) => {
        match $read {
            Ok(read) => read,
            Err(stop) => return Err(stop),
        }
    };
}

mod cited;
mod claim;
mod entry;
mod line;
mod part;
mod report;
mod token;

pub use report::{LONGEST_REPORT, read_report};
