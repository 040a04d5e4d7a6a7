//! The top call: from the words of a command line, and the bytes of the file that they name, to the
//! bytes that are put and the status of the run.
//!
//! [`run_multlog`] is the one call that the program makes. Its contract is the promise of the whole, and `specs/Promise.antt` has it clause by
//! clause. With the status [`Status::Done`] the output of `calculus` gains a calculus of the file's logic, as text or as a document for LaTeX,
//! each rule of which is exact and irredundant; that of `verify` the verdicts on the rules of a file; that of `prove` a report that proves the
//! queries of a file; that of `tableau` a closed tableau for each of their goals; that of `clauses` their signed clauses; and that of `check` the
//! line that accepts a report, and what this report derives holds in every finite structure of the logic. With [`Status::Refuted`] some query isn't
//! satisfied by some valuation, and with [`Status::Rejected`] some rule isn't right or the report isn't valid. `specs/Run.antt` says of every status
//! when it comes and what is put under it, and `specs/Means.antt` which status the files of a command mean.
//!
//! The words are told apart in `command`, and the files are read and the answer is made in `answer`, in the order of refusals:
//! the first file, its faults, the second file, its faults, and then the work (`work`). `lgc_spec` reads the specification and
//! `lgc_rules` the rules, `lgc_calculus` derives rules, `lgc_print` and `lgc_latex` print them, and `lgc_verify` judges them. `lgc_queries` reads queries,
//! `lgc_prove` answers them, `lgc_tableaux` and `lgc_clause_text` write their tableaux and clauses; `lgc_report_reader` reads reports, and `lgc_check` judges them.
#![tactic(auto)]

mod answer;
mod command;
mod fault_line;
mod run;
mod status;
mod work;

pub use run::run_multlog;
pub use status::{Status, exit_number};
