//! Answers to queries.
//!
//! - [`answer_queries`] makes a report that answers queries: with a derivation of each that every valuation satisfies, and a valuation that
//!   refutes each other one.
//! - [`prove_queries`] makes the text of such a report, and tells whether all queries are proved.
//!
//! `specs/Answers.antt` says when a report answers queries, `specs/AnswerText.antt` what its text is, and `specs/Work.antt` what is true while the
//! queries are answered.
#![tactic(auto)]

mod answer_text;
mod answers;
mod by_use;
mod copy;
mod evidence;

pub use answer_text::{Answered, prove_queries};
pub use answers::answer_queries;
