//! The text of a query is read back as the same.
//!
//! - [`text_of_query`] is the text that `lgc_queries` writes. The grammar of queries derives the same query from it, and a query file
//!   with the text and a full stop has this query alone.
//!
//! `specs/WritableQueries.antt` of `lgc_queries` says what that needs: the limits of what is read, and names of the right forms. The queries
//! of a query file have both, by `proofs/ReadQueries.antt`, and so have the subformulas of their formulas, by `proofs/Subformulas.antt`.
//! `proofs/QueryTexts.antt` has the law for a query inside a longer text, of any grammar.
#![tactic(auto)]

mod text;

pub use text::text_of_query;
