//! The rules of a calculus as a document for LaTeX.
//!
//! [`calculus_latex`] is the document on a list of rules: a heading, and for each rule a fraction with its premises above and its
//! conclusion below. `specs/Latex.antt` defines it byte by byte. It is written for LaTeX without packages.
#![tactic(auto)]

mod document;

pub use document::calculus_latex;
