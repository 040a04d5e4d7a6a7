//! The tokens of specifications, order texts, formulas, queries, rules and reports.
//!
//! - [`lex`] cuts bytes into [`Token`]s, each of a [`Kind`], or tells the first [`LexFault`].
//! - [`content`] is what a token says: its bytes without the quotes around them.
//!
//! `lex` answers exactly the tokens or the fault that `specs/Tokens.antt` defines, or tells that memory
//! ran out. Its law, in `specs/Cuts.antt`, says what these are: each token is the longest text of its
//! form at its place, the tokens rise and don't overlap, and between them are blanks and comments only;
//! a fault stands behind such tokens, where no form goes on. The forms are in `specs/Forms.antt`.
#![tactic(auto)]

mod fault;
mod lexing;
mod piece;
mod scan;
mod token;

pub use fault::LexFault;
pub use lexing::{content, lex};
pub use token::{Kind, Token};
