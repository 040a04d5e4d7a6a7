//! Input texts: what formulas, queries, rule files and reports have in common where they are read from bytes and from tokens.
//!
//! - [`tokens_in`] cuts a text of limited length into tokens, or tells its fault.
//! - [`fault_of`] is the fault for which reading tokens stops, at its place, and [`fault_at`] one at an offset.
//!
//! `specs/Texts.antt` says what a whole text gives for any grammar, and `specs/Places.antt` what the phrase gives that begins at a place
//! among tokens: the tree, or the one first fault. `proofs/` shows once that a reader of the grammar answers this.
#![tactic(auto)]

mod text;

pub use text::{fault_at, fault_of, tokens_in};
