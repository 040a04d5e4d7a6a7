//! The text of a formula or of a term is read back as the same.
//!
//! - [`text_of_formula`] and [`text_of_term`] are the texts that `lgc_print` writes. The grammars of `lgc_formulas` derive the same
//!   formula or term from them, and so `read_formula` and `term_at` read them there.
//! - [`has_readable_names`] and [`has_readable_term_names`] test what that asks of names. Each formula that `read_formula` answers has
//!   them, so its text can be written and read back.
//!
//! `specs/Writable.antt` of `lgc_formulas` says what that needs: names of the right forms, and the limits of what is read.
//! `proofs/Written.antt` has the law for a formula inside a longer text, of any grammar, and `proofs/ReadFormulas.antt` that for what is read.
#![tactic(auto)]

mod names;
mod text;

pub use names::{has_readable_names, has_readable_term_names};
pub use text::{text_of_formula, text_of_term};
