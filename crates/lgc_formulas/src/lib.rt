//! Reading terms and formulas against a logic.
//!
//! - [`read_formula`] reads a text that is one formula: the formula, or the first fault.
//! - [`formula_at`], [`formula_with`], [`term_at`] and [`term_with`] read a formula or a term among the tokens of a larger text, and tell the
//!   token behind it. A [`Parsed`] is what they tell of a formula.
//! - [`one_formula`], [`one_term`] and [`formula_list`] are for readers of texts that contain formulas: what they give is that of
//!   `specs/FormulaReading.antt` and `TermReading`. A [`Context`] is what formulas are read against, and [`Formulas`] are some in a row.
//!   [`one`], [`next_is`] and [`starts_formula`] are for the tokens around them.
//! - A [`Role`] is what a logic has under a name.
//! - A [`Read`] is a formula that was read, with what the text around it has to know.
//! - [`MOST_DEPTH`], [`MOST_NODES`] and [`LONGEST_NAME`] are the limits of formulas, and [`is_reserved`] tells the names that free variables
//!   can't have.
//!
//! `specs/FormulaGrammar.antt` is the grammar of formulas and `specs/TermGrammar.antt` that of terms. They say which trees the
//! texts have that break no rule, and which rule a token breaks by `specs/Faults.antt`; `PlainFormulas` and `PlainTerms` have the
//! same lines without rules. `specs/Limits.antt` says what is true of each formula and of each term that is read. The readers, in
//! `FormulaReading` and `TermReading`, follow the grammars line by line, and
//! `proofs/FormulaReads.antt` and `TermReads.antt` prove that they read them.
//!
//! `proofs/` has further, for whoever reads formulas: `WholeFormulas` for a text that is one formula, `FormulasSettle` and
//! `TermsSettle` for one that begins at a place among tokens, `FormulaLists` for lists of formulas and what stands behind them,
//! `FormulasKept` and `TermsKept` for what is known of those that are read, `FaultNumbers` for the numbers of their faults.
#![tactic(auto)]

mod context;
mod formula;
mod list;
mod read;
mod role;
mod scope;
mod term;
mod token;

pub use context::Context;
pub use formula::{Formulas, LONGEST_NAME, MOST_DEPTH, MOST_NODES, Read, one_formula};
pub use list::formula_list;
pub use read::{LONGEST_TEXT, Parsed, formula_at, formula_with, read_formula, term_at, term_with};
pub use role::Role;
pub use scope::is_reserved;
pub use term::one_term;
pub use token::{next_is, one, starts_formula};
