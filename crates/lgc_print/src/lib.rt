//! The printed form of rules, terms and formulas.
//!
//! - [`write_rule`] puts the text of one rule behind other bytes.
//! - [`calculus_text`] is the text of a list of rules, numbered from 1.
//! - [`put_value`], [`put_set`] and [`put_number`] put the name of a truth value, a set and a number, as rules, verdicts and the lines
//!   of faults have them.
//! - [`is_lower_word`] and [`has_word_bytes`] tell which names of symbols and of truth values are written without quotes.
//! - [`write_formula`] and [`write_term`] put the text of a formula or a term behind other bytes, or nothing where memory runs out.
//!   [`put_formula`] and [`put_term`] do without a copy of the text, and may leave a part of it.
//!
//! `specs/Text.antt` defines the one spelling: a set is `{f,u}`, a literal `1^{f,u}`, and a clause without
//! literals `0`. The sets of a quantifier's clause are `all{f,u}` and, behind these, `some{u}` where it has members. That of formulas is in
//! `specs/FormulaText.antt`: it has no blanks, and the variable of the k-th quantifier from outside is `Bk`.
#![tactic(auto)]

mod formulas;
mod rules;

pub use formulas::{put_formula, put_term, write_formula, write_term};
pub use lgc_clauses::Numbered;
pub use rules::{
    calculus_text, has_word_bytes, is_lower_word, put_number, put_set, put_value, write_rule,
};
