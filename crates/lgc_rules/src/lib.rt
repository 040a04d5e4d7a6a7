//! Reading rules for operators and quantifiers against a logic.
//!
//! - [`read_rules`] reads a rule file: the rules in their order, or the first fault.
//! - [`rule_at`] reads one rule among the tokens of a larger text, whatever its number is, and tells the token behind it.
//! - A [`Numbered`] is a rule with the number that is written before it.
//! - [`one_rule`], [`read_set`] and [`read_value`] are for readers of texts that contain rules or signs: what they give is that of
//!   `specs/RuleReading.antt`.
//!
//! `specs/RuleGrammar.antt` is the grammar of rule files. It says which rules that a logic asks for a token can break, and
//! which trees the texts have that break none; `specs/PlainGrammar.antt` has the same lines without those rules. What is in the
//! first is read, with its one tree. Else the answer is the first token that breaks a rule by the first, with the rule's number,
//! or with which no text of the second goes on; no other answer is right. The readers, in `specs/RuleReading.antt`, follow the
//! grammar line by line, and each function is proved to be one of them.
#![tactic(auto)]

// What is read, or the caller stops too. `?` gets no proof where a `ValueSet` stands beside a reference.
macro_rules! tried {
    ($read:expr) => {
        match $read {
            Ok(read) => read,
            Err(stop) => return Err(stop),
        }
    };
}

mod clause;
mod file;
mod qclause;
mod reading;
mod rule;
mod set;

pub use file::{LONGEST_FILE, read_rules, rule_at};
pub use lgc_clauses::Numbered;
pub use rule::one_rule;
pub use set::{read_set, read_value};
