//! Proof search.
//!
//! [`prove`] answers a goal by a lemma that it includes, or by values under which it is false.
#![tactic(auto)]

mod answer;
mod choosing;
mod engine;
mod opened;

pub use answer::Answer;
pub use engine::prove;
