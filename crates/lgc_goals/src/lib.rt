//! The goals of a query about a finite-valued logic.
//!
//! - [`goals`] makes the goals of a query: sequents that are all true exactly where the query is satisfied. So a query is decided by
//!   deciding its goals.
//! - [`goal_count`] tells how many goals it has, and [`goal_at`] makes the one at a place.
//!
//! The call's contract gives its result exactly, and says besides that it stands for the query: whatever truth values formulas have, under
//! every valuation, and in every structure under every assignment. `specs/Goals.antt` says which sequents the goals of a query are and how
//! many there are, `specs/Truth.antt` what it means that sequents stand for a query.
//!
//! Sequents with a place for each truth value are due to G. Rousseau, "Sequents in many valued logic I", Fundamenta Mathematicae 60 (1967),
//! 23-33. Those whose formulas carry sets of truth values as signs are treated by M. Baaz, C. G. Fermüller, G. Salzer and R. Zach, "Labeled
//! calculi and finite-valued logics", Studia Logica 61 (1998), 7-33.
#![tactic(auto)]

mod goal;

pub use goal::{goal_at, goal_count, goals};

/// The greatest number of goals of a query that is read, and for which they are made.
pub const MOST_GOALS: u32 = 4_096;
