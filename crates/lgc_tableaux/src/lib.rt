//! The tableaux of queries.
//!
//! [`tableaux_text`] makes the text of the tableaux for the goals of queries, with a valuation against each goal that some valuation makes false,
//! and tells whether all goals are closed: they are exactly where every valuation satisfies every query. `specs/TableauxText.antt` defines the
//! text.
#![tactic(auto)]

mod tableaux;

pub use tableaux::{Tableaux, tableaux_text};
