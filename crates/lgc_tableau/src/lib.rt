//! Dual tableaux.
//!
//! - [`Tableau`] is a tree that shows of a goal, a sequent, that it is true under every valuation. A [`Case`] is one of a split.
//!
//! `specs/ClosedTableaux.antt` defines when a tableau is closed for a goal, and `specs/OrderlyTableaux.antt` when one is made in good order: by
//! irredundant rules, with no formula split twice on a way down, and closed as soon as may be.
#![tactic(auto)]

mod tableau;

pub use tableau::{Case, Tableau};
