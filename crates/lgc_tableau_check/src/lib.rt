//! Whether a dual tableau is closed.
//!
//! [`is_closed`] tells whether a tableau is closed for a goal, which is then true under every valuation. It takes no memory. The contract is an
//! equivalence with the definition of closed tableaux. `specs/Branches.antt` has the words of the private calls.
#![tactic(auto)]

mod branch;
mod closed;
mod split;

pub use closed::is_closed;
