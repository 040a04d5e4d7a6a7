//! Dual tableaux of goals.
//!
//! [`build`] answers a goal that is a sequent without quantifiers: [`Built::Closed`] with a tableau that is closed for it, and then it is true
//! under every valuation; or [`Built::Unclosed`] with a valuation of its atoms under which it is false. `specs/Built.antt` says what that means.
#![tactic(auto)]

mod branch;
mod building;
mod built;
mod choosing;
mod closing;
mod expanding;
mod numbered;
mod opened;
mod unclosed;

pub use building::build;
pub use built::Built;
