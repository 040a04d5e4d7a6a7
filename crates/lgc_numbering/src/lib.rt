//! Formulas with numbers: each formula without quantifiers is kept once, behind its arguments.
//!
//! - [`Formulas`] numbers formulas from 0. `number_of` tells the number of a formula, and appends it with its subformulas where they aren't there;
//!   `formula` copies the formula with a number.
//! - [`Node`] is a formula by its parts: an atom, or an operator with the numbers of its arguments. `nodes` lends those of all formulas.
//!
//! A formula is kept by its node alone. Equal formulas have one number, and a number stays that of its formula. Finding a formula takes time by its
//! own size, whatever the number of formulas is.
#![tactic(auto)]

mod formulas;
mod keys;
mod node;
mod number;
mod trees;

pub use formulas::Formulas;
pub use node::Node;
