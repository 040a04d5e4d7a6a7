//! Partial orders that are written as links between values, and their bounds.
//!
//! - [`Order`] is a partial order of the values below a number. [`Order::of_links`] makes it from
//!   links: a value is below another where a chain of links leads from the one to the other.
//! - [`Order::le`] tells whether a value is below or equal to another, [`Order::inf`] the greatest
//!   lower bound of two values, and [`Order::sup`] the least upper bound.
//!
//! Links that lead around a cycle are refused with the first two values that are each below the
//! other ([`OrderFault::Cycle`]). A bound is absent exactly where there is none. Contracts see an
//! order as its relation, and `specs/Order.antt` has the definitions.
//!
//! On orders and bounds see B. A. Davey and H. A. Priestley, "Introduction to Lattices and Order"
//! (2002). The order of the links so far is kept in a table and extended link by link, as by
//! T. Ibaraki and N. Katoh, "On-line computation of transitive closures of graphs" (1983): each new
//! link costs the square of the number of values, and one that adds nothing a single look.
#![tactic(auto)]

mod order;
mod table;

pub use order::{Order, OrderFault};
