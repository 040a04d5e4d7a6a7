// Partial orders of the values below a number.
ghost use Rattle.std.specs.Prelude.{◌≡◌, ◌<◌, ◌↔◌, ℕ, IsTrue, IfOk, IfErr, OnOk, MatchOption};
ghost use Rattle.lgc_orders.specs.Order.{Leads, LinksValues, IsAntisymmetric, IsFaultOf, Below, IsOrder, IsOfLinks, IsLowerBound, IsUpperBound, IsInf, IsSup};

use crate::table::{first_cycle, has_pair, table_of};
use std::alloc::Global;
use std::marker::Model;

/// Why links give no order.
#[derive(Clone, Copy, Debug, PartialEq, Eq)]
pub enum OrderFault {
    /// The first two values, the lesser first, that are each below the other.
    Cycle(u8, u8),
    /// Memory ran out.
    Memory,
}

/// A partial order of the values below a number, seen as its relation. Each meets `IsOrder` of `specs/Order.antt`.
#[derive(Debug, Drop)]
pub struct Order {
    size: u8,
    table: Vec<bool>,
}

impl Model for Order {
    ghost use Rattle.lgc_orders.specs.Order.{Relation, IsOrder};

    ghost Value = { Relation };

    ghost view = { λ order. record { size = order.size; table = order.table.items } };

    ghost invariant = { λ order. IsOrder (record { size = order.size; table = order.table.items }) };
}

impl Order {
    /// The order of the values below `n` in which a value is below another where a chain of links leads there.
    /// A link from a value to itself adds nothing.
    pub fn of_links(alloc: Global, n: u8, links: &[(u8, u8)]) -> Result<Order, OrderFault>
        requires { LinksValues n links.now }
        ensures order { IfOk result (IsOfLinks n links.now) }
        ensures acyclic { OnOk result (IsAntisymmetric n (Leads links.now)) }
        ensures fault { IfErr result (IsFaultOf n links.now) }
    {
        let Ok(table) = table_of(alloc, n, links) else {
            return Err(OrderFault::Memory);
        };
        match first_cycle(&table, n) {
            Some((a, b)) => Err(OrderFault::Cycle(a, b)),
            None => Ok(Order { size: n, table }),
        }
    }

    /// Whether `a` is `b` or below it.
    pub fn le(&self, a: u8, b: u8) -> bool
        requires a { a < self.now.size }
        requires b { b < self.now.size }
        ensures value { IsTrue result ↔ Below self.now a b }
        ensures order { IsOrder self.now }
    {
        has_pair(
            &self.table,
            usize::from(self.size),
            usize::from(a),
            usize::from(b),
        )
    }

    /// The greatest of the values that are below both `a` and `b`, and None exactly where there is none.
    pub fn inf(&self, a: u8, b: u8) -> Option<u8>
        requires a { a < self.now.size }
        requires b { b < self.now.size }
        ensures { MatchOption result
            ((c : ℕ) → IsInf self.now.size (Below self.now) a b c → ⊥)
            (IsInf self.now.size (Below self.now) a b) }
    {
        for c in 0..self.size {
            if self.is_inf(a, b, c) {
                return Some(c);
            }
        }
        None
    }

    /// The least of the values that are above both `a` and `b`, and None exactly where there is none.
    pub fn sup(&self, a: u8, b: u8) -> Option<u8>
        requires a { a < self.now.size }
        requires b { b < self.now.size }
        ensures { MatchOption result
            ((c : ℕ) → IsSup self.now.size (Below self.now) a b c → ⊥)
            (IsSup self.now.size (Below self.now) a b) }
    {
        for c in 0..self.size {
            if self.is_sup(a, b, c) {
                return Some(c);
            }
        }
        None
    }

    // Whether `c` is the greatest lower bound of `a` and `b`.
    fn is_inf(&self, a: u8, b: u8, c: u8) -> bool
        requires a { a < self.now.size }
        requires b { b < self.now.size }
        requires c { c < self.now.size }
        ensures { IsTrue result ↔ IsInf self.now.size (Below self.now) a b c }
    {
        for d in 0..self.size {
            if self.is_lower_bound(a, b, d) && !self.le(d, c) {
                return false;
            }
        }
        self.is_lower_bound(a, b, c)
    }

    // Whether `c` is the least upper bound of `a` and `b`.
    fn is_sup(&self, a: u8, b: u8, c: u8) -> bool
        requires a { a < self.now.size }
        requires b { b < self.now.size }
        requires c { c < self.now.size }
        ensures { IsTrue result ↔ IsSup self.now.size (Below self.now) a b c }
    {
        for d in 0..self.size {
            if self.is_upper_bound(a, b, d) && !self.le(c, d) {
                return false;
            }
        }
        self.is_upper_bound(a, b, c)
    }

    // Whether `c` is below both `a` and `b`.
    fn is_lower_bound(&self, a: u8, b: u8, c: u8) -> bool
        requires a { a < self.now.size }
        requires b { b < self.now.size }
        requires c { c < self.now.size }
        ensures { IsTrue result ↔ IsLowerBound (Below self.now) a b c }
    {
        self.le(c, a) && self.le(c, b)
    }

    // Whether `c` is above both `a` and `b`.
    fn is_upper_bound(&self, a: u8, b: u8, c: u8) -> bool
        requires a { a < self.now.size }
        requires b { b < self.now.size }
        requires c { c < self.now.size }
        ensures { IsTrue result ↔ IsUpperBound (Below self.now) a b c }
    {
        self.le(a, c) && self.le(b, c)
    }
}
