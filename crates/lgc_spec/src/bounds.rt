// Operators of two arguments and quantifiers by the bounds of an ordering.
ghost use Rattle.std.specs.Prelude.{◌≡◌, ◌<◌, ◌≤◌, ℕ, List, All, length, MatchOption, IfOk};
ghost use Rattle.lgc_values.specs.declared.TheConstants.{MOST_VALUES};
ghost use Rattle.lgc_orders.specs.Order.{Below};
ghost use Rattle.lgc_spec.specs.Faults.{Answers};
ghost use Rattle.lgc_spec.specs.Words.{LiesIn};
ghost use Rattle.lgc_spec.specs.Orderings.{Ordered};
ghost use Rattle.lgc_spec.specs.KeptOrders.{AreKept};
ghost use Rattle.lgc_spec.specs.Folds.{HasRows};
ghost use Rattle.lgc_spec.specs.Bounds.{IsBound, BoundsGive, BoundGives, SetBoundGives};

use crate::fault::{NO_BOUND, SpecFault, TABLE_SHAPE, UNKNOWN_ORDERING, fault_at, keeping};
use crate::orderings::{NamedOrder, find_order};
use crate::sets::folds;
use crate::words::{pair_names, text_of};
use lgc_orders::Order;
use lgc_parser::Word;
use lgc_values::{List, Name};
use std::alloc::Global;

fn bound(order: &Order, lower: bool, a: u8, b: u8) -> Option<u8>
    requires a { a < order.now.size }
    requires b { b < order.now.size }
    ensures { MatchOption result
        ((c : ℕ) → IsBound lower order.now.size (Below order.now) a b c → ⊥)
        (IsBound lower order.now.size (Below order.now) a b) }
{
    if lower {
        order.inf(a, b)
    } else {
        order.sup(a, b)
    }
}

// The bounds of all pairs of values, by rows. The word `inf` or `sup` is at `at`.
fn bounds_given(
    alloc: Global,
    names: &[Name],
    order: &Order,
    at: u32,
    lower: bool,
) -> Result<List<u8>, SpecFault>
    requires size { order.now.size ≡ length names.now }
    requires few { length names.now ≤ MOST_VALUES }
    ensures bounds { Answers (BoundsGive lower names.now at (Below order.now)) result }
    ensures rows { IfOk result (HasRows (length names.now) 2) }
{
    let n = names.len();
    let mut table = List::new(alloc);
    for row in 0..n * n {
        let (a, b) = ((row / n) as u8, (row % n) as u8);
        match bound(order, lower, a, b) {
            Some(c) => table.push(c)?,
            None => return Err(keeping(NO_BOUND, at, pair_names(alloc, names, a, b)?)),
        }
    }
    Ok(table)
}

/// The table of an operator by the bounds of the ordering that a word names. The word `inf` or `sup` is at `at`.
pub(crate) fn bound_given(
    alloc: Global,
    bytes: &[u8],
    names: &[Name],
    orders: &[NamedOrder],
    arity: u8,
    at: u32,
    lower: bool,
    ordering: &Word,
) -> Result<List<u8>, SpecFault>
    requires word { LiesIn (length bytes.now) ordering.now }
    requires orders { All (λ o. LiesIn (length bytes.now) o.name) orders.now }
    requires sizes { All (λ o. o.order.size ≡ length names.now) orders.now }
    requires few { length names.now ≤ MOST_VALUES }
    ensures gives { (orderings : List Ordered) → AreKept bytes.now (length names.now) orders.now orderings
        → Answers (BoundGives bytes.now names.now orderings arity at lower ordering.now) result }
    ensures rows { IfOk result (HasRows (length names.now) 2) }
{
    if arity != 2 {
        return Err(fault_at(TABLE_SHAPE, at));
    }
    match find_order(bytes, orders, text_of(bytes, ordering)) {
        Some(place) => bounds_given(alloc, names, &orders[place].order, at, lower),
        None => Err(fault_at(UNKNOWN_ORDERING, ordering.at)),
    }
}

/// The table of a quantifier by the bounds of the ordering that a word names. The word `inf` or `sup` is at `at`.
pub(crate) fn set_bound_given(
    alloc: Global,
    bytes: &[u8],
    names: &[Name],
    orders: &[NamedOrder],
    at: u32,
    lower: bool,
    ordering: &Word,
) -> Result<List<u8>, SpecFault>
    requires word { LiesIn (length bytes.now) ordering.now }
    requires orders { All (λ o. LiesIn (length bytes.now) o.name) orders.now }
    requires sizes { All (λ o. o.order.size ≡ length names.now) orders.now }
    requires few { length names.now ≤ MOST_VALUES }
    ensures { (orderings : List Ordered) → AreKept bytes.now (length names.now) orders.now orderings
        → Answers (SetBoundGives bytes.now names.now orderings at lower ordering.now) result }
{
    let pairs = bound_given(alloc, bytes, names, orders, 2, at, lower, ordering)?;
    Ok(folds(alloc, names.len(), pairs.items())?)
}
