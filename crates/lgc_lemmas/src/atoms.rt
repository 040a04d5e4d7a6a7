// Goals without compounds: values under which they are false.
ghost use Rattle.std.specs.Prelude.{◌≡◌, ◌<◌, ℕ, List, All, length, map, false, slice_get, slice_index, IsTrue, ◌↔◌, MatchOption, IfOk};
ghost use Rattle.lgc_values.specs.Logic.{operator_at};
ghost use Rattle.lgc_syntax.specs.Values.{operation};
ghost use Rattle.lgc_packed.specs.Packed.{IsPacked, marks, is_full};
ghost use Rattle.lgc_lemmas.specs.Nodes.{AreNodes, HasNumbersBelow, IsCompoundAt, is_compound_node, has_compound};
ghost use Rattle.lgc_lemmas.specs.Answers.{IsRefutedBy};

use lgc_numbering::Node;
use lgc_packed::Packed;
use lgc_values::{List, Matrix, ValueSet};
use std::alloc::{AllocError, Global};

// Whether the formula with a number is a compound.
fn is_compound(nodes: &[Node], number: u64) -> bool
    requires { number < length nodes.now }
    ensures { result ≡ is_compound_node (slice_get nodes.now number) }
{
    match &nodes[number as usize] {
        Node::Atom(_) => false,
        Node::Compound { op: _, args: _ } => true,
    }
}

/// Whether the formula at a place, counted from 0, is a compound.
pub fn is_compound_at<const N: usize>(nodes: &[Node], goal: &Packed<N>, at: usize) -> bool
    requires numbers { HasNumbersBelow (length nodes.now) goal.now }
    requires place { at < length goal.now }
    ensures { IsTrue result ↔ IsCompoundAt nodes.now goal.now at }
{
    let pairs = goal.pairs();
    is_compound(nodes, pairs[at].0)
}

/// The first place of a compound, and None where there is none.
pub fn compound_at<const N: usize>(nodes: &[Node], goal: &Packed<N>) -> Option<usize>
    requires { HasNumbersBelow (length nodes.now) goal.now }
    ensures { MatchOption result (has_compound nodes.now goal.now ≡ false) (IsCompoundAt nodes.now goal.now) }
{
    let pairs = goal.pairs();
    for i in 0..pairs.len() {
        if is_compound(nodes, pairs[i].0) {
            return Some(i);
        }
    }
    None
}

/// Values of the numbered formulas, each at its place, under which the goal is false.
pub fn refute<const N: usize>(
    alloc: Global,
    m: &Matrix<N>,
    nodes: &[Node],
    goal: &Packed<N>,
) -> Result<List<u8>, AllocError>
    requires nodes { AreNodes m.now nodes.now }
    requires numbers { HasNumbersBelow (length nodes.now) goal.now }
    requires atoms { has_compound nodes.now goal.now ≡ false }
    requires not_full { is_full N goal.now ≡ false }
    ensures { IfOk result (IsRefutedBy m.now nodes.now goal.now) }
{
    let _operators = m.operators();
    let pairs = goal.pairs();
    let mut values = List::new(alloc);
    for k in 0..nodes.len() {
        let value = match &nodes[k] {
            Node::Atom(_) => value_outside(pairs, k as u64),
            Node::Compound { op, args } => value_of(m, *op, args.items(), values.items()),
        };
        values.push(value)?;
    }
    Ok(values)
}

// A value that doesn't stand on a formula.
fn value_outside<const N: usize>(pairs: &[(u64, ValueSet<N>)], number: u64) -> u8
    requires packed { IsPacked N pairs.now }
    requires not_full { is_full N pairs.now ≡ false }
    ensures below { result < N }
    ensures outside { marks pairs.now number result ≡ false }
{
    for pair in pairs {
        let (other, sign) = *pair;
        if other == number {
            match sign.least_missing() {
                Some(value) => return value,
                None => unreachable!(),
            }
        }
    }
    0
}

// The value that an operator has where its arguments have these values.
fn value_of<const N: usize>(m: &Matrix<N>, op: u16, arguments: &[u64], values: &[u8]) -> u8
    requires known { op < length m.now.operators }
    requires arity { length arguments.now ≡ (operator_at m.now op).arity }
    requires before { All (λ argument. argument < length values.now) arguments.now }
    requires values { All (λ value. value < m.now.size) values.now }
    ensures value { result ≡ operation m.now op (map (slice_index values.now) arguments.now) }
    ensures below { result < N }
{
    let _operators = m.operators();
    let mut row: u32 = 0;
    for argument in arguments {
        row = row * N as u32 + values[*argument as usize] as u32;
    }
    m.apply(op, row)
}
