// Formulas as trees, made of nodes.
ghost use Rattle.std.specs.Prelude.{◌≡◌, ◌<◌, ◌≤◌, Some, length, map, slice_get, All, IfOk};
ghost use Rattle.lgc_numbering.specs.Numbering.{formula_at, formulas_of, AreNodesOf};

use crate::Node;
use lgc_syntax::{Formula, copy_formula};
use lgc_values::List;
use std::alloc::{AllocError, Global};

// The formula with a number.
#[cycle(formula_in)]
pub(crate) fn formula_in(alloc: Global, nodes: &[Node], k: u64) -> Result<Formula, AllocError>
    requires nodes { AreNodesOf (formulas_of nodes.now) nodes.now }
    requires within { k < length nodes.now }
    ensures { IfOk result (λ f. slice_get (formulas_of nodes.now) k ≡ Some f) }
{
    match &nodes[k as usize] {
        Node::Atom(atom) => copy_formula(alloc, atom),
        Node::Compound { op, args } => {
            Ok(Formula::Op(*op, formulas_in(alloc, nodes, args.items(), k)?))
        }
    }
}

// The formulas with these numbers, which are below a further one.
#[cycle(formula_in)]
fn formulas_in(
    alloc: Global,
    nodes: &[Node],
    numbers: &[u64],
    most: u64,
) -> Result<List<Formula>, AllocError>
    requires nodes { AreNodesOf (formulas_of nodes.now) nodes.now }
    requires most { most ≤ length nodes.now }
    requires within { All (λ a. a < most) numbers.now }
    ensures { IfOk result (λ fs. fs ≡ map (formula_at (formulas_of nodes.now)) numbers.now) }
{
    let mut formulas = List::new(alloc);
    for number in numbers {
        formulas.push(formula_in(alloc, nodes, *number)?)?;
    }
    Ok(formulas)
}
