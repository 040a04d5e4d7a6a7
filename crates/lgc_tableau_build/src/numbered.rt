// A goal by the numbers of its formulas.
ghost use Rattle.std.specs.Prelude.{◌≡◌, false, map, All, IfOk, Some};
ghost use Rattle.std.specs.List.{Any};
ghost use Rattle.lgc_syntax.specs.Sizes.{has_quantifier};
ghost use Rattle.lgc_syntax.specs.Subformulas.{IsSubformula};
ghost use Rattle.lgc_numbering.specs.Numbering.{IsNumbering};
ghost use Rattle.lgc_numbering.specs.Growth.{IsGrownBy};
ghost use Rattle.lgc_lemmas.specs.Nodes.{is_compound_node};
ghost use Rattle.lgc_tableau_build.specs.Numbers.{IsNumbered};

use lgc_numbering::{Formulas, Node};
use lgc_sequents::Sequent;
use lgc_values::{List, ValueSet};
use std::alloc::{AllocError, Global};

// The items of a goal in their order, each by the number of its formula. Formulas that have no number yet are appended with their subformulas.
pub(crate) fn numbered<const N: usize>(
    alloc: Global,
    goal: &Sequent<N>,
    formulas: &mut Formulas,
) -> Result<List<(u64, ValueSet<N>)>, AllocError>
    requires { All (λ item. has_quantifier item.formula ≡ false) goal.now }
    ensures numbered { IfOk result (IsNumbered formulas.new goal.now) }
    ensures grown { IsGrownBy (λ g. Any (λ item. IsSubformula g item.formula) goal.now) formulas.old formulas.new }
    ensures numbering { IsNumbering formulas.new }
{
    // The formulas are numbered already: `nodes` says so.
    let _nodes = formulas.nodes();
    let items = goal.items();
    let mut pairs = List::new(alloc);
    for item in items {
        let number = formulas.number_of(&item.formula)?;
        pairs.push((number, item.sign))?;
    }
    Ok(pairs)
}

// Which nodes are compounds.
pub(crate) fn compounds(alloc: Global, nodes: &[Node]) -> Result<List<bool>, AllocError>
    ensures { IfOk result (λ left. left ≡ map (λ node. is_compound_node (Some node)) nodes.now) }
{
    let mut left = List::new(alloc);
    for node in nodes {
        left.push(is_compound(node))?;
    }
    Ok(left)
}

fn is_compound(node: &Node) -> bool
    ensures { result ≡ is_compound_node (Some node.now) }
{
    match node {
        Node::Atom(_) => false,
        Node::Compound { op: _, args: _ } => true,
    }
}
