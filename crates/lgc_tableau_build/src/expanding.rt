// The rule for a compound, as what its clauses add to a branch.
ghost use Rattle.std.specs.Prelude.{◌≡◌, ◌≢◌, ℕ, List, [], map, slice_get, Some, All, IfOk};
ghost use Rattle.std.specs.List.{zip};
ghost use Rattle.lgc_clauses.specs.Rules.{OperatorRule};
ghost use Rattle.lgc_syntax.specs.declared.formula.Formula.{Formula, Op};
ghost use Rattle.lgc_syntax.specs.Fits.{Fits};
ghost use Rattle.lgc_calculus.specs.RuleBook.{IsRightBook};
ghost use Rattle.lgc_lemmas.specs.Steps.{IsGrown};
ghost use Rattle.lgc_packed.specs.Packing.{AreKnown};
ghost use Rattle.lgc_tableau_build.specs.Building.{IsExpanded};

use lgc_calculus::RuleBook;
use lgc_clauses::Clause;
use lgc_numbering::{Formulas, Node};
use lgc_values::{List, Matrix, ValueSet};
use std::alloc::{AllocError, Global};

// The clauses of the rule for a compound at a sign, each as the pairs of the arguments' numbers and its sets.
pub(crate) fn expand<const N: usize>(
    alloc: Global,
    m: &Matrix<N>,
    formulas: &Formulas,
    book: &mut RuleBook<N>,
    k: usize,
    sign: ValueSet<N>,
) -> Result<List<List<(u64, ValueSet<N>)>>, AllocError>
    requires fit { All (Fits m.now) formulas.now }
    requires compound { (op : ℕ) × (args : List Formula) × (slice_get formulas.now k ≡ Some (Op op args)) }
    requires nonempty { sign ≢ [] }
    requires right { IsRightBook m.now book.old }
    ensures expanded { IfOk result (IsExpanded book.new formulas.now k sign.entry) }
    ensures known { IfOk result (All (AreKnown formulas.now)) }
    ensures rules { IsGrown OperatorRule book.old book.new }
    ensures right { IsRightBook m.now book.new }
{
    let _operators = m.operators();
    let nodes = formulas.nodes();
    match &nodes[k] {
        Node::Atom(_) => unreachable!(),
        Node::Compound { op, args } => {
            let number = book.rule_for(m, *op, sign)?;
            let rule = &book.rules()[number as usize - 1];
            pairs_of_clauses(alloc, args.items(), rule.clauses.items())
        }
    }
}

fn pairs_of_clauses<const N: usize>(
    alloc: Global,
    args: &[u64],
    clauses: &[Clause<N>],
) -> Result<List<List<(u64, ValueSet<N>)>>, AllocError>
    ensures { IfOk result (λ pairs. pairs ≡ map (zip args.now) clauses.now) }
{
    let mut all = List::new(alloc);
    for clause in clauses {
        all.push(pairs_of(alloc, args, clause.sets.items())?)?;
    }
    Ok(all)
}

fn pairs_of<const N: usize>(
    alloc: Global,
    args: &[u64],
    sets: &[ValueSet<N>],
) -> Result<List<(u64, ValueSet<N>)>, AllocError>
    ensures { IfOk result (λ pairs. pairs ≡ zip args.now sets.now) }
{
    let mut pairs = List::new(alloc);
    for i in 0..args.len() {
        if i < sets.len() {
            pairs.push((args[i], sets[i]))?;
        }
    }
    Ok(pairs)
}
