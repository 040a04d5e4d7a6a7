// The search for a goal's derivation.
ghost use Rattle.std.specs.Prelude.{◌≡◌, false, All, IfOk};
ghost use Rattle.lgc_clauses.specs.Rules.{OperatorRule};
ghost use Rattle.lgc_syntax.specs.Fits.{Fits};
ghost use Rattle.lgc_syntax.specs.Sizes.{has_quantifier};
ghost use Rattle.lgc_calculus.specs.RuleBook.{IsRightBook};
ghost use Rattle.lgc_lemmas.specs.Steps.{IsGrown};
ghost use Rattle.lgc_trees.specs.Outcome.{IsOutcome};

use crate::Outcome;
use crate::unfolding::unfold;
use lgc_calculus::RuleBook;
use lgc_proofs::{Found, Proofs};
use lgc_sequents::{Sequent, copy_sequent};
use lgc_values::Matrix;
use std::alloc::{AllocError, Global};

/// A derivation of a goal, or a valuation under which the goal is false. The derivation's conclusion is the goal, its steps are by rules of the
/// book, to which those that are wanted are appended, its formulas are subformulas of the goal, and no way down has more steps than the goal
/// has operators. The rules stay where memory is wanting.
///
/// A sequent that several steps need is derived for each of them anew, so a derivation may take exponentially more memory than the lines of
/// [`Proofs`] do.
pub fn search<const N: usize>(
    alloc: Global,
    m: &Matrix<N>,
    book: &mut RuleBook<N>,
    goal: &Sequent<N>,
) -> Result<Outcome<N>, AllocError>
    requires fits { All (λ item. Fits m.now item.formula) goal.now }
    requires propositional { All (λ item. has_quantifier item.formula ≡ false) goal.now }
    requires right { IsRightBook m.now book.old }
    ensures outcome { IfOk result (IsOutcome m.now book.new goal.now) }
    ensures rules { IsGrown OperatorRule book.old book.new }
    ensures right { IsRightBook m.now book.new }
{
    let _operators = m.operators();
    let _items = goal.items();
    let mut proofs = Proofs::new(alloc);
    match proofs.prove(alloc, m, book, goal)? {
        Found::Line(position) => {
            let conclusion = copy_sequent(alloc, goal)?;
            let derivation = unfold(alloc, proofs.lines(), position, conclusion)?;
            Ok(Outcome::Derived(derivation))
        }
        Found::Refuted(valuation) => Ok(Outcome::Refuted(valuation)),
    }
}
