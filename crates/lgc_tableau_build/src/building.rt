// Tableaux of goals.
ghost use Rattle.std.specs.Prelude.{◌≡◌, false, All, IfOk};
ghost use Rattle.lgc_clauses.specs.Rules.{OperatorRule};
ghost use Rattle.lgc_syntax.specs.Fits.{Fits};
ghost use Rattle.lgc_syntax.specs.Sizes.{has_quantifier};
ghost use Rattle.lgc_calculus.specs.RuleBook.{IsRightBook};
ghost use Rattle.lgc_lemmas.specs.Steps.{IsGrown};
ghost use Rattle.lgc_tableau_build.specs.Built.{IsBuilt};

use crate::Built;
use crate::closing::close;
use crate::numbered::{compounds, numbered};
use crate::opened::Branch;
use crate::unclosed::values_of_atoms;
use lgc_calculus::RuleBook;
use lgc_decision::{Decided, decide};
use lgc_numbering::Formulas;
use lgc_sequents::Sequent;
use lgc_values::Matrix;
use std::alloc::{AllocError, Global};

/// A tableau that is closed for a goal, where every valuation makes the goal true, and else a valuation of its atoms under which it is false.
///
/// Each split is on a subformula of the goal that isn't split above, by a rule of the book, to which those that are wanted are appended. A branch
/// is closed as soon as some formula has all truth values there, by the first such formula, read from the goal down. The rules stay where
/// memory is wanting, which is the only cause of a failure.
pub fn build<const N: usize>(
    alloc: Global,
    m: &Matrix<N>,
    book: &mut RuleBook<N>,
    goal: &Sequent<N>,
) -> Result<Built<N>, AllocError>
    requires fits { All (λ item. Fits m.now item.formula) goal.now }
    requires propositional { All (λ item. has_quantifier item.formula ≡ false) goal.now }
    requires right { IsRightBook m.now book.old }
    ensures built { IfOk result (IsBuilt m.now book.new goal.now) }
    ensures rules { IsGrown OperatorRule book.old book.new }
    ensures right { IsRightBook m.now book.new }
{
    let _operators = m.operators();
    let _items = goal.items();
    let mut formulas = Formulas::new(alloc);
    let pairs = numbered(alloc, goal, &mut formulas)?;
    let nodes = formulas.nodes();
    match decide(alloc, m, book, goal)? {
        Decided::Proved {
            formulas: _,
            lemmas: _,
            place: _,
        } => {
            let left = compounds(alloc, nodes)?;
            let branch = Branch { left, pairs };
            let tableau = close(alloc, m, &formulas, book, &branch)?;
            Ok(Built::Closed(tableau))
        }
        Decided::Refuted(valuation) => {
            let values = values_of_atoms(alloc, m, &formulas, &valuation)?;
            let _entries = values.entries();
            Ok(Built::Unclosed(values))
        }
    }
}
