// Goals that are sequents.
ghost use Rattle.std.specs.Prelude.{◌≡◌, false, length, slice_index, All, IfOk};
ghost use Rattle.lgc_clauses.specs.Rules.{OperatorRule};
ghost use Rattle.lgc_syntax.specs.Fits.{Fits};
ghost use Rattle.lgc_syntax.specs.Sizes.{has_quantifier};
ghost use Rattle.lgc_calculus.specs.RuleBook.{IsRightBook};
ghost use Rattle.lgc_lemmas.specs.Steps.{IsGrown};
ghost use Rattle.lgc_decision.specs.Atoms.{HasAtomsBelow};
ghost use Rattle.lgc_decision.specs.Decided.{IsDecided};

use crate::Decided;
use lgc_calculus::RuleBook;
use lgc_lemmas::Lemmas;
use lgc_meaning::Valuation;
use lgc_numbering::{Formulas, Node};
use lgc_packed::pack;
use lgc_search::{Answer, prove};
use lgc_sequents::Sequent;
use lgc_syntax::copy_formula;
use lgc_values::Matrix;
use std::alloc::{AllocError, Global};

/// What is decided of a goal: it includes a lemma, and is true under every valuation, or it is false under a valuation of its atoms. The
/// lemmas are over the goal's subformulas, and are steps by rules of the book, to which those that are wanted are appended. They stay where
/// memory is wanting.
pub fn decide<const N: usize>(
    alloc: Global,
    m: &Matrix<N>,
    book: &mut RuleBook<N>,
    goal: &Sequent<N>,
) -> Result<Decided<N>, AllocError>
    requires fits { All (λ item. Fits m.now item.formula) goal.now }
    requires propositional { All (λ item. has_quantifier item.formula ≡ false) goal.now }
    requires right { IsRightBook m.now book.old }
    ensures decided { IfOk result (IsDecided m.now book.new goal.now) }
    ensures rules { IsGrown OperatorRule book.old book.new }
    ensures right { IsRightBook m.now book.new }
{
    let _operators = m.operators();
    let _items = goal.items();
    let mut formulas = Formulas::new(alloc);
    let packed = pack(alloc, goal, &mut formulas)?;
    let mut lemmas = Lemmas::new(alloc);
    match prove(alloc, m, formulas.nodes(), book, &mut lemmas, &packed)? {
        Answer::Proved(place) => Ok(Decided::Proved {
            formulas,
            lemmas,
            place,
        }),
        Answer::Refuted(values) => {
            let valuation = valuation_of(alloc, &formulas, values.items())?;
            Ok(Decided::Refuted(valuation))
        }
    }
}

// The numbered atoms with the values that a list has at their numbers.
fn valuation_of(alloc: Global, formulas: &Formulas, values: &[u8]) -> Result<Valuation, AllocError>
    ensures { IfOk result (HasAtomsBelow (length formulas.now) formulas.now values.now) }
{
    let nodes = formulas.nodes();
    let mut valuation = Valuation::new(alloc);
    for k in 0..nodes.len() {
        match &nodes[k] {
            Node::Atom(atom) => {
                let value = value_at(values, k);
                let copy = copy_formula(alloc, atom)?;
                valuation.set(copy, value)?;
            }
            Node::Compound { op: _, args: _ } => {}
        }
    }
    Ok(valuation)
}

// The value at a number, and 0 past the end.
fn value_at(values: &[u8], k: usize) -> u8
    ensures { result ≡ slice_index values.now k }
{
    if k < values.len() { values[k] } else { 0 }
}
