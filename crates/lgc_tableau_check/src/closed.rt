// Whether a tableau is closed for a goal.
ghost use Rattle.std.specs.Prelude.{◌≡◌, ◌↔◌, IsTrue};
ghost use Rattle.lgc_values.specs.Values.{IsSize};
ghost use Rattle.lgc_tableau.specs.ClosedTableaux.{IsClosed, AreClosed};
ghost use Rattle.lgc_tableau_check.specs.Branches.{items_of};

use crate::branch::{Branch, sign_on};
use crate::split::is_split;
use lgc_sequents::{Sequent, Signed};
use lgc_tableau::{Case, Tableau};
use lgc_values::Matrix;

/// Whether a tableau is closed for a goal: whether on each branch some formula has all truth values, where each split is of a compound with
/// just the values that it has on the branch, and has a case for each clause of an exact rule of its operator at this sign. The formulas may be
/// any, and may have quantifiers.
pub fn is_closed<const N: usize>(m: &Matrix<N>, goal: &Sequent<N>, t: &Tableau<Signed<N>>) -> bool
    ensures { IsTrue result ↔ IsClosed m.now goal.now t.now }
{
    is_closed_on(t, m, &Branch::Goal(goal.items()))
}

#[cycle(is_closed_on)]
fn is_closed_on<'a, const N: usize>(
    t: &'a Tableau<Signed<N>>,
    m: &Matrix<N>,
    branch: &'a Branch<'a, Signed<N>>,
) -> bool
    ensures { IsTrue result ↔ IsClosed m.now (items_of branch.now) t.now }
{
    let _operators = m.operators();
    match t {
        Tableau::Closed { by } => sign_on(branch, by).is_full(),
        Tableau::Split { on, cases } => {
            is_split(m, branch, on, cases.items()) && are_closed(cases.items(), m, branch)
        }
    }
}

#[cycle(is_closed_on)]
fn are_closed<'a, const N: usize>(
    cases: &'a [Case<Signed<N>>],
    m: &Matrix<N>,
    branch: &'a Branch<'a, Signed<N>>,
) -> bool
    ensures { IsTrue result ↔ AreClosed m.now (items_of branch.now) cases.now }
{
    for case in cases {
        if !is_closed_on(
            case.below.get(),
            m,
            &Branch::Case(branch, case.added.items()),
        ) {
            return false;
        }
    }
    true
}
