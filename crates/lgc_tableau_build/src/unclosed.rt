// Valuations of the atoms of a goal.
ghost use Rattle.std.specs.Prelude.{◌≡◌, ◌<◌, length, map, All, IfOk};
ghost use Rattle.lgc_syntax.specs.Fits.{Fits};
ghost use Rattle.lgc_syntax.specs.Values.{listed, value};
ghost use Rattle.lgc_tableau_build.specs.Building.{ListsAtomsBelow};

use lgc_meaning::{Valuation, value_of};
use lgc_numbering::{Formulas, Node};
use lgc_syntax::copy_formula;
use lgc_values::Matrix;
use std::alloc::{AllocError, Global};

// The valuation that lists the numbered atoms, with their values under another one.
pub(crate) fn values_of_atoms<const N: usize>(
    alloc: Global,
    m: &Matrix<N>,
    formulas: &Formulas,
    valuation: &Valuation,
) -> Result<Valuation, AllocError>
    requires fit { All (Fits m.now) formulas.now }
    requires values { All (λ entry. entry.1 < N) valuation.now }
    ensures { IfOk result (ListsAtomsBelow (length formulas.now) formulas.now (map (value m.now (listed valuation.now)) formulas.now)) }
{
    let nodes = formulas.nodes();
    let mut values = Valuation::new(alloc);
    for k in 0..nodes.len() {
        match &nodes[k] {
            Node::Atom(atom) => {
                let value = value_of(m, valuation, atom);
                let copy = copy_formula(alloc, atom)?;
                values.set(copy, value)?;
            }
            Node::Compound { op: _, args: _ } => {}
        }
    }
    Ok(values)
}
