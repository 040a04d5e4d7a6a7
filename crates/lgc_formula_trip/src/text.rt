// The text of formulas and terms.
ghost use Rattle.std.specs.Prelude.{◌≡◌, false, IfOk};
ghost use Rattle.lgc_print.specs.FormulaText.{term_text, formula_text};
ghost use Rattle.lgc_formulas.specs.declared.formula.TheConstants.{MOST_NODES};
ghost use Rattle.lgc_formulas.specs.Writable.{IsWritableTerm, IsWritable};
ghost use Rattle.lgc_formula_trip.specs.ReadBack.{IsReadAsFormula, IsReadAsTerm};

use lgc_print::{write_formula, write_term};
use lgc_syntax::{Formula, Term};
use lgc_values::Matrix;
use std::alloc::{AllocError, Global};

/// The text of a formula of the logic, whose names can be read and which is no larger than what is read.
///
/// Where the text has fewer than 2^32 bytes the formula is its `IsFormulaText`, and so `read_formula` answers it, by its clause `complete`.
pub fn text_of_formula<const N: usize>(
    alloc: Global,
    m: &Matrix<N>,
    f: &Formula,
) -> Result<Vec<u8>, AllocError>
    requires { IsWritable m.now false MOST_NODES f.now }
    ensures text { IfOk result (λ text. text.items ≡ formula_text m.now f.now) }
    // The grammar of whole formulas derives this formula from it.
    ensures read_back { IfOk result (λ text. IsReadAsFormula m.now text.items f.now) }
{
    let _names = m.names();
    let mut text = Vec::new(alloc);
    write_formula(alloc, m, f, &mut text)?;
    Ok(text)
}

/// The text of a term without bound variables, whose names can be read and which is no larger than what is read.
pub fn text_of_term(alloc: Global, t: &Term) -> Result<Vec<u8>, AllocError>
    requires { IsWritableTerm false MOST_NODES t.now }
    ensures text { IfOk result (λ text. text.items ≡ term_text t.now 0) }
    // The grammar of terms derives this term from it, and `term_at` answers it.
    ensures read_back { IfOk result (λ text. IsReadAsTerm text.items t.now) }
{
    let mut text = Vec::new(alloc);
    write_term(alloc, t, &mut text)?;
    Ok(text)
}
