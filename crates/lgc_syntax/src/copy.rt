// Copies of terms and formulas.
ghost use Rattle.std.specs.Prelude.{◌≡◌, IfOk};

use crate::formula::{Formula, Term};
use crate::names::copy_name;
use lgc_values::List;
use sqlite_items::Boxed;
use std::alloc::{AllocError, Global};

/// A copy of a term.
#[cycle(copy_term)]
pub fn copy_term(alloc: Global, term: &Term) -> Result<Term, AllocError>
    ensures { IfOk result (λ copy. copy ≡ term.now) }
{
    match term {
        Term::Bound(i) => Ok(Term::Bound(*i)),
        Term::Free(name) => Ok(Term::Free(copy_name(alloc, name)?)),
        Term::Apply(name, args) => Ok(Term::Apply(
            copy_name(alloc, name)?,
            copy_terms(alloc, args.items())?,
        )),
    }
}

#[cycle(copy_term)]
fn copy_terms(alloc: Global, terms: &[Term]) -> Result<List<Term>, AllocError>
    ensures { IfOk result (λ copies. copies ≡ terms.now) }
{
    let mut copies = List::new(alloc);
    for term in terms {
        copies.push(copy_term(alloc, term)?)?;
    }
    Ok(copies)
}

/// A copy of a formula.
#[cycle(copy_formula)]
pub fn copy_formula(alloc: Global, formula: &Formula) -> Result<Formula, AllocError>
    ensures { IfOk result (λ copy. copy ≡ formula.now) }
{
    match formula {
        Formula::Atom(name, args) => Ok(Formula::Atom(
            copy_name(alloc, name)?,
            copy_terms(alloc, args.items())?,
        )),
        Formula::Op(op, args) => Ok(Formula::Op(*op, copy_formulas(alloc, args.items())?)),
        Formula::Quant(quantifier, body) => Ok(Formula::Quant(
            *quantifier,
            Boxed::new(alloc, copy_formula(alloc, body.get())?)?,
        )),
    }
}

#[cycle(copy_formula)]
fn copy_formulas(alloc: Global, formulas: &[Formula]) -> Result<List<Formula>, AllocError>
    ensures { IfOk result (λ copies. copies ≡ formulas.now) }
{
    let mut copies = List::new(alloc);
    for formula in formulas {
        copies.push(copy_formula(alloc, formula)?)?;
    }
    Ok(copies)
}
