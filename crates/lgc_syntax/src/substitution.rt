// A term put for the variable of the quantifier that stood around a formula.
//
// Bound variables are counted from the innermost quantifier, after N. G. de Bruijn, "Lambda calculus notation with nameless dummies"
// (1972). So a term without bound variables is put in as it is, and none of its variables is captured. What is left of the body stands below one
// quantifier less: variables that point past it are lowered by one.
ghost use Rattle.std.specs.Prelude.{◌≡◌, ◌+◌, ◌^◌, map, min, true, IfOk};
ghost use Rattle.lgc_syntax.specs.Variables.{has_no_bound};
ghost use Rattle.lgc_syntax.specs.Substitution.{inst, put_in, put_in_term};
ghost use Rattle.lgc_syntax.specs.Depths.{AtDepth};
ghost use Rattle.lgc_syntax.specs.Structures.{HasValueOfBody};

use crate::copy::copy_term;
use crate::formula::{Formula, Term};
use crate::names::copy_name;
use lgc_values::List;
use sqlite_items::Boxed;
use std::alloc::{AllocError, Global};

/// The instance of a quantifier's body by a term without bound variables: the term is put for the quantifier's variable. In every structure
/// the instance has the value that the body has at the term's element.
pub fn instance(alloc: Global, body: &Formula, term: &Term) -> Result<Formula, AllocError>
    requires { has_no_bound term.now ≡ true }
    ensures instance { IfOk result (λ made. made ≡ inst body.now term.now) }
    ensures value { IfOk result (λ made. HasValueOfBody body.now term.now made) }
{
    instance_at(alloc, body, term, 0)
}

/// The number of quantifiers around the body of one more quantifier.
pub fn deeper(around: u64) -> u64
    ensures { AtDepth around (λ n. min (n + 1) (2 ^ 32) ≡ result) }
{
    if around < 0x1_0000_0000 {
        around + 1
    } else {
        around
    }
}

#[cycle(instance_at)]
#[tactic(auto, using(crate::proofs::SubstitutionLaws::put_rules))]
fn instance_at(
    alloc: Global,
    body: &Formula,
    term: &Term,
    around: u64,
) -> Result<Formula, AllocError>
    ensures { IfOk result (λ made. AtDepth around (λ n. made ≡ put_in term.now body.now n)) }
{
    match body {
        Formula::Atom(name, args) => Ok(Formula::Atom(
            copy_name(alloc, name)?,
            term_instances_at(alloc, args.items(), term, around)?,
        )),
        Formula::Op(op, args) => Ok(Formula::Op(
            *op,
            instances_at(alloc, args.items(), term, around)?,
        )),
        Formula::Quant(quantifier, part) => Ok(Formula::Quant(
            *quantifier,
            Boxed::new(alloc, instance_at(alloc, part.get(), term, deeper(around))?)?,
        )),
    }
}

#[cycle(instance_at)]
fn instances_at(
    alloc: Global,
    bodies: &[Formula],
    term: &Term,
    around: u64,
) -> Result<List<Formula>, AllocError>
    ensures { IfOk result (λ made. AtDepth around (λ n. made ≡ map (λ body. put_in term.now body n) bodies.now)) }
{
    let mut made = List::new(alloc);
    for body in bodies {
        made.push(instance_at(alloc, body, term, around)?)?;
    }
    Ok(made)
}

#[cycle(term_instance_at)]
#[tactic(auto, using(crate::proofs::SubstitutionLaws::put_rules))]
fn term_instance_at(
    alloc: Global,
    part: &Term,
    term: &Term,
    around: u64,
) -> Result<Term, AllocError>
    ensures { IfOk result (λ made. AtDepth around (λ n. made ≡ put_in_term term.now part.now n)) }
{
    match part {
        Term::Bound(i) => {
            let points_to = u64::from(*i);
            if points_to < around {
                Ok(Term::Bound(*i))
            } else if points_to == around {
                Ok(copy_term(alloc, term)?)
            } else {
                Ok(Term::Bound(*i - 1))
            }
        }
        Term::Free(name) => Ok(Term::Free(copy_name(alloc, name)?)),
        Term::Apply(name, args) => Ok(Term::Apply(
            copy_name(alloc, name)?,
            term_instances_at(alloc, args.items(), term, around)?,
        )),
    }
}

#[cycle(term_instance_at)]
fn term_instances_at(
    alloc: Global,
    parts: &[Term],
    term: &Term,
    around: u64,
) -> Result<List<Term>, AllocError>
    ensures { IfOk result (λ made. AtDepth around (λ n. made ≡ map (λ part. put_in_term term.now part n) parts.now)) }
{
    let mut made = List::new(alloc);
    for part in parts {
        made.push(term_instance_at(alloc, part, term, around)?)?;
    }
    Ok(made)
}
