// Whether valuations refute queries.
ghost use Rattle.std.specs.Prelude.{◌≡◌, ◌<◌, ◌↔◌, not, IsTrue, All, IfOk};
ghost use Rattle.std.specs.List.{list_all, list_any, flat_map};
ghost use Rattle.lgc_syntax.specs.Equality.{same_formula};
ghost use Rattle.lgc_syntax.specs.Sizes.{has_quantifier};
ghost use Rattle.lgc_meaning.specs.Queries.{sides, formulas_of, FitsQuery};
ghost use Rattle.lgc_report.specs.Valid.{ListsAtoms, IsRefutation};

use lgc_meaning::{Pair, Query, Valuation, atoms_of, satisfies};
use lgc_syntax::{Formula, has_quantifier, same_formula};
use lgc_values::Matrix;
use std::alloc::{AllocError, Global};

// ---- quantifiers

fn have_no_quantifier(formulas: &[Formula]) -> bool
    ensures { result ≡ list_all (λ f. not (has_quantifier f)) formulas.now }
{
    for formula in formulas {
        if has_quantifier(formula) {
            return false;
        }
    }
    true
}

fn has_no_quantifier(pair: &Pair) -> bool
    ensures { result ≡ list_all (λ f. not (has_quantifier f)) (sides pair.now) }
{
    !has_quantifier(&pair.left) && !has_quantifier(&pair.right)
}

#[tactic(auto, using(crate::proofs::Refutations::list_rules))]
fn have_no_quantifiers(pairs: &[Pair]) -> bool
    ensures { result ≡ list_all (λ f. not (has_quantifier f)) (flat_map sides pairs.now) }
{
    for pair in pairs {
        if !has_no_quantifier(pair) {
            return false;
        }
    }
    true
}

#[tactic(auto, using(crate::proofs::Refutations::list_rules))]
fn is_propositional(query: &Query) -> bool
    ensures { result ≡ list_all (λ f. not (has_quantifier f)) (formulas_of query.now) }
{
    match query {
        Query::Mixed {
            premises,
            conclusions,
            ..
        } => have_no_quantifier(premises.items()) && have_no_quantifier(conclusions.items()),
        Query::Equation(pair) => has_no_quantifier(pair),
        Query::Quasi {
            premises,
            conclusion,
        } => have_no_quantifiers(premises.items()) && has_no_quantifier(conclusion),
    }
}

// ---- atoms

fn is_among(f: &Formula, others: &[Formula]) -> bool
    ensures { result ≡ list_any (same_formula f.now) others.now }
{
    for other in others {
        if same_formula(f, other) {
            return true;
        }
    }
    false
}

fn is_listed(f: &Formula, entries: &[(Formula, u8)]) -> bool
    ensures { result ≡ list_any (λ entry. same_formula f.now entry.0) entries.now }
{
    for entry in entries {
        if same_formula(f, &entry.0) {
            return true;
        }
    }
    false
}

// Whether each entry has one of some atoms.
fn have_atoms(entries: &[(Formula, u8)], atoms: &[Formula]) -> bool
    ensures { result ≡ list_all (λ entry. list_any (same_formula entry.0) atoms.now) entries.now }
{
    for entry in entries {
        if !is_among(&entry.0, atoms) {
            return false;
        }
    }
    true
}

// Whether each of some atoms has an entry.
fn are_listed(atoms: &[Formula], entries: &[(Formula, u8)]) -> bool
    ensures { result ≡ list_all (λ atom. list_any (λ entry. same_formula atom entry.0) entries.now) atoms.now }
{
    for atom in atoms {
        if !is_listed(atom, entries) {
            return false;
        }
    }
    true
}

// Whether a valuation lists the atoms of a query.
fn lists_atoms(alloc: Global, query: &Query, v: &Valuation) -> Result<bool, AllocError>
    ensures { IfOk result (λ lists. IsTrue lists ↔ ListsAtoms query.now v.now) }
{
    let atoms = atoms_of(alloc, query)?;
    let entries = v.entries();
    if !have_atoms(entries, atoms.items()) {
        return Ok(false);
    }
    Ok(are_listed(atoms.items(), entries))
}

// ---- refutations

// Whether a valuation refutes a query: the query has no quantifier, and the valuation lists its atoms and doesn't satisfy it.
pub(crate) fn is_refutation<const N: usize>(
    alloc: Global,
    m: &Matrix<N>,
    query: &Query,
    v: &Valuation,
) -> Result<bool, AllocError>
    requires fits { FitsQuery m.now query.now }
    requires values { All (λ entry. entry.1 < N) v.now }
    ensures { IfOk result (λ refutes. IsTrue refutes ↔ IsRefutation m.now query.now v.now) }
{
    let _operators = m.operators();
    if !is_propositional(query) {
        return Ok(false);
    }
    if !lists_atoms(alloc, query, v)? {
        return Ok(false);
    }
    Ok(!satisfies(m, v, query))
}
