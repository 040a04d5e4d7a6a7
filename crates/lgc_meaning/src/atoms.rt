// The atoms of a query.
ghost use Rattle.std.specs.Prelude.{◌≡◌, ◌≢◌, true, All, AllPairs, IfOk, OnOk};
ghost use Rattle.std.specs.List.{list_any, flat_map, fold};
ghost use Rattle.lgc_syntax.specs.Equality.{same_formula};
ghost use Rattle.lgc_meaning.specs.Valuations.{is_atom, atom_places, with_atom, each_once};
ghost use Rattle.lgc_meaning.specs.Queries.{sides, formulas_of};

use crate::{Pair, Query};
use lgc_syntax::{Formula, copy_formula, same_formula};
use lgc_values::List;
use std::alloc::{AllocError, Global};

/// The atoms of a query, each once, in the order of their first places. Those below quantifiers are atoms too, with their bound
/// variables as they stand.
pub fn atoms_of(alloc: Global, q: &Query) -> Result<List<Formula>, AllocError>
    ensures list { IfOk result (λ atoms. atoms ≡ each_once (flat_map atom_places (formulas_of q.now))) }
    ensures atoms { IfOk result (All (λ atom. is_atom atom ≡ true)) }
    ensures distinct { IfOk result (AllPairs (λ a b. a ≢ b)) }
{
    let mut atoms = List::new(alloc);
    add_of_query(alloc, q, &mut atoms)?;
    Ok(atoms)
}

// Adds the atoms of a query that aren't there yet.
fn add_of_query(alloc: Global, q: &Query, atoms: &mut List<Formula>) -> Result<(), AllocError>
    ensures { OnOk result (atoms.new ≡ fold with_atom atoms.old (flat_map atom_places (formulas_of q.now))) }
{
    match q {
        Query::Mixed {
            premises,
            conclusions,
            ..
        } => {
            add_of_formulas(alloc, premises.items(), atoms)?;
            add_of_formulas(alloc, conclusions.items(), atoms)
        }
        Query::Equation(pair) => add_of_pair(alloc, pair, atoms),
        Query::Quasi {
            premises,
            conclusion,
        } => {
            add_of_pairs(alloc, premises.items(), atoms)?;
            add_of_pair(alloc, conclusion, atoms)
        }
    }
}

// Adds the atoms of equations that aren't there yet.
#[tactic(auto, using(crate::proofs::Places::atom_rules))]
fn add_of_pairs(alloc: Global, pairs: &[Pair], atoms: &mut List<Formula>) -> Result<(), AllocError>
    ensures { OnOk result (atoms.new ≡ fold with_atom atoms.old (flat_map atom_places (flat_map sides pairs.now))) }
{
    for pair in pairs {
        add_of_pair(alloc, pair, atoms)?;
    }
    Ok(())
}

// Adds the atoms of an equation that aren't there yet.
#[tactic(auto, using(crate::proofs::Places::atom_rules))]
fn add_of_pair(alloc: Global, pair: &Pair, atoms: &mut List<Formula>) -> Result<(), AllocError>
    ensures { OnOk result (atoms.new ≡ fold with_atom atoms.old (flat_map atom_places (sides pair.now))) }
{
    add_of_formula(alloc, &pair.left, atoms)?;
    add_of_formula(alloc, &pair.right, atoms)
}

// Adds the atoms of a formula that aren't there yet.
#[cycle(add_of_formula)]
#[tactic(auto, using(crate::proofs::Places::atom_rules))]
fn add_of_formula(alloc: Global, f: &Formula, atoms: &mut List<Formula>) -> Result<(), AllocError>
    ensures { OnOk result (atoms.new ≡ fold with_atom atoms.old (atom_places f.now)) }
{
    match f {
        Formula::Atom(_, _) => add_atom(alloc, f, atoms),
        Formula::Op(_, args) => add_of_formulas(alloc, args.items(), atoms),
        Formula::Quant(_, body) => add_of_formula(alloc, body.get(), atoms),
    }
}

// Adds the atoms of formulas that aren't there yet.
#[cycle(add_of_formula)]
#[tactic(auto, using(crate::proofs::Places::atom_rules))]
fn add_of_formulas(
    alloc: Global,
    fs: &[Formula],
    atoms: &mut List<Formula>,
) -> Result<(), AllocError>
    ensures { OnOk result (atoms.new ≡ fold with_atom atoms.old (flat_map atom_places fs.now)) }
{
    for f in fs {
        add_of_formula(alloc, f, atoms)?;
    }
    Ok(())
}

// Adds an atom if it isn't there yet.
fn add_atom(alloc: Global, atom: &Formula, atoms: &mut List<Formula>) -> Result<(), AllocError>
    ensures { OnOk result (atoms.new ≡ with_atom atoms.old atom.now) }
{
    if is_among(atom, atoms.items()) {
        return Ok(());
    }
    atoms.push(copy_formula(alloc, atom)?)
}

// Whether a formula is one of a list.
fn is_among(f: &Formula, others: &[Formula]) -> bool
    ensures { result ≡ list_any (same_formula f.now) others.now }
{
    for other in others {
        if same_formula(f, other) {
            return true;
        }
    }
    false
}
