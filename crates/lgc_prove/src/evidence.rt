// The evidence for one query.
ghost use Rattle.std.specs.Prelude.{◌≡◌, ◌<◌, All, IfOk, OnOk};
ghost use Rattle.lgc_syntax.specs.Values.{listed};
ghost use Rattle.lgc_meaning.specs.Queries.{FitsQuery, IsPropositional};
ghost use Rattle.lgc_goals.specs.Goals.{goal_count};
ghost use Rattle.lgc_queries.specs.Asked.{IsAsked};
ghost use Rattle.lgc_prove.specs.Work.{IsFoundAt, IsAnsweredBy, AreLinesBy, AreAppendedFor, atoms_with_values};

use lgc_calculus::RuleBook;
use lgc_goals::{goal_at, goal_count};
use lgc_meaning::{Query, Valuation, atoms_of, value_of};
use lgc_proofs::{Found, Proofs};
use lgc_report::Evidence;
use lgc_values::{List, Matrix};
use std::alloc::{AllocError, Global};

// The lines of the goals of a query, or a valuation of its atoms that doesn't satisfy it. For the former the lines that are wanted are
// appended; for the latter none are left behind those that stood before.
pub(crate) fn evidence_for<const N: usize>(
    alloc: Global,
    m: &Matrix<N>,
    book: &mut RuleBook<N>,
    proofs: &mut Proofs<N>,
    query: &Query,
) -> Result<Evidence, AllocError>
    requires asked { IsAsked m.now query.now }
    requires lines { AreLinesBy m.now book.old proofs.old }
    ensures evidence { IfOk result (IsAnsweredBy m.now proofs.new query.now) }
    ensures lines { OnOk result (AreLinesBy m.now book.new proofs.new) }
    ensures appended { OnOk result (AreAppendedFor query.now proofs.old proofs.new) }
{
    let _operators = m.operators();
    let count = proofs.lines().len() as u64;
    let mut cited = List::new(alloc);
    for place in 0..goal_count(m, query) {
        match found_at(alloc, m, book, proofs, query, place)? {
            Found::Line(position) => cited.push(position)?,
            Found::Refuted(v) => {
                proofs.truncate(count);
                let values = values_of_atoms(alloc, m, query, &v)?;
                return Ok(Evidence::Refuted(values));
            }
        }
    }
    Ok(Evidence::Proved(cited))
}

// What is found of the goal of a query at a place, counted from 0.
fn found_at<const N: usize>(
    alloc: Global,
    m: &Matrix<N>,
    book: &mut RuleBook<N>,
    proofs: &mut Proofs<N>,
    query: &Query,
    place: u32,
) -> Result<Found, AllocError>
    requires asked { IsAsked m.now query.now }
    requires within { place < goal_count N query.now }
    requires lines { AreLinesBy m.now book.old proofs.old }
    ensures found { IfOk result (IsFoundAt m.now proofs.new query.now place) }
    ensures lines { OnOk result (AreLinesBy m.now book.new proofs.new) }
    ensures appended { OnOk result (AreAppendedFor query.now proofs.old proofs.new) }
{
    let _operators = m.operators();
    let goal = goal_at(alloc, m, query, place)?;
    let _items = goal.items();
    proofs.prove(alloc, m, book, &goal)
}

// The valuation that lists the atoms of a query with their values under another one.
fn values_of_atoms<const N: usize>(
    alloc: Global,
    m: &Matrix<N>,
    query: &Query,
    v: &Valuation,
) -> Result<Valuation, AllocError>
    requires fits { FitsQuery m.now query.now }
    requires propositional { IsPropositional query.now }
    requires values { All (λ entry. entry.1 < N) v.now }
    ensures { IfOk result (λ values. values ≡ atoms_with_values m.now (listed v.now) query.now) }
{
    let atoms = atoms_of(alloc, query)?;
    let mut values = Valuation::new(alloc);
    for atom in atoms.into_vec() {
        let value = value_of(m, v, &atom);
        values.set(atom, value)?;
    }
    Ok(values)
}
