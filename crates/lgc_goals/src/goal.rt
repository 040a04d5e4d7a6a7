// The goals of a query.
ghost use Rattle.std.specs.Prelude.{◌≡◌, ◌<◌, ◌≤◌, ◌^◌, ◌+◌, [], ◌∷◌, length, slice_get, slice_index, Some, IfOk, OnOk};
ghost use Rattle.std.specs.List.{fold, flat_map, zip};
ghost use Rattle.lgc_values.specs.Values.{IsSize};
ghost use Rattle.lgc_values.specs.Logic.{arguments_at};
ghost use Rattle.lgc_meaning.specs.Queries.{HasSetsBelow};
ghost use Rattle.lgc_goals.specs.declared.TheConstants.{MOST_GOALS};
ghost use Rattle.lgc_goals.specs.Goals.{goal_count, each_signed, with_signed, mixed_goal, premise_items, quasi_goal, quasi_goals, goals_of};
ghost use Rattle.lgc_goals.specs.Truth.{Agree, AgreeUnderValuations, AgreeInStructures};

use lgc_meaning::{Pair, Query};
use lgc_sequents::Sequent;
use lgc_syntax::{Formula, copy_formula};
use lgc_values::{List, Matrix, ValueSet, argument_at};
use std::alloc::{AllocError, Global};

/// The goals of a query. It is satisfied exactly where each of them is true: under every valuation, and in every structure under every
/// assignment.
///
/// A mixed entailment has one goal: some premise takes a value that isn't in the set `given`, or some conclusion one in the set `wanted`.
/// A quasi-equation has a goal for each tuple of values, of which each premise has one and the conclusion the last: a side of some premise
/// takes another value than the premise's, or the left side of the conclusion takes another one than the last, or the right side takes the
/// last. The tuples rise, and the first value is the most significant. An equation is a quasi-equation without premises.
pub fn goals<const N: usize>(
    alloc: Global,
    m: &Matrix<N>,
    q: &Query,
) -> Result<List<Sequent<N>>, AllocError>
    requires sets { HasSetsBelow N q.now }
    requires few { goal_count N q.now ≤ MOST_GOALS }
    ensures goals { IfOk result (λ goals. goals ≡ goals_of N q.now) }
    ensures count { IfOk result (λ goals. length goals ≡ goal_count N q.now) }
    ensures truth { IfOk result (Agree N q.now) }
    ensures valuations { IfOk result (AgreeUnderValuations m.now q.now) }
    ensures structures { IfOk result (AgreeInStructures m.now q.now) }
{
    let _operators = m.operators();
    goals_by_kind(alloc, q)
}

/// How many goals a query has: a mixed entailment one, an equation as many as there are truth values, and a quasi-equation as many as
/// there are ways to choose a truth value for each of its equations.
#[tactic(auto, using(crate::proofs::Tuples::few_equations))]
pub fn goal_count<const N: usize>(m: &Matrix<N>, q: &Query) -> u32
    requires { goal_count N q.now ≤ MOST_GOALS }
    ensures { result ≡ goal_count N q.now }
{
    let _operators = m.operators();
    match q {
        Query::Mixed { .. } => 1,
        Query::Equation(_) => N as u32,
        Query::Quasi { premises, .. } => (N as u32).pow(premises.items().len() as u32 + 1),
    }
}

/// The goal of a query at a place among its goals, counted from 0. So the goals are made one at a time where all would take much memory.
pub fn goal_at<const N: usize>(
    alloc: Global,
    m: &Matrix<N>,
    q: &Query,
    place: u32,
) -> Result<Sequent<N>, AllocError>
    requires sets { HasSetsBelow N q.now }
    requires few { goal_count N q.now ≤ MOST_GOALS }
    requires within { place < goal_count N q.now }
    ensures { IfOk result (λ goal. slice_get (goals_of N q.now) place ≡ Some goal) }
{
    let _operators = m.operators();
    match q {
        Query::Mixed {
            given,
            wanted,
            premises,
            conclusions,
        } => goal_of_mixed(
            alloc,
            ValueSet::of_mask(*given),
            ValueSet::of_mask(*wanted),
            premises.items(),
            conclusions.items(),
        ),
        Query::Equation(pair) => goal_of_quasi(alloc, List::new(alloc).items(), pair, place),
        Query::Quasi {
            premises,
            conclusion,
        } => goal_of_quasi(alloc, premises.items(), conclusion, place),
    }
}

// The goals of a query, by its kind.
fn goals_by_kind<const N: usize>(alloc: Global, q: &Query) -> Result<List<Sequent<N>>, AllocError>
    requires size { IsSize N }
    requires sets { HasSetsBelow N q.now }
    requires few { goal_count N q.now ≤ MOST_GOALS }
    ensures { IfOk result (λ goals. goals ≡ goals_of N q.now) }
{
    match q {
        Query::Mixed {
            given,
            wanted,
            premises,
            conclusions,
        } => {
            let mut goals = List::new(alloc);
            goals.push(goal_of_mixed(
                alloc,
                ValueSet::of_mask(*given),
                ValueSet::of_mask(*wanted),
                premises.items(),
                conclusions.items(),
            )?)?;
            Ok(goals)
        }
        Query::Equation(pair) => goals_of_quasi(alloc, List::new(alloc).items(), pair),
        Query::Quasi {
            premises,
            conclusion,
        } => goals_of_quasi(alloc, premises.items(), conclusion),
    }
}

// The goal of a mixed entailment.
fn goal_of_mixed<const N: usize>(
    alloc: Global,
    given: ValueSet<N>,
    wanted: ValueSet<N>,
    premises: &[Formula],
    conclusions: &[Formula],
) -> Result<Sequent<N>, AllocError>
    requires { IsSize N }
    ensures { IfOk result (λ goal. goal ≡ mixed_goal N given.entry wanted.entry premises.now conclusions.now) }
{
    let mut goal = Sequent::new(alloc);
    add_each(alloc, premises, given.complement(), &mut goal)?;
    add_each(alloc, conclusions, wanted, &mut goal)?;
    Ok(goal)
}

// Adds formulas, each with the same sign.
fn add_each<const N: usize>(
    alloc: Global,
    formulas: &[Formula],
    sign: ValueSet<N>,
    goal: &mut Sequent<N>,
) -> Result<(), AllocError>
    ensures { OnOk result (goal.new ≡ fold (with_signed N) goal.old (each_signed sign.entry formulas.now)) }
{
    for f in formulas {
        goal.add(copy_formula(alloc, f)?, sign)?;
    }
    Ok(())
}

// The goals of a quasi-equation.
#[tactic(auto, using(crate::proofs::Tuples::few_equations))]
fn goals_of_quasi<const N: usize>(
    alloc: Global,
    premises: &[Pair],
    conclusion: &Pair,
) -> Result<List<Sequent<N>>, AllocError>
    requires size { IsSize N }
    requires few { N ^ (length premises.now + 1) ≤ MOST_GOALS }
    ensures { IfOk result (λ goals. goals ≡ quasi_goals N premises.now conclusion.now) }
{
    let mut goals = List::new(alloc);
    for tuple in 0..(N as u32).pow(premises.len() as u32 + 1) {
        goals.push(goal_of_quasi(alloc, premises, conclusion, tuple)?)?;
    }
    Ok(goals)
}

// The goal of a quasi-equation at the tuple with this index.
fn goal_of_quasi<const N: usize>(
    alloc: Global,
    premises: &[Pair],
    conclusion: &Pair,
    tuple: u32,
) -> Result<Sequent<N>, AllocError>
    requires size { IsSize N }
    requires few { N ^ (length premises.now + 1) ≤ MOST_GOALS }
    ensures { IfOk result (λ goal. goal ≡ quasi_goal N premises.now conclusion.now (arguments_at N (length premises.now + 1) tuple)) }
{
    let mut goal = Sequent::new(alloc);
    add_premises(alloc, premises, tuple, &mut goal)?;
    let value = value_of_tuple(premises.len(), tuple, premises.len());
    goal.add(copy_formula(alloc, &conclusion.left)?, value.complement())?;
    goal.add(copy_formula(alloc, &conclusion.right)?, value)?;
    Ok(goal)
}

// Adds the sides of premises, at the tuple with this index.
fn add_premises<const N: usize>(
    alloc: Global,
    premises: &[Pair],
    tuple: u32,
    goal: &mut Sequent<N>,
) -> Result<(), AllocError>
    requires size { IsSize N }
    requires few { N ^ (length premises.now + 1) ≤ MOST_GOALS }
    ensures { OnOk result (goal.new ≡ fold (with_signed N) goal.old (flat_map (premise_items N) (zip premises.now (arguments_at N (length premises.now + 1) tuple)))) }
{
    for (place, pair) in premises.iter().enumerate() {
        let others = value_of_tuple(premises.len(), tuple, place).complement();
        goal.add(copy_formula(alloc, &pair.left)?, others)?;
        goal.add(copy_formula(alloc, &pair.right)?, others)?;
    }
    Ok(())
}

// The value at a place of the tuple with this index, as a set. Behind the values of so many premises stands that of the conclusion.
#[tactic(auto, using(crate::proofs::Tuples::few_equations))]
fn value_of_tuple<const N: usize>(premises: usize, tuple: u32, place: usize) -> ValueSet<N>
    requires size { IsSize N }
    requires few { N ^ (premises + 1) ≤ MOST_GOALS }
    requires within { place ≤ premises }
    ensures { result ≡ slice_index (arguments_at N (premises + 1) tuple) place ∷ [] }
{
    ValueSet::single(argument_at(N as u32, premises as u32 + 1, tuple, place as u32))
}
