// Clauses of operators and of quantifiers, and where they are true.
ghost use Rattle.std.specs.Prelude.{◌≡◌, ◌<◌, ◌≤◌, ◌^◌, ◌==◌, not, filter, length, slice_index_or, [], ◌∷◌};
ghost use Rattle.std.specs.List.{list_all, list_any, remove};
ghost use Rattle.lgc_values.specs.Values.{IsSize, has};
ghost use Rattle.lgc_values.specs.Logic.{operator_at, row_count};
ghost use Rattle.lgc_values.specs.declared.TheConstants.{MOST_ROWS, MOST_ARGUMENTS};
ghost use Rattle.lgc_clauses.specs.Rules.{clause_holds, holds_over};
ghost use Rattle.lgc_clauses.specs.Irredundance.{sets_without};

use lgc_values::{List, Matrix, ValueSet, argument_at};
use std::marker::Model;

/// A clause of an operator, with one set for each argument. It is seen as the list of its sets.
#[derive(Debug, Drop)]
pub struct Clause<const N: usize> {
    pub sets: List<ValueSet<N>>,
}

impl<const N: usize> Model for Clause<N> {
    ghost use Rattle.std.specs.Prelude.{ℕ, List};

    ghost Value = { List (List ℕ) };

    ghost view = { λ clause. clause.sets };
}

/// A clause of a quantifier. It is seen as the list of its sets, of which `some` is the first.
#[derive(Debug, Drop)]
pub struct QClause<const N: usize> {
    pub all: List<ValueSet<N>>,
    pub some: ValueSet<N>,
}

impl<const N: usize> Model for QClause<N> {
    ghost use Rattle.std.specs.Prelude.{ℕ, List, ◌∷◌};

    ghost Value = { List (List ℕ) };

    ghost view = { λ clause. clause.some ∷ clause.all };
}

/// Whether a clause of operator `op` is true at the row with the index `row`: whether some argument lies in its set.
pub fn clause_true_at<const N: usize>(m: &Matrix<N>, op: u16, c: &Clause<N>, row: u32) -> bool
    requires operator { op < length m.now.operators }
    requires width { length c.now ≡ (operator_at m.now op).arity }
    requires row { row < row_count m.now op }
    ensures { result ≡ clause_holds N c.now row }
{
    let _operators = m.operators();
    sets_hold(c.sets.items(), row)
}

/// Whether a clause of a quantifier is true at a set of values: whether some value lies in its `some` set, or all of them in
/// one of its `all` sets. The set of values that a formula takes over a domain isn't empty.
pub fn qclause_true_at<const N: usize>(c: &QClause<N>, set: ValueSet<N>) -> bool
    ensures { result ≡ holds_over c.now set.entry }
{
    over_parts(c.some, c.all.items(), set)
}

// Whether some value of a set lies in the `some` set, or all of them in one of the `all` sets.
fn over_parts<const N: usize>(some: ValueSet<N>, all: &[ValueSet<N>], set: ValueSet<N>) -> bool
    ensures { result ≡ holds_over (some.entry ∷ all.now) set.entry }
{
    some.meets(set) || set.lies_in_some(all)
}

// Whether some argument of the row with the index `row` lies in its set.
#[tactic(auto, using(crate::proofs::Walking::holds_more, std::proofs::lemmas::Grind::common_steps))]
pub(crate) fn sets_hold<const N: usize>(sets: &[ValueSet<N>], row: u32) -> bool
    requires size { IsSize N }
    requires rows { N ^ length sets.now ≤ MOST_ROWS }
    requires few { length sets.now ≤ MOST_ARGUMENTS }
    ensures { result ≡ clause_holds N sets.now row }
{
    for (j, set) in sets.iter().enumerate() {
        if set.contains(argument_at(N as u32, sets.len() as u32, row, j as u32)) {
            return true;
        }
    }
    false
}

// How many sets a quantifier's clause has, with the `some` set.
pub(crate) fn count_of_clause<const N: usize>(clause: &QClause<N>) -> usize
    ensures { result ≡ length clause.now }
{
    clause.all.items().len() + 1
}

// Set `j` of a quantifier's clause, of which the `some` set is the first.
pub(crate) fn set_of_clause<const N: usize>(clause: &QClause<N>, j: usize) -> ValueSet<N>
    requires { j < length clause.now }
    ensures { result ≡ slice_index_or clause.now j [] }
{
    match j {
        0 => clause.some,
        _ => *clause.all.get(j - 1),
    }
}

// Whether a clause of an operator is true at the row with the index `row` without value `v` of set `i`.
#[tactic(auto, using(crate::proofs::Changes::without_step, crate::proofs::Changes::without_none, std::proofs::lemmas::Grind::common_steps))]
pub(crate) fn sets_hold_without<const N: usize>(
    sets: &[ValueSet<N>],
    i: usize,
    v: u8,
    row: u32,
) -> bool
    requires size { IsSize N }
    requires rows { N ^ length sets.now ≤ MOST_ROWS }
    requires few { length sets.now ≤ MOST_ARGUMENTS }
    requires part { i < length sets.now }
    requires value { v < N }
    ensures { result ≡ clause_holds N (sets_without sets.now i v) row }
{
    for (j, set) in sets.iter().enumerate() {
        let argument = argument_at(N as u32, sets.len() as u32, row, j as u32);
        if set.contains(argument) && (j != i || argument != v) {
            return true;
        }
    }
    false
}

// Whether a clause of a quantifier is true at a set of values without value `v` of its set `j`.
#[tactic(auto, using(crate::proofs::Changes::over_later))]
pub(crate) fn holds_over_without<const N: usize>(
    clause: &QClause<N>,
    j: usize,
    v: u8,
    set: ValueSet<N>,
) -> bool
    requires part { j < length clause.now }
    requires value { v < N }
    ensures { result ≡ holds_over (sets_without clause.now j v) set.entry }
{
    match j {
        0 => over_parts(clause.some.without(v), clause.all.items(), set),
        _ => clause.some.meets(set) || lies_in_some_without(set, clause.all.items(), j - 1, v),
    }
}

// Whether a set lies in one of the others without value `v` of set `j` of these.
#[tactic(auto, using(crate::proofs::Changes::any_without))]
fn lies_in_some_without<const N: usize>(
    set: ValueSet<N>,
    others: &[ValueSet<N>],
    j: usize,
    v: u8,
) -> bool
    requires part { j < length others.now }
    requires value { v < N }
    ensures { result ≡ list_any (λ other. list_all (has other) set.entry) (sets_without others.now j v) }
{
    set.is_subset(others[j].without(v)) || lies_in_another(set, others, j)
}

// Whether a set lies in one of the others but set `j` of these.
#[tactic(auto, using(crate::proofs::Changes::any_other))]
fn lies_in_another<const N: usize>(set: ValueSet<N>, others: &[ValueSet<N>], j: usize) -> bool
    requires { j < length others.now }
    ensures { result ≡ list_any (λ other. list_all (has other) set.entry) (remove others.now j) }
{
    set.lies_in_some(&others[..j]) || set.lies_in_some(&others[j + 1..])
}
