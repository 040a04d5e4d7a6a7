// The table of a rule's operator or quantifier, and the rule's clauses at its rows.
//
// These functions alone know how rules of operators and of quantifiers are read. The tests on rules are made once for
// both, and distinguish the kinds only in how the sets of a clause are named and in which order they are asked.
ghost use Rattle.std.specs.Prelude.{◌≡◌, ◌≢◌, ◌+◌, ◌-◌, ◌<◌, ◌^◌, ℕ, [], All, length, slice_index_or};
ghost use Rattle.lgc_values.specs.Values.{has, set_of_row};
ghost use Rattle.lgc_values.specs.Logic.{operator_at, row_count};
ghost use Rattle.lgc_clauses.specs.Kinds.{plain_rule};
ghost use Rattle.lgc_clauses.specs.Rules.{rows_of, value_in, is_true_at, clause_holds, holds_over, Fits};
ghost use Rattle.lgc_clauses.specs.Irredundance.{clause_at, set_at, sets_without};

use crate::clause::{
    clause_true_at, count_of_clause, holds_over_without, qclause_true_at, set_of_clause,
    sets_hold_without,
};
use crate::{Clause, QClause, Rule};
use lgc_values::{Matrix, ValueSet};

// How many rows the table has.
pub(crate) fn rows_of<const N: usize>(m: &Matrix<N>, rule: &Rule<N>) -> u32
    requires { Fits m.now (plain_rule rule.now) }
    ensures rows { result ≡ rows_of m.now (plain_rule rule.now).head }
    ensures size { m.now.size ≡ N }
{
    match rule {
        Rule::Operator(rule) => m.operators()[rule.op as usize].table.len() as u32,
        Rule::Quantifier(rule) => m.quantifiers()[rule.quant as usize].table.len() as u32,
    }
}

// Whether the value at a row lies in the sign.
pub(crate) fn is_inside<const N: usize>(m: &Matrix<N>, rule: &Rule<N>, row: u32) -> bool
    requires fits { Fits m.now (plain_rule rule.now) }
    requires row { row < rows_of m.now (plain_rule rule.now).head }
    ensures { result ≡ has (plain_rule rule.now).sign (value_in m.now (plain_rule rule.now).head row) }
{
    match rule {
        Rule::Operator(rule) => rule.sign.contains(m.apply(rule.op, row)),
        Rule::Quantifier(rule) => {
            rule.sign
                .contains(m.distribute(rule.quant, m.set_of_row(row)))
        }
    }
}

// The number of clauses.
pub(crate) fn clause_count<const N: usize>(rule: &Rule<N>) -> usize
    ensures { result ≡ length (plain_rule rule.now).clauses }
{
    match rule {
        Rule::Operator(rule) => rule.clauses.len(),
        Rule::Quantifier(rule) => rule.clauses.len(),
    }
}

// Whether clause `i`, counted from 0, is true at a row.
pub(crate) fn clause_holds<const N: usize>(
    m: &Matrix<N>,
    rule: &Rule<N>,
    i: usize,
    row: u32,
) -> bool
    requires fits { Fits m.now (plain_rule rule.now) }
    requires clause { i < length (plain_rule rule.now).clauses }
    requires row { row < rows_of m.now (plain_rule rule.now).head }
    ensures { result ≡ is_true_at m.now (plain_rule rule.now).head (clause_at (plain_rule rule.now).clauses i) row }
{
    match rule {
        Rule::Operator(rule) => true_at_row(m, rule.op, rule.clauses.items(), i, row),
        Rule::Quantifier(rule) => true_at_set(m, rule.clauses.items(), i, row),
    }
}

// Whether clause `i` of an operator is true at a row of arguments.
fn true_at_row<const N: usize>(
    m: &Matrix<N>,
    op: u16,
    clauses: &[Clause<N>],
    i: usize,
    row: u32,
) -> bool
    requires operator { op < length m.now.operators }
    requires width { All (λ sets. length sets ≡ (operator_at m.now op).arity) clauses.now }
    requires clause { i < length clauses.now }
    requires row { row < row_count m.now op }
    ensures { result ≡ clause_holds m.now.size (clause_at clauses.now i) row }
{
    let _operators = m.operators();
    clause_true_at(m, op, &clauses[i], row)
}

// Whether clause `i` of a quantifier is true at the set of values in a row.
fn true_at_set<const N: usize>(m: &Matrix<N>, clauses: &[QClause<N>], i: usize, row: u32) -> bool
    requires clause { i < length clauses.now }
    requires row { row < 2 ^ m.now.size - 1 }
    ensures { result ≡ holds_over (clause_at clauses.now i) (set_of_row m.now.size row) }
{
    qclause_true_at(&clauses[i], m.set_of_row(row))
}

// Whether clause `i` is true at a row without value `v` of its set `j`. All are counted from 0.
pub(crate) fn clause_holds_without<const N: usize>(
    m: &Matrix<N>,
    rule: &Rule<N>,
    i: usize,
    j: usize,
    v: u8,
    row: u32,
) -> bool
    requires fits { Fits m.now (plain_rule rule.now) }
    requires clause { i < length (plain_rule rule.now).clauses }
    requires part { j < length (clause_at (plain_rule rule.now).clauses i) }
    requires value { v < N }
    requires row { row < rows_of m.now (plain_rule rule.now).head }
    ensures { result ≡ is_true_at m.now (plain_rule rule.now).head (sets_without (clause_at (plain_rule rule.now).clauses i) j v) row }
{
    match rule {
        Rule::Operator(rule) => true_at_row_without(m, rule.op, rule.clauses.items(), i, j, v, row),
        Rule::Quantifier(rule) => true_at_set_without(m, rule.clauses.items(), i, j, v, row),
    }
}

// Whether clause `i` of an operator is true at a row of arguments without value `v` of its set `j`.
fn true_at_row_without<const N: usize>(
    m: &Matrix<N>,
    op: u16,
    clauses: &[Clause<N>],
    i: usize,
    j: usize,
    v: u8,
    row: u32,
) -> bool
    requires operator { op < length m.now.operators }
    requires width { All (λ sets. length sets ≡ (operator_at m.now op).arity) clauses.now }
    requires clause { i < length clauses.now }
    requires part { j < length (clause_at clauses.now i) }
    requires value { v < N }
    requires row { row < row_count m.now op }
    ensures { result ≡ clause_holds m.now.size (sets_without (clause_at clauses.now i) j v) row }
{
    let _operators = m.operators();
    let clause = &clauses[i];
    sets_hold_without(clause.sets.items(), j, v, row)
}

// Whether clause `i` of a quantifier is true at the set of values in a row without value `v` of its set `j`.
fn true_at_set_without<const N: usize>(
    m: &Matrix<N>,
    clauses: &[QClause<N>],
    i: usize,
    j: usize,
    v: u8,
    row: u32,
) -> bool
    requires clause { i < length clauses.now }
    requires part { j < length (clause_at clauses.now i) }
    requires value { v < N }
    requires row { row < 2 ^ m.now.size - 1 }
    ensures { result ≡ holds_over (sets_without (clause_at clauses.now i) j v) (set_of_row m.now.size row) }
{
    holds_over_without(&clauses[i], j, v, m.set_of_row(row))
}

// How many sets clause `i`, counted from 0, has.
pub(crate) fn set_count<const N: usize>(rule: &Rule<N>, i: usize) -> usize
    requires { i < length (plain_rule rule.now).clauses }
    ensures { result ≡ length (clause_at (plain_rule rule.now).clauses i) }
{
    match rule {
        Rule::Operator(rule) => rule.clauses.get(i).sets.len(),
        Rule::Quantifier(rule) => count_of_clause(rule.clauses.get(i)),
    }
}

// Set `j` of clause `i`, both counted from 0.
pub(crate) fn set_of<const N: usize>(rule: &Rule<N>, i: usize, j: usize) -> ValueSet<N>
    requires clause { i < length (plain_rule rule.now).clauses }
    requires part { j < length (clause_at (plain_rule rule.now).clauses i) }
    ensures { result ≡ set_at (clause_at (plain_rule rule.now).clauses i) j }
{
    match rule {
        Rule::Operator(rule) => *rule.clauses.get(i).sets.get(j),
        Rule::Quantifier(rule) => set_of_clause(rule.clauses.get(i), j),
    }
}
