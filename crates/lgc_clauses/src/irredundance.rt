// Whether a rule is irredundant: whether it isn't exact without any one of its clauses, nor without any one value.
//
// The rules that something is taken from are not built: whether they are true at a row is read from the rule itself.
// `agreed` is a row index with the table and the clauses alike at each row below it, so that there the table tells
// whether all clauses are true. A rule without a clause then differs from the rule only at rows where that clause is
// false, and only there the others are asked. A rule without a value is true where the smaller clause is and the rule is.
// For an exact rule this costs a look at each row for each value, and for each clause a look at each row and at the
// others where it is false.
ghost use Rattle.std.specs.Prelude.{◌≡◌, ◌+◌, ◌<◌, ◌≤◌, ◌^◌, ◌↔◌, ℕ, length, All, IsTrue, IsNone, IfSome, MatchOption};
ghost use Rattle.std.specs.List.{remove};
ghost use Rattle.lgc_clauses.specs.Kinds.{plain_rule};
ghost use Rattle.lgc_clauses.specs.Rules.{rows_of, all_true_at, Fits};
ghost use Rattle.lgc_clauses.specs.Exactness.{AgreesBelow, IsExact};
ghost use Rattle.lgc_clauses.specs.Irredundance.{clause_at, clauses_without, with_clauses, part_of, set_asked, set_number, IsNumbered, IsRedundantClause, IsRedundantValue, Never, IsFirst, IsIrredundant, IsFirstOfClause, IsFirstValue, IsFirstDroppable};

use crate::Rule;
use crate::exactness::{clauses_hold, rule_exact};
use crate::table::{
    clause_count, clause_holds, clause_holds_without, is_inside, rows_of, set_count, set_of,
};
use lgc_values::Matrix;

/// A part of a clause.
#[derive(Clone, Copy, Debug, PartialEq, Eq)]
pub enum Part {
    /// The set of an argument of an operator, counted from 1.
    Argument(u32),
    /// An `all` set of a quantifier's clause, counted from 1.
    All(u32),
    /// The `some` set of a quantifier's clause.
    Some,
}

/// What can be taken from a rule that is exact without it.
#[derive(Clone, Copy, Debug, PartialEq, Eq)]
pub enum Droppable {
    /// A clause as a whole, counted from 1.
    Clause(u32),
    /// A value, counted from 0, of one set of a clause, counted from 1.
    Value { clause: u32, part: Part, value: u8 },
}

/// Tells whether a rule is irredundant: whether it isn't exact without any one of its clauses, nor without any one value
/// of any one set of a clause.
///
/// `None` says that it is. Else the answer is what can be dropped while the rule stays exact: the first such clause, and
/// where there is none the first such value, by clause, then by part, then by value. The parts of an operator's clause are its arguments
/// in order; those of a quantifier's clause are its `all` sets in order, and then its `some` set.
pub fn rule_irredundant<const N: usize>(m: &Matrix<N>, rule: &Rule<N>) -> Option<Droppable>
    requires fits { Fits m.now (plain_rule rule.now) }
    requires few { IsNumbered (plain_rule rule.now) }
    ensures { MatchOption result (IsIrredundant m.now (plain_rule rule.now)) (IsFirstDroppable m.now (plain_rule rule.now)) }
{
    let agreed = rule_exact(m, rule).unwrap_or(rows_of(m, rule));
    if let Some(i) = first_clause(m, rule, agreed) {
        return Some(Droppable::Clause(i as u32 + 1));
    }
    let (i, j, value) = first_value(m, rule, agreed)?;
    Some(Droppable::Value {
        clause: i as u32 + 1,
        part: part_of(rule, j as u32),
        value,
    })
}

// What set `j` of a clause, counted from 0, is.
fn part_of<const N: usize>(rule: &Rule<N>, j: u32) -> Part
    requires { set_number (plain_rule rule.now).head j < 2 ^ 32 }
    ensures { result ≡ part_of (plain_rule rule.now).head j }
{
    match (rule, j) {
        (Rule::Operator(_), _) => Part::Argument(j + 1),
        (Rule::Quantifier(_), 0) => Part::Some,
        (Rule::Quantifier(_), _) => Part::All(j),
    }
}

// The first clause, counted from 0, that can be taken away.
fn first_clause<const N: usize>(m: &Matrix<N>, rule: &Rule<N>, agreed: u32) -> Option<usize>
    requires fits { Fits m.now (plain_rule rule.now) }
    requires agreed { AgreesBelow m.now (plain_rule rule.now) agreed }
    ensures { MatchOption result (Never (IsRedundantClause m.now (plain_rule rule.now))) (IsFirst (IsRedundantClause m.now (plain_rule rule.now))) }
{
    for i in 0..clause_count(rule) {
        if exact_without_clause(m, rule, agreed, i) {
            return Some(i);
        }
    }
    None
}

// The first value that can be taken away, after the numbers of its clause and of its set. All are counted from 0.
fn first_value<const N: usize>(
    m: &Matrix<N>,
    rule: &Rule<N>,
    agreed: u32,
) -> Option<(usize, usize, u8)>
    requires fits { Fits m.now (plain_rule rule.now) }
    requires agreed { AgreesBelow m.now (plain_rule rule.now) agreed }
    ensures clause { IfSome result (λ found. found.0 < length (plain_rule rule.now).clauses) }
    ensures part { IfSome result (λ found. found.1 < length (clause_at (plain_rule rule.now).clauses found.0)) }
    ensures none { IsNone result → (i j : ℕ) → Never (IsRedundantValue m.now (plain_rule rule.now) i j) }
    ensures some { IfSome result (λ found. IsFirstValue m.now (plain_rule rule.now) found.0 found.1 found.2) }
{
    for i in 0..clause_count(rule) {
        if let Some((j, v)) = first_value_of_clause(m, rule, agreed, i) {
            return Some((i, j, v));
        }
    }
    None
}

// The first value of clause `i` that can be taken away, after the number of its set. Both are counted from 0.
fn first_value_of_clause<const N: usize>(
    m: &Matrix<N>,
    rule: &Rule<N>,
    agreed: u32,
    i: usize,
) -> Option<(usize, u8)>
    requires fits { Fits m.now (plain_rule rule.now) }
    requires agreed { AgreesBelow m.now (plain_rule rule.now) agreed }
    requires clause { i < length (plain_rule rule.now).clauses }
    ensures part { IfSome result (λ found. found.0 < length (clause_at (plain_rule rule.now).clauses i)) }
    ensures none { IsNone result → (j : ℕ) → Never (IsRedundantValue m.now (plain_rule rule.now) i j) }
    ensures some { IfSome result (λ found. IsFirstOfClause m.now (plain_rule rule.now) i found.0 found.1) }
{
    let count = set_count(rule, i);
    for place in 0..count {
        let j = set_asked(rule, count, place);
        if let Some(v) = first_value_of_set(m, rule, agreed, i, j) {
            return Some((j, v));
        }
    }
    None
}

// The number of the set of a clause that is asked at a place, where the clause has `count` sets.
fn set_asked<const N: usize>(rule: &Rule<N>, count: usize, place: usize) -> usize
    requires { place < count }
    ensures within { result < count }
    ensures asked { result ≡ set_asked (plain_rule rule.now).head count place }
{
    match rule {
        Rule::Operator(_) => place,
        Rule::Quantifier(_) => (place + 1) % count,
    }
}

// The first value of set `j` of clause `i` that can be taken away.
fn first_value_of_set<const N: usize>(
    m: &Matrix<N>,
    rule: &Rule<N>,
    agreed: u32,
    i: usize,
    j: usize,
) -> Option<u8>
    requires fits { Fits m.now (plain_rule rule.now) }
    requires agreed { AgreesBelow m.now (plain_rule rule.now) agreed }
    requires clause { i < length (plain_rule rule.now).clauses }
    requires part { j < length (clause_at (plain_rule rule.now).clauses i) }
    ensures { MatchOption result (Never (IsRedundantValue m.now (plain_rule rule.now) i j)) (IsFirst (IsRedundantValue m.now (plain_rule rule.now) i j)) }
{
    let set = set_of(rule, i, j);
    for v in 0..set.bound() {
        if set.contains(v) && exact_without_value(m, rule, agreed, i, j, v) {
            return Some(v);
        }
    }
    None
}

// Whether the rule is exact without clause `i`.
fn exact_without_clause<const N: usize>(
    m: &Matrix<N>,
    rule: &Rule<N>,
    agreed: u32,
    i: usize,
) -> bool
    requires fits { Fits m.now (plain_rule rule.now) }
    requires agreed { AgreesBelow m.now (plain_rule rule.now) agreed }
    requires clause { i < length (plain_rule rule.now).clauses }
    ensures { IsTrue result ↔ IsExact m.now (with_clauses (plain_rule rule.now) (remove (plain_rule rule.now).clauses i)) }
{
    for row in 0..rows_of(m, rule) {
        if hold_without_clause(m, rule, agreed, i, row) != is_inside(m, rule, row) {
            return false;
        }
    }
    true
}

// Whether the rule is exact without value `v` of set `j` of clause `i`.
fn exact_without_value<const N: usize>(
    m: &Matrix<N>,
    rule: &Rule<N>,
    agreed: u32,
    i: usize,
    j: usize,
    v: u8,
) -> bool
    requires fits { Fits m.now (plain_rule rule.now) }
    requires agreed { AgreesBelow m.now (plain_rule rule.now) agreed }
    requires clause { i < length (plain_rule rule.now).clauses }
    requires part { j < length (clause_at (plain_rule rule.now).clauses i) }
    requires value { v < N }
    ensures { IsTrue result ↔ IsExact m.now (with_clauses (plain_rule rule.now) (clauses_without (plain_rule rule.now).clauses i j v)) }
{
    for row in 0..rows_of(m, rule) {
        if hold_without_value(m, rule, agreed, i, j, v, row) != is_inside(m, rule, row) {
            return false;
        }
    }
    true
}

// Whether every clause but clause `i` is true at the row with the index `row`.
#[tactic(auto, using(crate::proofs::Changes::others_with))]
fn hold_without_clause<const N: usize>(
    m: &Matrix<N>,
    rule: &Rule<N>,
    agreed: u32,
    i: usize,
    row: u32,
) -> bool
    requires fits { Fits m.now (plain_rule rule.now) }
    requires agreed { AgreesBelow m.now (plain_rule rule.now) agreed }
    requires clause { i < length (plain_rule rule.now).clauses }
    requires row { row < rows_of m.now (plain_rule rule.now).head }
    ensures { result ≡ all_true_at m.now (plain_rule rule.now).head (remove (plain_rule rule.now).clauses i) row }
{
    if clause_holds(m, rule, i, row) {
        all_hold(m, rule, agreed, row)
    } else {
        others_hold(m, rule, i, row)
    }
}

// Whether the clauses are true at the row with the index `row` without value `v` of set `j` of clause `i`.
#[tactic(auto, using(crate::proofs::Changes::less_where))]
fn hold_without_value<const N: usize>(
    m: &Matrix<N>,
    rule: &Rule<N>,
    agreed: u32,
    i: usize,
    j: usize,
    v: u8,
    row: u32,
) -> bool
    requires fits { Fits m.now (plain_rule rule.now) }
    requires agreed { AgreesBelow m.now (plain_rule rule.now) agreed }
    requires clause { i < length (plain_rule rule.now).clauses }
    requires part { j < length (clause_at (plain_rule rule.now).clauses i) }
    requires value { v < N }
    requires row { row < rows_of m.now (plain_rule rule.now).head }
    ensures { result ≡ all_true_at m.now (plain_rule rule.now).head (clauses_without (plain_rule rule.now).clauses i j v) row }
{
    clause_holds_without(m, rule, i, j, v, row) && all_hold(m, rule, agreed, row)
}

// Whether every clause is true at the row with the index `row`. Below `agreed` the table tells it.
fn all_hold<const N: usize>(m: &Matrix<N>, rule: &Rule<N>, agreed: u32, row: u32) -> bool
    requires fits { Fits m.now (plain_rule rule.now) }
    requires agreed { AgreesBelow m.now (plain_rule rule.now) agreed }
    requires row { row < rows_of m.now (plain_rule rule.now).head }
    ensures { result ≡ all_true_at m.now (plain_rule rule.now).head (plain_rule rule.now).clauses row }
{
    if row < agreed {
        is_inside(m, rule, row)
    } else {
        clauses_hold(m, rule, row)
    }
}

// Whether every clause but clause `i` is true at the row with the index `row`.
fn others_hold<const N: usize>(m: &Matrix<N>, rule: &Rule<N>, i: usize, row: u32) -> bool
    requires fits { Fits m.now (plain_rule rule.now) }
    requires clause { i < length (plain_rule rule.now).clauses }
    requires row { row < rows_of m.now (plain_rule rule.now).head }
    ensures { result ≡ all_true_at m.now (plain_rule rule.now).head (remove (plain_rule rule.now).clauses i) row }
{
    for k in 0..clause_count(rule) {
        if k != i && !clause_holds(m, rule, k, row) {
            return false;
        }
    }
    true
}
