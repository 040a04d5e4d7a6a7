// Clauses of a quantifier: `all` sets and a `some` set, and lists of clauses.
ghost use Rattle.std.specs.Prelude.{◌≡◌, [], ◌∷◌, ◌++◌, ◌<◌, ◌≤◌, length, IfOk, if◌then◌else◌};
ghost use Rattle.lgc_values.specs.Values.{IsSize};
ghost use Rattle.lgc_lexer.specs.Spans.{AllIn};
ghost use Rattle.lgc_tokens.specs.Spelled.{spelled_all, IsRest, IsShorter};
ghost use Rattle.lgc_tokens.specs.Classes.{starts_quantifier_clause};
ghost use Rattle.lgc_rules.specs.RuleReading.{turn_of};
ghost use Rattle.lgc_rules.specs.RuleReading.{set_behind_at, next_set_at, more_sets_at, all_sets_at, some_alone_at, no_sets_at, quantifier_clause_at, next_clause_at, more_clauses_at, some_clauses_at, clauses_at};
ghost use Rattle.lgc_tokens.specs.Gives.{Gives};

use crate::reading::Rest;
use crate::set::read_set;
use lgc_clauses::QClause;
use lgc_lexer::Token;
use lgc_tokens::{Class, Reading, Terminal, next_is, one};
use lgc_values::{List, Matrix, ValueSet};
use std::alloc::Global;

// A set behind the word `all` or `some`.
#[tactic(auto, unfolding(crate::specs::RuleReading::set_behind_at))]
fn set_behind<'a, const N: usize>(
    m: &Matrix<N>,
    bytes: &[u8],
    word: Class,
    tokens: &'a [Token],
) -> Reading<'a, ValueSet<N>>
    requires { AllIn bytes.now tokens.now }
    ensures gives { Gives bytes.now (λ x. (x.0, spelled_all bytes.now x.1.now)) result (set_behind_at word N m.now (spelled_all bytes.now tokens.now)) }
    ensures rest { IfOk result (λ x. IsShorter bytes.now tokens.now x.1.now) }
{
    let (_, rest) = one(bytes, Terminal::Only(word), tokens)?;
    read_set(m, bytes, rest)
}

// A comma and one more set: an `all` set, which is appended, or the `some` set, which is the last.
fn next_set<'a, const N: usize>(
    m: &Matrix<N>,
    bytes: &[u8],
    all: &mut List<ValueSet<N>>,
    tokens: &'a [Token],
) -> Reading<'a, Option<ValueSet<N>>>
    requires { AllIn bytes.now tokens.now }
    ensures gives { Gives bytes.now (λ x. (turn_of all.new x.0, spelled_all bytes.now x.1.now)) result (next_set_at N m.now all.old (spelled_all bytes.now tokens.now)) }
    ensures rest { IfOk result (λ x. IsShorter bytes.now tokens.now x.1.now) }
{
    let (_, rest) = one(bytes, Terminal::Only(Class::Comma), tokens)?;
    if next_is(bytes, Terminal::Only(Class::AllWord), rest) {
        let (set, rest) = tried!(set_behind(m, bytes, Class::AllWord, rest));
        all.push(set)?;
        Ok((None, rest))
    } else {
        let (some, rest) = tried!(set_behind(m, bytes, Class::SomeWord, rest));
        Ok((Some(some), rest))
    }
}

// Sets behind `all` sets, each behind a comma. A `some` set that isn't there is empty.
fn more_sets<'a, const N: usize>(
    m: &Matrix<N>,
    bytes: &[u8],
    all: &mut List<ValueSet<N>>,
    tokens: &'a [Token],
) -> Reading<'a, ValueSet<N>>
    requires { AllIn bytes.now tokens.now }
    ensures gives { Gives bytes.now (λ x. (x.0 ∷ all.new, spelled_all bytes.now x.1.now)) result (more_sets_at N m.now all.old (spelled_all bytes.now tokens.now)) }
    ensures rest { IfOk result (λ x. IsRest bytes.now tokens.now x.1.now) }
{
    let mut rest = tokens;
    while next_is(bytes, Terminal::Only(Class::Comma), rest) {
        let (last, behind) = tried!(next_set(m, bytes, all, rest));
        if let Some(some) = last {
            return Ok((some, behind));
        }
        rest = behind;
    }
    Ok((m.empty_set(), rest))
}

// One `all` set or more, and the `some` set.
#[tactic(auto, unfolding(crate::specs::RuleReading::all_sets_at))]
fn all_sets<'a, const N: usize>(
    alloc: Global,
    m: &Matrix<N>,
    bytes: &[u8],
    tokens: &'a [Token],
) -> Reading<'a, QClause<N>>
    requires { AllIn bytes.now tokens.now }
    ensures gives { Gives bytes.now (λ x. (x.0, spelled_all bytes.now x.1.now)) result (all_sets_at N m.now (spelled_all bytes.now tokens.now)) }
    ensures rest { IfOk result (λ x. IsShorter bytes.now tokens.now x.1.now) }
{
    let (set, rest) = tried!(set_behind(m, bytes, Class::AllWord, tokens));
    let mut all = List::new(alloc);
    all.push(set)?;
    let (some, rest) = tried!(more_sets(m, bytes, &mut all, rest));
    Ok((QClause { all, some }, rest))
}

// The `some` set alone.
#[tactic(auto, unfolding(crate::specs::RuleReading::some_alone_at))]
fn some_alone<'a, const N: usize>(
    alloc: Global,
    m: &Matrix<N>,
    bytes: &[u8],
    tokens: &'a [Token],
) -> Reading<'a, QClause<N>>
    requires { AllIn bytes.now tokens.now }
    ensures gives { Gives bytes.now (λ x. (x.0, spelled_all bytes.now x.1.now)) result (some_alone_at N m.now (spelled_all bytes.now tokens.now)) }
    ensures rest { IfOk result (λ x. IsShorter bytes.now tokens.now x.1.now) }
{
    let (some, rest) = tried!(set_behind(m, bytes, Class::SomeWord, tokens));
    let all = List::new(alloc);
    Ok((QClause { all, some }, rest))
}

// The clause without sets.
#[tactic(auto, unfolding(crate::specs::RuleReading::no_sets_at))]
fn no_sets<'a, const N: usize>(
    alloc: Global,
    m: &Matrix<N>,
    bytes: &[u8],
    tokens: &'a [Token],
) -> Reading<'a, QClause<N>>
    requires { AllIn bytes.now tokens.now }
    ensures gives { Gives bytes.now (λ x. (x.0, spelled_all bytes.now x.1.now)) result (no_sets_at (spelled_all bytes.now tokens.now)) }
    ensures rest { IfOk result (λ x. IsShorter bytes.now tokens.now x.1.now) }
{
    let (_, rest) = one(bytes, Terminal::Zero, tokens)?;
    let all = List::new(alloc);
    let some = m.empty_set();
    Ok((QClause { all, some }, rest))
}

// A clause: its `all` sets and its `some` set.
#[tactic(auto, unfolding(crate::specs::RuleReading::quantifier_clause_at))]
fn quantifier_clause<'a, const N: usize>(
    alloc: Global,
    m: &Matrix<N>,
    bytes: &[u8],
    tokens: &'a [Token],
) -> Reading<'a, QClause<N>>
    requires { AllIn bytes.now tokens.now }
    ensures gives { Gives bytes.now (λ x. (x.0, spelled_all bytes.now x.1.now)) result (quantifier_clause_at N m.now (spelled_all bytes.now tokens.now)) }
    ensures rest { IfOk result (λ x. IsShorter bytes.now tokens.now x.1.now) }
{
    if next_is(bytes, Terminal::Zero, tokens) {
        no_sets(alloc, m, bytes, tokens)
    } else if next_is(bytes, Terminal::Only(Class::AllWord), tokens) {
        all_sets(alloc, m, bytes, tokens)
    } else {
        some_alone(alloc, m, bytes, tokens)
    }
}

// A semicolon and a clause, which is appended.
fn next_clause<'a, const N: usize>(
    alloc: Global,
    m: &Matrix<N>,
    bytes: &[u8],
    clauses: &mut List<QClause<N>>,
    tokens: &'a [Token],
) -> Rest<'a>
    requires { AllIn bytes.now tokens.now }
    ensures gives { Gives bytes.now (λ x. (clauses.new, spelled_all bytes.now x.now)) result (next_clause_at (quantifier_clause_at N m.now) clauses.old (spelled_all bytes.now tokens.now)) }
    ensures rest { IfOk result (λ x. IsShorter bytes.now tokens.now x.now) }
{
    let (_, rest) = one(bytes, Terminal::Only(Class::Semicolon), tokens)?;
    let (next, rest) = quantifier_clause(alloc, m, bytes, rest)?;
    clauses.push(next)?;
    Ok(rest)
}

// Clauses behind others, each behind a semicolon.
fn more_clauses<'a, const N: usize>(
    alloc: Global,
    m: &Matrix<N>,
    bytes: &[u8],
    clauses: &mut List<QClause<N>>,
    tokens: &'a [Token],
) -> Rest<'a>
    requires { AllIn bytes.now tokens.now }
    ensures gives { Gives bytes.now (λ x. (clauses.new, spelled_all bytes.now x.now)) result (more_clauses_at (quantifier_clause_at N m.now) clauses.old (spelled_all bytes.now tokens.now)) }
    ensures rest { IfOk result (λ x. IsRest bytes.now tokens.now x.now) }
{
    let mut rest = tokens;
    while next_is(bytes, Terminal::Only(Class::Semicolon), rest) {
        rest = next_clause(alloc, m, bytes, clauses, rest)?;
    }
    Ok(rest)
}

// One clause or more.
#[tactic(auto, unfolding(crate::specs::RuleReading::some_clauses_at))]
fn some_clauses<'a, const N: usize>(
    alloc: Global,
    m: &Matrix<N>,
    bytes: &[u8],
    tokens: &'a [Token],
) -> Reading<'a, List<QClause<N>>>
    requires { AllIn bytes.now tokens.now }
    ensures gives { Gives bytes.now (λ x. (x.0, spelled_all bytes.now x.1.now)) result (some_clauses_at (quantifier_clause_at N m.now) (spelled_all bytes.now tokens.now)) }
    ensures rest { IfOk result (λ x. IsRest bytes.now tokens.now x.1.now) }
{
    let (first, rest) = quantifier_clause(alloc, m, bytes, tokens)?;
    let mut clauses = List::new(alloc);
    clauses.push(first)?;
    let rest = more_clauses(alloc, m, bytes, &mut clauses, rest)?;
    Ok((clauses, rest))
}

/// Clauses with semicolons between them, or none.
#[tactic(auto, unfolding(crate::specs::RuleReading::clauses_at))]
pub(crate) fn read_quantifier_clauses<'a, const N: usize>(
    alloc: Global,
    m: &Matrix<N>,
    bytes: &[u8],
    tokens: &'a [Token],
) -> Reading<'a, List<QClause<N>>>
    requires { AllIn bytes.now tokens.now }
    ensures gives { Gives bytes.now (λ x. (x.0, spelled_all bytes.now x.1.now)) result (clauses_at starts_quantifier_clause (quantifier_clause_at N m.now) (spelled_all bytes.now tokens.now)) }
    ensures rest { IfOk result (λ x. IsRest bytes.now tokens.now x.1.now) }
{
    if next_is(bytes, Terminal::QuantifierClause, tokens) {
        some_clauses(alloc, m, bytes, tokens)
    } else {
        Ok((List::new(alloc), tokens))
    }
}
