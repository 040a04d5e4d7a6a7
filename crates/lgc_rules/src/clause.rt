// Clauses of an operator: literals, and lists of clauses.
ghost use Rattle.std.specs.Prelude.{◌≡◌, [], ◌∷◌, ◌++◌, ◌<◌, ◌≤◌, length, OnOk, IfOk};
ghost use Rattle.lgc_values.specs.Values.{IsSize};
ghost use Rattle.lgc_lexer.specs.Spans.{AllIn};
ghost use Rattle.lgc_tokens.specs.Spelled.{spelled_all, IsRest, IsShorter};
ghost use Rattle.lgc_tokens.specs.Classes.{AsksForNumber, is_number};
ghost use Rattle.lgc_rules.specs.Names.{padded};
ghost use Rattle.lgc_rules.specs.RuleReading.{literal_at, next_literal_at, more_literals_at, literals_at, empty_clause_at, clause_at, next_clause_at, more_clauses_at, some_clauses_at, clauses_at};
ghost use Rattle.lgc_tokens.specs.Gives.{Gives};

use crate::reading::{Rest, number_from};
use crate::set::read_set;
use lgc_clauses::Clause;
use lgc_lexer::Token;
use lgc_syntax::BAD_ARGUMENT;
use lgc_tokens::{Class, Reading, Terminal, next_is, one};
use lgc_values::{List, Matrix, ValueSet};
use std::alloc::{AllocError, Global};

// Appends empty sets, so that there are `width` at least.
fn pad<const N: usize>(
    m: &Matrix<N>,
    sets: &mut List<ValueSet<N>>,
    width: usize,
) -> Result<(), AllocError>
    ensures { OnOk result (sets.new ≡ padded width sets.old) }
{
    while sets.len() < width {
        sets.push(m.empty_set())?;
    }
    Ok(())
}

// A literal for an argument behind those that have their sets already.
#[tactic(auto, unfolding(crate::specs::RuleReading::literal_at))]
fn literal<'a, const N: usize>(
    m: &Matrix<N>,
    bytes: &[u8],
    arity: u8,
    terminal: Terminal,
    sets: &mut List<ValueSet<N>>,
    tokens: &'a [Token],
) -> Rest<'a>
    requires inside { AllIn bytes.now tokens.now }
    requires number { AsksForNumber terminal }
    requires few { length sets.old ≤ arity }
    ensures gives { Gives bytes.now (λ x. (sets.new, spelled_all bytes.now x.now)) result (literal_at N m.now arity terminal sets.old (spelled_all bytes.now tokens.now)) }
    ensures few { IfOk result (λ _. length sets.new ≤ arity) }
    ensures rest { IfOk result (λ x. IsShorter bytes.now tokens.now x.now) }
{
    let least = sets.len() as u32 + 1;
    let (argument, rest) = number_from(
        bytes,
        least,
        u32::from(arity),
        BAD_ARGUMENT,
        terminal,
        tokens,
    )?;
    let (_, rest) = one(bytes, Terminal::Only(Class::Caret), rest)?;
    let (set, rest) = tried!(read_set(m, bytes, rest));
    pad(m, sets, argument as usize - 1)?;
    sets.push(set)?;
    Ok(rest)
}

// A comma and a literal.
fn next_literal<'a, const N: usize>(
    m: &Matrix<N>,
    bytes: &[u8],
    arity: u8,
    sets: &mut List<ValueSet<N>>,
    tokens: &'a [Token],
) -> Rest<'a>
    requires inside { AllIn bytes.now tokens.now }
    requires few { length sets.old ≤ arity }
    ensures gives { Gives bytes.now (λ x. (sets.new, spelled_all bytes.now x.now)) result (next_literal_at N m.now arity sets.old (spelled_all bytes.now tokens.now)) }
    ensures few { IfOk result (λ _. length sets.new ≤ arity) }
    ensures rest { IfOk result (λ x. IsShorter bytes.now tokens.now x.now) }
{
    let (_, rest) = one(bytes, Terminal::Only(Class::Comma), tokens)?;
    literal(m, bytes, arity, Terminal::Number, sets, rest)
}

// Literals behind others, each behind a comma.
fn more_literals<'a, const N: usize>(
    m: &Matrix<N>,
    bytes: &[u8],
    arity: u8,
    sets: &mut List<ValueSet<N>>,
    tokens: &'a [Token],
) -> Rest<'a>
    requires inside { AllIn bytes.now tokens.now }
    requires few { length sets.old ≤ arity }
    ensures gives { Gives bytes.now (λ x. (sets.new, spelled_all bytes.now x.now)) result (more_literals_at N m.now arity sets.old (spelled_all bytes.now tokens.now)) }
    ensures rest { IfOk result (λ x. IsRest bytes.now tokens.now x.now) }
{
    let mut rest = tokens;
    while next_is(bytes, Terminal::Only(Class::Comma), rest) {
        rest = next_literal(m, bytes, arity, sets, rest)?;
    }
    Ok(rest)
}

// One literal or more.
#[tactic(auto, unfolding(crate::specs::RuleReading::literals_at))]
fn literals<'a, const N: usize>(
    alloc: Global,
    m: &Matrix<N>,
    bytes: &[u8],
    arity: u8,
    tokens: &'a [Token],
) -> Reading<'a, Clause<N>>
    requires { AllIn bytes.now tokens.now }
    ensures gives { Gives bytes.now (λ x. (x.0, spelled_all bytes.now x.1.now)) result (literals_at N m.now arity (spelled_all bytes.now tokens.now)) }
    ensures rest { IfOk result (λ x. IsShorter bytes.now tokens.now x.1.now) }
{
    let mut sets = List::new(alloc);
    let rest = literal(m, bytes, arity, Terminal::Argument, &mut sets, tokens)?;
    let rest = more_literals(m, bytes, arity, &mut sets, rest)?;
    pad(m, &mut sets, usize::from(arity))?;
    Ok((Clause { sets }, rest))
}

// The clause without literals.
#[tactic(auto, unfolding(crate::specs::RuleReading::empty_clause_at))]
fn empty_clause<'a, const N: usize>(
    alloc: Global,
    m: &Matrix<N>,
    bytes: &[u8],
    arity: u8,
    tokens: &'a [Token],
) -> Reading<'a, Clause<N>>
    requires { AllIn bytes.now tokens.now }
    ensures gives { Gives bytes.now (λ x. (x.0, spelled_all bytes.now x.1.now)) result (empty_clause_at arity (spelled_all bytes.now tokens.now)) }
    ensures rest { IfOk result (λ x. IsShorter bytes.now tokens.now x.1.now) }
{
    let (_, rest) = one(bytes, Terminal::Only(Class::Zero), tokens)?;
    let mut sets = List::new(alloc);
    pad(m, &mut sets, usize::from(arity))?;
    Ok((Clause { sets }, rest))
}

// A clause: the set of each argument.
#[tactic(auto, unfolding(crate::specs::RuleReading::clause_at))]
fn clause<'a, const N: usize>(
    alloc: Global,
    m: &Matrix<N>,
    bytes: &[u8],
    arity: u8,
    tokens: &'a [Token],
) -> Reading<'a, Clause<N>>
    requires { AllIn bytes.now tokens.now }
    ensures gives { Gives bytes.now (λ x. (x.0, spelled_all bytes.now x.1.now)) result (clause_at N m.now arity (spelled_all bytes.now tokens.now)) }
    ensures rest { IfOk result (λ x. IsShorter bytes.now tokens.now x.1.now) }
{
    if next_is(bytes, Terminal::Only(Class::Zero), tokens) {
        empty_clause(alloc, m, bytes, arity, tokens)
    } else {
        literals(alloc, m, bytes, arity, tokens)
    }
}

// A semicolon and a clause, which is appended.
fn next_clause<'a, const N: usize>(
    alloc: Global,
    m: &Matrix<N>,
    bytes: &[u8],
    arity: u8,
    clauses: &mut List<Clause<N>>,
    tokens: &'a [Token],
) -> Rest<'a>
    requires { AllIn bytes.now tokens.now }
    ensures gives { Gives bytes.now (λ x. (clauses.new, spelled_all bytes.now x.now)) result (next_clause_at (clause_at N m.now arity) clauses.old (spelled_all bytes.now tokens.now)) }
    ensures rest { IfOk result (λ x. IsShorter bytes.now tokens.now x.now) }
{
    let (_, rest) = one(bytes, Terminal::Only(Class::Semicolon), tokens)?;
    let (next, rest) = clause(alloc, m, bytes, arity, rest)?;
    clauses.push(next)?;
    Ok(rest)
}

// Clauses behind others, each behind a semicolon.
fn more_clauses<'a, const N: usize>(
    alloc: Global,
    m: &Matrix<N>,
    bytes: &[u8],
    arity: u8,
    clauses: &mut List<Clause<N>>,
    tokens: &'a [Token],
) -> Rest<'a>
    requires { AllIn bytes.now tokens.now }
    ensures gives { Gives bytes.now (λ x. (clauses.new, spelled_all bytes.now x.now)) result (more_clauses_at (clause_at N m.now arity) clauses.old (spelled_all bytes.now tokens.now)) }
    ensures rest { IfOk result (λ x. IsRest bytes.now tokens.now x.now) }
{
    let mut rest = tokens;
    while next_is(bytes, Terminal::Only(Class::Semicolon), rest) {
        rest = next_clause(alloc, m, bytes, arity, clauses, rest)?;
    }
    Ok(rest)
}

// One clause or more.
#[tactic(auto, unfolding(crate::specs::RuleReading::some_clauses_at))]
fn some_clauses<'a, const N: usize>(
    alloc: Global,
    m: &Matrix<N>,
    bytes: &[u8],
    arity: u8,
    tokens: &'a [Token],
) -> Reading<'a, List<Clause<N>>>
    requires { AllIn bytes.now tokens.now }
    ensures gives { Gives bytes.now (λ x. (x.0, spelled_all bytes.now x.1.now)) result (some_clauses_at (clause_at N m.now arity) (spelled_all bytes.now tokens.now)) }
    ensures rest { IfOk result (λ x. IsRest bytes.now tokens.now x.1.now) }
{
    let (first, rest) = clause(alloc, m, bytes, arity, tokens)?;
    let mut clauses = List::new(alloc);
    clauses.push(first)?;
    let rest = more_clauses(alloc, m, bytes, arity, &mut clauses, rest)?;
    Ok((clauses, rest))
}

/// Clauses with semicolons between them, or none.
#[tactic(auto, unfolding(crate::specs::RuleReading::clauses_at))]
pub(crate) fn read_clauses<'a, const N: usize>(
    alloc: Global,
    m: &Matrix<N>,
    bytes: &[u8],
    arity: u8,
    tokens: &'a [Token],
) -> Reading<'a, List<Clause<N>>>
    requires { AllIn bytes.now tokens.now }
    ensures gives { Gives bytes.now (λ x. (x.0, spelled_all bytes.now x.1.now)) result (clauses_at is_number (clause_at N m.now arity) (spelled_all bytes.now tokens.now)) }
    ensures rest { IfOk result (λ x. IsRest bytes.now tokens.now x.1.now) }
{
    if next_is(bytes, Terminal::Number, tokens) {
        some_clauses(alloc, m, bytes, arity, tokens)
    } else {
        Ok((List::new(alloc), tokens))
    }
}
