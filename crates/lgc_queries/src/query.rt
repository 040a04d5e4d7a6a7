// Queries of the four kinds.
ghost use Rattle.std.specs.Prelude.{◌≡◌, IfOk};
ghost use Rattle.lgc_lexer.specs.Spans.{AllIn};
ghost use Rattle.lgc_tokens.specs.Spelled.{IsShorter};
ghost use Rattle.lgc_tokens.specs.Gives.{GivesAs};
ghost use Rattle.lgc_formulas.specs.Named.{named_all};
ghost use Rattle.lgc_formulas.specs.Setting.{setting_of};
ghost use Rattle.lgc_queries.specs.QueryGrammar.{entailment, mixed_entailment, equation, quasi_equation};
ghost use Rattle.lgc_queries.specs.QueryReading.{entail_query_at, mixed_query_at, equation_query_at, quasi_query_at, one_query_at};

use crate::equation::{equation, equation_premises, premises};
use crate::read::{EquationRead, Equations, QueryRead};
use crate::set::named_set;
use lgc_formulas::{Context, Formulas, Read, formula_list, next_is, one, one_formula};
use lgc_lexer::Token;
use lgc_meaning::{Pair, Query};
use lgc_syntax::Formula;
use lgc_tokens::{Class, Reading};
use lgc_values::{List, Matrix, ValueSet};
use std::alloc::{AllocError, Global};

// ---- trees of queries

fn entailment<const N: usize>(
    alloc: Global,
    m: &Matrix<N>,
    premises: List<Formula>,
    conclusion: Read,
) -> Result<QueryRead, AllocError>
    ensures { IfOk result (λ x. x ≡ entailment m.now premises conclusion) }
{
    let designated = m.designated().mask();
    let Read {
        formula,
        nodes_left: _,
        is_bare,
    } = conclusion;
    let mut conclusions = List::new(alloc);
    conclusions.push(formula)?;
    let query = Query::Mixed {
        given: designated,
        wanted: designated,
        premises,
        conclusions,
    };
    Ok(QueryRead { query, is_bare })
}

fn mixed_entailment<const N: usize>(
    given: ValueSet<N>,
    wanted: ValueSet<N>,
    premises: List<Formula>,
    conclusions: Formulas,
) -> QueryRead
    ensures { result ≡ mixed_entailment given.entry wanted.entry premises conclusions }
{
    let Formulas {
        list,
        nodes_left: _,
        is_bare,
    } = conclusions;
    let query = Query::Mixed {
        given: given.mask(),
        wanted: wanted.mask(),
        premises,
        conclusions: list,
    };
    QueryRead { query, is_bare }
}

fn equation_alone(read: EquationRead) -> QueryRead
    ensures { result ≡ equation read }
{
    let EquationRead {
        pair,
        nodes_left: _,
        is_bare,
    } = read;
    QueryRead {
        query: Query::Equation(pair),
        is_bare,
    }
}

fn quasi_equation(premises: List<Pair>, conclusion: EquationRead) -> QueryRead
    ensures { result ≡ quasi_equation premises conclusion }
{
    let EquationRead {
        pair,
        nodes_left: _,
        is_bare,
    } = conclusion;
    let query = Query::Quasi {
        premises,
        conclusion: pair,
    };
    QueryRead { query, is_bare }
}

// ---- the four kinds

#[tactic(auto, unfolding(crate::specs::QueryReading::entail_query_at))]
fn entail_query<'a, const N: usize>(
    alloc: Global,
    c: &Context<N>,
    many: u32,
    tokens: &'a [Token],
) -> Reading<'a, QueryRead>
    requires { AllIn c.now.bytes.now tokens.now }
    ensures gives { GivesAs (named_all c.now.m.now c.now.bytes.now) (λ x. (x.0, named_all c.now.m.now c.now.bytes.now x.1.now)) result (entail_query_at (setting_of c.now) many (named_all c.now.m.now c.now.bytes.now tokens.now)) }
    ensures rest { IfOk result (λ x. IsShorter c.now.bytes.now tokens.now x.1.now) }
{
    let (_, rest) = one(c, Class::EntailWord, tokens)?;
    let (before, rest) = premises(alloc, c, many, rest)?;
    let Formulas {
        list,
        nodes_left,
        is_bare: _,
    } = before;
    let (conclusion, rest) = one_formula(alloc, c, nodes_left, rest)?;
    let query = entailment(alloc, c.m, list, conclusion)?;
    Ok((query, rest))
}

#[tactic(auto, unfolding(crate::specs::QueryReading::mixed_query_at))]
fn mixed_query<'a, const N: usize>(
    alloc: Global,
    c: &Context<N>,
    many: u32,
    tokens: &'a [Token],
) -> Reading<'a, QueryRead>
    requires { AllIn c.now.bytes.now tokens.now }
    ensures gives { GivesAs (named_all c.now.m.now c.now.bytes.now) (λ x. (x.0, named_all c.now.m.now c.now.bytes.now x.1.now)) result (mixed_query_at (setting_of c.now) many (named_all c.now.m.now c.now.bytes.now tokens.now)) }
    ensures rest { IfOk result (λ x. IsShorter c.now.bytes.now tokens.now x.1.now) }
{
    let (_, rest) = one(c, Class::MixedWord, tokens)?;
    let (given, rest) = tried!(named_set(c, rest));
    let (_, rest) = one(c, Class::Comma, rest)?;
    let (wanted, rest) = tried!(named_set(c, rest));
    let (_, rest) = one(c, Class::Colon, rest)?;
    let (before, rest) = premises(alloc, c, many, rest)?;
    let Formulas {
        list,
        nodes_left,
        is_bare: _,
    } = before;
    let (conclusions, rest) = formula_list(alloc, c, nodes_left, rest)?;
    Ok((mixed_entailment(given, wanted, list, conclusions), rest))
}

#[tactic(auto, unfolding(crate::specs::QueryReading::equation_query_at))]
fn equation_query<'a, const N: usize>(
    alloc: Global,
    c: &Context<N>,
    many: u32,
    tokens: &'a [Token],
) -> Reading<'a, QueryRead>
    requires { AllIn c.now.bytes.now tokens.now }
    ensures gives { GivesAs (named_all c.now.m.now c.now.bytes.now) (λ x. (x.0, named_all c.now.m.now c.now.bytes.now x.1.now)) result (equation_query_at (setting_of c.now) many (named_all c.now.m.now c.now.bytes.now tokens.now)) }
    ensures rest { IfOk result (λ x. IsShorter c.now.bytes.now tokens.now x.1.now) }
{
    let (_, rest) = one(c, Class::EquationWord, tokens)?;
    let (read, rest) = equation(alloc, c, many, rest)?;
    Ok((equation_alone(read), rest))
}

#[tactic(auto, unfolding(crate::specs::QueryReading::quasi_query_at))]
fn quasi_query<'a, const N: usize>(
    alloc: Global,
    c: &Context<N>,
    many: u32,
    tokens: &'a [Token],
) -> Reading<'a, QueryRead>
    requires { AllIn c.now.bytes.now tokens.now }
    ensures gives { GivesAs (named_all c.now.m.now c.now.bytes.now) (λ x. (x.0, named_all c.now.m.now c.now.bytes.now x.1.now)) result (quasi_query_at (setting_of c.now) many (named_all c.now.m.now c.now.bytes.now tokens.now)) }
    ensures rest { IfOk result (λ x. IsShorter c.now.bytes.now tokens.now x.1.now) }
{
    let (_, rest) = one(c, Class::QuasiWord, tokens)?;
    let (before, rest) = equation_premises(alloc, c, many, rest)?;
    let Equations {
        list,
        nodes_left,
        is_bare: _,
    } = before;
    let (conclusion, rest) = equation(alloc, c, nodes_left, rest)?;
    Ok((quasi_equation(list, conclusion), rest))
}

/// A query, where `many` nodes are left for all of its formulas. The last of them may be bare.
///
/// Whoever reads on behind the query bars it: where the last formula is bare, the rule of the number of arguments is broken by each token
/// that could go on there. The goals aren't counted. A stop is before the first token at which there is one of the faults 4 to 10, or 13
/// where quantifiers may not stand, or 15 where formulas have numbers, by the constants of `InputFault`; or it is for want of memory.
#[tactic(auto, unfolding(crate::specs::QueryReading::one_query_at))]
pub fn one_query<'a, const N: usize>(
    alloc: Global,
    c: &Context<N>,
    many: u32,
    tokens: &'a [Token],
) -> Reading<'a, QueryRead>
    requires { AllIn c.now.bytes.now tokens.now }
    ensures gives { GivesAs (named_all c.now.m.now c.now.bytes.now) (λ x. (x.0, named_all c.now.m.now c.now.bytes.now x.1.now)) result (one_query_at (setting_of c.now) many (named_all c.now.m.now c.now.bytes.now tokens.now)) }
    ensures rest { IfOk result (λ x. IsShorter c.now.bytes.now tokens.now x.1.now) }
{
    if next_is(c, Class::EntailWord, tokens) {
        entail_query(alloc, c, many, tokens)
    } else if next_is(c, Class::MixedWord, tokens) {
        mixed_query(alloc, c, many, tokens)
    } else if next_is(c, Class::EquationWord, tokens) {
        equation_query(alloc, c, many, tokens)
    } else {
        quasi_query(alloc, c, many, tokens)
    }
}
