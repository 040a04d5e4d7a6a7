// What other readers read, among the tokens of reports.
ghost use Rattle.std.specs.Prelude.{IfOk};
ghost use Rattle.lgc_lexer.specs.Spans.{AllIn};
ghost use Rattle.lgc_tokens.specs.Spelled.{spelled_all, IsShorter};
ghost use Rattle.lgc_tokens.specs.Gives.{Gives, GivesAs};
ghost use Rattle.lgc_formulas.specs.Setting.{setting_of};
ghost use Rattle.lgc_formulas.specs.FormulaTexts.{lone_term_at};
ghost use Rattle.lgc_report_reader.specs.Reported.{reports};
ghost use Rattle.lgc_report_reader.specs.ReportReading.{term_here_at, formula_here_at, set_here_at, value_here_at, query_here_at, rule_here_at};

use lgc_clauses::Numbered;
use lgc_formulas::{Context, MOST_NODES, Read, one_formula, one_term};
use lgc_lexer::Token;
use lgc_queries::{QueryRead, one_query};
use lgc_rules::{one_rule, read_set, read_value};
use lgc_syntax::Term;
use lgc_tokens::{MOST_NUMBER, Reading};
use lgc_values::ValueSet;
use std::alloc::Global;

// A term of 1,000 nodes at most, without those that are left.
fn lone_term<'a>(alloc: Global, bytes: &[u8], tokens: &'a [Token]) -> Reading<'a, Term>
    requires { AllIn bytes.now tokens.now }
    ensures gives { Gives bytes.now (λ x. (x.0, spelled_all bytes.now x.1.now)) result (lone_term_at (spelled_all bytes.now tokens.now)) }
    ensures rest { IfOk result (λ x. IsShorter bytes.now tokens.now x.1.now) }
{
    let ((term, _), rest) = one_term(alloc, bytes, MOST_NODES, tokens)?;
    Ok((term, rest))
}

/// A term.
pub(crate) fn term<'a, const N: usize>(
    alloc: Global,
    c: &Context<N>,
    tokens: &'a [Token],
) -> Reading<'a, Term>
    requires { AllIn c.now.bytes.now tokens.now }
    ensures gives { GivesAs (reports c.now) (λ x. (x.0, reports c.now x.1.now)) result (term_here_at (reports c.now tokens.now)) }
    ensures rest { IfOk result (λ x. IsShorter c.now.bytes.now tokens.now x.1.now) }
{
    lone_term(alloc, c.bytes, tokens)
}

/// A formula, which may be bare.
pub(crate) fn formula<'a, const N: usize>(
    alloc: Global,
    c: &Context<N>,
    tokens: &'a [Token],
) -> Reading<'a, Read>
    requires { AllIn c.now.bytes.now tokens.now }
    ensures gives { GivesAs (reports c.now) (λ x. (x.0, reports c.now x.1.now)) result (formula_here_at (setting_of c.now) (reports c.now tokens.now)) }
    ensures rest { IfOk result (λ x. IsShorter c.now.bytes.now tokens.now x.1.now) }
{
    one_formula(alloc, c, MOST_NODES, tokens)
}

/// A set of truth values.
pub(crate) fn set<'a, const N: usize>(
    c: &Context<N>,
    tokens: &'a [Token],
) -> Reading<'a, ValueSet<N>>
    requires { AllIn c.now.bytes.now tokens.now }
    ensures gives { GivesAs (reports c.now) (λ x. (x.0, reports c.now x.1.now)) result (set_here_at N c.now.m.now (reports c.now tokens.now)) }
    ensures rest { IfOk result (λ x. IsShorter c.now.bytes.now tokens.now x.1.now) }
{
    read_set(c.m, c.bytes, tokens)
}

/// A truth value.
pub(crate) fn value<'a, const N: usize>(c: &Context<N>, tokens: &'a [Token]) -> Reading<'a, u8>
    requires { AllIn c.now.bytes.now tokens.now }
    ensures gives { GivesAs (reports c.now) (λ x. (x.0, reports c.now x.1.now)) result (value_here_at c.now.m.now (reports c.now tokens.now)) }
    ensures rest { IfOk result (λ x. IsShorter c.now.bytes.now tokens.now x.1.now) }
{
    read_value(c.m, c.bytes, tokens)
}

/// A query, whose last formula may be bare.
pub(crate) fn query<'a, const N: usize>(
    alloc: Global,
    c: &Context<N>,
    tokens: &'a [Token],
) -> Reading<'a, QueryRead>
    requires { AllIn c.now.bytes.now tokens.now }
    ensures gives { GivesAs (reports c.now) (λ x. (x.0, reports c.now x.1.now)) result (query_here_at (setting_of c.now) (reports c.now tokens.now)) }
    ensures rest { IfOk result (λ x. IsShorter c.now.bytes.now tokens.now x.1.now) }
{
    one_query(alloc, c, MOST_NODES, tokens)
}

/// A rule with any number.
pub(crate) fn rule<'a, const N: usize>(
    alloc: Global,
    c: &Context<N>,
    tokens: &'a [Token],
) -> Reading<'a, Numbered<N>>
    requires { AllIn c.now.bytes.now tokens.now }
    ensures gives { GivesAs (reports c.now) (λ x. (x.0, reports c.now x.1.now)) result (rule_here_at N c.now.m.now (reports c.now tokens.now)) }
    ensures rest { IfOk result (λ x. IsShorter c.now.bytes.now tokens.now x.1.now) }
{
    one_rule(alloc, c.m, c.bytes, 0, MOST_NUMBER, tokens)
}
