// Terms, cited lines and positions.
ghost use Rattle.std.specs.Prelude.{[], IfOk};
ghost use Rattle.lgc_lexer.specs.Spans.{AllIn};
ghost use Rattle.lgc_tokens.specs.Spelled.{IsRest, IsShorter};
ghost use Rattle.lgc_tokens.specs.Gives.{GivesAs};
ghost use Rattle.lgc_grammar.specs.Reading.{optional_at};
ghost use Rattle.lgc_tokens.specs.declared.class.Class.TheVariants.{FromWord, OpenSquare};
ghost use Rattle.lgc_report_reader.specs.Reported.{reports, is};
ghost use Rattle.lgc_report_reader.specs.ReportReading.{next_term_at, more_terms_at, terms_here_at, cited_at, next_cited_at, more_cited_at, premises_at, next_position_at, more_positions_at, positions_at};

use crate::part::term;
use crate::token::{Rest, next_is, one, position};
use lgc_formulas::Context;
use lgc_lexer::Token;
use lgc_sequents::Cited;
use lgc_syntax::Term;
use lgc_tokens::{Class, Reading};
use lgc_values::List;
use std::alloc::Global;

// ---- terms

// A comma and a term, which is appended.
#[tactic(auto, unfolding(crate::specs::ReportReading::next_term_at))]
fn next_term<'a, const N: usize>(
    alloc: Global,
    c: &Context<N>,
    terms: &mut List<Term>,
    tokens: &'a [Token],
) -> Rest<'a>
    requires { AllIn c.now.bytes.now tokens.now }
    ensures gives { GivesAs (reports c.now) (λ x. (terms.new, reports c.now x.now)) result (next_term_at terms.old (reports c.now tokens.now)) }
    ensures rest { IfOk result (λ x. IsShorter c.now.bytes.now tokens.now x.now) }
{
    let (_, rest) = one(c, Class::Comma, tokens)?;
    let (next, rest) = term(alloc, c, rest)?;
    terms.push(next)?;
    Ok(rest)
}

// Terms behind these, each behind a comma.
fn more_terms<'a, const N: usize>(
    alloc: Global,
    c: &Context<N>,
    terms: &mut List<Term>,
    tokens: &'a [Token],
) -> Rest<'a>
    requires { AllIn c.now.bytes.now tokens.now }
    ensures gives { GivesAs (reports c.now) (λ x. (terms.new, reports c.now x.now)) result (more_terms_at terms.old (reports c.now tokens.now)) }
    ensures rest { IfOk result (λ x. IsRest c.now.bytes.now tokens.now x.now) }
{
    let mut rest = tokens;
    while next_is(c, Class::Comma, rest) {
        rest = next_term(alloc, c, terms, rest)?;
    }
    Ok(rest)
}

// Terms in square brackets.
#[tactic(auto, unfolding(crate::specs::ReportReading::terms_here_at))]
fn some_terms<'a, const N: usize>(
    alloc: Global,
    c: &Context<N>,
    tokens: &'a [Token],
) -> Reading<'a, List<Term>>
    requires { AllIn c.now.bytes.now tokens.now }
    ensures gives { GivesAs (reports c.now) (λ x. (x.0, reports c.now x.1.now)) result (terms_here_at (reports c.now tokens.now)) }
    ensures rest { IfOk result (λ x. IsShorter c.now.bytes.now tokens.now x.1.now) }
{
    let (_, rest) = one(c, Class::OpenSquare, tokens)?;
    let (first, rest) = term(alloc, c, rest)?;
    let mut terms = List::new(alloc);
    terms.push(first)?;
    let rest = more_terms(alloc, c, &mut terms, rest)?;
    let (_, rest) = one(c, Class::CloseSquare, rest)?;
    Ok((terms, rest))
}

// The same, or no terms.
fn terms<'a, const N: usize>(
    alloc: Global,
    c: &Context<N>,
    tokens: &'a [Token],
) -> Reading<'a, List<Term>>
    requires { AllIn c.now.bytes.now tokens.now }
    ensures gives { GivesAs (reports c.now) (λ x. (x.0, reports c.now x.1.now)) result (optional_at (is OpenSquare) [] terms_here_at (reports c.now tokens.now)) }
    ensures rest { IfOk result (λ x. IsRest c.now.bytes.now tokens.now x.1.now) }
{
    if next_is(c, Class::OpenSquare, tokens) {
        some_terms(alloc, c, tokens)
    } else {
        Ok((List::new(alloc), tokens))
    }
}

// ---- cited lines

#[tactic(auto, unfolding(crate::specs::ReportReading::cited_at))]
fn cited<'a, const N: usize>(
    alloc: Global,
    c: &Context<N>,
    tokens: &'a [Token],
) -> Reading<'a, Cited>
    requires { AllIn c.now.bytes.now tokens.now }
    ensures gives { GivesAs (reports c.now) (λ x. (x.0, reports c.now x.1.now)) result (cited_at (reports c.now tokens.now)) }
    ensures rest { IfOk result (λ x. IsShorter c.now.bytes.now tokens.now x.1.now) }
{
    let (line, rest) = position(c, tokens)?;
    let (terms, rest) = terms(alloc, c, rest)?;
    Ok((Cited { line, terms }, rest))
}

// A comma and a cited line, which is appended.
#[tactic(auto, unfolding(crate::specs::ReportReading::next_cited_at))]
fn next_cited<'a, const N: usize>(
    alloc: Global,
    c: &Context<N>,
    lines: &mut List<Cited>,
    tokens: &'a [Token],
) -> Rest<'a>
    requires { AllIn c.now.bytes.now tokens.now }
    ensures gives { GivesAs (reports c.now) (λ x. (lines.new, reports c.now x.now)) result (next_cited_at lines.old (reports c.now tokens.now)) }
    ensures rest { IfOk result (λ x. IsShorter c.now.bytes.now tokens.now x.now) }
{
    let (_, rest) = one(c, Class::Comma, tokens)?;
    let (next, rest) = cited(alloc, c, rest)?;
    lines.push(next)?;
    Ok(rest)
}

// Cited lines behind these, each behind a comma.
fn more_cited<'a, const N: usize>(
    alloc: Global,
    c: &Context<N>,
    lines: &mut List<Cited>,
    tokens: &'a [Token],
) -> Rest<'a>
    requires { AllIn c.now.bytes.now tokens.now }
    ensures gives { GivesAs (reports c.now) (λ x. (lines.new, reports c.now x.now)) result (more_cited_at lines.old (reports c.now tokens.now)) }
    ensures rest { IfOk result (λ x. IsRest c.now.bytes.now tokens.now x.now) }
{
    let mut rest = tokens;
    while next_is(c, Class::Comma, rest) {
        rest = next_cited(alloc, c, lines, rest)?;
    }
    Ok(rest)
}

// The lines that a rule cites, behind the keyword.
#[tactic(auto, unfolding(crate::specs::ReportReading::premises_at))]
fn some_premises<'a, const N: usize>(
    alloc: Global,
    c: &Context<N>,
    tokens: &'a [Token],
) -> Reading<'a, List<Cited>>
    requires { AllIn c.now.bytes.now tokens.now }
    ensures gives { GivesAs (reports c.now) (λ x. (x.0, reports c.now x.1.now)) result (premises_at (reports c.now tokens.now)) }
    ensures rest { IfOk result (λ x. IsShorter c.now.bytes.now tokens.now x.1.now) }
{
    let (_, rest) = one(c, Class::FromWord, tokens)?;
    let (first, rest) = cited(alloc, c, rest)?;
    let mut lines = List::new(alloc);
    lines.push(first)?;
    let rest = more_cited(alloc, c, &mut lines, rest)?;
    Ok((lines, rest))
}

/// The lines that a rule cites, or none.
pub(crate) fn premises<'a, const N: usize>(
    alloc: Global,
    c: &Context<N>,
    tokens: &'a [Token],
) -> Reading<'a, List<Cited>>
    requires { AllIn c.now.bytes.now tokens.now }
    ensures gives { GivesAs (reports c.now) (λ x. (x.0, reports c.now x.1.now)) result (optional_at (is FromWord) [] premises_at (reports c.now tokens.now)) }
    ensures rest { IfOk result (λ x. IsRest c.now.bytes.now tokens.now x.1.now) }
{
    if next_is(c, Class::FromWord, tokens) {
        some_premises(alloc, c, tokens)
    } else {
        Ok((List::new(alloc), tokens))
    }
}

// ---- positions

// A comma and a position, which is appended.
#[tactic(auto, unfolding(crate::specs::ReportReading::next_position_at))]
fn next_position<'a, const N: usize>(
    c: &Context<N>,
    positions: &mut List<u64>,
    tokens: &'a [Token],
) -> Rest<'a>
    requires { AllIn c.now.bytes.now tokens.now }
    ensures gives { GivesAs (reports c.now) (λ x. (positions.new, reports c.now x.now)) result (next_position_at positions.old (reports c.now tokens.now)) }
    ensures rest { IfOk result (λ x. IsShorter c.now.bytes.now tokens.now x.now) }
{
    let (_, rest) = one(c, Class::Comma, tokens)?;
    let (next, rest) = position(c, rest)?;
    positions.push(next)?;
    Ok(rest)
}

// Positions behind these, each behind a comma.
fn more_positions<'a, const N: usize>(
    c: &Context<N>,
    positions: &mut List<u64>,
    tokens: &'a [Token],
) -> Rest<'a>
    requires { AllIn c.now.bytes.now tokens.now }
    ensures gives { GivesAs (reports c.now) (λ x. (positions.new, reports c.now x.now)) result (more_positions_at positions.old (reports c.now tokens.now)) }
    ensures rest { IfOk result (λ x. IsRest c.now.bytes.now tokens.now x.now) }
{
    let mut rest = tokens;
    while next_is(c, Class::Comma, rest) {
        rest = next_position(c, positions, rest)?;
    }
    Ok(rest)
}

/// The positions of lines, with commas between them.
#[tactic(auto, unfolding(crate::specs::ReportReading::positions_at))]
pub(crate) fn positions<'a, const N: usize>(
    alloc: Global,
    c: &Context<N>,
    tokens: &'a [Token],
) -> Reading<'a, List<u64>>
    requires { AllIn c.now.bytes.now tokens.now }
    ensures gives { GivesAs (reports c.now) (λ x. (x.0, reports c.now x.1.now)) result (positions_at (reports c.now tokens.now)) }
    ensures rest { IfOk result (λ x. IsShorter c.now.bytes.now tokens.now x.1.now) }
{
    let (first, rest) = position(c, tokens)?;
    let mut positions = List::new(alloc);
    positions.push(first)?;
    let rest = more_positions(c, &mut positions, rest)?;
    Ok((positions, rest))
}
