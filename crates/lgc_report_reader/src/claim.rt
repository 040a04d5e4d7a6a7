// Claims.
ghost use Rattle.std.specs.Prelude.{None, IfOk};
ghost use Rattle.lgc_lexer.specs.Spans.{AllIn};
ghost use Rattle.lgc_tokens.specs.declared.class.Class.TheVariants.{ProvedWord, UnfinishedWord};
ghost use Rattle.lgc_tokens.specs.Spelled.{IsShorter};
ghost use Rattle.lgc_tokens.specs.Gives.{GivesAs};
ghost use Rattle.lgc_formulas.specs.Setting.{setting_of};
ghost use Rattle.lgc_report.specs.declared.report.Evidence.TheVariants.{Proved, Unfinished};
ghost use Rattle.lgc_report_reader.specs.Reported.{reports, starts_query, starts_sequent};
ghost use Rattle.lgc_report_reader.specs.Starting.{starting_at};
ghost use Rattle.lgc_report_reader.specs.ReportReading.{items_at, query_here_at, by_positions_at, at_valuation_at, evidence_at, behind_query_at, answer_at, holds_at, claim_at};

use crate::cited::positions;
use crate::entry::entries;
use crate::line::sequent;
use crate::part::query;
use crate::token::{
    next_ends_query, next_is, next_starts_query, number, one, position, starts_query,
    starts_sequent,
};
use lgc_formulas::Context;
use lgc_lexer::Token;
use lgc_queries::{QueryRead, has_too_many_goals};
use lgc_report::{Claim, Evidence};
use lgc_sequents::Sequent;
use lgc_syntax::{TOO_MANY_GOALS, WRONG_ARITY};
use lgc_tokens::{Class, Reading, Stop};
use std::alloc::Global;

// ---- evidence, with the point behind it

#[tactic(auto, unfolding(crate::specs::ReportReading::by_positions_at, crate::specs::ReportReading::ended_at))]
fn proved<'a, const N: usize>(
    alloc: Global,
    c: &Context<N>,
    tokens: &'a [Token],
) -> Reading<'a, Evidence>
    requires { AllIn c.now.bytes.now tokens.now }
    ensures gives { GivesAs (reports c.now) (λ x. (x.0, reports c.now x.1.now)) result (by_positions_at N (setting_of c.now) ProvedWord Proved (reports c.now tokens.now)) }
    ensures rest { IfOk result (λ x. IsShorter c.now.bytes.now tokens.now x.1.now) }
{
    let (_, rest) = one(c, Class::ProvedWord, tokens)?;
    let (_, rest) = one(c, Class::ByWord, rest)?;
    let (cited, rest) = positions(alloc, c, rest)?;
    let (_, rest) = one(c, Class::Dot, rest)?;
    Ok((Evidence::Proved(cited), rest))
}

#[tactic(auto, unfolding(crate::specs::ReportReading::by_positions_at, crate::specs::ReportReading::ended_at))]
fn unfinished<'a, const N: usize>(
    alloc: Global,
    c: &Context<N>,
    tokens: &'a [Token],
) -> Reading<'a, Evidence>
    requires { AllIn c.now.bytes.now tokens.now }
    ensures gives { GivesAs (reports c.now) (λ x. (x.0, reports c.now x.1.now)) result (by_positions_at N (setting_of c.now) UnfinishedWord Unfinished (reports c.now tokens.now)) }
    ensures rest { IfOk result (λ x. IsShorter c.now.bytes.now tokens.now x.1.now) }
{
    let (_, rest) = one(c, Class::UnfinishedWord, tokens)?;
    let (_, rest) = one(c, Class::ByWord, rest)?;
    let (cited, rest) = positions(alloc, c, rest)?;
    let (_, rest) = one(c, Class::Dot, rest)?;
    Ok((Evidence::Unfinished(cited), rest))
}

#[tactic(auto, unfolding(crate::specs::ReportReading::at_valuation_at, crate::specs::ReportReading::ended_at))]
fn refuted<'a, const N: usize>(
    alloc: Global,
    c: &Context<N>,
    tokens: &'a [Token],
) -> Reading<'a, Evidence>
    requires { AllIn c.now.bytes.now tokens.now }
    ensures gives { GivesAs (reports c.now) (λ x. (x.0, reports c.now x.1.now)) result (at_valuation_at N (setting_of c.now) (reports c.now tokens.now)) }
    ensures rest { IfOk result (λ x. IsShorter c.now.bytes.now tokens.now x.1.now) }
{
    let (_, rest) = one(c, Class::RefutedWord, tokens)?;
    let (_, rest) = one(c, Class::AtWord, rest)?;
    let (_, rest) = one(c, Class::OpenBrace, rest)?;
    let (entries, rest) = entries(alloc, c, rest)?;
    let (_, rest) = one(c, Class::CloseBrace, rest)?;
    let (_, rest) = one(c, Class::Dot, rest)?;
    Ok((Evidence::Refuted(entries), rest))
}

#[tactic(auto, unfolding(crate::specs::ReportReading::evidence_at))]
fn evidence<'a, const N: usize>(
    alloc: Global,
    c: &Context<N>,
    tokens: &'a [Token],
) -> Reading<'a, Evidence>
    requires { AllIn c.now.bytes.now tokens.now }
    ensures gives { GivesAs (reports c.now) (λ x. (x.0, reports c.now x.1.now)) result (evidence_at N (setting_of c.now) (reports c.now tokens.now)) }
    ensures rest { IfOk result (λ x. IsShorter c.now.bytes.now tokens.now x.1.now) }
{
    if next_is(c, Class::ProvedWord, tokens) {
        proved(alloc, c, tokens)
    } else if next_is(c, Class::UnfinishedWord, tokens) {
        unfinished(alloc, c, tokens)
    } else {
        refuted(alloc, c, tokens)
    }
}

// ---- claims on queries

// Evidence behind a query.
#[tactic(auto, unfolding(crate::specs::ReportReading::behind_query_at))]
fn behind_query<'a, const N: usize>(
    alloc: Global,
    c: &Context<N>,
    number: u32,
    read: QueryRead,
    tokens: &'a [Token],
) -> Reading<'a, Claim<N>>
    requires { AllIn c.now.bytes.now tokens.now }
    ensures gives { GivesAs (reports c.now) (λ x. (x.0, reports c.now x.1.now)) result (behind_query_at N (setting_of c.now) number read (reports c.now tokens.now)) }
    ensures rest { IfOk result (λ x. IsShorter c.now.bytes.now tokens.now x.1.now) }
{
    let QueryRead { query, is_bare } = read;
    if is_bare {
        return Err(if next_ends_query(c, tokens) {
            Stop::Breaks(WRONG_ARITY, tokens)
        } else {
            Stop::Unexpected(tokens)
        });
    }
    if has_too_many_goals(c.m, &query) {
        return Err(if next_ends_query(c, tokens) {
            Stop::Breaks(TOO_MANY_GOALS, tokens)
        } else {
            Stop::Unexpected(tokens)
        });
    }
    let (evidence, rest) = evidence(alloc, c, tokens)?;
    let claim = Claim::Answer {
        number,
        query,
        evidence,
    };
    Ok((claim, rest))
}

// A query whose keyword isn't the name of a formula.
fn claimed_query<'a, const N: usize>(
    alloc: Global,
    c: &Context<N>,
    tokens: &'a [Token],
) -> Reading<'a, QueryRead>
    requires { AllIn c.now.bytes.now tokens.now }
    ensures gives { GivesAs (reports c.now) (λ x. (x.0, reports c.now x.1.now)) result (starting_at starts_query (λ _. None) (query_here_at (setting_of c.now)) (reports c.now tokens.now)) }
    ensures rest { IfOk result (λ x. IsShorter c.now.bytes.now tokens.now x.1.now) }
{
    match tokens.split_first() {
        Some((token, rest)) if starts_query(c, token, rest) => query(alloc, c, tokens),
        _ => Err(Stop::Unexpected(tokens)),
    }
}

#[tactic(auto, unfolding(crate::specs::ReportReading::answer_at))]
fn answer<'a, const N: usize>(
    alloc: Global,
    c: &Context<N>,
    number: u32,
    tokens: &'a [Token],
) -> Reading<'a, Claim<N>>
    requires { AllIn c.now.bytes.now tokens.now }
    ensures gives { GivesAs (reports c.now) (λ x. (x.0, reports c.now x.1.now)) result (answer_at N (setting_of c.now) number (reports c.now tokens.now)) }
    ensures rest { IfOk result (λ x. IsShorter c.now.bytes.now tokens.now x.1.now) }
{
    let (query, rest) = claimed_query(alloc, c, tokens)?;
    behind_query(alloc, c, number, query, rest)
}

// ---- claims on sequents

// A sequent that doesn't begin with the keyword of a query.
fn claimed_sequent<'a, const N: usize>(
    alloc: Global,
    c: &Context<N>,
    tokens: &'a [Token],
) -> Reading<'a, Sequent<N>>
    requires { AllIn c.now.bytes.now tokens.now }
    ensures gives { GivesAs (reports c.now) (λ x. (x.0, reports c.now x.1.now)) result (starting_at (starts_sequent (setting_of c.now)) (λ _. None) (items_at N (setting_of c.now)) (reports c.now tokens.now)) }
    ensures rest { IfOk result (λ x. IsShorter c.now.bytes.now tokens.now x.1.now) }
{
    match tokens.split_first() {
        Some((token, rest)) if starts_sequent(c, token, rest) => sequent(alloc, c, tokens),
        _ => Err(Stop::Unexpected(tokens)),
    }
}

#[tactic(auto, unfolding(crate::specs::ReportReading::holds_at, crate::specs::ReportReading::ended_at))]
fn holds<'a, const N: usize>(
    alloc: Global,
    c: &Context<N>,
    number: u32,
    tokens: &'a [Token],
) -> Reading<'a, Claim<N>>
    requires { AllIn c.now.bytes.now tokens.now }
    ensures gives { GivesAs (reports c.now) (λ x. (x.0, reports c.now x.1.now)) result (holds_at N (setting_of c.now) number (reports c.now tokens.now)) }
    ensures rest { IfOk result (λ x. IsShorter c.now.bytes.now tokens.now x.1.now) }
{
    let (sequent, rest) = claimed_sequent(alloc, c, tokens)?;
    let (_, rest) = one(c, Class::HoldsWord, rest)?;
    let (_, rest) = one(c, Class::ByWord, rest)?;
    let (line, rest) = position(c, rest)?;
    let (_, rest) = one(c, Class::Dot, rest)?;
    let claim = Claim::Holds {
        number,
        sequent,
        line,
    };
    Ok((claim, rest))
}

/// A claim, with whatever number.
#[tactic(auto, unfolding(crate::specs::ReportReading::claim_at))]
pub(crate) fn claim<'a, const N: usize>(
    alloc: Global,
    c: &Context<N>,
    tokens: &'a [Token],
) -> Reading<'a, Claim<N>>
    requires { AllIn c.now.bytes.now tokens.now }
    ensures gives { GivesAs (reports c.now) (λ x. (x.0, reports c.now x.1.now)) result (claim_at N (setting_of c.now) (reports c.now tokens.now)) }
    ensures rest { IfOk result (λ x. IsShorter c.now.bytes.now tokens.now x.1.now) }
{
    let (_, rest) = one(c, Class::ClaimWord, tokens)?;
    let (number, rest) = number(c, rest)?;
    let (_, rest) = one(c, Class::Colon, rest)?;
    if next_starts_query(c, rest) {
        answer(alloc, c, number, rest)
    } else {
        holds(alloc, c, number, rest)
    }
}
