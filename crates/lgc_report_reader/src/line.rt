// Sequents and lines.
ghost use Rattle.std.specs.Prelude.{◌≡◌, IfOk};
ghost use Rattle.lgc_lexer.specs.Spans.{AllIn};
ghost use Rattle.lgc_sequents.specs.declared.line.Reason.TheVariants.{Axiom, Pending};
ghost use Rattle.lgc_tokens.specs.declared.class.Class.TheVariants.{AxiomWord, PendingWord};
ghost use Rattle.lgc_tokens.specs.Spelled.{IsRest, IsShorter};
ghost use Rattle.lgc_tokens.specs.Gives.{GivesAs};
ghost use Rattle.lgc_formulas.specs.Setting.{setting_of};
ghost use Rattle.lgc_report_reader.specs.Reported.{reports};
ghost use Rattle.lgc_report_reader.specs.ReportReading.{sign_behind_at, item_at, next_item_at, more_items_at, items_at, word_reason_at, behind_principal_at, rule_reason_at, behind_resolved_at, resolve_reason_at, reason_at, line_at};

use crate::cited::premises;
use crate::part::{formula, set};
use crate::token::{Rest, next_ends_principal, next_is, number, one, position};
use lgc_formulas::{Context, Read};
use lgc_lexer::Token;
use lgc_sequents::{Line, Reason, Sequent};
use lgc_syntax::WRONG_ARITY;
use lgc_tokens::{Class, Reading, Stop};
use std::alloc::Global;

// ---- sequents

// A sign behind a formula, which with it is joined to the items.
#[tactic(auto, unfolding(crate::specs::ReportReading::sign_behind_at))]
fn sign_behind<'a, const N: usize>(
    c: &Context<N>,
    items: &mut Sequent<N>,
    read: Read,
    tokens: &'a [Token],
) -> Rest<'a>
    requires { AllIn c.now.bytes.now tokens.now }
    ensures gives { GivesAs (reports c.now) (λ x. (items.new, reports c.now x.now)) result (sign_behind_at N (setting_of c.now) items.old read (reports c.now tokens.now)) }
    ensures rest { IfOk result (λ x. IsShorter c.now.bytes.now tokens.now x.now) }
{
    let Read {
        formula,
        nodes_left: _,
        is_bare,
    } = read;
    if is_bare {
        return Err(if next_is(c, Class::Caret, tokens) {
            Stop::Breaks(WRONG_ARITY, tokens)
        } else {
            Stop::Unexpected(tokens)
        });
    }
    let (_, rest) = one(c, Class::Caret, tokens)?;
    let (sign, rest) = tried!(set(c, rest));
    items.add(formula, sign)?;
    Ok(rest)
}

// An item, which is joined to those before it.
#[tactic(auto, unfolding(crate::specs::ReportReading::item_at))]
fn item<'a, const N: usize>(
    alloc: Global,
    c: &Context<N>,
    items: &mut Sequent<N>,
    tokens: &'a [Token],
) -> Rest<'a>
    requires { AllIn c.now.bytes.now tokens.now }
    ensures gives { GivesAs (reports c.now) (λ x. (items.new, reports c.now x.now)) result (item_at N (setting_of c.now) items.old (reports c.now tokens.now)) }
    ensures rest { IfOk result (λ x. IsShorter c.now.bytes.now tokens.now x.now) }
{
    let (read, rest) = formula(alloc, c, tokens)?;
    sign_behind(c, items, read, rest)
}

// A comma and an item.
#[tactic(auto, unfolding(crate::specs::ReportReading::next_item_at))]
fn next_item<'a, const N: usize>(
    alloc: Global,
    c: &Context<N>,
    items: &mut Sequent<N>,
    tokens: &'a [Token],
) -> Rest<'a>
    requires { AllIn c.now.bytes.now tokens.now }
    ensures gives { GivesAs (reports c.now) (λ x. (items.new, reports c.now x.now)) result (next_item_at N (setting_of c.now) items.old (reports c.now tokens.now)) }
    ensures rest { IfOk result (λ x. IsShorter c.now.bytes.now tokens.now x.now) }
{
    let (_, rest) = one(c, Class::Comma, tokens)?;
    item(alloc, c, items, rest)
}

// Items behind these, each behind a comma.
fn more_items<'a, const N: usize>(
    alloc: Global,
    c: &Context<N>,
    items: &mut Sequent<N>,
    tokens: &'a [Token],
) -> Rest<'a>
    requires { AllIn c.now.bytes.now tokens.now }
    ensures gives { GivesAs (reports c.now) (λ x. (items.new, reports c.now x.now)) result (more_items_at N (setting_of c.now) items.old (reports c.now tokens.now)) }
    ensures rest { IfOk result (λ x. IsRest c.now.bytes.now tokens.now x.now) }
{
    let mut rest = tokens;
    while next_is(c, Class::Comma, rest) {
        rest = next_item(alloc, c, items, rest)?;
    }
    Ok(rest)
}

/// A sequent: items with commas between them. Those with one formula are joined.
#[tactic(auto, unfolding(crate::specs::ReportReading::items_at))]
pub(crate) fn sequent<'a, const N: usize>(
    alloc: Global,
    c: &Context<N>,
    tokens: &'a [Token],
) -> Reading<'a, Sequent<N>>
    requires { AllIn c.now.bytes.now tokens.now }
    ensures gives { GivesAs (reports c.now) (λ x. (x.0, reports c.now x.1.now)) result (items_at N (setting_of c.now) (reports c.now tokens.now)) }
    ensures rest { IfOk result (λ x. IsShorter c.now.bytes.now tokens.now x.1.now) }
{
    let _names = c.m.names();
    let mut items = Sequent::new(alloc);
    let rest = item(alloc, c, &mut items, tokens)?;
    let rest = more_items(alloc, c, &mut items, rest)?;
    Ok((items, rest))
}

// ---- reasons, with the point behind them

#[tactic(auto, unfolding(crate::specs::ReportReading::word_reason_at, crate::specs::ReportReading::ended_at))]
fn axiom<'a, const N: usize>(c: &Context<N>, tokens: &'a [Token]) -> Reading<'a, Reason>
    requires { AllIn c.now.bytes.now tokens.now }
    ensures gives { GivesAs (reports c.now) (λ x. (x.0, reports c.now x.1.now)) result (word_reason_at N (setting_of c.now) AxiomWord Axiom (reports c.now tokens.now)) }
    ensures rest { IfOk result (λ x. IsShorter c.now.bytes.now tokens.now x.1.now) }
{
    let (_, rest) = one(c, Class::AxiomWord, tokens)?;
    let (_, rest) = one(c, Class::Dot, rest)?;
    Ok((Reason::Axiom, rest))
}

#[tactic(auto, unfolding(crate::specs::ReportReading::word_reason_at, crate::specs::ReportReading::ended_at))]
fn pending<'a, const N: usize>(c: &Context<N>, tokens: &'a [Token]) -> Reading<'a, Reason>
    requires { AllIn c.now.bytes.now tokens.now }
    ensures gives { GivesAs (reports c.now) (λ x. (x.0, reports c.now x.1.now)) result (word_reason_at N (setting_of c.now) PendingWord Pending (reports c.now tokens.now)) }
    ensures rest { IfOk result (λ x. IsShorter c.now.bytes.now tokens.now x.1.now) }
{
    let (_, rest) = one(c, Class::PendingWord, tokens)?;
    let (_, rest) = one(c, Class::Dot, rest)?;
    Ok((Reason::Pending, rest))
}

// The lines that a rule cites, behind its principal formula.
#[tactic(auto, unfolding(crate::specs::ReportReading::behind_principal_at, crate::specs::ReportReading::ended_at))]
fn behind_principal<'a, const N: usize>(
    alloc: Global,
    c: &Context<N>,
    rule: u32,
    read: Read,
    tokens: &'a [Token],
) -> Reading<'a, Reason>
    requires { AllIn c.now.bytes.now tokens.now }
    ensures gives { GivesAs (reports c.now) (λ x. (x.0, reports c.now x.1.now)) result (behind_principal_at N (setting_of c.now) rule read (reports c.now tokens.now)) }
    ensures rest { IfOk result (λ x. IsShorter c.now.bytes.now tokens.now x.1.now) }
{
    let Read {
        formula,
        nodes_left: _,
        is_bare,
    } = read;
    if is_bare {
        return Err(if next_ends_principal(c, tokens) {
            Stop::Breaks(WRONG_ARITY, tokens)
        } else {
            Stop::Unexpected(tokens)
        });
    }
    let (premises, rest) = premises(alloc, c, tokens)?;
    let (_, rest) = one(c, Class::Dot, rest)?;
    let reason = Reason::ByRule {
        rule,
        principal: formula,
        premises,
    };
    Ok((reason, rest))
}

#[tactic(auto, unfolding(crate::specs::ReportReading::rule_reason_at))]
fn by_rule<'a, const N: usize>(
    alloc: Global,
    c: &Context<N>,
    tokens: &'a [Token],
) -> Reading<'a, Reason>
    requires { AllIn c.now.bytes.now tokens.now }
    ensures gives { GivesAs (reports c.now) (λ x. (x.0, reports c.now x.1.now)) result (rule_reason_at N (setting_of c.now) (reports c.now tokens.now)) }
    ensures rest { IfOk result (λ x. IsShorter c.now.bytes.now tokens.now x.1.now) }
{
    let (_, rest) = one(c, Class::RuleWord, tokens)?;
    let (rule, rest) = number(c, rest)?;
    let (_, rest) = one(c, Class::OnWord, rest)?;
    let (principal, rest) = formula(alloc, c, rest)?;
    behind_principal(alloc, c, rule, principal, rest)
}

// The two lines that are joined, behind the formula that is resolved.
#[tactic(auto, unfolding(crate::specs::ReportReading::behind_resolved_at, crate::specs::ReportReading::ended_at))]
fn behind_resolved<'a, const N: usize>(
    c: &Context<N>,
    read: Read,
    tokens: &'a [Token],
) -> Reading<'a, Reason>
    requires { AllIn c.now.bytes.now tokens.now }
    ensures gives { GivesAs (reports c.now) (λ x. (x.0, reports c.now x.1.now)) result (behind_resolved_at N (setting_of c.now) read (reports c.now tokens.now)) }
    ensures rest { IfOk result (λ x. IsShorter c.now.bytes.now tokens.now x.1.now) }
{
    let Read {
        formula,
        nodes_left: _,
        is_bare,
    } = read;
    if is_bare {
        return Err(if next_is(c, Class::FromWord, tokens) {
            Stop::Breaks(WRONG_ARITY, tokens)
        } else {
            Stop::Unexpected(tokens)
        });
    }
    let (_, rest) = one(c, Class::FromWord, tokens)?;
    let (left, rest) = position(c, rest)?;
    let (_, rest) = one(c, Class::Comma, rest)?;
    let (right, rest) = position(c, rest)?;
    let (_, rest) = one(c, Class::Dot, rest)?;
    let reason = Reason::Resolve {
        on: formula,
        left,
        right,
    };
    Ok((reason, rest))
}

#[tactic(auto, unfolding(crate::specs::ReportReading::resolve_reason_at))]
fn resolve<'a, const N: usize>(
    alloc: Global,
    c: &Context<N>,
    tokens: &'a [Token],
) -> Reading<'a, Reason>
    requires { AllIn c.now.bytes.now tokens.now }
    ensures gives { GivesAs (reports c.now) (λ x. (x.0, reports c.now x.1.now)) result (resolve_reason_at N (setting_of c.now) (reports c.now tokens.now)) }
    ensures rest { IfOk result (λ x. IsShorter c.now.bytes.now tokens.now x.1.now) }
{
    let (_, rest) = one(c, Class::ResolveWord, tokens)?;
    let (_, rest) = one(c, Class::OnWord, rest)?;
    let (on, rest) = formula(alloc, c, rest)?;
    behind_resolved(c, on, rest)
}

#[tactic(auto, unfolding(crate::specs::ReportReading::reason_at))]
fn reason<'a, const N: usize>(
    alloc: Global,
    c: &Context<N>,
    tokens: &'a [Token],
) -> Reading<'a, Reason>
    requires { AllIn c.now.bytes.now tokens.now }
    ensures gives { GivesAs (reports c.now) (λ x. (x.0, reports c.now x.1.now)) result (reason_at N (setting_of c.now) (reports c.now tokens.now)) }
    ensures rest { IfOk result (λ x. IsShorter c.now.bytes.now tokens.now x.1.now) }
{
    if next_is(c, Class::AxiomWord, tokens) {
        axiom(c, tokens)
    } else if next_is(c, Class::PendingWord, tokens) {
        pending(c, tokens)
    } else if next_is(c, Class::RuleWord, tokens) {
        by_rule(alloc, c, tokens)
    } else {
        resolve(alloc, c, tokens)
    }
}

// ---- lines

/// A line, with whatever number.
#[tactic(auto, unfolding(crate::specs::ReportReading::line_at))]
pub(crate) fn line<'a, const N: usize>(
    alloc: Global,
    c: &Context<N>,
    tokens: &'a [Token],
) -> Reading<'a, Line<N>>
    requires { AllIn c.now.bytes.now tokens.now }
    ensures gives { GivesAs (reports c.now) (λ x. (x.0, reports c.now x.1.now)) result (line_at N (setting_of c.now) (reports c.now tokens.now)) }
    ensures rest { IfOk result (λ x. IsShorter c.now.bytes.now tokens.now x.1.now) }
{
    let (_, rest) = one(c, Class::LineWord, tokens)?;
    let (number, rest) = position(c, rest)?;
    let (_, rest) = one(c, Class::Colon, rest)?;
    let (sequent, rest) = sequent(alloc, c, rest)?;
    let (_, rest) = one(c, Class::ByWord, rest)?;
    let (reason, rest) = reason(alloc, c, rest)?;
    let line = Line {
        number,
        sequent,
        reason,
    };
    Ok((line, rest))
}
