// Rules with their numbers.
ghost use Rattle.std.specs.Prelude.{◌≡◌, [], ◌<◌, length, IfOk};
ghost use Rattle.lgc_values.specs.Logic.{operator_at, operator_named, quantifier_named};
ghost use Rattle.lgc_lexer.specs.Spans.{AllIn};
ghost use Rattle.lgc_tokens.specs.Spelled.{spelled_all, IsShorter};
ghost use Rattle.lgc_rules.specs.RuleReading.{operator_name_at, operator_head_at, quantifier_name_at, quantifier_head_at, of_operator_at, of_quantifier_at, of_symbol_at, rule_at};
ghost use Rattle.lgc_tokens.specs.Gives.{Gives};

use crate::clause::read_clauses;
use crate::qclause::read_quantifier_clauses;
use crate::reading::number_from;
use crate::set::read_set;
use lgc_clauses::{Numbered, OpRule, QRule, Rule};
use lgc_lexer::{Token, content};
use lgc_syntax::{MISNUMBERED, UNKNOWN_NAME, WRONG_ARITY};
use lgc_tokens::{Class, Reading, Stop, Terminal, is_a, next_is, one};
use lgc_values::Matrix;
use std::alloc::Global;

fn arity_of<const N: usize>(m: &Matrix<N>, op: u16) -> u8
    requires { op < length m.now.operators }
    ensures { result ≡ (operator_at m.now op).arity }
{
    m.operators()[op as usize].arity
}

// The operator that the next token names.
#[tactic(auto, unfolding(crate::specs::RuleReading::operator_name_at))]
fn operator_name<'a, const N: usize>(
    m: &Matrix<N>,
    bytes: &[u8],
    tokens: &'a [Token],
) -> Reading<'a, u16>
    requires { AllIn bytes.now tokens.now }
    ensures gives { Gives bytes.now (λ x. (x.0, spelled_all bytes.now x.1.now)) result (operator_name_at m.now (spelled_all bytes.now tokens.now)) }
    ensures below { IfOk result (λ x. x.0 < length m.now.operators) }
    ensures rest { IfOk result (λ x. IsShorter bytes.now tokens.now x.1.now) }
{
    match tokens.split_first() {
        Some((token, rest)) if is_a(bytes, Terminal::Name, token, rest) => {
            match m.operator_named(content(bytes, token)) {
                Some(op) => Ok((op, rest)),
                None => Err(Stop::Breaks(UNKNOWN_NAME, tokens)),
            }
        }
        _ => Err(Stop::Unexpected(tokens)),
    }
}

// The operator of a head, whose arity is written behind its name.
#[tactic(auto, unfolding(crate::specs::RuleReading::operator_head_at))]
fn operator_head<'a, const N: usize>(
    m: &Matrix<N>,
    bytes: &[u8],
    tokens: &'a [Token],
) -> Reading<'a, u16>
    requires { AllIn bytes.now tokens.now }
    ensures gives { Gives bytes.now (λ x. (x.0, spelled_all bytes.now x.1.now)) result (operator_head_at m.now (spelled_all bytes.now tokens.now)) }
    ensures below { IfOk result (λ x. x.0 < length m.now.operators) }
    ensures rest { IfOk result (λ x. IsShorter bytes.now tokens.now x.1.now) }
{
    let (_, rest) = one(bytes, Terminal::Only(Class::OperatorWord), tokens)?;
    let (op, rest) = operator_name(m, bytes, rest)?;
    let (_, rest) = one(bytes, Terminal::Only(Class::Slash), rest)?;
    let arity = u32::from(arity_of(m, op));
    let (_, rest) = number_from(bytes, arity, arity, WRONG_ARITY, Terminal::Number, rest)?;
    Ok((op, rest))
}

// The quantifier that the next token names.
#[tactic(auto, unfolding(crate::specs::RuleReading::quantifier_name_at))]
fn quantifier_name<'a, const N: usize>(
    m: &Matrix<N>,
    bytes: &[u8],
    tokens: &'a [Token],
) -> Reading<'a, u16>
    requires { AllIn bytes.now tokens.now }
    ensures gives { Gives bytes.now (λ x. (x.0, spelled_all bytes.now x.1.now)) result (quantifier_name_at m.now (spelled_all bytes.now tokens.now)) }
    ensures rest { IfOk result (λ x. IsShorter bytes.now tokens.now x.1.now) }
{
    match tokens.split_first() {
        Some((token, rest)) if is_a(bytes, Terminal::Name, token, rest) => {
            match m.quantifier_named(content(bytes, token)) {
                Some(quant) => Ok((quant, rest)),
                None => Err(Stop::Breaks(UNKNOWN_NAME, tokens)),
            }
        }
        _ => Err(Stop::Unexpected(tokens)),
    }
}

// The quantifier of a head.
#[tactic(auto, unfolding(crate::specs::RuleReading::quantifier_head_at))]
fn quantifier_head<'a, const N: usize>(
    m: &Matrix<N>,
    bytes: &[u8],
    tokens: &'a [Token],
) -> Reading<'a, u16>
    requires { AllIn bytes.now tokens.now }
    ensures gives { Gives bytes.now (λ x. (x.0, spelled_all bytes.now x.1.now)) result (quantifier_head_at m.now (spelled_all bytes.now tokens.now)) }
    ensures rest { IfOk result (λ x. IsShorter bytes.now tokens.now x.1.now) }
{
    let (_, rest) = one(bytes, Terminal::Only(Class::QuantifierWord), tokens)?;
    quantifier_name(m, bytes, rest)
}

// A rule for an operator, from its head on.
#[tactic(auto, unfolding(crate::specs::RuleReading::of_operator_at))]
fn of_operator<'a, const N: usize>(
    alloc: Global,
    m: &Matrix<N>,
    bytes: &[u8],
    tokens: &'a [Token],
) -> Reading<'a, Rule<N>>
    requires { AllIn bytes.now tokens.now }
    ensures gives { Gives bytes.now (λ x. (x.0, spelled_all bytes.now x.1.now)) result (of_operator_at N m.now (spelled_all bytes.now tokens.now)) }
    ensures rest { IfOk result (λ x. IsShorter bytes.now tokens.now x.1.now) }
{
    let (op, rest) = operator_head(m, bytes, tokens)?;
    let (_, rest) = one(bytes, Terminal::Only(Class::AtWord), rest)?;
    let (sign, rest) = tried!(read_set(m, bytes, rest));
    let (_, rest) = one(bytes, Terminal::Only(Class::Colon), rest)?;
    let (_, rest) = one(bytes, Terminal::Only(Class::OpenSquare), rest)?;
    let (clauses, rest) = read_clauses(alloc, m, bytes, arity_of(m, op), rest)?;
    let (_, rest) = one(bytes, Terminal::Only(Class::CloseSquare), rest)?;
    let (_, rest) = one(bytes, Terminal::Only(Class::Dot), rest)?;
    Ok((Rule::Operator(OpRule { op, sign, clauses }), rest))
}

// A rule for a quantifier, from its head on.
#[tactic(auto, unfolding(crate::specs::RuleReading::of_quantifier_at))]
fn of_quantifier<'a, const N: usize>(
    alloc: Global,
    m: &Matrix<N>,
    bytes: &[u8],
    tokens: &'a [Token],
) -> Reading<'a, Rule<N>>
    requires { AllIn bytes.now tokens.now }
    ensures gives { Gives bytes.now (λ x. (x.0, spelled_all bytes.now x.1.now)) result (of_quantifier_at N m.now (spelled_all bytes.now tokens.now)) }
    ensures rest { IfOk result (λ x. IsShorter bytes.now tokens.now x.1.now) }
{
    let (quant, rest) = quantifier_head(m, bytes, tokens)?;
    let (_, rest) = one(bytes, Terminal::Only(Class::AtWord), rest)?;
    let (sign, rest) = tried!(read_set(m, bytes, rest));
    let (_, rest) = one(bytes, Terminal::Only(Class::Colon), rest)?;
    let (_, rest) = one(bytes, Terminal::Only(Class::OpenSquare), rest)?;
    let (clauses, rest) = read_quantifier_clauses(alloc, m, bytes, rest)?;
    let (_, rest) = one(bytes, Terminal::Only(Class::CloseSquare), rest)?;
    let (_, rest) = one(bytes, Terminal::Only(Class::Dot), rest)?;
    let rule = QRule {
        quant,
        sign,
        clauses,
    };
    Ok((Rule::Quantifier(rule), rest))
}

// A rule from its head on.
#[tactic(auto, unfolding(crate::specs::RuleReading::of_symbol_at))]
fn of_symbol<'a, const N: usize>(
    alloc: Global,
    m: &Matrix<N>,
    bytes: &[u8],
    tokens: &'a [Token],
) -> Reading<'a, Rule<N>>
    requires { AllIn bytes.now tokens.now }
    ensures gives { Gives bytes.now (λ x. (x.0, spelled_all bytes.now x.1.now)) result (of_symbol_at N m.now (spelled_all bytes.now tokens.now)) }
    ensures rest { IfOk result (λ x. IsShorter bytes.now tokens.now x.1.now) }
{
    if next_is(bytes, Terminal::Only(Class::OperatorWord), tokens) {
        of_operator(alloc, m, bytes, tokens)
    } else {
        of_quantifier(alloc, m, bytes, tokens)
    }
}

/// A rule, whose number has to be one from `least` to `most`.
///
/// A stop is before the first token at which there is one of the faults 4 to 6 or 10 to 12, by the constants of `InputFault`; or it is for
/// want of memory.
#[tactic(auto, unfolding(crate::specs::RuleReading::rule_at))]
pub fn one_rule<'a, const N: usize>(
    alloc: Global,
    m: &Matrix<N>,
    bytes: &[u8],
    least: u32,
    most: u32,
    tokens: &'a [Token],
) -> Reading<'a, Numbered<N>>
    requires { AllIn bytes.now tokens.now }
    ensures gives { Gives bytes.now (λ x. (x.0, spelled_all bytes.now x.1.now)) result (rule_at N m.now least most (spelled_all bytes.now tokens.now)) }
    ensures rest { IfOk result (λ x. IsShorter bytes.now tokens.now x.1.now) }
{
    let (_, rest) = one(bytes, Terminal::Only(Class::RuleWord), tokens)?;
    let (number, rest) = number_from(bytes, least, most, MISNUMBERED, Terminal::Number, rest)?;
    let (_, rest) = one(bytes, Terminal::Only(Class::Colon), rest)?;
    let (rule, rest) = of_symbol(alloc, m, bytes, rest)?;
    Ok((Numbered { number, rule }, rest))
}
