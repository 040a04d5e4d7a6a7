// Statements.
ghost use Rattle.std.specs.Prelude.{◌≡◌, length, IfOk};
ghost use Rattle.lgc_lexer.specs.Spans.{AllIn};
ghost use Rattle.lgc_tokens.specs.Spelled.{spelled_all, IsShorter};
ghost use Rattle.lgc_parser.specs.SpecReading.{logic_at, truth_values_at, designated_at, ordering_at, operator_at, quantifier_at, statement_at, sentence_at};
ghost use Rattle.lgc_tokens.specs.Gives.{Gives};

use crate::bodies::{op_body, quant_body};
use crate::tree::Statement;
use crate::words::{set, word};
use lgc_lexer::Token;
use lgc_tokens::{Class, Reading, Terminal, next_is, one};
use std::alloc::Global;

#[tactic(auto, unfolding(crate::specs::SpecReading::logic_at))]
fn logic<'a>(bytes: &[u8], tokens: &'a [Token]) -> Reading<'a, Statement>
    requires { AllIn bytes.now tokens.now }
    ensures gives { Gives bytes.now (λ x. (x.0, spelled_all bytes.now x.1.now)) result (logic_at (spelled_all bytes.now tokens.now)) }
    ensures rest { IfOk result (λ x. IsShorter bytes.now tokens.now x.1.now) }
{
    let (keyword, rest) = one(bytes, Terminal::Only(Class::LogicWord), tokens)?;
    let (name, rest) = word(bytes, Terminal::LogicName, rest)?;
    Ok((
        Statement::Logic {
            at: keyword.start,
            name,
        },
        rest,
    ))
}

#[tactic(auto, unfolding(crate::specs::SpecReading::truth_values_at))]
fn truth_values<'a>(alloc: Global, bytes: &[u8], tokens: &'a [Token]) -> Reading<'a, Statement>
    requires { AllIn bytes.now tokens.now }
    ensures gives { Gives bytes.now (λ x. (x.0, spelled_all bytes.now x.1.now)) result (truth_values_at (spelled_all bytes.now tokens.now)) }
    ensures rest { IfOk result (λ x. IsShorter bytes.now tokens.now x.1.now) }
{
    let (keyword, rest) = one(bytes, Terminal::Only(Class::ValuesWord), tokens)?;
    let ((_, values, _), rest) = set(alloc, bytes, rest)?;
    Ok((
        Statement::Values {
            at: keyword.start,
            values,
        },
        rest,
    ))
}

#[tactic(auto, unfolding(crate::specs::SpecReading::designated_at))]
fn designated<'a>(alloc: Global, bytes: &[u8], tokens: &'a [Token]) -> Reading<'a, Statement>
    requires { AllIn bytes.now tokens.now }
    ensures gives { Gives bytes.now (λ x. (x.0, spelled_all bytes.now x.1.now)) result (designated_at (spelled_all bytes.now tokens.now)) }
    ensures rest { IfOk result (λ x. IsShorter bytes.now tokens.now x.1.now) }
{
    let (keyword, rest) = one(bytes, Terminal::Only(Class::DesignatedWord), tokens)?;
    let ((_, values, _), rest) = set(alloc, bytes, rest)?;
    Ok((
        Statement::Designated {
            at: keyword.start,
            values,
        },
        rest,
    ))
}

#[tactic(auto, unfolding(crate::specs::SpecReading::ordering_at))]
fn ordering<'a>(bytes: &[u8], tokens: &'a [Token]) -> Reading<'a, Statement>
    requires { AllIn bytes.now tokens.now }
    ensures gives { Gives bytes.now (λ x. (x.0, spelled_all bytes.now x.1.now)) result (ordering_at (spelled_all bytes.now tokens.now)) }
    ensures rest { IfOk result (λ x. IsShorter bytes.now tokens.now x.1.now) }
{
    let (_, rest) = one(bytes, Terminal::Only(Class::OrderingWord), tokens)?;
    let (_, rest) = one(bytes, Terminal::Only(Class::OpenRound), rest)?;
    let (name, rest) = word(bytes, Terminal::NameOrSymbol, rest)?;
    let (_, rest) = one(bytes, Terminal::Only(Class::Comma), rest)?;
    let (text, rest) = word(bytes, Terminal::Only(Class::Text), rest)?;
    let (_, rest) = one(bytes, Terminal::Only(Class::CloseRound), rest)?;
    Ok((Statement::Ordering { name, text }, rest))
}

#[tactic(auto, unfolding(crate::specs::SpecReading::operator_at))]
fn operator<'a>(alloc: Global, bytes: &[u8], tokens: &'a [Token]) -> Reading<'a, Statement>
    requires { AllIn bytes.now tokens.now }
    ensures gives { Gives bytes.now (λ x. (x.0, spelled_all bytes.now x.1.now)) result (operator_at (spelled_all bytes.now tokens.now)) }
    ensures rest { IfOk result (λ x. IsShorter bytes.now tokens.now x.1.now) }
{
    let (_, rest) = one(bytes, Terminal::Only(Class::OperatorWord), tokens)?;
    let (_, rest) = one(bytes, Terminal::Only(Class::OpenRound), rest)?;
    let (name, rest) = word(bytes, Terminal::NameOrSymbol, rest)?;
    let (_, rest) = one(bytes, Terminal::Only(Class::Slash), rest)?;
    let (arity, rest) = word(bytes, Terminal::DigitsAlone, rest)?;
    let (_, rest) = one(bytes, Terminal::Only(Class::Comma), rest)?;
    let (body, rest) = op_body(alloc, bytes, rest)?;
    let (_, rest) = one(bytes, Terminal::Only(Class::CloseRound), rest)?;
    Ok((Statement::Operator { name, arity, body }, rest))
}

#[tactic(auto, unfolding(crate::specs::SpecReading::quantifier_at))]
fn quantifier<'a>(alloc: Global, bytes: &[u8], tokens: &'a [Token]) -> Reading<'a, Statement>
    requires { AllIn bytes.now tokens.now }
    ensures gives { Gives bytes.now (λ x. (x.0, spelled_all bytes.now x.1.now)) result (quantifier_at (spelled_all bytes.now tokens.now)) }
    ensures rest { IfOk result (λ x. IsShorter bytes.now tokens.now x.1.now) }
{
    let (_, rest) = one(bytes, Terminal::Only(Class::QuantifierWord), tokens)?;
    let (_, rest) = one(bytes, Terminal::Only(Class::OpenRound), rest)?;
    let (name, rest) = word(bytes, Terminal::NameOrSymbol, rest)?;
    let (_, rest) = one(bytes, Terminal::Only(Class::Comma), rest)?;
    let (body, rest) = quant_body(alloc, bytes, rest)?;
    let (_, rest) = one(bytes, Terminal::Only(Class::CloseRound), rest)?;
    Ok((Statement::Quantifier { name, body }, rest))
}

#[tactic(auto, unfolding(crate::specs::SpecReading::statement_at))]
fn statement_of<'a>(alloc: Global, bytes: &[u8], tokens: &'a [Token]) -> Reading<'a, Statement>
    requires { AllIn bytes.now tokens.now }
    ensures gives { Gives bytes.now (λ x. (x.0, spelled_all bytes.now x.1.now)) result (statement_at (spelled_all bytes.now tokens.now)) }
    ensures rest { IfOk result (λ x. IsShorter bytes.now tokens.now x.1.now) }
{
    if next_is(bytes, Terminal::Only(Class::LogicWord), tokens) {
        logic(bytes, tokens)
    } else if next_is(bytes, Terminal::Only(Class::ValuesWord), tokens) {
        truth_values(alloc, bytes, tokens)
    } else if next_is(bytes, Terminal::Only(Class::DesignatedWord), tokens) {
        designated(alloc, bytes, tokens)
    } else if next_is(bytes, Terminal::Only(Class::OrderingWord), tokens) {
        ordering(bytes, tokens)
    } else if next_is(bytes, Terminal::Only(Class::OperatorWord), tokens) {
        operator(alloc, bytes, tokens)
    } else {
        quantifier(alloc, bytes, tokens)
    }
}

/// A statement and its dot.
#[tactic(auto, unfolding(crate::specs::SpecReading::sentence_at))]
pub(crate) fn sentence<'a>(
    alloc: Global,
    bytes: &[u8],
    tokens: &'a [Token],
) -> Reading<'a, Statement>
    requires { AllIn bytes.now tokens.now }
    ensures gives { Gives bytes.now (λ x. (x.0, spelled_all bytes.now x.1.now)) result (sentence_at (spelled_all bytes.now tokens.now)) }
    ensures rest { IfOk result (λ x. IsShorter bytes.now tokens.now x.1.now) }
{
    let (tree, rest) = statement_of(alloc, bytes, tokens)?;
    let (_, rest) = one(bytes, Terminal::Only(Class::Dot), rest)?;
    Ok((tree, rest))
}
