// How operators and quantifiers are defined.
ghost use Rattle.std.specs.Prelude.{◌≡◌, length, IfOk};
ghost use Rattle.lgc_lexer.specs.Spans.{AllIn};
ghost use Rattle.lgc_tokens.specs.Spelled.{spelled_all, IsShorter};
ghost use Rattle.lgc_parser.specs.SpecReading.{op_mapping_at, op_table_at, op_bound_at, op_body_at, quant_mapping_at, sized_at, induced_at, quant_induced_at, quant_bound_at, quant_body_at};
ghost use Rattle.lgc_tokens.specs.Gives.{Gives};

use crate::cells::cells;
use crate::rows::{RowKind, rows};
use crate::tree::{OpBody, QuantBody};
use crate::words::word;
use lgc_lexer::Token;
use lgc_tokens::{Class, Reading, Terminal, is_a, next_is, one};
use std::alloc::Global;

#[tactic(auto, unfolding(crate::specs::SpecReading::op_mapping_at))]
fn op_mapping<'a>(alloc: Global, bytes: &[u8], tokens: &'a [Token]) -> Reading<'a, OpBody>
    requires { AllIn bytes.now tokens.now }
    ensures gives { Gives bytes.now (λ x. (x.0, spelled_all bytes.now x.1.now)) result (op_mapping_at (spelled_all bytes.now tokens.now)) }
    ensures rest { IfOk result (λ x. IsShorter bytes.now tokens.now x.1.now) }
{
    let (_, rest) = one(bytes, Terminal::Only(Class::MappingWord), tokens)?;
    let ((_, rows, close), rest) = rows(alloc, bytes, RowKind::OfOperator, rest)?;
    Ok((OpBody::Mapping { rows, close }, rest))
}

#[tactic(auto, unfolding(crate::specs::SpecReading::op_table_at))]
fn op_table<'a>(alloc: Global, bytes: &[u8], tokens: &'a [Token]) -> Reading<'a, OpBody>
    requires { AllIn bytes.now tokens.now }
    ensures gives { Gives bytes.now (λ x. (x.0, spelled_all bytes.now x.1.now)) result (op_table_at (spelled_all bytes.now tokens.now)) }
    ensures rest { IfOk result (λ x. IsShorter bytes.now tokens.now x.1.now) }
{
    let (keyword, rest) = one(bytes, Terminal::Only(Class::TableWord), tokens)?;
    let ((_, cells, _), rest) = cells(alloc, bytes, rest)?;
    Ok((
        OpBody::Table {
            at: keyword.start,
            cells,
        },
        rest,
    ))
}

#[tactic(auto, unfolding(crate::specs::SpecReading::op_bound_at))]
fn op_bound<'a>(bytes: &[u8], tokens: &'a [Token]) -> Reading<'a, OpBody>
    requires { AllIn bytes.now tokens.now }
    ensures gives { Gives bytes.now (λ x. (x.0, spelled_all bytes.now x.1.now)) result (op_bound_at (spelled_all bytes.now tokens.now)) }
    ensures rest { IfOk result (λ x. IsShorter bytes.now tokens.now x.1.now) }
{
    let (keyword, behind) = one(bytes, Terminal::Bound, tokens)?;
    let (_, rest) = one(bytes, Terminal::Only(Class::OpenRound), behind)?;
    let (ordering, rest) = word(bytes, Terminal::NameOrSymbol, rest)?;
    let (_, rest) = one(bytes, Terminal::Only(Class::CloseRound), rest)?;
    let lower = is_a(bytes, Terminal::Only(Class::InfWord), &keyword, behind);
    Ok((
        OpBody::Bound {
            at: keyword.start,
            lower,
            ordering,
        },
        rest,
    ))
}

/// The body of an operator's definition.
#[tactic(auto, unfolding(crate::specs::SpecReading::op_body_at))]
pub(crate) fn op_body<'a>(alloc: Global, bytes: &[u8], tokens: &'a [Token]) -> Reading<'a, OpBody>
    requires { AllIn bytes.now tokens.now }
    ensures gives { Gives bytes.now (λ x. (x.0, spelled_all bytes.now x.1.now)) result (op_body_at (spelled_all bytes.now tokens.now)) }
    ensures rest { IfOk result (λ x. IsShorter bytes.now tokens.now x.1.now) }
{
    if next_is(bytes, Terminal::Only(Class::MappingWord), tokens) {
        op_mapping(alloc, bytes, tokens)
    } else if next_is(bytes, Terminal::Only(Class::TableWord), tokens) {
        op_table(alloc, bytes, tokens)
    } else {
        op_bound(bytes, tokens)
    }
}

#[tactic(auto, unfolding(crate::specs::SpecReading::quant_mapping_at))]
fn quant_mapping<'a>(alloc: Global, bytes: &[u8], tokens: &'a [Token]) -> Reading<'a, QuantBody>
    requires { AllIn bytes.now tokens.now }
    ensures gives { Gives bytes.now (λ x. (x.0, spelled_all bytes.now x.1.now)) result (quant_mapping_at (spelled_all bytes.now tokens.now)) }
    ensures rest { IfOk result (λ x. IsShorter bytes.now tokens.now x.1.now) }
{
    let (_, rest) = one(bytes, Terminal::Only(Class::MappingWord), tokens)?;
    let ((_, rows, close), rest) = rows(alloc, bytes, RowKind::OfQuantifier, rest)?;
    Ok((QuantBody::Mapping { rows, close }, rest))
}

/// An operator with its arity.
#[tactic(auto, unfolding(crate::specs::SpecReading::sized_at))]
fn sized<'a>(bytes: &[u8], tokens: &'a [Token]) -> Reading<'a, QuantBody>
    requires { AllIn bytes.now tokens.now }
    ensures gives { Gives bytes.now (λ x. (x.0, spelled_all bytes.now x.1.now)) result (sized_at (spelled_all bytes.now tokens.now)) }
    ensures rest { IfOk result (λ x. IsShorter bytes.now tokens.now x.1.now) }
{
    let (operator, rest) = word(bytes, Terminal::NameOrSymbol, tokens)?;
    let (_, rest) = one(bytes, Terminal::Only(Class::Slash), rest)?;
    let (arity, rest) = word(bytes, Terminal::DigitsAlone, rest)?;
    Ok((QuantBody::Induced { operator, arity }, rest))
}

/// The same, in brackets or not.
#[tactic(auto, unfolding(crate::specs::SpecReading::induced_at))]
fn induced<'a>(bytes: &[u8], tokens: &'a [Token]) -> Reading<'a, QuantBody>
    requires { AllIn bytes.now tokens.now }
    ensures gives { Gives bytes.now (λ x. (x.0, spelled_all bytes.now x.1.now)) result (induced_at (spelled_all bytes.now tokens.now)) }
    ensures rest { IfOk result (λ x. IsShorter bytes.now tokens.now x.1.now) }
{
    if next_is(bytes, Terminal::Only(Class::OpenRound), tokens) {
        let (_, rest) = one(bytes, Terminal::Only(Class::OpenRound), tokens)?;
        let (body, rest) = sized(bytes, rest)?;
        let (_, rest) = one(bytes, Terminal::Only(Class::CloseRound), rest)?;
        Ok((body, rest))
    } else {
        sized(bytes, tokens)
    }
}

#[tactic(auto, unfolding(crate::specs::SpecReading::quant_induced_at))]
fn quant_induced<'a>(bytes: &[u8], tokens: &'a [Token]) -> Reading<'a, QuantBody>
    requires { AllIn bytes.now tokens.now }
    ensures gives { Gives bytes.now (λ x. (x.0, spelled_all bytes.now x.1.now)) result (quant_induced_at (spelled_all bytes.now tokens.now)) }
    ensures rest { IfOk result (λ x. IsShorter bytes.now tokens.now x.1.now) }
{
    let (_, rest) = one(bytes, Terminal::Only(Class::InducedWord), tokens)?;
    induced(bytes, rest)
}

#[tactic(auto, unfolding(crate::specs::SpecReading::quant_bound_at))]
fn quant_bound<'a>(bytes: &[u8], tokens: &'a [Token]) -> Reading<'a, QuantBody>
    requires { AllIn bytes.now tokens.now }
    ensures gives { Gives bytes.now (λ x. (x.0, spelled_all bytes.now x.1.now)) result (quant_bound_at (spelled_all bytes.now tokens.now)) }
    ensures rest { IfOk result (λ x. IsShorter bytes.now tokens.now x.1.now) }
{
    let (keyword, behind) = one(bytes, Terminal::Bound, tokens)?;
    let (_, rest) = one(bytes, Terminal::Only(Class::OpenRound), behind)?;
    let (ordering, rest) = word(bytes, Terminal::NameOrSymbol, rest)?;
    let (_, rest) = one(bytes, Terminal::Only(Class::CloseRound), rest)?;
    let lower = is_a(bytes, Terminal::Only(Class::InfWord), &keyword, behind);
    Ok((
        QuantBody::Bound {
            at: keyword.start,
            lower,
            ordering,
        },
        rest,
    ))
}

/// The body of a quantifier's definition.
#[tactic(auto, unfolding(crate::specs::SpecReading::quant_body_at))]
pub(crate) fn quant_body<'a>(
    alloc: Global,
    bytes: &[u8],
    tokens: &'a [Token],
) -> Reading<'a, QuantBody>
    requires { AllIn bytes.now tokens.now }
    ensures gives { Gives bytes.now (λ x. (x.0, spelled_all bytes.now x.1.now)) result (quant_body_at (spelled_all bytes.now tokens.now)) }
    ensures rest { IfOk result (λ x. IsShorter bytes.now tokens.now x.1.now) }
{
    if next_is(bytes, Terminal::Only(Class::MappingWord), tokens) {
        quant_mapping(alloc, bytes, tokens)
    } else if next_is(bytes, Terminal::Only(Class::InducedWord), tokens) {
        quant_induced(bytes, tokens)
    } else {
        quant_bound(bytes, tokens)
    }
}
