// The rows of mappings.
ghost use Rattle.std.specs.Prelude.{◌≡◌, length, IfOk};
ghost use Rattle.lgc_lexer.specs.Spans.{AllIn};
ghost use Rattle.lgc_tokens.specs.Spelled.{spelled_all, IsRest, IsShorter};
ghost use Rattle.lgc_parser.specs.SpecReading.{several_at, arguments_at, op_row_at, quant_row_at, row_at, some_rows_at, inner_rows_at, rows_at, starts};
ghost use Rattle.lgc_tokens.specs.Gives.{Gives};
ghost use Rattle.lgc_grammar.specs.Reading.{next_is};

use crate::parts::{Part, bracketed, separated};
use crate::tree::{Row, Word};
use crate::words::{set, values, word};
use lgc_lexer::Token;
use lgc_tokens::{Class, Reading, Terminal, next_is, one};
use lgc_values::List;
use std::alloc::Global;

/// Whose rows they are.
#[derive(Clone, Copy, Debug, PartialEq, Eq)]
pub(crate) enum RowKind {
    OfOperator,
    OfQuantifier,
}

/// Arguments in round brackets, with the offset of the first bracket.
#[tactic(auto, unfolding(crate::specs::SpecReading::several_at))]
fn several<'a>(alloc: Global, bytes: &[u8], tokens: &'a [Token]) -> Reading<'a, (u32, List<Word>)>
    requires { AllIn bytes.now tokens.now }
    ensures gives { Gives bytes.now (λ x. (x.0, spelled_all bytes.now x.1.now)) result (several_at (spelled_all bytes.now tokens.now)) }
    ensures rest { IfOk result (λ x. IsShorter bytes.now tokens.now x.1.now) }
{
    let (start, rest) = one(bytes, Terminal::Only(Class::OpenRound), tokens)?;
    let (arguments, rest) = values(alloc, bytes, rest)?;
    let (_, rest) = one(bytes, Terminal::Only(Class::CloseRound), rest)?;
    Ok(((start.start, arguments), rest))
}

/// The arguments of an operator's row, with the offset of their first token.
#[tactic(auto, unfolding(crate::specs::SpecReading::arguments_at))]
fn arguments<'a>(alloc: Global, bytes: &[u8], tokens: &'a [Token]) -> Reading<'a, (u32, List<Word>)>
    requires { AllIn bytes.now tokens.now }
    ensures gives { Gives bytes.now (λ x. (x.0, spelled_all bytes.now x.1.now)) result (arguments_at (spelled_all bytes.now tokens.now)) }
    ensures rest { IfOk result (λ x. IsShorter bytes.now tokens.now x.1.now) }
{
    if next_is(bytes, Terminal::Only(Class::OpenRound), tokens) {
        several(alloc, bytes, tokens)
    } else {
        let (value, rest) = word(bytes, Terminal::Value, tokens)?;
        let mut arguments = List::new(alloc);
        arguments.push(value)?;
        Ok(((value.at, arguments), rest))
    }
}

#[tactic(auto, unfolding(crate::specs::SpecReading::op_row_at))]
fn op_row<'a>(alloc: Global, bytes: &[u8], tokens: &'a [Token]) -> Reading<'a, Row>
    requires { AllIn bytes.now tokens.now }
    ensures gives { Gives bytes.now (λ x. (x.0, spelled_all bytes.now x.1.now)) result (op_row_at (spelled_all bytes.now tokens.now)) }
    ensures rest { IfOk result (λ x. IsShorter bytes.now tokens.now x.1.now) }
{
    let ((at, arguments), rest) = arguments(alloc, bytes, tokens)?;
    let (_, rest) = one(bytes, Terminal::Only(Class::Colon), rest)?;
    let (value, rest) = word(bytes, Terminal::Value, rest)?;
    Ok((
        Row {
            at,
            arguments,
            value,
        },
        rest,
    ))
}

#[tactic(auto, unfolding(crate::specs::SpecReading::quant_row_at))]
fn quant_row<'a>(alloc: Global, bytes: &[u8], tokens: &'a [Token]) -> Reading<'a, Row>
    requires { AllIn bytes.now tokens.now }
    ensures gives { Gives bytes.now (λ x. (x.0, spelled_all bytes.now x.1.now)) result (quant_row_at (spelled_all bytes.now tokens.now)) }
    ensures rest { IfOk result (λ x. IsShorter bytes.now tokens.now x.1.now) }
{
    let ((at, arguments, _), rest) = set(alloc, bytes, tokens)?;
    let (_, rest) = one(bytes, Terminal::Only(Class::Colon), rest)?;
    let (value, rest) = word(bytes, Terminal::Value, rest)?;
    Ok((
        Row {
            at,
            arguments,
            value,
        },
        rest,
    ))
}

fn row<'a>(alloc: Global, bytes: &[u8], kind: RowKind, tokens: &'a [Token]) -> Reading<'a, Row>
    requires { AllIn bytes.now tokens.now }
    ensures gives { Gives bytes.now (λ x. (x.0, spelled_all bytes.now x.1.now)) result (row_at kind (spelled_all bytes.now tokens.now)) }
    ensures rest { IfOk result (λ x. IsShorter bytes.now tokens.now x.1.now) }
{
    match kind {
        RowKind::OfOperator => op_row(alloc, bytes, tokens),
        RowKind::OfQuantifier => quant_row(alloc, bytes, tokens),
    }
}

impl Part for RowKind {
    type Tree = Row;

    ghost reader = { λ s. row_at s };

    fn read<'a>(&self, alloc: Global, bytes: &[u8], tokens: &'a [Token]) -> Reading<'a, Row> {
        row(alloc, bytes, *self, tokens)
    }
}

/// One row or more, with commas between them.
#[tactic(auto, using(crate::proofs::SpecReads::row_shortens), unfolding(crate::specs::SpecReading::some_rows_at))]
fn some_rows<'a>(
    alloc: Global,
    bytes: &[u8],
    kind: RowKind,
    tokens: &'a [Token],
) -> Reading<'a, List<Row>>
    requires { AllIn bytes.now tokens.now }
    ensures gives { Gives bytes.now (λ x. (x.0, spelled_all bytes.now x.1.now)) result (some_rows_at kind (spelled_all bytes.now tokens.now)) }
    ensures rest { IfOk result (λ x. IsRest bytes.now tokens.now x.1.now) }
{
    separated(alloc, bytes, Class::Comma, &kind, tokens)
}

/// Whether a row is next.
fn row_follows(bytes: &[u8], kind: RowKind, tokens: &[Token]) -> bool
    requires { AllIn bytes.now tokens.now }
    ensures { result ≡ next_is (starts kind) (spelled_all bytes.now tokens.now) }
{
    match kind {
        RowKind::OfOperator => next_is(bytes, Terminal::RowStart, tokens),
        RowKind::OfQuantifier => next_is(bytes, Terminal::BracketedStart, tokens),
    }
}

#[tactic(auto, unfolding(crate::specs::SpecReading::inner_rows_at))]
fn inner_rows<'a>(
    alloc: Global,
    bytes: &[u8],
    kind: RowKind,
    tokens: &'a [Token],
) -> Reading<'a, List<Row>>
    requires { AllIn bytes.now tokens.now }
    ensures gives { Gives bytes.now (λ x. (x.0, spelled_all bytes.now x.1.now)) result (inner_rows_at kind (spelled_all bytes.now tokens.now)) }
    ensures rest { IfOk result (λ x. IsRest bytes.now tokens.now x.1.now) }
{
    if row_follows(bytes, kind, tokens) {
        some_rows(alloc, bytes, kind, tokens)
    } else {
        Ok((List::new(alloc), tokens))
    }
}

/// Rows in brackets.
#[derive(Drop)]
struct InnerRows {
    kind: RowKind,
}

impl Part for InnerRows {
    type Tree = List<Row>;

    ghost reader = { λ s. inner_rows_at s.kind };

    fn read<'a>(&self, alloc: Global, bytes: &[u8], tokens: &'a [Token]) -> Reading<'a, List<Row>> {
        inner_rows(alloc, bytes, self.kind, tokens)
    }
}

/// The rows of a mapping, with the offsets of their brackets.
#[tactic(auto, unfolding(crate::specs::SpecReading::rows_at))]
pub(crate) fn rows<'a>(
    alloc: Global,
    bytes: &[u8],
    kind: RowKind,
    tokens: &'a [Token],
) -> Reading<'a, (u32, List<Row>, u32)>
    requires { AllIn bytes.now tokens.now }
    ensures gives { Gives bytes.now (λ x. (x.0, spelled_all bytes.now x.1.now)) result (rows_at kind (spelled_all bytes.now tokens.now)) }
    ensures rest { IfOk result (λ x. IsShorter bytes.now tokens.now x.1.now) }
{
    bracketed(alloc, bytes, &InnerRows { kind }, tokens)
}
