// The cells of a table.
ghost use Rattle.std.specs.Prelude.{◌≡◌, length, IfOk};
ghost use Rattle.lgc_lexer.specs.Spans.{AllIn};
ghost use Rattle.lgc_tokens.specs.Spelled.{spelled_all, IsRest, IsShorter};
ghost use Rattle.lgc_parser.specs.SpecReading.{some_cells_at, inner_cells_at, cells_at};
ghost use Rattle.lgc_tokens.specs.Gives.{Gives};

use crate::parts::{Part, bracketed};
use crate::tree::Word;
use crate::words::word;
use lgc_lexer::Token;
use lgc_tokens::{Class, Reading, Terminal, next_is, past};
use lgc_values::List;
use std::alloc::Global;

/// One value or more, with commas between some.
fn some_cells<'a>(alloc: Global, bytes: &[u8], tokens: &'a [Token]) -> Reading<'a, List<Word>>
    requires { AllIn bytes.now tokens.now }
    ensures gives { Gives bytes.now (λ x. (x.0, spelled_all bytes.now x.1.now)) result (some_cells_at (spelled_all bytes.now tokens.now)) }
    ensures rest { IfOk result (λ x. IsRest bytes.now tokens.now x.1.now) }
{
    let (first, mut rest) = word(bytes, Terminal::Value, tokens)?;
    let mut cells = List::new(alloc);
    cells.push(first)?;
    while next_is(bytes, Terminal::CellStart, rest) {
        let after = past(bytes, Terminal::Only(Class::Comma), rest);
        let (next, behind) = word(bytes, Terminal::Value, after)?;
        cells.push(next)?;
        rest = behind;
    }
    Ok((cells, rest))
}

#[tactic(auto, unfolding(crate::specs::SpecReading::inner_cells_at))]
fn inner_cells<'a>(alloc: Global, bytes: &[u8], tokens: &'a [Token]) -> Reading<'a, List<Word>>
    requires { AllIn bytes.now tokens.now }
    ensures gives { Gives bytes.now (λ x. (x.0, spelled_all bytes.now x.1.now)) result (inner_cells_at (spelled_all bytes.now tokens.now)) }
    ensures rest { IfOk result (λ x. IsRest bytes.now tokens.now x.1.now) }
{
    if next_is(bytes, Terminal::Value, tokens) {
        some_cells(alloc, bytes, tokens)
    } else {
        Ok((List::new(alloc), tokens))
    }
}

/// Cells in brackets.
struct InnerCells;

impl Part for InnerCells {
    type Tree = List<Word>;

    ghost reader = { λ s. inner_cells_at };

    fn read<'a>(
        &self,
        alloc: Global,
        bytes: &[u8],
        tokens: &'a [Token],
    ) -> Reading<'a, List<Word>> {
        inner_cells(alloc, bytes, tokens)
    }
}

/// The cells of a table, with the offsets of their brackets.
#[tactic(auto, unfolding(crate::specs::SpecReading::cells_at))]
pub(crate) fn cells<'a>(
    alloc: Global,
    bytes: &[u8],
    tokens: &'a [Token],
) -> Reading<'a, (u32, List<Word>, u32)>
    requires { AllIn bytes.now tokens.now }
    ensures gives { Gives bytes.now (λ x. (x.0, spelled_all bytes.now x.1.now)) result (cells_at (spelled_all bytes.now tokens.now)) }
    ensures rest { IfOk result (λ x. IsShorter bytes.now tokens.now x.1.now) }
{
    bracketed(alloc, bytes, &InnerCells, tokens)
}
