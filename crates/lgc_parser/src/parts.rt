// Lists and brackets, whatever stands in them.
ghost use Rattle.std.specs.Prelude.{◌≡◌, ◌≤◌, length, List, Ok, IfOk};
ghost use Rattle.lgc_grammar.specs.Reading.{Reader, separated_at};
ghost use Rattle.lgc_lexer.specs.Spans.{AllIn};
ghost use Rattle.lgc_tokens.specs.Spelled.{Spelled, spelled_all, IsRest, IsShorter};
ghost use Rattle.lgc_tokens.specs.Classes.{is};
ghost use Rattle.lgc_parser.specs.SpecReading.{enclosed_at, bracketed_at};
ghost use Rattle.lgc_tokens.specs.Gives.{Gives};
ghost use Rattle.lgc_parser.specs.Gives.{Shortens};

use lgc_lexer::Token;
use lgc_tokens::{Class, Reading, Terminal, next_is, one, skip};
use lgc_values::List;
use std::alloc::Global;

/// What stands in a list or in brackets. It is read as `reader` says.
pub(crate) trait Part {
    type Tree: Drop;

    ghost reader: { Self → Reader Spelled Self.Tree };

    fn read<'a>(&self, alloc: Global, bytes: &[u8], tokens: &'a [Token]) -> Reading<'a, Self::Tree>
        requires { AllIn bytes.now tokens.now }
        ensures gives { Gives bytes.now (λ x. (x.0, spelled_all bytes.now x.1.now)) result (reader self.now (spelled_all bytes.now tokens.now)) }
        ensures rest { IfOk result (λ x. IsRest bytes.now tokens.now x.1.now) };
}

/// One part or more, with separators between them.
pub(crate) fn separated<'a, P: Part>(
    alloc: Global,
    bytes: &[u8],
    separator: Class,
    part: &P,
    tokens: &'a [Token],
) -> Reading<'a, List<P::Tree>>
    requires inside { AllIn bytes.now tokens.now }
    // Reading a part leaves no more tokens than there were, so the list ends.
    requires shortens { Shortens (P.reader part.now) }
    ensures gives { Gives bytes.now (λ x. (x.0, spelled_all bytes.now x.1.now)) result (separated_at (is separator) (P.reader part.now) (spelled_all bytes.now tokens.now)) }
    ensures rest { IfOk result (λ x. IsRest bytes.now tokens.now x.1.now) }
{
    let (first, mut rest) = part.read(alloc, bytes, tokens)?;
    let mut trees = List::new(alloc);
    trees.push(first)?;
    while let Some(after) = skip(bytes, Terminal::Only(separator), rest) {
        let (next, behind) = part.read(alloc, bytes, after)?;
        trees.push(next)?;
        rest = behind;
    }
    Ok((trees, rest))
}

/// A part between two brackets, with their offsets.
fn enclosed<'a, P: Part>(
    alloc: Global,
    bytes: &[u8],
    opens: Class,
    closes: Class,
    part: &P,
    tokens: &'a [Token],
) -> Reading<'a, (u32, P::Tree, u32)>
    requires { AllIn bytes.now tokens.now }
    ensures gives { Gives bytes.now (λ x. (x.0, spelled_all bytes.now x.1.now)) result (enclosed_at (is opens) (P.reader part.now) (is closes) (spelled_all bytes.now tokens.now)) }
    ensures rest { IfOk result (λ x. IsShorter bytes.now tokens.now x.1.now) }
{
    let (start, rest) = one(bytes, Terminal::Only(opens), tokens)?;
    let (tree, rest) = part.read(alloc, bytes, rest)?;
    let (end, rest) = one(bytes, Terminal::Only(closes), rest)?;
    Ok(((start.start, tree, end.start), rest))
}

/// A part in `{` and `}` or in `[` and `]`, with the offsets of the brackets.
pub(crate) fn bracketed<'a, P: Part>(
    alloc: Global,
    bytes: &[u8],
    part: &P,
    tokens: &'a [Token],
) -> Reading<'a, (u32, P::Tree, u32)>
    requires { AllIn bytes.now tokens.now }
    ensures gives { Gives bytes.now (λ x. (x.0, spelled_all bytes.now x.1.now)) result (bracketed_at (P.reader part.now) (spelled_all bytes.now tokens.now)) }
    ensures rest { IfOk result (λ x. IsShorter bytes.now tokens.now x.1.now) }
{
    if next_is(bytes, Terminal::Only(Class::OpenBrace), tokens) {
        enclosed(
            alloc,
            bytes,
            Class::OpenBrace,
            Class::CloseBrace,
            part,
            tokens,
        )
    } else {
        enclosed(
            alloc,
            bytes,
            Class::OpenSquare,
            Class::CloseSquare,
            part,
            tokens,
        )
    }
}
