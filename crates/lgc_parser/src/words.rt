// Words, and lists of them.
ghost use Rattle.std.specs.Prelude.{◌≡◌, length, IfOk};
ghost use Rattle.lgc_lexer.specs.Spans.{LiesIn, AllIn};
ghost use Rattle.lgc_tokens.specs.Spelled.{spelled_all, IsRest, IsShorter};
ghost use Rattle.lgc_tokens.specs.Classes.{is_a};
ghost use Rattle.lgc_parser.specs.Words.{token_word};
ghost use Rattle.lgc_parser.specs.Reads.{word_at, words_at};
ghost use Rattle.lgc_parser.specs.SpecReading.{values_at, set_at};
ghost use Rattle.lgc_tokens.specs.Gives.{Gives};

use crate::parts::{Part, bracketed, separated};
use crate::tree::Word;
use lgc_lexer::{Kind, Token};
use lgc_tokens::{Class, Reading, Terminal, next_is, one};
use lgc_values::List;
use std::alloc::Global;

fn word_of(token: &Token) -> Word
    requires { LiesIn token.now.end token.now }
    ensures { result ≡ token_word token.now }
{
    let quotes = match token.kind {
        Kind::Quoted | Kind::Text => 1,
        _ => 0,
    };
    Word {
        start: token.start + quotes,
        end: token.end - quotes,
        at: token.start,
    }
}

/// The word of the next token, which has to be of the terminal.
#[tactic(auto, unfolding(crate::specs::Reads::word_at))]
pub(crate) fn word<'a>(bytes: &[u8], terminal: Terminal, tokens: &'a [Token]) -> Reading<'a, Word>
    requires { AllIn bytes.now tokens.now }
    ensures gives { Gives bytes.now (λ x. (x.0, spelled_all bytes.now x.1.now)) result (word_at (is_a terminal) (spelled_all bytes.now tokens.now)) }
    ensures rest { IfOk result (λ x. IsShorter bytes.now tokens.now x.1.now) }
{
    let (token, rest) = one(bytes, terminal, tokens)?;
    Ok((word_of(&token), rest))
}

/// One word of a terminal.
#[derive(Drop)]
struct OneWord {
    terminal: Terminal,
}

impl Part for OneWord {
    type Tree = Word;

    ghost reader = { λ s. word_at (is_a s.terminal) };

    fn read<'a>(&self, _alloc: Global, bytes: &[u8], tokens: &'a [Token]) -> Reading<'a, Word> {
        word(bytes, self.terminal, tokens)
    }
}

/// One word or more of the terminal, with commas between them.
#[tactic(auto, using(crate::proofs::WordReads::word_shortens), unfolding(crate::specs::Reads::words_at))]
pub(crate) fn words<'a>(
    alloc: Global,
    bytes: &[u8],
    terminal: Terminal,
    tokens: &'a [Token],
) -> Reading<'a, List<Word>>
    requires { AllIn bytes.now tokens.now }
    ensures gives { Gives bytes.now (λ x. (x.0, spelled_all bytes.now x.1.now)) result (words_at (is_a terminal) (spelled_all bytes.now tokens.now)) }
    ensures rest { IfOk result (λ x. IsRest bytes.now tokens.now x.1.now) }
{
    separated(alloc, bytes, Class::Comma, &OneWord { terminal }, tokens)
}

/// Values with commas between them, or none.
#[tactic(auto, unfolding(crate::specs::SpecReading::values_at))]
pub(crate) fn values<'a>(
    alloc: Global,
    bytes: &[u8],
    tokens: &'a [Token],
) -> Reading<'a, List<Word>>
    requires { AllIn bytes.now tokens.now }
    ensures gives { Gives bytes.now (λ x. (x.0, spelled_all bytes.now x.1.now)) result (values_at (spelled_all bytes.now tokens.now)) }
    ensures rest { IfOk result (λ x. IsRest bytes.now tokens.now x.1.now) }
{
    if next_is(bytes, Terminal::Value, tokens) {
        words(alloc, bytes, Terminal::Value, tokens)
    } else {
        Ok((List::new(alloc), tokens))
    }
}

/// Values in brackets.
struct InnerValues;

impl Part for InnerValues {
    type Tree = List<Word>;

    ghost reader = { λ s. values_at };

    fn read<'a>(
        &self,
        alloc: Global,
        bytes: &[u8],
        tokens: &'a [Token],
    ) -> Reading<'a, List<Word>> {
        values(alloc, bytes, tokens)
    }
}

/// A set of values, with the offsets of its brackets.
#[tactic(auto, unfolding(crate::specs::SpecReading::set_at))]
pub(crate) fn set<'a>(
    alloc: Global,
    bytes: &[u8],
    tokens: &'a [Token],
) -> Reading<'a, (u32, List<Word>, u32)>
    requires { AllIn bytes.now tokens.now }
    ensures gives { Gives bytes.now (λ x. (x.0, spelled_all bytes.now x.1.now)) result (set_at (spelled_all bytes.now tokens.now)) }
    ensures rest { IfOk result (λ x. IsShorter bytes.now tokens.now x.1.now) }
{
    bracketed(alloc, bytes, &InnerValues, tokens)
}
