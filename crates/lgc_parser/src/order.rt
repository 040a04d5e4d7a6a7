// Reading order texts.
ghost use Rattle.std.specs.Prelude.{◌≡◌, ◌^◌, ◌<◌, length, Ok, IfOk, List, All};
ghost use Rattle.lgc_grammar.specs.Grammar.{AnswersAll};
ghost use Rattle.lgc_grammar.specs.Reading.{whole};
ghost use Rattle.lgc_lexer.specs.Tokens.{tokens_of};
ghost use Rattle.lgc_lexer.specs.Spans.{AllIn};
ghost use Rattle.lgc_parser.specs.declared.tree.Word.{Word};
ghost use Rattle.lgc_tokens.specs.Spelled.{spelled_all, IsRest, IsShorter};
ghost use Rattle.lgc_parser.specs.OrderGrammar.{Order};
ghost use Rattle.lgc_parser.specs.OrderReading.{braced_at, node_at, chain_at, chains_at, order_at};
ghost use Rattle.lgc_parser.specs.TreeWords.{IsWordOf};
ghost use Rattle.lgc_tokens.specs.Gives.{Gives};
ghost use Rattle.lgc_parser.specs.Gives.{Says, IsTree};

use crate::fault::SyntaxFault;
use crate::parts::{Part, separated};
use crate::tree::Word;
use crate::words::{word, words};
use lgc_lexer::Token;
use lgc_tokens::{Class, Reading, Stop, Terminal, next_is, one, place};
use lgc_values::List;
use std::alloc::Global;

/// Values in braces.
#[tactic(auto, unfolding(crate::specs::OrderReading::braced_at))]
fn braced<'a>(alloc: Global, bytes: &[u8], tokens: &'a [Token]) -> Reading<'a, List<Word>>
    requires { AllIn bytes.now tokens.now }
    ensures gives { Gives bytes.now (λ x. (x.0, spelled_all bytes.now x.1.now)) result (braced_at (spelled_all bytes.now tokens.now)) }
    ensures rest { IfOk result (λ x. IsShorter bytes.now tokens.now x.1.now) }
{
    let (_, rest) = one(bytes, Terminal::Only(Class::OpenBrace), tokens)?;
    let (values, rest) = words(alloc, bytes, Terminal::OrderValue, rest)?;
    let (_, rest) = one(bytes, Terminal::Only(Class::CloseBrace), rest)?;
    Ok((values, rest))
}

/// A value, or some in braces.
#[tactic(auto, unfolding(crate::specs::OrderReading::node_at))]
fn node<'a>(alloc: Global, bytes: &[u8], tokens: &'a [Token]) -> Reading<'a, List<Word>>
    requires { AllIn bytes.now tokens.now }
    ensures gives { Gives bytes.now (λ x. (x.0, spelled_all bytes.now x.1.now)) result (node_at (spelled_all bytes.now tokens.now)) }
    ensures rest { IfOk result (λ x. IsShorter bytes.now tokens.now x.1.now) }
{
    if next_is(bytes, Terminal::OrderValue, tokens) {
        let (value, rest) = word(bytes, Terminal::OrderValue, tokens)?;
        let mut values = List::new(alloc);
        values.push(value)?;
        Ok((values, rest))
    } else {
        braced(alloc, bytes, tokens)
    }
}

/// A node of a chain.
struct OneNode;

impl Part for OneNode {
    type Tree = List<Word>;

    ghost reader = { λ s. node_at };

    fn read<'a>(
        &self,
        alloc: Global,
        bytes: &[u8],
        tokens: &'a [Token],
    ) -> Reading<'a, List<Word>> {
        node(alloc, bytes, tokens)
    }
}

/// One node or more, with `<` between them.
#[tactic(auto, using(crate::proofs::OrderReads::node_shortens), unfolding(crate::specs::OrderReading::chain_at))]
fn chain<'a>(alloc: Global, bytes: &[u8], tokens: &'a [Token]) -> Reading<'a, List<List<Word>>>
    requires { AllIn bytes.now tokens.now }
    ensures gives { Gives bytes.now (λ x. (x.0, spelled_all bytes.now x.1.now)) result (chain_at (spelled_all bytes.now tokens.now)) }
    ensures rest { IfOk result (λ x. IsRest bytes.now tokens.now x.1.now) }
{
    separated(alloc, bytes, Class::Less, &OneNode, tokens)
}

/// A chain of an order text.
struct OneChain;

impl Part for OneChain {
    type Tree = List<List<Word>>;

    ghost reader = { λ s. chain_at };

    fn read<'a>(
        &self,
        alloc: Global,
        bytes: &[u8],
        tokens: &'a [Token],
    ) -> Reading<'a, List<List<Word>>> {
        chain(alloc, bytes, tokens)
    }
}

/// One chain or more, with commas between them.
#[tactic(auto, using(crate::proofs::OrderReads::chain_shortens), unfolding(crate::specs::OrderReading::chains_at))]
fn chains<'a>(
    alloc: Global,
    bytes: &[u8],
    tokens: &'a [Token],
) -> Reading<'a, List<List<List<Word>>>>
    requires { AllIn bytes.now tokens.now }
    ensures gives { Gives bytes.now (λ x. (x.0, spelled_all bytes.now x.1.now)) result (chains_at (spelled_all bytes.now tokens.now)) }
    ensures rest { IfOk result (λ x. IsRest bytes.now tokens.now x.1.now) }
{
    separated(alloc, bytes, Class::Comma, &OneChain, tokens)
}

#[tactic(auto, unfolding(crate::specs::OrderReading::order_at))]
fn order<'a>(
    alloc: Global,
    bytes: &[u8],
    tokens: &'a [Token],
) -> Reading<'a, List<List<List<Word>>>>
    requires { AllIn bytes.now tokens.now }
    ensures gives { Gives bytes.now (λ x. (x.0, spelled_all bytes.now x.1.now)) result (order_at (spelled_all bytes.now tokens.now)) }
    ensures rest { IfOk result (λ x. IsRest bytes.now tokens.now x.1.now) }
{
    if next_is(bytes, Terminal::NodeStart, tokens) {
        chains(alloc, bytes, tokens)
    } else {
        Ok((List::new(alloc), tokens))
    }
}

#[tactic(auto, using(crate::proofs::OrderReads::order_unbroken))]
fn whole_order(
    alloc: Global,
    bytes: &[u8],
    tokens: &[Token],
) -> Result<List<List<List<Word>>>, SyntaxFault>
    requires length { length bytes.now < 2 ^ 32 }
    requires tokens { AllIn bytes.now tokens.now }
    ensures { Says (λ r. whole order_at (spelled_all bytes.now tokens.now) ≡ r) (length bytes.now) (λ x. x) result }
{
    match order(alloc, bytes, tokens) {
        Ok((chains, [])) => Ok(chains),
        Ok((_, rest)) => Err(SyntaxFault::Unexpected(place(bytes, rest))),
        // No rule has a number in this grammar.
        Err(Stop::Unexpected(rest) | Stop::Breaks(_, rest)) => {
            Err(SyntaxFault::Unexpected(place(bytes, rest)))
        }
        Err(Stop::Memory) => Err(SyntaxFault::Memory),
    }
}

/// The chains of an order text, with the values of each of their nodes; or the offset of the first token that can't
/// stand where it does, which is that of the end where the text stops too early.
pub fn parse_order(
    alloc: Global,
    bytes: &[u8],
    tokens: &[Token],
) -> Result<List<List<List<Word>>>, SyntaxFault>
    requires length { length bytes.now < 2 ^ 32 }
    requires tokens { tokens_of bytes.now ≡ Ok tokens.now }
    // The tree is the grammar's, and a fault is at the first token behind which no text of the grammar goes on.
    ensures answer { Says (AnswersAll Order (spelled_all bytes.now tokens.now)) (length bytes.now) (λ x. x) result }
    // What is in the grammar is read, with this one tree.
    ensures complete { (chains : List (List (List Word))) → Order (Ok chains) (spelled_all bytes.now tokens.now) → IsTree (λ x. x) result chains }
    // Each word in it is one of the tokens, and its content lies in the bytes.
    ensures words { IfOk result (λ chains. All (All (All (IsWordOf bytes.now tokens.now))) chains) }
    // The same as one function of the tokens.
    ensures exact { Says (λ r. whole order_at (spelled_all bytes.now tokens.now) ≡ r) (length bytes.now) (λ x. x) result }
{
    whole_order(alloc, bytes, tokens)
}
