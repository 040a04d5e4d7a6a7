// Reading specifications.
ghost use Rattle.std.specs.Prelude.{◌≡◌, ◌^◌, ◌<◌, length, Ok, IfOk, List, All};
ghost use Rattle.lgc_grammar.specs.Grammar.{AnswersAll};
ghost use Rattle.lgc_grammar.specs.Reading.{whole};
ghost use Rattle.lgc_lexer.specs.Tokens.{tokens_of};
ghost use Rattle.lgc_lexer.specs.Spans.{AllIn};
ghost use Rattle.lgc_parser.specs.declared.tree.Statement.{Statement};
ghost use Rattle.lgc_tokens.specs.Spelled.{spelled_all, IsRest};
ghost use Rattle.lgc_tokens.specs.Classes.{is_name_or_symbol, is_value};
ghost use Rattle.lgc_parser.specs.SpecGrammar.{Spec};
ghost use Rattle.lgc_parser.specs.SpecReading.{spec_at};
ghost use Rattle.lgc_parser.specs.TreeWords.{IsWordOf, IsWordWhere, StatementDeclares, StatementHas};
ghost use Rattle.lgc_tokens.specs.Gives.{Gives};
ghost use Rattle.lgc_parser.specs.Gives.{Says, IsTree};

use crate::fault::SyntaxFault;
use crate::statement::sentence;
use crate::tree::{SpecTree, Statement};
use lgc_lexer::Token;
use lgc_tokens::{Reading, Stop, Terminal, next_is, place};
use lgc_values::List;
use std::alloc::Global;

fn statements<'a>(alloc: Global, bytes: &[u8], tokens: &'a [Token]) -> Reading<'a, List<Statement>>
    requires { AllIn bytes.now tokens.now }
    ensures gives { Gives bytes.now (λ x. (x.0, spelled_all bytes.now x.1.now)) result (spec_at (spelled_all bytes.now tokens.now)) }
    ensures rest { IfOk result (λ x. IsRest bytes.now tokens.now x.1.now) }
{
    let mut statements = List::new(alloc);
    let mut rest = tokens;
    while next_is(bytes, Terminal::StatementStart, rest) {
        let (next, behind) = sentence(alloc, bytes, rest)?;
        statements.push(next)?;
        rest = behind;
    }
    Ok((statements, rest))
}

#[tactic(auto, using(crate::proofs::SpecReads::spec_unbroken))]
fn whole_spec(alloc: Global, bytes: &[u8], tokens: &[Token]) -> Result<SpecTree, SyntaxFault>
    requires length { length bytes.now < 2 ^ 32 }
    requires tokens { AllIn bytes.now tokens.now }
    ensures { Says (λ r. whole spec_at (spelled_all bytes.now tokens.now) ≡ r) (length bytes.now) (λ t. t.statements) result }
{
    match statements(alloc, bytes, tokens) {
        Ok((statements, [])) => Ok(SpecTree { statements }),
        Ok((_, rest)) => Err(SyntaxFault::Unexpected(place(bytes, rest))),
        // No rule has a number in this grammar.
        Err(Stop::Unexpected(rest) | Stop::Breaks(_, rest)) => {
            Err(SyntaxFault::Unexpected(place(bytes, rest)))
        }
        Err(Stop::Memory) => Err(SyntaxFault::Memory),
    }
}

/// The statements of a specification; or the offset of the first token that can't stand where it does, which is that
/// of the end where the text stops too early.
pub fn parse_spec(alloc: Global, bytes: &[u8], tokens: &[Token]) -> Result<SpecTree, SyntaxFault>
    requires length { length bytes.now < 2 ^ 32 }
    requires tokens { tokens_of bytes.now ≡ Ok tokens.now }
    // The tree is the grammar's, and a fault is at the first token behind which no text of the grammar goes on.
    ensures answer { Says (AnswersAll Spec (spelled_all bytes.now tokens.now)) (length bytes.now) (λ t. t.statements) result }
    // What is in the grammar is read, with this one tree.
    ensures complete { (statements : List Statement) → Spec (Ok statements) (spelled_all bytes.now tokens.now) → IsTree (λ t. t.statements) result statements }
    // Each word in it is one of the tokens, and its content lies in the bytes.
    ensures words { IfOk result (λ t. All (StatementHas (IsWordOf bytes.now tokens.now)) t.statements) }
    // A truth value is the word of a value token, and the name of an operator or a quantifier that of a name token.
    ensures declared { IfOk result (λ t. All (StatementDeclares (IsWordWhere bytes.now tokens.now is_value) (IsWordWhere bytes.now tokens.now is_name_or_symbol)) t.statements) }
    // The same as one function of the tokens.
    ensures exact { Says (λ r. whole spec_at (spelled_all bytes.now tokens.now) ≡ r) (length bytes.now) (λ t. t.statements) result }
{
    whole_spec(alloc, bytes, tokens)
}
