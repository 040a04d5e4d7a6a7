// Cutting bytes into tokens, and what a token says.
ghost use Rattle.std.specs.Prelude.{◌≡◌, ◌^◌, ◌<◌, ◌⊎◌, length, IfOk, IfErr};
ghost use Rattle.lgc_lexer.specs.declared.fault.LexFault.TheVariants.{Memory};
ghost use Rattle.lgc_lexer.specs.Cuts.{AreTokensOf, IsFaultOf};
ghost use Rattle.lgc_lexer.specs.Tokens.{Gives, tokens_of};
ghost use Rattle.lgc_lexer.specs.Spans.{AreSpans, LiesIn, content_of};

use crate::fault::LexFault;
use crate::piece::{Piece, piece_at};
use crate::token::{Kind, Token};
use std::alloc::Global;

/// The tokens of the bytes, or their first fault. Each byte is read a fixed number of times.
pub fn lex(alloc: Global, bytes: &[u8]) -> Result<Vec<Token>, LexFault>
    requires { length bytes.now < 2 ^ 32 }
    // The longest tokens and the gaps between them make up the bytes, and a fault stands behind such tokens.
    ensures tokens { IfOk result (λ v. AreTokensOf bytes.now v.items) }
    ensures fault { IfErr result (λ e. (e ≡ Memory) ⊎ IsFaultOf bytes.now e) }

    // The tokens rise, and don't overlap.
    ensures spans { IfOk result (λ v. AreSpans 0 (length bytes.now) v.items) }

    // The same as one function of the bytes. `Memory` may come at any bytes.
    ensures exact { Gives (λ v. v.items) result (tokens_of bytes.now) }
{
    let mut tokens = Vec::new(alloc);
    let mut at = 0;
    while at < bytes.len() {
        let (_, rest) = bytes.split_at(at + 1);
        match piece_at(bytes[at], rest) {
            Piece::Blank(more) => at += 1 + more,
            Piece::Taken(kind, more) => {
                let end = at + 1 + more;
                tokens.push(Token {
                    kind,
                    start: at as u32,
                    end: end as u32,
                })?;
                at = end;
            }
            Piece::Bad(more) => return Err(LexFault::BadByte((at + more) as u32)),
            Piece::Unclosed => return Err(LexFault::OpenQuote(at as u32)),
        }
    }
    Ok(tokens)
}

/// What stands between the quotes of a Quoted or a Text, and all of another token. The token lies in the
/// bytes, as each one does that `lex` answered for them.
pub fn content<'a>(bytes: &'a [u8], token: &Token) -> &'a [u8]
    requires { LiesIn (length bytes.now) token.now }
    ensures { result.now ≡ content_of bytes.now token.now }
{
    let quotes = match token.kind {
        Kind::Quoted | Kind::Text => 1,
        _ => 0,
    };
    &bytes[token.start as usize + quotes..token.end as usize - quotes]
}
