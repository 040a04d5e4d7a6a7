// The tokens of a text that stands in the file.
ghost use Rattle.std.specs.Prelude.{◌≡◌, ◌+◌, ◌<◌, ◌^◌, length};
ghost use Rattle.lgc_spec.specs.Faults.{Gives};
ghost use Rattle.lgc_spec.specs.Texts.{tokens_given};

use crate::fault::{BAD_BYTE, OPEN_QUOTE, SpecFault, fault_at};
use lgc_lexer::{LexFault, Token, lex};
use std::alloc::Global;

/// The tokens of a text, whose first byte stands at `start`.
pub(crate) fn tokens_given(alloc: Global, start: u32, text: &[u8]) -> Result<Vec<Token>, SpecFault>
    requires { start + length text.now < 2 ^ 32 }
    ensures { Gives (λ tokens. tokens.items) result (tokens_given start text.now) }
{
    match lex(alloc, text) {
        Ok(tokens) => Ok(tokens),
        Err(LexFault::BadByte(offset)) => Err(fault_at(BAD_BYTE, start + offset)),
        Err(LexFault::OpenQuote(offset)) => Err(fault_at(OPEN_QUOTE, start + offset)),
        Err(LexFault::Memory) => Err(SpecFault::Memory),
    }
}
