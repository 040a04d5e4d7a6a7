// The tokens of a text, and faults at their places.
ghost use Rattle.std.specs.Prelude.{◌≡◌, ◌<◌, ◌≤◌, ◌^◌, length, IfOk};
ghost use Rattle.lgc_lexer.specs.Spans.{AllIn};
ghost use Rattle.lgc_syntax.specs.declared.fault.InputFault.TheVariants.{Fault};
ghost use Rattle.lgc_inputs.specs.Texts.{tokens_within};
ghost use Rattle.lgc_inputs.specs.Told.{Tells, stop_told};

use lgc_lexer::{LexFault, Token, lex};
use lgc_syntax::{BAD_BYTE, FILE_TOO_LONG, InputFault, OPEN_QUOTE, UNEXPECTED};
use lgc_tokens::{Stop, place};
use std::alloc::Global;

/// The fault with this number at an offset in bytes from 0.
pub fn fault_at(number: u8, offset: u32) -> InputFault
    ensures { result ≡ Fault number offset }
{
    InputFault::Fault { number, offset }
}

/// The fault for which reading stops: its number, and the place of the token before which it stops, or of the end of the bytes.
#[tactic(auto, using(crate::proofs::Stops::place_is_first))]
pub fn fault_of(bytes: &[u8], stop: Stop) -> InputFault
    requires { length bytes.now < 2 ^ 32 }
    ensures { result ≡ stop_told (length bytes.now) stop.entry }
{
    match stop {
        Stop::Unexpected(rest) => fault_at(UNEXPECTED, place(bytes, rest)),
        Stop::Breaks(number, rest) => fault_at(number, place(bytes, rest)),
        Stop::Memory => InputFault::Memory,
    }
}

/// The tokens of a text that has at most `limit` bytes.
///
/// A longer text has the fault `FILE_TOO_LONG` at the limit, and a text that has no tokens `BAD_BYTE` or `OPEN_QUOTE`. `Memory` may come
/// at any bytes.
#[tactic(auto, using(lgc_lexer::proofs::SpanLaws::tokens_all_in, lgc_tokens::proofs::Places::few_tokens))]
pub fn tokens_in(alloc: Global, bytes: &[u8], limit: u32) -> Result<Vec<Token>, InputFault>
    ensures tokens { Tells (λ tokens. tokens.items) result (tokens_within limit bytes.now) }
    ensures short { IfOk result (λ _. length bytes.now ≤ limit) }
    ensures inside { IfOk result (λ tokens. AllIn bytes.now tokens.items) }
    ensures few { IfOk result (λ tokens. length tokens.items ≤ length bytes.now) }
{
    if bytes.len() > limit as usize {
        return Err(fault_at(FILE_TOO_LONG, limit));
    }
    match lex(alloc, bytes) {
        Ok(tokens) => Ok(tokens),
        Err(LexFault::BadByte(offset)) => Err(fault_at(BAD_BYTE, offset)),
        Err(LexFault::OpenQuote(offset)) => Err(fault_at(OPEN_QUOTE, offset)),
        Err(LexFault::Memory) => Err(InputFault::Memory),
    }
}
