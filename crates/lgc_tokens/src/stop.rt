// Why reading stops.
ghost use Rattle.std.specs.Prelude.{◌≡◌};

use lgc_lexer::Token;
use std::alloc::{AllocError, AllocFailed};

/// Why reading stopped: before these tokens, of which the first can't stand there or breaks the rule with this number, or
/// for want of memory.
#[derive(Drop)]
pub enum Stop<'a> {
    Unexpected(&'a [Token]),
    Breaks(u8, &'a [Token]),
    Memory,
}

impl<'a> From<AllocError> for Stop<'a> {
    ghost use Rattle.lgc_tokens.specs.declared.stop.Stop.TheVariants as stop;

    ghost from_gives = { λ _ e. e ≡ stop.Memory };

    fn from(_e: AllocError) -> Stop<'a> {
        Stop::Memory
    }
}

impl<'a, T: Drop> From<AllocFailed<T>> for Stop<'a> {
    ghost use Rattle.lgc_tokens.specs.declared.stop.Stop.TheVariants as stop;

    ghost from_gives = { λ _ e. e ≡ stop.Memory };

    fn from(_e: AllocFailed<T>) -> Stop<'a> {
        Stop::Memory
    }
}
