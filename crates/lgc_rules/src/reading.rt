// What reading returns, and reading numbers.
ghost use Rattle.std.specs.Prelude.{◌≡◌, ◌≤◌, length, IfOk};
ghost use Rattle.lgc_lexer.specs.Spans.{AllIn};
ghost use Rattle.lgc_tokens.specs.Spelled.{spelled_all, IsShorter};
ghost use Rattle.lgc_tokens.specs.Classes.{AsksForNumber};
ghost use Rattle.lgc_tokens.specs.Gives.{Gives};
ghost use Rattle.lgc_rules.specs.RuleReading.{number_at};

use lgc_lexer::{Token, content};
use lgc_tokens::{Reading, Stop, Terminal, is_a, number_in};

/// The tokens behind what is read, which goes to a place of the caller's.
pub(crate) type Rest<'a> = Result<&'a [Token], Stop<'a>>;

/// The number of the next token, which has to be one from `least` to `most`; another number breaks the rule `fault`.
#[tactic(auto, using(lgc_tokens::proofs::NumberTokens::asked_number), unfolding(crate::specs::RuleReading::number_at))]
pub(crate) fn number_from<'a>(
    bytes: &[u8],
    least: u32,
    most: u32,
    fault: u8,
    terminal: Terminal,
    tokens: &'a [Token],
) -> Reading<'a, u32>
    requires inside { AllIn bytes.now tokens.now }
    requires number { AsksForNumber terminal }
    ensures gives { Gives bytes.now (λ x. (x.0, spelled_all bytes.now x.1.now)) result (number_at least most fault terminal (spelled_all bytes.now tokens.now)) }
    ensures least { IfOk result (λ x. least ≤ x.0) }
    ensures most { IfOk result (λ x. x.0 ≤ most) }
    ensures rest { IfOk result (λ x. IsShorter bytes.now tokens.now x.1.now) }
{
    match tokens.split_first() {
        Some((token, rest)) if is_a(bytes, terminal, token, rest) => {
            match number_in(content(bytes, token)) {
                Some(number) if least <= number && number <= most => Ok((number, rest)),
                _ => Err(Stop::Breaks(fault, tokens)),
            }
        }
        _ => Err(Stop::Unexpected(tokens)),
    }
}
