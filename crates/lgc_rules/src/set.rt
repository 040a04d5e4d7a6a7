// Sets of truth values.
ghost use Rattle.std.specs.Prelude.{◌≡◌, [], ◌∷◌, ◌<◌, length, IfOk};
ghost use Rattle.lgc_values.specs.Values.{IsSize};
ghost use Rattle.lgc_lexer.specs.Spans.{AllIn};
ghost use Rattle.lgc_values.specs.Logic.{value_named};
ghost use Rattle.lgc_tokens.specs.Spelled.{spelled_all, IsRest, IsShorter};
ghost use Rattle.lgc_rules.specs.RuleReading.{value_at, next_value_at, more_values_at, set_at};
ghost use Rattle.lgc_tokens.specs.Gives.{Gives};

use crate::reading::Rest;
use lgc_lexer::{Token, content};
use lgc_syntax::UNKNOWN_VALUE;
use lgc_tokens::{Class, Reading, Stop, Terminal, is_a, next_is, one};
use lgc_values::{Matrix, ValueSet};

/// The truth value that the next token names. A stop is before a token that isn't a name, or that names no truth value, by `UNKNOWN_VALUE`.
#[tactic(auto, unfolding(crate::specs::RuleReading::value_at))]
pub fn read_value<'a, const N: usize>(
    m: &Matrix<N>,
    bytes: &[u8],
    tokens: &'a [Token],
) -> Reading<'a, u8>
    requires { AllIn bytes.now tokens.now }
    ensures gives { Gives bytes.now (λ x. (x.0, spelled_all bytes.now x.1.now)) result (value_at m.now (spelled_all bytes.now tokens.now)) }
    ensures below { IfOk result (λ x. x.0 < N) }
    ensures size { IfOk result (λ _. IsSize N) }
    ensures rest { IfOk result (λ x. IsShorter bytes.now tokens.now x.1.now) }
{
    match tokens.split_first() {
        Some((token, rest)) if is_a(bytes, Terminal::Value, token, rest) => {
            match m.value_named(content(bytes, token)) {
                Some(value) => Ok((value, rest)),
                None => Err(Stop::Breaks(UNKNOWN_VALUE, tokens)),
            }
        }
        _ => Err(Stop::Unexpected(tokens)),
    }
}

// A comma and a value, which is added to the set.
fn next_value<'a, const N: usize>(
    m: &Matrix<N>,
    bytes: &[u8],
    set: &mut ValueSet<N>,
    tokens: &'a [Token],
) -> Rest<'a>
    requires { AllIn bytes.now tokens.now }
    ensures gives { Gives bytes.now (λ x. (set.new, spelled_all bytes.now x.now)) result (next_value_at N m.now set.old (spelled_all bytes.now tokens.now)) }
    ensures rest { IfOk result (λ x. IsShorter bytes.now tokens.now x.now) }
{
    let (_, rest) = one(bytes, Terminal::Only(Class::Comma), tokens)?;
    let (value, rest) = read_value(m, bytes, rest)?;
    *set = set.with(value);
    Ok(rest)
}

// Values behind that of a set, each behind a comma.
fn more_values<'a, const N: usize>(
    m: &Matrix<N>,
    bytes: &[u8],
    set: &mut ValueSet<N>,
    tokens: &'a [Token],
) -> Rest<'a>
    requires { AllIn bytes.now tokens.now }
    ensures gives { Gives bytes.now (λ x. (set.new, spelled_all bytes.now x.now)) result (more_values_at N m.now set.old (spelled_all bytes.now tokens.now)) }
    ensures rest { IfOk result (λ x. IsRest bytes.now tokens.now x.now) }
{
    let mut rest = tokens;
    while next_is(bytes, Terminal::Only(Class::Comma), rest) {
        rest = next_value(m, bytes, set, rest)?;
    }
    Ok(rest)
}

/// A set of truth values in braces, which may stand in any order and repeat. There is one at least, and a name that is no truth value breaks
/// the rule `UNKNOWN_VALUE`.
#[tactic(auto, unfolding(crate::specs::RuleReading::set_at))]
pub fn read_set<'a, const N: usize>(
    m: &Matrix<N>,
    bytes: &[u8],
    tokens: &'a [Token],
) -> Reading<'a, ValueSet<N>>
    requires { AllIn bytes.now tokens.now }
    ensures gives { Gives bytes.now (λ x. (x.0, spelled_all bytes.now x.1.now)) result (set_at N m.now (spelled_all bytes.now tokens.now)) }
    ensures rest { IfOk result (λ x. IsShorter bytes.now tokens.now x.1.now) }
{
    let (_, rest) = one(bytes, Terminal::Only(Class::OpenBrace), tokens)?;
    let (value, rest) = read_value(m, bytes, rest)?;
    let mut set = ValueSet::single(value);
    let rest = more_values(m, bytes, &mut set, rest)?;
    let (_, rest) = one(bytes, Terminal::Only(Class::CloseBrace), rest)?;
    Ok((set, rest))
}
