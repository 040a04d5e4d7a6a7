// Sets of truth values.
ghost use Rattle.std.specs.Prelude.{◌≡◌, [], ◌<◌, length, IfOk};
ghost use Rattle.lgc_grammar.specs.Reading.{optional_at};
ghost use Rattle.lgc_lexer.specs.Spans.{AllIn};
ghost use Rattle.lgc_tokens.specs.Spelled.{spelled_all, IsRest, IsShorter};
ghost use Rattle.lgc_tokens.specs.Classes.{is_value};
ghost use Rattle.lgc_tokens.specs.Gives.{Gives, GivesAs};
ghost use Rattle.lgc_formulas.specs.Named.{named_all};
ghost use Rattle.lgc_queries.specs.Values.{with_value};
ghost use Rattle.lgc_queries.specs.QueryReading.{value_at, added_value_at, next_value_at, more_values_at, some_values_at, value_set_at, named_set_at};

use crate::read::Rest;
use lgc_formulas::Context;
use lgc_lexer::{Token, content};
use lgc_syntax::UNKNOWN_VALUE;
use lgc_tokens::{Class, Reading, Stop, Terminal, is_a, next_is, one};
use lgc_values::{Matrix, ValueSet};

// The truth value that the next token names.
#[tactic(auto, unfolding(crate::specs::QueryReading::value_at))]
fn value<'a, const N: usize>(m: &Matrix<N>, bytes: &[u8], tokens: &'a [Token]) -> Reading<'a, u8>
    requires { AllIn bytes.now tokens.now }
    ensures gives { Gives bytes.now (λ x. (x.0, spelled_all bytes.now x.1.now)) result (value_at m.now (spelled_all bytes.now tokens.now)) }
    ensures below { IfOk result (λ x. x.0 < N) }
    ensures rest { IfOk result (λ x. IsShorter bytes.now tokens.now x.1.now) }
{
    match tokens.split_first() {
        Some((token, rest)) if is_a(bytes, Terminal::Value, token, rest) => {
            match m.value_named(content(bytes, token)) {
                Some(value) => Ok((value, rest)),
                None => Err(Stop::Breaks(UNKNOWN_VALUE, tokens)),
            }
        }
        _ => Err(Stop::Unexpected(tokens)),
    }
}

// The set with a value added.
fn with_value<const N: usize>(m: &Matrix<N>, set: ValueSet<N>, value: u8) -> ValueSet<N>
    requires { value < N }
    ensures { result ≡ with_value m.now set.entry value }
{
    let _names = m.names();
    set.with(value)
}

// A value, which is added to the set.
#[tactic(auto, unfolding(crate::specs::QueryReading::added_value_at))]
fn added_value<'a, const N: usize>(
    m: &Matrix<N>,
    bytes: &[u8],
    set: &mut ValueSet<N>,
    tokens: &'a [Token],
) -> Rest<'a>
    requires { AllIn bytes.now tokens.now }
    ensures gives { Gives bytes.now (λ x. (set.new, spelled_all bytes.now x.now)) result (added_value_at m.now set.old (spelled_all bytes.now tokens.now)) }
    ensures rest { IfOk result (λ x. IsShorter bytes.now tokens.now x.now) }
{
    let (value, rest) = value(m, bytes, tokens)?;
    *set = with_value(m, *set, value);
    Ok(rest)
}

// A comma and a value, which is added to the set.
#[tactic(auto, unfolding(crate::specs::QueryReading::next_value_at))]
fn next_value<'a, const N: usize>(
    m: &Matrix<N>,
    bytes: &[u8],
    set: &mut ValueSet<N>,
    tokens: &'a [Token],
) -> Rest<'a>
    requires { AllIn bytes.now tokens.now }
    ensures gives { Gives bytes.now (λ x. (set.new, spelled_all bytes.now x.now)) result (next_value_at m.now set.old (spelled_all bytes.now tokens.now)) }
    ensures rest { IfOk result (λ x. IsShorter bytes.now tokens.now x.now) }
{
    let (_, rest) = one(bytes, Terminal::Only(Class::Comma), tokens)?;
    added_value(m, bytes, set, rest)
}

// Values behind those of a set, each behind a comma.
fn more_values<'a, const N: usize>(
    m: &Matrix<N>,
    bytes: &[u8],
    set: &mut ValueSet<N>,
    tokens: &'a [Token],
) -> Rest<'a>
    requires { AllIn bytes.now tokens.now }
    ensures gives { Gives bytes.now (λ x. (set.new, spelled_all bytes.now x.now)) result (more_values_at m.now set.old (spelled_all bytes.now tokens.now)) }
    ensures rest { IfOk result (λ x. IsRest bytes.now tokens.now x.now) }
{
    let mut rest = tokens;
    while next_is(bytes, Terminal::Only(Class::Comma), rest) {
        rest = next_value(m, bytes, set, rest)?;
    }
    Ok(rest)
}

// One value or more, with commas between them.
#[tactic(auto, unfolding(crate::specs::QueryReading::some_values_at))]
fn some_values<'a, const N: usize>(
    m: &Matrix<N>,
    bytes: &[u8],
    tokens: &'a [Token],
) -> Reading<'a, ValueSet<N>>
    requires { AllIn bytes.now tokens.now }
    ensures gives { Gives bytes.now (λ x. (x.0, spelled_all bytes.now x.1.now)) result (some_values_at m.now (spelled_all bytes.now tokens.now)) }
    ensures rest { IfOk result (λ x. IsShorter bytes.now tokens.now x.1.now) }
{
    let mut set = m.empty_set();
    let rest = added_value(m, bytes, &mut set, tokens)?;
    let rest = more_values(m, bytes, &mut set, rest)?;
    Ok((set, rest))
}

// The same, or no value.
fn values<'a, const N: usize>(
    m: &Matrix<N>,
    bytes: &[u8],
    tokens: &'a [Token],
) -> Reading<'a, ValueSet<N>>
    requires { AllIn bytes.now tokens.now }
    ensures gives { Gives bytes.now (λ x. (x.0, spelled_all bytes.now x.1.now)) result (optional_at is_value [] (some_values_at m.now) (spelled_all bytes.now tokens.now)) }
    ensures rest { IfOk result (λ x. IsRest bytes.now tokens.now x.1.now) }
{
    if next_is(bytes, Terminal::Value, tokens) {
        some_values(m, bytes, tokens)
    } else {
        Ok((m.empty_set(), tokens))
    }
}

// A set of truth values in braces, which may stand in any order and repeat.
#[tactic(auto, unfolding(crate::specs::QueryReading::value_set_at))]
fn value_set<'a, const N: usize>(
    m: &Matrix<N>,
    bytes: &[u8],
    tokens: &'a [Token],
) -> Reading<'a, ValueSet<N>>
    requires { AllIn bytes.now tokens.now }
    ensures gives { Gives bytes.now (λ x. (x.0, spelled_all bytes.now x.1.now)) result (value_set_at m.now (spelled_all bytes.now tokens.now)) }
    ensures rest { IfOk result (λ x. IsShorter bytes.now tokens.now x.1.now) }
{
    let (_, rest) = one(bytes, Terminal::Only(Class::OpenBrace), tokens)?;
    let (set, rest) = tried!(values(m, bytes, rest));
    let (_, rest) = one(bytes, Terminal::Only(Class::CloseBrace), rest)?;
    Ok((set, rest))
}

/// The same among tokens as the logic knows them.
pub(crate) fn named_set<'a, const N: usize>(
    c: &Context<N>,
    tokens: &'a [Token],
) -> Reading<'a, ValueSet<N>>
    requires { AllIn c.now.bytes.now tokens.now }
    ensures gives { GivesAs (named_all c.now.m.now c.now.bytes.now) (λ x. (x.0, named_all c.now.m.now c.now.bytes.now x.1.now)) result (named_set_at c.now.m.now (named_all c.now.m.now c.now.bytes.now tokens.now)) }
    ensures rest { IfOk result (λ x. IsShorter c.now.bytes.now tokens.now x.1.now) }
{
    value_set(c.m, c.bytes, tokens)
}
