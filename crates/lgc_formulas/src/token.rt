// Single tokens as a logic knows them.
ghost use Rattle.std.specs.Prelude.{◌≡◌, length, option_map, IfOk};
ghost use Rattle.lgc_grammar.specs.Reading.{one_at, next_is};
ghost use Rattle.lgc_lexer.specs.Spans.{LiesIn, AllIn};
ghost use Rattle.lgc_tokens.specs.Spelled.{spelled, IsShorter};
ghost use Rattle.lgc_tokens.specs.Classes.{class_of};
ghost use Rattle.lgc_tokens.specs.Gives.{GivesAs};
ghost use Rattle.lgc_formulas.specs.Named.{role_of, number_written, number_first, named, named_all, quantifiers, predicates, unknown_names, is, is_hash, starts_formula};
ghost use Rattle.lgc_formulas.specs.Setting.{setting_of, numbered, let_at};
ghost use Rattle.lgc_formulas.specs.Faults.{stands_for};

use crate::context::{Context, is_numbered};
use crate::role::Role;
use lgc_lexer::{Token, content};
use lgc_syntax::Formula;
use lgc_tokens::{Class, Reading, Stop, Terminal, is_a, long_number_in};
use lgc_values::Matrix;

/// What the logic has under a name.
pub(crate) fn role_of<const N: usize>(m: &Matrix<N>, text: &[u8]) -> Role
    ensures { result ≡ role_of m.now text.now }
{
    match m.operator_named(text) {
        Some(op) => Role::Operator(op),
        None => match m.quantifier_named(text) {
            Some(quant) => Role::Quantifier(quant),
            None => Role::Neither,
        },
    }
}

/// Whether a token before others is the name of a quantifier, where this is the role of its content.
pub(crate) fn is_quantifier(bytes: &[u8], role: Role, token: &Token, rest: &[Token]) -> bool
    requires token { LiesIn (length bytes.now) token.now }
    requires rest { AllIn bytes.now rest.now }
    ensures { result ≡ quantifiers role (class_of (spelled bytes.now token.now rest.now)) }
{
    match role {
        Role::Quantifier(_) => is_a(bytes, Terminal::Name, token, rest),
        _ => false,
    }
}

/// The same of a predicate's name.
pub(crate) fn is_predicate(bytes: &[u8], role: Role, token: &Token, rest: &[Token]) -> bool
    requires token { LiesIn (length bytes.now) token.now }
    requires rest { AllIn bytes.now rest.now }
    ensures { result ≡ predicates role (class_of (spelled bytes.now token.now rest.now)) }
{
    match role {
        Role::Neither => is_a(bytes, Terminal::Word, token, rest),
        _ => false,
    }
}

/// The same of a Quoted that is no name of the logic.
pub(crate) fn is_unknown(bytes: &[u8], role: Role, token: &Token, rest: &[Token]) -> bool
    requires token { LiesIn (length bytes.now) token.now }
    requires rest { AllIn bytes.now rest.now }
    ensures { result ≡ unknown_names role (class_of (spelled bytes.now token.now rest.now)) }
{
    match role {
        Role::Neither => is_a(bytes, Terminal::Only(Class::Quoted), token, rest),
        _ => false,
    }
}

/// Whether a token before others is a `#`, where formulas have numbers.
pub(crate) fn is_hash<const N: usize>(c: &Context<N>, token: &Token, rest: &[Token]) -> bool
    requires token { LiesIn (length c.now.bytes.now) token.now }
    requires rest { AllIn c.now.bytes.now rest.now }
    ensures { result ≡ is_hash (numbered (setting_of c.now)) (named c.now.m.now c.now.bytes.now token.now rest.now) }
{
    is_numbered(c) && is_a(c.bytes, Terminal::Only(Class::Hash), token, rest)
}

/// Whether a formula begins with a token before others.
#[tactic(auto, using(crate::proofs::Heads::names_start))]
pub fn starts_formula<const N: usize>(c: &Context<N>, token: &Token, rest: &[Token]) -> bool
    requires token { LiesIn (length c.now.bytes.now) token.now }
    requires rest { AllIn c.now.bytes.now rest.now }
    ensures { result ≡ starts_formula (numbered (setting_of c.now)) (named c.now.m.now c.now.bytes.now token.now rest.now) }
{
    is_a(c.bytes, Terminal::Name, token, rest) || is_hash(c, token, rest)
}

/// The next token, which has to be of the class, and those behind it.
pub fn one<'a, const N: usize>(
    c: &Context<N>,
    class: Class,
    tokens: &'a [Token],
) -> Reading<'a, Token>
    requires { AllIn c.now.bytes.now tokens.now }
    ensures gives { GivesAs (named_all c.now.m.now c.now.bytes.now) (λ x. (named c.now.m.now c.now.bytes.now x.0 x.1.now, named_all c.now.m.now c.now.bytes.now x.1.now)) result (one_at (is class) (named_all c.now.m.now c.now.bytes.now tokens.now)) }
    ensures token { IfOk result (λ x. LiesIn (length c.now.bytes.now) x.0) }
    ensures rest { IfOk result (λ x. IsShorter c.now.bytes.now tokens.now x.1.now) }
{
    match tokens.split_first() {
        Some((token, rest)) if is_a(c.bytes, Terminal::Only(class), token, rest) => {
            Ok((*token, rest))
        }
        _ => Err(Stop::Unexpected(tokens)),
    }
}

/// Whether a token is next, and it is of the class.
pub fn next_is<const N: usize>(c: &Context<N>, class: Class, tokens: &[Token]) -> bool
    requires { AllIn c.now.bytes.now tokens.now }
    ensures { result ≡ next_is (is class) (named_all c.now.m.now c.now.bytes.now tokens.now) }
{
    lgc_tokens::next_is(c.bytes, Terminal::Only(class), tokens)
}

// ---- the formulas that numbers stand for

// The number that a token before others writes, where it is a number.
fn number_written(bytes: &[u8], token: &Token, rest: &[Token]) -> Option<u64>
    requires token { LiesIn (length bytes.now) token.now }
    requires rest { AllIn bytes.now rest.now }
    ensures { result ≡ number_written (spelled bytes.now token.now rest.now) }
{
    if is_a(bytes, Terminal::LongNumber, token, rest) {
        long_number_in(content(bytes, token))
    } else {
        None
    }
}

// The number that the first token writes.
fn number_first(bytes: &[u8], tokens: &[Token]) -> Option<u64>
    requires { AllIn bytes.now tokens.now }
    ensures { result ≡ number_first bytes.now tokens.now }
{
    match tokens.split_first() {
        Some((token, rest)) => number_written(bytes, token, rest),
        None => None,
    }
}

/// The formula with a number, counted from 1.
pub(crate) fn let_at<'a, const N: usize>(
    c: &Context<'a, N>,
    number: Option<u64>,
) -> Option<&'a Formula>
    ensures { option_map (λ f. f.now) result ≡ let_at (setting_of c.now) number }
{
    match c.lets {
        Some(lets) => match number {
            Some(number) if number > 0 => lets.get(number as usize - 1),
            _ => None,
        },
        None => None,
    }
}

/// The formula that a token before others stands for.
pub(crate) fn stands_for<'a, const N: usize>(
    c: &Context<'a, N>,
    token: &Token,
    rest: &[Token],
) -> Option<&'a Formula>
    requires token { LiesIn (length c.now.bytes.now) token.now }
    requires rest { AllIn c.now.bytes.now rest.now }
    ensures { option_map (λ f. f.now) result ≡ stands_for (setting_of c.now) (named c.now.m.now c.now.bytes.now token.now rest.now) }
{
    if is_numbered(c) && is_a(c.bytes, Terminal::Only(Class::Hash), token, rest) {
        let_at(c, number_first(c.bytes, rest))
    } else {
        None
    }
}
