// Single tokens of reports.
ghost use Rattle.std.specs.Prelude.{◌≡◌, length, IfOk};
ghost use Rattle.lgc_grammar.specs.Reading.{one_at, next_is};
ghost use Rattle.lgc_lexer.specs.Spans.{LiesIn, AllIn};
ghost use Rattle.lgc_tokens.specs.Spelled.{spelled_all, IsShorter};
ghost use Rattle.lgc_tokens.specs.Gives.{GivesAs};
ghost use Rattle.lgc_formulas.specs.Setting.{setting_of};
ghost use Rattle.lgc_report_reader.specs.Reported.{reported, reports, is, is_version, is_predicate, starts_query, starts_sequent, follows_name};
ghost use Rattle.lgc_report_reader.specs.ReportGrammar.{ends_principal, ends_query};
ghost use Rattle.lgc_report_reader.specs.ReportReading.{number_at, position_at};

use lgc_formulas::{Context, starts_formula};
use lgc_lexer::{Token, content};
use lgc_tokens::{Class, Reading, Stop, Terminal, is_a, long_number_in, number_in};

/// The tokens behind what is read, which goes to a place of the caller's.
pub(crate) type Rest<'a> = Result<&'a [Token], Stop<'a>>;

/// The next token, which has to be of the class, and those behind it.
pub(crate) fn one<'a, const N: usize>(
    c: &Context<N>,
    class: Class,
    tokens: &'a [Token],
) -> Reading<'a, Token>
    requires { AllIn c.now.bytes.now tokens.now }
    ensures gives { GivesAs (reports c.now) (λ x. (reported (setting_of c.now) c.now.bytes.now x.0 x.1.now, reports c.now x.1.now)) result (one_at (is class) (reports c.now tokens.now)) }
    ensures rest { IfOk result (λ x. IsShorter c.now.bytes.now tokens.now x.1.now) }
{
    match tokens.split_first() {
        Some((token, rest)) if is_a(c.bytes, Terminal::Only(class), token, rest) => {
            Ok((*token, rest))
        }
        _ => Err(Stop::Unexpected(tokens)),
    }
}

/// Whether a token is next, and it is of the class.
pub(crate) fn next_is<const N: usize>(c: &Context<N>, class: Class, tokens: &[Token]) -> bool
    requires { AllIn c.now.bytes.now tokens.now }
    ensures { result ≡ next_is (is class) (reports c.now tokens.now) }
{
    match tokens.split_first() {
        Some((token, rest)) => is_a(c.bytes, Terminal::Only(class), token, rest),
        None => false,
    }
}

// ---- numbers

/// The number of a rule or of a claim.
#[tactic(auto, using(crate::proofs::ReportedTokens::writes_number), unfolding(crate::specs::ReportReading::number_at))]
pub(crate) fn number<'a, const N: usize>(c: &Context<N>, tokens: &'a [Token]) -> Reading<'a, u32>
    requires { AllIn c.now.bytes.now tokens.now }
    ensures gives { GivesAs (reports c.now) (λ x. (x.0, reports c.now x.1.now)) result (number_at (reports c.now tokens.now)) }
    ensures rest { IfOk result (λ x. IsShorter c.now.bytes.now tokens.now x.1.now) }
{
    match tokens.split_first() {
        Some((token, rest)) if is_a(c.bytes, Terminal::Number, token, rest) => {
            match number_in(content(c.bytes, token)) {
                Some(number) => Ok((number, rest)),
                None => Err(Stop::Unexpected(tokens)),
            }
        }
        _ => Err(Stop::Unexpected(tokens)),
    }
}

/// The number of a line, where it stands or where it is cited.
#[tactic(auto, using(lgc_tokens::proofs::NumberTokens::asked_long_number), unfolding(crate::specs::ReportReading::position_at))]
pub(crate) fn position<'a, const N: usize>(c: &Context<N>, tokens: &'a [Token]) -> Reading<'a, u64>
    requires { AllIn c.now.bytes.now tokens.now }
    ensures gives { GivesAs (reports c.now) (λ x. (x.0, reports c.now x.1.now)) result (position_at (reports c.now tokens.now)) }
    ensures rest { IfOk result (λ x. IsShorter c.now.bytes.now tokens.now x.1.now) }
{
    match tokens.split_first() {
        Some((token, rest)) if is_a(c.bytes, Terminal::LongNumber, token, rest) => {
            match long_number_in(content(c.bytes, token)) {
                Some(number) => Ok((number, rest)),
                None => Err(Stop::Unexpected(tokens)),
            }
        }
        _ => Err(Stop::Unexpected(tokens)),
    }
}

/// The number of this version of reports.
pub(crate) fn version<'a, const N: usize>(c: &Context<N>, tokens: &'a [Token]) -> Reading<'a, Token>
    requires { AllIn c.now.bytes.now tokens.now }
    ensures gives { GivesAs (reports c.now) (λ x. (reported (setting_of c.now) c.now.bytes.now x.0 x.1.now, reports c.now x.1.now)) result (one_at is_version (reports c.now tokens.now)) }
    ensures rest { IfOk result (λ x. IsShorter c.now.bytes.now tokens.now x.1.now) }
{
    match tokens.split_first() {
        Some((token, rest))
            if is_a(c.bytes, Terminal::Only(Class::Number), token, rest)
                && content(c.bytes, token) == b"1".as_slice() => { Ok((*token, rest)) }
        _ => Err(Stop::Unexpected(tokens)),
    }
}

// ---- what begins what

// Whether a sign is first that may stand behind the first name of a formula in a sequent.
fn next_follows_name<const N: usize>(c: &Context<N>, tokens: &[Token]) -> bool
    requires { AllIn c.now.bytes.now tokens.now }
    ensures { result ≡ next_is follows_name (spelled_all c.now.bytes.now tokens.now) }
{
    match tokens.split_first() {
        Some((token, rest)) => {
            is_a(c.bytes, Terminal::Only(Class::Caret), token, rest)
                || is_a(c.bytes, Terminal::Only(Class::OpenRound), token, rest)
        }
        None => false,
    }
}

/// Whether a claim on a query begins with a token before others.
pub(crate) fn starts_query<const N: usize>(c: &Context<N>, token: &Token, rest: &[Token]) -> bool
    requires token { LiesIn (length c.now.bytes.now) token.now }
    requires rest { AllIn c.now.bytes.now rest.now }
    ensures { result ≡ starts_query (reported (setting_of c.now) c.now.bytes.now token.now rest.now) }
{
    is_a(c.bytes, Terminal::QueryStart, token, rest) && !next_follows_name(c, rest)
}

/// Whether a claim on a sequent begins with a token before others.
pub(crate) fn starts_sequent<const N: usize>(c: &Context<N>, token: &Token, rest: &[Token]) -> bool
    requires token { LiesIn (length c.now.bytes.now) token.now }
    requires rest { AllIn c.now.bytes.now rest.now }
    ensures { result ≡ starts_sequent (setting_of c.now) (reported (setting_of c.now) c.now.bytes.now token.now rest.now) }
{
    starts_formula(c, token, rest) && !starts_query(c, token, rest)
}

/// Whether a claim on a query begins with the next token.
pub(crate) fn next_starts_query<const N: usize>(c: &Context<N>, tokens: &[Token]) -> bool
    requires { AllIn c.now.bytes.now tokens.now }
    ensures { result ≡ next_is starts_query (reports c.now tokens.now) }
{
    match tokens.split_first() {
        Some((token, rest)) => starts_query(c, token, rest),
        None => false,
    }
}

/// Whether a token before others is the name of a predicate.
pub(crate) fn is_predicate<const N: usize>(c: &Context<N>, token: &Token, rest: &[Token]) -> bool
    requires token { LiesIn (length c.now.bytes.now) token.now }
    requires rest { AllIn c.now.bytes.now rest.now }
    ensures { result ≡ is_predicate (reported (setting_of c.now) c.now.bytes.now token.now rest.now) }
{
    let text = content(c.bytes, token);
    match c.m.operator_named(text) {
        Some(_) => false,
        None => match c.m.quantifier_named(text) {
            Some(_) => false,
            None => is_a(c.bytes, Terminal::Word, token, rest),
        },
    }
}

/// Whether the name of a predicate is next.
pub(crate) fn next_is_predicate<const N: usize>(c: &Context<N>, tokens: &[Token]) -> bool
    requires { AllIn c.now.bytes.now tokens.now }
    ensures { result ≡ next_is is_predicate (reports c.now tokens.now) }
{
    match tokens.split_first() {
        Some((token, rest)) => is_predicate(c, token, rest),
        None => false,
    }
}

// ---- what ends what

/// Whether a token is next that may follow the principal formula of a rule.
pub(crate) fn next_ends_principal<const N: usize>(c: &Context<N>, tokens: &[Token]) -> bool
    requires { AllIn c.now.bytes.now tokens.now }
    ensures { result ≡ next_is ends_principal (reports c.now tokens.now) }
{
    match tokens.split_first() {
        Some((token, rest)) => {
            is_a(c.bytes, Terminal::Only(Class::FromWord), token, rest)
                || is_a(c.bytes, Terminal::Only(Class::Dot), token, rest)
        }
        None => false,
    }
}

/// Whether a token is next that may follow a query.
pub(crate) fn next_ends_query<const N: usize>(c: &Context<N>, tokens: &[Token]) -> bool
    requires { AllIn c.now.bytes.now tokens.now }
    ensures { result ≡ next_is ends_query (reports c.now tokens.now) }
{
    match tokens.split_first() {
        Some((token, rest)) => {
            is_a(c.bytes, Terminal::Only(Class::ProvedWord), token, rest)
                || is_a(c.bytes, Terminal::Only(Class::UnfinishedWord), token, rest)
                || is_a(c.bytes, Terminal::Only(Class::RefutedWord), token, rest)
        }
        None => false,
    }
}
