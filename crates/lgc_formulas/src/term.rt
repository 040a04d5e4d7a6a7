// Terms.
ghost use Rattle.std.specs.Prelude.{◌≡◌, [], ◌≤◌, ◌-◌, Bool, length, IfOk};
ghost use Rattle.lgc_grammar.specs.Reading.{allowed_at};
ghost use Rattle.lgc_lexer.specs.Spans.{LiesIn, AllIn};
ghost use Rattle.lgc_tokens.specs.Spelled.{spelled, spelled_all, IsRest, IsShorter};
ghost use Rattle.lgc_tokens.specs.Classes.{is_word};
ghost use Rattle.lgc_tokens.specs.Gives.{Gives, Fails};
ghost use Rattle.lgc_formulas.specs.declared.formula.TheConstants.{MOST_DEPTH};
ghost use Rattle.lgc_formulas.specs.Scopes.{names_of};
ghost use Rattle.lgc_formulas.specs.Faults.{is_too_long, term_fault};
ghost use Rattle.lgc_formulas.specs.TermReading.{next_term_at, comma_term_at, more_terms_at, some_terms_at, terms_at, application_at, variable_at, term_at, one_term_at};

use crate::formula::{LONGEST_NAME, MOST_DEPTH};
use crate::scope::{Scope, is_reserved, place_of};
use lgc_lexer::{Token, content};
use lgc_syntax::{RESERVED_NAME, TOO_DEEP, TOO_LARGE, Term};
use lgc_tokens::{Class, Reading, Stop, Terminal, is_a, next_is, one};
use lgc_values::{List, Name};
use std::alloc::Global;

/// Whether a name is longer than names may be, where they have a limit.
pub(crate) fn is_too_long(limited: bool, text: &[u8]) -> bool
    ensures { result ≡ is_too_long limited text.now }
{
    limited && text.len() > LONGEST_NAME
}

// The rule that the first token of a term breaks.
fn term_fault(
    bytes: &[u8],
    limited: bool,
    scope: &Scope,
    deep: u32,
    many: u32,
    token: &Token,
    rest: &[Token],
) -> Option<u8>
    requires scope { length (names_of scope.now) ≤ MOST_DEPTH }
    requires token { LiesIn (length bytes.now) token.now }
    requires rest { AllIn bytes.now rest.now }
    ensures { result ≡ term_fault limited (names_of scope.now) deep many (spelled bytes.now token.now rest.now) }
{
    let text = content(bytes, token);
    let is_variable = is_a(bytes, Terminal::Only(Class::Upper), token, rest);
    let is_bound = is_variable && place_of(scope, text).is_some();
    if is_variable && !is_bound && is_reserved(text) {
        Some(RESERVED_NAME)
    } else if deep == 0 {
        Some(TOO_DEEP)
    } else if many == 0 || (!is_bound && is_too_long(limited, text)) {
        Some(TOO_LARGE)
    } else {
        None
    }
}

// Why no term is read where no node is left on the way down.
#[tactic(auto, unfolding(crate::specs::TermReading::term_at))]
fn refused<'a>(
    bytes: &[u8],
    limited: bool,
    scope: &Scope,
    many: u32,
    tokens: &'a [Token],
) -> Stop<'a>
    requires scope { length (names_of scope.now) ≤ MOST_DEPTH }
    requires inside { AllIn bytes.now tokens.now }
    ensures { Fails bytes.now result (term_at limited (names_of scope.now) 0 many (spelled_all bytes.now tokens.now)) }
{
    match tokens.split_first() {
        Some((token, rest)) if is_a(bytes, Terminal::TermStart, token, rest) => {
            Stop::Breaks(
                term_fault(bytes, limited, scope, 0, many, token, rest).unwrap_or(TOO_DEEP),
                tokens,
            )
        }
        _ => Stop::Unexpected(tokens),
    }
}

// A variable.
#[tactic(auto, unfolding(crate::specs::TermReading::variable_at))]
fn variable<'a>(
    alloc: Global,
    bytes: &[u8],
    limited: bool,
    scope: &Scope,
    deep: u32,
    many: u32,
    tokens: &'a [Token],
) -> Reading<'a, (Term, u32)>
    requires scope { length (names_of scope.now) ≤ MOST_DEPTH }
    requires inside { AllIn bytes.now tokens.now }
    ensures gives { Gives bytes.now (λ x. ((x.0.0, x.0.1), spelled_all bytes.now x.1.now)) result (variable_at (names_of scope.now) (term_fault limited (names_of scope.now) deep many) (many - 1) (spelled_all bytes.now tokens.now)) }
    ensures rest { IfOk result (λ x. IsShorter bytes.now tokens.now x.1.now) }
{
    match tokens.split_first() {
        Some((token, rest)) if is_a(bytes, Terminal::Only(Class::Upper), token, rest) => {
            if let Some(number) = term_fault(bytes, limited, scope, deep, many, token, rest) {
                return Err(Stop::Breaks(number, tokens));
            }
            let text = content(bytes, token);
            let variable = match place_of(scope, text) {
                Some(place) => Term::Bound(place),
                None => Term::Free(Name::of_bytes(alloc, text)?),
            };
            Ok(((variable, many.saturating_sub(1)), rest))
        }
        _ => Err(Stop::Unexpected(tokens)),
    }
}

// The name of a function.
fn function<'a>(
    bytes: &[u8],
    limited: bool,
    scope: &Scope,
    deep: u32,
    many: u32,
    tokens: &'a [Token],
) -> Reading<'a, Token>
    requires scope { length (names_of scope.now) ≤ MOST_DEPTH }
    requires inside { AllIn bytes.now tokens.now }
    ensures gives { Gives bytes.now (λ x. (spelled bytes.now x.0 x.1.now, spelled_all bytes.now x.1.now)) result (allowed_at is_word (term_fault limited (names_of scope.now) deep many) (spelled_all bytes.now tokens.now)) }
    ensures token { IfOk result (λ x. LiesIn (length bytes.now) x.0) }
    ensures rest { IfOk result (λ x. IsShorter bytes.now tokens.now x.1.now) }
{
    match tokens.split_first() {
        Some((token, rest)) if is_a(bytes, Terminal::Word, token, rest) => {
            match term_fault(bytes, limited, scope, deep, many, token, rest) {
                Some(number) => Err(Stop::Breaks(number, tokens)),
                None => Ok((*token, rest)),
            }
        }
        _ => Err(Stop::Unexpected(tokens)),
    }
}

// One more term.
#[cycle(term)]
#[tactic(auto, unfolding(crate::specs::TermReading::next_term_at))]
fn next_term<'a>(
    alloc: Global,
    bytes: &[u8],
    limited: bool,
    scope: &Scope,
    deep: u32,
    many: u32,
    terms: &mut List<Term>,
    tokens: &'a [Token],
) -> Reading<'a, u32>
    requires scope { length (names_of scope.now) ≤ MOST_DEPTH }
    requires inside { AllIn bytes.now tokens.now }
    ensures gives { Gives bytes.now (λ x. ((terms.new, x.0), spelled_all bytes.now x.1.now)) result (next_term_at (term_at limited (names_of scope.now) deep) (terms.old, many) (spelled_all bytes.now tokens.now)) }
    ensures rest { IfOk result (λ x. IsShorter bytes.now tokens.now x.1.now) }
{
    let ((next, left), rest) = term(alloc, bytes, limited, scope, deep, many, tokens)?;
    terms.push(next)?;
    Ok((left, rest))
}

// A comma and a term.
#[cycle(term)]
#[tactic(auto, unfolding(crate::specs::TermReading::comma_term_at))]
fn comma_term<'a>(
    alloc: Global,
    bytes: &[u8],
    limited: bool,
    scope: &Scope,
    deep: u32,
    many: u32,
    terms: &mut List<Term>,
    tokens: &'a [Token],
) -> Reading<'a, u32>
    requires scope { length (names_of scope.now) ≤ MOST_DEPTH }
    requires inside { AllIn bytes.now tokens.now }
    ensures gives { Gives bytes.now (λ x. ((terms.new, x.0), spelled_all bytes.now x.1.now)) result (comma_term_at (term_at limited (names_of scope.now) deep) (terms.old, many) (spelled_all bytes.now tokens.now)) }
    ensures rest { IfOk result (λ x. IsShorter bytes.now tokens.now x.1.now) }
{
    let (_, rest) = one(bytes, Terminal::Only(Class::Comma), tokens)?;
    next_term(alloc, bytes, limited, scope, deep, many, terms, rest)
}

// Terms behind others, each behind a comma.
#[cycle(term)]
fn more_terms<'a>(
    alloc: Global,
    bytes: &[u8],
    limited: bool,
    scope: &Scope,
    deep: u32,
    many: u32,
    terms: &mut List<Term>,
    tokens: &'a [Token],
) -> Reading<'a, u32>
    requires scope { length (names_of scope.now) ≤ MOST_DEPTH }
    requires inside { AllIn bytes.now tokens.now }
    ensures gives { Gives bytes.now (λ x. ((terms.new, x.0), spelled_all bytes.now x.1.now)) result (more_terms_at (term_at limited (names_of scope.now) deep) (terms.old, many) (spelled_all bytes.now tokens.now)) }
    ensures rest { IfOk result (λ x. IsRest bytes.now tokens.now x.1.now) }
{
    let mut many = many;
    let mut rest = tokens;
    while next_is(bytes, Terminal::Only(Class::Comma), rest) {
        let (left, behind) = comma_term(alloc, bytes, limited, scope, deep, many, terms, rest)?;
        many = left;
        rest = behind;
    }
    Ok((many, rest))
}

// Terms in brackets.
#[cycle(term)]
#[tactic(auto, unfolding(crate::specs::TermReading::some_terms_at))]
fn some_terms<'a>(
    alloc: Global,
    bytes: &[u8],
    limited: bool,
    scope: &Scope,
    deep: u32,
    many: u32,
    terms: &mut List<Term>,
    tokens: &'a [Token],
) -> Reading<'a, u32>
    requires scope { length (names_of scope.now) ≤ MOST_DEPTH }
    requires inside { AllIn bytes.now tokens.now }
    requires none { terms.old ≡ [] }
    ensures gives { Gives bytes.now (λ x. ((terms.new, x.0), spelled_all bytes.now x.1.now)) result (some_terms_at (term_at limited (names_of scope.now) deep) many (spelled_all bytes.now tokens.now)) }
    ensures rest { IfOk result (λ x. IsShorter bytes.now tokens.now x.1.now) }
{
    let (_, rest) = one(bytes, Terminal::Only(Class::OpenRound), tokens)?;
    let (left, rest) = next_term(alloc, bytes, limited, scope, deep, many, terms, rest)?;
    let (left, rest) = more_terms(alloc, bytes, limited, scope, deep, left, terms, rest)?;
    let (_, rest) = one(bytes, Terminal::Only(Class::CloseRound), rest)?;
    Ok((left, rest))
}

/// Terms in brackets, or none, which are put into an empty list.
#[cycle(term)]
#[tactic(auto, unfolding(crate::specs::TermReading::terms_at))]
pub(crate) fn terms_in<'a>(
    alloc: Global,
    bytes: &[u8],
    limited: bool,
    scope: &Scope,
    deep: u32,
    many: u32,
    terms: &mut List<Term>,
    tokens: &'a [Token],
) -> Reading<'a, u32>
    requires scope { length (names_of scope.now) ≤ MOST_DEPTH }
    requires inside { AllIn bytes.now tokens.now }
    requires none { terms.old ≡ [] }
    ensures gives { Gives bytes.now (λ x. ((terms.new, x.0), spelled_all bytes.now x.1.now)) result (terms_at (term_at limited (names_of scope.now) deep) many (spelled_all bytes.now tokens.now)) }
    ensures rest { IfOk result (λ x. IsRest bytes.now tokens.now x.1.now) }
{
    if next_is(bytes, Terminal::Only(Class::OpenRound), tokens) {
        some_terms(alloc, bytes, limited, scope, deep, many, terms, tokens)
    } else {
        Ok((many, tokens))
    }
}

// A function with its arguments.
#[cycle(term)]
#[tactic(auto, unfolding(crate::specs::TermReading::application_at))]
fn application<'a>(
    alloc: Global,
    bytes: &[u8],
    limited: bool,
    scope: &Scope,
    deep: u32,
    many: u32,
    tokens: &'a [Token],
) -> Reading<'a, (Term, u32)>
    requires scope { length (names_of scope.now) ≤ MOST_DEPTH }
    requires inside { AllIn bytes.now tokens.now }
    requires deep { 1 ≤ deep }
    ensures gives { Gives bytes.now (λ x. ((x.0.0, x.0.1), spelled_all bytes.now x.1.now)) result (application_at (term_at limited (names_of scope.now) (deep - 1)) (term_fault limited (names_of scope.now) deep many) (many - 1) (spelled_all bytes.now tokens.now)) }
    ensures rest { IfOk result (λ x. IsShorter bytes.now tokens.now x.1.now) }
{
    let (head, rest) = function(bytes, limited, scope, deep, many, tokens)?;
    let mut terms = List::new(alloc);
    let (left, rest) = terms_in(
        alloc,
        bytes,
        limited,
        scope,
        deep - 1,
        many.saturating_sub(1),
        &mut terms,
        rest,
    )?;
    let name = Name::of_bytes(alloc, content(bytes, &head))?;
    Ok(((Term::Apply(name, terms), left), rest))
}

/// A term, and how many nodes are left behind it, where `deep` nodes are left on the way down and `many` in all. Names are limited
/// where `limited` says so.
#[cycle(term)]
#[tactic(auto, unfolding(crate::specs::TermReading::term_at))]
fn term<'a>(
    alloc: Global,
    bytes: &[u8],
    limited: bool,
    scope: &Scope,
    deep: u32,
    many: u32,
    tokens: &'a [Token],
) -> Reading<'a, (Term, u32)>
    requires scope { length (names_of scope.now) ≤ MOST_DEPTH }
    requires inside { AllIn bytes.now tokens.now }
    ensures gives { Gives bytes.now (λ x. ((x.0.0, x.0.1), spelled_all bytes.now x.1.now)) result (term_at limited (names_of scope.now) deep many (spelled_all bytes.now tokens.now)) }
    ensures rest { IfOk result (λ x. IsShorter bytes.now tokens.now x.1.now) }
{
    if deep == 0 {
        return Err(refused(bytes, limited, scope, many, tokens));
    }
    if next_is(bytes, Terminal::Only(Class::Upper), tokens) {
        variable(alloc, bytes, limited, scope, deep, many, tokens)
    } else {
        application(alloc, bytes, limited, scope, deep, many, tokens)
    }
}

/// A term with no quantifier around it, whose names may be long, and how many of `many` nodes are left behind it.
#[tactic(auto, using(crate::proofs::ScopeLaws::names_rules), unfolding(crate::specs::TermReading::one_term_at))]
pub fn one_term<'a>(
    alloc: Global,
    bytes: &[u8],
    many: u32,
    tokens: &'a [Token],
) -> Reading<'a, (Term, u32)>
    requires { AllIn bytes.now tokens.now }
    ensures gives { Gives bytes.now (λ x. ((x.0.0, x.0.1), spelled_all bytes.now x.1.now)) result (one_term_at many (spelled_all bytes.now tokens.now)) }
    ensures rest { IfOk result (λ x. IsShorter bytes.now tokens.now x.1.now) }
{
    term(
        alloc,
        bytes,
        false,
        &Scope::Outermost,
        MOST_DEPTH,
        many,
        tokens,
    )
}
