// Formulas.
ghost use Rattle.std.specs.Prelude.{◌≡◌, [], ◌≤◌, ◌-◌, ◌+◌, nat_lt, length, option_map, IfOk};
ghost use Rattle.lgc_grammar.specs.Reading.{next_is};
ghost use Rattle.lgc_lexer.specs.Spans.{LiesIn, AllIn, content_of};
ghost use Rattle.lgc_values.specs.Logic.{operator_at};
ghost use Rattle.lgc_syntax.specs.Sizes.{nodes};
ghost use Rattle.lgc_tokens.specs.Spelled.{IsRest, IsShorter};
ghost use Rattle.lgc_tokens.specs.Gives.{FailsAs, GivesAs};
ghost use Rattle.lgc_formulas.specs.Named.{role_of, named, named_all};
ghost use Rattle.lgc_formulas.specs.Scopes.{names_of};
ghost use Rattle.lgc_formulas.specs.Setting.{setting_of, numbered};
ghost use Rattle.lgc_formulas.specs.Faults.{depth_shown, nodes_shown, quantifier_shown, formula_fault};
ghost use Rattle.lgc_formulas.specs.FormulaGrammar.{with_formula, ends_argument};
ghost use Rattle.lgc_formulas.specs.FormulaReading.{more_operands_at, operands_at, behind_operator_at, close_quantifier_at, atom_terms_at, formula_at, one_formula_at};
ghost use Rattle.lgc_formulas.specs.HeadReading.{head_of, head_at, behind_quantifier_at, behind_hash_at, behind_predicate_at, headed_formula_at};

use crate::context::{Context, is_numbered};
use crate::role::Role;
use crate::scope::{Scope, inside};
use crate::term::{is_too_long, terms_in};
use crate::token::{
    is_hash, is_predicate, is_quantifier, is_unknown, let_at, next_is, one, role_of, stands_for,
    starts_formula,
};
use lgc_lexer::{Token, content};
use lgc_syntax::{
    Formula, NOT_PROPOSITIONAL, TOO_DEEP, TOO_LARGE, Term, UNKNOWN_NAME, UNKNOWN_NUMBER,
    WRONG_ARITY, copy_formula, has_quantifier, is_within, nodes_left,
};
use lgc_tokens::{Class, Reading, Stop, Terminal, is_a, long_number_in};
use lgc_values::{List, Matrix, Name};
use sqlite_items::Boxed;
use std::alloc::{AllocError, Global};

/// The greatest depth of a formula or a term that is read.
pub const MOST_DEPTH: u32 = 100;

/// The greatest number of nodes of a formula or a term that is read.
pub const MOST_NODES: u32 = 1_000;

/// The greatest length of a name that isn't the logic's, in bytes, where formulas have numbers.
pub const LONGEST_NAME: usize = 64;

/// A formula that was read, and how many nodes are left behind it. Where the name of an operator with arguments stands alone the
/// formula is bare: no text is right that goes on behind it with anything but its arguments.
#[derive(Drop)]
pub struct Read {
    pub formula: Formula,
    pub nodes_left: u32,
    pub is_bare: bool,
}

/// Formulas that were read in a row, and how many nodes are left behind them. Where the last of them is bare they are, too.
#[derive(Drop)]
pub struct Formulas {
    pub list: List<Formula>,
    pub nodes_left: u32,
    pub is_bare: bool,
}

/// What a formula begins with: an operator or a quantifier, by its number from 0, a `#`, or a predicate.
#[derive(Clone, Copy, Debug, PartialEq, Eq)]
pub(crate) enum Head {
    Operator(u16),
    Quantifier(u16),
    Numbered,
    Predicate,
}

// ---- first tokens

fn is_shown_too_deep(shown: Option<&Formula>, deep: u32) -> bool
    ensures { result ≡ nat_lt deep (depth_shown (option_map (λ f. f.now) shown.entry)) }
{
    match shown {
        Some(formula) => !is_within(formula, deep),
        None => deep == 0,
    }
}

fn is_shown_too_large(shown: Option<&Formula>, many: u32) -> bool
    ensures { result ≡ nat_lt many (nodes_shown (option_map (λ f. f.now) shown.entry)) }
{
    match shown {
        Some(formula) => nodes_left(formula, many).is_none(),
        None => many == 0,
    }
}

fn shows_quantifier(shown: Option<&Formula>) -> bool
    ensures { result ≡ quantifier_shown (option_map (λ f. f.now) shown.entry) }
{
    match shown {
        Some(formula) => has_quantifier(formula),
        None => false,
    }
}

// The rule that the first token of a formula breaks, whose content has this role.
fn formula_fault<const N: usize>(
    c: &Context<N>,
    role: Role,
    deep: u32,
    many: u32,
    token: &Token,
    rest: &[Token],
) -> Option<u8>
    requires role { role ≡ role_of c.now.m.now (content_of c.now.bytes.now token.now) }
    requires token { LiesIn (length c.now.bytes.now) token.now }
    requires rest { AllIn c.now.bytes.now rest.now }
    ensures { result ≡ formula_fault (setting_of c.now) deep many (named c.now.m.now c.now.bytes.now token.now rest.now) }
{
    let shown = stands_for(c, token, rest);
    let is_long = is_too_long(is_numbered(c), content(c.bytes, token));
    if is_unknown(c.bytes, role, token, rest) {
        Some(UNKNOWN_NAME)
    } else if is_shown_too_deep(shown, deep) {
        Some(TOO_DEEP)
    } else if is_shown_too_large(shown, many)
        || (is_predicate(c.bytes, role, token, rest) && is_long)
    {
        Some(TOO_LARGE)
    } else if (is_quantifier(c.bytes, role, token, rest) || shows_quantifier(shown))
        && !c.quantified
    {
        Some(NOT_PROPOSITIONAL)
    } else {
        None
    }
}

fn head_of(is_hash: bool, role: Role) -> Head
    ensures { result ≡ head_of is_hash role }
{
    match role {
        _ if is_hash => Head::Numbered,
        Role::Operator(op) => Head::Operator(op),
        Role::Quantifier(quant) => Head::Quantifier(quant),
        Role::Neither => Head::Predicate,
    }
}

// The first token of a formula, and what it begins.
#[tactic(auto, unfolding(crate::specs::HeadReading::head_at))]
fn first_token<'a, const N: usize>(
    c: &Context<N>,
    deep: u32,
    many: u32,
    tokens: &'a [Token],
) -> Reading<'a, (Head, Token)>
    requires { AllIn c.now.bytes.now tokens.now }
    ensures gives { GivesAs (named_all c.now.m.now c.now.bytes.now) (λ x. ((x.0.0, content_of c.now.bytes.now x.0.1), named_all c.now.m.now c.now.bytes.now x.1.now)) result (head_at (setting_of c.now) deep many (named_all c.now.m.now c.now.bytes.now tokens.now)) }
    ensures token { IfOk result (λ x. LiesIn (length c.now.bytes.now) x.0.1) }
    ensures rest { IfOk result (λ x. IsShorter c.now.bytes.now tokens.now x.1.now) }
{
    match tokens.split_first() {
        Some((token, rest)) if starts_formula(c, token, rest) => {
            let role = role_of(c.m, content(c.bytes, token));
            match formula_fault(c, role, deep, many, token, rest) {
                Some(number) => Err(Stop::Breaks(number, tokens)),
                None => Ok(((head_of(is_hash(c, token, rest), role), *token), rest)),
            }
        }
        _ => Err(Stop::Unexpected(tokens)),
    }
}

// Why no formula is read where no node is left on the way down.
#[tactic(auto, unfolding(crate::specs::FormulaReading::formula_at))]
fn refused<'a, const N: usize>(
    c: &Context<N>,
    scope: &Scope,
    many: u32,
    tokens: &'a [Token],
) -> Stop<'a>
    requires { AllIn c.now.bytes.now tokens.now }
    ensures { FailsAs (named_all c.now.m.now c.now.bytes.now) result (formula_at (setting_of c.now) 0 (names_of scope.now) many (named_all c.now.m.now c.now.bytes.now tokens.now)) }
{
    match tokens.split_first() {
        Some((token, rest)) if starts_formula(c, token, rest) => {
            let role = role_of(c.m, content(c.bytes, token));
            Stop::Breaks(
                formula_fault(c, role, 0, many, token, rest).unwrap_or(TOO_DEEP),
                tokens,
            )
        }
        _ => Stop::Unexpected(tokens),
    }
}

// ---- numbered formulas and atoms

// How many of `many` nodes are left behind a formula.
fn left_behind(formula: &Formula, many: u32) -> u32
    ensures { result ≡ many - nodes formula.now }
{
    match nodes_left(formula, many) {
        Some(left) => left,
        None => 0,
    }
}

// The formula whose number stands behind a `#`.
#[tactic(auto, unfolding(crate::specs::HeadReading::behind_hash_at))]
fn behind_hash<'a, const N: usize>(
    alloc: Global,
    c: &Context<N>,
    many: u32,
    tokens: &'a [Token],
) -> Reading<'a, Read>
    requires { AllIn c.now.bytes.now tokens.now }
    ensures gives { GivesAs (named_all c.now.m.now c.now.bytes.now) (λ x. (x.0, named_all c.now.m.now c.now.bytes.now x.1.now)) result (behind_hash_at (setting_of c.now) many (named_all c.now.m.now c.now.bytes.now tokens.now)) }
    ensures rest { IfOk result (λ x. IsShorter c.now.bytes.now tokens.now x.1.now) }
{
    match tokens.split_first() {
        Some((token, rest)) if is_a(c.bytes, Terminal::LongNumber, token, rest) => {
            match let_at(c, long_number_in(content(c.bytes, token))) {
                Some(formula) => {
                    let nodes_left = left_behind(formula, many);
                    let formula = copy_formula(alloc, formula)?;
                    Ok((
                        Read {
                            formula,
                            nodes_left,
                            is_bare: false,
                        },
                        rest,
                    ))
                }
                None => Err(Stop::Breaks(UNKNOWN_NUMBER, tokens)),
            }
        }
        _ => Err(Stop::Unexpected(tokens)),
    }
}

// The terms of an atom, which are put into an empty list.
fn atom_terms<'a, const N: usize>(
    alloc: Global,
    c: &Context<N>,
    scope: &Scope,
    deep: u32,
    many: u32,
    terms: &mut List<Term>,
    tokens: &'a [Token],
) -> Reading<'a, u32>
    requires scope { length (names_of scope.now) ≤ MOST_DEPTH }
    requires inside { AllIn c.now.bytes.now tokens.now }
    requires none { terms.old ≡ [] }
    ensures gives { GivesAs (named_all c.now.m.now c.now.bytes.now) (λ x. ((terms.new, x.0), named_all c.now.m.now c.now.bytes.now x.1.now)) result (atom_terms_at (numbered (setting_of c.now)) (names_of scope.now) deep many (named_all c.now.m.now c.now.bytes.now tokens.now)) }
    ensures rest { IfOk result (λ x. IsRest c.now.bytes.now tokens.now x.1.now) }
{
    terms_in(
        alloc,
        c.bytes,
        is_numbered(c),
        scope,
        deep,
        many,
        terms,
        tokens,
    )
}

// The atom of a predicate, behind its name.
#[tactic(auto, unfolding(crate::specs::HeadReading::behind_predicate_at))]
fn behind_predicate<'a, const N: usize>(
    alloc: Global,
    c: &Context<N>,
    scope: &Scope,
    deep: u32,
    many: u32,
    name: &[u8],
    tokens: &'a [Token],
) -> Reading<'a, Read>
    requires scope { length (names_of scope.now) ≤ MOST_DEPTH }
    requires inside { AllIn c.now.bytes.now tokens.now }
    ensures gives { GivesAs (named_all c.now.m.now c.now.bytes.now) (λ x. (x.0, named_all c.now.m.now c.now.bytes.now x.1.now)) result (behind_predicate_at (numbered (setting_of c.now)) (names_of scope.now) deep name.now many (named_all c.now.m.now c.now.bytes.now tokens.now)) }
    ensures rest { IfOk result (λ x. IsRest c.now.bytes.now tokens.now x.1.now) }
{
    let mut terms = List::new(alloc);
    let (nodes_left, rest) = atom_terms(alloc, c, scope, deep, many, &mut terms, tokens)?;
    let name = Name::of_bytes(alloc, name)?;
    Ok((
        Read {
            formula: Formula::Atom(name, terms),
            nodes_left,
            is_bare: false,
        },
        rest,
    ))
}

// The bracket behind the body of a quantifier.
#[tactic(auto, unfolding(crate::specs::FormulaReading::close_quantifier_at))]
fn close_quantifier<'a, const N: usize>(
    alloc: Global,
    c: &Context<N>,
    quant: u16,
    body: Read,
    tokens: &'a [Token],
) -> Reading<'a, Read>
    requires { AllIn c.now.bytes.now tokens.now }
    ensures gives { GivesAs (named_all c.now.m.now c.now.bytes.now) (λ x. (x.0, named_all c.now.m.now c.now.bytes.now x.1.now)) result (close_quantifier_at quant body (named_all c.now.m.now c.now.bytes.now tokens.now)) }
    ensures rest { IfOk result (λ x. IsShorter c.now.bytes.now tokens.now x.1.now) }
{
    let Read {
        formula,
        nodes_left,
        is_bare,
    } = body;
    if is_bare {
        return Err(if next_is(c, Class::CloseRound, tokens) {
            Stop::Breaks(WRONG_ARITY, tokens)
        } else {
            Stop::Unexpected(tokens)
        });
    }
    let (_, rest) = one(c, Class::CloseRound, tokens)?;
    Ok((
        Read {
            formula: Formula::Quant(quant, Boxed::new(alloc, formula)?),
            nodes_left,
            is_bare: false,
        },
        rest,
    ))
}

// ---- operators and quantifiers

fn arity_of<const N: usize>(m: &Matrix<N>, op: u16) -> u8
    ensures { result ≡ (operator_at m.now op).arity }
{
    match m.operators().get(op as usize) {
        Some(operator) => operator.arity,
        None => 0,
    }
}

/// A formula behind others.
pub(crate) fn with_formula(before: List<Formula>, next: Read) -> Result<Formulas, AllocError>
    ensures { IfOk result (λ x. x ≡ with_formula before next) }
{
    let mut list = before;
    let Read {
        formula,
        nodes_left,
        is_bare,
    } = next;
    list.push(formula)?;
    Ok(Formulas {
        list,
        nodes_left,
        is_bare,
    })
}

// Whether what follows a formula among arguments is next.
fn next_ends_argument<const N: usize>(c: &Context<N>, tokens: &[Token]) -> bool
    requires { AllIn c.now.bytes.now tokens.now }
    ensures { result ≡ next_is ends_argument (named_all c.now.m.now c.now.bytes.now tokens.now) }
{
    match tokens.split_first() {
        Some((token, rest)) => {
            is_a(c.bytes, Terminal::Only(Class::Comma), token, rest)
                || is_a(c.bytes, Terminal::Only(Class::CloseRound), token, rest)
        }
        None => false,
    }
}

// `k` formulas behind others, each behind a comma, and the bracket behind them.
#[cycle(formula)]
#[tactic(auto, unfolding(crate::specs::FormulaReading::more_operands_at))]
fn more_operands<'a, const N: usize>(
    alloc: Global,
    c: &Context<N>,
    scope: &Scope,
    deep: u32,
    k: u8,
    before: Formulas,
    tokens: &'a [Token],
) -> Reading<'a, (List<Formula>, u32)>
    requires scope { length (names_of scope.now) + deep ≤ MOST_DEPTH }
    requires inside { AllIn c.now.bytes.now tokens.now }
    ensures gives { GivesAs (named_all c.now.m.now c.now.bytes.now) (λ x. ((x.0.0, x.0.1), named_all c.now.m.now c.now.bytes.now x.1.now)) result (more_operands_at (formula_at (setting_of c.now) deep (names_of scope.now)) k before (named_all c.now.m.now c.now.bytes.now tokens.now)) }
    ensures rest { IfOk result (λ x. IsShorter c.now.bytes.now tokens.now x.1.now) }
{
    let Formulas {
        list,
        nodes_left,
        is_bare,
    } = before;
    if is_bare {
        return Err(if next_ends_argument(c, tokens) {
            Stop::Breaks(WRONG_ARITY, tokens)
        } else {
            Stop::Unexpected(tokens)
        });
    }
    if k == 0 {
        if next_is(c, Class::Comma, tokens) {
            return Err(Stop::Breaks(WRONG_ARITY, tokens));
        }
        let (_, rest) = one(c, Class::CloseRound, tokens)?;
        return Ok(((list, nodes_left), rest));
    }
    if next_is(c, Class::CloseRound, tokens) {
        return Err(Stop::Breaks(WRONG_ARITY, tokens));
    }
    let (_, rest) = one(c, Class::Comma, tokens)?;
    let (next, rest) = formula(alloc, c, scope, deep, nodes_left, rest)?;
    let before = with_formula(list, next)?;
    more_operands(alloc, c, scope, deep, k - 1, before, rest)
}

// A formula in brackets and `k` behind it.
#[cycle(formula)]
#[tactic(auto, unfolding(crate::specs::FormulaReading::operands_at))]
fn operands<'a, const N: usize>(
    alloc: Global,
    c: &Context<N>,
    scope: &Scope,
    deep: u32,
    k: u8,
    many: u32,
    tokens: &'a [Token],
) -> Reading<'a, (List<Formula>, u32)>
    requires scope { length (names_of scope.now) + deep ≤ MOST_DEPTH }
    requires inside { AllIn c.now.bytes.now tokens.now }
    ensures gives { GivesAs (named_all c.now.m.now c.now.bytes.now) (λ x. ((x.0.0, x.0.1), named_all c.now.m.now c.now.bytes.now x.1.now)) result (operands_at (formula_at (setting_of c.now) deep (names_of scope.now)) k many (named_all c.now.m.now c.now.bytes.now tokens.now)) }
    ensures rest { IfOk result (λ x. IsShorter c.now.bytes.now tokens.now x.1.now) }
{
    let (_, rest) = one(c, Class::OpenRound, tokens)?;
    let (first, rest) = formula(alloc, c, scope, deep, many, rest)?;
    let room = List::of_vec(Vec::with_capacity(alloc, k as usize + 1)?);
    let before = with_formula(room, first)?;
    more_operands(alloc, c, scope, deep, k, before, rest)
}

// An operator, behind its name.
#[cycle(formula)]
#[tactic(auto, unfolding(crate::specs::FormulaReading::behind_operator_at))]
fn behind_operator<'a, const N: usize>(
    alloc: Global,
    c: &Context<N>,
    scope: &Scope,
    deep: u32,
    arity: u8,
    op: u16,
    many: u32,
    tokens: &'a [Token],
) -> Reading<'a, Read>
    requires scope { length (names_of scope.now) + deep ≤ MOST_DEPTH }
    requires inside { AllIn c.now.bytes.now tokens.now }
    ensures gives { GivesAs (named_all c.now.m.now c.now.bytes.now) (λ x. (x.0, named_all c.now.m.now c.now.bytes.now x.1.now)) result (behind_operator_at (formula_at (setting_of c.now) deep (names_of scope.now)) arity op many (named_all c.now.m.now c.now.bytes.now tokens.now)) }
    ensures rest { IfOk result (λ x. IsRest c.now.bytes.now tokens.now x.1.now) }
{
    if !next_is(c, Class::OpenRound, tokens) {
        return Ok((
            Read {
                formula: Formula::Op(op, List::new(alloc)),
                nodes_left: many,
                is_bare: arity > 0,
            },
            tokens,
        ));
    }
    if arity == 0 {
        return Err(Stop::Breaks(WRONG_ARITY, tokens));
    }
    let ((list, nodes_left), rest) = operands(alloc, c, scope, deep, arity - 1, many, tokens)?;
    Ok((
        Read {
            formula: Formula::Op(op, list),
            nodes_left,
            is_bare: false,
        },
        rest,
    ))
}

// A quantifier, behind its name.
#[cycle(formula)]
#[tactic(auto, unfolding(crate::specs::HeadReading::behind_quantifier_at))]
fn behind_quantifier<'a, const N: usize>(
    alloc: Global,
    c: &Context<N>,
    scope: &Scope,
    deep: u32,
    quant: u16,
    many: u32,
    tokens: &'a [Token],
) -> Reading<'a, Read>
    requires scope { length (names_of scope.now) + 1 + deep ≤ MOST_DEPTH }
    requires inside { AllIn c.now.bytes.now tokens.now }
    ensures gives { GivesAs (named_all c.now.m.now c.now.bytes.now) (λ x. (x.0, named_all c.now.m.now c.now.bytes.now x.1.now)) result (behind_quantifier_at (formula_at (setting_of c.now) deep) quant (names_of scope.now) many (named_all c.now.m.now c.now.bytes.now tokens.now)) }
    ensures rest { IfOk result (λ x. IsRest c.now.bytes.now tokens.now x.1.now) }
{
    let (_, rest) = one(c, Class::OpenRound, tokens)?;
    let (variable, rest) = one(c, Class::Upper, rest)?;
    let (_, rest) = one(c, Class::Comma, rest)?;
    let inner = inside(content(c.bytes, &variable), &*scope);
    let (body, rest) = formula(alloc, c, &inner, deep, many, rest)?;
    close_quantifier(alloc, c, quant, body, rest)
}

// ---- formulas

// A formula, where a node is left on the way down.
#[cycle(formula)]
#[tactic(auto, unfolding(crate::specs::HeadReading::headed_formula_at, crate::specs::HeadReading::behind_head_at))]
fn headed_formula<'a, const N: usize>(
    alloc: Global,
    c: &Context<N>,
    scope: &Scope,
    deep: u32,
    many: u32,
    tokens: &'a [Token],
) -> Reading<'a, Read>
    requires scope { length (names_of scope.now) + deep ≤ MOST_DEPTH }
    requires inside { AllIn c.now.bytes.now tokens.now }
    requires deep { 1 ≤ deep }
    ensures gives { GivesAs (named_all c.now.m.now c.now.bytes.now) (λ x. (x.0, named_all c.now.m.now c.now.bytes.now x.1.now)) result (headed_formula_at (setting_of c.now) deep (names_of scope.now) many (named_all c.now.m.now c.now.bytes.now tokens.now)) }
    ensures rest { IfOk result (λ x. IsShorter c.now.bytes.now tokens.now x.1.now) }
{
    let ((first, token), rest) = first_token(c, deep, many, tokens)?;
    let deep = deep - 1;
    let left = many.saturating_sub(1);
    match first {
        Head::Operator(op) => {
            behind_operator(alloc, c, scope, deep, arity_of(c.m, op), op, left, rest)
        }
        Head::Quantifier(quant) => behind_quantifier(alloc, c, scope, deep, quant, left, rest),
        Head::Numbered => behind_hash(alloc, c, many, rest),
        Head::Predicate => {
            behind_predicate(alloc, c, scope, deep, left, content(c.bytes, &token), rest)
        }
    }
}

// A formula, where `deep` nodes are left on the way down and `many` in all.
#[cycle(formula)]
#[tactic(auto, using(crate::proofs::Heads::by_head))]
fn formula<'a, const N: usize>(
    alloc: Global,
    c: &Context<N>,
    scope: &Scope,
    deep: u32,
    many: u32,
    tokens: &'a [Token],
) -> Reading<'a, Read>
    requires scope { length (names_of scope.now) + deep ≤ MOST_DEPTH }
    requires inside { AllIn c.now.bytes.now tokens.now }
    ensures gives { GivesAs (named_all c.now.m.now c.now.bytes.now) (λ x. (x.0, named_all c.now.m.now c.now.bytes.now x.1.now)) result (formula_at (setting_of c.now) deep (names_of scope.now) many (named_all c.now.m.now c.now.bytes.now tokens.now)) }
    ensures rest { IfOk result (λ x. IsShorter c.now.bytes.now tokens.now x.1.now) }
{
    if deep == 0 {
        return Err(refused(c, scope, many, tokens));
    }
    headed_formula(alloc, c, scope, deep, many, tokens)
}

/// A formula with no quantifier around it, which may be bare, where `many` nodes are left.
///
/// Whoever reads on behind it bars it: where it is bare, the rule of the number of arguments is broken by each token that could go on
/// there.
#[tactic(auto, using(crate::proofs::ScopeLaws::names_rules), unfolding(crate::specs::FormulaReading::one_formula_at))]
pub fn one_formula<'a, const N: usize>(
    alloc: Global,
    c: &Context<N>,
    many: u32,
    tokens: &'a [Token],
) -> Reading<'a, Read>
    requires { AllIn c.now.bytes.now tokens.now }
    ensures gives { GivesAs (named_all c.now.m.now c.now.bytes.now) (λ x. (x.0, named_all c.now.m.now c.now.bytes.now x.1.now)) result (one_formula_at (setting_of c.now) many (named_all c.now.m.now c.now.bytes.now tokens.now)) }
    ensures rest { IfOk result (λ x. IsShorter c.now.bytes.now tokens.now x.1.now) }
{
    formula(alloc, c, &Scope::Outermost, MOST_DEPTH, many, tokens)
}
