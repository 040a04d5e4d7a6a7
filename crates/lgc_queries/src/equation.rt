// Premises and equations.
ghost use Rattle.std.specs.Prelude.{◌≡◌, IfOk};
ghost use Rattle.lgc_grammar.specs.Reading.{next_is, optional_at};
ghost use Rattle.lgc_lexer.specs.Spans.{AllIn};
ghost use Rattle.lgc_tokens.specs.Spelled.{IsRest, IsShorter};
ghost use Rattle.lgc_tokens.specs.Gives.{GivesAs};
ghost use Rattle.lgc_formulas.specs.Named.{named, named_all, starts_formula};
ghost use Rattle.lgc_formulas.specs.Setting.{setting_of, numbered};
ghost use Rattle.lgc_formulas.specs.FormulaReading.{one_formula_at, formula_list_at};
ghost use Rattle.lgc_queries.specs.QueryGrammar.{no_formulas, no_equations, equated, with_equation};
ghost use Rattle.lgc_queries.specs.QueryReading.{sign_behind_at, premises_at, equation_at, comma_equation_at, more_equations_at, equation_list_at, equation_premises_at};

use crate::read::{EquationRead, Equations};
use lgc_formulas::{
    Context, Formulas, Read, formula_list, next_is, one, one_formula, starts_formula,
};
use lgc_lexer::Token;
use lgc_meaning::Pair;
use lgc_syntax::{Formula, WRONG_ARITY};
use lgc_tokens::{Class, Reading, Stop};
use lgc_values::List;
use std::alloc::{AllocError, Global};

// Whether a formula begins with the next token.
fn next_starts_formula<const N: usize>(c: &Context<N>, tokens: &[Token]) -> bool
    requires { AllIn c.now.bytes.now tokens.now }
    ensures { result ≡ next_is (starts_formula (numbered (setting_of c.now))) (named_all c.now.m.now c.now.bytes.now tokens.now) }
{
    match tokens.split_first() {
        Some((token, rest)) => starts_formula(c, token, rest),
        None => false,
    }
}

// The next token behind a formula, which has to be of the class. Where the formula is bare such a token shows that arguments are missing.
#[tactic(auto, unfolding(crate::specs::QueryReading::sign_behind_at))]
fn sign_behind<'a, const N: usize>(
    c: &Context<N>,
    is_bare: bool,
    class: Class,
    tokens: &'a [Token],
) -> Reading<'a, Token>
    requires { AllIn c.now.bytes.now tokens.now }
    ensures gives { GivesAs (named_all c.now.m.now c.now.bytes.now) (λ x. (named c.now.m.now c.now.bytes.now x.0 x.1.now, named_all c.now.m.now c.now.bytes.now x.1.now)) result (sign_behind_at is_bare class (named_all c.now.m.now c.now.bytes.now tokens.now)) }
    ensures rest { IfOk result (λ x. IsShorter c.now.bytes.now tokens.now x.1.now) }
{
    if is_bare {
        return Err(if next_is(c, class, tokens) {
            Stop::Breaks(WRONG_ARITY, tokens)
        } else {
            Stop::Unexpected(tokens)
        });
    }
    one(c, class, tokens)
}

// ---- premises that are formulas

// Formulas with commas between them, or none.
fn formulas<'a, const N: usize>(
    alloc: Global,
    c: &Context<N>,
    many: u32,
    tokens: &'a [Token],
) -> Reading<'a, Formulas>
    requires { AllIn c.now.bytes.now tokens.now }
    ensures gives { GivesAs (named_all c.now.m.now c.now.bytes.now) (λ x. (x.0, named_all c.now.m.now c.now.bytes.now x.1.now)) result (optional_at (starts_formula (numbered (setting_of c.now))) (no_formulas many) (formula_list_at (one_formula_at (setting_of c.now)) many) (named_all c.now.m.now c.now.bytes.now tokens.now)) }
    ensures rest { IfOk result (λ x. IsRest c.now.bytes.now tokens.now x.1.now) }
{
    if next_starts_formula(c, tokens) {
        formula_list(alloc, c, many, tokens)
    } else {
        let none = Formulas {
            list: List::new(alloc),
            nodes_left: many,
            is_bare: false,
        };
        Ok((none, tokens))
    }
}

/// The premises before a turnstile, where they are formulas, and the turnstile.
#[tactic(auto, unfolding(crate::specs::QueryReading::premises_at))]
pub(crate) fn premises<'a, const N: usize>(
    alloc: Global,
    c: &Context<N>,
    many: u32,
    tokens: &'a [Token],
) -> Reading<'a, Formulas>
    requires { AllIn c.now.bytes.now tokens.now }
    ensures gives { GivesAs (named_all c.now.m.now c.now.bytes.now) (λ x. (x.0, named_all c.now.m.now c.now.bytes.now x.1.now)) result (premises_at (setting_of c.now) many (named_all c.now.m.now c.now.bytes.now tokens.now)) }
    ensures rest { IfOk result (λ x. IsShorter c.now.bytes.now tokens.now x.1.now) }
{
    let (before, rest) = formulas(alloc, c, many, tokens)?;
    let (_, rest) = sign_behind(c, before.is_bare, Class::Turnstile, rest)?;
    Ok((before, rest))
}

// ---- equations

fn equated(left: Formula, right: Read) -> EquationRead
    ensures { result ≡ equated left right }
{
    let Read {
        formula,
        nodes_left,
        is_bare,
    } = right;
    let pair = Pair {
        left,
        right: formula,
    };
    EquationRead {
        pair,
        nodes_left,
        is_bare,
    }
}

/// An equation, where `many` nodes are left. Its right side may be bare.
#[tactic(auto, unfolding(crate::specs::QueryReading::equation_at))]
pub(crate) fn equation<'a, const N: usize>(
    alloc: Global,
    c: &Context<N>,
    many: u32,
    tokens: &'a [Token],
) -> Reading<'a, EquationRead>
    requires { AllIn c.now.bytes.now tokens.now }
    ensures gives { GivesAs (named_all c.now.m.now c.now.bytes.now) (λ x. (x.0, named_all c.now.m.now c.now.bytes.now x.1.now)) result (equation_at (setting_of c.now) many (named_all c.now.m.now c.now.bytes.now tokens.now)) }
    ensures rest { IfOk result (λ x. IsShorter c.now.bytes.now tokens.now x.1.now) }
{
    let (left, rest) = one_formula(alloc, c, many, tokens)?;
    let Read {
        formula,
        nodes_left,
        is_bare,
    } = left;
    let (_, rest) = sign_behind(c, is_bare, Class::Equals, rest)?;
    let (right, rest) = one_formula(alloc, c, nodes_left, rest)?;
    Ok((equated(formula, right), rest))
}

fn with_equation(before: List<Pair>, next: EquationRead) -> Result<Equations, AllocError>
    ensures { IfOk result (λ x. x ≡ with_equation before next) }
{
    let mut list = before;
    let EquationRead {
        pair,
        nodes_left,
        is_bare,
    } = next;
    list.push(pair)?;
    Ok(Equations {
        list,
        nodes_left,
        is_bare,
    })
}

// A comma and an equation, behind these.
#[tactic(auto, unfolding(crate::specs::QueryReading::comma_equation_at))]
fn comma_equation<'a, const N: usize>(
    alloc: Global,
    c: &Context<N>,
    before: Equations,
    tokens: &'a [Token],
) -> Reading<'a, Equations>
    requires { AllIn c.now.bytes.now tokens.now }
    ensures gives { GivesAs (named_all c.now.m.now c.now.bytes.now) (λ x. (x.0, named_all c.now.m.now c.now.bytes.now x.1.now)) result (comma_equation_at (setting_of c.now) before (named_all c.now.m.now c.now.bytes.now tokens.now)) }
    ensures rest { IfOk result (λ x. IsShorter c.now.bytes.now tokens.now x.1.now) }
{
    let Equations {
        list,
        nodes_left,
        is_bare,
    } = before;
    let (_, rest) = sign_behind(c, is_bare, Class::Comma, tokens)?;
    let (next, rest) = equation(alloc, c, nodes_left, rest)?;
    let equations = with_equation(list, next)?;
    Ok((equations, rest))
}

// Equations behind these, each behind a comma.
fn more_equations<'a, const N: usize>(
    alloc: Global,
    c: &Context<N>,
    before: Equations,
    tokens: &'a [Token],
) -> Reading<'a, Equations>
    requires { AllIn c.now.bytes.now tokens.now }
    ensures gives { GivesAs (named_all c.now.m.now c.now.bytes.now) (λ x. (x.0, named_all c.now.m.now c.now.bytes.now x.1.now)) result (more_equations_at (setting_of c.now) before (named_all c.now.m.now c.now.bytes.now tokens.now)) }
    ensures rest { IfOk result (λ x. IsRest c.now.bytes.now tokens.now x.1.now) }
{
    let mut equations = before;
    let mut rest = tokens;
    while next_is(c, Class::Comma, rest) {
        let (next, behind) = comma_equation(alloc, c, equations, rest)?;
        equations = next;
        rest = behind;
    }
    Ok((equations, rest))
}

// One equation or more, with commas between them.
#[tactic(auto, unfolding(crate::specs::QueryReading::equation_list_at))]
fn equation_list<'a, const N: usize>(
    alloc: Global,
    c: &Context<N>,
    many: u32,
    tokens: &'a [Token],
) -> Reading<'a, Equations>
    requires { AllIn c.now.bytes.now tokens.now }
    ensures gives { GivesAs (named_all c.now.m.now c.now.bytes.now) (λ x. (x.0, named_all c.now.m.now c.now.bytes.now x.1.now)) result (equation_list_at (setting_of c.now) many (named_all c.now.m.now c.now.bytes.now tokens.now)) }
    ensures rest { IfOk result (λ x. IsShorter c.now.bytes.now tokens.now x.1.now) }
{
    let (first, rest) = equation(alloc, c, many, tokens)?;
    let equations = with_equation(List::new(alloc), first)?;
    more_equations(alloc, c, equations, rest)
}

// The same, or no equation.
fn equations<'a, const N: usize>(
    alloc: Global,
    c: &Context<N>,
    many: u32,
    tokens: &'a [Token],
) -> Reading<'a, Equations>
    requires { AllIn c.now.bytes.now tokens.now }
    ensures gives { GivesAs (named_all c.now.m.now c.now.bytes.now) (λ x. (x.0, named_all c.now.m.now c.now.bytes.now x.1.now)) result (optional_at (starts_formula (numbered (setting_of c.now))) (no_equations many) (equation_list_at (setting_of c.now) many) (named_all c.now.m.now c.now.bytes.now tokens.now)) }
    ensures rest { IfOk result (λ x. IsRest c.now.bytes.now tokens.now x.1.now) }
{
    if next_starts_formula(c, tokens) {
        equation_list(alloc, c, many, tokens)
    } else {
        let none = Equations {
            list: List::new(alloc),
            nodes_left: many,
            is_bare: false,
        };
        Ok((none, tokens))
    }
}

/// The premises before a turnstile, where they are equations, and the turnstile.
#[tactic(auto, unfolding(crate::specs::QueryReading::equation_premises_at))]
pub(crate) fn equation_premises<'a, const N: usize>(
    alloc: Global,
    c: &Context<N>,
    many: u32,
    tokens: &'a [Token],
) -> Reading<'a, Equations>
    requires { AllIn c.now.bytes.now tokens.now }
    ensures gives { GivesAs (named_all c.now.m.now c.now.bytes.now) (λ x. (x.0, named_all c.now.m.now c.now.bytes.now x.1.now)) result (equation_premises_at (setting_of c.now) many (named_all c.now.m.now c.now.bytes.now tokens.now)) }
    ensures rest { IfOk result (λ x. IsShorter c.now.bytes.now tokens.now x.1.now) }
{
    let (before, rest) = equations(alloc, c, many, tokens)?;
    let (_, rest) = sign_behind(c, before.is_bare, Class::Turnstile, rest)?;
    Ok((before, rest))
}
